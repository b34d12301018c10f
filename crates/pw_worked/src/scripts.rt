//! Scripts, and the histories that come of them. `data/scripts.txt` lists them: for each machine its
//! containers and processors, and cases. A case has lines of a script, the functions that it is read
//! with, the requests that its lines must become or why it must be refused, and the text of the history
//! that must come. One line a case says whether it came out so.

mod case;
mod entries;
mod history;
mod outcome;
mod reading;
mod text;

use crate::print_came;
use crate::scripts::outcome::came;
use pw_machines::plan_of;
use pw_plan::Plan;
use std::{fs, io};

/// Prints what comes of each case of a machine's plan.
fn print_cases(rt: &HostRuntime, plan: &Plan, cases: &str) -> io::Result<()> {
    for block in cases.split("\ncase ") {
        let (name, lines) = block.split_once("\n").unwrap_or((block, ""));
        print_came(rt, name, came(rt.alloc(), plan, lines))?;
    }
    Ok(())
}

/// Prints what comes of each case of a machine.
fn print_machine(rt: &HostRuntime, block: &str) -> io::Result<()> {
    let (machine, cases) = block.split_once("\ncase ").unwrap_or((block, ""));
    let (name, parts) = machine.split_once("\n").unwrap_or((machine, ""));
    match plan_of(rt.alloc(), parts) {
        Err(_) => println!(rt; "no plan of {name}"),
        Ok(plan) => {
            let printed = print_cases(rt, &plan, cases);
            drop(plan);
            printed
        }
    }
}

fn print_list(rt: &HostRuntime, list: &str) -> io::Result<()> {
    for block in list.split("\nmachine ").skip(1) {
        print_machine(rt, block)?;
    }
    Ok(())
}

/// Prints what comes of each case of the list.
pub(crate) fn print_all(rt: &HostRuntime) -> io::Result<()> {
    let list = fs::read_to_string(rt, "scripts.txt")?;
    print_list(rt, list.as_str())
}
