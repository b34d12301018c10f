//! Worked machines, and what their processors ask for. `data/machines.txt` lists them: of each its
//! containers and processors, and lines of requests and of what they must be answered and operate. Each
//! request is made of the coordinator of one caller, and of the records. One line a machine says whether
//! it came out so.

mod about;
mod case;
mod chains;
mod records;
mod run;
mod walk;

use crate::print_came;
use crate::steps::case::came;
use std::{fs, io};

/// Prints what comes of each machine of the list.
pub(crate) fn print_all(rt: &HostRuntime) -> io::Result<()> {
    let list = fs::read_to_string(rt, "machines.txt")?;
    print_list(rt, list.as_str())
}

fn print_list(rt: &HostRuntime, list: &str) -> io::Result<()> {
    for block in list.split("\ncase ").skip(1) {
        let (name, lines) = block.split_once("\n").unwrap_or((block, ""));
        print_came(rt, name, came(rt.alloc(), lines))?;
    }
    Ok(())
}
