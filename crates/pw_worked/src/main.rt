//! Worked machines, by one caller: what their processors ask for (`steps`), and scripts with their
//! histories (`scripts`). Each is a list of cases under `data/`. One line a case says whether it came out
//! as the list says.
#![tactic(auto)]

mod scripts;
mod steps;

use std::alloc::Global;
use std::io;

/// What comes of a case that tells what it must.
pub(crate) fn well(alloc: Global) -> Option<String> {
    String::from_str(alloc, "as it must be").ok()
}

/// Prints what comes of a case behind its name.
pub(crate) fn print_came(rt: &HostRuntime, name: &str, came: Option<String>) -> io::Result<()> {
    match came {
        None => println!(rt; "{name}: can't be read or told, or want of memory"),
        Some(came) => println!(rt; "{name}: {came}"),
    }
}

fn main(rt: HostRuntime) -> io::Result<()> {
    steps::print_all(&rt)?;
    scripts::print_all(&rt)
}
