//! Conformance vectors of processor tables. `data/vectors.txt` lists them: of each its name, the kind of
//! object, the width of integers, its bytes, and what they are read as; where `=` stands between them,
//! that is written as the same bytes. One line a vector says whether it came out so. `data/places.txt` lists
//! good tables, and what is read of each where one place or two of it are changed; a line says of a table
//! whether each came out so. Last come calls of the crates below these, once each, a line for each call.
#![tactic(auto)]

mod calls;
mod fields;
mod objects;
mod places;
mod tables;
mod told;
mod vector;

use calls::print_calls;
use places::table_came;
use std::{fs, io};
use vector::came;

fn print_vectors(rt: &HostRuntime) -> io::Result<()> {
    let list = fs::read_to_string(rt, "vectors.txt")?;
    for line in list.as_str().lines() {
        if line.is_empty() || line.starts_with("#") {
            continue;
        }
        let (name, vector) = line.split_once(" ").unwrap_or((line, ""));
        match came(rt.alloc(), vector) {
            None => println!(rt; "{name}: can't be read, or want of memory")?,
            Some(came) => println!(rt; "{name}: {came}")?,
        }
    }
    Ok(())
}

fn print_tables(rt: &HostRuntime) -> io::Result<()> {
    let list = fs::read_to_string(rt, "places.txt")?;
    for table in list.as_str().split("\ntable ").skip(1) {
        let (head, lines) = table.split_once("\n").unwrap_or((table, ""));
        let (name, kind) = head.split_once(" ").unwrap_or((head, ""));
        match table_came(rt.alloc(), kind, lines) {
            None => println!(rt; "{name}: can't be read, or want of memory")?,
            Some(came) => println!(rt; "{name}: {came}")?,
        }
    }
    Ok(())
}

fn main(rt: HostRuntime) -> io::Result<()> {
    print_vectors(&rt)?;
    print_tables(&rt)?;
    print_calls(&rt)
}
