//! Whole runs of the program over files and outputs in memory. `data/cases.txt` lists them: of each its
//! name, its files, its words, and the status, output and error output that must come. One line a case
//! says whether they came. Then come runs by workers (`races`).
#![tactic(auto)]

mod bytes;
mod case;
mod outside;
mod played;
mod races;

use case::Case;
use races::case::put_case;
use races::put_generated;
use std::alloc::Global;
use std::mem::replace;
use std::sync::Wait;
use std::thread::Threads;
use std::{fs, io};

/// Begins the case that a line names: with nothing of the one before, with its file `a`, with its files
/// `a` and `c`, or with all but its outside.
fn begun<'a>(alloc: Global, case: &mut Case, line: &'a str) -> Option<&'a str> {
    if let Some(name) = line.strip_prefix("case ") {
        drop(replace(case, Case::new(alloc)));
        return Some(name);
    }
    if let Some(name) = line.strip_prefix("other ") {
        case.other();
        return Some(name);
    }
    if let Some(name) = line.strip_prefix("anew ") {
        case.anew();
        return Some(name);
    }
    let name = line.strip_prefix("again ")?;
    case.again();
    Some(name)
}

/// Reads a line that begins no case. A line with the case's status ends it, and says what came of it.
fn took<T: Threads + Wait + Sync>(
    rt: &T,
    alloc: Global,
    case: &mut Case,
    line: &str,
) -> Option<Option<&'static str>> {
    match line.strip_prefix("status ") {
        Some(status) => Some(Some(case.run(rt, alloc, status.parse::<u8>().ok()?)?)),
        None => {
            case.read(alloc, line)?;
            Some(None)
        }
    }
}

/// Tells of each case of a list.
fn print_cases<T: Threads + Wait + Sync>(
    rt: &HostRuntime,
    threads: &T,
    case: &mut Case,
    list: &str,
) -> io::Result<()> {
    let mut case_name = "";
    for line in list.lines() {
        if let Some(name) = begun(rt.alloc(), case, line) {
            case_name = name;
            continue;
        }
        match took(threads, rt.alloc(), case, line) {
            None => println!(rt; "{case_name}: can't be read, or want of memory: {line}")?,
            Some(Some(came)) => println!(rt; "{case_name}: {came}")?,
            Some(None) => {}
        }
    }
    Ok(())
}

/// Tells of each run of a list.
fn print_races<T: Threads + Wait + Sync>(
    rt: &HostRuntime,
    threads: &T,
    text: &mut String,
    list: &str,
) -> io::Result<()> {
    for block in list.split("\ncase ").skip(1) {
        let (name, lines) = block.split_once("\n").unwrap_or((block, ""));
        text.clear();
        match put_case(threads, text, rt.alloc(), lines) {
            None => println!(rt; "{name}: can't be read, or want of memory")?,
            Some(()) => print!(rt; "{name}\n{text}")?,
        }
    }
    Ok(())
}

/// Tells of the runs of machines that are generated.
fn print_generated<T: Threads + Wait + Sync>(
    rt: &HostRuntime,
    threads: &T,
    text: &mut String,
) -> io::Result<()> {
    text.clear();
    match put_generated(threads, text, rt.alloc()) {
        None => println!(rt; "want of memory"),
        Some(()) => print!(rt; "{text}"),
    }
}

/// Tells of the runs by workers.
fn print_runs<T: Threads + Wait + Sync>(rt: &HostRuntime, threads: &T) -> io::Result<()> {
    let list = fs::read_to_string(rt, "runs.txt")?;
    let mut text = String::new(rt.alloc());
    print_races(rt, threads, &mut text, list.as_str())?;
    print_generated(rt, threads, &mut text)
}

fn main(rt: HostRuntime) -> io::Result<()> {
    let list = fs::read_to_string(&rt, "cases.txt")?;
    let mut case = Case::new(rt.alloc());
    let told = print_cases(&rt, &rt, &mut case, list.as_str());
    drop(case);
    drop(list);
    told?;
    print_runs(&rt, &rt)
}
