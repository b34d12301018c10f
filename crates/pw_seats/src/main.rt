//! Worked calls on the coordinators that many callers share: of states (`data/calls.txt`), also by requests
//! in two steps (`data/step_calls.txt`), and of desired performance (`data/desk_calls.txt`). Each lists
//! cases: of each the containers and processors of a machine, how the coordinator is opened, and calls by
//! its seats. What each call tells is printed, and at the end what the closed history has, and whether one
//! caller alone would have been told the same there, or would have done the same operations.
//!
//! `pair` is the example of a program that shares a coordinator between threads of its own. It comes last,
//! or alone where its name is the only word.
#![tactic(auto)]

mod ask;
mod case;
mod crew;
mod desk;
mod pair;
mod play;
mod replay;
mod seats;
mod steps;
mod text;

use pair::print_pair;
use std::alloc::Global;
use std::sync::Wait;
use std::thread::Threads;
use std::{env, fs, io};

/// A list of cases.
#[derive(Clone, Copy)]
enum List {
    Calls,
    StepCalls,
    DeskCalls,
}

/// What the calls of a case tell.
fn told<T: Threads + Wait + Sync>(
    threads: &T,
    alloc: Global,
    list: List,
    lines: &str,
) -> Option<String> {
    match list {
        List::Calls => case::told(threads, alloc, lines),
        List::StepCalls => steps::told(threads, alloc, lines),
        List::DeskCalls => desk::case::told(threads, alloc, lines),
    }
}

/// Prints what a case told behind its name.
fn print_told(rt: &HostRuntime, name: &str, told: Option<String>) -> io::Result<()> {
    match told {
        None => println!(rt; "{name}: can't be read, or want of memory"),
        Some(told) => println!(rt; "{name}\n{told}"),
    }
}

/// Prints what each of these cases tells.
fn print_cases<T: Threads + Wait + Sync>(
    rt: &HostRuntime,
    threads: &T,
    list: List,
    cases: &str,
) -> io::Result<()> {
    for block in cases.split("\ncase ").skip(1) {
        let (name, lines) = block.split_once("\n").unwrap_or((block, ""));
        print_told(rt, name, told(threads, rt.alloc(), list, lines))?;
    }
    Ok(())
}

fn print_list<T: Threads + Wait + Sync>(
    rt: &HostRuntime,
    threads: &T,
    list: List,
) -> io::Result<()> {
    let file = match list {
        List::Calls => "calls.txt",
        List::StepCalls => "step_calls.txt",
        List::DeskCalls => "desk_calls.txt",
    };
    let cases = fs::read_to_string(rt, file)?;
    print_cases(rt, threads, list, cases.as_str())
}

/// Whether the only word behind the program's name is `pair`.
fn is_pair_alone(rt: &HostRuntime) -> io::Result<bool> {
    let mut words = env::args(rt)?.skip(1);
    let is_pair = words.next().is_some_and(|word| word.as_str() == "pair");
    Ok(is_pair && words.next().is_none())
}

fn main(rt: HostRuntime) -> io::Result<()> {
    if !is_pair_alone(&rt)? {
        print_list(&rt, &rt, List::Calls)?;
        print_list(&rt, &rt, List::StepCalls)?;
        print_list(&rt, &rt, List::DeskCalls)?;
    }
    print_pair(&rt, &rt)
}
