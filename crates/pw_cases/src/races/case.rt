use crate::played::{Meeting, Played, play, play_alone};
use crate::races::told::{put_audit, put_counts, put_text};
use pw_base::{Gate, List, OpenGate};
use pw_machines::{plan_of, request_of, u32_at, word_at};
use pw_regs::FailingRegisters;
use pw_script::{Line, Script};
use std::alloc::Global;
use std::sync::Wait;
use std::thread::Threads;

/// As many operations as the registers have room for.
const ROOM: u32 = 1 << 10;

/// Puts the requests of lines, in their order.
fn put_requests(read: &mut Vec<Line>, lines: &str) -> Option<()> {
    for line in lines.lines() {
        if !line.is_empty() && !line.starts_with("#") {
            let request = request_of(line)?;
            read.push(Line { number: 1, request }).ok()?;
        }
    }
    Some(())
}

/// The requests of lines, in their order.
fn script_of(alloc: Global, lines: &str) -> Option<Script> {
    let mut read = Vec::new(alloc);
    put_requests(&mut read, lines)?;
    Some(Script {
        lines: List::from_vec(read),
    })
}

/// Registers that fail at the call of this number, at none where it is 0.
pub(crate) fn registers(alloc: Global, room: u32, fail: u32) -> Option<FailingRegisters> {
    let mut fails = Vec::new(alloc);
    fails.push(fail).ok()?;
    FailingRegisters::new(alloc, room, fails).ok()
}

/// A run by one caller.
fn by_one(alloc: Global, machine: &str, script: &Script, fail: u32) -> Option<Played> {
    let regs = registers(alloc, ROOM, fail)?;
    play_alone(alloc, plan_of(alloc, machine).ok()?, script, regs)
}

/// A run by workers, whose requests ask at a gate.
fn by_workers<R: Threads + Wait + Sync, G: Gate + Sync>(
    rt: &R,
    alloc: Global,
    machine: &str,
    script: &Script,
    fail: u32,
    gate: &G,
) -> Option<Played> {
    let regs = registers(alloc, ROOM, fail)?;
    play(rt, alloc, plan_of(alloc, machine).ok()?, script, regs, gate)
}

/// A run, and the line that tells what of it is amiss; None where memory was wanting to tell.
#[derive(Drop)]
struct Ran {
    played: Played,
    amiss: Option<&'static str>,
}

/// What is amiss where one caller's run has another text, or another number of operations.
fn compared(
    alloc: Global,
    machine: &str,
    script: &Script,
    fail: u32,
    played: &Played,
) -> Option<&'static str> {
    let one = by_one(alloc, machine, script, fail)?;
    let has_text = one.text.written() == played.text.written();
    let are_same = has_text && one.operations == played.operations;
    drop(one);
    Some(if are_same {
        ""
    } else {
        "one caller's run is another\n"
    })
}

/// A run of one processor's lines, whose text and registers must be those of one caller.
fn alone<R: Threads + Wait + Sync>(
    rt: &R,
    alloc: Global,
    machine: &str,
    script: &Script,
    fail: u32,
) -> Option<Ran> {
    let played = by_workers(rt, alloc, machine, script, fail, &OpenGate)?;
    let amiss = compared(alloc, machine, script, fail, &played);
    Some(Ran { played, amiss })
}

/// A run whose requests meet at a gate.
fn met<R: Threads + Wait + Sync>(
    rt: &R,
    alloc: Global,
    machine: &str,
    script: &Script,
    fail: u32,
    gate: &Meeting,
) -> Option<Ran> {
    let played = by_workers(rt, alloc, machine, script, fail, gate)?;
    let amiss = if gate.gave_up() {
        "the gate gave up\n"
    } else {
        ""
    };
    Some(Ran {
        played,
        amiss: Some(amiss),
    })
}

/// Does the run that a line asks for, `alone`, `one caller`, `hold CPU OTHER` or `crowd COUNT`, and
/// ` failing CALL` behind it where a register fails.
fn run<R: Threads + Wait + Sync>(
    rt: &R,
    alloc: Global,
    machine: &str,
    script: &Script,
    how: &str,
) -> Option<Ran> {
    let (way, fail) = how.split_once(" failing ").unwrap_or((how, "0"));
    let fail = u32_at(fail, 0)?;
    match word_at(way, 0)? {
        "alone" => alone(rt, alloc, machine, script, fail),
        "one" => Some(Ran {
            played: by_one(alloc, machine, script, fail)?,
            amiss: Some(""),
        }),
        "hold" => {
            let gate = Meeting::of_two(u32_at(way, 1)?, u32_at(way, 2)?);
            met(rt, alloc, machine, script, fail, &gate)
        }
        _ => {
            let gate = Meeting::of_all(u32_at(way, 1)?);
            met(rt, alloc, machine, script, fail, &gate)
        }
    }
}

/// Tells what is amiss of a run, the text of its history where that is certain, and one caller's summary.
fn put_ran(text: &mut String, how: &str, ran: &Ran) -> Option<()> {
    text.push_str(ran.amiss?).ok()?;
    if !how.starts_with("crowd ") {
        put_text(text, ran.played.text.written())?;
    }
    match &ran.played.summary {
        Some(summary) if how.starts_with("one ") => put_text(text, summary.written()),
        _ => Some(()),
    }
}

/// Tells how many entries and operations a run has, and what the audit says of its text.
fn put_end(
    text: &mut String,
    alloc: Global,
    machine: &str,
    script: &Script,
    played: &Played,
) -> Option<()> {
    put_counts(text, played)?;
    let plan = plan_of(alloc, machine).ok()?;
    let told = put_audit(text, alloc, &plan, script, played.text.written());
    drop(plan);
    told
}

/// Does the run that a line asks for, and tells what came of it.
fn put_run<R: Threads + Wait + Sync>(
    rt: &R,
    text: &mut String,
    alloc: Global,
    machine: &str,
    script: &Script,
    how: &str,
) -> Option<()> {
    let ran = run(rt, alloc, machine, script, how)?;
    let told = match put_ran(text, how, &ran) {
        None => None,
        Some(()) => put_end(text, alloc, machine, script, &ran.played),
    };
    drop(ran);
    told
}

/// Tells what comes of the run of a case: containers and processors, how it is run, and requests, a line
/// each.
pub(crate) fn put_case<R: Threads + Wait + Sync>(
    rt: &R,
    text: &mut String,
    alloc: Global,
    lines: &str,
) -> Option<()> {
    let (machine, rest) = lines.split_once("\nrun ")?;
    let (how, asked) = rest.split_once("\n")?;
    let script = script_of(alloc, asked)?;
    let told = put_run(rt, text, alloc, machine, &script, how);
    drop(script);
    told
}
