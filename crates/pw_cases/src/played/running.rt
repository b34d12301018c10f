ghost use Rattle.std.specs.Prelude.{◌≤◌, length, IsTrue};
ghost use Rattle.std.specs.List.{AllByRecursion};
ghost use Rattle.pw_text.specs.declared.script.TheConstants.{MOST_LINES};
ghost use Rattle.pw_plan.specs.Requests.{Has};
ghost use Rattle.pw_script.specs.declared.script.Line.{Line as asked};

use super::telling::{Played, told};
use pw_base::Gate;
use pw_drive::{Drove, drive, serial};
use pw_plan::Plan;
use pw_regs::FailingRegisters;
use pw_script::{Line, Script};
use pw_text::MOST_LINES;
use std::alloc::Global;
use std::sync::Wait;
use std::thread::Threads;

/// Whether each line is of a processor of the plan.
fn are_of(plan: &Plan, lines: &[Line]) -> bool
    ensures { IsTrue result → AllByRecursion (λ (l : asked). Has plan.now l.request) lines.now }
{
    let mut left = lines;
    while let [line, rest @ ..] = left {
        if !plan.has(&line.request) {
            return false;
        }
        left = rest;
    }
    true
}

/// Whether these are no more lines than a script may have, each of a processor of the plan.
fn can_be_asked(plan: &Plan, lines: &[Line]) -> bool
    ensures few { IsTrue result → length lines.now ≤ MOST_LINES }
    ensures has { IsTrue result → AllByRecursion (λ (l : asked). Has plan.now l.request) lines.now }
{
    lines.len() <= MOST_LINES as usize && are_of(plan, lines)
}

/// What comes of a script by one worker for each processor that it names. None where a line can't be asked of
/// the plan, and for want of memory.
pub(crate) fn play<T: Threads + Wait + Sync, G: Gate + Sync>(
    rt: &T,
    alloc: Global,
    plan: Plan,
    script: &Script,
    regs: FailingRegisters,
    gate: &G,
) -> Option<Played> {
    if !can_be_asked(&plan, script.lines.as_slice()) {
        drop((plan, regs));
        return None;
    }
    match drive(rt, alloc, plan, script, regs, gate) {
        Ok(Drove::Closed { closed, replies }) => {
            let sealed = closed.sealed();
            let played = told(alloc, sealed.plan(), None, sealed.entries(), closed.regs());
            drop((closed, replies));
            played
        }
        Ok(Drove::Opening { done, plan, regs }) => {
            let played = told(alloc, &plan, Some(done), &[], &regs);
            drop((plan, regs));
            played
        }
        Err(regs) => {
            drop(regs);
            None
        }
    }
}

/// The same by one caller, in the order of the lines.
pub(crate) fn play_alone(
    alloc: Global,
    plan: Plan,
    script: &Script,
    regs: FailingRegisters,
) -> Option<Played> {
    if !can_be_asked(&plan, script.lines.as_slice()) {
        drop((plan, regs));
        return None;
    }
    let driven = serial(alloc, plan, script, regs).ok()?;
    let entries = driven.entries.as_slice();
    let played = told(alloc, &driven.plan, driven.opening, entries, &driven.regs);
    drop(driven);
    played
}
