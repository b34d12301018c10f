ghost use Rattle.std.specs.Prelude.{◌≡◌, [], IfSome};
ghost use Rattle.std.specs.List.{AllByRecursion};
ghost use Rattle.pw_base.specs.Outside.{KeepsSink};
ghost use Rattle.pw_base.specs.Seen.{sink_seen, GrewByLine};
ghost use Rattle.pw_model.specs.History.{StatesRequest, fault_at, replies};
ghost use Rattle.pw_drive.specs.Driven.{stopped_at};
ghost use Rattle.pw_load.specs.Seen.{outputs_seen};
ghost use Rattle.pw_load.specs.Ends.{Ended};
ghost use Rattle.pw_runs.specs.Failing.{failed_line, failed_status};
ghost use Rattle.pw_runs.specs.Runs.{PrintsRun};

use crate::refusal::say_register;
use pw_base::Sink;
use pw_load::{printed, without_memory};
use pw_model::{HistoryEntry, Reply};
use pw_plan::Plan;
use pw_script::print_known;
use pw_text::{Page, PrintFault};
use std::alloc::Global;

/// How many operations of a request were done where a register failed.
fn fault_in(entries: &[HistoryEntry]) -> Option<u32>
    ensures { result ≡ fault_at entries.now }
{
    let mut left = entries;
    while let [entry, rest @ ..] = left {
        if entry.fault > 0 {
            return Some(entry.fault - 1);
        }
        left = rest;
    }
    None
}

/// How many operations of the start, or of a request, were done where a register failed.
pub fn failed_after(opening: Option<u32>, entries: &[HistoryEntry]) -> Option<u32>
    ensures { result ≡ stopped_at opening entries.now }
{
    match opening {
        Some(done) => Some(done),
        None => fault_in(entries),
    }
}

/// Says after how many operations a register failed, by way of an empty page, unless there was no memory
/// to print the history; and the status.
pub fn end_failed<K: Sink>(
    page: &mut Page,
    err: &mut K,
    done: u32,
    outcome: Result<(), PrintFault>,
) -> u8
    requires { page.old ≡ [] }
    ensures keeps { KeepsSink K.told K.faults err.old err.new }
    ensures status { result ≡ failed_status outcome }
    ensures line { GrewByLine (sink_seen K.Sink err.old) (sink_seen K.Sink err.new)
        (failed_line done outcome) }
{
    if let Err(PrintFault::Memory) = outcome {
        return without_memory(err);
    }
    say_register(page, err, done);
    5
}

/// Prints the history of a run on the output, with its replies where they are known, and where a register
/// failed, a line on the error output, by way of an empty page. It says the status.
pub fn print_run<K: Sink>(
    alloc: Global,
    plan: &Plan,
    opening: Option<u32>,
    entries: &[HistoryEntry],
    known: Option<&[Reply]>,
    page: &mut Page,
    out: &mut K,
    err: &mut K,
) -> u8
    requires empty { page.old ≡ [] }
    requires entries { AllByRecursion (StatesRequest plan.now) entries.now }
    requires known { IfSome known (λ told. told.now ≡ replies plan.now entries.now) }
    ensures keeps_out { KeepsSink K.told K.faults out.old out.new }
    ensures keeps_err { KeepsSink K.told K.faults err.old err.new }
    ensures printed { Ended (PrintsRun plan.now opening entries.now
        (outputs_seen K.Sink out.old err.old) (outputs_seen K.Sink out.new err.new))
        (outputs_seen K.Sink out.old err.old) (outputs_seen K.Sink out.new err.new) result }
{
    let outcome = print_known(alloc, plan, opening, entries, known, out);
    match failed_after(opening, entries) {
        None => printed(err, outcome),
        Some(done) => end_failed(page, err, done, outcome),
    }
}
