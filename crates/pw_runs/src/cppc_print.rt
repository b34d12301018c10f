ghost use Rattle.std.specs.Prelude.{◌≡◌, [], IfSome};
ghost use Rattle.std.specs.List.{AllByRecursion};
ghost use Rattle.pw_base.specs.Outside.{KeepsSink};
ghost use Rattle.pw_load.specs.Seen.{outputs_seen};
ghost use Rattle.pw_load.specs.Ends.{Ended};
ghost use Rattle.pw_cppc.specs.History.{StatesRequest, fault_at, replies, stopped_at};
ghost use Rattle.pw_runs.specs.CppcRuns.{PrintsRun};

use crate::end_failed;
use pw_base::Sink;
use pw_cppc::{CppcEntry, CppcPlan, CppcReply};
use pw_cppc_drive::{CppcDriven, cppc_print_known};
use pw_load::printed;
use pw_text::Page;
use std::alloc::Global;

/// How many operations of a request were done where a register failed.
fn fault_in(entries: &[CppcEntry]) -> Option<u32>
    ensures { result ≡ fault_at entries.now }
{
    let mut left = entries;
    while let [entry, rest @ ..] = left {
        if entry.fault > 0 {
            return Some(entry.fault - 1);
        }
        left = rest;
    }
    None
}

/// How many operations of the start, or of a request, were done where a register failed.
fn failed_after(opening: Option<u32>, entries: &[CppcEntry]) -> Option<u32>
    ensures { result ≡ stopped_at opening entries.now }
{
    match opening {
        Some(done) => Some(done),
        None => fault_in(entries),
    }
}

/// Prints the history of a run on the output, with its replies where they are known, and where a register
/// failed, a line on the error output, by way of an empty page. It says the status.
fn print_run<K: Sink>(
    alloc: Global,
    plan: &CppcPlan,
    opening: Option<u32>,
    entries: &[CppcEntry],
    known: Option<&[CppcReply]>,
    page: &mut Page,
    out: &mut K,
    err: &mut K,
) -> u8
    requires empty { page.old ≡ [] }
    requires entries { AllByRecursion (StatesRequest plan.now) entries.now }
    requires known { IfSome known (λ told. told.now ≡ replies plan.now entries.now) }
    ensures keeps_out { KeepsSink K.told K.faults out.old out.new }
    ensures keeps_err { KeepsSink K.told K.faults err.old err.new }
    ensures printed { Ended (PrintsRun plan.now opening entries.now
        (outputs_seen K.Sink out.old err.old) (outputs_seen K.Sink out.new err.new))
        (outputs_seen K.Sink out.old err.old) (outputs_seen K.Sink out.new err.new) result }
{
    let outcome = cppc_print_known(alloc, plan, opening, entries, known, out);
    match failed_after(opening, entries) {
        None => printed(err, outcome),
        Some(done) => end_failed(page, err, done, outcome),
    }
}

/// Prints the history of what was driven, by way of an empty page. It says the status, and gives the
/// registers back.
pub fn print_driven<K: Sink, R>(
    alloc: Global,
    driven: CppcDriven<R>,
    page: &mut Page,
    out: &mut K,
    err: &mut K,
) -> (u8, R)
    requires empty { page.old ≡ [] }
    requires entries { AllByRecursion (StatesRequest driven.plan) driven.entries }
    requires known { IfSome driven.replies (λ told. told ≡ replies driven.plan driven.entries) }
    ensures keeps_out { KeepsSink K.told K.faults out.old out.new }
    ensures keeps_err { KeepsSink K.told K.faults err.old err.new }
    ensures regs { result.1 ≡ driven.regs }
    ensures printed { Ended (PrintsRun driven.plan driven.opening driven.entries
        (outputs_seen K.Sink out.old err.old) (outputs_seen K.Sink out.new err.new))
        (outputs_seen K.Sink out.old err.old) (outputs_seen K.Sink out.new err.new) result.0 }
{
    let CppcDriven {
        plan,
        opening,
        entries,
        replies,
        regs,
    } = driven;
    let entries = entries.as_slice();
    let known = match &replies {
        None => None,
        Some(replies) => Some(replies.as_slice()),
    };
    let status = print_run(alloc, &plan, opening, entries, known, page, out, err);
    drop(plan);
    (status, regs)
}
