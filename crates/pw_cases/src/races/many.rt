use crate::played::{Played, machine_of, play, play_alone};
use crate::races::case::registers;
use crate::races::told::{operations_in, put_text};
use pw_audit::{Audit, AuditFault, audit, audit_trace};
use pw_base::OpenGate;
use pw_plan::Plan;
use pw_script::Script;
use std::alloc::Global;
use std::sync::Wait;
use std::thread::Threads;

/// As many operations as the registers have room for.
const ROOM: u32 = 1 << 16;

/// A machine that is generated with so many containers, and the load for it.
#[derive(Drop)]
struct Trial {
    containers: u32,
    plan: Plan,
    script: Script,
}

impl Trial {
    fn new(alloc: Global, containers: u32) -> Option<Trial> {
        let (plan, script) = machine_of(alloc, containers)?;
        Some(Trial {
            containers,
            plan,
            script,
        })
    }

    /// Its plan, made once more.
    fn plan_again(&self, alloc: Global) -> Option<Plan> {
        let (plan, script) = machine_of(alloc, self.containers)?;
        drop(script);
        Some(plan)
    }

    /// A run by workers on registers that fail at this call.
    fn run<R: Threads + Wait + Sync>(&self, rt: &R, alloc: Global, fail: u32) -> Option<Played> {
        let regs = registers(alloc, ROOM, fail)?;
        let Some(plan) = self.plan_again(alloc) else {
            drop(regs);
            return None;
        };
        play(rt, alloc, plan, &self.script, regs, &OpenGate)
    }

    /// The run of one caller.
    fn run_alone(&self, alloc: Global) -> Option<Played> {
        let regs = registers(alloc, ROOM, 0)?;
        let Some(plan) = self.plan_again(alloc) else {
            drop(regs);
            return None;
        };
        play_alone(alloc, plan, &self.script, regs)
    }

    /// Whether the audit accepts the text of a run, as a history and as a trace, with as many entries as it
    /// has, and with the operations that the registers saw.
    fn is_lawful(&self, alloc: Global, played: &Played) -> bool {
        let written = played.text.written();
        let answer = audit(alloc, &self.plan, &self.script, written);
        let has_all = has_entries(&answer, played.entries);
        drop(answer);
        let answer = audit_trace(alloc, &self.plan, &self.script, written);
        let is_trace = has_entries(&answer, played.entries);
        drop(answer);
        has_all && is_trace && operations_in(written) == Some(played.operations)
    }
}

/// Whether the audit accepts a text with so many entries.
fn has_entries(answer: &Result<Audit, AuditFault>, entries: usize) -> bool {
    match answer {
        Ok(shown) => shown.entries.as_slice().len() == entries,
        Err(_) => false,
    }
}

/// The summary of a run, where it has one.
fn summary_of<'a>(played: &'a Played) -> Option<&'a [u8]> {
    match &played.summary {
        None => None,
        Some(summary) => Some(summary.written()),
    }
}

/// Whether this call was the last that the registers saw: all before it were done, and none after it.
fn ended_at(played: &Played, call: u32) -> bool {
    played.operations.checked_add(1) == Some(call as usize)
}

/// One more where a test holds.
fn counted(count: u32, holds: bool) -> u32 {
    count.saturating_add(u32::from(holds))
}

/// How many runs are lawful, have an entry for each line, and one caller's summary.
#[derive(Clone, Copy)]
struct Tally {
    lawful: u32,
    whole: u32,
    same: u32,
}

/// Makes so many runs, and counts them.
fn tally_runs<R: Threads + Wait + Sync>(
    rt: &R,
    alloc: Global,
    trial: &Trial,
    times: u32,
    summary: &[u8],
) -> Option<Tally> {
    let lines = trial.script.lines.as_slice().len();
    let (mut lawful, mut whole, mut same) = (0, 0, 0);
    for _run in 0..times {
        let played = trial.run(rt, alloc, 0)?;
        lawful = counted(lawful, trial.is_lawful(alloc, &played));
        whole = counted(whole, played.entries == lines);
        same = counted(same, summary_of(&played) == Some(summary));
        drop(played);
    }
    Some(Tally {
        lawful,
        whole,
        same,
    })
}

/// Makes runs in each of which a register fails at another call, and counts those that are lawful, and those
/// that end with that fault.
fn tally_faults<R: Threads + Wait + Sync>(
    rt: &R,
    alloc: Global,
    trial: &Trial,
    fails: &[u32],
) -> Option<(u32, u32)> {
    let (mut lawful, mut ended) = (0, 0);
    for fail in fails {
        let played = trial.run(rt, alloc, *fail)?;
        let ends = played.summary.is_none() && ended_at(&played, *fail);
        lawful = counted(lawful, trial.is_lawful(alloc, &played));
        ended = counted(ended, ends);
        drop(played);
    }
    Some((lawful, ended))
}

/// Tells what came of so many runs.
fn put_tally(text: &mut String, trial: &Trial, times: u32, tally: Tally) -> Option<()> {
    let Tally {
        lawful,
        whole,
        same,
    } = tally;
    let (size, lines) = (trial.containers, trial.script.lines.as_slice().len());
    write!(text, "{times} runs of {size} containers: {lawful} lawful, ").ok()?;
    writeln!(
        text,
        "{whole} with {lines} entries, {same} with one summary"
    )
    .ok()
}

/// Makes so many runs, and tells how many have this summary, which is one caller's; and the summary.
fn put_compared<R: Threads + Wait + Sync>(
    rt: &R,
    text: &mut String,
    alloc: Global,
    trial: &Trial,
    times: u32,
    summary: &[u8],
) -> Option<()> {
    let tally = tally_runs(rt, alloc, trial, times, summary)?;
    put_tally(text, trial, times, tally)?;
    put_text(text, summary)
}

/// The same of this trial.
fn put_runs_of<R: Threads + Wait + Sync>(
    rt: &R,
    text: &mut String,
    alloc: Global,
    trial: &Trial,
    times: u32,
) -> Option<()> {
    let one = trial.run_alone(alloc)?;
    let told = match summary_of(&one) {
        None => None,
        Some(summary) => put_compared(rt, text, alloc, trial, times, summary),
    };
    drop(one);
    told
}

/// How many of so many runs are lawful, have an entry for each line, and the summary of one caller's
/// run; and that summary.
pub(crate) fn put_runs<R: Threads + Wait + Sync>(
    rt: &R,
    text: &mut String,
    alloc: Global,
    containers: u32,
    times: u32,
) -> Option<()> {
    let trial = Trial::new(alloc, containers)?;
    let told = put_runs_of(rt, text, alloc, &trial, times);
    drop(trial);
    told
}

/// How many of so many runs, in each of which a register fails at another call, are lawful, and end with
/// that fault.
pub(crate) fn put_faults<R: Threads + Wait + Sync>(
    rt: &R,
    text: &mut String,
    alloc: Global,
    containers: u32,
    fails: &[u32],
) -> Option<()> {
    let trial = Trial::new(alloc, containers)?;
    let tally = tally_faults(rt, alloc, &trial, fails);
    drop(trial);
    let (lawful, ended) = tally?;
    let times = fails.len();
    write!(
        text,
        "{times} runs of {containers} containers with a register that fails: "
    )
    .ok()?;
    writeln!(text, "{lawful} lawful, {ended} ended there").ok()
}
