//! The run of a script by workers, one for each processor with lines.
ghost use Rattle.std.specs.Prelude.{◌≡◌, ◌≤◌, [], length};
ghost use Rattle.std.specs.List.{AllByRecursion};
ghost use Rattle.pw_base.specs.Outside.{KeepsFiles, KeepsSink};
ghost use Rattle.pw_plan.specs.Requests.{Has};
ghost use Rattle.aml_block.specs.Held.{names_of};
ghost use Rattle.pw_regs.specs.Seen.{registers_seen};
ghost use Rattle.pw_script.specs.declared.script.Line.{Line as line};
ghost use Rattle.pw_load.specs.Seen.{all_seen, outputs_seen};
ghost use Rattle.pw_load.specs.Ends.{Ended};
ghost use Rattle.pw_runs.specs.Workers.{Drives};
ghost use Rattle.pw_runs.specs.inner.Works.{Works};

use crate::given::read_given;
use crate::outcome::{Outcome, handed_on};
use crate::print::print_run;
use pw_base::{Files, Gate, Sink};
use pw_drive::Drove;
use pw_load::without_memory;
use pw_plan::Plan;
use pw_regs::Registers;
use pw_script::Script;
use pw_text::Page;
use std::alloc::Global;
use std::sync::Wait;
use std::thread::Threads;

/// Lets workers make the requests of a script on the machine of a plan, and prints the history, with an
/// empty page for the error output. It says the status, gives the registers back, and hands on what the
/// coordinator gave.
fn work<T: Threads + Wait + Sync, K: Sink, R: Registers + Send, G: Gate + Sync>(
    rt: &T,
    alloc: Global,
    plan: Plan,
    script: &Script,
    page: &mut Page,
    out: &mut K,
    err: &mut K,
    regs: R,
    gate: &G,
) -> Outcome<R>
    requires empty { page.old ≡ [] }
    requires few { length script.now.lines ≤ 65536 }
    requires has { AllByRecursion (λ (l : line). Has plan l.request) script.now.lines }
    ensures keeps_out { KeepsSink K.told K.faults out.old out.new }
    ensures keeps_err { KeepsSink K.told K.faults err.old err.new }
    ensures worked { Ended (Works plan script.now.lines result.sealed
        (outputs_seen K.Sink out.old err.old) (outputs_seen K.Sink out.new err.new)
        (registers_seen R.Registers regs) (registers_seen R.Registers result.regs))
        (outputs_seen K.Sink out.old err.old) (outputs_seen K.Sink out.new err.new) result.status }
{
    match pw_drive::drive(rt, alloc, plan, script, regs, gate) {
        Err(regs) => Outcome {
            status: without_memory(err),
            regs,
            sealed: None,
        },
        Ok(Drove::Opening { done, plan, regs }) => {
            let status = print_run(alloc, &plan, Some(done), &[], None, page, out, err);
            drop(plan);
            Outcome {
                status,
                regs,
                sealed: None,
            }
        }
        Ok(Drove::Closed { closed, replies }) => {
            let (sealed, regs) = closed.into_parts();
            let (plan, entries) = (sealed.plan(), sealed.entries());
            let known = Some(replies.as_slice());
            let status = print_run(alloc, plan, None, entries, known, page, out, err);
            drop(replies);
            Outcome {
                status,
                regs,
                sealed: handed_on(status, sealed),
            }
        }
    }
}

/// Does `drive`: the script's requests on the machine that the blocks describe, by one worker for each
/// processor, side by side; prints their history. Says the status, gives the registers back, and hands
/// on what the coordinator gave.
pub fn drive<T: Threads + Wait + Sync, F: Files, K: Sink, R: Registers + Send, G: Gate + Sync>(
    rt: &T,
    alloc: Global,
    step: bool,
    script: &str,
    blocks: &[&str],
    files: &mut F,
    out: &mut K,
    err: &mut K,
    regs: R,
    gate: &G,
) -> Outcome<R>
    ensures keeps_files { KeepsFiles F.told F.holds F.faults files.old files.new }
    ensures keeps_out { KeepsSink K.told K.faults out.old out.new }
    ensures keeps_err { KeepsSink K.told K.faults err.old err.new }
    ensures did { Ended (Drives step script.now (names_of blocks.now) result.sealed
        (all_seen F.Files K.Sink R.Registers files.old out.old err.old regs)
        (all_seen F.Files K.Sink R.Registers files.new out.new err.new result.regs))
        (outputs_seen K.Sink out.old err.old) (outputs_seen K.Sink out.new err.new) result.status }
{
    let Ok(mut page) = Page::new(alloc) else {
        return Outcome {
            status: without_memory(err),
            regs,
            sealed: None,
        };
    };
    match read_given(alloc, files, step, script, blocks, &mut page, err) {
        Err(status) => Outcome {
            status,
            regs,
            sealed: None,
        },
        Ok((plan, lines)) => work(rt, alloc, plan, &lines, &mut page, out, err, regs, gate),
    }
}
