//! The run of a script by workers, one for each processor with lines.
ghost use Rattle.std.specs.Prelude.{◌≡◌, []};
ghost use Rattle.pw_base.specs.Outside.{KeepsFiles, KeepsSink};
ghost use Rattle.aml_block.specs.Held.{names_of};
ghost use Rattle.pw_regs.specs.Seen.{registers_seen};
ghost use Rattle.pw_load.specs.Seen.{all_seen, outputs_seen};
ghost use Rattle.pw_load.specs.Ends.{Ended};
ghost use Rattle.pw_cppc_drive.specs.Reading.{Fit};
ghost use Rattle.pw_runs.specs.CppcWorkers.{Steers};
ghost use Rattle.pw_runs.specs.inner.CppcWorks.{Works};

use crate::cppc_given::read_given;
use crate::cppc_print::print_driven;
use pw_base::{Files, Sink};
use pw_cppc::CppcPlan;
use pw_cppc_drive::{CppcScript, cppc_drive};
use pw_load::without_memory;
use pw_regs::Registers;
use pw_text::Page;
use std::alloc::Global;
use std::sync::Wait;
use std::thread::Threads;

/// Lets workers make the requests of a script on the processors of a plan, and prints the history, with
/// an empty page for the error output. It says the status, and gives the registers back.
fn work<T: Threads + Wait + Sync, K: Sink, R: Registers + Send>(
    rt: &T,
    alloc: Global,
    plan: CppcPlan,
    script: &CppcScript,
    page: &mut Page,
    out: &mut K,
    err: &mut K,
    regs: R,
) -> (u8, R)
    requires empty { page.old ≡ [] }
    requires fit { Fit plan script.now.lines }
    ensures keeps_out { KeepsSink K.told K.faults out.old out.new }
    ensures keeps_err { KeepsSink K.told K.faults err.old err.new }
    ensures worked { Ended (Works plan script.now.lines
        (outputs_seen K.Sink out.old err.old) (outputs_seen K.Sink out.new err.new)
        (registers_seen R.Registers regs) (registers_seen R.Registers result.1))
        (outputs_seen K.Sink out.old err.old) (outputs_seen K.Sink out.new err.new) result.0 }
{
    match cppc_drive(rt, alloc, plan, script, regs) {
        Err(regs) => (without_memory(err), regs),
        Ok(driven) => print_driven(alloc, driven, page, out, err),
    }
}

/// Does `cppc`: the script's requests on the processors that the blocks describe, by one worker for each
/// processor, side by side; prints their history. Says the status, and gives the registers back.
pub fn cppc<T: Threads + Wait + Sync, F: Files, K: Sink, R: Registers + Send>(
    rt: &T,
    alloc: Global,
    script: &str,
    blocks: &[&str],
    files: &mut F,
    out: &mut K,
    err: &mut K,
    regs: R,
) -> (u8, R)
    ensures keeps_files { KeepsFiles F.told F.holds F.faults files.old files.new }
    ensures keeps_out { KeepsSink K.told K.faults out.old out.new }
    ensures keeps_err { KeepsSink K.told K.faults err.old err.new }
    ensures did { Ended (Steers script.now (names_of blocks.now)
        (all_seen F.Files K.Sink R.Registers files.old out.old err.old regs)
        (all_seen F.Files K.Sink R.Registers files.new out.new err.new result.1))
        (outputs_seen K.Sink out.old err.old) (outputs_seen K.Sink out.new err.new) result.0 }
{
    let Ok(mut page) = Page::new(alloc) else {
        return (without_memory(err), regs);
    };
    match read_given(alloc, files, script, blocks, &mut page, err) {
        Err(status) => (status, regs),
        Ok((plan, lines)) => work(rt, alloc, plan, &lines, &mut page, out, err, regs),
    }
}
