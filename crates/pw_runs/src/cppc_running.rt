ghost use Rattle.std.specs.Prelude.{◌≡◌, []};
ghost use Rattle.pw_base.specs.Outside.{KeepsFiles, KeepsSink};
ghost use Rattle.aml_block.specs.Held.{names_of};
ghost use Rattle.pw_regs.specs.Seen.{registers_seen};
ghost use Rattle.pw_load.specs.Seen.{all_seen, outputs_seen};
ghost use Rattle.pw_load.specs.Ends.{Ended};
ghost use Rattle.pw_cppc_drive.specs.Reading.{Fit};
ghost use Rattle.pw_runs.specs.CppcRuns.{SteersSerially};
ghost use Rattle.pw_runs.specs.inner.CppcParts.{RunsSerially};

use crate::cppc_given::read_given;
use crate::cppc_print::print_driven;
use pw_base::{Files, Sink};
use pw_cppc::CppcPlan;
use pw_cppc_drive::{CppcScript, cppc_serial};
use pw_load::without_memory;
use pw_regs::Registers;
use pw_text::Page;
use std::alloc::Global;

/// Makes the requests of a script on the processors of a plan, and prints the history, with an empty
/// page for the error output. It says the status, and gives the registers back.
fn run<K: Sink, R: Registers>(
    alloc: Global,
    plan: CppcPlan,
    script: &CppcScript,
    page: &mut Page,
    out: &mut K,
    err: &mut K,
    regs: R,
) -> (u8, R)
    requires empty { page.old ≡ [] }
    requires fit { Fit plan script.now.lines }
    ensures keeps_out { KeepsSink K.told K.faults out.old out.new }
    ensures keeps_err { KeepsSink K.told K.faults err.old err.new }
    ensures ran { Ended (RunsSerially plan script.now.lines
        (outputs_seen K.Sink out.old err.old) (outputs_seen K.Sink out.new err.new)
        (registers_seen R.Registers regs) (registers_seen R.Registers result.1))
        (outputs_seen K.Sink out.old err.old) (outputs_seen K.Sink out.new err.new) result.0 }
{
    match cppc_serial(alloc, plan, script, regs) {
        Err(regs) => (without_memory(err), regs),
        Ok(driven) => print_driven(alloc, driven, page, out, err),
    }
}

/// Does `cppc --serial`: the script's requests, in their order, on the processors that the blocks
/// describe; prints their history. Says the status, and gives the registers back.
pub fn cppc_serially<F: Files, K: Sink, R: Registers>(
    alloc: Global,
    script: &str,
    blocks: &[&str],
    files: &mut F,
    out: &mut K,
    err: &mut K,
    regs: R,
) -> (u8, R)
    ensures keeps_files { KeepsFiles F.told F.holds F.faults files.old files.new }
    ensures keeps_out { KeepsSink K.told K.faults out.old out.new }
    ensures keeps_err { KeepsSink K.told K.faults err.old err.new }
    ensures did { Ended (SteersSerially script.now (names_of blocks.now)
        (all_seen F.Files K.Sink R.Registers files.old out.old err.old regs)
        (all_seen F.Files K.Sink R.Registers files.new out.new err.new result.1))
        (outputs_seen K.Sink out.old err.old) (outputs_seen K.Sink out.new err.new) result.0 }
{
    let Ok(mut page) = Page::new(alloc) else {
        return (without_memory(err), regs);
    };
    match read_given(alloc, files, script, blocks, &mut page, err) {
        Err(status) => (status, regs),
        Ok((plan, lines)) => run(alloc, plan, &lines, &mut page, out, err, regs),
    }
}
