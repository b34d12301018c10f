ghost use Rattle.std.specs.Prelude.{◌≡◌, ◌≤◌, [], None, length};
ghost use Rattle.std.specs.List.{AllByRecursion};
ghost use Rattle.pw_base.specs.Outside.{KeepsFiles, KeepsSink};
ghost use Rattle.pw_plan.specs.Requests.{Has};
ghost use Rattle.aml_block.specs.Held.{names_of};
ghost use Rattle.pw_regs.specs.Seen.{registers_seen};
ghost use Rattle.pw_script.specs.declared.script.Line.{Line as line};
ghost use Rattle.pw_load.specs.Seen.{all_seen, outputs_seen};
ghost use Rattle.pw_load.specs.Ends.{Ended};
ghost use Rattle.pw_runs.specs.Runs.{DrivesSerially};
ghost use Rattle.pw_runs.specs.inner.Parts.{RunsSerially};

use crate::given::read_given;
use crate::outcome::Outcome;
use crate::print::print_run;
use pw_base::{Files, Sink};
use pw_drive::{Driven, serial};
use pw_load::without_memory;
use pw_plan::Plan;
use pw_regs::Registers;
use pw_script::Script;
use pw_text::Page;
use std::alloc::Global;

/// Makes the requests of a script on the machine of a plan, and prints the history, with an empty page
/// for the error output. It says the status, and gives the registers back.
fn run<K: Sink, R: Registers>(
    alloc: Global,
    plan: Plan,
    script: &Script,
    page: &mut Page,
    out: &mut K,
    err: &mut K,
    regs: R,
) -> Outcome<R>
    requires empty { page.old ≡ [] }
    requires few { length script.now.lines ≤ 65536 }
    requires has { AllByRecursion (λ (l : line). Has plan l.request) script.now.lines }
    ensures keeps_out { KeepsSink K.told K.faults out.old out.new }
    ensures keeps_err { KeepsSink K.told K.faults err.old err.new }
    ensures ran { Ended (RunsSerially plan script.now.lines
        (outputs_seen K.Sink out.old err.old) (outputs_seen K.Sink out.new err.new)
        (registers_seen R.Registers regs) (registers_seen R.Registers result.regs))
        (outputs_seen K.Sink out.old err.old) (outputs_seen K.Sink out.new err.new) result.status }
    ensures unsealed { result.sealed ≡ None }
{
    match serial(alloc, plan, script, regs) {
        Err(regs) => Outcome {
            status: without_memory(err),
            regs,
            sealed: None,
        },
        Ok(driven) => {
            let Driven {
                plan,
                opening,
                entries,
                replies,
                regs,
            } = driven;
            let entries = entries.as_slice();
            let replies = replies.as_slice();
            let known = Some(replies);
            let status = print_run(alloc, &plan, opening, entries, known, page, out, err);
            drop(plan);
            Outcome {
                status,
                regs,
                sealed: None,
            }
        }
    }
}

/// Does `drive --serial`: the script's requests, in their order, on the machine that the blocks
/// describe; prints its history. Says the status, and gives the registers back.
pub fn drive_serially<F: Files, K: Sink, R: Registers>(
    alloc: Global,
    step: bool,
    script: &str,
    blocks: &[&str],
    files: &mut F,
    out: &mut K,
    err: &mut K,
    regs: R,
) -> Outcome<R>
    ensures keeps_files { KeepsFiles F.told F.holds F.faults files.old files.new }
    ensures keeps_out { KeepsSink K.told K.faults out.old out.new }
    ensures keeps_err { KeepsSink K.told K.faults err.old err.new }
    ensures did { Ended (DrivesSerially step script.now (names_of blocks.now)
        (all_seen F.Files K.Sink R.Registers files.old out.old err.old regs)
        (all_seen F.Files K.Sink R.Registers files.new out.new err.new result.regs))
        (outputs_seen K.Sink out.old err.old) (outputs_seen K.Sink out.new err.new) result.status }
    ensures unsealed { result.sealed ≡ None }
{
    let Ok(mut page) = Page::new(alloc) else {
        return Outcome {
            status: without_memory(err),
            regs,
            sealed: None,
        };
    };
    match read_given(alloc, files, step, script, blocks, &mut page, err) {
        Err(status) => Outcome {
            status,
            regs,
            sealed: None,
        },
        Ok((plan, lines)) => run(alloc, plan, &lines, &mut page, out, err, regs),
    }
}
