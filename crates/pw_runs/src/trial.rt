ghost use Rattle.std.specs.Prelude.{◌≡◌, ◌≤◌, [], IfOk, length};
ghost use Rattle.std.specs.List.{AllByRecursion};
ghost use Rattle.pw_base.specs.Outside.{KeepsSink};
ghost use Rattle.pw_plan.specs.Requests.{Has};
ghost use Rattle.pw_regs.specs.Seen.{registers_seen};
ghost use Rattle.pw_script.specs.declared.script.Line.{Line as line};
ghost use Rattle.pw_generate.specs.declared.tables.TheConstants.{MOST_CONTAINERS};
ghost use Rattle.pw_generate.specs.Loads.{machine_load};
ghost use Rattle.pw_load.specs.Ends.{Ended};
ghost use Rattle.pw_load.specs.Seen.{outputs_seen};
ghost use Rattle.pw_runs.specs.Trials.{Generates, IsMachine};
ghost use Rattle.pw_runs.specs.inner.Trying.{Tries};

use crate::machine::plan_of;
use crate::trial_print::print_run;
use crate::{Outcome, handed_on};
use pw_base::{Gate, Memory, Sink};
use pw_drive::Drove;
use pw_generate::{generate_script, generated_loads_fit, generated_machines_have_plans};
use pw_load::without_memory;
use pw_plan::Plan;
use pw_regs::Registers;
use pw_script::Script;
use pw_text::Page;
use std::alloc::Global;
use std::sync::Wait;
use std::thread::Threads;

/// The plan of the machine of so many containers, the load for it, and an empty page.
fn prepare(alloc: Global, n: u32) -> Result<(Plan, Script, Page), Memory>
    requires { n ≤ MOST_CONTAINERS }
    ensures plan { IfOk result (λ r. IsMachine n r.0) }
    ensures load { IfOk result (λ r. r.1 ≡ machine_load n) }
    ensures empty { IfOk result (λ r. r.2 ≡ []) }
{
    let page = Page::new(alloc)?;
    let script = generate_script(alloc, n)?;
    let plan = plan_of(alloc, n)?;
    Ok((plan, script, page))
}

/// Lets workers make the requests of the load on the machine, and prints the summary, with an empty page
/// for the error output. It says the status, gives the registers back, and hands on what the coordinator
/// gave.
fn run<T: Threads + Wait + Sync, K: Sink, R: Registers + Send, G: Gate + Sync>(
    rt: &T,
    alloc: Global,
    plan: Plan,
    script: &Script,
    page: &mut Page,
    out: &mut K,
    err: &mut K,
    regs: R,
    gate: &G,
) -> Outcome<R>
    requires empty { page.old ≡ [] }
    requires few { length script.now.lines ≤ 65536 }
    requires has { AllByRecursion (λ (l : line). Has plan l.request) script.now.lines }
    ensures keeps_out { KeepsSink K.told K.faults out.old out.new }
    ensures keeps_err { KeepsSink K.told K.faults err.old err.new }
    ensures ran { Ended (Tries plan script.now.lines result.sealed
        (outputs_seen K.Sink out.old err.old) (outputs_seen K.Sink out.new err.new)
        (registers_seen R.Registers regs) (registers_seen R.Registers result.regs))
        (outputs_seen K.Sink out.old err.old) (outputs_seen K.Sink out.new err.new) result.status }
{
    match pw_drive::drive(rt, alloc, plan, script, regs, gate) {
        Err(regs) => Outcome {
            status: without_memory(err),
            regs,
            sealed: None,
        },
        Ok(Drove::Opening { done, plan, regs }) => {
            let status = print_run(alloc, &plan, Some(done), &[], None, page, out, err);
            drop(plan);
            Outcome {
                status,
                regs,
                sealed: None,
            }
        }
        Ok(Drove::Closed { closed, replies }) => {
            let (sealed, regs) = closed.into_parts();
            let (plan, entries) = (sealed.plan(), sealed.entries());
            let known = Some(replies.as_slice());
            let status = print_run(alloc, plan, None, entries, known, page, out, err);
            drop(replies);
            Outcome {
                status,
                regs,
                sealed: handed_on(status, sealed),
            }
        }
    }
}

/// Does `generate N`: makes the block of N containers, reads it again, makes the requests of the load on
/// its machine, by one worker for each processor, and prints the summary of their history. Says the
/// status, gives the registers back, and hands on what the coordinator gave.
pub fn generate<T: Threads + Wait + Sync, K: Sink, R: Registers + Send, G: Gate + Sync>(
    rt: &T,
    alloc: Global,
    n: u32,
    out: &mut K,
    err: &mut K,
    regs: R,
    gate: &G,
) -> Outcome<R>
    requires { n ≤ MOST_CONTAINERS }
    ensures keeps_out { KeepsSink K.told K.faults out.old out.new }
    ensures keeps_err { KeepsSink K.told K.faults err.old err.new }
    ensures did { Ended (Generates n result.sealed
        (outputs_seen K.Sink out.old err.old) (outputs_seen K.Sink out.new err.new)
        (registers_seen R.Registers regs) (registers_seen R.Registers result.regs))
        (outputs_seen K.Sink out.old err.old) (outputs_seen K.Sink out.new err.new) result.status }
{
    let Ok((plan, script, mut page)) = prepare(alloc, n) else {
        return Outcome {
            status: without_memory(err),
            regs,
            sealed: None,
        };
    };
    generated_machines_have_plans();
    generated_loads_fit();
    run(rt, alloc, plan, &script, &mut page, out, err, regs, gate)
}
