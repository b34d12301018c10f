ghost use Rattle.std.specs.Prelude.{◌≡◌, [], All, IfErr, IfOk, OnOk};
ghost use Rattle.pw_base.specs.Outside.{KeepsFiles, KeepsSink};
ghost use Rattle.pw_base.specs.Seen.{files_seen, sink_seen};
ghost use Rattle.aml_block.specs.Written.{IsWritableBlock};
ghost use Rattle.acpi_build.specs.Tables.{AreCountable};
ghost use Rattle.aml_block.specs.Held.{names_of};
ghost use Rattle.pw_load.specs.Ends.{Stopped};
ghost use Rattle.pw_load.specs.Steps.{planning};
ghost use Rattle.pw_runs.specs.inner.Parts.{mapping, readying};
ghost use Rattle.pw_cppc.specs.SpacePlan.{IsPlanOver};
ghost use Rattle.pw_runs.specs.CppcRuns.{AreSteered};
ghost use Rattle.pw_runs.specs.inner.CppcParts.{IsPlanBy};

use crate::planned;
use acpi_build::blocks_are_countable;
use acpi_space::Space;
use aml_block::Block;
use pw_base::{Files, Sink};
use pw_cppc::{CppcPlan, cppc_plan};
use pw_load::{load, place, without_memory};
use pw_text::Page;
use std::alloc::Global;
use std::mem::forget;

/// The plan of performance that objects make; or the status, once the error output has the line that
/// says why they make none, by way of an empty page.
fn plan_over<K: Sink>(
    alloc: Global,
    space: &Space<'_>,
    page: &mut Page,
    err: &mut K,
) -> Result<CppcPlan, u8>
    requires empty { page.old ≡ [] }
    requires countable { AreCountable space.now }
    ensures keeps_err { KeepsSink K.told K.faults err.old err.new }
    ensures made { IfOk result (IsPlanOver space.now) }
    ensures quiet { OnOk result (err.new ≡ err.old) }
    ensures empty { OnOk result (page.new ≡ []) }
    ensures stopped { IfErr result (λ status. Stopped (planning space.now)
        (sink_seen K.Sink err.old) (sink_seen K.Sink err.new) status) }
{
    match planned::plan_over(alloc, space, page, err) {
        Err(status) => Err(status),
        Ok(machine) => {
            let made = cppc_plan(alloc, space, &machine);
            drop(machine);
            match made {
                Ok(plan) => Ok(plan),
                Err(_) => Err(without_memory(err)),
            }
        }
    }
}

/// The plan of performance that blocks make; or the status, once the error output has the line that says
/// why they make none, by way of an empty page.
fn plan_of<K: Sink>(
    alloc: Global,
    blocks: &[Block],
    page: &mut Page,
    err: &mut K,
) -> Result<CppcPlan, u8>
    requires empty { page.old ≡ [] }
    requires writable { All IsWritableBlock blocks.now }
    ensures keeps_err { KeepsSink K.told K.faults err.old err.new }
    ensures made { IfOk result (IsPlanBy blocks.now) }
    ensures quiet { OnOk result (err.new ≡ err.old) }
    ensures empty { OnOk result (page.new ≡ []) }
    ensures stopped { IfErr result (λ status. Stopped (mapping blocks.now)
        (sink_seen K.Sink err.old) (sink_seen K.Sink err.new) status) }
{
    blocks_are_countable();
    match place(alloc, blocks, page, err) {
        Err(status) => Err(status),
        Ok(space) => {
            let made = plan_over(alloc, &space, page, err);
            // The process ends soon: to give the objects back takes long.
            forget(space);
            made
        }
    }
}

/// The plan of the performance of the processors that the blocks in the files of these names describe;
/// or the status, once the error output has the line that says why there is none, by way of an empty
/// page.
pub fn plan_in<F: Files, K: Sink>(
    alloc: Global,
    files: &mut F,
    names: &[&str],
    page: &mut Page,
    err: &mut K,
) -> Result<CppcPlan, u8>
    requires { page.old ≡ [] }
    ensures keeps_files { KeepsFiles F.told F.holds F.faults files.old files.new }
    ensures keeps_err { KeepsSink K.told K.faults err.old err.new }
    ensures steered { IfOk result
        (λ plan. AreSteered (files_seen F.Files files.old) (names_of names.now) plan) }
    ensures quiet { OnOk result (err.new ≡ err.old) }
    ensures empty { OnOk result (page.new ≡ []) }
    ensures stopped { IfErr result (λ status. Stopped
        (readying (files_seen F.Files files.old) (files_seen F.Files files.new) (names_of names.now))
        (sink_seen K.Sink err.old) (sink_seen K.Sink err.new) status) }
{
    match load(alloc, files, names, page, err) {
        Err(status) => Err(status),
        Ok(blocks) => {
            let made = plan_of(alloc, &blocks, page, err);
            // To give the trees back, piece by piece, takes long as well.
            forget(blocks);
            made
        }
    }
}
