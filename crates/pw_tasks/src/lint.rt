ghost use Rattle.std.specs.Prelude.{◌≡◌, [], All};
ghost use Rattle.pw_base.specs.Outside.{KeepsSink};
ghost use Rattle.aml_block.specs.Written.{IsWritableBlock};
ghost use Rattle.acpi_space.specs.Distinct.{IsDistinct};
ghost use Rattle.acpi_space.specs.Namespace.{places_of};
ghost use Rattle.acpi_space.specs.Passed.{passed_in};
ghost use Rattle.acpi_build.specs.Tables.{AreCountable};
ghost use Rattle.pw_words.specs.declared.command.Task.TheVariants as tasks;
ghost use Rattle.pw_load.specs.Seen.{outputs_seen};
ghost use Rattle.pw_load.specs.Ends.{Did};
ghost use Rattle.pw_tasks.specs.Tasks.{linting, work_over};

use acpi_build::blocks_are_countable;
use acpi_space::{PassedOver, Space, passed_over};
use aml_block::Block;
use pw_base::Sink;
use pw_findings::print_findings;
use pw_lint::find_all;
use pw_load::{place, printed, without_memory};
use pw_text::Page;
use std::alloc::Global;
use std::mem::forget;

/// Does `lint` over objects, beside terms that were passed over: what is found of them.
fn lint_space<K: Sink>(
    alloc: Global,
    space: &Space<'_>,
    passed: &[PassedOver],
    out: &mut K,
    err: &mut K,
) -> u8
    requires { AreCountable space.now }
    ensures keeps_out { KeepsSink K.told K.faults out.old out.new }
    ensures keeps_err { KeepsSink K.told K.faults err.old err.new }
    ensures did { Did (linting space.now passed.now)
        (outputs_seen K.Sink out.old err.old) (outputs_seen K.Sink out.new err.new) result }
{
    let Ok(found) = find_all(alloc, space, passed) else {
        return without_memory(err);
    };
    let outcome = print_findings(alloc, &found, out);
    printed(err, outcome)
}

/// The same, beside the terms that blocks pass over.
fn lint_passing<K: Sink>(
    alloc: Global,
    blocks: &[Block],
    space: &Space<'_>,
    out: &mut K,
    err: &mut K,
) -> u8
    requires { AreCountable space.now }
    ensures keeps_out { KeepsSink K.told K.faults out.old out.new }
    ensures keeps_err { KeepsSink K.told K.faults err.old err.new }
    ensures did { Did (linting space.now (passed_in blocks.now))
        (outputs_seen K.Sink out.old err.old) (outputs_seen K.Sink out.new err.new) result }
{
    let Ok(passed) = passed_over(alloc, blocks) else {
        return without_memory(err);
    };
    lint_space(alloc, space, &passed, out, err)
}

/// Does `lint` over blocks: what is amiss with the tables of the machine that their objects tell of
/// (ACPI 6.5, 8.4). The page is empty, and for the error output. It says the status.
pub fn lint<K: Sink>(
    alloc: Global,
    blocks: &[Block],
    page: &mut Page,
    out: &mut K,
    err: &mut K,
) -> u8
    requires empty { page.old ≡ [] }
    requires writable { All IsWritableBlock blocks.now }
    ensures keeps_out { KeepsSink K.told K.faults out.old out.new }
    ensures keeps_err { KeepsSink K.told K.faults err.old err.new }
    ensures did { Did (work_over tasks.Lint blocks.now)
        (outputs_seen K.Sink out.old err.old) (outputs_seen K.Sink out.new err.new) result }
{
    blocks_are_countable();
    match place(alloc, blocks, page, err) {
        Err(status) => status,
        Ok(space) => {
            let status = lint_passing(alloc, blocks, &space, out, err);
            // The process ends now: to give the objects back takes up to a quarter of its time.
            forget(space);
            status
        }
    }
}
