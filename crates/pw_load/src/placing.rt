ghost use Rattle.std.specs.Prelude.{◌≡◌, [], IfErr, IfOk, OnOk};
ghost use Rattle.pw_base.specs.Outside.{KeepsSink};
ghost use Rattle.pw_base.specs.Seen.{sink_seen};
ghost use Rattle.acpi_space.specs.Distinct.{IsDistinct};
ghost use Rattle.acpi_space.specs.Namespace.{entries_in, places_of};
ghost use Rattle.pw_load.specs.Ends.{Stopped};
ghost use Rattle.pw_load.specs.Steps.{placing};

use crate::saying::say_twice;
use crate::without_memory;
use acpi_space::{Space, SpaceFault};
use aml_block::Block;
use pw_base::Sink;
use pw_text::Page;
use std::alloc::Global;

/// The objects that blocks place (ACPI 6.5, 5.3); or the status, once the error output has the line that
/// says why they can't all be placed, by way of an empty page.
pub fn place<'a, K: Sink>(
    alloc: Global,
    blocks: &'a [Block],
    page: &mut Page,
    err: &mut K,
) -> Result<Space<'a>, u8>
    requires { page.old ≡ [] }
    ensures keeps_err { KeepsSink K.told K.faults err.old err.new }
    ensures placed { IfOk result (λ space. space ≡ entries_in blocks.now) }
    ensures distinct { IfOk result (λ space. IsDistinct (places_of space)) }
    ensures quiet { OnOk result (err.new ≡ err.old) }
    ensures empty { OnOk result (page.new ≡ []) }
    ensures stopped { IfErr result (λ status. Stopped (placing (entries_in blocks.now))
        (sink_seen K.Sink err.old) (sink_seen K.Sink err.new) status) }
{
    match Space::build(alloc, blocks) {
        Ok(space) => Ok(space),
        Err(SpaceFault::Memory) => Err(without_memory(err)),
        Err(SpaceFault::Twice { path }) => {
            say_twice(page, err, path.segs.as_slice());
            Err(1)
        }
    }
}
