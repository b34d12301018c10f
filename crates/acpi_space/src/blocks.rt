//! Going through blocks.

ghost use Rattle.std.specs.Prelude.{◌≡◌, IfErr, IfOk};
ghost use Rattle.acpi_space.specs.Namespace.{dsdt_width, steps_of_blocks};
ghost use Rattle.acpi_space.specs.Standing.{IsFaultIn};
ghost use Rattle.acpi_space.specs.inner.Standing.{StandsIn};

use crate::building::Building;
use crate::fault::SpaceFault;
use crate::terms::place_terms;
use aml_block::{Block, Signature};
use aml_data::Width;
use std::alloc::Global;

/// The width of the first block that is a DSDT.
fn dsdt_width(blocks: &[Block]) -> Option<Width>
    ensures { result ≡ dsdt_width blocks.now }
{
    for block in blocks {
        if block.header.signature == Signature::Dsdt {
            return Some(block.own_width());
        }
    }
    None
}

/// What stands once blocks were gone through, one after the other.
pub(crate) fn place_blocks<'a>(
    alloc: Global,
    blocks: &'a [Block],
) -> Result<Building<'a>, SpaceFault>
    ensures stands { IfOk result (λ b. StandsIn b (steps_of_blocks blocks.now)) }
    ensures fault { IfErr result (λ f. IsFaultIn f blocks.now) }
{
    let dsdt = dsdt_width(blocks);
    let mut building = Building::new(alloc);
    for block in blocks {
        building.tree.facts();
        let width = dsdt.unwrap_or(block.own_width());
        place_terms(alloc, &mut building, block.terms.as_slice(), 0, width)?;
    }
    Ok(building)
}
