//! Terms that are passed over.

ghost use Rattle.std.specs.Prelude.{◌≡◌, ◌<◌, ℕ, length, get_or, IfErr, IfOk};
ghost use Rattle.acpi_space.specs.Passed.{passed_in};
ghost use Rattle.acpi_space.specs.Standing.{IsFaultIn};
ghost use Rattle.acpi_space.specs.declared.passed.Passed.{Passed as passed_type};
ghost use Rattle.acpi_space.specs.inner.Standing.{over_at};

use crate::blocks::place_blocks;
use crate::fault::SpaceFault;
use crate::tree::Tree;
use aml_block::Block;
use aml_data::FullPath;
use pw_base::Memory;
use std::alloc::Global;

/// A term that is passed over, by the number of the place in which it stands.
#[derive(Clone, Copy)]
pub(crate) struct Passed {
    pub(crate) name: usize,
    pub(crate) opcode: u16,
}

/// A term whose body isn't read, and which is neither a method nor an If whose predicate is `Zero`.
#[derive(Drop)]
pub struct PassedOver {
    /// The place in which it stands: that of the Scope, the device or the processor around it, or the root.
    pub path: FullPath,
    /// Its opcode, one of those in `aml_block::opcode`.
    pub opcode: u16,
}

/// Terms that are passed over, with the paths of their places.
fn with_paths(alloc: Global, tree: &Tree, passed: &[Passed]) -> Result<Vec<PassedOver>, Memory>
    requires { (i : ℕ) (d : passed_type) → i < length passed.now
        → (get_or passed.now i d).name < length tree.now }
    ensures { IfOk result (λ r. r.items ≡ over_at tree.now passed.now) }
{
    let mut over = Vec::new(alloc);
    for term in passed {
        let path = tree.path(alloc, term.name)?;
        over.push(PassedOver {
            path,
            opcode: term.opcode,
        })?;
    }
    Ok(over)
}

/// The terms of blocks that are passed over, in their order: what stands in them isn't placed. `Twice` names
/// the first place that is given a second object, as `Space::build` does.
pub fn passed_over(alloc: Global, blocks: &[Block]) -> Result<Vec<PassedOver>, SpaceFault>
    ensures passed { IfOk result (λ r. r.items ≡ passed_in blocks.now) }
    ensures fault { IfErr result (λ f. IsFaultIn f blocks.now) }
{
    let building = place_blocks(alloc, blocks)?;
    let over = with_paths(alloc, &building.tree, building.passed.as_slice())?;
    Ok(over)
}
