ghost use Rattle.std.specs.Prelude.{◌≡◌, ◌≤◌, ◌∷◌, [], All, List as list, IfOk};
ghost use Rattle.aml_block.specs.Written.{IsWritableBlock};
ghost use Rattle.acpi_build.specs.declared.note.Note.{Note as note};
ghost use Rattle.acpi_build.specs.Planning.{IsPlanFrom};
ghost use Rattle.acpi_build.specs.Tables.{AreCountable};
ghost use Rattle.acpi_space.specs.Namespace.{entries_in};
ghost use Rattle.pw_generate.specs.declared.tables.TheConstants.{MOST_CONTAINERS};
ghost use Rattle.pw_generate.specs.Machines.{machine_block};
ghost use Rattle.pw_runs.specs.Trials.{IsMachine};

use acpi_build::{BuildFault, blocks_are_countable, plan};
use acpi_space::{Space, SpaceFault};
use aml_block::{Block, BlockFault, encode_block, parse};
use pw_base::Memory;
use pw_generate::{generate_block, generated_machines_have_plans};
use pw_plan::Plan;
use std::alloc::Global;
use std::mem::forget;

/// The block of so many containers, written and read again.
fn block_of(alloc: Global, n: u32) -> Result<Block, Memory>
    requires { n ≤ MOST_CONTAINERS }
    ensures block { IfOk result (λ block. block ≡ machine_block n) }
    ensures writable { IfOk result IsWritableBlock }
{
    let made = generate_block(alloc, n)?;
    let bytes = encode_block(alloc, &made)?;
    match parse(alloc, bytes.as_slice()) {
        Ok(block) => Ok(block),
        Err(BlockFault::Memory) => Err(Memory),
        Err(_) => unreachable!(),
    }
}

/// The objects of the block of so many containers.
fn space_of<'a>(alloc: Global, n: u32, blocks: &'a [Block]) -> Result<Space<'a>, Memory>
    requires size { n ≤ MOST_CONTAINERS }
    requires block { blocks.now ≡ machine_block n ∷ [] }
    ensures { IfOk result (λ space. space ≡ entries_in blocks.now) }
{
    generated_machines_have_plans();
    match Space::build(alloc, blocks) {
        Ok(space) => Ok(space),
        Err(SpaceFault::Memory) => Err(Memory),
        Err(SpaceFault::Twice { .. }) => unreachable!(),
    }
}

/// The plan of these objects.
fn plan_over(alloc: Global, n: u32, space: &Space<'_>) -> Result<Plan, Memory>
    requires size { n ≤ MOST_CONTAINERS }
    requires objects { space.now ≡ entries_in (machine_block n ∷ []) }
    requires countable { AreCountable space.now }
    ensures { IfOk result (IsMachine n) }
{
    generated_machines_have_plans();
    match plan(alloc, space) {
        Ok((plan, _)) => Ok(plan),
        Err(BuildFault::Memory) => Err(Memory),
        Err(_) => unreachable!(),
    }
}

/// The plan of the machine of so many containers, by way of its block.
pub fn plan_of(alloc: Global, n: u32) -> Result<Plan, Memory>
    requires { n ≤ MOST_CONTAINERS }
    ensures { IfOk result (IsMachine n) }
{
    blocks_are_countable();
    let blocks = [block_of(alloc, n)?];
    let space = space_of(alloc, n, &blocks)?;
    plan_over(alloc, n, &space)
}
