ghost use Rattle.std.specs.Prelude.{◌≡◌, ◌≤◌, All, IfSome};
ghost use Rattle.aml_block.specs.Written.{IsWritableBlock, written_block};
ghost use Rattle.pw_generate.specs.Loads.{machine_load};
ghost use Rattle.pw_generate.specs.Machines.{machine_block};
ghost use Rattle.pw_generate.specs.declared.tables.TheConstants.{MOST_CONTAINERS};

use acpi_build::{blocks_are_countable, plan};
use acpi_space::Space;
use aml_block::{Block, encode_block, parse};
use pw_generate::{MOST_CONTAINERS, generate_block, generate_script};
use pw_plan::Plan;
use pw_script::Script;
use std::alloc::Global;

/// The bytes of the block of so many containers.
fn bytes_of(alloc: Global, n: u32) -> Option<Vec<u8>>
    requires { n ≤ MOST_CONTAINERS }
    ensures { IfSome result (λ bytes. bytes.items ≡ written_block (machine_block n)) }
{
    let made = generate_block(alloc, n).ok()?;
    encode_block(alloc, &made).ok()
}

/// The block of so many containers, written and read again.
fn block_of(alloc: Global, n: u32) -> Option<Block>
    requires { n ≤ MOST_CONTAINERS }
    ensures { IfSome result IsWritableBlock }
{
    let bytes = bytes_of(alloc, n)?;
    parse(alloc, bytes.as_slice()).ok()
}

/// The plan of these blocks.
fn plan_of(alloc: Global, blocks: &[Block]) -> Option<Plan>
    requires { All IsWritableBlock blocks.now }
{
    blocks_are_countable();
    let space = Space::build(alloc, blocks).ok()?;
    let made = plan(alloc, &space);
    drop(space);
    let (plan, notes) = made.ok()?;
    drop(notes);
    Some(plan)
}

/// The plan of the machine that is generated with so many containers.
fn plan_for(alloc: Global, n: u32) -> Option<Plan>
    requires { n ≤ MOST_CONTAINERS }
{
    let blocks = [block_of(alloc, n)?];
    let plan = plan_of(alloc, &blocks);
    drop(blocks);
    plan
}

/// The plan of the machine that is generated with so many containers, and the load for it. None where there
/// are more than a machine may have, and for want of memory.
pub(crate) fn machine_of(alloc: Global, n: u32) -> Option<(Plan, Script)>
    ensures few { IfSome result (λ made. n ≤ MOST_CONTAINERS) }
    ensures load { IfSome result (λ made. made.1 ≡ machine_load n) }
{
    if n > MOST_CONTAINERS {
        return None;
    }
    let script = generate_script(alloc, n).ok()?;
    let Some(plan) = plan_for(alloc, n) else {
        drop(script);
        return None;
    };
    Some((plan, script))
}

/// The bytes of the block that is generated with so many containers. None where there are more than a
/// machine may have, and for want of memory.
pub(crate) fn block_bytes(alloc: Global, n: u32) -> Option<Vec<u8>>
    ensures { IfSome result (λ bytes. bytes.items ≡ written_block (machine_block n)) }
{
    if n > MOST_CONTAINERS {
        return None;
    }
    bytes_of(alloc, n)
}
