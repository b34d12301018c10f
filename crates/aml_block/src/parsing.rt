ghost use Rattle.std.specs.Prelude.{◌≡◌, ◌≢◌, IfOk, IfErr};
ghost use Rattle.pw_base.specs.Answers.{IsUnless, FailsUnless};
ghost use Rattle.aml_data.specs.declared.fault.DataFault.TheVariants.{Memory as no_data_memory};
ghost use Rattle.aml_block.specs.declared.block.Block.{Block as block};
ghost use Rattle.aml_block.specs.declared.fault.BlockFault.{BlockFault as fault_type};
ghost use Rattle.aml_block.specs.Spelling.{BlockSpells};
ghost use Rattle.aml_block.specs.Written.{IsWritableBlock};
ghost use Rattle.aml_block.specs.Faults.{BlockFails};
ghost use Rattle.aml_block.specs.inner.Reading.{Gives, block_at};

use crate::block::Block;
use crate::fault::BlockFault;
use crate::header::{HEADER_SIZE, header_of};
use crate::terms_of;
use std::alloc::Global;

#[tactic(auto, unfolding(crate::specs::inner::Reading::block_at))]
fn block_of(alloc: Global, bytes: &[u8]) -> Result<Block, BlockFault>
    ensures { Gives (λ x. x) result (block_at bytes.now) }
{
    let header = header_of(bytes)?;
    let (_, rest) = bytes.split_at(HEADER_SIZE);
    let terms = terms_of(alloc, rest, bytes.len())?;
    Ok(Block { header, terms })
}

/// The block that the bytes spell, all of the bytes (ACPI 6.5, 5.2.6 and 20.2).
pub fn parse(alloc: Global, bytes: &[u8]) -> Result<Block, BlockFault>
    // What is read is spelled by the bytes.
    ensures found { IfOk result (λ b. BlockSpells b bytes.now) }
    // What is read can be written.
    ensures writable { IfOk result IsWritableBlock }
    // What the bytes spell is read, unless memory runs out.
    ensures only { (b : block) → BlockSpells b bytes.now → IsUnless BlockFault.Memory result b }
    // Otherwise it is the first fault.
    ensures fault { IfErr result (λ f. f ≢ BlockFault.Memory → BlockFails bytes.now f) }
    // The first fault is answered, unless memory runs out before it is met.
    ensures refused { (f : fault_type) → BlockFails bytes.now f → FailsUnless BlockFault.Memory result f }
    // No file is read here.
    ensures no_file { IfErr result (λ f. f ≢ BlockFault.ReadFault) }
    // Want of memory has its one name.
    ensures one_memory { IfErr result (λ f. f ≢ BlockFault.Data no_data_memory) }
{
    block_of(alloc, bytes)
}
