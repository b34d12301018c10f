ghost use Rattle.std.specs.Prelude.{◌≡◌, ◌≢◌, IfOk, IfErr};
ghost use Rattle.pw_base.specs.Outside.{Rose, KeepsFiles};
ghost use Rattle.aml_data.specs.declared.fault.DataFault.TheVariants.{Memory as no_data_memory};
ghost use Rattle.aml_block.specs.declared.block.Block.{Block as block};
ghost use Rattle.aml_block.specs.declared.fault.BlockFault.{BlockFault as fault_type};
ghost use Rattle.aml_block.specs.Spelling.{BlockSpells};
ghost use Rattle.aml_block.specs.Written.{IsWritableBlock};
ghost use Rattle.aml_block.specs.Faults.{BlockFails};
ghost use Rattle.aml_block.specs.Answers.{IsUnlessUnread, FailsUnlessUnread, IsHeldAnd, ForHeld};

use crate::block::Block;
use crate::fault::BlockFault;
use crate::file::read_all;
use crate::header::LARGEST;
use crate::parsing::parse;
use pw_base::Files;
use std::alloc::Global;

/// The block that a file holds. At most 4,194,305 bytes are read: one more than a block may have.
pub fn read<F: Files>(alloc: Global, files: &mut F, name: &str) -> Result<Block, BlockFault>
    ensures keeps { KeepsFiles F.told F.holds F.faults files.old files.new }
    // It is a read fault only where a read of this name failed.
    ensures failed { IfErr result (λ f. f ≡ BlockFault.ReadFault →
        Rose (F.faults files.old name.now) (F.faults files.new name.now)) }
    // What is read is spelled by what the name holds.
    ensures found { IfOk result (λ b.
        IsHeldAnd (F.told files.old) (F.holds files.old name.now) (BlockSpells b)) }
    // What is read can be written.
    ensures writable { IfOk result IsWritableBlock }
    // What the held bytes spell is read, unless memory runs out or a read fails.
    ensures only { ForHeld (F.told files.old) (F.holds files.old name.now) (λ content.
        (b : block) → BlockSpells b content → IsUnlessUnread result b) }
    // Otherwise it is the first fault of what the name holds.
    ensures fault { IfErr result (λ f. f ≢ BlockFault.Memory → f ≢ BlockFault.ReadFault →
        IsHeldAnd (F.told files.old) (F.holds files.old name.now) (λ content. BlockFails content f)) }
    // The first fault is answered, unless memory runs out or a read fails.
    ensures refused { ForHeld (F.told files.old) (F.holds files.old name.now) (λ content.
        (f : fault_type) → BlockFails content f → FailsUnlessUnread result f) }
    // Want of memory has its one name.
    ensures one_memory { IfErr result (λ f. f ≢ BlockFault.Data no_data_memory) }
{
    let bytes = read_all(alloc, files, name, LARGEST + 1)?;
    parse(alloc, &bytes)
}
