ghost use Rattle.std.specs.Prelude.{◌≡◌, ◌≢◌, ◌≤◌, ◌+◌, true, length, All, IfOk, IfErr};
ghost use Rattle.pw_base.specs.Outside.{Rose, KeepsFiles};
ghost use Rattle.aml_block.specs.Written.{IsWritableBlock};
ghost use Rattle.aml_block.specs.Held.{IsBlock, HasFault, HoldBlocks, IsCauseOf, IsOwn, RoseIfUnread, names_of};

use crate::blocks_fault::{BlocksFault, fault_in};
use crate::{Block, BlockFault, LARGEST, parse, read_all};
use pw_base::Files;
use std::alloc::Global;

/// The greatest number of bytes of all blocks of one run: 16 MiB, this project's own limit.
pub const LARGEST_SUM: usize = 16_777_216;

/// The block that a file holds, and its number of bytes.
fn read_counted<F: Files>(
    alloc: Global,
    files: &mut F,
    name: &str,
) -> Result<(Block, usize), BlockFault>
    ensures keeps { KeepsFiles F.told F.holds F.faults files.old files.new }
    ensures failed { IfErr result (λ f. f ≡ BlockFault.ReadFault →
        Rose (F.faults files.old name.now) (F.faults files.new name.now)) }
    ensures found { IfOk result (λ b. F.told files.old ≡ true →
        IsBlock (F.holds files.old name.now) b.0 b.1) }
    ensures writable { IfOk result (λ b. IsWritableBlock b.0) }
    ensures small { IfOk result (λ b. b.1 ≤ LARGEST + 1) }
    ensures fault { IfErr result (λ f. f ≢ BlockFault.Memory → f ≢ BlockFault.ReadFault →
        F.told files.old ≡ true → HasFault (F.holds files.old name.now) f) }
{
    let bytes = read_all(alloc, files, name, LARGEST + 1)?;
    let block = parse(alloc, &bytes)?;
    Ok((block, bytes.len()))
}

/// The blocks that files hold, read one after the other in the order of their names. Each one is read
/// whole, and its bytes are added up, before the next file is touched.
pub fn read_blocks<F: Files>(
    alloc: Global,
    files: &mut F,
    names: &[&str],
) -> Result<Vec<Block>, BlocksFault>
    ensures keeps { KeepsFiles F.told F.holds F.faults files.old files.new }
    // It is a read fault only where a read of the very file failed of which it has the number.
    ensures failed { IfErr result (λ f.
        RoseIfUnread (names_of names.now) f (F.faults files.old) (F.faults files.new)) }
    // What is read is what the files hold under the names.
    ensures found { IfOk result (λ blocks. F.told files.old ≡ true →
        HoldBlocks (F.holds files.old) (names_of names.now) blocks.items) }
    // What is read can be written.
    ensures writable { IfOk result (λ blocks. All IsWritableBlock blocks.items) }
    // Otherwise it is the first fault; a read fault says which file, and that those before it hold blocks.
    ensures fault { IfErr result (λ f. F.told files.old ≡ true →
        IsCauseOf (F.holds files.old) (names_of names.now) f) }
    ensures own { IfErr result IsOwn }
{
    let mut blocks = Vec::new(alloc);
    let mut total = 0;
    for name in names {
        let (block, size) = match read_counted(alloc, files, name) {
            Ok(read) => read,
            Err(fault) => return Err(fault_in(blocks.len() + 1, fault)),
        };
        total += size;
        if total > LARGEST_SUM {
            return Err(BlocksFault::Large);
        }
        blocks.push(block)?;
    }
    Ok(blocks)
}
