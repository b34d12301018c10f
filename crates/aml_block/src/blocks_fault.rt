ghost use Rattle.std.specs.Prelude.{◌≡◌};
ghost use Rattle.aml_block.specs.declared.blocks_fault.BlocksFault.TheVariants as faults;
ghost use Rattle.aml_block.specs.BlocksCauses.{numbered};

use crate::BlockFault;
use std::alloc::AllocFailed;

/// Why the blocks of several files aren't read: the first fault in their order.
#[derive(Clone, Copy)]
pub enum BlocksFault {
    /// The block of this number, counted from 1, is refused for what its bytes are: the fault is neither
    /// `BlockFault::ReadFault` nor `BlockFault::Memory`.
    Block { number: usize, fault: BlockFault },
    /// The blocks that were read so far have more than 16,777,216 bytes.
    Large,
    /// A read of the file of this number, counted from 1, failed. The files before it hold blocks of at most
    /// 16,777,216 bytes.
    ReadFault { number: usize },
    /// Want of memory.
    Memory,
}

impl<T: Drop> From<AllocFailed<T>> for BlocksFault {
    ghost from_gives = { λ _ e. e ≡ faults.Memory };

    fn from(_e: AllocFailed<T>) -> BlocksFault {
        BlocksFault::Memory
    }
}

/// The fault of the block of this number.
pub(crate) fn fault_in(number: usize, fault: BlockFault) -> BlocksFault
    ensures { result ≡ numbered number fault }
{
    match fault {
        BlockFault::ReadFault => BlocksFault::ReadFault { number },
        BlockFault::Memory => BlocksFault::Memory,
        BlockFault::Header { .. } => BlocksFault::Block { number, fault },
        BlockFault::Data(_) => BlocksFault::Block { number, fault },
        BlockFault::BadTerm { .. } => BlocksFault::Block { number, fault },
    }
}
