ghost use Rattle.std.specs.Prelude.{◌≡◌};
ghost use Rattle.aml_block.specs.declared.fault.BlockFault.TheVariants as faults;
ghost use Rattle.aml_block.specs.declared.fault.WriteFault.TheVariants as write_faults;
ghost use Rattle.aml_block.specs.Causes.{data_cause, term_cause, file_cause};

use crate::TermFault;
use crate::file::FileFault;
use aml_data::DataFault;
use pw_base::{Failed, Memory};
use std::alloc::{AllocError, AllocFailed};
use thiserror::Error;

/// What is wrong with the header: the first of these that holds.
#[derive(Clone, Copy, Debug, Error)]
pub enum HeaderFault {
    /// More than 4,194,304 bytes.
    #[error("large")]
    Large,
    /// Fewer than 36 bytes.
    #[error("short")]
    Short,
    /// Neither `DSDT` nor `SSDT`.
    #[error("signature")]
    Signature,
    /// The field Length isn't the number of bytes.
    #[error("length")]
    Length,
    /// The bytes don't sum to 0 modulo 256.
    #[error("sum")]
    Sum,
}

/// Why there is no block: the first fault from left to right. Places count from the first byte.
#[derive(Clone, Copy, Debug, Error)]
pub enum BlockFault {
    /// The header is wrong.
    #[error("header {why}")]
    Header { why: HeaderFault },
    /// A name, a length, a constant or an object in a term is at fault, or a Scope, a Device or a
    /// Processor is the 33rd of its nesting. It is never `DataFault::Memory`.
    #[error("{0}")]
    Data(DataFault),
    /// This opcode begins no term. One behind 5B is 0x5B00 plus its byte.
    #[error("at {at} term {opcode:#04X}")]
    BadTerm { at: usize, opcode: u16 },
    /// The file couldn't be read.
    #[error("read fault")]
    ReadFault,
    /// Want of memory.
    #[error("out of memory")]
    Memory,
}

impl From<Memory> for BlockFault {
    ghost from_gives = { λ _ e. e ≡ faults.Memory };

    fn from(_e: Memory) -> BlockFault {
        BlockFault::Memory
    }
}

impl From<AllocError> for BlockFault {
    ghost from_gives = { λ _ e. e ≡ faults.Memory };

    fn from(_e: AllocError) -> BlockFault {
        BlockFault::Memory
    }
}

impl<T: Drop> From<AllocFailed<T>> for BlockFault {
    ghost from_gives = { λ _ e. e ≡ faults.Memory };

    fn from(_e: AllocFailed<T>) -> BlockFault {
        BlockFault::Memory
    }
}

impl From<HeaderFault> for BlockFault {
    ghost from_gives = { λ why e. e ≡ faults.Header why };

    fn from(why: HeaderFault) -> BlockFault {
        BlockFault::Header { why }
    }
}

impl From<DataFault> for BlockFault {
    ghost from_gives = { λ d e. e ≡ data_cause d };

    fn from(e: DataFault) -> BlockFault {
        match e {
            DataFault::Memory => BlockFault::Memory,
            other => BlockFault::Data(other),
        }
    }
}

impl From<TermFault> for BlockFault {
    ghost from_gives = { λ d e. e ≡ term_cause d };

    fn from(e: TermFault) -> BlockFault {
        match e {
            TermFault::Data(d) => BlockFault::from(d),
            TermFault::BadTerm { at, opcode } => BlockFault::BadTerm { at, opcode },
        }
    }
}

impl From<FileFault> for BlockFault {
    ghost from_gives = { λ d e. e ≡ file_cause d };

    fn from(e: FileFault) -> BlockFault {
        match e {
            FileFault::ReadFault => BlockFault::ReadFault,
            FileFault::Memory => BlockFault::Memory,
        }
    }
}

/// Why a block isn't written whole.
#[derive(Clone, Copy)]
pub enum WriteFault {
    /// The sink failed.
    Sink,
    /// Want of memory.
    Memory,
}

impl From<Memory> for WriteFault {
    ghost from_gives = { λ _ e. e ≡ write_faults.Memory };

    fn from(_e: Memory) -> WriteFault {
        WriteFault::Memory
    }
}

impl From<Failed> for WriteFault {
    ghost from_gives = { λ _ e. e ≡ write_faults.Sink };

    fn from(_e: Failed) -> WriteFault {
        WriteFault::Sink
    }
}
