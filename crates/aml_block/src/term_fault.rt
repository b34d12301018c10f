ghost use Rattle.std.specs.Prelude.{◌≡◌};
ghost use Rattle.aml_data.specs.declared.fault.DataFault.TheVariants.{Memory};
ghost use Rattle.aml_block.specs.declared.term_fault.TermFault.TheVariants as faults;

use aml_data::DataFault;
use pw_base::Memory;
use std::alloc::{AllocError, AllocFailed};

/// Why bytes aren't terms: the first fault from left to right. Places count from the first byte of the
/// block.
#[derive(Clone, Copy)]
pub enum TermFault {
    /// A name, a length, a constant or an object in a term is at fault, or a term nests too deep; or
    /// memory ran out.
    Data(DataFault),
    /// This opcode begins no term. One behind 5B is 0x5B00 plus its byte.
    BadTerm { at: usize, opcode: u16 },
}

impl From<DataFault> for TermFault {
    ghost from_gives = { λ d e. e ≡ faults.Data d };

    fn from(e: DataFault) -> TermFault {
        TermFault::Data(e)
    }
}

impl From<Memory> for TermFault {
    ghost from_gives = { λ _ e. e ≡ faults.Data Memory };

    fn from(_e: Memory) -> TermFault {
        TermFault::Data(DataFault::Memory)
    }
}

impl From<AllocError> for TermFault {
    ghost from_gives = { λ _ e. e ≡ faults.Data Memory };

    fn from(_e: AllocError) -> TermFault {
        TermFault::Data(DataFault::Memory)
    }
}

impl<T: Drop> From<AllocFailed<T>> for TermFault {
    ghost from_gives = { λ _ e. e ≡ faults.Data Memory };

    fn from(_e: AllocFailed<T>) -> TermFault {
        TermFault::Data(DataFault::Memory)
    }
}
