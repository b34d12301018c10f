ghost use Rattle.std.specs.Prelude.{◌≡◌};
ghost use Rattle.aml_data.specs.declared.fault.DataFault.TheVariants.{Memory as no_memory};

use pw_base::Memory;
use std::alloc::{AllocError, AllocFailed};
use thiserror::Error;

/// Why bytes are no name, length or data object: the first fault from left to right, at its place.
#[derive(Clone, Copy, Debug, PartialEq, Eq, Error)]
pub enum DataFault {
    /// A byte is needed here, and the bytes, or those of the enclosing buffer or package, end.
    #[error("at {at}: the bytes end here")]
    Short { at: usize },
    /// This byte begins no data object where one is needed, or no integer constant.
    #[error("at {at}: {byte:#04x} begins nothing that may stand here")]
    BadLead { at: usize, byte: u8 },
    /// The PkgLength here sets a reserved bit, counts fewer bytes than its own, or reaches past its
    /// enclosing end.
    #[error("at {at}: no package length")]
    BadLength { at: usize },
    /// This byte can't stand at this place of a name.
    #[error("at {at}: no name")]
    BadName { at: usize },
    /// This byte of a string is 0x80 or greater.
    #[error("at {at}: no ASCII text")]
    BadText { at: usize },
    /// A package goes on here after as many elements as its count.
    #[error("at {at}: more elements than counted")]
    TooMany { at: usize },
    /// The package, Scope or Device that begins here is the 33rd of its nesting.
    #[error("at {at}: nested too deep")]
    TooDeep { at: usize },
    /// Want of memory.
    #[error("out of memory")]
    Memory,
}

impl From<Memory> for DataFault {
    ghost from_gives = { λ _ e. e ≡ no_memory };

    fn from(_e: Memory) -> DataFault {
        DataFault::Memory
    }
}

impl From<AllocError> for DataFault {
    ghost from_gives = { λ _ e. e ≡ no_memory };

    fn from(_e: AllocError) -> DataFault {
        DataFault::Memory
    }
}

impl<T: Drop> From<AllocFailed<T>> for DataFault {
    ghost from_gives = { λ _ e. e ≡ no_memory };

    fn from(_e: AllocFailed<T>) -> DataFault {
        DataFault::Memory
    }
}
