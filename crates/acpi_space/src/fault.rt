ghost use Rattle.std.specs.Prelude.{◌≡◌};
ghost use Rattle.acpi_space.specs.declared.fault.SpaceFault.TheVariants as faults;

use aml_data::FullPath;
use pw_base::Memory;
use std::alloc::{AllocError, AllocFailed};

/// Why there is no space.
#[derive(Drop)]
pub enum SpaceFault {
    /// An object is placed where one was placed before: the first such place.
    Twice { path: FullPath },
    /// Want of memory.
    Memory,
}

impl From<Memory> for SpaceFault {
    ghost from_gives = { λ _ e. e ≡ faults.Memory };

    fn from(_e: Memory) -> SpaceFault {
        SpaceFault::Memory
    }
}

impl From<AllocError> for SpaceFault {
    ghost from_gives = { λ _ e. e ≡ faults.Memory };

    fn from(_e: AllocError) -> SpaceFault {
        SpaceFault::Memory
    }
}

impl<T: Drop> From<AllocFailed<T>> for SpaceFault {
    ghost from_gives = { λ _ e. e ≡ faults.Memory };

    fn from(_e: AllocFailed<T>) -> SpaceFault {
        SpaceFault::Memory
    }
}
