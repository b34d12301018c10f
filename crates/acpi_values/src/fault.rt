ghost use Rattle.std.specs.Prelude.{◌≡◌};
ghost use Rattle.acpi_values.specs.declared.fault.ReadFault.TheVariants.{Memory as no_memory};
ghost use Rattle.acpi_values.specs.declared.fault.ReadFault.TheVariants.{Shape as misshapen};

use pw_base::Memory;
use std::alloc::{AllocError, AllocFailed};

/// A place in an object: the element of the package, and the element within that one, both counted
/// from 1. 0 stands for the whole.
#[derive(Clone, Copy)]
pub struct Place {
    pub outer: u32,
    pub inner: u32,
}

/// Why an object has no meaning at a place.
#[derive(Clone, Copy, Debug, PartialEq, Eq)]
pub enum Why {
    /// It is of another kind.
    Kind = 1,
    /// A package has another number of elements.
    Count = 2,
    /// The revision isn't one that is known.
    Revision = 3,
    /// A number is out of its range.
    Range = 4,
    /// A buffer holds no register.
    Register = 5,
}

/// The first place at which an object has no meaning.
#[derive(Clone, Copy)]
pub struct Shape {
    pub place: Place,
    pub why: Why,
}

/// Why an object couldn't be read.
#[derive(Clone, Copy)]
pub enum ReadFault {
    /// It has no meaning, at this place first.
    Shape { place: Place, why: Why },
    /// Want of memory.
    Memory,
}

impl From<Shape> for ReadFault {
    ghost from_gives = { λ s e. e ≡ misshapen s.place s.why };

    fn from(shape: Shape) -> ReadFault {
        ReadFault::Shape {
            place: shape.place,
            why: shape.why,
        }
    }
}

impl From<Memory> for ReadFault {
    ghost from_gives = { λ _ e. e ≡ no_memory };

    fn from(_e: Memory) -> ReadFault {
        ReadFault::Memory
    }
}

impl From<AllocError> for ReadFault {
    ghost from_gives = { λ _ e. e ≡ no_memory };

    fn from(_e: AllocError) -> ReadFault {
        ReadFault::Memory
    }
}

impl<T: Drop> From<AllocFailed<T>> for ReadFault {
    ghost from_gives = { λ _ e. e ≡ no_memory };

    fn from(_e: AllocFailed<T>) -> ReadFault {
        ReadFault::Memory
    }
}
