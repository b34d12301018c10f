ghost use Rattle.std.specs.Prelude.{◌≡◌, ◌<◌, length, IfOk};
ghost use Rattle.acpi_fields.specs.Dependencies.{coord_number};
ghost use Rattle.acpi_fields.specs.Writing.{package_object};
ghost use Rattle.acpi_fields.specs.Writing.{register_object};

use acpi_values::{Coord, Register};
use aml_data::Data;
use pw_base::{CompactList, Memory};
use std::alloc::Global;

/// A register as an object: a buffer of its resource template (ACPI 6.5, 6.4.3.7).
pub fn register_object(alloc: Global, register: &Register) -> Result<Data, Memory>
    ensures { IfOk result (λ object. object ≡ register_object register.now) }
{
    let bytes = CompactList::from_slice(alloc, &register.to_bytes())?;
    Data::buffer(alloc, 17, bytes)
}

/// A package of these elements, which counts them.
pub fn package_object(alloc: Global, elements: Vec<Data>) -> Result<Data, Memory>
    requires { length elements.items < 256 }
    ensures { IfOk result (λ object. object ≡ package_object elements.items) }
{
    let count = elements.len() as u8;
    let elements = CompactList::from_vec(alloc, elements)?;
    Ok(Data::Package { count, elements })
}

/// The number of a coordination type (ACPI 6.5, 8.3).
pub fn coord_number(coord: Coord) -> u64
    ensures { result ≡ coord_number coord }
{
    match coord {
        Coord::SwAll => 0xFC,
        Coord::SwAny => 0xFD,
        Coord::HwAll => 0xFE,
    }
}
