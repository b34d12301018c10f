ghost use Rattle.std.specs.Prelude.{◌≡◌};
ghost use Rattle.aml_data.specs.Countable.{IsCountable};
ghost use Rattle.acpi_fields.specs.Reading.{Gives};
ghost use Rattle.acpi_idle.specs.Lpis.{counter_at, entry_at, lpi_of, lpi_row, revision_at};

use acpi_fields::{
    count_at, fields_of, integer_at, register_at, rows_from, text_at, u32_of, whole_of,
};
use acpi_values::{EntryMethod, Lpi, LpiState, Place, ReadFault, Register, Shape, Why};
use aml_data::{Data, Width, integer};
use pw_base::List;
use std::alloc::Global;

/// The register that stands for none.
const NULL: Register = Register {
    space: 0,
    width: 0,
    offset: 0,
    access: 0,
    address: 0,
};

/// An entry method: an integer or a register (ACPI 6.5, 8.4.3.3).
fn entry_of(object: &Data, width: Width, place: Place) -> Result<EntryMethod, Shape>
    ensures { result ≡ entry_at width place object.now }
{
    match integer(object, width) {
        Some(number) => Ok(EntryMethod::Integer(number)),
        None => {
            let register = register_at(object, place)?;
            Ok(EntryMethod::Register(register))
        }
    }
}

/// A counter: a register, or an integer, which stands for none (ACPI 6.5, 8.4.3.3).
fn counter_of(object: &Data, width: Width, place: Place) -> Result<Register, Shape>
    ensures { result ≡ counter_at width place object.now }
{
    match integer(object, width) {
        Some(_) => Ok(NULL),
        None => register_at(object, place),
    }
}

/// A low power idle state: element `outer` of `_LPI`.
fn lpi_state(alloc: Global, object: &Data, width: Width, outer: u32) -> Result<LpiState, ReadFault>
    ensures { Gives (λ state. state) result (lpi_row width outer object.now) }
{
    let fields = fields_of(object, outer, 10)?;
    let min_residency = u32_of(fields, width, outer, 1)?;
    let wake_latency = u32_of(fields, width, outer, 2)?;
    let flags = u32_of(fields, width, outer, 3)?;
    let lost = u32_of(fields, width, outer, 4)?;
    let frequency = u32_of(fields, width, outer, 5)?;
    let parent = u32_of(fields, width, outer, 6)?;
    let entry = entry_of(&fields[6], width, Place { outer, inner: 7 })?;
    let residency = counter_of(&fields[7], width, Place { outer, inner: 8 })?;
    let usage = counter_of(&fields[8], width, Place { outer, inner: 9 })?;
    let name = text_at(&fields[9], Place { outer, inner: 10 })?;
    let name = Vec::from_slice(alloc, name)?;
    Ok(LpiState {
        min_residency,
        wake_latency,
        flags,
        lost,
        frequency,
        parent,
        entry,
        residency,
        usage,
        name: List::from_vec(name),
    })
}

/// The revision, which is to be 0.
#[tactic(auto, unfolding(acpi_fields::specs::Reading::most_64))]
fn revision_of(object: &Data, width: Width) -> Result<u64, Shape>
    ensures { result ≡ revision_at width object.now }
{
    let place = Place { outer: 1, inner: 0 };
    let revision = integer_at(object, width, u64::MAX, place)?;
    if revision != 0 {
        return Err(Shape {
            place,
            why: Why::Revision,
        });
    }
    Ok(revision)
}

/// The low power idle states of `_LPI` (ACPI 6.5, 8.4.3.3).
#[tactic(auto, unfolding(crate::specs::Lpis::lpi_of, acpi_fields::specs::Reading::most_64))]
pub fn read_lpi(alloc: Global, object: &Data, width: Width) -> Result<Lpi, ReadFault>
    requires { IsCountable object.now }
    ensures { Gives (λ lpi. lpi) result (lpi_of width object.now) }
{
    let elements = whole_of(object, 3)?;
    let (front, rest) = elements.split_at(3);
    let _revision = revision_of(&front[0], width)?;
    let level = integer_at(&front[1], width, u64::MAX, Place { outer: 2, inner: 0 })?;
    let _count = count_at(&front[2], width, 3, rest.len())?;
    let read = |element: &Data, outer: u32| lpi_state(alloc, element, width, outer);
    let states = rows_from(alloc, rest, 3, read)?;
    Ok(Lpi {
        level,
        states: List::from_vec(states),
    })
}
