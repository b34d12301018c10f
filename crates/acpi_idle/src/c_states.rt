ghost use Rattle.std.specs.Prelude.{◌≡◌, ◌≤◌, length};
ghost use Rattle.aml_data.specs.Countable.{IsCountable};
ghost use Rattle.acpi_fields.specs.Reading.{Gives};
ghost use Rattle.acpi_idle.specs.CStates.{csd_of, csd_row, cst_of, cst_row, kind_in};

use acpi_fields::{
    count_at, dependency_of, elements_at, fields_of, number_of, register_at, rows_from, u32_of,
    whole_of,
};
use acpi_values::{CDependency, CState, Place, ReadFault, Shape, Why};
use aml_data::{Data, Width};
use std::alloc::Global;

/// The type of a C state: 1 to 3.
fn kind_of(number: u64, place: Place) -> Result<u8, Shape>
    ensures { result ≡ kind_in place number }
{
    if (1..=3).contains(&number) {
        return Ok(number as u8);
    }
    Err(Shape {
        place,
        why: Why::Range,
    })
}

/// A C state: element `outer` of `_CST`.
#[tactic(auto, unfolding(acpi_fields::specs::Reading::most_64))]
fn cst_state(object: &Data, width: Width, outer: u32) -> Result<CState, Shape>
    ensures { result ≡ cst_row width outer object.now }
{
    let fields = fields_of(object, outer, 4)?;
    let register = register_at(&fields[0], Place { outer, inner: 1 })?;
    let number = number_of(fields, width, u64::MAX, outer, 2)?;
    let kind = kind_of(number, Place { outer, inner: 2 })?;
    let latency = u32_of(fields, width, outer, 3)?;
    let power = u32_of(fields, width, outer, 4)?;
    Ok(CState {
        register,
        kind,
        latency,
        power,
    })
}

/// The C states of `_CST` (ACPI 6.5, 8.4.1.1).
#[tactic(auto, unfolding(crate::specs::CStates::cst_of))]
pub fn read_cst(alloc: Global, object: &Data, width: Width) -> Result<Vec<CState>, ReadFault>
    requires { IsCountable object.now }
    ensures { Gives (λ states. states.items) result (cst_of width object.now) }
{
    let elements = whole_of(object, 1)?;
    let (first, rest) = elements.split_at(1);
    let _count = count_at(&first[0], width, 1, rest.len())?;
    let read = |element: &Data, outer: u32| -> Result<CState, ReadFault>
        ensures { Gives (λ state. state) result (cst_row width outer element.now) }
    { Ok(cst_state(element, width, outer)?) };
    rows_from(alloc, rest, 1, read)
}

/// A dependency of a C state: element `outer` of `_CSD`.
fn csd_entry(object: &Data, width: Width, outer: u32) -> Result<CDependency, Shape>
    ensures { result ≡ csd_row width outer object.now }
{
    let fields = fields_of(object, outer, 6)?;
    let domain = dependency_of(fields, width, 6, outer)?;
    let index = u32_of(fields, width, outer, 6)?;
    Ok(CDependency {
        domain: domain.domain,
        coord: domain.coord,
        processors: domain.processors,
        index,
    })
}

/// The dependencies of `_CSD` (ACPI 6.5, 8.4.1.2).
#[tactic(auto, unfolding(crate::specs::CStates::csd_of))]
pub fn read_csd(alloc: Global, object: &Data, width: Width) -> Result<Vec<CDependency>, ReadFault>
    requires { IsCountable object.now }
    ensures { Gives (λ entries. entries.items) result (csd_of width object.now) }
{
    let elements = elements_at(object, Place { outer: 0, inner: 0 })?;
    let read = |element: &Data, outer: u32| -> Result<CDependency, ReadFault>
        ensures { Gives (λ entry. entry) result (csd_row width outer element.now) }
    { Ok(csd_entry(element, width, outer)?) };
    rows_from(alloc, elements, 0, read)
}
