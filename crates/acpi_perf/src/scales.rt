ghost use Rattle.std.specs.Prelude.{◌≡◌, ◌<◌, ◌≤◌, ◌^◌};
ghost use Rattle.aml_data.specs.Countable.{IsCountable};
ghost use Rattle.acpi_fields.specs.Reading.{Gives};
ghost use Rattle.acpi_perf.specs.Scales.{pss_of, pss_row, tss_of, tss_row};

use acpi_fields::{elements_at, fields_of, rows_from, u32_of};
use acpi_values::{PState, Place, ReadFault, Shape, TState};
use aml_data::{Data, Width};
use std::alloc::Global;

/// The place of a whole object.
const WHOLE: Place = Place { outer: 0, inner: 0 };

/// A performance state: element `outer` of `_PSS`.
fn pss_state(object: &Data, width: Width, outer: u32) -> Result<PState, Shape>
    ensures { result ≡ pss_row width outer object.now }
{
    let fields = fields_of(object, outer, 6)?;
    Ok(PState {
        frequency: u32_of(fields, width, outer, 1)?,
        power: u32_of(fields, width, outer, 2)?,
        latency: u32_of(fields, width, outer, 3)?,
        bus_latency: u32_of(fields, width, outer, 4)?,
        control: u32_of(fields, width, outer, 5)?,
        status: u32_of(fields, width, outer, 6)?,
    })
}

/// The performance states of `_PSS`, the fastest first (ACPI 6.5, 8.4.5.2).
#[tactic(auto, unfolding(crate::specs::Scales::pss_of))]
pub fn read_pss(alloc: Global, object: &Data, width: Width) -> Result<Vec<PState>, ReadFault>
    requires { IsCountable object.now }
    ensures { Gives (λ states. states.items) result (pss_of width object.now) }
{
    let elements = elements_at(object, WHOLE)?;
    let read = |element: &Data, outer: u32| -> Result<PState, ReadFault>
        ensures { Gives (λ state. state) result (pss_row width outer element.now) }
    { Ok(pss_state(element, width, outer)?) };
    rows_from(alloc, elements, 0, read)
}

/// A throttling state: element `outer` of `_TSS`.
fn tss_state(object: &Data, width: Width, outer: u32) -> Result<TState, Shape>
    ensures { result ≡ tss_row width outer object.now }
{
    let fields = fields_of(object, outer, 5)?;
    Ok(TState {
        percent: u32_of(fields, width, outer, 1)?,
        power: u32_of(fields, width, outer, 2)?,
        latency: u32_of(fields, width, outer, 3)?,
        control: u32_of(fields, width, outer, 4)?,
        status: u32_of(fields, width, outer, 5)?,
    })
}

/// The throttling states of `_TSS`, the fastest first (ACPI 6.5, 8.4.4.2).
#[tactic(auto, unfolding(crate::specs::Scales::tss_of))]
pub fn read_tss(alloc: Global, object: &Data, width: Width) -> Result<Vec<TState>, ReadFault>
    requires { IsCountable object.now }
    ensures { Gives (λ states. states.items) result (tss_of width object.now) }
{
    let elements = elements_at(object, WHOLE)?;
    let read = |element: &Data, outer: u32| -> Result<TState, ReadFault>
        ensures { Gives (λ state. state) result (tss_row width outer element.now) }
    { Ok(tss_state(element, width, outer)?) };
    rows_from(alloc, elements, 0, read)
}
