ghost use Rattle.std.specs.Prelude.{◌≡◌, ◌≤◌, length, Ok, IfOk};
ghost use Rattle.aml_data.specs.declared.data.Data.TheVariants.{Int as integer};
ghost use Rattle.acpi_perf.specs.Written.{control_object, domain_object, pss_object, pss_row_object};
ghost use Rattle.acpi_perf.specs.Written.{tss_object, tss_row_object};

use acpi_fields::{coord_number, package_object, package_of, register_object};
use acpi_values::{ControlPair, Dependency, PState, TState};
use aml_data::Data;
use pw_base::Memory;
use std::alloc::Global;

fn pss_state(alloc: Global, state: &PState) -> Result<Data, Memory>
    ensures { IfOk result (λ object. object ≡ pss_row_object state.now) }
{
    let fields = vec![in alloc;
        Data::Int(u64::from(state.frequency)),
        Data::Int(u64::from(state.power)),
        Data::Int(u64::from(state.latency)),
        Data::Int(u64::from(state.bus_latency)),
        Data::Int(u64::from(state.control)),
        Data::Int(u64::from(state.status)),
    ]?;
    package_object(alloc, fields)
}

/// The object of `_PSS` for these performance states (ACPI 6.5, 8.4.5.2).
pub fn write_pss(alloc: Global, states: &[PState]) -> Result<Data, Memory>
    requires { length states.now ≤ 250 }
    ensures { IfOk result (λ object. object ≡ pss_object states.now) }
{
    let make = |state: &PState| pss_state(alloc, state);
    package_of(alloc, Vec::new(alloc), states, make)
}

fn tss_state(alloc: Global, state: &TState) -> Result<Data, Memory>
    ensures { IfOk result (λ object. object ≡ tss_row_object state.now) }
{
    let fields = vec![in alloc;
        Data::Int(u64::from(state.percent)),
        Data::Int(u64::from(state.power)),
        Data::Int(u64::from(state.latency)),
        Data::Int(u64::from(state.control)),
        Data::Int(u64::from(state.status)),
    ]?;
    package_object(alloc, fields)
}

/// The object of `_TSS` for these throttling states (ACPI 6.5, 8.4.4.2).
pub fn write_tss(alloc: Global, states: &[TState]) -> Result<Data, Memory>
    requires { length states.now ≤ 250 }
    ensures { IfOk result (λ object. object ≡ tss_object states.now) }
{
    let make = |state: &TState| tss_state(alloc, state);
    package_of(alloc, Vec::new(alloc), states, make)
}

/// The object of `_PCT` or `_PTC` for these registers (ACPI 6.5, 8.4.5.1 and 8.4.4.1).
pub fn write_control(alloc: Global, pair: &ControlPair) -> Result<Data, Memory>
    ensures { IfOk result (λ object. object ≡ control_object pair.now) }
{
    let control = register_object(alloc, &pair.control)?;
    let status = register_object(alloc, &pair.status)?;
    let elements = vec![in alloc; control, status]?;
    package_object(alloc, elements)
}

/// The object of `_PPC` or `_TPC` for this limit (ACPI 6.5, 8.4.5.3 and 8.4.4.3). It takes no memory, and
/// so it always succeeds.
pub fn write_limit(_alloc: Global, limit: u32) -> Result<Data, Memory>
    ensures { result ≡ Ok (integer limit) }
{
    Ok(Data::Int(u64::from(limit)))
}

/// The object of `_PSD` or `_TSD` for this domain (ACPI 6.5, 8.4.5.5 and 8.4.4.4).
pub fn write_dependency(alloc: Global, domain: &Dependency) -> Result<Data, Memory>
    ensures { IfOk result (λ object. object ≡ domain_object domain.now) }
{
    let fields = vec![in alloc;
        Data::Int(5),
        Data::Int(0),
        Data::Int(u64::from(domain.domain)),
        Data::Int(coord_number(domain.coord)),
        Data::Int(u64::from(domain.processors)),
    ]?;
    let elements = vec![in alloc; package_object(alloc, fields)?]?;
    package_object(alloc, elements)
}
