ghost use Rattle.std.specs.Prelude.{◌≡◌, ◌≤◌, length, IfOk};
ghost use Rattle.aml_data.specs.declared.data.Data.TheVariants.{Text as string};
ghost use Rattle.acpi_fields.specs.Writing.{register_object};
ghost use Rattle.acpi_idle.specs.Written.{csd_object, csd_row_object, cst_object, cst_row_object};
ghost use Rattle.acpi_idle.specs.Written.{entry_object, lpi_object, lpi_row_object};

use acpi_fields::{coord_number, package_object, package_of, register_object};
use acpi_values::{CDependency, CState, EntryMethod, Lpi, LpiState};
use aml_data::Data;
use pw_base::{CompactList, List, Memory};
use std::alloc::Global;

fn cst_state(alloc: Global, state: &CState) -> Result<Data, Memory>
    ensures { IfOk result (λ object. object ≡ cst_row_object state.now) }
{
    let register = register_object(alloc, &state.register)?;
    let fields = vec![in alloc;
        register,
        Data::Int(u64::from(state.kind)),
        Data::Int(u64::from(state.latency)),
        Data::Int(u64::from(state.power)),
    ]?;
    package_object(alloc, fields)
}

/// The object of `_CST` for these C states (ACPI 6.5, 8.4.1.1).
pub fn write_cst(alloc: Global, states: &[CState]) -> Result<Data, Memory>
    requires { length states.now ≤ 250 }
    ensures { IfOk result (λ object. object ≡ cst_object states.now) }
{
    let front = vec![in alloc; Data::Int(states.len() as u64)]?;
    let make = |state: &CState| cst_state(alloc, state);
    package_of(alloc, front, states, make)
}

fn csd_entry(alloc: Global, entry: &CDependency) -> Result<Data, Memory>
    ensures { IfOk result (λ object. object ≡ csd_row_object entry.now) }
{
    let fields = vec![in alloc;
        Data::Int(6),
        Data::Int(0),
        Data::Int(u64::from(entry.domain)),
        Data::Int(coord_number(entry.coord)),
        Data::Int(u64::from(entry.processors)),
        Data::Int(u64::from(entry.index)),
    ]?;
    package_object(alloc, fields)
}

/// The object of `_CSD` for these dependencies (ACPI 6.5, 8.4.1.2).
pub fn write_csd(alloc: Global, entries: &[CDependency]) -> Result<Data, Memory>
    requires { length entries.now ≤ 250 }
    ensures { IfOk result (λ object. object ≡ csd_object entries.now) }
{
    let make = |entry: &CDependency| csd_entry(alloc, entry);
    package_of(alloc, Vec::new(alloc), entries, make)
}

/// An entry method (ACPI 6.5, 8.4.3.3).
fn entry_of(alloc: Global, entry: &EntryMethod) -> Result<Data, Memory>
    ensures { IfOk result (λ object. object ≡ entry_object entry.now) }
{
    match entry {
        EntryMethod::Register(register) => register_object(alloc, register),
        EntryMethod::Integer(number) => Ok(Data::Int(*number)),
    }
}

/// A string.
fn text_of(alloc: Global, text: &List<u8>) -> Result<Data, Memory>
    ensures { IfOk result (λ object. object ≡ string text.now) }
{
    let text = Vec::from_slice(alloc, text.as_slice())?;
    Ok(Data::Text(CompactList::from_vec(alloc, text)?))
}

/// How a low power idle state is entered, and its counters.
#[derive(Drop)]
struct Registers {
    entry: Data,
    residency: Data,
    usage: Data,
}

/// The objects of these.
fn registers_of(alloc: Global, state: &LpiState) -> Result<Registers, Memory>
    ensures entry { IfOk result (λ r. r.entry ≡ entry_object state.now.entry) }
    ensures residency { IfOk result (λ r. r.residency ≡ register_object state.now.residency) }
    ensures usage { IfOk result (λ r. r.usage ≡ register_object state.now.usage) }
{
    Ok(Registers {
        entry: entry_of(alloc, &state.entry)?,
        residency: register_object(alloc, &state.residency)?,
        usage: register_object(alloc, &state.usage)?,
    })
}

fn lpi_state(alloc: Global, state: &LpiState) -> Result<Data, Memory>
    ensures { IfOk result (λ object. object ≡ lpi_row_object state.now) }
{
    let Registers {
        entry,
        residency,
        usage,
    } = registers_of(alloc, state)?;
    let name = text_of(alloc, &state.name)?;
    let fields = vec![in alloc;
        Data::Int(u64::from(state.min_residency)),
        Data::Int(u64::from(state.wake_latency)),
        Data::Int(u64::from(state.flags)),
        Data::Int(u64::from(state.lost)),
        Data::Int(u64::from(state.frequency)),
        Data::Int(u64::from(state.parent)),
        entry,
        residency,
        usage,
        name,
    ]?;
    package_object(alloc, fields)
}

/// The object of `_LPI` for these states (ACPI 6.5, 8.4.3.3).
pub fn write_lpi(alloc: Global, lpi: &Lpi) -> Result<Data, Memory>
    requires { length lpi.now.states ≤ 250 }
    ensures { IfOk result (λ object. object ≡ lpi_object lpi.now) }
{
    let states = lpi.states.as_slice();
    let front = vec![in alloc;
        Data::Int(0),
        Data::Int(lpi.level),
        Data::Int(states.len() as u64),
    ]?;
    let make = |state: &LpiState| -> Result<Data, Memory>
        ensures { IfOk result (λ object. object ≡ lpi_row_object state.now) }
    { lpi_state(alloc, state) };
    package_of(alloc, front, states, make)
}
