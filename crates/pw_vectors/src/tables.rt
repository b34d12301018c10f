use crate::told::{put_fault, put_refused, put_register, separate};
use acpi_cpc::{read_cpc, write_cpc};
use acpi_fields::is_countable;
use acpi_idle::{read_csd, read_cst, read_lpi, write_csd, write_cst, write_lpi};
use acpi_perf::{
    read_control, read_dependency, read_limit, read_pss, read_tss, write_control, write_dependency,
    write_limit, write_pss, write_tss,
};
use acpi_values::{
    CDependency, CState, Coord, Cpc, CpcEntry, Dependency, EntryMethod, Lpi, LpiState, PState,
    TState,
};
use aml_data::{Data, Width};
use std::alloc::Global;

/// As many states as a table is written with.
const MOST: usize = 250;

fn coord_text(coord: Coord) -> &'static str {
    match coord {
        Coord::SwAll => "SW_ALL",
        Coord::SwAny => "SW_ANY",
        Coord::HwAll => "HW_ALL",
    }
}

/// `FREQUENCY POWER LATENCY BUS-LATENCY CONTROL STATUS` of each.
fn put_p_states(text: &mut String, states: &[PState]) -> Option<()> {
    for state in states {
        let PState {
            frequency,
            power,
            latency,
            bus_latency,
            control,
            status,
        } = *state;
        separate(text)?;
        write!(
            text,
            "{frequency} {power} {latency} {bus_latency} {control} {status}"
        )
        .ok()?;
    }
    Some(())
}

/// `PERCENT POWER LATENCY CONTROL STATUS` of each.
fn put_t_states(text: &mut String, states: &[TState]) -> Option<()> {
    for state in states {
        let TState {
            percent,
            power,
            latency,
            control,
            status,
        } = *state;
        separate(text)?;
        write!(text, "{percent} {power} {latency} {control} {status}").ok()?;
    }
    Some(())
}

/// `DOMAIN COORDINATION PROCESSORS`.
fn put_dependency(text: &mut String, read: &Dependency) -> Option<()> {
    let (domain, processors) = (read.domain, read.processors);
    let coord = coord_text(read.coord);
    write!(text, "{domain} {coord} {processors}").ok()
}

/// `REGISTER TYPE LATENCY POWER` of each.
fn put_c_states(text: &mut String, states: &[CState]) -> Option<()> {
    for state in states {
        let (kind, latency, power) = (state.kind, state.latency, state.power);
        separate(text)?;
        put_register(text, &state.register)?;
        write!(text, " {kind} {latency} {power}").ok()?;
    }
    Some(())
}

/// `DOMAIN COORDINATION PROCESSORS INDEX` of each.
fn put_c_dependencies(text: &mut String, entries: &[CDependency]) -> Option<()> {
    for entry in entries {
        let (domain, processors, index) = (entry.domain, entry.processors, entry.index);
        let coord = coord_text(entry.coord);
        separate(text)?;
        write!(text, "{domain} {coord} {processors} {index}").ok()?;
    }
    Some(())
}

/// `RESIDENCY LATENCY FLAGS LOST FREQUENCY PARENT ENTRY RESIDENCY-COUNTER USAGE-COUNTER NAME`.
fn put_lpi_state(text: &mut String, state: &LpiState) -> Option<()> {
    let (least, latency, flags) = (state.min_residency, state.wake_latency, state.flags);
    let (lost, frequency, parent) = (state.lost, state.frequency, state.parent);
    write!(
        text,
        "; {least} {latency} {flags} {lost} {frequency} {parent} "
    )
    .ok()?;
    match &state.entry {
        EntryMethod::Register(register) => put_register(text, register)?,
        EntryMethod::Integer(number) => write!(text, "0x{number:x}").ok()?,
    }
    text.push_str(" ").ok()?;
    put_register(text, &state.residency)?;
    text.push_str(" ").ok()?;
    put_register(text, &state.usage)?;
    text.push_str(" ").ok()?;
    text.push_str(str::from_utf8(state.name.as_slice()).ok()?)
        .ok()
}

/// The level, and the states.
fn put_lpi(text: &mut String, lpi: &Lpi) -> Option<()> {
    let level = lpi.level;
    write!(text, "level {level}").ok()?;
    for state in lpi.states.as_slice() {
        put_lpi_state(text, state)?;
    }
    Some(())
}

/// The revision, and the elements behind it.
fn put_cpc(text: &mut String, cpc: &Cpc) -> Option<()> {
    let revision = cpc.revision;
    write!(text, "revision {revision}").ok()?;
    for entry in cpc.entries.as_slice() {
        match entry {
            CpcEntry::Number(number) => write!(text, "; {number}").ok()?,
            CpcEntry::Register(register) => {
                text.push_str("; ").ok()?;
                put_register(text, register)?;
            }
        }
    }
    Some(())
}

/// Tells why an object is none of its kind, so that nothing is written.
fn nothing(told: Option<()>) -> Option<Option<Data>> {
    told?;
    Some(None)
}

fn pss(text: &mut String, alloc: Global, object: &Data, width: Width) -> Option<Option<Data>> {
    if !is_countable(object) {
        return None;
    }
    match read_pss(alloc, object, width) {
        Ok(states) => {
            put_p_states(text, states.as_slice())?;
            if states.len() > MOST {
                return None;
            }
            Some(Some(write_pss(alloc, states.as_slice()).ok()?))
        }
        Err(e) => nothing(put_fault(text, e)),
    }
}

fn tss(text: &mut String, alloc: Global, object: &Data, width: Width) -> Option<Option<Data>> {
    if !is_countable(object) {
        return None;
    }
    match read_tss(alloc, object, width) {
        Ok(states) => {
            put_t_states(text, states.as_slice())?;
            if states.len() > MOST {
                return None;
            }
            Some(Some(write_tss(alloc, states.as_slice()).ok()?))
        }
        Err(e) => nothing(put_fault(text, e)),
    }
}

fn cst(text: &mut String, alloc: Global, object: &Data, width: Width) -> Option<Option<Data>> {
    if !is_countable(object) {
        return None;
    }
    match read_cst(alloc, object, width) {
        Ok(states) => {
            put_c_states(text, states.as_slice())?;
            if states.len() > MOST {
                return None;
            }
            Some(Some(write_cst(alloc, states.as_slice()).ok()?))
        }
        Err(e) => nothing(put_fault(text, e)),
    }
}

fn csd(text: &mut String, alloc: Global, object: &Data, width: Width) -> Option<Option<Data>> {
    if !is_countable(object) {
        return None;
    }
    match read_csd(alloc, object, width) {
        Ok(states) => {
            put_c_dependencies(text, states.as_slice())?;
            if states.len() > MOST {
                return None;
            }
            Some(Some(write_csd(alloc, states.as_slice()).ok()?))
        }
        Err(e) => nothing(put_fault(text, e)),
    }
}

/// The control register and the status register.
fn control(text: &mut String, alloc: Global, object: &Data) -> Option<Option<Data>> {
    match read_control(object) {
        Ok(pair) => {
            put_register(text, &pair.control)?;
            text.push_str(" ").ok()?;
            put_register(text, &pair.status)?;
            Some(Some(write_control(alloc, &pair).ok()?))
        }
        Err(shape) => nothing(put_refused(text, shape)),
    }
}

fn limit(text: &mut String, alloc: Global, object: &Data, width: Width) -> Option<Option<Data>> {
    match read_limit(object, width) {
        Ok(limit) => {
            write!(text, "{limit}").ok()?;
            Some(Some(write_limit(alloc, limit).ok()?))
        }
        Err(shape) => nothing(put_refused(text, shape)),
    }
}

fn dependency(
    text: &mut String,
    alloc: Global,
    object: &Data,
    width: Width,
) -> Option<Option<Data>> {
    match read_dependency(object, width) {
        Ok(read) => {
            put_dependency(text, &read)?;
            Some(Some(write_dependency(alloc, &read).ok()?))
        }
        Err(shape) => nothing(put_refused(text, shape)),
    }
}

fn lpi(text: &mut String, alloc: Global, object: &Data, width: Width) -> Option<Option<Data>> {
    if !is_countable(object) {
        return None;
    }
    match read_lpi(alloc, object, width) {
        Ok(lpi) => {
            put_lpi(text, &lpi)?;
            if lpi.states.as_slice().len() > MOST {
                return None;
            }
            Some(Some(write_lpi(alloc, &lpi).ok()?))
        }
        Err(e) => nothing(put_fault(text, e)),
    }
}

fn cpc(text: &mut String, alloc: Global, object: &Data, width: Width) -> Option<Option<Data>> {
    match read_cpc(alloc, object, width) {
        Ok(cpc) => {
            put_cpc(text, &cpc)?;
            if cpc.entries.as_slice().len() > MOST {
                return None;
            }
            Some(Some(write_cpc(alloc, &cpc).ok()?))
        }
        Err(e) => nothing(put_fault(text, e)),
    }
}

/// Tells what an object of this kind is read as, and gives the object that is written of it.
pub(crate) fn put_told(
    text: &mut String,
    alloc: Global,
    kind: &str,
    width: Width,
    object: &Data,
) -> Option<Option<Data>> {
    match kind {
        "pss" => pss(text, alloc, object, width),
        "tss" => tss(text, alloc, object, width),
        "control" => control(text, alloc, object),
        "limit" => limit(text, alloc, object, width),
        "dependency" => dependency(text, alloc, object, width),
        "cst" => cst(text, alloc, object, width),
        "csd" => csd(text, alloc, object, width),
        "lpi" => lpi(text, alloc, object, width),
        "cpc" => cpc(text, alloc, object, width),
        _ => None,
    }
}
