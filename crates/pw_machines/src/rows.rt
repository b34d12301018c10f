ghost use Rattle.std.specs.Prelude.{◌≤◌};

use crate::words::{number_at, u8_at, u32_at, word_at};
use acpi_values::{CDependency, Coord, Dependency, EntryMethod, IdleRow, Register};

/// An enabled state.
pub(crate) fn row(latency: u32, entry: EntryMethod) -> IdleRow {
    IdleRow {
        enabled: true,
        latency,
        residency: 0,
        parent: 0,
        entry,
    }
}

/// `lpi on|off LATENCY RESIDENCY PARENT-STATE ENTRY`, where the entry is a number, or the five of a
/// register.
pub(crate) fn lpi_row(part: &str) -> Option<IdleRow> {
    let entry = if word_at(part, 6).is_none() {
        EntryMethod::Integer(number_at(part, 5)?)
    } else {
        EntryMethod::Register(register_at(part, 5)?)
    };
    Some(IdleRow {
        enabled: is_on(word_at(part, 1)?)?,
        latency: u32_at(part, 2)?,
        residency: u32_at(part, 3)?,
        parent: u32_at(part, 4)?,
        entry,
    })
}

fn is_on(word: &str) -> Option<bool> {
    match word {
        "on" => Some(true),
        "off" => Some(false),
        _ => None,
    }
}

/// `c-state LATENCY` and the five of a register.
pub(crate) fn c_row(part: &str) -> Option<IdleRow> {
    let entry = EntryMethod::Register(register_at(part, 2)?);
    Some(row(u32_at(part, 1)?, entry))
}

/// `SPACE WIDTH OFFSET ACCESS ADDRESS`.
fn register_at(part: &str, at: usize) -> Option<Register>
    requires { at ≤ 5 }
{
    Some(Register {
        space: u8_at(part, at)?,
        width: u8_at(part, at + 1)?,
        offset: u8_at(part, at + 2)?,
        access: u8_at(part, at + 3)?,
        address: number_at(part, at + 4)?,
    })
}

fn coord_at(part: &str, at: usize) -> Option<Coord> {
    match word_at(part, at)? {
        "SW_ALL" => Some(Coord::SwAll),
        "SW_ANY" => Some(Coord::SwAny),
        "HW_ALL" => Some(Coord::HwAll),
        _ => None,
    }
}

/// `csd DOMAIN COORDINATION PROCESSORS INDEX`.
pub(crate) fn c_dependency(part: &str) -> Option<CDependency> {
    Some(CDependency {
        domain: u32_at(part, 1)?,
        coord: coord_at(part, 2)?,
        processors: u32_at(part, 3)?,
        index: u32_at(part, 4)?,
    })
}

/// Of `perf` or `throttle` the register: `none`, or the address of one of 8 bits.
pub(crate) fn control_of(part: &str) -> Option<Option<Register>> {
    if word_at(part, 3)? == "none" {
        return Some(None);
    }
    Some(Some(Register {
        space: 1,
        width: 8,
        offset: 0,
        access: 1,
        address: number_at(part, 3)?,
    }))
}

/// Of `perf` or `throttle` the domain: `DOMAIN COORDINATION PROCESSORS`, or nothing.
pub(crate) fn dependency_of(part: &str) -> Option<Option<Dependency>> {
    if word_at(part, 4).is_none() {
        return Some(None);
    }
    Some(Some(Dependency {
        domain: u32_at(part, 4)?,
        coord: coord_at(part, 5)?,
        processors: u32_at(part, 6)?,
    }))
}
