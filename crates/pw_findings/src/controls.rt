//! What is found of the registers of performance and throttling states.

ghost use Rattle.std.specs.Prelude.{◌≡◌, ◌++◌, option_copied, OnOk};
ghost use Rattle.pw_findings.specs.Scales.{are_apart, are_same, end_of, is_addressed, register_in, room};
ghost use Rattle.pw_findings.specs.Scales.{same_register};
ghost use Rattle.pw_findings.specs.Scales.{shared, two_spaces, wide_register, widest};

use crate::adding::add_when;
use crate::finding::{Finding, FindingKind, OfControl};
use acpi_values::{ControlPair, Register};
use aml_data::FullPath;
use pw_base::Memory;
use pw_plan::{CpuParts, DomainKind, Scale};
use std::alloc::Global;

/// How many bits an access of a size that isn't given takes.
fn widest(kind: DomainKind) -> u32
    ensures { result ≡ widest kind }
{
    match kind {
        DomainKind::Perf => 64,
        DomainKind::Throttle => 32,
        DomainKind::Idle => 64,
    }
}

/// How many bits an access of this size takes (ACPI 6.5, 5.2.3.2).
fn room(kind: DomainKind, access: u8) -> u32
    ensures { result ≡ room kind access }
{
    match access {
        1 => 8,
        2 => 16,
        3 => 32,
        _ => widest(kind),
    }
}

/// Where the bits of a register end.
fn end_of(register: Register) -> u32
    ensures { result ≡ end_of register }
{
    u32::from(register.width) + u32::from(register.offset)
}

/// Whether it lies in memory or at a port.
fn is_addressed(register: Register) -> bool
    ensures { result ≡ is_addressed register }
{
    register.space == 0 || register.space == 1
}

/// Adds that the bits of a control register end behind those that an access takes.
pub(crate) fn find_wide(
    alloc: Global,
    kind: DomainKind,
    path: &FullPath,
    register: Option<Register>,
    found: &mut Vec<Finding>,
) -> Result<(), Memory>
    ensures { OnOk result (found.new.items ≡ found.old.items ++ wide_register kind path.now register) }
{
    let Some(register) = register else {
        return Ok(());
    };
    let end = end_of(register);
    let room = room(kind, register.access);
    let of = OfControl::PastAccess { end, room };
    let past = is_addressed(register) && room < end;
    add_when(alloc, past, path, FindingKind::Control { kind, of }, found)
}

/// Whether two registers are the same.
fn same_register(one: Register, other: Register) -> bool
    ensures { result ≡ same_register one other }
{
    one.space == other.space
        && one.width == other.width
        && one.offset == other.offset
        && one.access == other.access
        && one.address == other.address
}

/// Whether both are there, and the same.
pub(crate) fn are_same(one: Option<Register>, other: Option<Register>) -> bool
    ensures { result ≡ are_same one other }
{
    match (one, other) {
        (Some(one), Some(other)) => same_register(one, other),
        _ => false,
    }
}

/// The control register of states, where there is one.
pub(crate) fn register_in(scale: Option<&Scale>) -> Option<Register>
    ensures { result ≡ register_in (option_copied scale.entry) }
{
    match scale {
        None => None,
        Some(scale) => scale.register,
    }
}

/// Adds that performance and throttling states have one control register.
pub fn find_shared(alloc: Global, cpu: &CpuParts, found: &mut Vec<Finding>) -> Result<(), Memory>
    ensures { OnOk result (found.new.items ≡ found.old.items ++ shared cpu.now) }
{
    let perf = register_in(cpu.scale(DomainKind::Perf));
    let throttle = register_in(cpu.scale(DomainKind::Throttle));
    let kind = FindingKind::Control {
        kind: DomainKind::Throttle,
        of: OfControl::Shared,
    };
    add_when(alloc, are_same(perf, throttle), &cpu.path, kind, found)
}

/// Whether control and status are there, in two address spaces.
fn are_apart(pair: &ControlPair) -> bool
    ensures { result ≡ are_apart pair.now }
{
    !pair.control.is_null() && !pair.status.is_null() && pair.control.space != pair.status.space
}

/// Adds that the registers of performance states are in two address spaces.
pub fn find_two_spaces(
    alloc: Global,
    path: &FullPath,
    registers: Option<ControlPair>,
    found: &mut Vec<Finding>,
) -> Result<(), Memory>
    ensures { OnOk result (found.new.items ≡ found.old.items ++ two_spaces path.now registers) }
{
    let Some(pair) = registers else {
        return Ok(());
    };
    let kind = FindingKind::Control {
        kind: DomainKind::Perf,
        of: OfControl::TwoSpaces {
            control: pair.control.space,
            status: pair.status.space,
        },
    };
    add_when(alloc, are_apart(&pair), path, kind, found)
}
