//! How the members of a domain differ that software coordinates.

ghost use Rattle.std.specs.Prelude.{◌≡◌, ◌++◌, option_copied, IfOk, OnOk};
ghost use Rattle.pw_plan.specs.Groups.{is_software};
ghost use Rattle.pw_findings.specs.Domains.{apart, control_at, controls_of, has_other_control};
ghost use Rattle.pw_findings.specs.Domains.{has_other_register};
ghost use Rattle.pw_findings.specs.Domains.{is_written, lead, member_findings, other_control, other_state};
ghost use Rattle.pw_findings.specs.Domains.{scale_at, unlike};

use crate::adding::add_at;
use crate::controls::{are_same, register_in};
use crate::differing::{Differing, first_member};
use crate::domains::{id_of, lead, path_at};
use crate::finding::{Finding, FindingKind, OfMember};
use crate::firsts::{first_other, number_in};
use acpi_values::Coord;
use pw_base::Memory;
use pw_plan::{CpuParts, Domain, Scale};
use std::alloc::Global;

/// Whether software coordinates domains of this type.
fn is_software(coord: Coord) -> bool
    ensures { result ≡ is_software coord }
{
    match coord {
        Coord::SwAll => true,
        Coord::SwAny => true,
        Coord::HwAll => false,
    }
}

/// Whether the members agree, and software writes their registers.
fn is_written(domain: &Domain) -> bool
    ensures { result ≡ is_written domain.now }
{
    domain.unfit == 0 && is_software(domain.coord)
}

/// The states of the domain's kind of a processor.
#[tactic(auto, unfolding(pw_plan::specs::Parts::no_cpu))]
fn scale_at<'a>(cpus: &'a [CpuParts], domain: &Domain, cpu: u32) -> Option<&'a Scale>
    ensures { option_copied result ≡ scale_at cpus.now domain.now cpu }
{
    match cpus.get(cpu as usize) {
        None => None,
        Some(parts) => parts.scale(domain.kind),
    }
}

/// Their control values.
fn controls_of<'a>(cpus: &'a [CpuParts], domain: &Domain, cpu: u32) -> &'a [u32]
    ensures { result.now ≡ controls_of (scale_at cpus.now domain.now cpu) }
{
    match scale_at(cpus, domain, cpu) {
        None => &[],
        Some(scale) => scale.controls.as_slice(),
    }
}

/// The first state of which a member has another control value than the first.
fn other_state(cpus: &[CpuParts], domain: &Domain, cpu: u32) -> Option<usize>
    ensures { result ≡ other_state cpus.now domain.now cpu }
{
    first_other(
        controls_of(cpus, domain, lead(domain)),
        controls_of(cpus, domain, cpu),
    )
}

/// Whether there is one.
pub(crate) fn has_other_control(cpus: &[CpuParts], domain: &Domain, cpu: u32) -> bool
    ensures { result ≡ has_other_control cpus.now domain.now cpu }
{
    other_state(cpus, domain, cpu).is_some()
}

/// Whether a member has another control register than the first.
pub(crate) fn has_other_register(cpus: &[CpuParts], domain: &Domain, cpu: u32) -> bool
    ensures { result ≡ has_other_register cpus.now domain.now cpu }
{
    let first = register_in(scale_at(cpus, domain, lead(domain)));
    let scale = scale_at(cpus, domain, cpu);
    scale.is_some() && !are_same(first, register_in(scale))
}

/// Adds that this member has another control register than the first.
fn find_apart(
    alloc: Global,
    cpus: &[CpuParts],
    domain: &Domain,
    member: Option<&u32>,
    found: &mut Vec<Finding>,
) -> Result<(), Memory>
    ensures { OnOk result (found.new.items ≡ found.old.items
        ++ apart cpus.now domain.now (option_copied member.entry)) }
{
    let Some(member) = member else {
        return Ok(());
    };
    let path = path_at(alloc, cpus, lead(domain))?;
    let other = path_at(alloc, cpus, *member)?;
    let kind = FindingKind::Member {
        domain: id_of(domain),
        of: OfMember::OtherRegister { other },
    };
    add_at(path, kind, found)
}

/// The control value of a state at a member.
fn control_at(cpus: &[CpuParts], domain: &Domain, cpu: u32, state: usize) -> u32
    ensures { result ≡ control_at cpus.now domain.now cpu state }
{
    number_in(controls_of(cpus, domain, cpu), state)
}

/// That a member has another control value for a state than the first.
fn other_control(
    alloc: Global,
    cpus: &[CpuParts],
    domain: &Domain,
    member: u32,
    state: usize,
) -> Result<FindingKind, Memory>
    ensures { IfOk result (λ kind. kind ≡ other_control cpus.now domain.now member state) }
{
    let of = OfMember::OtherControl {
        state,
        value: control_at(cpus, domain, lead(domain), state),
        other: path_at(alloc, cpus, member)?,
        there: control_at(cpus, domain, member, state),
    };
    Ok(FindingKind::Member {
        domain: id_of(domain),
        of,
    })
}

/// Adds that this member has another control value than the first.
fn find_unlike(
    alloc: Global,
    cpus: &[CpuParts],
    domain: &Domain,
    member: Option<&u32>,
    found: &mut Vec<Finding>,
) -> Result<(), Memory>
    ensures { OnOk result (found.new.items ≡ found.old.items
        ++ unlike cpus.now domain.now (option_copied member.entry)) }
{
    let Some(member) = member else {
        return Ok(());
    };
    let path = path_at(alloc, cpus, lead(domain))?;
    let state = other_state(cpus, domain, *member).unwrap_or(0);
    let kind = other_control(alloc, cpus, domain, *member, state)?;
    add_at(path, kind, found)
}

/// Adds how the members of a domain differ.
#[tactic(auto, unfolding(crate::specs::Domains::member_findings))]
pub(crate) fn find_in_members(
    alloc: Global,
    cpus: &[CpuParts],
    domain: &Domain,
    found: &mut Vec<Finding>,
) -> Result<(), Memory>
    ensures { OnOk result (found.new.items ≡ found.old.items ++ member_findings cpus.now domain.now) }
{
    if !is_written(domain) {
        return Ok(());
    }
    let members = domain.members.as_slice();
    let other = first_member(Differing::Register, cpus, domain, members);
    find_apart(alloc, cpus, domain, other, found)?;
    let other = first_member(Differing::Control, cpus, domain, members);
    find_unlike(alloc, cpus, domain, other, found)
}
