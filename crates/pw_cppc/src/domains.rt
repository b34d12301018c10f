ghost use Rattle.std.specs.Prelude.{◌≡◌, ◌<◌, ◌≤◌, ◌==◌, not, length, is_some, All, IfOk};
ghost use Rattle.std.specs.List.{list_all, position, range_with_len};
ghost use Rattle.pw_plan.specs.Domains.{same_coord};
ghost use Rattle.pw_cppc.specs.declared.parts.Control.TheVariants as controls;
ghost use Rattle.pw_cppc.specs.Parts.{has_cpc, is_ranged, parts_in, register_of};
ghost use Rattle.pw_cppc.specs.Domains.{domain_led_by, domains_of, leads, members_of};
ghost use Rattle.pw_cppc.specs.Domains.{same_domain, same_range, shown, together};
ghost use Rattle.pw_cppc.specs.Domains.{unfit_by, why_unfit};
ghost use Rattle.pw_cppc.specs.Sound.{covers, places_of};

use crate::parts::{Control, CppcParts};
use crate::plan::CppcDomain;
use acpi_values::{Coord, Dependency};
use pw_base::{List, Memory};
use std::alloc::Global;

/// The processor of this number.
fn parts_in(cpus: &[CppcParts], cpu: u32) -> &CppcParts
    requires { cpu < length cpus.now }
    ensures { result.now ≡ parts_in cpus.now cpu }
{
    &cpus[cpu as usize]
}

/// Whether a processor has `_CPC`.
fn has_cpc(cpus: &[CppcParts], cpu: u32) -> bool
    requires { cpu < length cpus.now }
    ensures { result ≡ has_cpc cpus.now cpu }
{
    parts_in(cpus, cpu).cpc.is_some()
}

/// Whether both are declared, of the same domain.
fn same_domain(one: Option<Dependency>, other: Option<Dependency>) -> bool
    ensures { result ≡ same_domain one other }
{
    match (one, other) {
        (Some(found), Some(second)) => found.domain == second.domain,
        _ => false,
    }
}

/// Whether two processors are in one domain.
fn together(cpus: &[CppcParts], one: u32, other: u32) -> bool
    requires one { one < length cpus.now }
    requires other { other < length cpus.now }
    ensures { result ≡ together cpus.now one other }
{
    has_cpc(cpus, one)
        && has_cpc(cpus, other)
        && (one == other
            || same_domain(
                parts_in(cpus, one).dependency,
                parts_in(cpus, other).dependency,
            ))
}

/// What a processor shows as a member.
#[tactic(auto, unfolding(pw_plan::specs::Domains::alone))]
fn shown(cpus: &[CppcParts], cpu: u32) -> Dependency
    requires { cpu < length cpus.now }
    ensures { result ≡ shown cpus.now cpu }
{
    parts_in(cpus, cpu).dependency.unwrap_or(Dependency {
        domain: 0,
        coord: Coord::SwAll,
        processors: 1,
    })
}

fn same_coord(one: Coord, other: Coord) -> bool
    ensures { result ≡ same_coord one other }
{
    match one {
        Coord::SwAll => matches!(other, Coord::SwAll),
        Coord::SwAny => matches!(other, Coord::SwAny),
        Coord::HwAll => matches!(other, Coord::HwAll),
    }
}

/// Whether two processors have the same lowest and the same highest performance.
fn same_range(one: &CppcParts, other: &CppcParts) -> bool
    ensures { result ≡ same_range one.now other.now }
{
    one.lowest() == other.lowest() && one.highest() == other.highest()
}

/// Whether all members show this coordination type.
fn share_coord(cpus: &[CppcParts], coord: Coord, members: &[u32]) -> bool
    requires { All (λ p. p < length cpus.now) members.now }
    ensures { result ≡ list_all (λ p. same_coord (shown cpus.now p).coord coord) members.now }
{
    for member in members {
        if !same_coord(shown(cpus, *member).coord, coord) {
            return false;
        }
    }
    true
}

/// Whether all members declare this number of processors.
fn share_number(cpus: &[CppcParts], processors: u32, members: &[u32]) -> bool
    requires { All (λ p. p < length cpus.now) members.now }
    ensures { result ≡ list_all (λ p. (shown cpus.now p).processors == processors) members.now }
{
    for member in members {
        if shown(cpus, *member).processors != processors {
            return false;
        }
    }
    true
}

/// Whether the lowest performance of each member is an integer, and no greater than its highest.
fn are_ranged(cpus: &[CppcParts], members: &[u32]) -> bool
    requires { All (λ p. p < length cpus.now) members.now }
    ensures { result ≡ list_all (λ p. is_ranged (parts_in cpus.now p)) members.now }
{
    for member in members {
        if !parts_in(cpus, *member).is_ranged() {
            return false;
        }
    }
    true
}

/// Whether all members have the same range as this processor.
fn share_range(cpus: &[CppcParts], leader: &CppcParts, members: &[u32]) -> bool
    requires { All (λ p. p < length cpus.now) members.now }
    ensures { result ≡ list_all (λ p. same_range (parts_in cpus.now p) leader.now) members.now }
{
    for member in members {
        if !same_range(parts_in(cpus, *member), leader) {
            return false;
        }
    }
    true
}

/// Whether each member has a register for desired performance.
fn have_registers(cpus: &[CppcParts], members: &[u32]) -> bool
    requires { All (λ p. p < length cpus.now) members.now }
    ensures { result ≡ list_all
        (λ p. is_some (register_of controls.Desired (parts_in cpus.now p))) members.now }
{
    for member in members {
        if parts_in(cpus, *member).register(Control::Desired).is_none() {
            return false;
        }
    }
    true
}

/// The first of six reasons that holds, 0 for none.
fn unfit_by(
    one_coord: bool,
    one_number: bool,
    right_number: bool,
    ranged: bool,
    one_range: bool,
    registers: bool,
) -> u8
    ensures { result ≡ unfit_by one_coord one_number right_number ranged one_range registers }
{
    if !one_coord {
        1
    } else if !one_number {
        2
    } else if !right_number {
        3
    } else if !ranged {
        4
    } else if !one_range {
        5
    } else if !registers {
        6
    } else {
        0
    }
}

/// Why the members, the first of which leads, can't be coordinated.
fn why_unfit(cpus: &[CppcParts], first: u32, members: &[u32]) -> u8
    requires first { first < length cpus.now }
    requires members { All (λ p. p < length cpus.now) members.now }
    ensures { result ≡ why_unfit cpus.now first members.now }
{
    let leader = shown(cpus, first);
    unfit_by(
        share_coord(cpus, leader.coord, members),
        share_number(cpus, leader.processors, members),
        leader.processors as usize == members.len(),
        are_ranged(cpus, members),
        share_range(cpus, parts_in(cpus, first), members),
        have_registers(cpus, members),
    )
}

/// The processors that are together with this one, in order.
#[tactic(auto, using(pw_plan::proofs::Ranges::range_next))]
fn members_of(alloc: Global, cpus: &[CppcParts], cpu: u32) -> Result<Vec<u32>, Memory>
    requires cpu { cpu < length cpus.now }
    requires few { length cpus.now ≤ 256 }
    ensures { IfOk result (λ members. members.items ≡ members_of cpus.now cpu) }
{
    let mut members = Vec::new(alloc);
    for other in 0..cpus.len() {
        if together(cpus, cpu, other as u32) {
            members.push(other as u32)?;
        }
    }
    Ok(members)
}

/// Whether no processor before this one is together with it.
fn is_first(cpus: &[CppcParts], cpu: u32) -> bool
    requires { cpu < length cpus.now }
    ensures { result ≡ list_all (λ q. not (together cpus.now q cpu)) (range_with_len 0 cpu) }
{
    for earlier in 0..cpu {
        if together(cpus, earlier, cpu) {
            return false;
        }
    }
    true
}

/// Whether a processor has `_CPC`, and none before it is together with it.
fn leads(cpus: &[CppcParts], cpu: u32) -> bool
    requires { cpu < length cpus.now }
    ensures { result ≡ leads cpus.now cpu }
{
    has_cpc(cpus, cpu) && is_first(cpus, cpu)
}

/// The domain whose first member is this processor.
#[tactic(auto, using(crate::proofs::Members::members_exist))]
fn domain_led_by(alloc: Global, cpus: &[CppcParts], cpu: u32) -> Result<CppcDomain, Memory>
    requires cpu { cpu < length cpus.now }
    requires few { length cpus.now ≤ 256 }
    ensures { IfOk result (λ domain. domain ≡ domain_led_by cpus.now cpu) }
{
    let members = members_of(alloc, cpus, cpu)?;
    let unfit = why_unfit(cpus, cpu, members.as_slice());
    Ok(CppcDomain {
        coord: shown(cpus, cpu).coord,
        members: List::from_vec(members),
        unfit,
    })
}

/// The domains, in the order of their first members.
pub fn domains_of(alloc: Global, cpus: &[CppcParts]) -> Result<List<CppcDomain>, Memory>
    requires { length cpus.now ≤ 256 }
    ensures { IfOk result (λ domains. domains ≡ domains_of cpus.now) }
{
    let mut domains = Vec::new(alloc);
    for cpu in 0..cpus.len() {
        if leads(cpus, cpu as u32) {
            domains.push(domain_led_by(alloc, cpus, cpu as u32)?)?;
        }
    }
    Ok(List::from_vec(domains))
}

/// Whether the domain has the processor.
fn covers(cpu: u32, domain: &CppcDomain) -> bool
    ensures { result ≡ covers cpu domain.now }
{
    domain.members.as_slice().contains(&cpu)
}

/// The place of the domain that has the processor, where one has.
fn place_of(domains: &[CppcDomain], cpu: u32) -> Option<usize>
    ensures { result ≡ position (covers cpu) domains.now }
{
    for (place, domain) in domains.iter().enumerate() {
        if covers(cpu, domain) {
            return Some(place);
        }
    }
    None
}

/// The place of each processor's domain, where it has one.
pub fn places_of(
    alloc: Global,
    domains: &[CppcDomain],
    count: usize,
) -> Result<List<Option<usize>>, Memory>
    requires { count ≤ 256 }
    ensures { IfOk result (λ places. places ≡ places_of domains.now count) }
{
    let mut places = Vec::new(alloc);
    for cpu in 0..count {
        places.push(place_of(domains, cpu as u32))?;
    }
    Ok(List::from_vec(places))
}
