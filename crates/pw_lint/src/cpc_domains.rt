//! What is found of the domains of processors with `_CPC`, which their `_PSD` name.

ghost use Rattle.std.specs.Prelude.{◌≡◌, ◌<◌, ◌++◌, length, position, slice_index_or, IfOk, OnOk};
ghost use Rattle.std.specs.Prelude.{None as none};
ghost use Rattle.std.specs.List.{list_any};
ghost use Rattle.acpi_build.specs.Tables.{AreCountable};
ghost use Rattle.pw_findings.specs.Findings.{of_each};
ghost use Rattle.pw_lint.specs.CpcDomains.{at_member, cpc_domain_findings, declared_amiss};
ghost use Rattle.pw_lint.specs.inner.Differing.{differs};
ghost use Rattle.pw_lint.specs.CpcDomains.{has_other_number};
ghost use Rattle.pw_lint.specs.CpcDomains.{has_other_range, has_other_type, id_of, is_in, led, led_by};
ghost use Rattle.pw_lint.specs.CpcDomains.{member_at};
ghost use Rattle.pw_lint.specs.CpcDomains.{member_of, members_of, number_amiss, range_amiss};
ghost use Rattle.pw_lint.specs.CpcDomains.{ranges_amiss, size_amiss, size_of, type_amiss};

use crate::devices::path_in;
use crate::reading::dependency;
use acpi_space::Space;
use acpi_values::{Cpc, Dependency};
use aml_data::FullPath;
use pw_base::Memory;
use pw_findings::{
    DomainId, Finding, FindingKind, OfDomain, OfMember, Shared, add, add_when, same_coord,
};
use pw_plan::CpuParts;
use pw_states::{Range, are_apart, range_of};
use std::alloc::Global;

/// What a processor with `_CPC` and `_PSD` says as a member of a domain.
#[derive(Clone, Copy)]
pub(crate) struct Member {
    declared: Dependency,
    /// None unless both levels are numbers.
    range: Option<Range>,
}

/// A processor with `_CPC` and `_PSD`, as a member of a domain.
fn member_of(cpc: &Option<Cpc>, declared: Option<Dependency>) -> Option<Member>
    ensures { result ≡ member_of cpc.now declared }
{
    match (cpc, declared) {
        (Some(cpc), Some(declared)) => Some(Member {
            declared,
            range: range_of(cpc),
        }),
        _ => None,
    }
}

/// The processors as members of domains.
fn members_of(
    alloc: Global,
    space: &Space<'_>,
    cpus: &[CpuParts],
) -> Result<Vec<Option<Member>>, Memory>
    requires { AreCountable space.now }
    ensures { IfOk result (λ members. members.items ≡ members_of space.now cpus.now) }
{
    let mut members = Vec::new(alloc);
    for cpu in cpus {
        let declared = dependency(alloc, space, &cpu.path)?;
        members.push(member_of(&cpu.cpc, declared))?;
    }
    Ok(members)
}

/// Processor p as a member.
fn member_at(members: &[Option<Member>], first: Member, p: usize) -> Member
    ensures { result ≡ member_at members.now first p }
{
    match members.get(p) {
        None => first,
        Some(member) => member.unwrap_or(first),
    }
}

/// Whether a processor is in the domain of this number.
fn is_in(number: u32, member: Option<Member>) -> bool
    ensures { result ≡ is_in number member }
{
    match member {
        None => false,
        Some(member) => member.declared.domain == number,
    }
}

/// Whether it is in that of another, and declares another coordination type.
fn has_other_type(first: Member, member: Option<Member>) -> bool
    ensures { result ≡ has_other_type first member }
{
    match member {
        None => false,
        Some(member) => {
            member.declared.domain == first.declared.domain
                && !same_coord(member.declared.coord, first.declared.coord)
        }
    }
}

/// Whether it is, and declares another number of processors.
fn has_other_number(first: Member, member: Option<Member>) -> bool
    ensures { result ≡ has_other_number first member }
{
    match member {
        None => false,
        Some(member) => {
            member.declared.domain == first.declared.domain
                && member.declared.processors != first.declared.processors
        }
    }
}

/// Whether it is, and goes from or to another level.
fn has_other_range(first: Member, member: Option<Member>) -> bool
    ensures { result ≡ has_other_range first member }
{
    match member {
        None => false,
        Some(member) => {
            member.declared.domain == first.declared.domain && are_apart(first.range, member.range)
        }
    }
}

/// How a member of a domain may differ from the first.
#[derive(Clone, Copy)]
pub(crate) enum Differing {
    /// It declares another coordination type.
    Type,
    /// It declares another number of processors.
    Number,
    /// It goes from or to another level.
    Range,
}

/// Whether a processor is a member that differs so.
fn differs(way: Differing, first: Member, member: Option<Member>) -> bool
    ensures { result ≡ differs way first member }
{
    match way {
        Differing::Type => has_other_type(first, member),
        Differing::Number => has_other_number(first, member),
        Differing::Range => has_other_range(first, member),
    }
}

/// The first that is.
fn other_member(way: Differing, members: &[Option<Member>], first: Member) -> Option<usize>
    ensures { result ≡ position (differs way first) members.now }
{
    members
        .iter()
        .position(|member| differs(way, first, *member))
}

/// The domain of a member.
fn id_of(first: Member) -> DomainId
    ensures { result ≡ id_of first }
{
    DomainId {
        of: Shared::Cpc,
        number: Some(first.declared.domain),
        index: 0,
    }
}

/// Adds that a member declares another coordination type.
fn find_type(
    alloc: Global,
    cpus: &[CpuParts],
    members: &[Option<Member>],
    path: &FullPath,
    first: Member,
    found: &mut Vec<Finding>,
) -> Result<(), Memory>
    ensures { OnOk result (found.new.items ≡ found.old.items ++ type_amiss cpus.now members.now path.now first
        (position (has_other_type first) members.now)) }
{
    let Some(p) = other_member(Differing::Type, members, first) else {
        return Ok(());
    };
    let of = OfDomain::OtherType {
        coord: first.declared.coord,
        other: path_in(alloc, cpus, p)?,
        there: member_at(members, first, p).declared.coord,
    };
    let domain = id_of(first);
    add(alloc, path, FindingKind::Domain { domain, of }, found)
}

/// Adds that a member declares another number of processors.
fn find_number(
    alloc: Global,
    cpus: &[CpuParts],
    members: &[Option<Member>],
    path: &FullPath,
    first: Member,
    found: &mut Vec<Finding>,
) -> Result<(), Memory>
    ensures { OnOk result (found.new.items ≡ found.old.items
        ++ number_amiss cpus.now members.now path.now first (position (has_other_number first) members.now)) }
{
    let Some(p) = other_member(Differing::Number, members, first) else {
        return Ok(());
    };
    let of = OfDomain::OtherNumber {
        processors: first.declared.processors,
        other: path_in(alloc, cpus, p)?,
        there: member_at(members, first, p).declared.processors,
    };
    let domain = id_of(first);
    add(alloc, path, FindingKind::Domain { domain, of }, found)
}

/// How many members the domain has.
fn size_of(members: &[Option<Member>], first: Member) -> usize
    ensures { result ≡ size_of members.now first }
{
    let number = first.declared.domain;
    members
        .iter()
        .filter(|member| is_in(number, **member))
        .count()
}

/// Adds that this isn't what the first member declares.
fn find_size(
    alloc: Global,
    members: &[Option<Member>],
    path: &FullPath,
    first: Member,
    found: &mut Vec<Finding>,
) -> Result<(), Memory>
    ensures { OnOk result (found.new.items ≡ found.old.items ++ size_amiss members.now path.now first) }
{
    let processors = first.declared.processors;
    let size = size_of(members, first);
    let of = OfDomain::OtherSize {
        processors,
        members: size,
    };
    let domain = id_of(first);
    let kind = FindingKind::Domain { domain, of };
    add_when(alloc, processors as usize != size, path, kind, found)
}

/// Adds that a member goes from or to another level.
fn find_ranges(
    alloc: Global,
    path: &FullPath,
    first: Member,
    other: FullPath,
    range: Option<Range>,
    found: &mut Vec<Finding>,
) -> Result<(), Memory>
    ensures { OnOk result (found.new.items ≡ found.old.items
        ++ ranges_amiss path.now first other first.range range) }
{
    let (Some(one), Some(two)) = (first.range, range) else {
        return Ok(());
    };
    let of = OfMember::OtherRange {
        lowest: one.lowest,
        highest: one.highest,
        other,
        from: two.lowest,
        to: two.highest,
    };
    let domain = id_of(first);
    add(alloc, path, FindingKind::Member { domain, of }, found)
}

/// Adds that some member does.
fn find_range(
    alloc: Global,
    cpus: &[CpuParts],
    members: &[Option<Member>],
    path: &FullPath,
    first: Member,
    found: &mut Vec<Finding>,
) -> Result<(), Memory>
    ensures { OnOk result (found.new.items ≡ found.old.items
        ++ range_amiss cpus.now members.now path.now first (position (has_other_range first) members.now)) }
{
    let Some(p) = other_member(Differing::Range, members, first) else {
        return Ok(());
    };
    let other = path_in(alloc, cpus, p)?;
    let range = member_at(members, first, p).range;
    find_ranges(alloc, path, first, other, range, found)
}

/// Adds how the members of a domain differ.
fn find_in_led(
    alloc: Global,
    cpus: &[CpuParts],
    members: &[Option<Member>],
    path: &FullPath,
    first: Member,
    found: &mut Vec<Finding>,
) -> Result<(), Memory>
    ensures { OnOk result (found.new.items ≡ found.old.items ++ led cpus.now members.now path.now first) }
{
    find_type(alloc, cpus, members, path, first, found)?;
    find_number(alloc, cpus, members, path, first, found)?;
    find_size(alloc, members, path, first, found)?;
    find_range(alloc, cpus, members, path, first, found)
}

/// Whether one of these is in the domain of this number.
fn any_in(number: u32, members: &[Option<Member>]) -> bool
    ensures { result ≡ list_any (is_in number) members.now }
{
    members.iter().any(|member| is_in(number, *member))
}

/// Adds what is found of a domain by processor k: nothing but by the first that is in it.
fn find_at_member(
    alloc: Global,
    cpus: &[CpuParts],
    members: &[Option<Member>],
    k: usize,
    found: &mut Vec<Finding>,
) -> Result<(), Memory>
    requires { k < length members.now }
    ensures { OnOk result (found.new.items ≡ found.old.items ++ at_member cpus.now members.now k) }
{
    let Some(first) = members[k] else {
        return Ok(());
    };
    if any_in(first.declared.domain, &members[..k]) {
        return Ok(());
    }
    let path = path_in(alloc, cpus, k)?;
    find_in_led(alloc, cpus, members, &path, first, found)
}

/// Adds what is found of domains, by their first members.
fn find_at_members(
    alloc: Global,
    cpus: &[CpuParts],
    members: &[Option<Member>],
    found: &mut Vec<Finding>,
) -> Result<(), Memory>
    ensures { OnOk result (found.new.items ≡ found.old.items
        ++ of_each (length members.now) (at_member cpus.now members.now)) }
{
    for k in 0..members.len() {
        find_at_member(alloc, cpus, members, k, found)?;
    }
    Ok(())
}

/// Adds what is found of the domains of processors with `_CPC`.
#[tactic(auto, unfolding(crate::specs::CpcDomains::cpc_domain_findings))]
pub(crate) fn find_in_cpc_domains(
    alloc: Global,
    space: &Space<'_>,
    cpus: &[CpuParts],
    found: &mut Vec<Finding>,
) -> Result<(), Memory>
    requires { AreCountable space.now }
    ensures { OnOk result (found.new.items ≡ found.old.items ++ cpc_domain_findings space.now cpus.now) }
{
    let members = members_of(alloc, space, cpus)?;
    find_at_members(alloc, cpus, &members, found)
}
