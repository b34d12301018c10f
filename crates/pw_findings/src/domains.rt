ghost use Rattle.std.specs.Prelude.{◌≡◌, ◌++◌, find, IfOk, OnOk};
ghost use Rattle.std.specs.Option.{option_map};
ghost use Rattle.std.specs.List.{flat_map};
ghost use Rattle.pw_plan.specs.Domains.{as_dependency, declared_of, dependency_in, entry_of};
ghost use Rattle.pw_plan.specs.Domains.{same_coord};
ghost use Rattle.pw_plan.specs.Parts.{is_entry, scale_of};
ghost use Rattle.pw_findings.specs.Domains.{domain_findings, has_other_length, has_other_number};
ghost use Rattle.pw_findings.specs.Domains.{has_other_type};
ghost use Rattle.pw_findings.specs.Domains.{id_of, lacks_register, lead, length_in, member_where};
ghost use Rattle.pw_findings.specs.Domains.{no_register};
ghost use Rattle.pw_findings.specs.Domains.{other_length, other_number, other_size, other_type, path_at};
ghost use Rattle.pw_findings.specs.Domains.{reason};
ghost use Rattle.pw_findings.specs.Domains.{shown_in, unfit_findings};

use crate::adding::add_at;
use crate::differing::{Differing, member_where};
use crate::finding::{DomainId, Finding, FindingKind, OfDomain, OfMember, Shared};
use crate::members::find_in_members;
use acpi_values::{CDependency, Coord, Dependency};
use aml_data::{FullPath, copy_full_path};
use pw_base::{List, Memory};
use pw_plan::{CpuParts, Domain, DomainKind};
use std::alloc::Global;

/// The domain, as its members name it.
pub(crate) fn id_of(domain: &Domain) -> DomainId
    ensures { result ≡ id_of domain.now }
{
    DomainId {
        of: Shared::States(domain.kind),
        number: domain.number,
        index: domain.index,
    }
}

/// The first member.
pub(crate) fn lead(domain: &Domain) -> u32
    ensures { result ≡ lead domain.now }
{
    match domain.members.as_slice().first() {
        None => 0,
        Some(member) => *member,
    }
}

/// The path of a processor.
#[tactic(auto, unfolding(pw_plan::specs::Parts::no_cpu))]
pub fn path_at(alloc: Global, cpus: &[CpuParts], cpu: u32) -> Result<FullPath, Memory>
    ensures { IfOk result (λ path. path ≡ path_at cpus.now cpu) }
{
    match cpus.get(cpu as usize) {
        None => Ok(FullPath {
            segs: List::from_vec(Vec::new(alloc)),
        }),
        Some(parts) => copy_full_path(alloc, &parts.path),
    }
}

/// Whether two coordination types are the same.
pub fn same_coord(one: Coord, other: Coord) -> bool
    ensures { result ≡ same_coord one other }
{
    match (one, other) {
        (Coord::SwAll, Coord::SwAll) => true,
        (Coord::SwAny, Coord::SwAny) => true,
        (Coord::HwAll, Coord::HwAll) => true,
        _ => false,
    }
}

/// What a processor with a scale declares of its domain.
fn dependency_of(kind: DomainKind, cpu: &CpuParts) -> Option<Dependency>
    ensures { result ≡ dependency_in (scale_of kind cpu.now) }
{
    match cpu.scale(kind) {
        None => None,
        Some(scale) => scale.dependency,
    }
}

/// What is declared, where it is of the domain of this number.
fn declared_of(number: u32, declared: Option<Dependency>) -> Option<Dependency>
    ensures { result ≡ declared_of number declared }
{
    match declared {
        None => None,
        Some(found) => if found.domain == number {
            Some(found)
        } else {
            None
        },
    }
}

/// Whether an entry of `_CSD` is about this domain and C state.
fn is_entry(number: u32, index: u32, entry: &CDependency) -> bool
    ensures { result ≡ is_entry number index entry.now }
{
    entry.domain == number && entry.index == index
}

/// What `_CSD` declares of a domain, where it has an entry about it.
fn entry_in(number: u32, index: u32, entries: &[CDependency]) -> Option<Dependency>
    ensures { result ≡ option_map as_dependency (find (is_entry number index) entries.now) }
{
    let entry = entries.iter().find(|entry| is_entry(number, index, entry))?;
    Some(Dependency {
        domain: entry.domain,
        coord: entry.coord,
        processors: entry.processors,
    })
}

/// What a processor declares of the domain of this number, where it declares that it is in it.
fn entry_of(domain: &Domain, number: u32, cpu: &CpuParts) -> Option<Dependency>
    ensures { result
        ≡ entry_of domain.now.kind (record { number = number; index = domain.now.index }) cpu.now }
{
    match domain.kind {
        DomainKind::Perf => declared_of(number, dependency_of(DomainKind::Perf, cpu)),
        DomainKind::Throttle => declared_of(number, dependency_of(DomainKind::Throttle, cpu)),
        DomainKind::Idle => entry_in(number, domain.index, cpu.csd.as_slice()),
    }
}

/// What a processor shows as a member of the domain.
#[tactic(auto, unfolding(pw_plan::specs::Parts::no_cpu, pw_plan::specs::Domains::alone))]
fn shown_in(cpus: &[CpuParts], domain: &Domain, cpu: u32) -> Dependency
    ensures { result ≡ shown_in cpus.now domain.now cpu }
{
    let alone = Dependency {
        domain: 0,
        coord: Coord::SwAll,
        processors: 1,
    };
    let Some(number) = domain.number else {
        return alone;
    };
    match cpus.get(cpu as usize) {
        None => alone,
        Some(parts) => entry_of(domain, number, parts).unwrap_or(alone),
    }
}

/// How many states of the domain's kind a processor has.
#[tactic(auto, unfolding(pw_plan::specs::Parts::no_cpu))]
fn length_in(cpus: &[CpuParts], domain: &Domain, cpu: u32) -> usize
    ensures { result ≡ length_in cpus.now domain.now cpu }
{
    match cpus.get(cpu as usize) {
        None => 0,
        Some(parts) => parts.state_count(domain.kind),
    }
}

/// Whether a member declares another coordination type than the first.
pub(crate) fn has_other_type(cpus: &[CpuParts], domain: &Domain, cpu: u32) -> bool
    ensures { result ≡ has_other_type cpus.now domain.now cpu }
{
    let first = shown_in(cpus, domain, lead(domain));
    !same_coord(shown_in(cpus, domain, cpu).coord, first.coord)
}

/// Whether it declares another number of processors than the first.
pub(crate) fn has_other_number(cpus: &[CpuParts], domain: &Domain, cpu: u32) -> bool
    ensures { result ≡ has_other_number cpus.now domain.now cpu }
{
    let first = shown_in(cpus, domain, lead(domain));
    shown_in(cpus, domain, cpu).processors != first.processors
}

/// Whether it has another number of states than the first.
pub(crate) fn has_other_length(cpus: &[CpuParts], domain: &Domain, cpu: u32) -> bool
    ensures { result ≡ has_other_length cpus.now domain.now cpu }
{
    length_in(cpus, domain, cpu) != length_in(cpus, domain, lead(domain))
}

/// Whether it has states of the domain's kind and no control register.
#[tactic(auto, unfolding(pw_plan::specs::Parts::no_cpu))]
pub(crate) fn lacks_register(cpus: &[CpuParts], domain: &Domain, cpu: u32) -> bool
    ensures { result ≡ lacks_register cpus.now domain.now cpu }
{
    match cpus.get(cpu as usize) {
        None => false,
        Some(parts) => match parts.scale(domain.kind) {
            None => false,
            Some(scale) => scale.register.is_none(),
        },
    }
}

/// That a member declares another coordination type than the first.
fn other_type(alloc: Global, cpus: &[CpuParts], domain: &Domain) -> Result<FindingKind, Memory>
    ensures { IfOk result (λ amiss. amiss ≡ other_type cpus.now domain.now
        (member_where (has_other_type cpus.now domain.now) domain.now)) }
{
    let other = member_where(Differing::Type, cpus, domain);
    let of = OfDomain::OtherType {
        coord: shown_in(cpus, domain, lead(domain)).coord,
        other: path_at(alloc, cpus, other)?,
        there: shown_in(cpus, domain, other).coord,
    };
    Ok(FindingKind::Domain {
        domain: id_of(domain),
        of,
    })
}

/// That a member declares another number of processors than the first.
fn other_number(alloc: Global, cpus: &[CpuParts], domain: &Domain) -> Result<FindingKind, Memory>
    ensures { IfOk result (λ amiss. amiss ≡ other_number cpus.now domain.now
        (member_where (has_other_number cpus.now domain.now) domain.now)) }
{
    let other = member_where(Differing::Number, cpus, domain);
    let of = OfDomain::OtherNumber {
        processors: shown_in(cpus, domain, lead(domain)).processors,
        other: path_at(alloc, cpus, other)?,
        there: shown_in(cpus, domain, other).processors,
    };
    Ok(FindingKind::Domain {
        domain: id_of(domain),
        of,
    })
}

/// That the number of processors that they declare isn't how many members there are.
fn other_size(cpus: &[CpuParts], domain: &Domain) -> FindingKind
    ensures { result ≡ other_size cpus.now domain.now }
{
    let of = OfDomain::OtherSize {
        processors: shown_in(cpus, domain, lead(domain)).processors,
        members: domain.members.as_slice().len(),
    };
    FindingKind::Domain {
        domain: id_of(domain),
        of,
    }
}

/// That a member has another number of states than the first.
fn other_length(alloc: Global, cpus: &[CpuParts], domain: &Domain) -> Result<FindingKind, Memory>
    ensures { IfOk result (λ amiss. amiss ≡ other_length cpus.now domain.now
        (member_where (has_other_length cpus.now domain.now) domain.now)) }
{
    let other = member_where(Differing::Length, cpus, domain);
    let of = OfMember::OtherLength {
        count: length_in(cpus, domain, lead(domain)),
        other: path_at(alloc, cpus, other)?,
        there: length_in(cpus, domain, other),
    };
    Ok(FindingKind::Member {
        domain: id_of(domain),
        of,
    })
}

/// That a member has no control register.
fn no_register(alloc: Global, cpus: &[CpuParts], domain: &Domain) -> Result<FindingKind, Memory>
    ensures { IfOk result (λ amiss. amiss ≡ no_register cpus.now domain.now
        (member_where (lacks_register cpus.now domain.now) domain.now)) }
{
    let other = member_where(Differing::NoRegister, cpus, domain);
    let of = OfMember::NoRegister {
        other: path_at(alloc, cpus, other)?,
    };
    Ok(FindingKind::Member {
        domain: id_of(domain),
        of,
    })
}

/// Why its members don't agree.
fn reason(alloc: Global, cpus: &[CpuParts], domain: &Domain) -> Result<FindingKind, Memory>
    ensures { IfOk result (λ amiss. amiss ≡ reason cpus.now domain.now) }
{
    match domain.unfit {
        1 => other_type(alloc, cpus, domain),
        2 => other_number(alloc, cpus, domain),
        3 => Ok(other_size(cpus, domain)),
        4 => other_length(alloc, cpus, domain),
        _ => no_register(alloc, cpus, domain),
    }
}

/// Adds why the members of a domain don't agree.
#[tactic(auto, unfolding(crate::specs::Domains::unfit_findings))]
fn find_unfit(
    alloc: Global,
    cpus: &[CpuParts],
    domain: &Domain,
    found: &mut Vec<Finding>,
) -> Result<(), Memory>
    ensures { OnOk result (found.new.items ≡ found.old.items ++ unfit_findings cpus.now domain.now) }
{
    if domain.unfit == 0 {
        return Ok(());
    }
    let path = path_at(alloc, cpus, lead(domain))?;
    let kind = reason(alloc, cpus, domain)?;
    add_at(path, kind, found)
}

/// Adds what is found of a domain.
fn find_in_domain(
    alloc: Global,
    cpus: &[CpuParts],
    domain: &Domain,
    found: &mut Vec<Finding>,
) -> Result<(), Memory>
    ensures { OnOk result (found.new.items ≡ found.old.items ++ domain_findings cpus.now domain.now) }
{
    find_unfit(alloc, cpus, domain, found)?;
    find_in_members(alloc, cpus, domain, found)
}

/// Adds what is found of domains.
pub fn find_in_domains(
    alloc: Global,
    cpus: &[CpuParts],
    domains: &[Domain],
    found: &mut Vec<Finding>,
) -> Result<(), Memory>
    ensures { OnOk result (found.new.items ≡ found.old.items
        ++ flat_map (domain_findings cpus.now) domains.now) }
{
    for domain in domains {
        find_in_domain(alloc, cpus, domain, found)?;
    }
    Ok(())
}
