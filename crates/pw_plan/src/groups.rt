ghost use Rattle.std.specs.Prelude.{◌≡◌, ◌<◌, ◌≤◌, length, slice_index_or, All, IfOk};
ghost use Rattle.std.specs.List.{range_with_len};
ghost use Rattle.pw_plan.specs.Groups.{group_with, groups_by, groups_of};
ghost use Rattle.pw_plan.specs.Groups.{has_member, is_idle, is_link};
ghost use Rattle.pw_plan.specs.Groups.{is_linked, is_software};
ghost use Rattle.pw_plan.specs.Groups.{join_members, labels_of};
ghost use Rattle.pw_plan.specs.Groups.{leads_group, relabel, rename};

use crate::domain::{Domain, DomainKind, Group};
use acpi_values::Coord;
use pw_base::{List, Memory};
use std::alloc::Global;

/// Whether software coordinates.
pub fn is_software(coord: Coord) -> bool
    ensures { result ≡ is_software coord }
{
    match coord {
        Coord::SwAll => true,
        Coord::SwAny => true,
        Coord::HwAll => false,
    }
}

/// Whether it is a domain of idle states.
pub fn is_idle(kind: DomainKind) -> bool
    ensures { result ≡ is_idle kind }
{
    match kind {
        DomainKind::Perf => false,
        DomainKind::Throttle => false,
        DomainKind::Idle => true,
    }
}

/// Whether a processor is among these.
pub fn has_member(members: &[u32], cpu: u32) -> bool
    ensures { result ≡ has_member members.now cpu }
{
    members.contains(&cpu)
}

/// Whether it is an idle domain that software coordinates.
fn is_link(domain: &Domain) -> bool
    ensures { result ≡ is_link domain.now }
{
    is_idle(domain.kind) && is_software(domain.coord)
}

/// Whether the processor is in an idle domain that software coordinates.
fn is_linked(domains: &[Domain], cpu: u32) -> bool
    ensures { result ≡ is_linked domains.now cpu }
{
    for domain in domains {
        if is_link(domain) && has_member(domain.members.as_slice(), cpu) {
            return true;
        }
    }
    false
}

/// A label, or another in place of one.
fn renamed(label: u32, old: u32, new: u32) -> u32
    ensures { result ≡ rename old new label }
{
    if label == old { new } else { label }
}

/// Writes one label in place of another.
fn relabel(labels: &mut [u32], old: u32, new: u32)
    ensures { labels.new ≡ relabel old new labels.old }
{
    for label in labels.iter_mut() {
        *label = renamed(*label, old, new);
    }
}

/// Gives all members one label, and with them all that had theirs.
fn join_members(labels: &mut [u32], members: &[u32])
    requires { All (λ p. p < length labels.old) members.now }
    ensures { labels.new ≡ join_members members.now labels.old }
{
    if let Some(first) = members.first() {
        for member in &members[1..] {
            let old = labels[*member as usize];
            let new = labels[*first as usize];
            relabel(labels, old, new);
        }
    }
}

/// The labels of so many processors: joined ones have the same.
#[tactic(auto, using(crate::proofs::Ranges::range_next, crate::proofs::Ranges::range_length))]
fn labels_of(alloc: Global, domains: &[Domain], count: u32) -> Result<Vec<u32>, Memory>
    requires { All (λ d. All (λ p. p < count) d.members) domains.now }
    ensures list { IfOk result (λ labels. labels.items ≡ labels_of domains.now count) }
    ensures size { IfOk result (λ labels. length labels.items ≡ count) }
{
    let mut labels = Vec::new(alloc);
    for cpu in 0..count {
        labels.push(cpu)?;
    }
    for domain in domains {
        if is_link(domain) {
            join_members(labels.as_mut_slice(), domain.members.as_slice());
        }
    }
    Ok(labels)
}

/// Whether a processor is the first with its label, and in an idle domain that software coordinates.
fn leads_group(domains: &[Domain], labels: &[u32], cpu: u32) -> bool
    requires { cpu < length labels.now }
    ensures { result ≡ leads_group domains.now labels.now cpu }
{
    is_linked(domains, cpu) && !has_member(&labels[..cpu as usize], labels[cpu as usize])
}

/// The group of the processors with the label of this one.
fn group_with(alloc: Global, labels: &[u32], cpu: u32) -> Result<Group, Memory>
    requires cpu { cpu < length labels.now }
    requires few { length labels.now ≤ 256 }
    ensures { IfOk result (λ group. group ≡ group_with labels.now cpu) }
{
    let own = labels[cpu as usize];
    let mut members = Vec::new(alloc);
    for (number, label) in labels.iter().enumerate() {
        if *label == own {
            members.push(number as u32)?;
        }
    }
    Ok(Group {
        members: List::from_vec(members),
    })
}

/// The groups by these labels.
#[tactic(auto, using(crate::proofs::Ranges::range_next))]
fn groups_with(alloc: Global, domains: &[Domain], labels: &[u32]) -> Result<List<Group>, Memory>
    requires { length labels.now ≤ 256 }
    ensures { IfOk result (λ groups. groups ≡ groups_by domains.now labels.now (length labels.now)) }
{
    let mut groups = Vec::new(alloc);
    for cpu in 0..labels.len() {
        if leads_group(domains, labels, cpu as u32) {
            groups.push(group_with(alloc, labels, cpu as u32)?)?;
        }
    }
    Ok(List::from_vec(groups))
}

/// The groups of so many processors.
pub fn groups_of(alloc: Global, domains: &[Domain], count: u32) -> Result<List<Group>, Memory>
    requires few { count ≤ 256 }
    requires members { All (λ d. All (λ p. p < count) d.members) domains.now }
    ensures { IfOk result (λ groups. groups ≡ groups_of domains.now count) }
{
    let labels = labels_of(alloc, domains, count)?;
    groups_with(alloc, domains, labels.as_slice())
}
