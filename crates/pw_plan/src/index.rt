//! Where the processors and containers of a plan stand, so that a look-up takes the same time on
//! every machine.
ghost use Rattle.std.specs.Prelude.{◌≡◌, ◌<◌, ◌≤◌, ℕ, find, length, true, All, IfOk};
ghost use Rattle.pw_plan.specs.Index.{child_place, container_places, cpu_indices};
ghost use Rattle.pw_plan.specs.Index.{first_membership, group_membership, idle_memberships};
ghost use Rattle.pw_plan.specs.Index.{index_under, member_place, membership_in};
ghost use Rattle.pw_plan.specs.inner.Memberships.{shows_unfit};
ghost use Rattle.pw_plan.specs.Orderly.{is_same};
ghost use Rattle.pw_plan.specs.Parts.{container_in, cpu_in, is_below};
ghost use Rattle.pw_plan.specs.Covering.{covers};

use crate::bounds::covers;
use crate::domain::{Child, Domain, DomainKind, Group};
use crate::groups::has_member;
use crate::parts::{ContainerParts, CpuParts};
use crate::tree::{container_in, cpu_in};
use pw_base::{List, Memory};
use std::alloc::Global;

/// Where a processor stands in a domain or a group.
#[derive(Clone, Copy)]
pub struct Membership {
    /// The place of the domain or the group in the plan's list.
    pub place: usize,
    /// The processor's place among the members.
    pub member: usize,
}

/// Where a processor stands.
#[derive(Drop)]
pub struct CpuIndex {
    /// Its place among the children of its container.
    pub child: Option<usize>,
    pub perf: Option<Membership>,
    pub throttle: Option<Membership>,
    /// In its idle domains, in their order.
    pub idle: List<Membership>,
    /// In the first of them that is unfit.
    pub unfit: Option<Membership>,
    pub group: Option<Membership>,
}

/// The place of a processor among these members, or how many they are.
fn member_place(members: &[u32], cpu: u32) -> usize
    ensures { result ≡ member_place members.now cpu }
{
    for (place, member) in members.iter().enumerate() {
        if *member == cpu {
            return place;
        }
    }
    members.len()
}

/// Where a processor stands in the domain at this place.
fn membership_in(domains: &[Domain], cpu: u32, place: usize) -> Membership
    requires { place < length domains.now }
    ensures { result ≡ membership_in domains.now cpu place }
{
    Membership {
        place,
        member: member_place(domains[place].members.as_slice(), cpu),
    }
}

/// Where a processor stands in its domain of performance or throttling.
fn first_membership(kind: DomainKind, domains: &[Domain], cpu: u32) -> Option<Membership>
    ensures { result ≡ first_membership (covers kind cpu) domains.now cpu }
{
    for (place, domain) in domains.iter().enumerate() {
        if covers(kind, cpu, domain) {
            return Some(membership_in(domains, cpu, place));
        }
    }
    None
}

/// Where a processor stands in its idle domains, in their order.
fn idle_memberships(alloc: Global, domains: &[Domain], cpu: u32) -> Result<List<Membership>, Memory>
    ensures { IfOk result (λ memberships. memberships ≡ idle_memberships domains.now cpu) }
{
    let mut memberships = Vec::new(alloc);
    for (place, domain) in domains.iter().enumerate() {
        if covers(DomainKind::Idle, cpu, domain) {
            memberships.push(membership_in(domains, cpu, place))?;
        }
    }
    Ok(List::from_vec(memberships))
}

/// Whether the domain of a membership is unfit.
fn shows_unfit(domains: &[Domain], membership: Membership) -> bool
    requires { membership.place < length domains.now }
    ensures { result ≡ shows_unfit domains.now membership }
{
    domains[membership.place].unfit != 0
}

/// The first of these memberships whose domain is unfit.
fn unfit_membership(domains: &[Domain], memberships: &[Membership]) -> Option<Membership>
    requires { All (λ membership. membership.place < length domains.now) memberships.now }
    ensures { result ≡ find (shows_unfit domains.now) memberships.now }
{
    for membership in memberships {
        if shows_unfit(domains, *membership) {
            return Some(*membership);
        }
    }
    None
}

/// Where a processor stands in the group that has it.
fn group_membership(groups: &[Group], cpu: u32) -> Option<Membership>
    ensures { result ≡ group_membership groups.now cpu }
{
    for (place, group) in groups.iter().enumerate() {
        let members = group.members.as_slice();
        if has_member(members, cpu) {
            return Some(Membership {
                place,
                member: member_place(members, cpu),
            });
        }
    }
    None
}

/// Whether two children are the same.
fn is_same(one: Child, other: Child) -> bool
    ensures { result ≡ is_same one other }
{
    match one {
        Child::Cpu(cpu) => matches!(other, Child::Cpu(found) if found == cpu),
        Child::Container(node) => matches!(other, Child::Container(found) if found == node),
    }
}

/// The place of a child among the children of its container.
fn child_place(children: &[List<Child>], parent: Option<u32>, child: Child) -> Option<usize>
    requires { is_below (length children.now) parent ≡ true }
    ensures { result ≡ child_place children.now parent child }
{
    let siblings = children[parent? as usize].as_slice();
    for (place, sibling) in siblings.iter().enumerate() {
        if is_same(child, *sibling) {
            return Some(place);
        }
    }
    None
}

/// Where a processor stands.
#[tactic(auto, using(crate::proofs::Indexing::first_unfit, crate::proofs::Indexing::idle_within))]
fn cpu_index(
    alloc: Global,
    children: &[List<Child>],
    parent: Option<u32>,
    domains: &[Domain],
    groups: &[Group],
    cpu: u32,
) -> Result<CpuIndex, Memory>
    requires { is_below (length children.now) parent ≡ true }
    ensures { IfOk result (λ index. index ≡ index_under children.now parent domains.now groups.now cpu) }
{
    let idle = idle_memberships(alloc, domains, cpu)?;
    let unfit = unfit_membership(domains, idle.as_slice());
    Ok(CpuIndex {
        child: child_place(children, parent, Child::Cpu(cpu)),
        perf: first_membership(DomainKind::Perf, domains, cpu),
        throttle: first_membership(DomainKind::Throttle, domains, cpu),
        idle,
        unfit,
        group: group_membership(groups, cpu),
    })
}

/// Where each processor stands.
#[tactic(auto, using(crate::proofs::Ranges::range_next))]
pub fn cpu_indices(
    alloc: Global,
    children: &[List<Child>],
    cpus: &[CpuParts],
    domains: &[Domain],
    groups: &[Group],
) -> Result<List<CpuIndex>, Memory>
    requires few { length cpus.now ≤ 256 }
    requires parents { (p : ℕ) → p < length cpus.now
        → is_below (length children.now) (cpu_in cpus.now p).parent ≡ true }
    ensures { IfOk result (λ indices. indices ≡ cpu_indices children.now cpus.now domains.now groups.now) }
{
    let mut indices = Vec::new(alloc);
    for number in 0..cpus.len() {
        let cpu = number as u32;
        let parent = cpu_in(cpus, cpu).parent;
        indices.push(cpu_index(alloc, children, parent, domains, groups, cpu)?)?;
    }
    Ok(List::from_vec(indices))
}

/// The place of each container among the children of the one around it.
#[tactic(auto, using(crate::proofs::Ranges::range_next))]
pub fn container_places(
    alloc: Global,
    children: &[List<Child>],
    containers: &[ContainerParts],
) -> Result<List<Option<usize>>, Memory>
    requires few { length containers.now ≤ 256 }
    requires parents { (n : ℕ) → n < length containers.now
        → is_below (length children.now) (container_in containers.now n).parent ≡ true }
    ensures { IfOk result (λ places. places ≡ container_places children.now containers.now) }
{
    let mut places = Vec::new(alloc);
    for number in 0..containers.len() {
        let node = number as u32;
        let parent = container_in(containers, node).parent;
        places.push(child_place(children, parent, Child::Container(node)))?;
    }
    Ok(List::from_vec(places))
}
