ghost use Rattle.std.specs.Prelude.{◌≡◌, ◌<◌, false, length, IfSome};
ghost use Rattle.pw_plan.specs.Groups.{is_idle};
ghost use Rattle.pw_plan.specs.Places.{children_at, domain_at};
ghost use Rattle.pw_model.specs.Holding.{table_at};
ghost use Rattle.pw_domain.specs.Domains.{IsDomainOf};
ghost use Rattle.pw_domain.specs.Groups.{IsGroupOf};
ghost use Rattle.pw_idle.specs.Nodes.{IsNodeOf};

use pw_domain::{DomainRec, GroupRec};
use pw_idle::NodeRec;
use pw_plan::{Child, Plan};
use std::alloc::Global;

/// What a record was told: a child's vote, a member's ask or limit, or a member's vote.
#[derive(Clone, Copy)]
pub(crate) enum Note {
    Child {
        node: u32,
        child: u32,
        state: u8,
        tolerance: u32,
    },
    Scale {
        domain: u32,
        member: u32,
        index: u8,
        is_limit: bool,
    },
    Member {
        group: u32,
        member: u32,
        state: u8,
    },
}

/// How many states the child at this place has.
fn states_of(plan: &Plan, node: u32, child: u32) -> usize
    requires node { node < length plan.now.containers }
    requires child { child < length (children_at plan.now node) }
    ensures { result ≡ table_at plan.now node child }
{
    match plan.children_of(node)[child as usize] {
        Child::Cpu(cpu) => plan.cpu(cpu).idle.states().len(),
        Child::Container(below) => plan.container(below).idle.states().len(),
    }
}

/// Votes for a child in the record of this container, where it has this state.
#[tactic(auto, unfolding(pw_model::specs::States::any_latency))]
pub(crate) fn vote(
    plan: &Plan,
    node: u32,
    held: &mut NodeRec,
    child: u32,
    state: u8,
    tolerance: u32,
) -> Option<u8>
    requires of { IsNodeOf plan.now held.old }
    requires node { held.old.node ≡ node }
    requires exists { node < length plan.now.containers }
    ensures of { IsNodeOf plan.now held.new }
    ensures node { held.new.node ≡ node }
{
    if child as usize >= plan.children_of(node).len() {
        return None;
    }
    if state as usize > states_of(plan, node, child) {
        return None;
    }
    // Who runs bears any latency.
    let tolerance = if state == 0 { u32::MAX } else { tolerance };
    Some(held.vote(plan, child, state, tolerance))
}

/// The record of this container, which was told these notes.
pub(crate) fn node_record(alloc: Global, plan: &Plan, notes: &[Note], node: u32) -> Option<NodeRec>
    requires { node < length plan.now.containers }
    ensures of { IfSome result (λ r. IsNodeOf plan.now r) }
    ensures node { IfSome result (λ r. r.node ≡ node) }
{
    let mut held = NodeRec::open(alloc, plan, node).ok()?;
    for note in notes {
        if let Note::Child {
            node: of,
            child,
            state,
            tolerance,
        } = *note
        {
            if of == node {
                vote(plan, node, &mut held, child, state, tolerance)?;
            }
        }
    }
    Some(held)
}

/// Sets an ask or a limit in the record of this domain, where it is one of the member's states.
fn ask(
    plan: &Plan,
    domain: u32,
    held: &mut DomainRec,
    member: u32,
    index: u8,
    is_limit: bool,
) -> Option<u8>
    requires of { IsDomainOf plan.now held.old }
    requires domain { held.old.domain ≡ domain }
    requires exists { domain < length plan.now.domains }
    ensures of { IsDomainOf plan.now held.new }
    ensures domain { held.new.domain ≡ domain }
{
    let shared = plan.domain(domain as usize);
    let members = shared.members.as_slice();
    if member as usize >= members.len() {
        return None;
    }
    if index as usize >= plan.cpu(members[member as usize]).state_count(shared.kind) {
        return None;
    }
    Some(if is_limit {
        held.limit(plan, member, index)
    } else {
        held.ask(plan, member, index)
    })
}

/// The record of this domain, which was told these notes.
pub(crate) fn domain_record(
    alloc: Global,
    plan: &Plan,
    notes: &[Note],
    domain: u32,
) -> Option<DomainRec>
    requires exists { domain < length plan.now.domains }
    requires scaled { is_idle (domain_at plan.now domain).kind ≡ false }
    ensures of { IfSome result (λ r. IsDomainOf plan.now r) }
    ensures domain { IfSome result (λ r. r.domain ≡ domain) }
{
    let mut held = DomainRec::open(alloc, plan, domain).ok()?;
    for note in notes {
        if let Note::Scale {
            domain: of,
            member,
            index,
            is_limit,
        } = *note
        {
            if of == domain {
                ask(plan, domain, &mut held, member, index, is_limit)?;
            }
        }
    }
    Some(held)
}

/// Votes for a member in the record of this group, where it has this C state.
fn join(plan: &Plan, group: u32, held: &mut GroupRec, member: u32, state: u8) -> Option<u8>
    requires of { IsGroupOf plan.now held.old }
    requires group { held.old.group ≡ group }
    requires exists { group < length plan.now.groups }
    ensures of { IsGroupOf plan.now held.new }
    ensures group { held.new.group ≡ group }
{
    let members = plan.group(group as usize).members.as_slice();
    if member as usize >= members.len() {
        return None;
    }
    if state as usize > plan.cpu(members[member as usize]).idle.states().len() {
        return None;
    }
    Some(held.vote(plan, member, state))
}

/// The record of this group, which was told these notes.
pub(crate) fn group_record(
    alloc: Global,
    plan: &Plan,
    notes: &[Note],
    group: u32,
) -> Option<GroupRec>
    requires { group < length plan.now.groups }
    ensures of { IfSome result (λ r. IsGroupOf plan.now r) }
    ensures group { IfSome result (λ r. r.group ≡ group) }
{
    let mut held = GroupRec::open(alloc, plan, group).ok()?;
    for note in notes {
        if let Note::Member {
            group: of,
            member,
            state,
        } = *note
        {
            if of == group {
                join(plan, group, &mut held, member, state)?;
            }
        }
    }
    Some(held)
}
