ghost use Rattle.std.specs.Prelude.{◌≡◌, ◌<◌, length, IfSome};
ghost use Rattle.pw_plan.specs.Places.{IsIn};
ghost use Rattle.pw_core.specs.Chains.{IsChain};

use crate::steps::chains::{alone, entered, extended};
use crate::steps::records::{Note, domain_record, group_record, node_record, vote};
use acpi_values::{Chain, IdleKind, Op};
use pw_core::fixed_answer;
use pw_model::Reply;
use pw_plan::{Child, DomainKind, Plan, Request};
use pw_regs::Ops;
use std::alloc::Global;

/// Containers nest so deep at most, and one step more finds that there is none around the outermost.
const CLIMB: u32 = 9;

/// The container around a child.
fn parent_of(plan: &Plan, child: Child) -> Option<u32>
    requires { IsIn plan.now child }
    ensures { IfSome result (λ n. n < length plan.now.containers) }
{
    match child {
        Child::Cpu(cpu) => plan.cpu(cpu).parent,
        Child::Container(node) => plan.container(node).parent,
    }
}

/// What a vote does in a container's record: its state before and after, and the latency that it bears.
#[derive(Clone, Copy)]
struct Voted {
    before: u8,
    after: u8,
    tolerance: u32,
}

/// Votes for a child in the record of this container, which was told these notes.
fn vote_noted(
    alloc: Global,
    plan: &Plan,
    notes: &[Note],
    node: u32,
    child: u32,
    state: u8,
    tolerance: u32,
) -> Option<Voted>
    requires { node < length plan.now.containers }
{
    let mut record = node_record(alloc, plan, notes, node)?;
    let before = record.state();
    let after = vote(plan, node, &mut record, child, state, tolerance)?;
    let tolerance = record.tolerance();
    Some(Voted {
        before,
        after,
        tolerance,
    })
}

/// Tells the records of a processor's containers what it votes, from its parent upwards to the first
/// that runs before and after, and gives the chain of their states above 0.
fn climb(
    alloc: Global,
    plan: &Plan,
    notes: &mut Vec<Note>,
    cpu: u32,
    own: u8,
    bears: u32,
) -> Option<Chain>
    requires { cpu < length plan.now.cpus }
    ensures { IfSome result IsChain }
{
    let mut chain = alone(own);
    let mut child = Child::Cpu(cpu);
    let mut state = own;
    let mut tolerance = bears;
    for _step in 0..CLIMB {
        let Some(node) = parent_of(plan, child) else {
            return Some(chain);
        };
        let place = u32::try_from(plan.place_of(child)?).ok()?;
        let came = vote_noted(alloc, plan, notes.as_slice(), node, place, state, tolerance)?;
        notes
            .push(Note::Child {
                node,
                child: place,
                state,
                tolerance,
            })
            .ok()?;
        if came.after > 0 {
            chain = extended(chain, came.after)?;
        } else if came.before == 0 {
            return Some(chain);
        }
        child = Child::Container(node);
        state = came.after;
        tolerance = came.tolerance;
    }
    None
}

/// The C state that a vote of a member brings it to in the record of its group.
fn joined(
    alloc: Global,
    plan: &Plan,
    notes: &[Note],
    group: u32,
    member: u32,
    state: u8,
    ops: &mut Ops,
) -> Option<u8> {
    if group as usize >= plan.groups.as_slice().len() {
        return None;
    }
    let members = plan.group(group as usize).members.as_slice();
    if member as usize >= members.len() || (ops.spare() as usize) < members.len() {
        return None;
    }
    if state as usize > plan.cpu(members[member as usize]).idle.states().len() {
        return None;
    }
    let mut record = group_record(alloc, plan, notes, group)?;
    Some(record.vote_ops(plan, member, state, ops))
}

/// A processor with C states votes in its group, and where it has none enters what it votes for.
fn group_idle(
    alloc: Global,
    plan: &Plan,
    notes: &mut Vec<Note>,
    cpu: u32,
    state: u8,
    ops: &mut Ops,
) -> Option<Reply>
    requires { cpu < length plan.now.cpus }
{
    let Some(at) = plan.group_of(cpu) else {
        let chain = alone(state);
        return enter(plan, cpu, chain, ops);
    };
    let group = u32::try_from(at.place).ok()?;
    let member = u32::try_from(at.member).ok()?;
    let level = joined(alloc, plan, notes.as_slice(), group, member, state, ops)?;
    notes
        .push(Note::Member {
            group,
            member,
            state,
        })
        .ok()?;
    Some(Reply::Entered {
        chain: alone(level),
    })
}

/// A processor enters a chain of states.
fn enter(plan: &Plan, cpu: u32, chain: Chain, ops: &mut Ops) -> Option<Reply>
    requires cpu { cpu < length plan.now.cpus }
    requires chain { IsChain chain }
{
    let composite = entered(plan, cpu, &chain)?;
    if ops.spare() == 0 {
        return None;
    }
    ops.push(Op::Enter { cpu, composite });
    Some(Reply::Entered { chain })
}

/// A wake of a processor with C states.
fn group_wake(plan: &Plan, notes: &mut Vec<Note>, cpu: u32) -> Option<()> {
    let Some(at) = plan.group_of(cpu) else {
        return Some(());
    };
    notes
        .push(Note::Member {
            group: u32::try_from(at.place).ok()?,
            member: u32::try_from(at.member).ok()?,
            state: 0,
        })
        .ok()
}

/// Where a processor stands in its domain of this kind.
fn member_of(plan: &Plan, kind: DomainKind, cpu: u32) -> Option<(u32, u32)> {
    let at = plan.domain_of(kind, cpu)?;
    Some((
        u32::try_from(at.place).ok()?,
        u32::try_from(at.member).ok()?,
    ))
}

/// The limit of a member in the record of this domain.
fn limit_of(alloc: Global, plan: &Plan, notes: &[Note], domain: u32, member: u32) -> Option<u8> {
    let shared = plan.domains.as_slice().get(domain as usize)?;
    if shared.kind == DomainKind::Idle || member as usize >= shared.members.as_slice().len() {
        return None;
    }
    let record = domain_record(alloc, plan, notes, domain)?;
    Some(record.own_limit(member))
}

/// Where a member stands that asks for a state, or has a limit, in the record of this domain.
fn standing(
    alloc: Global,
    plan: &Plan,
    notes: &[Note],
    domain: u32,
    member: u32,
    index: u8,
    is_limit: bool,
    ops: &mut Ops,
) -> Option<u8> {
    if domain as usize >= plan.domains.as_slice().len() {
        return None;
    }
    let shared = plan.domain(domain as usize);
    let members = shared.members.as_slice();
    if shared.kind == DomainKind::Idle
        || member as usize >= members.len()
        || (ops.spare() as usize) < members.len()
    {
        return None;
    }
    if index as usize >= plan.cpu(members[member as usize]).state_count(shared.kind) {
        return None;
    }
    let mut record = domain_record(alloc, plan, notes, domain)?;
    Some(if is_limit {
        record.limit_ops(plan, member, index, ops)
    } else {
        record.ask_ops(plan, member, index, ops)
    })
}

/// Sets an ask or a limit in the record of a domain, and notes it.
fn settled(
    alloc: Global,
    plan: &Plan,
    notes: &mut Vec<Note>,
    domain: u32,
    member: u32,
    index: u8,
    is_limit: bool,
    ops: &mut Ops,
) -> Option<Reply> {
    let stands = standing(
        alloc,
        plan,
        notes.as_slice(),
        domain,
        member,
        index,
        is_limit,
        ops,
    )?;
    notes
        .push(Note::Scale {
            domain,
            member,
            index,
            is_limit,
        })
        .ok()?;
    Some(Reply::Stands {
        index: u32::from(stands),
    })
}

/// An ask in the record of the processor's domain.
fn ask(
    alloc: Global,
    plan: &Plan,
    notes: &mut Vec<Note>,
    kind: DomainKind,
    cpu: u32,
    number: u32,
    ops: &mut Ops,
) -> Option<Reply> {
    let (domain, member) = member_of(plan, kind, cpu)?;
    let limit = u32::from(limit_of(alloc, plan, notes.as_slice(), domain, member)?);
    if number < limit {
        return Some(Reply::AboveLimit { limit });
    }
    let index = u8::try_from(number).ok()?;
    settled(alloc, plan, notes, domain, member, index, false, ops)
}

/// A limit in the record of the processor's domain.
fn limit(
    alloc: Global,
    plan: &Plan,
    notes: &mut Vec<Note>,
    kind: DomainKind,
    cpu: u32,
    number: u32,
    ops: &mut Ops,
) -> Option<Reply>
    requires { cpu < length plan.now.cpus }
{
    let (domain, member) = member_of(plan, kind, cpu)?;
    let last = plan.cpu(cpu).state_count(kind).checked_sub(1)?;
    let index = u8::try_from((number as usize).min(last)).ok()?;
    settled(alloc, plan, notes, domain, member, index, true, ops)
}

fn idle(
    alloc: Global,
    plan: &Plan,
    notes: &mut Vec<Note>,
    cpu: u32,
    state: u32,
    tolerance: u32,
    ops: &mut Ops,
) -> Option<Reply>
    requires { cpu < length plan.now.cpus }
{
    let own = u8::try_from(state).ok()?;
    if plan.cpu(cpu).idle.kind == IdleKind::Cst {
        return group_idle(alloc, plan, notes, cpu, own, ops);
    }
    let chain = climb(alloc, plan, notes, cpu, own, tolerance)?;
    enter(plan, cpu, chain, ops)
}

fn wake(alloc: Global, plan: &Plan, notes: &mut Vec<Note>, cpu: u32) -> Option<Reply>
    requires { cpu < length plan.now.cpus }
{
    match plan.cpu(cpu).idle.kind {
        IdleKind::Cst => group_wake(plan, notes, cpu)?,
        IdleKind::Lpi => {
            climb(alloc, plan, notes, cpu, 0, u32::MAX)?;
        }
        IdleKind::Absent => {}
    }
    Some(Reply::Running)
}

/// What the records answer to a request, which were told these notes. It appends the operations, and
/// notes what a record is told.
pub(crate) fn walked(
    alloc: Global,
    plan: &Plan,
    notes: &mut Vec<Note>,
    request: Request,
    ops: &mut Ops,
) -> Option<Reply> {
    if !plan.has(&request) {
        return None;
    }
    if let Some(reply) = fixed_answer(plan, &request) {
        return Some(reply);
    }
    let (perf, throttle) = (DomainKind::Perf, DomainKind::Throttle);
    match request {
        Request::Idle {
            cpu,
            state,
            tolerance,
        } => idle(alloc, plan, notes, cpu, state, tolerance, ops),
        Request::Wake { cpu } => wake(alloc, plan, notes, cpu),
        Request::Perf { cpu, index } => ask(alloc, plan, notes, perf, cpu, index, ops),
        Request::Throttle { cpu, index } => ask(alloc, plan, notes, throttle, cpu, index, ops),
        Request::PerfLimit { cpu, n } => limit(alloc, plan, notes, perf, cpu, n, ops),
        Request::ThrottleLimit { cpu, n } => limit(alloc, plan, notes, throttle, cpu, n, ops),
    }
}
