//! The operations of a request whose reply is known: nothing that the reply tells is worked out again.
ghost use Rattle.std.specs.Prelude.{◌≡◌, ◌<◌, ◌+◌, ◌≤◌, ◌++◌, ◌==◌, [], length, map, IfSome, if◌then◌else◌};
ghost use Rattle.std.specs.Prelude.{slice_index_or};
ghost use Rattle.pw_plan.specs.Places.{domain_at};
ghost use Rattle.pw_plan.specs.Requests.{Has, ops_bound, set_count};
ghost use Rattle.pw_model.specs.States.{IsState};
ghost use Rattle.pw_model.specs.Answers.{after, answer};
ghost use Rattle.pw_model.specs.Operations.{ops_of, set_at, set_on};
ghost use Rattle.pw_core.specs.Chains.{AreStatesOf, IsChain, states_in};
ghost use Rattle.pw_regs.specs.Rooms.{HasRoom};
ghost use Rattle.pw_script.specs.inner.Known.{accepts, entered_alone, kind_of};

use acpi_values::{Chain, Coord, Op};
use pw_core::{Ops, State, chain_composite, set_each, set_on, standing_now};
use pw_model::Reply;
use pw_plan::{DomainKind, Plan, Request};

/// Appends what a processor enters by itself in a chain of states, which is nothing where its own is 0.
fn enter_alone(plan: &Plan, cpu: u32, chain: &Chain, ops: &mut Ops)
    requires cpu { cpu < length plan.now.cpus }
    requires chain { 0 < slice_index_or chain.now.states 0 0 → IsChain chain.now }
    requires states { 0 < slice_index_or chain.now.states 0 0
        → AreStatesOf plan.now cpu (states_in chain.now) }
    requires room { HasRoom ops.old 1 }
    ensures { ops.new ≡ record ops.old {
      elements = ops.old.elements ++ entered_alone plan.now cpu chain.now;
    } }
{
    if chain.states[0] > 0 {
        ops.push(Op::Enter {
            cpu,
            composite: chain_composite(plan, cpu, chain),
        });
    }
}

/// Appends the operations of an idle request that came to this chain of states. The members of its
/// processor's group are looked at only where there is one.
fn enter(plan: &Plan, state: &State, request: Request, chain: &Chain, ops: &mut Ops)
    requires request { Has plan.now request }
    requires fits { IsState plan.now state.now }
    requires room { HasRoom ops.old (ops_bound plan.now request) }
    requires told { answer plan.now state.now request ≡ Reply.Entered chain.now }
    ensures { ops.new ≡ record ops.old {
      elements = ops.old.elements ++ ops_of plan.now state.now request;
    } }
{
    match plan.group_of(request.cpu()) {
        Some(_) => state.operations(plan, request, ops),
        None => enter_alone(plan, request.cpu(), chain, ops),
    }
}

/// The kind of the domain that a request for a state or a limit is about.
fn kind_of(request: Request) -> DomainKind
    ensures { result ≡ kind_of request }
{
    match request {
        Request::Throttle { .. } => DomainKind::Throttle,
        Request::ThrottleLimit { .. } => DomainKind::Throttle,
        _ => DomainKind::Perf,
    }
}

/// Sets where a domain stands, if that isn't where it stood before.
fn set_changed(
    plan: &Plan,
    kind: DomainKind,
    place: usize,
    cpu: u32,
    before: u8,
    after: u8,
    ops: &mut Ops,
)
    requires place { place < length plan.now.domains }
    requires cpu { cpu < length plan.now.cpus }
    requires room { HasRoom ops.old (set_count (domain_at plan.now place).coord
        (length (domain_at plan.now place).members)) }
    ensures { ops.new ≡ record ops.old {
      elements = ops.old.elements ++ (if before == after then [] else
          map (set_on plan.now kind after)
          (set_at (domain_at plan.now place).coord (domain_at plan.now place).members cpu));
    } }
{
    if before != after {
        let domain = plan.domain(place);
        match domain.coord {
            Coord::SwAll => set_each(plan, kind, after, domain.members.as_slice(), ops),
            Coord::SwAny => ops.push(set_on(plan, kind, after, cpu)),
            Coord::HwAll => ops.push(set_on(plan, kind, after, cpu)),
        }
    }
}

/// Appends the operations of a request whose domain then stands there.
fn stand(plan: &Plan, state: &State, request: Request, index: u32, ops: &mut Ops)
    requires request { Has plan.now request }
    requires fits { IsState plan.now state.now }
    requires room { HasRoom ops.old (ops_bound plan.now request) }
    requires told { answer plan.now state.now request ≡ Reply.Stands index }
    ensures { ops.new ≡ record ops.old {
      elements = ops.old.elements ++ ops_of plan.now state.now request;
    } }
{
    let cpu = request.cpu();
    let kind = kind_of(request);
    let Some(membership) = plan.domain_of(kind, cpu) else {
        unreachable!()
    };
    let before = standing_now(plan, state.lists(), membership.place, cpu);
    set_changed(plan, kind, membership.place, cpu, before, index as u8, ops);
}

/// Appends the operations of a request that has this reply.
fn operate(plan: &Plan, state: &State, request: Request, reply: Reply, ops: &mut Ops)
    requires request { Has plan.now request }
    requires fits { IsState plan.now state.now }
    requires room { HasRoom ops.old (ops_bound plan.now request) }
    requires told { answer plan.now state.now request ≡ reply }
    ensures { ops.new ≡ record ops.old {
      elements = ops.old.elements ++ ops_of plan.now state.now request;
    } }
{
    match reply {
        Reply::Entered { chain } => enter(plan, state, request, &chain, ops),
        Reply::Stands { index } => stand(plan, state, request, index, ops),
        _ => {}
    }
}

/// Whether this is the reply of a request that is accepted.
fn accepts(reply: Reply) -> bool
    ensures { result ≡ accepts reply }
{
    match reply {
        Reply::Entered { .. } => true,
        Reply::Running => true,
        Reply::Stands { .. } => true,
        _ => false,
    }
}

/// Answers a request, with its reply where that is known, appends its operations and notes what it asks for.
#[tactic(auto, using(crate::proofs::Replied::none_refused, crate::proofs::Replied::refused_stays))]
pub fn step(
    plan: &Plan,
    state: &mut State,
    request: Request,
    known: Option<Reply>,
    ops: &mut Ops,
) -> Reply
    requires request { Has plan.now request }
    requires fits { IsState plan.now state.old }
    requires room { HasRoom ops.old (ops_bound plan.now request) }
    requires known { IfSome known (λ reply. answer plan.now state.old request ≡ reply) }
    ensures reply { result ≡ answer plan.now state.old request }
    ensures list { ops.new ≡ record ops.old {
      elements = ops.old.elements ++ ops_of plan.now state.old request;
    } }
    ensures after { state.new ≡ after plan.now state.old request }
    ensures fits { IsState plan.now state.new }
{
    match known {
        None => state.step(plan, request, ops),
        Some(reply) => {
            operate(plan, state, request, reply, ops);
            if accepts(reply) {
                state.note(plan, request);
            }
            reply
        }
    }
}
