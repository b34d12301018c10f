ghost use Rattle.std.specs.Prelude.{◌≡◌, ◌<◌, [], None, true, is_some, length};
ghost use Rattle.pw_plan.specs.Parts.{scale_of};
ghost use Rattle.pw_plan.specs.Places.{cpu_at, domain_of};
ghost use Rattle.pw_plan.specs.Requests.{Has, ops_bound};
ghost use Rattle.pw_model.specs.Refusals.{fixed_refusal};
ghost use Rattle.pw_regs.specs.Rooms.{HasRoom};
ghost use Rattle.pw_machine.specs.Standing.{own_vote};
ghost use Rattle.pw_machine.specs.Walk.{begins_at, start};
ghost use Rattle.pw_walker.specs.Places.{IsPlace, walk_of};
ghost use Rattle.pw_walker.specs.inner.Going.{Comes, IsReady, IsVote};

use crate::climbing::{climb_on, climbed};
use crate::place::{Climb, Place};
use acpi_values::IdleKind;
use pw_core::{Ops, chain_of_one, fixed_answer};
use pw_model::Vote;
use pw_plan::{Child, DomainKind, Plan, Request};

/// What a request lets its processor vote.
#[tactic(auto, unfolding(pw_model::specs::States::any_latency))]
fn own_vote(_plan: &Plan, request: &Request) -> Vote
    requires { fixed_refusal _plan.now request.now ≡ None }
    ensures { result ≡ own_vote request.now }
{
    match *request {
        Request::Idle {
            state,
            tolerance,
            ..
        } => Vote {
            state: state as u8,
            tolerance,
        },
        _ => Vote {
            state: 0,
            tolerance: u32::MAX,
        },
    }
}

/// Begins a vote, by the kind of the processor's table: upwards from its container, or at its group,
/// where it has one.
#[inline(always)]
fn begin_vote(plan: &Plan, request: &Request, ops: &mut Ops) -> Place
    requires ready { IsReady plan.now request.now ops.old }
    requires accepted { fixed_refusal plan.now request.now ≡ None }
    requires vote { IsVote request.now }
    ensures walk { walk_of result ops.new.elements ≡ begins_at plan.now request.now }
    ensures comes { Comes plan.now request.now result ops.old ops.new }
{
    let cpu = request.cpu();
    let vote = own_vote(plan, request);
    let chain = chain_of_one(vote.state);
    match plan.cpu(cpu).idle.kind {
        IdleKind::Lpi => {
            let climb = Climb {
                child: Child::Cpu(cpu),
                vote,
                chain,
                rising: true,
            };
            climb_on(plan, request, climb, ops)
        }
        IdleKind::Cst => match plan.group_of(cpu) {
            Some(at) => Place::Grouped {
                group: at.place as u32,
            },
            None => climbed(plan, request, chain, ops),
        },
        IdleKind::Absent => climbed(plan, request, chain, ops),
    }
}

/// The processor's domain of this kind.
fn domain_of(plan: &Plan, kind: DomainKind, cpu: u32) -> u32
    requires cpu { cpu < length plan.now.cpus }
    requires scale { is_some (scale_of kind (cpu_at plan.now cpu)) ≡ true }
    ensures { result ≡ domain_of plan.now kind cpu }
{
    let Some(membership) = plan.domain_of(kind, cpu) else {
        unreachable!()
    };
    membership.place as u32
}

/// Where a request stands before any record is held.
#[inline(always)]
pub fn begin(plan: &Plan, request: &Request, ops: &mut Ops) -> Place
    requires has { Has plan.now request.now }
    requires none { ops.old.elements ≡ [] }
    requires room { HasRoom ops.old (ops_bound plan.now request.now) }
    ensures walk { walk_of result ops.new.elements ≡ start plan.now request.now }
    ensures place { IsPlace plan.now request.now result ops.new.elements }
    ensures capacity { ops.new.capacity ≡ ops.old.capacity }
{
    if let Some(reply) = fixed_answer(plan, request) {
        return Place::Over { reply };
    }
    let perf = DomainKind::Perf;
    let throttle = DomainKind::Throttle;
    match *request {
        Request::Idle { .. } => begin_vote(plan, request, ops),
        Request::Wake { .. } => begin_vote(plan, request, ops),
        Request::Perf { cpu, .. } => Place::Scaled {
            domain: domain_of(plan, perf, cpu),
        },
        Request::Throttle { cpu, .. } => Place::Scaled {
            domain: domain_of(plan, throttle, cpu),
        },
        Request::PerfLimit { cpu, .. } => Place::Scaled {
            domain: domain_of(plan, perf, cpu),
        },
        Request::ThrottleLimit { cpu, .. } => Place::Scaled {
            domain: domain_of(plan, throttle, cpu),
        },
    }
}
