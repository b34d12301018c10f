ghost use Rattle.std.specs.Prelude.{◌≡◌, ◌≢◌, ◌<◌, ◌++◌, ◌==◌, ◌&&◌, not, length, map, All, None};
ghost use Rattle.pw_plan.specs.Places.{cpu_at};
ghost use Rattle.pw_plan.specs.Requests.{Has, group_bound, ops_bound};
ghost use Rattle.pw_model.specs.States.{IsState, vote_of, with_change};
ghost use Rattle.pw_model.specs.Refusals.{fixed_refusal};
ghost use Rattle.pw_model.specs.Answers.{accepted, chain_of, change_of};
ghost use Rattle.pw_model.specs.Answers.{states_of};
ghost use Rattle.pw_model.specs.Composites.{composite_of};
ghost use Rattle.pw_model.specs.Operations.{accepted_ops, enter, idle_ops};
ghost use Rattle.pw_model.specs.Operations.{is_drawn};
ghost use Rattle.pw_core.specs.Chains.{AreStatesOf, IsChain, states_in};
ghost use Rattle.pw_core.specs.inner.Drawn.{ChangesVote, drawn_among};
ghost use Rattle.pw_regs.specs.Rooms.{HasRoom};

use crate::c_states::{brings_one, is_drawn};
use crate::chain::chain_under;
use crate::composite::chain_composite;
use crate::setting::{set_domain, stands_after};
use acpi_values::{Chain, IdleKind, Op};
use pw_model::{Change, Reply, State};
use pw_plan::{DomainKind, Plan, Request};
use pw_regs::Ops;

/// What an accepted request is answered, from the state that it leaves.
#[tactic(auto, unfolding(pw_model::specs::Answers::accepted))]
pub fn accepted_reply(plan: &Plan, state: &State, change: Change, request: Request) -> Reply
    requires request { Has plan.now request }
    requires accepted { fixed_refusal plan.now request ≡ None }
    requires old { IsState plan.now state.now }
    requires fits { IsState plan.now (with_change state.now change) }
    ensures { result ≡ accepted plan.now (with_change state.now change) request }
{
    let perf = DomainKind::Perf;
    let throttle = DomainKind::Throttle;
    match request {
        Request::Idle { cpu, .. } => Reply::Entered {
            chain: chain_under(plan, state, change, cpu),
        },
        Request::Wake { .. } => Reply::Running,
        Request::Perf { cpu, .. } => stands_after(plan, state, change, perf, cpu),
        Request::Throttle { cpu, .. } => stands_after(plan, state, change, throttle, cpu),
        Request::PerfLimit { cpu, .. } => stands_after(plan, state, change, perf, cpu),
        Request::ThrottleLimit { cpu, .. } => stands_after(plan, state, change, throttle, cpu),
    }
}

/// The processor enters this chain of states.
fn enter(plan: &Plan, cpu: u32, chain: &Chain) -> Op
    requires cpu { cpu < length plan.now.cpus }
    requires chain { IsChain chain.now }
    requires states { AreStatesOf plan.now cpu (states_in chain.now) }
    ensures { result ≡ Op.Enter cpu (composite_of plan.now cpu (states_in chain.now)) }
{
    Op::Enter {
        cpu,
        composite: chain_composite(plan, cpu, chain),
    }
}

/// Whether a processor is another than the requester, and drawn along.
fn joins(plan: &Plan, state: &State, change: Change, cpu: u32, other: u32) -> bool
    requires other { other < length plan.now.cpus }
    requires fits { IsState plan.now state.now }
    ensures { result ≡ (not (other == cpu)
        && is_drawn plan.now state.now (with_change state.now change) other) }
{
    other != cpu && is_drawn(plan, state, change, other)
}

/// Those among these members, but for the requester, whose C state the change raises to one that a
/// SW_ALL domain is about, enter it too. Nobody is looked at where the change brings no domain to be
/// gathered.
fn draw_along(plan: &Plan, state: &State, change: Change, cpu: u32, members: &[u32], ops: &mut Ops)
    requires cpu { cpu < length plan.now.cpus }
    requires alone { ChangesVote state.now (with_change state.now change) cpu }
    requires members { All (λ p. p < length plan.now.cpus) members.now }
    requires old { IsState plan.now state.now }
    requires fits { IsState plan.now (with_change state.now change) }
    requires room { HasRoom ops.old
        (length (drawn_among plan.now state.now (with_change state.now change) cpu members.now)) }
    ensures { let after = with_change state.now change in
        ops.new ≡ record ops.old {
          elements = ops.old.elements
              ++ map (enter plan.now after)
              (drawn_among plan.now state.now after cpu members.now);
        } }
{
    if !brings_one(plan, state, change, cpu) {
        return;
    }
    for member in members {
        if joins(plan, state, change, cpu, *member) {
            let chain = chain_under(plan, state, change, *member);
            ops.push(enter(plan, *member, &chain));
        }
    }
}

/// Appends the operations of an accepted idle request, and says which states the processor comes
/// to.
pub fn idle(plan: &Plan, state: &State, change: Change, cpu: u32, ops: &mut Ops) -> Chain
    requires cpu { cpu < length plan.now.cpus }
    requires table { (cpu_at plan.now cpu).idle.kind ≢ IdleKind.Absent }
    requires alone { ChangesVote state.now (with_change state.now change) cpu }
    requires idles { 0 < (vote_of (with_change state.now change) cpu).state }
    requires old { IsState plan.now state.now }
    requires fits { IsState plan.now (with_change state.now change) }
    requires room { HasRoom ops.old (group_bound plan.now cpu) }
    ensures chain { result ≡ chain_of (states_of plan.now (with_change state.now change) cpu) }
    ensures list { ops.new ≡ record ops.old {
      elements = ops.old.elements
          ++ idle_ops plan.now state.now (with_change state.now change) cpu;
    } }
{
    let chain = chain_under(plan, state, change, cpu);
    if chain.states[0] > 0 {
        ops.push(enter(plan, cpu, &chain));
    }
    if let Some(membership) = plan.group_of(cpu) {
        let members = plan.group(membership.place).members.as_slice();
        draw_along(plan, state, change, cpu, members, ops);
    }
    chain
}

/// Appends the operations of an accepted request, and answers it.
#[tactic(auto, unfolding(pw_model::specs::Answers::accepted, pw_model::specs::Operations::accepted_ops))]
pub fn accept(plan: &Plan, state: &State, change: Change, request: Request, ops: &mut Ops) -> Reply
    requires request { Has plan.now request }
    requires accepted { fixed_refusal plan.now request ≡ None }
    requires change { change ≡ change_of plan.now request }
    requires old { IsState plan.now state.now }
    requires fits { IsState plan.now (with_change state.now change) }
    requires room { HasRoom ops.old (ops_bound plan.now request) }
    ensures reply { result ≡ accepted plan.now (with_change state.now change) request }
    ensures list { ops.new ≡ record ops.old {
      elements = ops.old.elements
          ++ accepted_ops plan.now state.now (with_change state.now change) request;
    } }
{
    let perf = DomainKind::Perf;
    let throttle = DomainKind::Throttle;
    match request {
        Request::Idle { cpu, .. } => Reply::Entered {
            chain: idle(plan, state, change, cpu, ops),
        },
        Request::Wake { .. } => Reply::Running,
        Request::Perf { cpu, .. } => set_domain(plan, state, change, perf, cpu, ops),
        Request::Throttle { cpu, .. } => set_domain(plan, state, change, throttle, cpu, ops),
        Request::PerfLimit { cpu, .. } => set_domain(plan, state, change, perf, cpu, ops),
        Request::ThrottleLimit { cpu, .. } => set_domain(plan, state, change, throttle, cpu, ops),
    }
}
