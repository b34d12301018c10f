//! A request of each kind at once: its refusal, what it changes, its operations and its answer.
ghost use Rattle.std.specs.Prelude.{◌≡◌, ◌<◌, ◌++◌, length};
ghost use Rattle.pw_plan.specs.Places.{domain_of};
ghost use Rattle.pw_plan.specs.Requests.{domain_bound, group_bound};
ghost use Rattle.pw_model.specs.States.{IsState, with_change};
ghost use Rattle.pw_model.specs.Answers.{after, answer, stands};
ghost use Rattle.pw_model.specs.Operations.{domain_ops, ops_of};
ghost use Rattle.pw_core.specs.inner.Changes.{CanChange};
ghost use Rattle.pw_core.specs.inner.Kinds.{asking, domain_kind, limiting};
ghost use Rattle.pw_regs.specs.Rooms.{HasRoom};

use crate::accepting::idle;
use crate::changing::{capped, make};
use crate::domains::standing_now;
use crate::refusal::{above_limit, ask_refusal, domain_refusal, idle_refusal};
use crate::setting::set_changed;
use pw_model::{Change, Reply, ScaleKind, State, Vote};
use pw_plan::{DomainKind, Plan, Request};
use pw_regs::Ops;

/// The kind of the domains whose members share such states.
#[inline]
fn domain_kind(kind: ScaleKind) -> DomainKind
    ensures { result ≡ domain_kind kind }
{
    match kind {
        ScaleKind::Perf => DomainKind::Perf,
        ScaleKind::Throttle => DomainKind::Throttle,
    }
}

/// Answers an idle request, appends its operations and notes the vote.
#[tactic(auto, unfolding(pw_model::specs::Answers::after, pw_model::specs::Answers::answer, pw_model::specs::Answers::accepted, pw_model::specs::Operations::ops_of, pw_model::specs::Operations::accepted_ops))]
pub fn step_idle(
    plan: &Plan,
    lists: &mut State,
    cpu: u32,
    state: u32,
    tolerance: u32,
    ops: &mut Ops,
) -> Reply
    requires cpu { cpu < length plan.now.cpus }
    requires fits { IsState plan.now lists.old }
    requires room { HasRoom ops.old (group_bound plan.now cpu) }
    ensures reply { result ≡ answer plan.now lists.old (Request.Idle cpu state tolerance) }
    ensures list { ops.new ≡ record ops.old {
      elements = ops.old.elements ++ ops_of plan.now lists.old (Request.Idle cpu state tolerance);
    } }
    ensures after { lists.new ≡ after plan.now lists.old (Request.Idle cpu state tolerance) }
    ensures fits { IsState plan.now lists.new }
{
    if let Some(reply) = idle_refusal(plan, cpu, state, tolerance) {
        return reply;
    }
    let vote = Vote {
        state: state as u8,
        tolerance,
    };
    let chain = idle(plan, lists, Change::Vote { cpu, vote }, cpu, ops);
    lists.votes.set(cpu as usize, vote);
    Reply::Entered { chain }
}

/// Makes a change, and sets where the processor's domain of this kind then stands, if that changed.
#[inline]
fn set(
    plan: &Plan,
    lists: &mut State,
    change: Change,
    kind: DomainKind,
    cpu: u32,
    ops: &mut Ops,
) -> Reply
    requires cpu { cpu < length plan.now.cpus }
    requires place { domain_of plan.now kind cpu < length plan.now.domains }
    requires fits { IsState plan.now lists.old }
    requires can { CanChange lists.old change }
    requires room { HasRoom ops.old (domain_bound plan.now kind cpu) }
    ensures reply { result ≡ stands plan.now (with_change lists.old change) kind cpu }
    ensures list { ops.new ≡ record ops.old {
      elements = ops.old.elements
          ++ domain_ops plan.now lists.old (with_change lists.old change) kind cpu;
    } }
    ensures after { lists.new ≡ with_change lists.old change }
{
    let Some(membership) = plan.domain_of(kind, cpu) else {
        unreachable!()
    };
    let before = standing_now(plan, lists, membership.place, cpu);
    make(lists, change);
    let after = standing_now(plan, lists, membership.place, cpu);
    set_changed(plan, kind, membership.place, cpu, before, after, ops)
}

/// Answers a request for a state of this kind, appends its operations and notes the state.
#[tactic(auto, unfolding(pw_model::specs::Answers::after, pw_model::specs::Answers::answer, pw_model::specs::Answers::accepted, pw_model::specs::Operations::ops_of, pw_model::specs::Operations::accepted_ops))]
#[inline(always)]
pub fn step_ask(
    plan: &Plan,
    lists: &mut State,
    kind: ScaleKind,
    cpu: u32,
    index: u32,
    ops: &mut Ops,
) -> Reply
    requires cpu { cpu < length plan.now.cpus }
    requires fits { IsState plan.now lists.old }
    requires room { HasRoom ops.old (domain_bound plan.now (domain_kind kind) cpu) }
    ensures reply { result ≡ answer plan.now lists.old (asking kind cpu index) }
    ensures list { ops.new ≡ record ops.old {
      elements = ops.old.elements ++ ops_of plan.now lists.old (asking kind cpu index);
    } }
    ensures after { lists.new ≡ after plan.now lists.old (asking kind cpu index) }
    ensures fits { IsState plan.now lists.new }
{
    let domains = domain_kind(kind);
    if let Some(reply) = ask_refusal(plan, domains, cpu, index) {
        return reply;
    }
    if let Some(reply) = above_limit(plan, lists, domains, cpu, index) {
        return reply;
    }
    let index = index as u8;
    set(
        plan,
        lists,
        Change::Ask { kind, cpu, index },
        domains,
        cpu,
        ops,
    )
}

/// Answers a limit of states of this kind, appends its operations and notes the limit.
#[tactic(auto, unfolding(pw_model::specs::Answers::after, pw_model::specs::Answers::answer, pw_model::specs::Answers::accepted, pw_model::specs::Operations::ops_of, pw_model::specs::Operations::accepted_ops))]
#[inline(always)]
pub fn step_limit(
    plan: &Plan,
    lists: &mut State,
    kind: ScaleKind,
    cpu: u32,
    n: u32,
    ops: &mut Ops,
) -> Reply
    requires cpu { cpu < length plan.now.cpus }
    requires fits { IsState plan.now lists.old }
    requires room { HasRoom ops.old (domain_bound plan.now (domain_kind kind) cpu) }
    ensures reply { result ≡ answer plan.now lists.old (limiting kind cpu n) }
    ensures list { ops.new ≡ record ops.old {
      elements = ops.old.elements ++ ops_of plan.now lists.old (limiting kind cpu n);
    } }
    ensures after { lists.new ≡ after plan.now lists.old (limiting kind cpu n) }
    ensures fits { IsState plan.now lists.new }
{
    let domains = domain_kind(kind);
    if let Some(reply) = domain_refusal(plan, domains, cpu) {
        return reply;
    }
    let n = capped(plan, domains, cpu, n);
    set(
        plan,
        lists,
        Change::Limit { kind, cpu, n },
        domains,
        cpu,
        ops,
    )
}
