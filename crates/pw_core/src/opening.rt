ghost use Rattle.std.specs.Prelude.{◌≡◌, ◌<◌, ◌≤◌, ◌++◌, length, map, max, fold, All, IfOk};
ghost use Rattle.pw_plan.specs.Parts.{scale_of};
ghost use Rattle.pw_plan.specs.Places.{cpu_at, domain_at};
ghost use Rattle.pw_plan.specs.Opening.{opening_count};
ghost use Rattle.pw_plan.specs.Requests.{opening_bound};
ghost use Rattle.pw_model.specs.States.{opening, opening_limit, running};
ghost use Rattle.pw_model.specs.Operations.{opening_ops, opening_ops_of, set_on};
ghost use Rattle.pw_regs.specs.Rooms.{HasRoom};

use crate::changing::capped;
use crate::setting::{set_each, set_on};
use crate::tree::RUNNING;
use acpi_values::Coord;
use pw_base::{List, Memory};
use pw_model::{State, Vote};
use pw_plan::{DomainKind, Plan};
use pw_regs::Ops;
use std::alloc::Global;

/// The limit that a processor opens with, 0 where it has no states of this kind.
pub fn opening_limit(plan: &Plan, kind: DomainKind, cpu: u32) -> u8
    requires { cpu < length plan.now.cpus }
    ensures { result ≡ opening_limit (scale_of kind (cpu_at plan.now cpu)) }
{
    match plan.cpu(cpu).scale(kind) {
        None => 0,
        Some(scale) => capped(plan, kind, cpu, scale.limit),
    }
}

/// The limits that processors open with.
fn opening_limits(alloc: Global, plan: &Plan, kind: DomainKind) -> Result<List<u8>, Memory>
    ensures { IfOk result (λ limits. limits ≡ map (λ c. opening_limit (scale_of kind c)) plan.now.cpus) }
{
    let mut limits = Vec::new(alloc);
    for cpu in 0..plan.cpus.as_slice().len() {
        limits.push(opening_limit(plan, kind, cpu as u32))?;
    }
    Ok(List::from_vec(limits))
}

/// The votes that processors open with.
#[tactic(auto, unfolding(pw_model::specs::States::any_latency))]
fn opening_votes(alloc: Global, plan: &Plan) -> Result<List<Vote>, Memory>
    ensures { IfOk result (λ votes. votes ≡ map (λ c. running) plan.now.cpus) }
{
    let mut votes = Vec::new(alloc);
    for _cpu in plan.cpus.as_slice() {
        votes.push(RUNNING)?;
    }
    Ok(List::from_vec(votes))
}

/// The state that a plan opens with.
#[tactic(auto, unfolding(pw_model::specs::States::opening))]
pub fn opened(alloc: Global, plan: &Plan) -> Result<State, Memory>
    ensures { IfOk result (λ state. state ≡ opening plan.now) }
{
    Ok(State {
        votes: opening_votes(alloc, plan)?,
        perf_asks: opening_limits(alloc, plan, DomainKind::Perf)?,
        perf_limits: opening_limits(alloc, plan, DomainKind::Perf)?,
        throttle_asks: opening_limits(alloc, plan, DomainKind::Throttle)?,
        throttle_limits: opening_limits(alloc, plan, DomainKind::Throttle)?,
    })
}

/// The slowest limit that these processors open with. Each asks for its own limit then, so that is
/// where they stand.
fn slowest_limit(plan: &Plan, kind: DomainKind, members: &[u32]) -> u8
    requires { All (λ p. p < length plan.now.cpus) members.now }
    ensures { result ≡ fold max 0
        (map (λ p. opening_limit (scale_of kind (cpu_at plan.now p))) members.now) }
{
    let mut limit = 0;
    for member in members {
        limit = opening_limit(plan, kind, *member).max(limit);
    }
    limit
}

/// Sets on each member where it alone stands at the start.
fn open_each(plan: &Plan, kind: DomainKind, members: &[u32], ops: &mut Ops)
    requires members { All (λ p. p < length plan.now.cpus) members.now }
    requires room { HasRoom ops.old (length members.now) }
    ensures { ops.new ≡ record ops.old {
      elements = ops.old.elements
          ++ map (λ p. set_on plan.now kind (opening_limit (scale_of kind (cpu_at plan.now p))) p)
          members.now;
    } }
{
    for member in members {
        let state = opening_limit(plan, kind, *member);
        ops.push(set_on(plan, kind, state, *member));
    }
}

/// Appends the operations at the start on this domain.
fn open_domain(plan: &Plan, place: usize, ops: &mut Ops)
    requires place { place < length plan.now.domains }
    requires room { HasRoom ops.old (opening_count (domain_at plan.now place)) }
    ensures { ops.new ≡ record ops.old { elements = ops.old.elements ++ opening_ops_of plan.now place } }
{
    let domain = plan.domain(place);
    let kind = domain.kind;
    let members = domain.members.as_slice();
    if matches!(kind, DomainKind::Idle) || domain.unfit > 0 {
        return;
    }
    match domain.coord {
        Coord::SwAll => set_each(plan, kind, slowest_limit(plan, kind, members), members, ops),
        Coord::SwAny => {
            if let Some(first) = members.first() {
                ops.push(set_on(plan, kind, slowest_limit(plan, kind, members), *first));
            }
        }
        Coord::HwAll => open_each(plan, kind, members, ops),
    }
}

/// Appends the operations at the start: each fit domain of performance or throttling is set to where it
/// stands.
pub fn open_all(plan: &Plan, ops: &mut Ops)
    requires { HasRoom ops.old (opening_bound plan.now) }
    ensures { ops.new ≡ record ops.old { elements = ops.old.elements ++ opening_ops plan.now } }
{
    for place in 0..plan.domains.as_slice().len() {
        open_domain(plan, place, ops);
    }
}
