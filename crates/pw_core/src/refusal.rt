ghost use Rattle.std.specs.Prelude.{◌≡◌, ◌<◌, length};
ghost use Rattle.pw_plan.specs.Parts.{scale_of};
ghost use Rattle.pw_plan.specs.Places.{cpu_at};
ghost use Rattle.pw_plan.specs.Requests.{Has};
ghost use Rattle.pw_model.specs.States.{IsState};
ghost use Rattle.pw_model.specs.Refusals.{above_limit, ask_refusal};
ghost use Rattle.pw_model.specs.Refusals.{domain_refusal};
ghost use Rattle.pw_model.specs.Refusals.{fixed_refusal};
ghost use Rattle.pw_model.specs.Refusals.{idle_refusal};
ghost use Rattle.pw_model.specs.Refusals.{refusal, unfit_refusal};

use crate::reads::limit_after;
use crate::tree::row;
use acpi_values::IdleKind;
use pw_model::{Change, Reply, State};
use pw_plan::{DomainKind, Plan, Request, in_32_bits};

/// The refusal for the first idle domain of the processor that can't be coordinated.
fn unfit_refusal(plan: &Plan, cpu: u32) -> Option<Reply>
    ensures { result ≡ unfit_refusal plan.now cpu }
{
    let membership = plan.unfit_of(cpu)?;
    Some(Reply::Unfit {
        domain: in_32_bits(membership.place),
        why: plan.domain(membership.place).unfit,
    })
}

/// The refusal of an idle request.
pub fn idle_refusal(plan: &Plan, cpu: u32, state: u32, tolerance: u32) -> Option<Reply>
    requires { cpu < length plan.now.cpus }
    ensures { result ≡ idle_refusal plan.now cpu state tolerance }
{
    let table = &plan.cpu(cpu).idle;
    if matches!(table.kind, IdleKind::Absent) {
        return Some(Reply::NoTable);
    }
    if let Some(reply) = unfit_refusal(plan, cpu) {
        return Some(reply);
    }
    let count = table.states().len() as u32;
    if state == 0 || state > count {
        return Some(Reply::NoState { count });
    }
    let found = row(table, state as u8);
    if !found.enabled {
        return Some(Reply::Disabled);
    }
    if found.latency > tolerance {
        return Some(Reply::TooSlow {
            latency: found.latency,
        });
    }
    None
}

/// The refusal of a request on the processor's domain of this kind.
pub fn domain_refusal(plan: &Plan, kind: DomainKind, cpu: u32) -> Option<Reply>
    requires { cpu < length plan.now.cpus }
    ensures { result ≡ domain_refusal plan.now kind cpu (scale_of kind (cpu_at plan.now cpu)) }
{
    if plan.cpu(cpu).scale(kind).is_none() {
        return Some(Reply::NoTable);
    }
    let Some(membership) = plan.domain_of(kind, cpu) else {
        unreachable!()
    };
    let why = plan.domain(membership.place).unfit;
    if why == 0 {
        None
    } else {
        Some(Reply::Unfit {
            domain: membership.place as u32,
            why,
        })
    }
}

/// The refusal of a request for a state of this kind.
pub fn ask_refusal(plan: &Plan, kind: DomainKind, cpu: u32, index: u32) -> Option<Reply>
    requires { cpu < length plan.now.cpus }
    ensures { result ≡ ask_refusal plan.now kind cpu index }
{
    if let Some(reply) = domain_refusal(plan, kind, cpu) {
        return Some(reply);
    }
    let count = plan.cpu(cpu).state_count(kind) as u32;
    if index < count {
        None
    } else {
        Some(Reply::NoState { count })
    }
}

/// The refusal of a request that is refused so in every state, `None` where some state accepts it. It
/// takes no memory.
pub fn fixed_answer(plan: &Plan, request: &Request) -> Option<Reply>
    requires { Has plan.now request.now }
    ensures { result ≡ fixed_refusal plan.now request.now }
{
    match *request {
        Request::Idle {
            cpu,
            state,
            tolerance,
        } => idle_refusal(plan, cpu, state, tolerance),
        Request::Wake { .. } => None,
        Request::Perf { cpu, index } => ask_refusal(plan, DomainKind::Perf, cpu, index),
        Request::Throttle { cpu, index } => ask_refusal(plan, DomainKind::Throttle, cpu, index),
        Request::PerfLimit { cpu, .. } => domain_refusal(plan, DomainKind::Perf, cpu),
        Request::ThrottleLimit { cpu, .. } => domain_refusal(plan, DomainKind::Throttle, cpu),
    }
}

/// The refusal of a state that is faster than the processor's own limit.
pub fn above_limit(
    plan: &Plan,
    state: &State,
    kind: DomainKind,
    cpu: u32,
    index: u32,
) -> Option<Reply>
    requires cpu { cpu < length plan.now.cpus }
    requires fits { IsState plan.now state.now }
    ensures { result ≡ above_limit state.now kind cpu index }
{
    let limit = u32::from(limit_after(kind, state, Change::Nothing, cpu));
    if index < limit {
        Some(Reply::AboveLimit { limit })
    } else {
        None
    }
}

/// The refusal of the request in this state.
pub fn refusal(plan: &Plan, state: &State, request: Request) -> Option<Reply>
    requires request { Has plan.now request }
    requires fits { IsState plan.now state.now }
    ensures { result ≡ refusal plan.now state.now request }
{
    if let Some(reply) = fixed_answer(plan, &request) {
        return Some(reply);
    }
    match request {
        Request::Perf { cpu, index } => above_limit(plan, state, DomainKind::Perf, cpu, index),
        Request::Throttle { cpu, index } => {
            above_limit(plan, state, DomainKind::Throttle, cpu, index)
        }
        _ => None,
    }
}
