ghost use Rattle.std.specs.Prelude.{◌≡◌, ◌<◌, length, None};
ghost use Rattle.pw_plan.specs.Parts.{scale_of};
ghost use Rattle.pw_plan.specs.Places.{cpu_at};
ghost use Rattle.pw_plan.specs.Requests.{Has};
ghost use Rattle.pw_model.specs.States.{IsState, capped, with_change};
ghost use Rattle.pw_model.specs.Refusals.{refusal};
ghost use Rattle.pw_core.specs.inner.Changes.{CanChange};
ghost use Rattle.pw_model.specs.Answers.{change_of};

use crate::tree::RUNNING;
use pw_model::{Change, ScaleKind, State, Vote};
use pw_plan::{DomainKind, Plan, Request};

/// A limit of a processor with states of this kind, which past the last one counts as the last one
/// (ACPI 6.5, 8.4.5.3).
pub fn capped(plan: &Plan, kind: DomainKind, cpu: u32, n: u32) -> u8
    requires { cpu < length plan.now.cpus }
    ensures { result ≡ capped (scale_of kind (cpu_at plan.now cpu)) n }
{
    let last = (plan.cpu(cpu).state_count(kind) as u32).saturating_sub(1);
    n.min(last) as u8
}

/// What an accepted request changes.
#[tactic(auto, unfolding(pw_model::specs::States::any_latency))]
pub fn change_of(plan: &Plan, state: &State, request: Request) -> Change
    requires request { Has plan.now request }
    requires accepted { refusal plan.now state.now request ≡ None }
    ensures { result ≡ change_of plan.now request }
{
    match request {
        Request::Idle {
            cpu,
            state,
            tolerance,
        } => Change::Vote {
            cpu,
            vote: Vote {
                state: state as u8,
                tolerance,
            },
        },
        Request::Wake { cpu } => Change::Vote { cpu, vote: RUNNING },
        Request::Perf { cpu, index } => Change::Ask {
            kind: ScaleKind::Perf,
            cpu,
            index: index as u8,
        },
        Request::Throttle { cpu, index } => Change::Ask {
            kind: ScaleKind::Throttle,
            cpu,
            index: index as u8,
        },
        Request::PerfLimit { cpu, n } => Change::Limit {
            kind: ScaleKind::Perf,
            cpu,
            n: capped(plan, DomainKind::Perf, cpu, n),
        },
        Request::ThrottleLimit { cpu, n } => Change::Limit {
            kind: ScaleKind::Throttle,
            cpu,
            n: capped(plan, DomainKind::Throttle, cpu, n),
        },
    }
}

/// Changes one entry.
pub fn make(state: &mut State, change: Change)
    requires { CanChange state.old change }
    ensures { state.new ≡ with_change state.old change }
{
    match change {
        Change::Nothing => {}
        Change::Vote { cpu, vote } => state.votes.set(cpu as usize, vote),
        Change::Ask { kind, cpu, index } => match kind {
            ScaleKind::Perf => state.perf_asks.set(cpu as usize, index),
            ScaleKind::Throttle => state.throttle_asks.set(cpu as usize, index),
        },
        Change::Limit { kind, cpu, n } => match kind {
            ScaleKind::Perf => state.perf_limits.set(cpu as usize, n),
            ScaleKind::Throttle => state.throttle_limits.set(cpu as usize, n),
        },
    }
}
