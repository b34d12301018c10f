ghost use Rattle.std.specs.Prelude.{◌≡◌, ◌<◌, ℕ, List as list, length};
ghost use Rattle.pw_governor.specs.Choices.{Chooses};
ghost use Rattle.pw_notice.specs.Handling.{Handles};
ghost use Rattle.pw_notice.specs.Limits.{AnsweredBy, IsAnswer, kind_of, made_from};
ghost use Rattle.pw_plan.specs.declared.request.Request.{Request as request};
ghost use Rattle.pw_plan.specs.Parts.{scale_of};
ghost use Rattle.pw_plan.specs.Places.{cpu_at};
ghost use Rattle.pw_plan.specs.Requests.{Has, cpu_of};
ghost use Rattle.pw_model.specs.declared.state.State.{State as lists};
ghost use Rattle.pw_model.specs.States.{IsState, limit_of, opening};
ghost use Rattle.pw_model.specs.Answers.{after};
ghost use Rattle.pw_script.specs.Reading.{asker, IsAsked, LawfullyChosen};
ghost use Rattle.pw_script.specs.inner.Limiting.{SameLimits};

use crate::wish::Wish;
use acpi_values::IdleTable;
use pw_core::State;
use pw_governor::Governor;
use pw_model::ScaleKind;
use pw_notice::Handlers;
use pw_plan::{Plan, Request};

/// The limit that is to stand: what the handler answers, or without such states the value.
fn limit_of<P: Fn(u32, u32, u32) -> u32, T: Fn(u32, u32, u32) -> u32>(
    plan: &Plan,
    state: &State,
    handlers: &Handlers<P, T>,
    kind: ScaleKind,
    cpu: u32,
    value: u32,
) -> u32
    requires perf { Handles (P.pre handlers.now.0) (P.post handlers.now.0) }
    requires throttle { Handles (T.pre handlers.now.1) (T.post handlers.now.1) }
    requires cpu { cpu < length plan.now.cpus }
    requires fits { IsState plan.now state.now }
    ensures { IsAnswer (AnsweredBy (P.post handlers.now.0) (T.post handlers.now.1) kind)
        (scale_of (kind_of kind) (cpu_at plan.now cpu)) (limit_of (kind_of kind) state.now cpu) value result }
{
    let parts = plan.cpu(cpu);
    let lists = state.lists();
    match kind {
        ScaleKind::Perf => match &parts.perf {
            None => value,
            Some(scale) => handlers.perf_limit(
                scale.controls.as_slice().len() as u32,
                u32::from(lists.perf_limits.as_slice()[cpu as usize]),
                value,
            ),
        },
        ScaleKind::Throttle => match &parts.throttle {
            None => value,
            Some(scale) => handlers.throttle_limit(
                scale.controls.as_slice().len() as u32,
                u32::from(lists.throttle_limits.as_slice()[cpu as usize]),
                value,
            ),
        },
    }
}

/// Notes a request where it sets a limit: no line is answered by what the others change.
pub(crate) fn note(plan: &Plan, state: &mut State, request: Request)
    requires request { Has plan.now request }
    requires fits { IsState plan.now state.old }
    ensures limits { (T : lists) → SameLimits state.old T → SameLimits state.new (after plan.now T request) }
    ensures fits { IsState plan.now state.new }
{
    match request {
        Request::PerfLimit { .. } => state.apply(plan, request),
        Request::ThrottleLimit { .. } => state.apply(plan, request),
        _ => {}
    }
}

/// The request that a wish becomes where these limits stand, once the governor or a handler has answered.
pub(crate) fn request_of<
    F: Fn(&IdleTable, u32, u32) -> u32,
    P: Fn(u32, u32, u32) -> u32,
    T: Fn(u32, u32, u32) -> u32,
>(
    plan: &Plan,
    state: &State,
    governor: &Governor<F>,
    handlers: &Handlers<P, T>,
    wish: Wish,
) -> Request
    requires chooses { Chooses (F.pre governor.now) (F.post governor.now) }
    requires perf { Handles (P.pre handlers.now.0) (P.post handlers.now.0) }
    requires throttle { Handles (T.pre handlers.now.1) (T.post handlers.now.1) }
    requires cpu { asker wish < length plan.now.cpus }
    requires fits { IsState plan.now state.now }
    ensures asked { (before : list request)
        → SameLimits state.now (made_from plan.now (opening plan.now) before)
        → IsAsked plan.now (LawfullyChosen (F.post governor.now))
        (AnsweredBy (P.post handlers.now.0) (T.post handlers.now.1)) before wish result }
    ensures cpu { cpu_of result ≡ asker wish }
{
    match wish {
        Wish::Plain(request) => request,
        Wish::Within {
            cpu,
            tolerance,
            residency,
        } => {
            let chosen = governor.choose(&plan.cpu(cpu).idle, tolerance, residency);
            if chosen == 0 {
                Request::Wake { cpu }
            } else {
                Request::Idle {
                    cpu,
                    state: chosen,
                    tolerance,
                }
            }
        }
        Wish::Notice { cpu, kind, value } => {
            let n = limit_of(plan, state, handlers, kind, cpu, value);
            match kind {
                ScaleKind::Perf => Request::PerfLimit { cpu, n },
                ScaleKind::Throttle => Request::ThrottleLimit { cpu, n },
            }
        }
    }
}
