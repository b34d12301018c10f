ghost use Rattle.std.specs.Prelude.{◌≤◌, IfSome};
ghost use Rattle.std.specs.List.{AllByRecursion};
ghost use Rattle.pw_model.specs.History.{StatesRequest};

use pw_model::HistoryEntry;
use pw_plan::{Plan, Request};
use pw_script::Line;
use std::alloc::Global;

/// The code, the argument and the tolerance of a request.
fn codes_of(request: Request) -> (u32, u32, u32)
    ensures from { 1 ≤ result.0 }
    ensures to { result.0 ≤ 6 }
{
    match request {
        Request::Idle {
            state,
            tolerance,
            ..
        } => (1, state, tolerance),
        Request::Wake { .. } => (2, 0, u32::MAX),
        Request::Perf { index, .. } => (3, index, u32::MAX),
        Request::Throttle { index, .. } => (4, index, u32::MAX),
        Request::PerfLimit { n, .. } => (5, n, u32::MAX),
        Request::ThrottleLimit { n, .. } => (6, n, u32::MAX),
    }
}

/// The entry of a request, if the plan has its processor.
fn entry_of(plan: &Plan, request: Request, fault: u32) -> Option<HistoryEntry>
    ensures { IfSome result (StatesRequest plan.now) }
{
    if !plan.has(&request) {
        return None;
    }
    let (code, argument, tolerance) = codes_of(request);
    Some(HistoryEntry {
        seat: 0,
        cpu: request.cpu(),
        code,
        argument,
        tolerance,
        fault,
    })
}

#[tactic(auto, using(pw_plan::proofs::Lists::each_append))]
/// The entries of lines that were made in their order, the last with this fault.
pub(crate) fn entries_of(
    alloc: Global,
    plan: &Plan,
    lines: &[Line],
    fault: u32,
) -> Option<Vec<HistoryEntry>>
    ensures { IfSome result (λ es. AllByRecursion (StatesRequest plan.now) es.items) }
{
    let mut entries = Vec::new(alloc);
    let mut left = lines;
    while let [line, rest @ ..] = left {
        let fault = if rest.is_empty() { fault } else { 0 };
        entries.push(entry_of(plan, line.request, fault)?).ok()?;
        left = rest;
    }
    Some(entries)
}
