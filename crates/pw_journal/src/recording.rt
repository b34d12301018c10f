ghost use Rattle.std.specs.Prelude.{◌≡◌};
ghost use Rattle.pw_model.specs.History.{entry_of};

use pw_model::HistoryEntry;
use pw_plan::{ANY_LATENCY, Request};

/// An entry with these fields.
fn entry(seat: u32, cpu: u32, code: u32, argument: u32, fault: u32) -> HistoryEntry
    ensures { result ≡ record {
      seat = seat;
      cpu = cpu;
      code = code;
      argument = argument;
      tolerance = 4294967295;
      fault = fault;
    } }
{
    HistoryEntry {
        seat,
        cpu,
        code,
        argument,
        tolerance: ANY_LATENCY,
        fault,
    }
}

/// The entry of a request that a seat made, with the fault that ended it, 0 for none.
#[tactic(auto, unfolding(pw_model::specs::States::any_latency))]
pub fn record_of(seat: u32, request: Request, fault: u32) -> HistoryEntry
    ensures { result ≡ record (entry_of seat request) { fault = fault } }
{
    match request {
        Request::Idle {
            cpu,
            state,
            tolerance,
        } => HistoryEntry {
            seat,
            cpu,
            code: 1,
            argument: state,
            tolerance,
            fault,
        },
        Request::Wake { cpu } => entry(seat, cpu, 2, 0, fault),
        Request::Perf { cpu, index } => entry(seat, cpu, 3, index, fault),
        Request::Throttle { cpu, index } => entry(seat, cpu, 4, index, fault),
        Request::PerfLimit { cpu, n } => entry(seat, cpu, 5, n, fault),
        Request::ThrottleLimit { cpu, n } => entry(seat, cpu, 6, n, fault),
    }
}
