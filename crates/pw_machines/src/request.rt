ghost use Rattle.std.specs.Prelude.{◌≡◌, ◌≤◌, IfSome};
ghost use Rattle.pw_model.specs.History.{request_of as entry_request};

use crate::words::{u32_at, word_at};
use pw_model::HistoryEntry;
use pw_plan::Request;

/// The request of a line: `idle CPU STATE`, with a tolerance behind it or without, `wake CPU`,
/// `perf CPU INDEX`, `throttle CPU INDEX`, `plimit CPU N`, `tlimit CPU N`, or that of a history's entry,
/// `entry CPU CODE ARGUMENT TOLERANCE`.
pub fn request_of(line: &str) -> Option<Request> {
    let cpu = u32_at(line, 1)?;
    let number = u32_at(line, 2);
    match word_at(line, 0)? {
        "idle" => Some(Request::Idle {
            cpu,
            state: number?,
            tolerance: u32_at(line, 3).unwrap_or(u32::MAX),
        }),
        "wake" => Some(Request::Wake { cpu }),
        "entry" => stated(cpu, number?, u32_at(line, 3)?, u32_at(line, 4)?),
        word => scaled(word, cpu, number?),
    }
}

fn scaled(word: &str, cpu: u32, number: u32) -> Option<Request> {
    match word {
        "perf" => Some(Request::Perf { cpu, index: number }),
        "throttle" => Some(Request::Throttle { cpu, index: number }),
        "plimit" => Some(Request::PerfLimit { cpu, n: number }),
        "tlimit" => Some(Request::ThrottleLimit { cpu, n: number }),
        _ => None,
    }
}

/// The request that an entry of a history states.
fn stated(cpu: u32, code: u32, argument: u32, tolerance: u32) -> Option<Request> {
    request_in(&HistoryEntry {
        seat: 0,
        cpu,
        code,
        argument,
        tolerance,
        fault: 0,
    })
}

/// The request of an entry, if its code is that of one.
pub fn request_in(entry: &HistoryEntry) -> Option<Request>
    ensures code { IfSome result (λ _. (1 ≤ entry.now.code) × (entry.now.code ≤ 6)) }
    ensures request { IfSome result (λ q. q ≡ entry_request entry.now) }
{
    if entry.code < 1 || entry.code > 6 {
        return None;
    }
    Some(entry.request())
}

/// A request as `request_of` reads it.
pub fn put_request(text: &mut String, request: &Request) -> Option<()> {
    match *request {
        Request::Idle {
            cpu,
            state,
            tolerance,
        } => write!(text, "idle {cpu} {state} {tolerance}").ok(),
        Request::Wake { cpu } => write!(text, "wake {cpu}").ok(),
        Request::Perf { cpu, index } => write!(text, "perf {cpu} {index}").ok(),
        Request::Throttle { cpu, index } => write!(text, "throttle {cpu} {index}").ok(),
        Request::PerfLimit { cpu, n } => write!(text, "plimit {cpu} {n}").ok(),
        Request::ThrottleLimit { cpu, n } => write!(text, "tlimit {cpu} {n}").ok(),
    }
}
