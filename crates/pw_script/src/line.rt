ghost use Rattle.std.specs.Prelude.{◌≡◌, ◌<◌, length, bytes_eq, IfOk, IfSome};
ghost use Rattle.pw_text.specs.Fields.{fields_of};
ghost use Rattle.pw_text.specs.Looking.{IsIndexOf};
ghost use Rattle.pw_script.specs.Forms.{said, segs_of, verb_alone, verb_of_one, verb_of_two, wish_by, wish_in};
ghost use Rattle.pw_script.specs.Reading.{asker};

use crate::index::find;
use crate::wish::{Verb, Wish};
use pw_base::Memory;
use pw_model::ScaleKind;
use pw_plan::{ANY_LATENCY, Plan, Request};
use pw_text::{LineWhy, PathIndex, Spelled, first_field, is_number, value_of};

/// Whether bytes are this text.
fn is(bytes: &[u8], text: &str) -> bool
    ensures { result ≡ bytes_eq bytes.now text.now }
{
    bytes == text.as_bytes()
}

/// What a word asks for with no number behind it.
fn verb_alone(word: &[u8]) -> Option<Verb>
    ensures { result ≡ verb_alone word.now }
{
    if is(word, "wake") {
        Some(Verb::Wake)
    } else {
        None
    }
}

/// What a word asks for with one number behind it.
fn verb_of_one(word: &[u8]) -> Option<Verb>
    ensures { result ≡ verb_of_one word.now }
{
    if is(word, "idle") {
        Some(Verb::Idle)
    } else if is(word, "perf") {
        Some(Verb::Perf)
    } else if is(word, "throttle") {
        Some(Verb::Throttle)
    } else if is(word, "plimit") {
        Some(Verb::PerfLimit)
    } else if is(word, "tlimit") {
        Some(Verb::ThrottleLimit)
    } else {
        None
    }
}

/// What a word asks for with two numbers behind it.
fn verb_of_two(word: &[u8]) -> Option<Verb>
    ensures { result ≡ verb_of_two word.now }
{
    if is(word, "idle") {
        Some(Verb::IdleBearing)
    } else if is(word, "within") {
        Some(Verb::Within)
    } else if is(word, "notify") {
        Some(Verb::Notify)
    } else {
        None
    }
}

/// What the fields behind a path say: a verb and its numbers, 0 for one that there isn't, and none for
/// one that is above 4294967295.
fn said(line: &[u8]) -> Option<(Verb, Option<u32>, Option<u32>)>
    ensures { result ≡ said (fields_of line.now) }
{
    let (word, rest) = first_field(line);
    let (first, rest) = first_field(rest);
    if first.is_empty() {
        let verb = verb_alone(word)?;
        return Some((verb, Some(0), Some(0)));
    }
    if !is_number(first) {
        return None;
    }
    let (second, rest) = first_field(rest);
    if second.is_empty() {
        let verb = verb_of_one(word)?;
        return Some((verb, value_of(first), Some(0)));
    }
    if !is_number(second) {
        return None;
    }
    let (third, _) = first_field(rest);
    if !third.is_empty() {
        return None;
    }
    let verb = verb_of_two(word)?;
    Some((verb, value_of(first), value_of(second)))
}

/// What a processor asks for by a verb and its numbers.
#[tactic(auto, unfolding(pw_model::specs::States::any_latency))]
fn wish_by(verb: Verb, cpu: u32, n: u32, m: u32) -> Option<Wish>
    ensures wish { result ≡ wish_by verb cpu n m }
    ensures asker { IfSome result (λ wish. asker wish ≡ cpu) }
{
    match verb {
        Verb::Wake => Some(Wish::Plain(Request::Wake { cpu })),
        Verb::Idle => Some(Wish::Plain(Request::Idle {
            cpu,
            state: n,
            tolerance: ANY_LATENCY,
        })),
        Verb::IdleBearing => Some(Wish::Plain(Request::Idle {
            cpu,
            state: n,
            tolerance: m,
        })),
        Verb::Perf => Some(Wish::Plain(Request::Perf { cpu, index: n })),
        Verb::Throttle => Some(Wish::Plain(Request::Throttle { cpu, index: n })),
        Verb::PerfLimit => Some(Wish::Plain(Request::PerfLimit { cpu, n })),
        Verb::ThrottleLimit => Some(Wish::Plain(Request::ThrottleLimit { cpu, n })),
        Verb::Within => Some(Wish::Within {
            cpu,
            tolerance: n,
            residency: m,
        }),
        Verb::Notify => {
            let kind = match n {
                128 => ScaleKind::Perf,
                130 => ScaleKind::Throttle,
                _ => return None,
            };
            Some(Wish::Notice {
                cpu,
                kind,
                value: m,
            })
        }
    }
}

/// What a line asks for, if anything, or why it is bad. `room` is room for its path.
pub(crate) fn wish_in(
    plan: &Plan,
    index: &PathIndex,
    room: &mut Spelled,
    line: &[u8],
) -> Result<Result<Option<Wish>, LineWhy>, Memory>
    requires { IsIndexOf segs_of plan.now.cpus index.now }
    ensures wish { IfOk result (λ wish. wish ≡ wish_in plan.now line.now) }
    ensures exists { IfOk result
        (λ wish. IfOk wish (λ some. IfSome some (λ w. asker w < length plan.now.cpus))) }
{
    let (path, rest) = first_field(line);
    if path.is_empty() || path[0] == b'#' {
        return Ok(Ok(None));
    }
    let Some(found) = find(plan, index, room, path)? else {
        return Ok(Err(LineWhy::Grammar));
    };
    let Some((verb, first, second)) = said(rest) else {
        return Ok(Err(LineWhy::Grammar));
    };
    let Some(cpu) = found else {
        return Ok(Err(LineWhy::Processor));
    };
    let (Some(first), Some(second)) = (first, second) else {
        return Ok(Err(LineWhy::Number));
    };
    let Some(wish) = wish_by(verb, cpu, first, second) else {
        return Ok(Err(LineWhy::Number));
    };
    Ok(Ok(Some(wish)))
}
