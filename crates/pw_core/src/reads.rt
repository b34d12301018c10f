//! What stands in a state, and in one that a request changes, without writing it.
ghost use Rattle.std.specs.Prelude.{◌≡◌, ◌<◌, length};
ghost use Rattle.pw_model.specs.States.{ask_of, asks_of, limit_of, limits_of};
ghost use Rattle.pw_model.specs.States.{vote_of, with_change};

use pw_model::{Change, ScaleKind, State, Vote};
use pw_plan::DomainKind;

/// The vote of a processor in the changed state.
pub fn vote_after(state: &State, change: Change, cpu: u32) -> Vote
    requires { cpu < length state.now.votes }
    ensures { result ≡ vote_of (with_change state.now change) cpu }
{
    match change {
        Change::Vote { cpu: changed, vote } if changed == cpu => vote,
        _ => state.votes.as_slice()[cpu as usize],
    }
}

/// What a processor asks for in the changed state.
pub fn ask_after(kind: DomainKind, state: &State, change: Change, cpu: u32) -> u8
    requires perf_asks { cpu < length state.now.perf_asks }
    requires throttle_asks { cpu < length state.now.throttle_asks }
    ensures { result ≡ ask_of kind (with_change state.now change) cpu }
{
    match kind {
        DomainKind::Perf => match change {
            Change::Ask {
                kind: ScaleKind::Perf,
                cpu: changed,
                index,
            } if changed == cpu => index,
            _ => state.perf_asks.as_slice()[cpu as usize],
        },
        DomainKind::Throttle => match change {
            Change::Ask {
                kind: ScaleKind::Throttle,
                cpu: changed,
                index,
            } if changed == cpu => index,
            _ => state.throttle_asks.as_slice()[cpu as usize],
        },
        DomainKind::Idle => 0,
    }
}

/// The limit of a processor in the changed state.
pub fn limit_after(kind: DomainKind, state: &State, change: Change, cpu: u32) -> u8
    requires perf_limits { cpu < length state.now.perf_limits }
    requires throttle_limits { cpu < length state.now.throttle_limits }
    ensures { result ≡ limit_of kind (with_change state.now change) cpu }
{
    match kind {
        DomainKind::Perf => match change {
            Change::Limit {
                kind: ScaleKind::Perf,
                cpu: changed,
                n,
            } if changed == cpu => n,
            _ => state.perf_limits.as_slice()[cpu as usize],
        },
        DomainKind::Throttle => match change {
            Change::Limit {
                kind: ScaleKind::Throttle,
                cpu: changed,
                n,
            } if changed == cpu => n,
            _ => state.throttle_limits.as_slice()[cpu as usize],
        },
        DomainKind::Idle => 0,
    }
}

/// What processors ask for.
pub fn asks_of(kind: DomainKind, state: &State) -> &[u8]
    ensures { result.now ≡ asks_of kind state.now }
{
    match kind {
        DomainKind::Perf => state.perf_asks.as_slice(),
        DomainKind::Throttle => state.throttle_asks.as_slice(),
        DomainKind::Idle => &[],
    }
}

/// The limits of processors.
pub fn limits_of(kind: DomainKind, state: &State) -> &[u8]
    ensures { result.now ≡ limits_of kind state.now }
{
    match kind {
        DomainKind::Perf => state.perf_limits.as_slice(),
        DomainKind::Throttle => state.throttle_limits.as_slice(),
        DomainKind::Idle => &[],
    }
}
