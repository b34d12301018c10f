ghost use Rattle.std.specs.Prelude.{◌≡◌, ◌<◌, ◌+◌};
ghost use Rattle.std.specs.Thread.{IsSync};
ghost use Rattle.pw_turns.specs.Owning.{Owns};
ghost use Rattle.pw_seats.specs.Seats.{parts_of};

use crate::ask::ask;
use crate::replay::Heard;
use crate::seats::Shared;
use pw_plan::Request;
use pw_turns::{Done, Keeps, Seat};
use std::alloc::Global;
use std::sync::Wait;
use std::thread::{Threads, join};

/// A seat, and what its threads heard, each in the order of its requests; None where one was told
/// something else than a reply, or for want of memory.
#[derive(Drop)]
pub(crate) struct Crew {
    pub seat: Seat,
    pub heard: Option<Vec<Heard>>,
}

/// What a processor asks for in this round.
fn request_at(cpu: u32, round: u32) -> Request {
    match round % 4 {
        0 => Request::Idle {
            cpu,
            state: 1 + round % 3,
            tolerance: u32::MAX,
        },
        1 => Request::Perf {
            cpu,
            index: round % 5,
        },
        2 => Request::Wake { cpu },
        _ => Request::PerfLimit { cpu, n: round % 3 },
    }
}

/// Makes the requests of so many rounds for a processor.
fn ask_alone<W: Wait, K: Keeps>(
    rt: &W,
    alloc: Global,
    shared: &Shared<K>,
    mut seat: Seat,
    cpu: u32,
    rounds: u32,
) -> Crew
    requires { Owns shared.now.table.shared.table_id seat }
    ensures owns { Owns shared.now.table.shared.table_id result.seat }
    ensures parts { parts_of result.seat ≡ parts_of seat }
{
    let mut heard = Vec::new(alloc);
    for round in 0..rounds {
        let told = ask(rt, &mut heard, shared, &mut seat, request_at(cpu, round));
        if !matches!(told, Some(Done::Answer(_))) {
            return Crew { seat, heard: None };
        }
    }
    Crew {
        seat,
        heard: Some(heard),
    }
}

/// The seats joined, and what both heard.
fn joined<K: Keeps>(shared: &Shared<K>, one: Crew, other: Crew) -> Crew
    requires one { Owns shared.now.table.shared.table_id one.seat }
    requires other { Owns shared.now.table.shared.table_id other.seat }
    ensures owns { Owns shared.now.table.shared.table_id result.seat }
    ensures parts { parts_of result.seat ≡ parts_of one.seat + parts_of other.seat }
{
    Crew {
        seat: shared.join(one.seat, other.seat),
        heard: both(one.heard, other.heard),
    }
}

fn both(one: Option<Vec<Heard>>, other: Option<Vec<Heard>>) -> Option<Vec<Heard>> {
    let mut heard = one?;
    heard.extend_from_slice(other?.as_slice()).ok()?;
    Some(heard)
}

/// Makes the requests of so many rounds for each of these processors, each in a thread of its own and
/// by a seat of its own, and joins the seats.
pub(crate) fn ask_in_threads<R: Threads + Wait + Sync, K: Keeps + Sync>(
    rt: &R,
    alloc: Global,
    shared: &Shared<K>,
    mut seat: Seat,
    cpu: u32,
    members: u32,
    rounds: u32,
) -> Crew
    requires { Owns shared.now.table.shared.table_id seat }
    ensures owns { Owns shared.now.table.shared.table_id result.seat }
    ensures parts { parts_of result.seat ≡ parts_of seat }
{
    if members < 2 || seat.parts() < 2 {
        return ask_alone(rt, alloc, shared, seat, cpu, rounds);
    }
    let Ok(other) = shared.split(alloc, &mut seat, 1) else {
        return Crew { seat, heard: None };
    };
    let (next, left) = (cpu.saturating_add(1), members - 1);
    let (one, others) = join(
        rt,
        move || -> Crew
            requires { Owns shared.now.table.shared.table_id other }
            ensures owns { Owns shared.entry.now.table.shared.table_id result.seat }
            ensures parts { parts_of result.seat ≡ parts_of other }
        { ask_alone(rt, alloc, shared, other, cpu, rounds) },
        move || -> Crew
            requires { IsSync R.row × Owns shared.now.table.shared.table_id seat }
            ensures owns { Owns shared.entry.now.table.shared.table_id result.seat }
            ensures parts { parts_of result.seat ≡ parts_of seat }
        { ask_in_threads(rt, alloc, shared, seat, next, left, rounds) },
    );
    joined(shared, others, one)
}
