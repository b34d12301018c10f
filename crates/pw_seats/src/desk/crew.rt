ghost use Rattle.std.specs.Prelude.{◌≡◌};
ghost use Rattle.std.specs.Thread.{IsSync};
ghost use Rattle.pw_cppc_desk.specs.Owning.{Owns};
ghost use Rattle.pw_seats.specs.DeskSeats.{parts_of};

use crate::desk::ask::ask;
use crate::desk::seats::Desk;
use pw_cppc::CppcRequest;
use pw_cppc_desk::{CppcSeat, CppcTry};
use std::sync::Wait;
use std::thread::{Threads, join};

/// What a processor asks for in this round, of performances from 10 to 100.
pub(crate) fn request_at(cpu: u32, round: usize) -> CppcRequest {
    let step = 10 * (round % 5) as u32;
    match round % 3 {
        0 => CppcRequest::Desired {
            cpu,
            value: 40 + step,
        },
        1 => CppcRequest::Minimum {
            cpu,
            value: 10 + step,
        },
        _ => CppcRequest::Maximum {
            cpu,
            value: 60 + step,
        },
    }
}

/// Makes the requests of so many rounds for a processor, and tells how many were answered.
fn ask_alone<W: Wait>(
    rt: &W,
    desk: &Desk,
    mut seat: CppcSeat,
    cpu: u32,
    rounds: u32,
) -> (CppcSeat, u32)
    requires { Owns desk.now.table.shared.table_id seat }
    ensures owns { Owns desk.now.table.shared.table_id result.0 }
    ensures parts { parts_of result.0 ≡ parts_of seat }
{
    let mut answered = 0u32;
    for round in 0..rounds {
        let told = ask(rt, desk, &mut seat, true, request_at(cpu, round as usize));
        if matches!(told, Some(CppcTry::Answer(_))) {
            answered = answered.saturating_add(1);
        }
    }
    (seat, answered)
}

/// Makes the requests of so many rounds for each of these processors, each in a thread of its own and by
/// a seat of its own, joins the seats, and tells how many were answered.
pub(crate) fn ask_in_threads<R: Threads + Wait + Sync>(
    rt: &R,
    desk: &Desk,
    mut seat: CppcSeat,
    cpu: u32,
    members: u32,
    rounds: u32,
) -> (CppcSeat, u32)
    requires { Owns desk.now.table.shared.table_id seat }
    ensures owns { Owns desk.now.table.shared.table_id result.0 }
    ensures parts { parts_of result.0 ≡ parts_of seat }
{
    if members < 2 || seat.parts() < 2 {
        return ask_alone(rt, desk, seat, cpu, rounds);
    }
    let Ok(other) = desk.split(&mut seat, 1) else {
        return (seat, 0);
    };
    let (next, left) = (cpu.saturating_add(1), members - 1);
    let (one, others) = join(
        rt,
        move || -> (CppcSeat, u32)
            requires { Owns desk.now.table.shared.table_id other }
            ensures owns { Owns desk.entry.now.table.shared.table_id result.0 }
            ensures parts { parts_of result.0 ≡ parts_of other }
        { ask_alone(rt, desk, other, cpu, rounds) },
        move || -> (CppcSeat, u32)
            requires { IsSync R.row × Owns desk.now.table.shared.table_id seat }
            ensures owns { Owns desk.entry.now.table.shared.table_id result.0 }
            ensures parts { parts_of result.0 ≡ parts_of seat }
        { ask_in_threads(rt, desk, seat, next, left, rounds) },
    );
    (desk.join(others.0, one.0), one.1.saturating_add(others.1))
}
