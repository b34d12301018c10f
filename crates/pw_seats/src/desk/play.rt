ghost use Rattle.std.specs.Prelude.{◌≡◌};
ghost use Rattle.pw_cppc_desk.specs.Owning.{Owns};
ghost use Rattle.pw_seats.specs.DeskSeats.{AreSeats, parts_of};

use crate::desk::ask::{ask, request_of, rounds};
use crate::desk::crew::ask_in_threads;
use crate::desk::seats::{Desk, put, taken};
use crate::desk::text::{put_seat, put_told};
use pw_cppc_desk::{CppcSeat, CppcSplitFault};
use pw_machines::{u32_at, word_at};
use std::sync::Wait;
use std::thread::Threads;

/// `ask SEAT VERB CPU VALUE`, and `wait ..` which waits.
fn ask_line<W: Wait>(
    rt: &W,
    text: &mut String,
    desk: &Desk,
    seat: &mut CppcSeat,
    line: &str,
) -> Option<()>
    requires { Owns desk.now.table.shared.table_id seat.old }
    ensures owns { Owns desk.now.table.shared.table_id seat.new }
    ensures parts { parts_of seat.new ≡ parts_of seat.old }
{
    let waits = word_at(line, 0)? == "wait";
    let told = ask(rt, desk, seat, waits, request_of(line)?)?;
    put_told(text, &told)
}

/// What a line asks of one seat: `rounds SEAT COUNT`, `threads SEAT MEMBERS ROUNDS`, or a request.
fn call<R: Threads + Wait + Sync>(
    rt: &R,
    text: &mut String,
    desk: &Desk,
    mut seat: CppcSeat,
    line: &str,
) -> (CppcSeat, Option<()>)
    requires { Owns desk.now.table.shared.table_id seat }
    ensures owns { Owns desk.now.table.shared.table_id result.0 }
    ensures parts { parts_of result.0 ≡ parts_of seat }
{
    let count = u32_at(line, 2).unwrap_or(0);
    match word_at(line, 0) {
        Some("rounds") => rounds(text, desk, seat, count),
        Some("threads") => {
            let each = u32_at(line, 3).unwrap_or(0);
            let (seat, answered) = ask_in_threads(rt, desk, seat, 0, count, each);
            let told = write!(text, "{answered} answered").ok();
            (seat, told)
        }
        _ => {
            let told = ask_line(rt, text, desk, &mut seat, line);
            (seat, told)
        }
    }
}

/// `split SEAT PARTS`.
fn split(text: &mut String, desk: &Desk, seats: &mut Vec<CppcSeat>, line: &str) -> Option<()>
    requires { AreSeats desk.now.table.shared.table_id seats.old.items 65536 }
    ensures { AreSeats desk.now.table.shared.table_id seats.new.items 65536 }
{
    let (number, parts) = (u32_at(line, 1)?, u32_at(line, 2)?);
    if seats.len() == seats.capacity() {
        return None;
    }
    let mut seat = taken(desk, seats, number)?;
    if parts == 0 || parts >= seat.parts() {
        put(desk, seats, seat);
        return None;
    }
    let new = desk.split(&mut seat, parts);
    let told = put_seat(text, &seat);
    put(desk, seats, seat);
    match new {
        Ok(new) => {
            let more = text.push_str(", ").ok().and(put_seat(text, &new));
            put(desk, seats, new);
            told.and(more)
        }
        Err(CppcSplitFault::Many { made }) => write!(text, ", many {made}").ok(),
    }
}

/// `join SEAT OTHER`.
fn join(text: &mut String, desk: &Desk, seats: &mut Vec<CppcSeat>, line: &str) -> Option<()>
    requires { AreSeats desk.now.table.shared.table_id seats.old.items 65536 }
    ensures { AreSeats desk.now.table.shared.table_id seats.new.items 65536 }
{
    let (number, other) = (u32_at(line, 1)?, u32_at(line, 2)?);
    let seat = taken(desk, seats, number)?;
    let Some(other) = taken(desk, seats, other) else {
        put(desk, seats, seat);
        return None;
    };
    let seat = desk.join(seat, other);
    let told = put_seat(text, &seat);
    put(desk, seats, seat);
    told
}

/// Makes the call of a line, and tells what it is told.
pub(crate) fn play<R: Threads + Wait + Sync>(
    rt: &R,
    text: &mut String,
    desk: &Desk,
    seats: &mut Vec<CppcSeat>,
    line: &str,
) -> Option<()>
    requires { AreSeats desk.now.table.shared.table_id seats.old.items 65536 }
    ensures { AreSeats desk.now.table.shared.table_id seats.new.items 65536 }
{
    match word_at(line, 0)? {
        "split" => split(text, desk, seats, line),
        "join" => join(text, desk, seats, line),
        _ => {
            let seat = taken(desk, seats, u32_at(line, 1)?)?;
            let (seat, told) = call(rt, text, desk, seat, line);
            put(desk, seats, seat);
            told
        }
    }
}
