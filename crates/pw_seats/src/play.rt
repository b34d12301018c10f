ghost use Rattle.std.specs.Prelude.{◌≡◌, ◌<◌};
ghost use Rattle.pw_turns.specs.Owning.{Owns};
ghost use Rattle.pw_seats.specs.Seats.{AreSeats, parts_of};

use crate::ask::{rounds, try_ask, wait_ask};
use crate::crew::{Crew, ask_in_threads};
use crate::replay::Heard;
use crate::seats::{Shared, put, taken};
use crate::text::{put_seat, put_split_fault};
use pw_machines::{request_of, u32_at, word_at};
use pw_turns::{Keeps, Seat};
use std::alloc::Global;
use std::sync::Wait;
use std::thread::Threads;

/// Has so many processors, from the first on, make their requests in threads.
fn threads<R: Threads + Wait + Sync, K: Keeps + Sync>(
    rt: &R,
    text: &mut String,
    alloc: Global,
    heard: &mut Vec<Heard>,
    shared: &Shared<K>,
    seat: Seat,
    members: u32,
    rounds: u32,
) -> (Seat, Option<()>)
    requires { Owns shared.now.table.shared.table_id seat }
    ensures owns { Owns shared.now.table.shared.table_id result.0 }
    ensures parts { parts_of result.0 ≡ parts_of seat }
{
    let Crew { seat, heard: all } = ask_in_threads(rt, alloc, shared, seat, 0, members, rounds);
    let told = put_heard(text, heard, all);
    (seat, told)
}

fn put_heard(text: &mut String, heard: &mut Vec<Heard>, all: Option<Vec<Heard>>) -> Option<()> {
    let all = all?;
    heard.extend_from_slice(all.as_slice()).ok()?;
    let count = all.len();
    write!(text, "{count} answered").ok()
}

/// What a line asks of one seat: `ask SEAT REQUEST`, `wait SEAT REQUEST`, `rounds SEAT COUNT` or
/// `threads SEAT MEMBERS ROUNDS`.
fn call<R: Threads + Wait + Sync, K: Keeps + Sync>(
    rt: &R,
    text: &mut String,
    alloc: Global,
    heard: &mut Vec<Heard>,
    shared: &Shared<K>,
    mut seat: Seat,
    line: &str,
) -> (Seat, Option<()>)
    requires { Owns shared.now.table.shared.table_id seat }
    ensures owns { Owns shared.now.table.shared.table_id result.0 }
    ensures parts { parts_of result.0 ≡ parts_of seat }
{
    let count = u32_at(line, 2);
    match word_at(line, 0) {
        Some("rounds") => rounds(text, alloc, shared, seat, count.unwrap_or(0)),
        Some("threads") => {
            let each = u32_at(line, 3).unwrap_or(0);
            threads(
                rt,
                text,
                alloc,
                heard,
                shared,
                seat,
                count.unwrap_or(0),
                each,
            )
        }
        Some("wait") => {
            let told = wait_line(rt, text, heard, shared, &mut seat, line);
            (seat, told)
        }
        _ => {
            let told = ask_line(text, heard, shared, &mut seat, line);
            (seat, told)
        }
    }
}

/// The request behind the first two words of a line.
pub(crate) fn request_behind(line: &str) -> Option<pw_plan::Request> {
    let (_, rest) = line.split_once(" ")?;
    let (_, request) = rest.split_once(" ")?;
    request_of(request)
}

fn ask_line<K: Keeps>(
    text: &mut String,
    heard: &mut Vec<Heard>,
    shared: &Shared<K>,
    seat: &mut Seat,
    line: &str,
) -> Option<()>
    requires { Owns shared.now.table.shared.table_id seat.old }
    ensures owns { Owns shared.now.table.shared.table_id seat.new }
    ensures parts { parts_of seat.new ≡ parts_of seat.old }
{
    if word_at(line, 0)? != "ask" {
        return None;
    }
    try_ask(text, heard, shared, seat, request_behind(line)?)
}

fn wait_line<W: Wait, K: Keeps>(
    rt: &W,
    text: &mut String,
    heard: &mut Vec<Heard>,
    shared: &Shared<K>,
    seat: &mut Seat,
    line: &str,
) -> Option<()>
    requires { Owns shared.now.table.shared.table_id seat.old }
    ensures owns { Owns shared.now.table.shared.table_id seat.new }
    ensures parts { parts_of seat.new ≡ parts_of seat.old }
{
    wait_ask(rt, text, heard, shared, seat, request_behind(line)?)
}

/// `split SEAT PARTS`.
fn split<K: Keeps>(
    text: &mut String,
    alloc: Global,
    shared: &Shared<K>,
    seats: &mut Vec<Seat>,
    line: &str,
) -> Option<()>
    requires { AreSeats shared.now.table.shared.table_id seats.old.items 65536 }
    ensures { AreSeats shared.now.table.shared.table_id seats.new.items 65536 }
{
    let (number, parts) = (u32_at(line, 1)?, u32_at(line, 2)?);
    if seats.len() == seats.capacity() {
        return None;
    }
    let mut seat = taken(shared, seats, number)?;
    if parts == 0 || parts >= seat.parts() {
        put(shared, seats, seat);
        return None;
    }
    let new = shared.split(alloc, &mut seat, parts);
    let mut told = put_seat(text, &seat);
    put(shared, seats, seat);
    match new {
        Ok(new) => {
            told = told.and(text.push_str(", ").ok()).and(put_seat(text, &new));
            put(shared, seats, new);
            told
        }
        Err(why) => {
            text.push_str(", ").ok()?;
            put_split_fault(text, &why)
        }
    }
}

/// `join SEAT OTHER`.
fn join<K: Keeps>(
    text: &mut String,
    shared: &Shared<K>,
    seats: &mut Vec<Seat>,
    line: &str,
) -> Option<()>
    requires { AreSeats shared.now.table.shared.table_id seats.old.items 65536 }
    ensures { AreSeats shared.now.table.shared.table_id seats.new.items 65536 }
{
    let (number, other) = (u32_at(line, 1)?, u32_at(line, 2)?);
    let seat = taken(shared, seats, number)?;
    let Some(other) = taken(shared, seats, other) else {
        put(shared, seats, seat);
        return None;
    };
    let seat = shared.join(seat, other);
    let told = put_seat(text, &seat);
    put(shared, seats, seat);
    told
}

/// Makes the call of a line, and tells what it is told.
pub(crate) fn play<R: Threads + Wait + Sync, K: Keeps + Sync>(
    rt: &R,
    text: &mut String,
    alloc: Global,
    heard: &mut Vec<Heard>,
    shared: &Shared<K>,
    seats: &mut Vec<Seat>,
    line: &str,
) -> Option<()>
    requires { AreSeats shared.now.table.shared.table_id seats.old.items 65536 }
    ensures { AreSeats shared.now.table.shared.table_id seats.new.items 65536 }
{
    match word_at(line, 0)? {
        "split" => split(text, alloc, shared, seats, line),
        "join" => join(text, shared, seats, line),
        _ => {
            let seat = taken(shared, seats, u32_at(line, 1)?)?;
            let (seat, told) = call(rt, text, alloc, heard, shared, seat, line);
            put(shared, seats, seat);
            told
        }
    }
}
