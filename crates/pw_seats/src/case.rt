ghost use Rattle.std.specs.Prelude.{◌≡◌, ◌≤◌};
ghost use Rattle.pw_turns.specs.Owning.{Owns};
ghost use Rattle.pw_seats.specs.Seats.{AreSeats, parts_of};

use crate::play::play;
use crate::replay::{Heard, all_agree};
use crate::seats::{Shared, gathered};
use crate::text::{put_entries, put_open_fault};
use pw_machines::{plan_of, u32_at};
use pw_plan::Plan;
use pw_regs::FailingRegisters;
use pw_turns::{Closed, Coordinator, Counted, Keeps, OpenFault, Seat};
use std::alloc::Global;
use std::sync::Wait;
use std::thread::Threads;

/// A case has so many seats at a time at most.
const MOST_SEATS: usize = 8;

/// The most entries that are written out.
const MOST_ENTRIES: usize = 8;

/// Registers with room for so many operations, as the second word says, which fail at the calls of the
/// words behind it.
fn registers_of(alloc: Global, opening: &str) -> Option<FailingRegisters> {
    let room = u32_at(opening, 1)?;
    let mut fails = Vec::new(alloc);
    for word in opening.split_whitespace().skip(2) {
        fails.push(word.parse::<u32>().ok()?).ok()?;
    }
    FailingRegisters::new(alloc, room, fails).ok()
}

/// What the calls of lines tell, each in a line.
fn play_all<R: Threads + Wait + Sync, K: Keeps + Sync>(
    rt: &R,
    text: &mut String,
    alloc: Global,
    heard: &mut Vec<Heard>,
    shared: &Shared<K>,
    seats: &mut Vec<Seat>,
    lines: &str,
) -> Option<()>
    requires { AreSeats shared.now.table.shared.table_id seats.old.items 65536 }
    ensures { AreSeats shared.now.table.shared.table_id seats.new.items 65536 }
{
    for line in lines.lines() {
        if !line.is_empty() && !line.starts_with("#") {
            write!(text, "\n  {line} -> ").ok()?;
            play(rt, text, alloc, heard, shared, seats, line)?;
        }
    }
    Some(())
}

/// What a closed coordinator leaves.
fn put_closed(
    text: &mut String,
    alloc: Global,
    closed: &Closed<FailingRegisters>,
    heard: &[Heard],
) -> Option<()> {
    let sealed = closed.sealed();
    let entries = sealed.entries();
    let count = entries.len();
    let ops = closed.regs().log().len();
    let agree = all_agree(alloc, sealed.plan(), entries, heard)?;
    write!(text, "\n  close -> {count} entries, all agree {agree}").ok()?;
    if count > MOST_ENTRIES {
        return Some(());
    }
    write!(text, ", {ops} operations").ok()?;
    put_entries(text, entries)
}

/// Makes the calls of the lines, and joins the seats.
fn played<R: Threads + Wait + Sync, K: Keeps + Sync>(
    rt: &R,
    text: &mut String,
    alloc: Global,
    heard: &mut Vec<Heard>,
    shared: &Shared<K>,
    seat: Seat,
    lines: &str,
) -> (Seat, Option<()>)
    requires owns { Owns shared.now.table.shared.table_id seat }
    requires alone { parts_of seat ≡ 65536 }
    ensures owns { Owns shared.now.table.shared.table_id result.0 }
    ensures alone { parts_of result.0 ≡ 65536 }
{
    let Ok(mut seats) = Vec::with_capacity(alloc, MOST_SEATS) else {
        return (seat, None);
    };
    seats.push_reserved(seat);
    let told = play_all(rt, text, alloc, heard, shared, &mut seats, lines);
    (gathered(shared, seats), told)
}

/// Makes the calls of the lines, and closes the coordinator.
fn played_to_close<R: Threads + Wait + Sync>(
    rt: &R,
    text: &mut String,
    alloc: Global,
    shared: Shared,
    seat: Seat,
    lines: &str,
) -> Option<()>
    requires owns { Owns shared.table.shared.table_id seat }
    requires alone { parts_of seat ≡ 65536 }
{
    let mut heard = Vec::new(alloc);
    let (seat, told) = played(rt, text, alloc, &mut heard, &shared, seat, lines);
    let closed = shared.close(seat);
    let rest = put_closed(text, alloc, &closed, heard.as_slice());
    drop(closed);
    told.and(rest)
}

/// What a released coordinator leaves.
fn put_released(text: &mut String, seen: u64, ops: usize) -> Option<()> {
    write!(text, "\n  release -> {seen} entries seen").ok()?;
    if seen > MOST_ENTRIES as u64 {
        return Some(());
    }
    write!(text, ", {ops} operations").ok()
}

/// Makes the calls of the lines, and takes the registers of the coordinator without end.
fn played_to_release<R: Threads + Wait + Sync>(
    rt: &R,
    text: &mut String,
    alloc: Global,
    shared: Shared<Counted>,
    seat: Seat,
    lines: &str,
) -> Option<()>
    requires owns { Owns shared.table.shared.table_id seat }
    requires alone { parts_of seat ≡ 65536 }
{
    let mut heard = Vec::new(alloc);
    let (seat, told) = played(rt, text, alloc, &mut heard, &shared, seat, lines);
    let seen = seat.seen();
    let regs = shared.release(seat);
    let rest = put_released(text, seen, regs.log().len());
    told.and(rest)
}

/// The plan of a machine, and the registers of an opening.
fn prepared(alloc: Global, machine: &str, opening: &str) -> Option<(Plan, FailingRegisters)> {
    let plan = plan_of(alloc, machine).ok()?;
    match registers_of(alloc, opening) {
        Some(regs) => Some((plan, regs)),
        None => {
            drop(plan);
            None
        }
    }
}

/// Why there is no coordinator.
fn not_opened(text: &mut String, why: OpenFault<FailingRegisters>) -> Option<()> {
    let told = put_open_fault(text, &why);
    drop(why);
    told
}

/// `open CAPACITY ROOM FAILS ..`, and lines of calls.
fn opened<R: Threads + Wait + Sync>(
    rt: &R,
    text: &mut String,
    alloc: Global,
    machine: &str,
    opening: &str,
    lines: &str,
) -> Option<()> {
    let capacity = u32_at(opening, 0)?;
    if capacity > 65536 {
        return None;
    }
    let (plan, regs) = prepared(alloc, machine, opening)?;
    match Coordinator::open(alloc, plan, regs, capacity) {
        Err(why) => not_opened(text, why),
        Ok((shared, seat)) => {
            let told = text.push_str("opened").ok();
            let rest = played_to_close(rt, text, alloc, shared, seat, lines);
            told.and(rest)
        }
    }
}

/// `open endless ROOM FAILS ..`, and lines of calls.
fn opened_endless<R: Threads + Wait + Sync>(
    rt: &R,
    text: &mut String,
    alloc: Global,
    machine: &str,
    opening: &str,
    lines: &str,
) -> Option<()> {
    let (plan, regs) = prepared(alloc, machine, opening)?;
    match Coordinator::open_endless(alloc, plan, regs) {
        Err(why) => not_opened(text, why),
        Ok((shared, seat)) => {
            let told = text.push_str("opened").ok();
            let rest = played_to_release(rt, text, alloc, shared, seat, lines);
            told.and(rest)
        }
    }
}

/// What the calls of a case tell.
pub(crate) fn told<R: Threads + Wait + Sync>(rt: &R, alloc: Global, lines: &str) -> Option<String> {
    let (machine, calls) = lines.split_once("\nopen ")?;
    let mut text = String::new(alloc);
    let (opening, lines) = calls.split_once("\n").unwrap_or((calls, ""));
    write!(&mut text, "  open {opening} -> ").ok()?;
    if opening.starts_with("endless ") {
        opened_endless(rt, &mut text, alloc, machine, opening, lines)?;
    } else {
        opened(rt, &mut text, alloc, machine, opening, lines)?;
    }
    Some(text)
}
