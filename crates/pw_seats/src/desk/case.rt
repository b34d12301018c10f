ghost use Rattle.std.specs.Prelude.{◌≡◌};
ghost use Rattle.pw_cppc_desk.specs.Owning.{Owns};
ghost use Rattle.pw_seats.specs.DeskSeats.{AreSeats, parts_of};

use crate::desk::machine::plan_of;
use crate::desk::play::play;
use crate::desk::replay::{are_in_order, are_of};
use crate::desk::seats::{Desk, gathered};
use crate::desk::text::put_entry;
use pw_cppc::CppcPlan;
use pw_cppc_desk::{CppcClosed, CppcDesk, CppcOpenFault, CppcSeat};
use pw_machines::u32_at;
use pw_regs::FailingRegisters;
use std::alloc::Global;
use std::sync::Wait;
use std::thread::Threads;

/// A case has so many seats at a time at most.
const MOST_SEATS: usize = 4;

/// The most entries that are written out.
const MOST_ENTRIES: usize = 12;

/// Registers with room for so many operations, as the second word says, which fail at the calls of the
/// words behind it.
fn registers_of(alloc: Global, opening: &str) -> Option<FailingRegisters> {
    let room = u32_at(opening, 1)?;
    let mut fails = Vec::new(alloc);
    for word in opening.split_whitespace().skip(2) {
        fails.push(word.parse::<u32>().ok()?).ok()?;
    }
    FailingRegisters::new(alloc, room, fails).ok()
}

/// What a closed desk leaves. A long history is that of threads, and its order is free.
fn put_closed(
    text: &mut String,
    alloc: Global,
    closed: &CppcClosed<FailingRegisters>,
) -> Option<()> {
    let entries = closed.entries.as_slice();
    let log = closed.regs.log();
    let same = are_of(alloc, log, &closed.plan, entries)?;
    let count = entries.len();
    write!(text, "\n  close -> {count} entries, the same alone {same}").ok()?;
    if count > MOST_ENTRIES {
        let ordered = are_in_order(entries);
        return write!(text, ", in order {ordered}").ok();
    }
    let ops = log.len();
    write!(text, ", {ops} operations").ok()?;
    for entry in entries {
        put_entry(text, entry)?;
    }
    Some(())
}

/// What the calls of lines tell, each in a line.
fn play_all<R: Threads + Wait + Sync>(
    rt: &R,
    text: &mut String,
    desk: &Desk,
    seats: &mut Vec<CppcSeat>,
    lines: &str,
) -> Option<()>
    requires { AreSeats desk.now.table.shared.table_id seats.old.items 65536 }
    ensures { AreSeats desk.now.table.shared.table_id seats.new.items 65536 }
{
    for line in lines.lines() {
        if !line.is_empty() && !line.starts_with("#") {
            write!(text, "\n  {line} -> ").ok()?;
            play(rt, text, desk, seats, line)?;
        }
    }
    Some(())
}

/// Makes the calls of the lines, and joins the seats.
fn played_on<R: Threads + Wait + Sync>(
    rt: &R,
    text: &mut String,
    alloc: Global,
    desk: &Desk,
    seat: CppcSeat,
    lines: &str,
) -> (CppcSeat, Option<()>)
    requires owns { Owns desk.now.table.shared.table_id seat }
    requires alone { parts_of seat ≡ 65536 }
    ensures owns { Owns desk.now.table.shared.table_id result.0 }
    ensures alone { parts_of result.0 ≡ 65536 }
{
    let Ok(mut seats) = Vec::with_capacity(alloc, MOST_SEATS) else {
        return (seat, None);
    };
    seats.push_reserved(seat);
    let told = play_all(rt, text, desk, &mut seats, lines);
    (gathered(desk, seats), told)
}

/// Makes the calls of the lines, and closes the desk.
fn played<R: Threads + Wait + Sync>(
    rt: &R,
    text: &mut String,
    alloc: Global,
    desk: Desk,
    seat: CppcSeat,
    lines: &str,
) -> Option<()>
    requires owns { Owns desk.table.shared.table_id seat }
    requires alone { parts_of seat ≡ 65536 }
{
    let (seat, told) = played_on(rt, text, alloc, &desk, seat, lines);
    let closed = desk.close(seat);
    let rest = put_closed(text, alloc, &closed);
    drop(closed);
    told.and(rest)
}

/// Why there is no desk, with what is given back.
fn put_open_fault(text: &mut String, why: &CppcOpenFault<FailingRegisters>) -> Option<()> {
    match why {
        CppcOpenFault::RegisterFault { done, plan, regs } => {
            let cpus = plan.cpus.as_slice().len();
            let ops = regs.log().len();
            write!(
                text,
                "register fault after {done}; of {cpus} processors; {ops} operations"
            )
            .ok()
        }
        CppcOpenFault::Memory { .. } => None,
    }
}

/// The plan of a machine, and the registers of an opening.
fn prepared(alloc: Global, machine: &str, opening: &str) -> Option<(CppcPlan, FailingRegisters)> {
    let plan = plan_of(alloc, machine)?;
    match registers_of(alloc, opening) {
        Some(regs) => Some((plan, regs)),
        None => {
            drop(plan);
            None
        }
    }
}

/// `open CAPACITY ROOM FAILS ..`, and lines of calls.
fn opened<R: Threads + Wait + Sync>(
    rt: &R,
    text: &mut String,
    alloc: Global,
    machine: &str,
    calls: &str,
) -> Option<()> {
    let (opening, lines) = calls.split_once("\n").unwrap_or((calls, ""));
    let capacity = u32_at(opening, 0)?;
    if capacity > 65536 {
        return None;
    }
    write!(text, "  open {opening} -> ").ok()?;
    let (plan, regs) = prepared(alloc, machine, opening)?;
    match CppcDesk::open(alloc, plan, regs, capacity) {
        Err(why) => {
            let told = put_open_fault(text, &why);
            drop(why);
            told
        }
        Ok((desk, seat)) => {
            let told = text.push_str("opened").ok();
            let rest = played(rt, text, alloc, desk, seat, lines);
            told.and(rest)
        }
    }
}

/// What the calls of a case tell.
pub(crate) fn told<R: Threads + Wait + Sync>(rt: &R, alloc: Global, lines: &str) -> Option<String> {
    let (machine, calls) = lines.split_once("\nopen ")?;
    let mut text = String::new(alloc);
    opened(rt, &mut text, alloc, machine, calls)?;
    Some(text)
}
