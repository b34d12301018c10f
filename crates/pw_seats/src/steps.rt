//! Worked requests in two steps, by two seats of a coordinator without end whose operations are its
//! callers' to do.
ghost use Rattle.std.specs.Prelude.{◌≡◌, ◌<◌, ◌≤◌, IfErr, IfSome, vec_capacity};
ghost use Rattle.pw_plan.specs.Requests.{Has};
ghost use Rattle.pw_model.specs.Records.{record_count};
ghost use Rattle.pw_turns.specs.Owning.{Owns};
ghost use Rattle.pw_seats.specs.Steppers.{AreSteppers, IsStepper};
ghost use Rattle.pw_seats.specs.declared.steps.Stepper.TheVariants.{Between, Ready};

use crate::play::request_behind;
use crate::text::{put_done, put_try};
use pw_machines::{plan_of, put_outcome, u32_at, word_at};
use pw_plan::{Plan, Request};
use pw_turns::{
    Begun, Coordinator, EndlessCoordinator, NotBegun, RecordRoom, ReportedRegisters, Seat,
};
use std::alloc::Global;
use std::sync::Wait;

type Shared = EndlessCoordinator<ReportedRegisters>;

type Room = RecordRoom<ReportedRegisters>;

/// A seat with room for the records of a request, or a request of it that has begun.
pub(crate) enum Stepper {
    Ready { seat: Seat, room: Room },
    Between(Begun<ReportedRegisters>),
}

/// Whether a line waits, and its request: `ask SEAT REQUEST`, or `wait SEAT REQUEST`.
fn asked_at(shared: &Shared, line: &str) -> Option<(bool, Request)>
    ensures { IfSome result (λ asked. Has shared.now.plan asked.1) }
{
    let waits = match word_at(line, 0)? {
        "ask" => false,
        "wait" => true,
        _ => return None,
    };
    let request = request_behind(line)?;
    if !shared.plan().has(&request) {
        return None;
    }
    Some((waits, request))
}

/// Tells the reply and the operations of a request that has begun.
fn between(text: &mut String, begun: Begun<ReportedRegisters>) -> (Stepper, Option<()>)
    ensures { result.0 ≡ Between begun }
{
    let told = put_outcome(text, &begun.reply(), begun.ops());
    (Stepper::Between(begun), told)
}

/// Begins a request that doesn't wait, and tells its reply and operations, or why it didn't begin.
fn try_begin(
    text: &mut String,
    shared: &Shared,
    seat: Seat,
    room: Room,
    request: Request,
) -> (Stepper, Option<()>)
    requires stepper { IsStepper shared.now (Ready seat room) }
    requires has { Has shared.now.plan request }
    ensures { IsStepper shared.now result.0 }
{
    match shared.try_begin(seat, room, request) {
        Ok(begun) => between(text, begun),
        Err(NotBegun { seat, room, told }) => {
            let told = put_try(text, &told);
            (Stepper::Ready { seat, room }, told)
        }
    }
}

/// The same of a request that waits.
fn wait_begin<W: Wait>(
    rt: &W,
    text: &mut String,
    shared: &Shared,
    seat: Seat,
    room: Room,
    request: Request,
) -> (Stepper, Option<()>)
    requires stepper { IsStepper shared.now (Ready seat room) }
    requires has { Has shared.now.plan request }
    ensures { IsStepper shared.now result.0 }
{
    match shared.begin_request(rt, seat, room, request) {
        Ok(begun) => between(text, begun),
        Err(NotBegun { seat, room, told }) => {
            let told = put_done(text, &told);
            (Stepper::Ready { seat, room }, told)
        }
    }
}

/// Begins the request of a line.
fn begin<W: Wait>(
    rt: &W,
    text: &mut String,
    shared: &Shared,
    seat: Seat,
    room: Room,
    line: &str,
) -> (Stepper, Option<()>)
    requires { IsStepper shared.now (Ready seat room) }
    ensures { IsStepper shared.now result.0 }
{
    match asked_at(shared, line) {
        None => (Stepper::Ready { seat, room }, None),
        Some((false, request)) => try_begin(text, shared, seat, room, request),
        Some((true, request)) => wait_begin(rt, text, shared, seat, room, request),
    }
}

/// How so many operations ended: `finish SEAT` where all were done, `finish SEAT DONE` where a register
/// failed after these.
fn end_at(line: &str, count: usize) -> Option<Result<(), u32>>
    ensures { IfSome result (λ ended. IfErr ended (λ done. done < count)) }
{
    if word_at(line, 0)? != "finish" {
        return None;
    }
    let Some(done) = u32_at(line, 2) else {
        return Some(Ok(()));
    };
    if done as usize >= count {
        return None;
    }
    Some(Err(done))
}

/// Finishes a request as a line says, and tells what it is told.
fn finish(
    text: &mut String,
    shared: &Shared,
    begun: Begun<ReportedRegisters>,
    line: &str,
) -> (Stepper, Option<()>)
    requires { IsStepper shared.now (Between begun) }
    ensures { IsStepper shared.now result.0 }
{
    let Some(end) = end_at(line, begun.ops().len()) else {
        return (Stepper::Between(begun), None);
    };
    let (seat, room, told) = shared.finish_request(begun, end);
    let told = put_try(text, &told);
    (Stepper::Ready { seat, room }, told)
}

/// Makes the call of a line by a seat, and tells what it is told.
fn step<W: Wait>(
    rt: &W,
    text: &mut String,
    shared: &Shared,
    stepper: Stepper,
    line: &str,
) -> (Stepper, Option<()>)
    requires { IsStepper shared.now stepper }
    ensures { IsStepper shared.now result.0 }
{
    match stepper {
        Stepper::Ready { seat, room } => begin(rt, text, shared, seat, room, line),
        Stepper::Between(begun) => finish(text, shared, begun, line),
    }
}

/// Makes the call of a line, if it isn't empty: of seat 0 the first's, and else the second's.
fn play<W: Wait>(
    rt: &W,
    text: &mut String,
    shared: &Shared,
    pair: (Stepper, Stepper),
    line: &str,
) -> ((Stepper, Stepper), Option<()>)
    requires { AreSteppers shared.now pair }
    ensures { AreSteppers shared.now result.0 }
{
    if line.is_empty() {
        return (pair, Some(()));
    }
    let written = write!(text, "\n  {line} -> ").ok();
    let (first, second) = pair;
    if matches!(u32_at(line, 1), Some(0)) {
        let (first, told) = step(rt, text, shared, first, line);
        return ((first, second), written.and(told));
    }
    let (second, told) = step(rt, text, shared, second, line);
    ((first, second), written.and(told))
}

/// The seat. Of a request that has begun all operations are said to be done.
fn seat_of(shared: &Shared, stepper: Stepper) -> Seat
    requires { IsStepper shared.now stepper }
    ensures { Owns shared.now.table.shared.table_id result }
{
    match stepper {
        Stepper::Ready { seat, room } => {
            drop(room);
            seat
        }
        Stepper::Between(begun) => {
            let (seat, _, _) = shared.finish_begun(begun, Ok(()));
            seat
        }
    }
}

/// Makes the calls of the lines, and joins the seats.
fn play_all<W: Wait>(
    rt: &W,
    text: &mut String,
    shared: &Shared,
    mut pair: (Stepper, Stepper),
    lines: &str,
) -> (Seat, Option<()>)
    requires { AreSteppers shared.now pair }
    ensures { Owns shared.now.table.shared.table_id result.0 }
{
    let mut told = Some(());
    for line in lines.lines() {
        let (next, more) = play(rt, text, shared, pair, line);
        pair = next;
        told = told.and(more);
    }
    let (first, second) = pair;
    let seat = shared.join(seat_of(shared, first), seat_of(shared, second));
    (seat, told)
}

/// A seat that is split off.
fn split_off(alloc: Global, shared: &Shared, seat: &mut Seat) -> Option<Seat>
    requires { Owns shared.now.table.shared.table_id seat.old }
    ensures first { Owns shared.now.table.shared.table_id seat.new }
    ensures other { IfSome result (Owns shared.now.table.shared.table_id) }
{
    if seat.parts() < 2 {
        return None;
    }
    shared.split(alloc, seat, 1).ok()
}

/// Room for the records of both seats.
fn rooms(alloc: Global, shared: &Shared) -> Option<(Room, Room)>
    ensures first { IfSome result (λ r. record_count shared.now.plan ≤ vec_capacity r.0.records) }
    ensures second { IfSome result (λ r. record_count shared.now.plan ≤ vec_capacity r.1.records) }
{
    let room = shared.record_room(alloc).ok()?;
    let more = shared.record_room(alloc).ok()?;
    Some((room, more))
}

/// The first seat and one that is split off, ready for requests.
fn steppers(alloc: Global, shared: &Shared, mut seat: Seat) -> Option<(Stepper, Stepper)>
    requires { Owns shared.now.table.shared.table_id seat }
    ensures { IfSome result (AreSteppers shared.now) }
{
    let other = split_off(alloc, shared, &mut seat)?;
    let (room, more) = rooms(alloc, shared)?;
    let second = Stepper::Ready {
        seat: other,
        room: more,
    };
    Some((Stepper::Ready { seat, room }, second))
}

/// Releases a coordinator whose other seats are joined.
fn released(text: &mut String, shared: Shared, seat: Seat) -> Option<()>
    requires { Owns shared.table.shared.table_id seat }
{
    if !seat.alone() {
        drop(shared);
        drop(seat);
        return None;
    }
    let seen = seat.seen();
    drop(shared.release(seat));
    write!(text, "\n  release -> {seen} entries seen").ok()
}

/// Makes the calls of the lines by the first seat and one that is split off, and releases the coordinator.
fn played<W: Wait>(
    rt: &W,
    text: &mut String,
    alloc: Global,
    shared: Shared,
    seat: Seat,
    lines: &str,
) -> Option<()>
    requires { Owns shared.table.shared.table_id seat }
{
    match steppers(alloc, &shared, seat) {
        None => {
            drop(shared);
            None
        }
        Some(pair) => {
            let (seat, told) = play_all(rt, text, &shared, pair, lines);
            let rest = released(text, shared, seat);
            told.and(rest)
        }
    }
}

/// `open endless`, and lines of calls.
fn opened<W: Wait>(
    rt: &W,
    text: &mut String,
    alloc: Global,
    plan: Plan,
    lines: &str,
) -> Option<()> {
    match Coordinator::open_endless(alloc, plan, ReportedRegisters::new()) {
        Err(why) => {
            drop(why);
            None
        }
        Ok((shared, seat)) => played(rt, text, alloc, shared, seat, lines),
    }
}

/// What the calls of a case tell.
pub(crate) fn told<W: Wait>(rt: &W, alloc: Global, lines: &str) -> Option<String> {
    let (machine, calls) = lines.split_once("\nopen endless\n")?;
    let plan = plan_of(alloc, machine).ok()?;
    let mut text = String::new(alloc);
    let told = text.push_str("  open endless -> opened").ok();
    let rest = opened(rt, &mut text, alloc, plan, calls);
    told.and(rest)?;
    Some(text)
}
