ghost use Rattle.std.specs.Prelude.{◌≡◌, ◌<◌};
ghost use Rattle.pw_turns.specs.Owning.{Owns};
ghost use Rattle.pw_seats.specs.Seats.{parts_of};

use crate::replay::Heard;
use crate::seats::Shared;
use crate::text::{put_done, put_split_fault, put_try};
use pw_base::OpenGate;
use pw_plan::Request;
use pw_turns::{Done, Keeps, Seat, Try};
use std::alloc::Global;
use std::sync::Wait;

/// Notes a reply.
fn hear(heard: &mut Vec<Heard>, seat: &Seat, reply: pw_model::Reply) -> Option<()> {
    heard
        .push(Heard {
            seat: seat.number(),
            reply,
        })
        .ok()
}

/// Tells what a request is told that doesn't wait.
pub(crate) fn try_ask<K: Keeps>(
    text: &mut String,
    heard: &mut Vec<Heard>,
    shared: &Shared<K>,
    seat: &mut Seat,
    request: Request,
) -> Option<()>
    requires { Owns shared.now.table.shared.table_id seat.old }
    ensures owns { Owns shared.now.table.shared.table_id seat.new }
    ensures parts { parts_of seat.new ≡ parts_of seat.old }
{
    if !shared.plan().has(&request) {
        return None;
    }
    let told = shared.try_request(seat, request);
    if let Try::Answer(reply) = told {
        hear(heard, seat, reply)?;
    }
    put_try(text, &told)
}

/// Makes a request that waits, and notes its reply.
pub(crate) fn ask<W: Wait, K: Keeps>(
    rt: &W,
    heard: &mut Vec<Heard>,
    shared: &Shared<K>,
    seat: &mut Seat,
    request: Request,
) -> Option<Done>
    requires { Owns shared.now.table.shared.table_id seat.old }
    ensures owns { Owns shared.now.table.shared.table_id seat.new }
    ensures parts { parts_of seat.new ≡ parts_of seat.old }
{
    if !shared.plan().has(&request) {
        return None;
    }
    let told = shared.request(rt, seat, request, &OpenGate);
    if let Done::Answer(reply) = told {
        hear(heard, seat, reply)?;
    }
    Some(told)
}

/// Tells what a request is told that waits.
pub(crate) fn wait_ask<W: Wait, K: Keeps>(
    rt: &W,
    text: &mut String,
    heard: &mut Vec<Heard>,
    shared: &Shared<K>,
    seat: &mut Seat,
    request: Request,
) -> Option<()>
    requires { Owns shared.now.table.shared.table_id seat.old }
    ensures owns { Owns shared.now.table.shared.table_id seat.new }
    ensures parts { parts_of seat.new ≡ parts_of seat.old }
{
    let told = ask(rt, heard, shared, seat, request)?;
    put_done(text, &told)
}

/// Splits a part off and joins it back, so often. It ends earlier where no seat is made, and tells why.
pub(crate) fn rounds<K: Keeps>(
    text: &mut String,
    alloc: Global,
    shared: &Shared<K>,
    mut seat: Seat,
    count: u32,
) -> (Seat, Option<()>)
    requires owns { Owns shared.now.table.shared.table_id seat }
    ensures owns { Owns shared.now.table.shared.table_id result.0 }
    ensures parts { parts_of result.0 ≡ parts_of seat }
{
    for _round in 0..count {
        if seat.parts() < 2 {
            return (seat, None);
        }
        match shared.split(alloc, &mut seat, 1) {
            Ok(other) => seat = shared.join(seat, other),
            Err(why) => {
                let told = put_split_fault(text, &why);
                return (seat, told);
            }
        }
    }
    let told = text.push_str("joined").ok();
    (seat, told)
}
