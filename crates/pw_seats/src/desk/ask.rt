ghost use Rattle.std.specs.Prelude.{◌≡◌};
ghost use Rattle.pw_cppc_desk.specs.Owning.{Owns};
ghost use Rattle.pw_seats.specs.DeskSeats.{parts_of};

use crate::desk::seats::Desk;
use pw_cppc::CppcRequest;
use pw_cppc_desk::{CppcDone, CppcSeat, CppcSplitFault, CppcTry};
use pw_machines::{u32_at, word_at};
use std::sync::Wait;

/// The request of a line: `desired CPU VALUE`, `minimum CPU VALUE` or `maximum CPU VALUE` behind its first
/// two words.
pub(crate) fn request_of(line: &str) -> Option<CppcRequest> {
    let (cpu, value) = (u32_at(line, 3)?, u32_at(line, 4)?);
    match word_at(line, 2)? {
        "desired" => Some(CppcRequest::Desired { cpu, value }),
        "minimum" => Some(CppcRequest::Minimum { cpu, value }),
        "maximum" => Some(CppcRequest::Maximum { cpu, value }),
        _ => None,
    }
}

fn try_of(done: CppcDone) -> CppcTry {
    match done {
        CppcDone::Answer(reply) => CppcTry::Answer(reply),
        CppcDone::Full { capacity } => CppcTry::Full { capacity },
        CppcDone::RegisterFault { done } => CppcTry::RegisterFault { done },
        CppcDone::Stopped { at } => CppcTry::Stopped { at },
    }
}

/// Makes a request, which waits or gives up; None where there is no such processor.
pub(crate) fn ask<W: Wait>(
    rt: &W,
    desk: &Desk,
    seat: &mut CppcSeat,
    waits: bool,
    request: CppcRequest,
) -> Option<CppcTry>
    requires { Owns desk.now.table.shared.table_id seat.old }
    ensures owns { Owns desk.now.table.shared.table_id seat.new }
    ensures parts { parts_of seat.new ≡ parts_of seat.old }
{
    if !desk.plan().has(&request) {
        return None;
    }
    if waits {
        return Some(try_of(desk.request(rt, seat, request)));
    }
    Some(desk.try_request(seat, request))
}

/// Splits a part off and joins it back, so often. It ends earlier where no seat is made, and tells why.
pub(crate) fn rounds(
    text: &mut String,
    desk: &Desk,
    mut seat: CppcSeat,
    count: u32,
) -> (CppcSeat, Option<()>)
    requires owns { Owns desk.now.table.shared.table_id seat }
    ensures owns { Owns desk.now.table.shared.table_id result.0 }
    ensures parts { parts_of result.0 ≡ parts_of seat }
{
    for _round in 0..count {
        if seat.parts() < 2 {
            return (seat, None);
        }
        match desk.split(&mut seat, 1) {
            Ok(other) => seat = desk.join(seat, other),
            Err(CppcSplitFault::Many { made }) => {
                let told = write!(text, "many {made}").ok();
                return (seat, told);
            }
        }
    }
    let told = text.push_str("joined").ok();
    (seat, told)
}
