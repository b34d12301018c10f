use pw_cppc::{CppcEntry, CppcReply};
use pw_cppc_desk::{CppcSeat, CppcTry};

/// A reply: `stands 40`, or `refused` and why.
fn put_reply(text: &mut String, reply: &CppcReply) -> Option<()> {
    match reply {
        CppcReply::Stands { value } => write!(text, "stands {value}").ok(),
        CppcReply::NoTable => text.push_str("refused no table").ok(),
        CppcReply::Unfit { why } => write!(text, "refused unfit {why}").ok(),
        CppcReply::OutOfRange { lowest, highest } => {
            write!(text, "refused out of range {lowest} {highest}").ok()
        }
        CppcReply::Crossed { bound } => write!(text, "refused crossed {bound}").ok(),
    }
}

/// What a request was told.
pub(crate) fn put_told(text: &mut String, told: &CppcTry) -> Option<()> {
    match told {
        CppcTry::Answer(reply) => put_reply(text, reply),
        CppcTry::Busy { holder } => write!(text, "busy seat {holder}").ok(),
        CppcTry::Full { capacity } => write!(text, "full {capacity}").ok(),
        CppcTry::RegisterFault { done } => write!(text, "register fault after {done}").ok(),
        CppcTry::Stopped { at } => write!(text, "stopped at {at}").ok(),
    }
}

/// A seat's number and parts.
pub(crate) fn put_seat(text: &mut String, seat: &CppcSeat) -> Option<()> {
    let (number, parts) = (seat.number(), seat.parts());
    write!(text, "seat {number} has {parts}").ok()
}

/// An entry: the seat, the request, and where a register failed.
pub(crate) fn put_entry(text: &mut String, entry: &CppcEntry) -> Option<()> {
    let CppcEntry {
        seat,
        cpu,
        code,
        argument,
        fault,
    } = *entry;
    let verb = match code {
        1 => "desired",
        2 => "minimum",
        _ => "maximum",
    };
    write!(text, "\n    seat {seat} {verb} {cpu} {argument}").ok()?;
    if fault == 0 {
        return Some(());
    }
    let done = fault - 1;
    write!(text, ": register fault after {done}").ok()
}
