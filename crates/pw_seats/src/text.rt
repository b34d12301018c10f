use pw_machines::{put_reply, put_request, request_in};
use pw_model::HistoryEntry;
use pw_regs::FailingRegisters;
use pw_turns::{Done, OpenFault, Seat, SplitFault, Try};

/// What a request was told that doesn't wait.
pub(crate) fn put_try(text: &mut String, told: &Try) -> Option<()> {
    match told {
        Try::Answer(reply) => put_reply(text, reply),
        Try::Busy { turn, holder } => write!(text, "busy turn {turn} seat {holder}").ok(),
        Try::Full { capacity } => write!(text, "full {capacity}").ok(),
        Try::RegisterFault { done } => write!(text, "register fault after {done}").ok(),
        Try::Stopped { at } => write!(text, "stopped at {at}").ok(),
    }
}

/// What a request was told that waited.
pub(crate) fn put_done(text: &mut String, told: &Done) -> Option<()> {
    match told {
        Done::Answer(reply) => put_reply(text, reply),
        Done::Full { capacity } => write!(text, "full {capacity}").ok(),
        Done::RegisterFault { done } => write!(text, "register fault after {done}").ok(),
        Done::Stopped { at } => write!(text, "stopped at {at}").ok(),
    }
}

/// A seat's number and parts.
pub(crate) fn put_seat(text: &mut String, seat: &Seat) -> Option<()> {
    let (number, parts) = (seat.number(), seat.parts());
    write!(text, "seat {number} has {parts}").ok()
}

/// Why no seat was made.
pub(crate) fn put_split_fault(text: &mut String, why: &SplitFault) -> Option<()> {
    match why {
        SplitFault::Many { made } => write!(text, "many {made}").ok(),
        SplitFault::Memory => None,
    }
}

/// Why there is no coordinator, with what is given back.
pub(crate) fn put_open_fault(text: &mut String, why: &OpenFault<FailingRegisters>) -> Option<()> {
    match why {
        OpenFault::RegisterFault { done, plan, regs } => {
            let cpus = plan.cpus.as_slice().len();
            let ops = regs.log().len();
            write!(
                text,
                "register fault after {done}; of {cpus} processors; {ops} operations"
            )
            .ok()
        }
        OpenFault::Memory { .. } => None,
    }
}

/// A line for each entry: the seat, the request, and where a register failed.
pub(crate) fn put_entries(text: &mut String, entries: &[HistoryEntry]) -> Option<()> {
    for entry in entries {
        let seat = entry.seat;
        write!(text, "\n    seat {seat} ").ok()?;
        put_request(text, &request_in(entry)?)?;
        if entry.fault > 0 {
            let done = entry.fault - 1;
            write!(text, ": register fault after {done}").ok()?;
        }
    }
    Some(())
}
