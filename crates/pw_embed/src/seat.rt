ghost use Rattle.std.specs.Prelude.{◌≡◌, IfErr, IfOk};
ghost use Rattle.pw_embed.specs.declared.seat.Seat.TheVariants.{Shared as shared};
ghost use Rattle.pw_embed.specs.declared.sharing.Sharing.{Sharing as sharing};
ghost use Rattle.pw_embed.specs.Seats.{AreOfOneSeat, Asks, Counts, IsFirstOf, IsNoFirst, JoinsSeats, Lists, OpensSeat};
ghost use Rattle.pw_embed.specs.Seats.{Seals, Shows, SplitsOff, TellsEntry};

use crate::entries::EntryNumbers;
use crate::registers::NoRegisters;
use crate::sharing::{SeatFacts, Sharing};
use crate::{FaultNumbers, Machine, OpNumbers, Planned, ReplyNumbers, RequestNumbers, Status};
use pw_plan::in_32_bits;
use pw_turns::Closed;
use std::alloc::Global;

/// A seat, and once its coordinator has ended, what that left.
#[derive(Drop)]
pub enum Seat {
    Shared(Sharing),
    Ended(Closed<NoRegisters>),
}

/// The first seat of a new coordinator of blocks with a plan, with room for so many entries.
fn open_on(alloc: Global, planned: &Planned, entries: u32) -> Result<Seat, Status>
    ensures opened { IfOk result (λ seat. (s : sharing) × (seat ≡ shared s)
        × IsFirstOf planned.now entries s) }
    ensures refused { IfErr result (λ s. IsNoFirst planned.now entries s) }
{
    if entries > 65536 {
        return Err(Status::Range);
    }
    let mut fault = FaultNumbers::NONE;
    let mut path = [0; 0];
    match planned.blocks.plan(alloc, &mut fault, &mut path) {
        Ok((plan, _notes)) => match Sharing::open(alloc, plan, entries) {
            Ok(sharing) => Ok(Seat::Shared(sharing)),
            Err(status) => Err(status),
        },
        Err(status) => Err(status),
    }
}

impl Seat {
    /// The first seat of a new coordinator of a machine's plan, with room for so many entries.
    #[tactic(auto, unfolding(crate::specs::Seats::OpensSeat))]
    pub fn open(alloc: Global, machine: &Machine, entries: u32) -> Result<Seat, Status>
        ensures { OpensSeat machine.now entries result }
    {
        match machine {
            Machine::Planned(planned) => open_on(alloc, planned, entries),
            _ => Err(Status::Kind),
        }
    }

    /// Makes the request that the numbers ask for, or gives up where another seat has what it needs.
    #[tactic(auto, unfolding(crate::specs::Seats::AtShared))]
    pub fn ask(&mut self, asked: &RequestNumbers, reply: &mut ReplyNumbers) -> Status
        ensures { Asks self.old asked.now reply.old self.new reply.new result }
    {
        match self {
            Seat::Shared(sharing) => sharing.ask(asked, reply),
            Seat::Ended(_) => Status::Kind,
        }
    }

    /// Writes the operations of the last request, or those at the start, how many they are, and the
    /// request's number.
    #[tactic(auto, unfolding(crate::specs::Seats::Lists))]
    pub fn ops(&self, out: &mut [OpNumbers], count: &mut u32, number: &mut u64) -> Status
        ensures { Lists self.now (out.old, count.old, number.old) (out.new, count.new, number.new) result }
    {
        match self {
            Seat::Shared(sharing) => sharing.ops(out, count, number),
            Seat::Ended(_) => Status::Kind,
        }
    }

    /// Tells what the seat knows.
    #[tactic(auto, unfolding(crate::specs::Seats::Shows))]
    pub fn tell(&self, facts: &mut SeatFacts) -> Status
        ensures { Shows self.now facts.old facts.new result }
    {
        match self {
            Seat::Shared(sharing) => {
                *facts = sharing.facts();
                Status::Done
            }
            Seat::Ended(_) => Status::Kind,
        }
    }

    /// Another seat, with so many of this one's parts.
    #[tactic(auto, unfolding(crate::specs::Seats::SplitsOff))]
    pub fn split(&mut self, alloc: Global, parts: u32) -> Result<Seat, Status>
        ensures { SplitsOff self.old parts self.new result }
    {
        match self {
            Seat::Shared(sharing) => match sharing.split(alloc, parts) {
                Ok(other) => Ok(Seat::Shared(other)),
                Err(status) => Err(status),
            },
            Seat::Ended(_) => Err(Status::Kind),
        }
    }

    /// One seat that has what both had, where neither has ended. They are seats of one coordinator.
    #[tactic(auto, unfolding(crate::specs::Seats::JoinsSeats))]
    pub fn join(self, other: Seat) -> Result<Seat, (Seat, Seat)>
        requires { AreOfOneSeat self other }
        ensures { JoinsSeats self other result }
    {
        match (self, other) {
            (Seat::Shared(first), Seat::Shared(second)) => Ok(Seat::Shared(first.join(second))),
            (first, second) => Err((first, second)),
        }
    }

    /// Ends the coordinator, where this is its only seat.
    #[tactic(auto, unfolding(crate::specs::Seats::Seals))]
    pub fn sealed(self) -> (Seat, Status)
        ensures { Seals self result.0 result.1 }
    {
        match self {
            Seat::Shared(sharing) => match sharing.close() {
                Ok(closed) => (Seat::Ended(closed), Status::Done),
                Err(sharing) => (Seat::Shared(sharing), Status::Seats),
            },
            Seat::Ended(closed) => (Seat::Ended(closed), Status::Kind),
        }
    }

    /// Counts the entries of the history of a coordinator that has ended.
    #[tactic(auto, unfolding(crate::specs::Seats::Counts))]
    pub fn entries(&self, count: &mut u32) -> Status
        ensures { Counts self.now count.old count.new result }
    {
        match self {
            Seat::Shared(_) => Status::Kind,
            Seat::Ended(closed) => {
                *count = in_32_bits(closed.sealed().entries().len());
                Status::Done
            }
        }
    }

    /// Tells the entry of this index of the history of a coordinator that has ended.
    #[tactic(auto, unfolding(crate::specs::Seats::TellsEntry, crate::specs::Seats::ToldEntry))]
    pub fn entry(&self, index: u32, entry: &mut EntryNumbers) -> Status
        ensures { TellsEntry self.now index entry.old entry.new result }
    {
        match self {
            Seat::Shared(_) => Status::Kind,
            Seat::Ended(closed) => match closed.sealed().entries().get(index as usize) {
                Some(found) => {
                    *entry = EntryNumbers::of(found);
                    Status::Done
                }
                None => Status::Range,
            },
        }
    }
}
