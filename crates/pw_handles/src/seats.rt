//! The calls on the handle of a seat.
ghost use Rattle.std.specs.Prelude.{◌≡◌, false};
ghost use Rattle.pw_embed.specs.Seats.{Asks, Counts, Lists, OpensSeat, Seals, Shows, TellsEntry};
ghost use Rattle.pw_handles.specs.Handled.{KeptSo, OfMachine};
ghost use Rattle.pw_handles.specs.Seated.{Becomes, JoinsKept, JoinsTo, OfSplit, OnSeat, OpensSeatOf};
ghost use Rattle.pw_handles.specs.Seated.{OweOneCoordinator, OweOneKept, SplitsTo};

use crate::handle::Handle;
use crate::kept::{Kept, empty_box, put_in, with};
use core::mem::replace_with;
use pw_embed::{EntryNumbers, OpNumbers, ReplyNumbers, RequestNumbers, Seat, SeatFacts, Status};
use std::alloc::Global;
use std::mem::replace;

/// The same with a coordinator that has ended, where this was its only seat.
fn sealed(seat: Seat, _: ()) -> (Seat, Status)
    ensures { Seals seat result.0 result.1 }
{
    seat.sealed()
}

/// The first seat of a new coordinator of a machine that is kept.
#[tactic(auto, unfolding(crate::specs::Handled::OfMachine))]
fn first(kept: &Kept, alloc: Global, entries: u32) -> Result<Seat, Status>
    ensures { OfMachine kept.now result (λ m r. OpensSeat m entries r) }
{
    match kept {
        Kept::Machine(machine) => Seat::open(alloc, machine, entries),
        _ => Err(Status::Kind),
    }
}

#[tactic(auto, unfolding(crate::specs::Seated::OfSplit))]
fn split(kept: &mut Kept, alloc: Global, parts: u32) -> Result<Seat, Status>
    ensures { OfSplit kept.old parts kept.new result }
{
    match kept {
        Kept::Seat(seat) => seat.split(alloc, parts),
        _ => Err(Status::Kind),
    }
}

/// What is kept of two seats: one, and nothing, where both are seats whose coordinator hasn't ended.
#[tactic(auto, unfolding(crate::specs::Seated::JoinsKept))]
fn joined(first: Kept, second: Kept) -> (Kept, Kept, Status)
    requires { OweOneKept first second }
    ensures { JoinsKept first second result.0 result.1 result.2 }
{
    match (first, second) {
        (Kept::Seat(first), Kept::Seat(second)) => match first.join(second) {
            Ok(seat) => (Kept::Seat(seat), Kept::Nothing, Status::Done),
            Err((first, second)) => (Kept::Seat(first), Kept::Seat(second), Status::Kind),
        },
        (first, second) => (first, second, Status::Kind),
    }
}

fn join(one: &mut Kept, two: &mut Kept) -> Status
    requires { OweOneKept one.old two.old }
    ensures { JoinsKept one.old two.old one.new two.new result }
{
    let (first, second, status) = joined(replace(one, Kept::Nothing), replace(two, Kept::Nothing));
    put_in(one, first);
    put_in(two, second);
    status
}

impl Handle {
    /// Opens it for the first seat of a new coordinator of the machine of another handle.
    pub fn open_seat(&mut self, alloc: Global, machine: &mut Handle, entries: u32) -> Status
        ensures kept { KeptSo machine.old machine.new }
        ensures opened { OpensSeatOf self.old machine.old entries self.new result }
    {
        if self.is_open() {
            return Status::Open;
        }
        if !machine.is_open() {
            return Status::Closed;
        }
        match first(machine.kept(), alloc, entries) {
            Ok(seat) => self.fill(alloc, Kept::Seat(seat)),
            Err(status) => status,
        }
    }

    /// Opens another handle for a new seat, with so many of this one's parts.
    pub fn split_seat(&mut self, alloc: Global, other: &mut Handle, parts: u32) -> Status
        ensures { SplitsTo self.old other.old parts self.new other.new result }
    {
        if other.is_open() {
            return Status::Open;
        }
        if !self.is_open() {
            return Status::Closed;
        }
        let Some(room) = empty_box(alloc) else {
            return Status::NoMemory;
        };
        let made = split(self.kept(), alloc, parts);
        other.fill_with(room, made)
    }

    /// Opens a closed handle for a seat, where there is one, in this box.
    #[tactic(auto, unfolding(crate::specs::Handled::Filled))]
    fn fill_with(&mut self, room: Box<Kept, Global>, made: Result<Seat, Status>) -> Status
        requires { self.old.place.full ≡ false }
        ensures { Becomes self.old self.new made result }
    {
        match made {
            Ok(seat) => {
                self.put(with(room, Kept::Seat(seat)));
                Status::Done
            }
            Err(status) => status,
        }
    }

    /// Makes the request that the numbers ask for by a seat.
    #[tactic(auto, unfolding(crate::specs::Handled::Handled, crate::specs::Seated::AtSeat))]
    pub fn ask_seat(&mut self, asked: &RequestNumbers, reply: &mut ReplyNumbers) -> Status
        ensures { OnSeat self.old self.new result (reply.new ≡ reply.old)
            (λ t u s. Asks t asked.now reply.old u reply.new s) }
    {
        if !self.is_open() {
            return Status::Closed;
        }
        match self.kept() {
            Kept::Seat(seat) => seat.ask(asked, reply),
            _ => Status::Kind,
        }
    }

    /// Writes the operations of a seat's last request, or those at the start, how many they are, and its
    /// number.
    #[tactic(auto, unfolding(crate::specs::Handled::Handled, crate::specs::Seated::AtSeat))]
    pub fn seat_ops(&mut self, out: &mut [OpNumbers], count: &mut u32, number: &mut u64) -> Status
        ensures { OnSeat self.old self.new result
            ((out.new ≡ out.old) × (count.new ≡ count.old) × (number.new ≡ number.old))
            (λ t u s. (u ≡ t) × Lists t (out.old, count.old, number.old) (out.new, count.new, number.new) s) }
    {
        if !self.is_open() {
            return Status::Closed;
        }
        match self.kept() {
            Kept::Seat(seat) => seat.ops(out, count, number),
            _ => Status::Kind,
        }
    }

    /// Tells what a seat knows.
    #[tactic(auto, unfolding(crate::specs::Handled::Handled, crate::specs::Seated::AtSeat))]
    pub fn tell_seat(&mut self, facts: &mut SeatFacts) -> Status
        ensures { OnSeat self.old self.new result (facts.new ≡ facts.old)
            (λ t u s. (u ≡ t) × Shows t facts.old facts.new s) }
    {
        if !self.is_open() {
            return Status::Closed;
        }
        match self.kept() {
            Kept::Seat(seat) => seat.tell(facts),
            _ => Status::Kind,
        }
    }

    /// Joins the seat of another handle into this one's. The other is closed then.
    pub fn join_seat(&mut self, alloc: Global, other: &mut Handle) -> Status
        requires { OweOneCoordinator self.old other.old }
        ensures { JoinsTo self.old other.old self.new other.new result }
    {
        if !self.is_open() {
            return Status::Closed;
        }
        let Some(mut two) = other.take(alloc) else {
            return Status::Closed;
        };
        let status = join(self.kept(), &mut two);
        other.put_left(two, status);
        status
    }

    /// Ends the coordinator of its only seat.
    #[tactic(auto, unfolding(crate::specs::Handled::Handled, crate::specs::Seated::AtSeat))]
    pub fn seal_seat(&mut self) -> Status
        ensures { OnSeat self.old self.new result (Unit {0}) Seals }
    {
        if !self.is_open() {
            return Status::Closed;
        }
        match self.kept() {
            Kept::Seat(seat) => replace_with(seat, (), sealed),
            _ => Status::Kind,
        }
    }

    /// Counts the entries of the history of a coordinator that has ended.
    #[tactic(auto, unfolding(crate::specs::Handled::Handled, crate::specs::Seated::AtSeat))]
    pub fn seat_entries(&mut self, count: &mut u32) -> Status
        ensures { OnSeat self.old self.new result (count.new ≡ count.old)
            (λ t u s. (u ≡ t) × Counts t count.old count.new s) }
    {
        if !self.is_open() {
            return Status::Closed;
        }
        match self.kept() {
            Kept::Seat(seat) => seat.entries(count),
            _ => Status::Kind,
        }
    }

    /// Tells the entry of this index of the history of a coordinator that has ended.
    #[tactic(auto, unfolding(crate::specs::Handled::Handled, crate::specs::Seated::AtSeat))]
    pub fn seat_entry(&mut self, index: u32, told: &mut EntryNumbers) -> Status
        ensures { OnSeat self.old self.new result (told.new ≡ told.old)
            (λ t u s. (u ≡ t) × TellsEntry t index told.old told.new s) }
    {
        if !self.is_open() {
            return Status::Closed;
        }
        match self.kept() {
            Kept::Seat(seat) => seat.entry(index, told),
            _ => Status::Kind,
        }
    }
}
