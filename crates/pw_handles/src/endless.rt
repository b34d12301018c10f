//! The calls on the handle of a seat of a coordinator without end.
ghost use Rattle.std.specs.Prelude.{◌≡◌, false};
ghost use Rattle.pw_embed.specs.Endless.{BeginsAt, EndsAt, OpensEndless, Shows, listed};
ghost use Rattle.pw_embed.specs.Operations.{Listed};
ghost use Rattle.pw_handles.specs.Handled.{KeptSo, OfMachine};
ghost use Rattle.pw_handles.specs.Endless.{Becomes, JoinsEndless, JoinsKept, OfSplit, OnEndless};
ghost use Rattle.pw_handles.specs.Endless.{OpensEndlessOf, OweOneEndless, OwesOne, SplitsEndless};

use crate::handle::Handle;
use crate::kept::{Kept, empty_box, put_in, with};
use pw_embed::{Endless, OpNumbers, ReplyNumbers, RequestNumbers, SeatFacts, Status};
use std::alloc::Global;
use std::mem::replace;

/// The first seat of a new coordinator of a machine that is kept.
#[tactic(auto, unfolding(crate::specs::Handled::OfMachine))]
fn first(kept: &Kept, alloc: Global) -> Result<Endless, Status>
    ensures { OfMachine kept.now result OpensEndless }
{
    match kept {
        Kept::Machine(machine) => Endless::open(alloc, machine),
        _ => Err(Status::Kind),
    }
}

#[tactic(auto, unfolding(crate::specs::Endless::OfSplit))]
fn split(kept: &mut Kept, alloc: Global, parts: u32) -> Result<Endless, Status>
    ensures { OfSplit kept.old parts kept.new result }
{
    match kept {
        Kept::Endless(seat) => seat.split(alloc, parts),
        _ => Err(Status::Kind),
    }
}

/// What is kept of two seats: one, and nothing, where both can be joined.
#[tactic(auto, unfolding(crate::specs::Endless::JoinsKept))]
fn joined(first: Kept, second: Kept) -> (Kept, Kept, Status)
    requires { OwesOne first second }
    ensures { JoinsKept first second result.0 result.1 result.2 }
{
    match (first, second) {
        (Kept::Endless(first), Kept::Endless(second)) => match first.join(second) {
            Ok(seat) => (Kept::Endless(seat), Kept::Nothing, Status::Done),
            Err((first, second)) => (Kept::Endless(first), Kept::Endless(second), Status::Begun),
        },
        (first, second) => (first, second, Status::Kind),
    }
}

fn join(one: &mut Kept, two: &mut Kept) -> Status
    requires { OwesOne one.old two.old }
    ensures { JoinsKept one.old two.old one.new two.new result }
{
    let (first, second, status) = joined(replace(one, Kept::Nothing), replace(two, Kept::Nothing));
    put_in(one, first);
    put_in(two, second);
    status
}

impl Handle {
    /// Opens it for the first seat of a new coordinator without end of the machine of another handle.
    pub fn open_endless(&mut self, alloc: Global, machine: &mut Handle) -> Status
        ensures kept { KeptSo machine.old machine.new }
        ensures opened { OpensEndlessOf self.old machine.old self.new result }
    {
        if self.is_open() {
            return Status::Open;
        }
        if !machine.is_open() {
            return Status::Closed;
        }
        match first(machine.kept(), alloc) {
            Ok(seat) => self.fill(alloc, Kept::Endless(seat)),
            Err(status) => status,
        }
    }

    /// Opens another handle for a new seat, with so many of this one's parts.
    pub fn split_endless(&mut self, alloc: Global, other: &mut Handle, parts: u32) -> Status
        ensures { SplitsEndless self.old other.old parts self.new other.new result }
    {
        if other.is_open() {
            return Status::Open;
        }
        if !self.is_open() {
            return Status::Closed;
        }
        let Some(room) = empty_box(alloc) else {
            return Status::NoMemory;
        };
        let made = split(self.kept(), alloc, parts);
        other.fill_endless(room, made)
    }

    /// Opens a closed handle for a seat, where there is one, in this box.
    #[tactic(auto, unfolding(crate::specs::Handled::Filled))]
    fn fill_endless(&mut self, room: Box<Kept, Global>, made: Result<Endless, Status>) -> Status
        requires { self.old.place.full ≡ false }
        ensures { Becomes self.old self.new made result }
    {
        match made {
            Ok(seat) => {
                self.put(with(room, Kept::Endless(seat)));
                Status::Done
            }
            Err(status) => status,
        }
    }

    /// Begins the request that the numbers ask for.
    #[tactic(auto, unfolding(crate::specs::Handled::Handled, crate::specs::Endless::AtEndless))]
    pub fn begin_endless(&mut self, asked: &RequestNumbers, reply: &mut ReplyNumbers) -> Status
        ensures { OnEndless self.old self.new result (reply.new ≡ reply.old)
            (λ t u s. BeginsAt t asked.now reply.old u reply.new s) }
    {
        if !self.is_open() {
            return Status::Closed;
        }
        match self.kept() {
            Kept::Endless(seat) => seat.begin(asked, reply),
            _ => Status::Kind,
        }
    }

    /// Writes the operations of the request that it has begun, or those at the start, and how many they
    /// are.
    #[tactic(auto, unfolding(crate::specs::Handled::Handled, crate::specs::Endless::AtEndless))]
    pub fn endless_ops(&mut self, out: &mut [OpNumbers], count: &mut u32) -> Status
        ensures { OnEndless self.old self.new result ((out.new ≡ out.old) × (count.new ≡ count.old))
            (λ t u s. (u ≡ t) × Listed (listed t) out.old out.new count.new s) }
    {
        if !self.is_open() {
            return Status::Closed;
        }
        match self.kept() {
            Kept::Endless(seat) => seat.ops(out, count),
            _ => Status::Kind,
        }
    }

    /// Finishes the request that it has begun, with so many of its operations done.
    #[tactic(auto, unfolding(crate::specs::Handled::Handled, crate::specs::Endless::AtEndless))]
    pub fn finish_endless(&mut self, done: u32) -> Status
        ensures { OnEndless self.old self.new result (Unit {0}) (λ t u s. EndsAt t done u s) }
    {
        if !self.is_open() {
            return Status::Closed;
        }
        match self.kept() {
            Kept::Endless(seat) => seat.finish(done),
            _ => Status::Kind,
        }
    }

    /// Tells what a seat knows.
    #[tactic(auto, unfolding(crate::specs::Handled::Handled, crate::specs::Endless::AtEndless))]
    pub fn tell_endless(&mut self, facts: &mut SeatFacts) -> Status
        ensures { OnEndless self.old self.new result (facts.new ≡ facts.old)
            (λ t u s. (u ≡ t) × Shows t facts.old facts.new s) }
    {
        if !self.is_open() {
            return Status::Closed;
        }
        match self.kept() {
            Kept::Endless(seat) => seat.tell(facts),
            _ => Status::Kind,
        }
    }

    /// Joins the seat of another handle into this one's. The other is closed then.
    pub fn join_endless(&mut self, alloc: Global, other: &mut Handle) -> Status
        requires { OweOneEndless self.old other.old }
        ensures { JoinsEndless self.old other.old self.new other.new result }
    {
        if !self.is_open() {
            return Status::Closed;
        }
        let Some(mut two) = other.take(alloc) else {
            return Status::Closed;
        };
        let status = join(self.kept(), &mut two);
        other.put_left(two, status);
        status
    }
}
