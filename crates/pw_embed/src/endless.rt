ghost use Rattle.std.specs.Prelude.{◌≡◌, IfErr, IfOk};
ghost use Rattle.pw_embed.specs.declared.endless.Endless.TheVariants.{Resting as rests};
ghost use Rattle.pw_embed.specs.declared.resting.Resting.{Resting as resting};
ghost use Rattle.pw_embed.specs.Endless.{AreOfOneSeat, BeginsAt, EndsAt, IsFirstOf, IsNoFirst, JoinsSeats, OpensEndless};
ghost use Rattle.pw_embed.specs.Endless.{Shows, SplitsOff, is_begun, listed};
ghost use Rattle.pw_embed.specs.Operations.{Listed};
ghost use Rattle.pw_embed.specs.inner.Starting.{MayStart, StartsAt};

use crate::ongoing::Ongoing;
use crate::resting::Resting;
use crate::told::{put_reply, status_of};
use crate::{
    FaultNumbers, Machine, OpNumbers, Planned, ReplyNumbers, RequestNumbers, SeatFacts, Status,
};
use core::mem::replace_with;
use pw_plan::Request;
use pw_turns::{NotBegun, Try};
use std::alloc::Global;

/// A seat of a coordinator without end: between its requests, or with one that it has begun.
#[derive(Drop)]
pub enum Endless {
    Resting(Resting),
    Ongoing(Ongoing),
}

/// The first seat of a new coordinator of blocks with a plan.
fn open_on(alloc: Global, planned: &Planned) -> Result<Endless, Status>
    ensures opened { IfOk result (λ e. (f : resting) × (e ≡ rests f) × IsFirstOf planned.now f) }
    ensures refused { IfErr result (λ s. IsNoFirst planned.now s) }
{
    let mut fault = FaultNumbers::NONE;
    let mut path = [0; 0];
    match planned.blocks.plan(alloc, &mut fault, &mut path) {
        Ok((plan, _notes)) => match Resting::open(alloc, plan) {
            Ok(resting) => Ok(Endless::Resting(resting)),
            Err(status) => Err(status),
        },
        Err(status) => Err(status),
    }
}

/// A seat that has begun this request, or is as it was, where another has what it needs.
fn started(seat: Endless, request: Request) -> (Endless, Try)
    requires { MayStart seat request }
    ensures { StartsAt seat request result.0 result.1 }
{
    match seat {
        Endless::Resting(resting) => {
            let Resting {
                coordinator,
                seat,
                room,
                opening,
            } = resting;
            match coordinator.try_begin(seat, room, request) {
                Ok(begun) => {
                    let told = Try::Answer(begun.reply());
                    (Endless::Ongoing(Ongoing { coordinator, begun }), told)
                }
                Err(NotBegun { seat, room, told }) => {
                    let resting = Resting {
                        coordinator,
                        seat,
                        room,
                        opening,
                    };
                    (Endless::Resting(resting), told)
                }
            }
        }
        Endless::Ongoing(_) => unreachable!(),
    }
}

/// A seat whose request is finished, where it has begun one with so many operations.
#[tactic(auto, unfolding(crate::specs::Endless::EndsAt))]
fn ended(seat: Endless, done: u32) -> (Endless, Status)
    ensures { EndsAt seat done result.0 result.1 }
{
    match seat {
        Endless::Resting(resting) => (Endless::Resting(resting), Status::NotBegun),
        Endless::Ongoing(ongoing) => ongoing.finish(done),
    }
}

impl Endless {
    /// The first seat of a new coordinator of a machine's plan.
    #[tactic(auto, unfolding(crate::specs::Endless::OpensEndless))]
    pub fn open(alloc: Global, machine: &Machine) -> Result<Endless, Status>
        ensures { OpensEndless machine.now result }
    {
        match machine {
            Machine::Planned(planned) => open_on(alloc, planned),
            _ => Err(Status::Kind),
        }
    }

    /// Whether it has begun a request.
    pub fn is_begun(&self) -> bool
        ensures { result ≡ is_begun self.now }
    {
        match self {
            Endless::Resting(_) => false,
            Endless::Ongoing(_) => true,
        }
    }

    /// Begins the request that the numbers ask for, or gives up where another seat has what it needs. The
    /// seat is replaced where it lies, since what it holds is long.
    #[tactic(auto, unfolding(crate::specs::Endless::BeginsAt))]
    pub fn begin(&mut self, asked: &RequestNumbers, reply: &mut ReplyNumbers) -> Status
        ensures { BeginsAt self.old asked.now reply.old self.new reply.new result }
    {
        let Endless::Resting(resting) = self else {
            return Status::Begun;
        };
        let Some(request) = asked.request_of(resting.coordinator.plan()) else {
            return Status::Range;
        };
        let told = replace_with(self, request, started);
        put_reply(told, reply);
        status_of(told)
    }

    /// Finishes the request that it has begun, with so many of its operations done, where it has as many.
    pub fn finish(&mut self, done: u32) -> Status
        ensures { EndsAt self.old done self.new result }
    {
        replace_with(self, done, ended)
    }

    /// Writes the operations of the request that it has begun, or those at the start, and how many they
    /// are.
    pub fn ops(&self, out: &mut [OpNumbers], count: &mut u32) -> Status
        ensures { Listed (listed self.now) out.old out.new count.new result }
    {
        match self {
            Endless::Resting(resting) => resting.ops(out, count),
            Endless::Ongoing(ongoing) => ongoing.ops(out, count),
        }
    }

    /// Tells what the seat knows.
    #[tactic(auto, unfolding(crate::specs::Endless::Shows))]
    pub fn tell(&self, facts: &mut SeatFacts) -> Status
        ensures { Shows self.now facts.old facts.new result }
    {
        match self {
            Endless::Resting(resting) => {
                *facts = resting.facts();
                Status::Done
            }
            Endless::Ongoing(_) => Status::Begun,
        }
    }

    /// Another seat, with so many of this one's parts.
    #[tactic(auto, unfolding(crate::specs::Endless::SplitsOff))]
    pub fn split(&mut self, alloc: Global, parts: u32) -> Result<Endless, Status>
        ensures { SplitsOff self.old parts self.new result }
    {
        match self {
            Endless::Resting(resting) => match resting.split(alloc, parts) {
                Ok(other) => Ok(Endless::Resting(other)),
                Err(status) => Err(status),
            },
            Endless::Ongoing(_) => Err(Status::Begun),
        }
    }

    /// One seat that has what both had, where neither has begun a request. They are seats of one
    /// coordinator.
    #[tactic(auto, unfolding(crate::specs::Endless::JoinsSeats))]
    pub fn join(self, other: Endless) -> Result<Endless, (Endless, Endless)>
        requires { AreOfOneSeat self other }
        ensures { JoinsSeats self other result }
    {
        match (self, other) {
            (Endless::Resting(first), Endless::Resting(second)) => {
                Ok(Endless::Resting(first.join(second)))
            }
            (first, second) => Err((first, second)),
        }
    }
}
