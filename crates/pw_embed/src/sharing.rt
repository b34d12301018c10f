ghost use Rattle.std.specs.Prelude.{◌≡◌};
ghost use Rattle.std.specs.Arc.{arc_value};
ghost use Rattle.pw_plan.specs.declared.plan.Plan.{Plan as plan};
ghost use Rattle.pw_turns.specs.Opens.{OpenFails};
ghost use Rattle.pw_turns.specs.Owning.{Owns};
ghost use Rattle.pw_embed.specs.declared.registers.NoRegisters.{NoRegisters as no_registers};
ghost use Rattle.pw_embed.specs.declared.status.Status.TheVariants.{NoMemory};
ghost use Rattle.pw_embed.specs.Registers.{by_none};

use crate::registers::NoRegisters;
use crate::resting::opening;
use crate::told::{put_reply, status_of};
use crate::{OpNumbers, ReplyNumbers, RequestNumbers, Status, tell_ops};
use acpi_values::Op;
use pw_core::Ops;
use pw_plan::{Plan, Request};
use pw_turns::{Closed, Coordinator, OpenFault, Seat, SplitFault, Try};
use std::alloc::Global;
use std::sync::Arc;

/// The status with which there is no coordinator, for this reason: memory alone, since no register fails.
fn unopened(fault: OpenFault<NoRegisters>) -> Status
    requires { (P : plan) × (regs : no_registers) × OpenFails by_none P regs fault }
    ensures { result ≡ NoMemory }
{
    let status = match &fault {
        OpenFault::Memory { .. } => Status::NoMemory,
        OpenFault::RegisterFault { .. } => unreachable!(),
    };
    drop(fault);
    status
}

/// A seat at a coordinator that others share.
#[derive(Drop)]
pub struct Sharing {
    coordinator: Arc<Coordinator<NoRegisters>, Global>,
    seat: Seat,
    /// Of the first seat the operations at the start, before it makes a request.
    opening: Option<Ops>,
    /// Whether the last request was answered.
    answered: bool,
    ghost owns: { Owns (arc_value coordinator).table.shared.table_id seat },
}

/// What a seat knows.
#[repr(C)]
#[derive(Clone, Copy)]
pub struct SeatFacts {
    pub number: u32,
    /// Of the coordinator's 65,536.
    pub parts: u32,
    /// How many entries of the history it has seen.
    pub seen: u64,
}

impl Sharing {
    ghost use Rattle.std.specs.Prelude.{◌≤◌, IfErr, IfOk, Some};
    ghost use Rattle.pw_plan.specs.Requests.{Has};
    ghost use Rattle.pw_embed.specs.Operations.{Listed};
    ghost use Rattle.pw_embed.specs.Shared.{AreOfOne, Asked, IsEnded, IsFirst, Joins, Splits, Tried, facts_of, listed};

    /// The first seat of a coordinator that was opened, with the operations at the start.
    fn first(
        alloc: Global,
        coordinator: Coordinator<NoRegisters>,
        seat: Seat,
        ops: Ops,
    ) -> Result<Sharing, Status>
        requires { Owns coordinator.table.shared.table_id seat }
        ensures coordinator { IfOk result (λ s. arc_value s.coordinator ≡ coordinator) }
        ensures seat { IfOk result (λ s. s.seat ≡ seat) }
        ensures opening { IfOk result (λ s. s.opening ≡ Some ops) }
        ensures refused { IfErr result (λ s. s ≡ NoMemory) }
    {
        match Arc::new(alloc, coordinator) {
            Ok(coordinator) => Ok(Sharing {
                coordinator,
                seat,
                opening: Some(ops),
                answered: false,
            }),
            Err(failed) => {
                drop(failed);
                Err(Status::NoMemory)
            }
        }
    }

    /// The first seat of a new coordinator of a plan, with room for so many entries, at the start.
    pub fn open(alloc: Global, plan: Plan, entries: u32) -> Result<Sharing, Status>
        requires { entries ≤ 65536 }
        ensures opened { IfOk result (λ s. IsFirst plan entries s) }
        ensures refused { IfErr result (λ s. s ≡ NoMemory) }
    {
        let Ok(ops) = opening(alloc, &plan) else {
            drop(plan);
            return Err(Status::NoMemory);
        };
        match Coordinator::open(alloc, plan, NoRegisters, entries) {
            Ok((coordinator, seat)) => Sharing::first(alloc, coordinator, seat, ops),
            Err(fault) => Err(unopened(fault)),
        }
    }

    /// Makes a request, or gives up where another seat has what it needs.
    fn step(&mut self, request: Request) -> Try
        requires { Has (arc_value self.old.coordinator).plan request }
        ensures { Tried self.old request result self.new }
    {
        self.opening = None;
        let told = self.coordinator.try_request(&mut self.seat, request);
        self.answered = matches!(told, Try::Answer(_));
        told
    }

    /// Makes the request that the numbers ask for, or gives up where another seat has what it needs.
    pub fn ask(&mut self, asked: &RequestNumbers, reply: &mut ReplyNumbers) -> Status
        ensures { Asked self.old asked.now reply.old self.new reply.new result }
    {
        let Some(request) = asked.request() else {
            return Status::Range;
        };
        if !self.coordinator.plan().has(&request) {
            return Status::Range;
        }
        let told = self.step(request);
        put_reply(told, reply);
        status_of(told)
    }

    /// Its operations, and the number of their request in the history, 0 for those at the start and for none.
    fn listed(&self) -> (&[Op], u64)
        ensures { (result.0.now, result.1) ≡ listed self.now }
    {
        match &self.opening {
            Some(ops) => (ops.list(), 0),
            None => {
                if self.answered {
                    (self.seat.operations(), self.seat.seen())
                } else {
                    (&[], 0)
                }
            }
        }
    }

    /// Writes the operations of the last request, or those at the start, how many they are, and the
    /// request's number.
    pub fn ops(&self, out: &mut [OpNumbers], count: &mut u32, number: &mut u64) -> Status
        ensures ops { Listed (listed self.now).0 out.old out.new count.new result }
        ensures number { number.new ≡ (listed self.now).1 }
    {
        let (list, at) = self.listed();
        *number = at;
        tell_ops(list, out, count)
    }

    /// What the seat knows.
    pub fn facts(&self) -> SeatFacts
        ensures { result ≡ facts_of self.now }
    {
        SeatFacts {
            number: self.seat.number(),
            parts: self.seat.parts(),
            seen: self.seat.seen(),
        }
    }

    /// Another seat, with so many of this one's parts.
    #[tactic(auto, unfolding(crate::specs::Shared::Splits))]
    pub fn split(&mut self, alloc: Global, parts: u32) -> Result<Sharing, Status>
        ensures { Splits self.old parts self.new result }
    {
        if parts == 0 {
            return Err(Status::Range);
        }
        if parts >= self.seat.parts() {
            return Err(Status::Range);
        }
        let Ok(coordinator) = Arc::try_clone(&self.coordinator) else {
            return Err(Status::NoMemory);
        };
        match self.coordinator.split(alloc, &mut self.seat, parts) {
            Ok(seat) => Ok(Sharing {
                coordinator,
                seat,
                opening: None,
                answered: false,
            }),
            Err(SplitFault::Many { .. }) => Err(Status::Numbers),
            Err(SplitFault::Memory) => Err(Status::NoMemory),
        }
    }

    /// One seat that has what both had. They are seats of one coordinator.
    pub fn join(self, other: Sharing) -> Sharing
        requires { AreOfOne self other }
        ensures { Joins self other result }
    {
        let Sharing {
            coordinator,
            seat,
            opening,
            answered,
        } = self;
        let Sharing {
            coordinator: _,
            seat: second,
            opening: _,
            answered: _,
        } = other;
        let seat = coordinator.join(seat, second);
        Sharing {
            coordinator,
            seat,
            opening,
            answered,
        }
    }

    /// Ends the coordinator, where this is its only seat.
    pub fn close(self) -> Result<Closed<NoRegisters>, Sharing>
        ensures ended { IfOk result (λ closed. IsEnded self closed) }
        ensures same { IfErr result (λ s. s ≡ self) }
    {
        if !self.seat.alone() {
            return Err(self);
        }
        let Sharing {
            coordinator,
            seat,
            opening,
            answered,
        } = self;
        match Arc::try_unwrap(coordinator) {
            Ok(coordinator) => Ok(coordinator.close(seat)),
            Err(coordinator) => Err(Sharing {
                coordinator,
                seat,
                opening,
                answered,
            }),
        }
    }
}
