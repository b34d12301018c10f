ghost use Rattle.std.specs.Prelude.{◌≡◌, ◌⊎◌, ◌≤◌, vec_capacity, IfOk};
ghost use Rattle.std.specs.Arc.{arc_value};
ghost use Rattle.pw_model.specs.Operations.{opening_ops};
ghost use Rattle.pw_model.specs.Records.{record_count};
ghost use Rattle.pw_turns.specs.Owning.{Owns};
ghost use Rattle.pw_embed.specs.declared.status.Status.TheVariants.{NoMemory, Stopped};

use crate::sharing::SeatFacts;
use crate::{OpNumbers, Status, tell_ops};
use pw_base::Memory;
use pw_core::{Ops, open_all};
use pw_plan::Plan;
use pw_turns::{
    Coordinator, EndlessCoordinator, OpenFault, RecordRoom, ReportedRegisters, Seat, SplitFault,
};
use std::alloc::Global;
use std::sync::Arc;

/// The operations at the start.
pub fn opening(alloc: Global, plan: &Plan) -> Result<Ops, Memory>
    ensures { IfOk result (λ ops. ops.elements ≡ opening_ops plan.now) }
{
    let mut ops = Ops::new(alloc, plan.opening_bound())?;
    open_all(plan, &mut ops);
    Ok(ops)
}

/// The status with which there is no coordinator, for this reason.
fn unopened(fault: OpenFault<ReportedRegisters>) -> Status
    ensures { (result ≡ NoMemory) ⊎ (result ≡ Stopped) }
{
    let status = match &fault {
        OpenFault::Memory { .. } => Status::NoMemory,
        OpenFault::RegisterFault { .. } => Status::Stopped,
    };
    drop(fault);
    status
}

/// A seat at a coordinator without end, between its requests.
#[derive(Drop)]
pub struct Resting {
    pub(crate) coordinator: Arc<EndlessCoordinator<ReportedRegisters>, Global>,
    pub(crate) seat: Seat,
    /// For the records that a request holds.
    pub(crate) room: RecordRoom<ReportedRegisters>,
    /// Of the first seat the operations at the start, before a request of it begins.
    pub(crate) opening: Option<Ops>,
    ghost owns: { Owns (arc_value coordinator).table.shared.table_id seat },
    ghost roomy: { record_count (arc_value coordinator).plan ≤ vec_capacity room.records },
}

impl Resting {
    ghost use Rattle.std.specs.Prelude.{Some, IfErr};
    ghost use Rattle.pw_embed.specs.Operations.{Listed};
    ghost use Rattle.pw_embed.specs.Resting.{AreOfOne, IsFirst, Joins, Splits, facts_of, opening_in};

    /// The first seat of a coordinator that was opened, with the operations at the start.
    fn first(
        alloc: Global,
        coordinator: EndlessCoordinator<ReportedRegisters>,
        seat: Seat,
        ops: Ops,
    ) -> Result<Resting, Status>
        requires { Owns coordinator.table.shared.table_id seat }
        ensures coordinator { IfOk result (λ r. arc_value r.coordinator ≡ coordinator) }
        ensures seat { IfOk result (λ r. r.seat ≡ seat) }
        ensures opening { IfOk result (λ r. r.opening ≡ Some ops) }
        ensures refused { IfErr result (λ s. s ≡ NoMemory) }
    {
        let Ok(room) = coordinator.record_room(alloc) else {
            drop(coordinator);
            return Err(Status::NoMemory);
        };
        match Arc::new(alloc, coordinator) {
            Ok(coordinator) => Ok(Resting {
                coordinator,
                seat,
                room,
                opening: Some(ops),
            }),
            Err(failed) => {
                drop(failed);
                Err(Status::NoMemory)
            }
        }
    }

    /// The first seat of a new coordinator of a plan, at the start.
    pub fn open(alloc: Global, plan: Plan) -> Result<Resting, Status>
        ensures opened { IfOk result (λ r. IsFirst plan r) }
        ensures refused { IfErr result (λ s. (s ≡ NoMemory) ⊎ (s ≡ Stopped)) }
    {
        let Ok(ops) = opening(alloc, &plan) else {
            drop(plan);
            return Err(Status::NoMemory);
        };
        match Coordinator::open_endless(alloc, plan, ReportedRegisters::new()) {
            Ok((coordinator, seat)) => Resting::first(alloc, coordinator, seat, ops),
            Err(fault) => Err(unopened(fault)),
        }
    }

    /// Writes the operations at the start, of the first seat before a request of it begins, and how many
    /// they are; else there are none.
    pub fn ops(&self, out: &mut [OpNumbers], count: &mut u32) -> Status
        ensures { Listed (opening_in self.now.opening) out.old out.new count.new result }
    {
        match &self.opening {
            Some(ops) => tell_ops(ops.list(), out, count),
            None => tell_ops(&[], out, count),
        }
    }

    /// What the seat knows.
    pub fn facts(&self) -> SeatFacts
        ensures { result ≡ facts_of self.now }
    {
        SeatFacts {
            number: self.seat.number(),
            parts: self.seat.parts(),
            seen: self.seat.seen(),
        }
    }

    /// Another seat, with so many of this one's parts.
    #[tactic(auto, unfolding(crate::specs::Resting::Splits))]
    pub fn split(&mut self, alloc: Global, parts: u32) -> Result<Resting, Status>
        ensures { Splits self.old parts self.new result }
    {
        if parts == 0 {
            return Err(Status::Range);
        }
        if parts >= self.seat.parts() {
            return Err(Status::Range);
        }
        let Ok(coordinator) = Arc::try_clone(&self.coordinator) else {
            return Err(Status::NoMemory);
        };
        let Ok(room) = self.coordinator.record_room(alloc) else {
            return Err(Status::NoMemory);
        };
        match self.coordinator.split(alloc, &mut self.seat, parts) {
            Ok(seat) => Ok(Resting {
                coordinator,
                seat,
                room,
                opening: None,
            }),
            Err(SplitFault::Many { .. }) => Err(Status::Numbers),
            Err(SplitFault::Memory) => Err(Status::NoMemory),
        }
    }

    /// One seat that has what both had. They are seats of one coordinator.
    pub fn join(self, other: Resting) -> Resting
        requires { AreOfOne self other }
        ensures { Joins self other result }
    {
        let Resting {
            coordinator,
            seat,
            room,
            opening,
        } = self;
        let Resting {
            coordinator: _,
            seat: second,
            room: _,
            opening: _,
        } = other;
        let seat = coordinator.join(seat, second);
        Resting {
            coordinator,
            seat,
            room,
            opening,
        }
    }
}
