ghost use Rattle.std.specs.Arc.{arc_value};
ghost use Rattle.pw_embed.specs.Reporting.{BeganAt};

use crate::endless::Endless;
use crate::resting::Resting;
use crate::{OpNumbers, Status, tell_ops};
use acpi_values::Op;
use pw_turns::{Begun, EndlessCoordinator, ReportedRegisters};
use std::alloc::Global;
use std::mem::ManuallyDrop;
use std::sync::Arc;

/// A request that a seat of a coordinator without end has begun, with the seat.
pub struct Ongoing {
    pub(crate) coordinator: Arc<EndlessCoordinator<ReportedRegisters>, Global>,
    pub(crate) begun: Begun<ReportedRegisters>,
    ghost began: { ∥ BeganAt (arc_value coordinator) begun ∥₁ },
}

/// Its turns are lost with it, and what it holds. No call drops one.
impl Drop for Ongoing {
    fn drop(self) {
        let Ongoing { coordinator, begun } = self;
        let _lost = unsafe { ManuallyDrop::new_unchecked(begun) };
        drop(coordinator);
    }
}

impl Ongoing {
    ghost use Rattle.std.specs.Prelude.{◌≡◌, ◌<◌, ◌≤◌, IfErr, length};
    ghost use Rattle.pw_embed.specs.Endless.{Ends};
    ghost use Rattle.pw_embed.specs.Operations.{Listed};
    ghost use Rattle.pw_embed.specs.Resting.{BeganHere, Says};

    /// What a caller says who did so many of these operations: that all were done, or that a register
    /// failed then.
    #[tactic(auto, unfolding(crate::specs::Resting::Says))]
    fn said(done: u32, ops: &[Op]) -> Result<(), u32>
        requires { done ≤ length ops.now }
        ensures says { Says done (length ops.now) result }
        ensures fewer { IfErr result (λ k. k < length ops.now) }
    {
        if (done as usize) < ops.len() {
            Err(done)
        } else {
            Ok(())
        }
    }

    /// It began at a seat of its coordinator. When it runs this does nothing.
    fn began(&self)
        ensures { BeganHere self.now }
    {}

    /// Finishes it, where it has so many operations: all were done, or a register failed after these.
    #[tactic(auto, unfolding(crate::specs::Endless::Ends))]
    pub(crate) fn finish(self, done: u32) -> (Endless, Status)
        ensures { Ends self done result.0 result.1 }
    {
        if done as usize > self.begun.ops().len() {
            return (Endless::Ongoing(self), Status::Range);
        }
        self.began();
        let Ongoing { coordinator, begun } = self;
        let word = Ongoing::said(done, begun.ops());
        let (seat, room, _) = coordinator.finish_begun(begun, word);
        let resting = Resting {
            coordinator,
            seat,
            room,
            opening: None,
        };
        (Endless::Resting(resting), Status::Done)
    }

    /// Writes its operations, and how many they are.
    pub fn ops(&self, out: &mut [OpNumbers], count: &mut u32) -> Status
        ensures { Listed self.now.begun.ops.elements out.old out.new count.new result }
    {
        tell_ops(self.begun.ops(), out, count)
    }
}
