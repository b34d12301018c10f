//! The calls on the handle of a coordinator by `_CPC`.
ghost use Rattle.std.specs.Prelude.{◌≡◌};
ghost use Rattle.pw_embed.specs.Cppc.{Asked, IsSteered};
ghost use Rattle.pw_embed.specs.Machines.{Steers};
ghost use Rattle.pw_embed.specs.Operations.{Listed};
ghost use Rattle.pw_handles.specs.Handled.{KeptSo, OfMachine, OnCppc, OpensCppc};

use crate::handle::Handle;
use crate::kept::Kept;
use pw_embed::{Cppc, CppcReplyNumbers, CppcRequestNumbers, OpNumbers, Status};
use std::alloc::Global;

/// The coordinator by `_CPC` of a machine that is kept.
#[tactic(auto, unfolding(crate::specs::Handled::OfMachine))]
fn steered(kept: &Kept, alloc: Global) -> Result<Cppc, Status>
    ensures { OfMachine kept.now result Steers }
{
    match kept {
        Kept::Machine(machine) => machine.cppc(alloc),
        _ => Err(Status::Kind),
    }
}

impl Handle {
    /// Opens it for the coordinator by `_CPC` of the machine of another handle, at its start.
    pub fn open_cppc(&mut self, alloc: Global, machine: &mut Handle) -> Status
        ensures kept { KeptSo machine.old machine.new }
        ensures opened { OpensCppc self.old machine.old self.new result }
    {
        if self.is_open() {
            return Status::Open;
        }
        if !machine.is_open() {
            return Status::Closed;
        }
        match steered(machine.kept(), alloc) {
            Ok(cppc) => self.fill(alloc, Kept::Cppc(cppc)),
            Err(status) => status,
        }
    }

    /// Makes the request for a performance that the numbers ask for.
    #[tactic(auto, unfolding(crate::specs::Handled::Handled, crate::specs::Handled::AtCppc))]
    pub fn ask_cppc(&mut self, asked: &CppcRequestNumbers, reply: &mut CppcReplyNumbers) -> Status
        ensures { OnCppc self.old self.new result (reply.new ≡ reply.old)
            (λ c d s. Asked c asked.now reply.old d reply.new s) }
    {
        if !self.is_open() {
            return Status::Closed;
        }
        match self.kept() {
            Kept::Cppc(cppc) => cppc.ask(asked, reply),
            _ => Status::Kind,
        }
    }

    /// Writes the operations of the last request for a performance, or those at the start, and how many
    /// they are.
    #[tactic(auto, unfolding(crate::specs::Handled::Handled, crate::specs::Handled::AtCppc))]
    pub fn cppc_ops(&mut self, out: &mut [OpNumbers], count: &mut u32) -> Status
        ensures { OnCppc self.old self.new result ((out.new ≡ out.old) × (count.new ≡ count.old))
            (λ c d s. (d ≡ c) × Listed c.ops.elements out.old out.new count.new s) }
    {
        if !self.is_open() {
            return Status::Closed;
        }
        match self.kept() {
            Kept::Cppc(cppc) => cppc.ops(out, count),
            _ => Status::Kind,
        }
    }
}
