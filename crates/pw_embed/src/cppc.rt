ghost use Rattle.std.specs.Prelude.{◌≡◌, ◌≤◌, IfOk};
ghost use Rattle.pw_cppc.specs.Requests.{Has};
ghost use Rattle.pw_cppc.specs.States.{AreNumbers, opening};
ghost use Rattle.pw_cppc.specs.Operations.{opening_ops};
ghost use Rattle.pw_embed.specs.inner.Propositions.{number_props};

use crate::cppc_numbers::{CppcReplyNumbers, CppcRequestNumbers};
use crate::operations::{OpNumbers, tell_ops};
use crate::status::Status;
use pw_base::Memory;
use pw_cppc::{CppcPlan, CppcReply, CppcRequest, CppcState, MOST_OF_A_REQUEST, open_all};
use pw_regs::Ops;
use std::alloc::Global;

/// The coordinator of one caller for desired performance: a plan, what its processors ask for and allow,
/// and the operations of the last request.
#[derive(Drop)]
pub struct Cppc {
    pub plan: CppcPlan,
    pub(crate) state: CppcState,
    pub(crate) ops: Ops,
    ghost fits: { AreNumbers plan state } by { Prim.hlevel number_props },
    ghost room: { 257 ≤ ops.capacity },
}

/// The numbers at the start, and the operations at the start in a list with room for those of any request.
fn opened(alloc: Global, plan: &CppcPlan) -> Result<(CppcState, Ops), Memory>
    ensures state { IfOk result (λ r. r.0 ≡ opening plan.now) }
    ensures fits { IfOk result (λ r. AreNumbers plan.now r.0) }
    ensures ops { IfOk result (λ r. r.1.elements ≡ opening_ops plan.now) }
    ensures room { IfOk result (λ r. 257 ≤ r.1.capacity) }
{
    let most = plan.opening_bound().max(MOST_OF_A_REQUEST);
    let mut ops = Ops::new(alloc, most)?;
    open_all(plan, &mut ops);
    let state = CppcState::open(alloc, plan)?;
    Ok((state, ops))
}

impl Cppc {
    ghost use Rattle.pw_cppc.specs.Answers.{answer};
    ghost use Rattle.pw_embed.specs.Cppc.{Asked, IsOpening, Stepped};
    ghost use Rattle.pw_embed.specs.Operations.{Listed};

    /// The coordinator of a plan, at the start.
    pub fn open(alloc: Global, plan: CppcPlan) -> Result<Cppc, Memory>
        ensures { IfOk result (λ c. (c.plan ≡ plan) × IsOpening c) }
    {
        let (state, ops) = opened(alloc, &plan)?;
        Ok(Cppc { plan, state, ops })
    }

    /// Makes a request: the list has its operations then.
    #[tactic(auto, using(pw_cppc_desk::proofs::Bounds::bound_small))]
    fn step(&mut self, request: CppcRequest) -> CppcReply
        requires { Has self.old.plan request }
        ensures stepped { Stepped self.old request self.new }
        ensures answered { result ≡ answer self.old.plan self.old.state request }
    {
        self.ops.clear();
        self.state.step(&self.plan, request, &mut self.ops)
    }

    /// Makes the request that the numbers ask for.
    #[tactic(auto, unfolding(crate::specs::Cppc::Asked))]
    pub fn ask(&mut self, asked: &CppcRequestNumbers, reply: &mut CppcReplyNumbers) -> Status
        ensures { Asked self.old asked.now reply.old self.new reply.new result }
    {
        let Some(request) = asked.request() else {
            return Status::Range;
        };
        if !self.plan.has(&request) {
            return Status::Range;
        }
        *reply = CppcReplyNumbers::of(self.step(request));
        Status::Done
    }

    /// Writes the operations of the last request that was made, or those at the start, and how many they are.
    pub fn ops(&self, out: &mut [OpNumbers], count: &mut u32) -> Status
        ensures { Listed self.now.ops.elements out.old out.new count.new result }
    {
        tell_ops(self.ops.list(), out, count)
    }
}
