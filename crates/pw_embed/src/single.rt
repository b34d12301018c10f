ghost use Rattle.std.specs.Prelude.{◌≡◌, ◌≤◌, IfOk};
ghost use Rattle.pw_plan.specs.Requests.{Has};
ghost use Rattle.pw_model.specs.States.{IsState, opening};
ghost use Rattle.pw_model.specs.Operations.{opening_ops};
ghost use Rattle.pw_embed.specs.inner.Propositions.{state_props};

use crate::operations::{OpNumbers, tell_ops};
use crate::replies::ReplyNumbers;
use crate::requests::RequestNumbers;
use crate::status::Status;
use pw_base::Memory;
use pw_core::{Ops, State, open_all};
use pw_model::Reply;
use pw_plan::{MOST_OF_A_REQUEST, Plan, Request};
use std::alloc::Global;

/// The coordinator of one caller: a plan, what its processors last asked for, and the operations of the
/// last request.
#[derive(Drop)]
pub struct Single {
    pub plan: Plan,
    /// How many notes there are of the plan.
    pub notes: u32,
    pub(crate) state: State,
    pub(crate) ops: Ops,
    ghost fits: { IsState plan state } by { Prim.hlevel state_props },
    ghost room: { 256 ≤ ops.capacity },
}

/// The state at the start, and the operations at the start in a list with room for those of any request.
pub fn opened(alloc: Global, plan: &Plan) -> Result<(State, Ops), Memory>
    ensures state { IfOk result (λ r. r.0 ≡ opening plan.now) }
    ensures fits { IfOk result (λ r. IsState plan.now r.0) }
    ensures ops { IfOk result (λ r. r.1.elements ≡ opening_ops plan.now) }
    ensures room { IfOk result (λ r. 256 ≤ r.1.capacity) }
{
    let most = plan.opening_bound().max(MOST_OF_A_REQUEST);
    let mut ops = Ops::new(alloc, most)?;
    open_all(plan, &mut ops);
    let state = State::open(alloc, plan)?;
    Ok((state, ops))
}

impl Single {
    ghost use Rattle.pw_embed.specs.Single.{Asked, Stepped};
    ghost use Rattle.pw_embed.specs.Operations.{Listed};
    ghost use Rattle.pw_model.specs.Answers.{answer};

    /// Makes a request: the list has its operations then.
    #[tactic(auto, using(pw_plan::proofs::RequestBounds::bound_small))]
    fn step(&mut self, request: Request) -> Reply
        requires { Has self.old.plan request }
        ensures stepped { Stepped self.old request self.new }
        ensures answered { result ≡ answer self.old.plan self.old.state request }
    {
        self.ops.clear();
        self.state.step(&self.plan, request, &mut self.ops)
    }

    /// Makes the request that the numbers ask for.
    #[tactic(auto, unfolding(crate::specs::Single::Asked))]
    pub fn ask(&mut self, asked: &RequestNumbers, reply: &mut ReplyNumbers) -> Status
        ensures { Asked self.old asked.now reply.old self.new reply.new result }
    {
        let Some(request) = asked.request() else {
            return Status::Range;
        };
        if !self.plan.has(&request) {
            return Status::Range;
        }
        *reply = ReplyNumbers::of(self.step(request));
        Status::Done
    }

    /// Writes the operations of the last request that was made, or those at the start, and how many they are.
    pub fn ops(&self, out: &mut [OpNumbers], count: &mut u32) -> Status
        ensures { Listed self.now.ops.elements out.old out.new count.new result }
    {
        tell_ops(self.ops.list(), out, count)
    }
}
