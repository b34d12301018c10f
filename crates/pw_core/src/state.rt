use crate::accepting::{accept, accepted_reply};
use crate::changing::{change_of, make};
use crate::opening::{open_all, opened};
use crate::refusal::refusal;
use crate::stepping::{step_ask, step_idle, step_limit};
use crate::tree::RUNNING;
use pw_base::Memory;
use pw_model::{Change, Reply, ScaleKind, State as Lists};
use pw_plan::{Plan, Request};
use pw_regs::Ops;
use std::alloc::Global;
use std::marker::Model;

/// What the processors of a plan last asked for. Contracts see the lists of votes, asks and limits.
#[derive(Drop)]
pub struct State {
    lists: Lists,
}

impl Model for State {
    ghost use Rattle.pw_model.specs.declared.state.State.{State as plain};

    ghost Value = { plain };

    ghost view = { λ s. s.lists };
}

impl State {
    ghost use Rattle.std.specs.Prelude.{◌≡◌, ◌++◌, None, IfOk};
    ghost use Rattle.pw_plan.specs.Requests.{Has, opening_bound, ops_bound};
    ghost use Rattle.pw_model.specs.States.{IsState, opening};
    ghost use Rattle.pw_model.specs.Answers.{after, answer};
    ghost use Rattle.pw_model.specs.Operations.{opening_ops, ops_of};
    ghost use Rattle.pw_model.specs.Refusals.{refusal};
    ghost use Rattle.pw_regs.specs.Rooms.{HasRoom};

    /// The state at the start: everyone runs, the limits are those of the tables, and each processor
    /// asks for the fastest state that its limit allows.
    pub fn open(alloc: Global, plan: &Plan) -> Result<State, Memory>
        ensures opening { IfOk result (λ state. state ≡ opening plan.now) }
        ensures fits { IfOk result (λ state. IsState plan.now state) }
    {
        Ok(State {
            lists: opened(alloc, plan)?,
        })
    }

    /// The votes, asks and limits.
    pub fn lists(&self) -> &Lists
        ensures { result.now ≡ self.now }
    {
        &self.lists
    }

    /// What the request would be answered.
    #[tactic(auto, unfolding(pw_model::specs::Answers::answer))]
    pub fn answer(&self, plan: &Plan, request: Request) -> Reply
        requires request { Has plan.now request }
        requires fits { IsState plan.now self.now }
        ensures { result ≡ answer plan.now self.now request }
    {
        let lists = &self.lists;
        match refusal(plan, lists, request) {
            Some(reply) => reply,
            None => accepted_reply(plan, lists, change_of(plan, lists, request), request),
        }
    }

    /// Appends the operations that the request would have.
    #[tactic(auto, unfolding(pw_model::specs::Operations::ops_of))]
    pub fn operations(&self, plan: &Plan, request: Request, ops: &mut Ops)
        requires request { Has plan.now request }
        requires fits { IsState plan.now self.now }
        requires room { HasRoom ops.old (ops_bound plan.now request) }
        ensures { ops.new ≡ record ops.old {
          elements = ops.old.elements
              ++ ops_of plan.now self.now request;
        } }
    {
        let lists = &self.lists;
        if refusal(plan, lists, request).is_none() {
            let _reply = accept(plan, lists, change_of(plan, lists, request), request, ops);
        }
    }

    /// Appends the operations at the start, whatever was asked since.
    pub fn opening(&self, plan: &Plan, ops: &mut Ops)
        requires { HasRoom ops.old (opening_bound plan.now) }
        ensures { ops.new ≡ record ops.old { elements = ops.old.elements ++ opening_ops plan.now } }
    {
        open_all(plan, ops);
    }

    /// Notes what an accepted request asks for.
    #[tactic(auto, unfolding(pw_model::specs::Answers::after))]
    pub fn note(&mut self, plan: &Plan, request: Request)
        requires request { Has plan.now request }
        requires fits { IsState plan.now self.old }
        requires accepted { refusal plan.now self.old request ≡ None }
        ensures after { self.new ≡ after plan.now self.old request }
        ensures fits { IsState plan.now self.new }
    {
        let change = change_of(plan, &self.lists, request);
        make(&mut self.lists, change);
    }

    /// Notes what the request asks for. A refusal changes nothing.
    #[tactic(auto, unfolding(pw_model::specs::Answers::after))]
    pub fn apply(&mut self, plan: &Plan, request: Request)
        requires request { Has plan.now request }
        requires fits { IsState plan.now self.old }
        ensures after { self.new ≡ after plan.now self.old request }
        ensures fits { IsState plan.now self.new }
    {
        if refusal(plan, &self.lists, request).is_none() {
            self.note(plan, request);
        }
    }

    /// Answers the request, appends its operations and notes what it asks for.
    #[tactic(auto, unfolding(pw_model::specs::Answers::after, pw_model::specs::Answers::answer, pw_model::specs::Answers::accepted, pw_model::specs::Operations::ops_of, pw_model::specs::Operations::accepted_ops, pw_model::specs::States::any_latency))]
    pub fn step(&mut self, plan: &Plan, request: Request, ops: &mut Ops) -> Reply
        requires request { Has plan.now request }
        requires fits { IsState plan.now self.old }
        requires room { HasRoom ops.old (ops_bound plan.now request) }
        ensures reply { result ≡ answer plan.now self.old request }
        ensures list { ops.new ≡ record ops.old {
          elements = ops.old.elements
              ++ ops_of plan.now self.old request;
        } }
        ensures after { self.new ≡ after plan.now self.old request }
        ensures fits { IsState plan.now self.new }
    {
        match request {
            Request::Idle {
                cpu,
                state,
                tolerance,
            } => step_idle(plan, &mut self.lists, cpu, state, tolerance, ops),
            Request::Wake { cpu } => {
                make(&mut self.lists, Change::Vote { cpu, vote: RUNNING });
                Reply::Running
            }
            Request::Perf { cpu, index } => {
                step_ask(plan, &mut self.lists, ScaleKind::Perf, cpu, index, ops)
            }
            Request::Throttle { cpu, index } => {
                step_ask(plan, &mut self.lists, ScaleKind::Throttle, cpu, index, ops)
            }
            Request::PerfLimit { cpu, n } => {
                step_limit(plan, &mut self.lists, ScaleKind::Perf, cpu, n, ops)
            }
            Request::ThrottleLimit { cpu, n } => {
                step_limit(plan, &mut self.lists, ScaleKind::Throttle, cpu, n, ops)
            }
        }
    }
}
