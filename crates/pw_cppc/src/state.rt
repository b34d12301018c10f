ghost use Rattle.std.specs.Prelude.{◌≡◌, ◌++◌};
ghost use Rattle.pw_cppc.specs.Requests.{Has, cpu_of, ops_bound};
ghost use Rattle.pw_regs.specs.Rooms.{HasRoom};
ghost use Rattle.pw_cppc.specs.States.{AreNumbers, changed, stands};
ghost use Rattle.pw_cppc.specs.Answers.{refusal};
ghost use Rattle.pw_cppc.specs.Operations.{bound_ops, standing_ops};

use crate::changing::{change, number_of, put};
use crate::numbers::CppcNumbers;
use crate::opening::opened;
use crate::refusal::refusal;
use crate::reply::CppcReply;
use crate::setting::{set_bound, set_changed};
use crate::standings::standing;
use crate::{CppcPlan, CppcRequest};
use pw_base::Memory;
use pw_regs::Ops;
use std::alloc::Global;
use std::marker::Model;

/// Makes the change of an accepted request, appends its operations and says where the processor
/// then stands.
fn accept(
    plan: &CppcPlan,
    numbers: &mut CppcNumbers,
    request: CppcRequest,
    ops: &mut Ops,
) -> CppcReply
    requires request { Has plan.now request }
    requires fits { AreNumbers plan.now numbers.old }
    requires accepted { refusal plan.now numbers.old request ≡ None }
    requires room { HasRoom ops.old (ops_bound plan.now request) }
    ensures reply { result
        ≡ CppcReply.Stands (stands plan.now (changed numbers.old request) (cpu_of request)) }
    ensures list { ops.new ≡ record ops.old {
      elements = ops.old.elements ++ bound_ops plan.now request
          ++ standing_ops plan.now numbers.old (changed numbers.old request) (cpu_of request);
    } }
    ensures after { numbers.new ≡ changed numbers.old request }
{
    let cpu = request.cpu();
    let Some(place) = plan.domain_of(cpu) else {
        unreachable!()
    };
    let before = standing(plan, numbers, place, cpu);
    change(numbers, request);
    let after = standing(plan, numbers, place, cpu);
    set_bound(plan, request, ops);
    set_changed(plan, place, cpu, before, after, ops);
    CppcReply::Stands { value: after }
}

/// What processors ask for and allow. Contracts see the lists of their numbers.
#[derive(Drop)]
pub struct CppcState {
    numbers: CppcNumbers,
}

impl Model for CppcState {
    ghost use Rattle.pw_cppc.specs.declared.numbers.CppcNumbers.{CppcNumbers as plain};

    ghost Value = { plain };

    ghost view = { λ s. s.numbers };
}

impl CppcState {
    ghost use Rattle.std.specs.Prelude.{◌≡◌, ◌++◌, IfOk};
    ghost use Rattle.pw_cppc.specs.declared.numbers.CppcNumbers.{CppcNumbers as plain};
    ghost use Rattle.pw_cppc.specs.Requests.{Has, ops_bound};
    ghost use Rattle.pw_regs.specs.Rooms.{HasRoom};
    ghost use Rattle.pw_cppc.specs.States.{AreNumbers, number_of, opening};
    ghost use Rattle.pw_cppc.specs.Answers.{after, answer};
    ghost use Rattle.pw_cppc.specs.Operations.{ops_of};

    /// The numbers at the start: each processor asks for its highest performance, within its lowest
    /// and its highest.
    pub fn open(alloc: Global, plan: &CppcPlan) -> Result<CppcState, Memory>
        ensures opening { IfOk result (λ state. state ≡ opening plan.now) }
        ensures fits { IfOk result (λ state. AreNumbers plan.now state) }
    {
        Ok(CppcState {
            numbers: opened(alloc, plan)?,
        })
    }

    /// What they ask for and allow.
    pub fn numbers(&self) -> &CppcNumbers
        ensures { result.now ≡ self.now }
    {
        &self.numbers
    }

    /// The number that the request would change.
    pub fn number_of(&self, request: CppcRequest) -> u64
        ensures { result ≡ number_of self.now request }
    {
        number_of(&self.numbers, request)
    }

    /// Undoes what a request noted, by the number that stood before where it would write its own.
    pub fn set_back(&mut self, plan: &CppcPlan, request: CppcRequest, number: u64)
        requires request { Has plan.now request }
        requires fits { AreNumbers plan.now self.old }
        ensures { (S : plain) → self.old ≡ after plan.now S request → number ≡ number_of S request
            → self.new ≡ S }
    {
        put(&mut self.numbers, request, number);
    }

    /// Notes what the request asks for. A refusal changes nothing.
    #[tactic(auto, unfolding(crate::specs::Answers::after))]
    pub fn apply(&mut self, plan: &CppcPlan, request: CppcRequest)
        requires request { Has plan.now request }
        requires fits { AreNumbers plan.now self.old }
        ensures after { self.new ≡ after plan.now self.old request }
        ensures fits { AreNumbers plan.now self.new }
    {
        if refusal(plan, &self.numbers, request).is_none() {
            change(&mut self.numbers, request);
        }
    }

    /// Answers the request, appends its operations and notes what it asks for.
    #[tactic(auto, unfolding(crate::specs::Answers::after, crate::specs::Answers::answer, crate::specs::Operations::ops_of))]
    pub fn step(&mut self, plan: &CppcPlan, request: CppcRequest, ops: &mut Ops) -> CppcReply
        requires request { Has plan.now request }
        requires fits { AreNumbers plan.now self.old }
        requires room { HasRoom ops.old (ops_bound plan.now request) }
        ensures reply { result ≡ answer plan.now self.old request }
        ensures list { ops.new ≡ record ops.old {
          elements = ops.old.elements ++ ops_of plan.now self.old request;
        } }
        ensures after { self.new ≡ after plan.now self.old request }
        ensures fits { AreNumbers plan.now self.new }
    {
        match refusal(plan, &self.numbers, request) {
            Some(reply) => reply,
            None => accept(plan, &mut self.numbers, request, ops),
        }
    }

    /// Appends the operations that the request would have.
    #[tactic(auto, unfolding(crate::specs::Operations::ops_of))]
    pub fn operations(&mut self, plan: &CppcPlan, request: CppcRequest, ops: &mut Ops)
        requires request { Has plan.now request }
        requires fits { AreNumbers plan.now self.old }
        requires room { HasRoom ops.old (ops_bound plan.now request) }
        ensures list { ops.new ≡ record ops.old {
          elements = ops.old.elements ++ ops_of plan.now self.old request;
        } }
        ensures same { self.new ≡ self.old }
    {
        if refusal(plan, &self.numbers, request).is_none() {
            let old = number_of(&self.numbers, request);
            let _reply = accept(plan, &mut self.numbers, request, ops);
            put(&mut self.numbers, request, old);
        }
    }
}
