ghost use Rattle.std.specs.Prelude.{◌≡◌, ◌↔◌, ◌≤◌, ◌<◌, ◌+◌, ◌^◌, ◌++◌, ◌∷◌, [], None};
ghost use Rattle.std.specs.Prelude.{length, vec_capacity, IfOk, IfErr, IfSome, OnOk};
ghost use Rattle.std.specs.Result.{result_err};
ghost use Rattle.pw_regs.specs.Seen.{registers_seen};
ghost use Rattle.pw_regs.specs.Doing.{Did};
ghost use Rattle.pw_cppc.specs.declared.request.CppcRequest.{CppcRequest as asked};
ghost use Rattle.pw_cppc.specs.Requests.{Has, opening_bound, ops_bound};
ghost use Rattle.pw_cppc.specs.Answers.{answer};
ghost use Rattle.pw_cppc.specs.History.{Faultless, replay};
ghost use Rattle.pw_cppc.specs.Operations.{opening_ops, ops_of};
ghost use Rattle.pw_cppc_desk.specs.Entries.{done_of, entry_as};
ghost use Rattle.pw_cppc_desk.specs.Ledgered.{IsLedgerOf};

use pw_base::Memory;
use pw_cppc::{
    CppcEntry, CppcPlan, CppcReply, CppcRequest, CppcState, MOST_OF_A_REQUEST, open_all,
};
use pw_journal::operate_all;
use pw_regs::{Ops, Registers};
use std::alloc::Global;
use std::marker::Model;

/// How many operations the start or any request has at most.
fn most_operations(plan: &CppcPlan) -> u32
    ensures opening { opening_bound plan.now ≤ result }
    ensures requests { (q : asked) → ops_bound plan.now q ≤ result }
{
    plan.opening_bound().max(MOST_OF_A_REQUEST)
}

/// The numbers at the start, and room for operations and entries.
fn prepare(
    alloc: Global,
    plan: &CppcPlan,
    capacity: u32,
) -> Result<(CppcState, Ops, Vec<CppcEntry>), Memory>
    ensures numbers { IfOk result (λ held. held.0 ≡ replay plan.now []) }
    ensures opening { IfOk result (λ held. opening_bound plan.now ≤ held.1.capacity) }
    ensures requests { IfOk result (λ held. (q : asked) → ops_bound plan.now q ≤ held.1.capacity) }
    ensures few { IfOk result (λ held. held.1.capacity < 2 ^ 32) }
    ensures empty { IfOk result (λ held. held.2.items ≡ []) }
    ensures space { IfOk result (λ held. capacity ≤ vec_capacity held.2) }
{
    let state = CppcState::open(alloc, plan)?;
    let ops = Ops::new(alloc, most_operations(plan))?;
    let entries = Vec::with_capacity(alloc, capacity as usize)?;
    Ok((state, ops, entries))
}

/// What processors ask for and allow, what was asked, entry by entry, and the registers that were
/// operated for it. It takes its room when it is opened, and none later. No call reads an entry before
/// `finish`.
#[derive(Drop)]
pub struct Ledger<R> {
    state: CppcState,
    ops: Ops,
    entries: Vec<CppcEntry>,
    capacity: u32,
    stopped: bool,
    regs: R,
}

impl<R> Model for Ledger<R> {
    ghost use Rattle.std.specs.Prelude.{◌≡◌, ◌≤◌, ◌<◌, ◌^◌, is_some, vec_len, vec_capacity};
    ghost use Rattle.pw_cppc.specs.History.{fault_at};
    ghost use Rattle.pw_cppc_desk.specs.Ledgered.{Ledgered};

    ghost Value = { Ledgered R };

    ghost view = { λ w. record {
      numbers = w.state;
      entries = w.entries.items;
      capacity = w.capacity;
      room = w.ops.capacity;
      regs = w.regs;
    } };

    ghost invariant = { λ w. (w.capacity < 2 ^ 32) × (w.ops.capacity < 2 ^ 32)
        × (vec_len w.entries ≤ w.capacity) × (w.capacity ≤ vec_capacity w.entries)
        × (w.stopped ≡ is_some (fault_at w.entries.items)) };
}

impl<R> Ledger<R> {
    /// The work of a plan before any request, with room for so many entries, over these registers. Where
    /// there is no memory for it, it gives the registers back.
    pub fn open(alloc: Global, plan: &CppcPlan, capacity: u32, regs: R) -> Result<Ledger<R>, R>
        ensures of { IfOk result (IsLedgerOf plan.now) }
        ensures entries { IfOk result (λ w. w.entries ≡ []) }
        ensures capacity { IfOk result (λ w. w.capacity ≡ capacity) }
        ensures regs { IfOk result (λ w. w.regs ≡ regs) }
        ensures given_back { IfErr result (λ back. back ≡ regs) }
    {
        let Ok((state, ops, entries)) = prepare(alloc, plan, capacity) else {
            return Err(regs);
        };
        Ok(Ledger {
            state,
            ops,
            entries,
            capacity,
            stopped: false,
            regs,
        })
    }

    /// How many entries there are.
    pub fn len(&self) -> u32
        ensures { result ≡ length self.now.entries }
    {
        self.entries.len() as u32
    }

    /// How many entries there may be.
    pub fn capacity(&self) -> u32
        ensures { result ≡ self.now.capacity }
    {
        self.capacity
    }

    /// The place of the entry that is a fault, counted from 1. It is the last.
    pub fn fault_at(&self) -> Option<u32>
        ensures none { result ≡ None ↔ Faultless self.now.entries }
        ensures last { IfSome result (λ place. place ≡ length self.now.entries) }
    {
        if self.stopped { Some(self.len()) } else { None }
    }

    /// The entries, in order, and the registers.
    pub fn finish(self) -> (Vec<CppcEntry>, R)
        ensures entries { result.0.items ≡ self.entries }
        ensures regs { result.1 ≡ self.regs }
    {
        let Ledger {
            state: _,
            ops: _,
            entries,
            capacity: _,
            stopped: _,
            regs,
        } = self;
        (entries, regs)
    }

    /// Appends the entry of a request that ended with this fault, 0 for none.
    fn note(&mut self, seat: u32, request: CppcRequest, fault: u32)
        requires room { length self.old.entries < self.old.capacity }
        requires faultless { Faultless self.old.entries }
        ensures { self.new ≡ record self.old {
          entries = self.old.entries ++ entry_as seat request fault ∷ [];
        } }
    {
        self.entries
            .push_reserved(CppcEntry::of(seat, request, fault));
        self.stopped = fault > 0;
    }
}

impl<R: Registers> Ledger<R> {
    /// Does the operations at the start, in order, before there are entries. At a fault it answers
    /// how many of them were done. It takes no memory.
    pub fn operate_opening(&mut self, plan: &CppcPlan) -> Result<(), u32>
        requires of { IsLedgerOf plan.now self.old }
        requires empty { self.old.entries ≡ [] }
        ensures of { IsLedgerOf plan.now self.new }
        ensures entries { self.new.entries ≡ [] }
        ensures capacity { self.new.capacity ≡ self.old.capacity }
        ensures within { IfErr result (λ k. k < length (opening_ops plan.now)) }
        ensures did { Did (opening_bound plan.now) (done_of result (opening_ops plan.now)) (result_err result)
            (registers_seen R.Registers self.old.regs) (registers_seen R.Registers self.new.regs) }
    {
        self.ops.clear();
        open_all(plan, &mut self.ops);
        operate_all(&mut self.regs, self.ops.list())
    }

    /// Answers a request that a seat made, does its operations, in order, and appends its entry. At a
    /// fault it answers how many of them were done, the numbers are as they were, and there can be no other
    /// request. It takes no memory.
    pub fn make(
        &mut self,
        plan: &CppcPlan,
        seat: u32,
        request: CppcRequest,
    ) -> Result<CppcReply, u32>
        requires has { Has plan.now request }
        requires of { IsLedgerOf plan.now self.old }
        requires room { length self.old.entries < self.old.capacity }
        requires faultless { Faultless self.old.entries }
        ensures of { IsLedgerOf plan.now self.new }
        ensures capacity { self.new.capacity ≡ self.old.capacity }
        ensures reply { IfOk result (λ reply.
            reply ≡ answer plan.now (replay plan.now self.old.entries) request) }
        ensures entry { OnOk result (
            self.new.entries ≡ self.old.entries ++ entry_as seat request 0 ∷ []) }
        ensures fault { IfErr result (λ k.
            self.new.entries ≡ self.old.entries ++ entry_as seat request (k + 1) ∷ []) }
        ensures within { IfErr result (λ k.
            k < length (ops_of plan.now (replay plan.now self.old.entries) request)) }
        ensures did { Did (ops_bound plan.now request)
            (done_of result (ops_of plan.now (replay plan.now self.old.entries) request)) (result_err result)
            (registers_seen R.Registers self.old.regs) (registers_seen R.Registers self.new.regs) }
    {
        self.ops.clear();
        let old = self.state.number_of(request);
        let reply = self.state.step(plan, request, &mut self.ops);
        match operate_all(&mut self.regs, self.ops.list()) {
            Ok(()) => {
                self.note(seat, request, 0);
                Ok(reply)
            }
            Err(done) => {
                self.state.set_back(plan, request, old);
                self.note(seat, request, done + 1);
                Err(done)
            }
        }
    }
}
