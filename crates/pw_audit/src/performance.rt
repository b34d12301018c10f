//! Desired performance as a kind of coordination whose histories are audited.
ghost use Rattle.std.specs.Prelude.{◌≡◌, ◌++◌, codes, decimal, OnOk};
ghost use Rattle.pw_text.specs.Behind.{behind};
ghost use Rattle.pw_cppc.specs.States.{AreNumbers};
ghost use Rattle.pw_cppc_drive.specs.HistoryText.{performance_words, reply_words, request_words};
ghost use Rattle.pw_cppc_drive.specs.Telling.{IsNarrow, IsNarrowRequest};
ghost use Rattle.pw_cppc_drive.specs.inner.Known.{most_of};

use crate::kind::Audited;
use crate::words::{push, push_labelled, push_long};
use pw_base::Memory;
use pw_cppc::{
    CppcEntry, CppcPlan, CppcReply, CppcRequest, CppcState, MOST_OF_A_REQUEST, open_all,
};
use pw_cppc_drive::{CppcLine, cppc_path_texts, cppc_plans_have_segments};
use pw_regs::Ops;
use pw_text::PathTexts;
use std::alloc::Global;

/// Desired performance.
pub struct Performance;

impl Audited for Performance {
    type Plan = CppcPlan;

    type Request = CppcRequest;

    type Reply = CppcReply;

    type Entry = CppcEntry;

    type State = CppcState;

    type Line = CppcLine;

    ghost words = { performance_words };

    ghost is_narrow = { IsNarrow };

    ghost is_narrow_request = { IsNarrowRequest };

    ghost fits = { AreNumbers };

    ghost ask = { λ line. line.request };

    ghost most = { most_of };

    fn plan_tells(plan: &CppcPlan) {
        cppc_plans_have_segments(plan);
    }

    fn request_known(request: CppcRequest) {
        match request {
            CppcRequest::Desired { .. } => {}
            CppcRequest::Minimum { .. } => {}
            CppcRequest::Maximum { .. } => {}
        }
    }

    fn request_of(line: &CppcLine) -> CppcRequest {
        line.request
    }

    fn cpus(plan: &CppcPlan) -> u32 {
        plan.cpus.as_slice().len() as u32
    }

    fn cpu(request: CppcRequest) -> u32 {
        request.cpu()
    }

    fn entry(request: CppcRequest, fault: u32) -> CppcEntry {
        CppcEntry::of(0, request, fault)
    }

    fn fault(entry: &CppcEntry) -> u32 {
        entry.fault
    }

    #[tactic(auto, using(crate::proofs::PerformanceTells::performance_texts))]
    fn paths(alloc: Global, plan: &CppcPlan) -> Result<PathTexts, Memory> {
        cppc_path_texts(alloc, plan)
    }

    fn most_operations(plan: &CppcPlan) -> u32 {
        plan.opening_bound().max(MOST_OF_A_REQUEST)
    }

    fn open(alloc: Global, plan: &CppcPlan) -> Result<CppcState, Memory> {
        CppcState::open(alloc, plan)
    }

    fn open_all(plan: &CppcPlan, ops: &mut Ops) {
        open_all(plan, ops);
    }

    #[tactic(auto, using(pw_cppc_drive::proofs::Requested::bound_small))]
    fn step(
        plan: &CppcPlan,
        state: &mut CppcState,
        request: CppcRequest,
        ops: &mut Ops,
    ) -> CppcReply {
        state.step(plan, request, ops)
    }

    #[tactic(auto, using(pw_cppc_drive::proofs::Requested::bound_small))]
    fn operations(plan: &CppcPlan, state: &mut CppcState, request: CppcRequest, ops: &mut Ops) {
        state.operations(plan, request, ops);
    }

    fn push_request(line: &mut Vec<u8>, request: CppcRequest) -> Result<(), Memory> {
        push_request(line, request)
    }

    fn push_reply(line: &mut Vec<u8>, reply: CppcReply) -> Result<(), Memory> {
        push_reply(line, reply)
    }
}

/// Puts what was asked behind its processor's path.
fn push_request(line: &mut Vec<u8>, request: CppcRequest) -> Result<(), Memory>
    ensures { OnOk result (line.new.items ≡ line.old.items ++ behind (request_words request)) }
{
    match request {
        CppcRequest::Desired { value, .. } => push_labelled(line, b" desired ", value),
        CppcRequest::Minimum { value, .. } => push_labelled(line, b" minimum ", value),
        CppcRequest::Maximum { value, .. } => push_labelled(line, b" maximum ", value),
    }
}

/// Puts between which two a performance must be.
fn push_range(line: &mut Vec<u8>, lowest: u64, highest: u64) -> Result<(), Memory>
    ensures { OnOk result (line.new.items ≡ line.old.items
        ++ ((codes " refused out of range " ++ decimal lowest) ++ (codes " " ++ decimal highest))) }
{
    push_long(line, b" refused out of range ", lowest)?;
    push_long(line, b" ", highest)
}

/// Puts what a request was answered.
fn push_reply(line: &mut Vec<u8>, reply: CppcReply) -> Result<(), Memory>
    ensures { OnOk result (line.new.items ≡ line.old.items ++ behind (reply_words reply)) }
{
    match reply {
        CppcReply::Stands { value } => push_long(line, b" stands ", value),
        CppcReply::NoTable => push(line, b" refused no table"),
        CppcReply::Unfit { why } => push_labelled(line, b" refused unfit ", u32::from(why)),
        CppcReply::OutOfRange { lowest, highest } => push_range(line, lowest, highest),
        CppcReply::Crossed { bound } => push_long(line, b" refused crossed ", bound),
    }
}
