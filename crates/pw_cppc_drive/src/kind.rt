//! Desired performance as a kind of coordination whose histories are printed.
ghost use Rattle.std.specs.Prelude.{◌≡◌, ◌≤◌, [], is_some, IfSome};
ghost use Rattle.pw_cppc.specs.declared.numbers.CppcNumbers.{CppcNumbers as numbers};
ghost use Rattle.pw_cppc.specs.Requests.{Has};
ghost use Rattle.pw_cppc.specs.Answers.{after, answer};
ghost use Rattle.pw_cppc.specs.History.{StatesRequest};
ghost use Rattle.pw_cppc.specs.Operations.{ops_of};
ghost use Rattle.pw_cppc_drive.specs.HistoryText.{performance_words};
ghost use Rattle.pw_cppc_drive.specs.inner.Known.{IsKept, most_of};

use crate::paths::cppc_path_texts;
use crate::words::{put_reply, put_request};
use pw_base::{Failed, Memory, Sink};
use pw_cppc::{
    CppcEntry, CppcPlan, CppcReply, CppcRequest, CppcStandings, CppcState, MOST_OF_A_REQUEST,
    open_all,
};
use pw_history::Kind;
use pw_regs::Ops;
use pw_text::{Page, PathTexts};
use std::alloc::Global;

/// Desired performance.
pub(crate) struct Performance;

/// What is kept of the numbers: where the replies are known, where processors stand is enough.
#[derive(Drop)]
pub(crate) enum Followed {
    Numbers(CppcState),
    Standings(CppcStandings),
}

impl Kind for Performance {
    type Plan = CppcPlan;

    type Request = CppcRequest;

    type Reply = CppcReply;

    type Entry = CppcEntry;

    type State = CppcState;

    type Followed = Followed;

    ghost words = { performance_words };

    ghost states = { StatesRequest };

    ghost has = { Has };

    ghost most = { most_of };

    ghost keeps = { IsKept };

    #[tactic(auto, using(crate::proofs::Requested::entry_cpu, crate::proofs::Requested::entry_has))]
    #[inline]
    fn request(_plan: &CppcPlan, entry: &CppcEntry) -> CppcRequest {
        entry.request()
    }

    #[inline]
    fn fault(entry: &CppcEntry) -> u32 {
        entry.fault
    }

    #[inline]
    fn cpu(request: CppcRequest) -> u32 {
        request.cpu()
    }

    fn most_operations(plan: &CppcPlan) -> u32 {
        plan.opening_bound().max(MOST_OF_A_REQUEST)
    }

    #[tactic(auto, using(crate::proofs::Pathed::path_text))]
    fn paths(alloc: Global, plan: &CppcPlan) -> Result<PathTexts, Memory> {
        cppc_path_texts(alloc, plan)
    }

    fn open_all(plan: &CppcPlan, ops: &mut Ops) {
        open_all(plan, ops);
    }

    fn open(alloc: Global, plan: &CppcPlan, known: bool) -> Result<Followed, Memory> {
        if known {
            return Ok(Followed::Standings(CppcStandings::open(alloc, plan)?));
        }
        Ok(Followed::Numbers(CppcState::open(alloc, plan)?))
    }

    #[tactic(auto, using(crate::proofs::Requested::bound_small))]
    #[inline]
    fn step(
        plan: &CppcPlan,
        kept: &mut Followed,
        request: CppcRequest,
        known: Option<CppcReply>,
        ops: &mut Ops,
    ) -> CppcReply
        requires request { Has plan.now request }
        requires kept { (S : numbers) × IsKept plan.now (is_some known) S kept.old
            × IfSome known (λ reply. answer plan.now S request ≡ reply) }
        requires none { ops.old.elements ≡ [] }
        requires room { most_of plan.now ≤ ops.old.capacity }
        ensures reply { (S : numbers) → IsKept plan.now (is_some known) S kept.old
            → IfSome known (λ reply. answer plan.now S request ≡ reply)
            → result ≡ answer plan.now S request }
        ensures list { (S : numbers) → IsKept plan.now (is_some known) S kept.old
            → IfSome known (λ reply. answer plan.now S request ≡ reply)
            → ops.new.elements ≡ ops_of plan.now S request }
        ensures after { (S : numbers) → IsKept plan.now (is_some known) S kept.old
            → IfSome known (λ reply. answer plan.now S request ≡ reply)
            → IsKept plan.now (is_some known) (after plan.now S request) kept.new }
        ensures room { ops.new.capacity ≡ ops.old.capacity }
    {
        match kept {
            Followed::Numbers(state) => state.step(plan, request, ops),
            Followed::Standings(standings) => {
                let Some(reply) = known else { unreachable!() };
                standings.operations(plan, request, reply, ops);
                standings.follow(plan, request, reply);
                reply
            }
        }
    }

    #[tactic(auto, using(crate::proofs::Requested::bound_small))]
    fn operations(plan: &CppcPlan, kept: &mut Followed, request: CppcRequest, ops: &mut Ops) {
        let Followed::Numbers(state) = kept else {
            unreachable!()
        };
        state.operations(plan, request, ops);
    }

    #[inline]
    fn put_request<K: Sink>(
        page: &mut Page,
        sink: &mut K,
        request: CppcRequest,
    ) -> Result<(), Failed> {
        put_request(page, sink, request)
    }

    #[inline]
    fn put_reply<K: Sink>(page: &mut Page, sink: &mut K, reply: CppcReply) -> Result<(), Failed> {
        put_reply(page, sink, reply)
    }
}
