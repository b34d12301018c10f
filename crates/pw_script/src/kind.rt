//! Processor power as a kind of coordination whose histories are printed.
ghost use Rattle.std.specs.Prelude.{◌≡◌, ◌≤◌, [], is_some, IfSome};
ghost use Rattle.pw_plan.specs.Requests.{Has};
ghost use Rattle.pw_model.specs.declared.state.State.{State as state};
ghost use Rattle.pw_model.specs.Answers.{after, answer};
ghost use Rattle.pw_model.specs.Operations.{ops_of};
ghost use Rattle.pw_model.specs.History.{StatesRequest};
ghost use Rattle.pw_script.specs.HistoryText.{power_words};
ghost use Rattle.pw_script.specs.inner.Known.{IsKept, most_of};

use crate::known::step;
use crate::paths::path_texts;
use crate::words::{put_reply, put_request};
use pw_base::{Failed, Memory, Sink};
use pw_core::{Ops, State, open_all};
use pw_history::Kind;
use pw_model::{HistoryEntry, Reply};
use pw_plan::{MOST_OF_A_REQUEST, Plan, Request};
use pw_text::{Page, PathTexts};
use std::alloc::Global;

/// Processor power.
pub(crate) struct Power;

impl Kind for Power {
    type Plan = Plan;

    type Request = Request;

    type Reply = Reply;

    type Entry = HistoryEntry;

    type State = State;

    type Followed = State;

    ghost words = { power_words };

    ghost states = { StatesRequest };

    ghost has = { Has };

    ghost most = { most_of };

    ghost keeps = { IsKept };

    #[tactic(auto, using(pw_model::proofs::Staying::request_cpu, pw_model::proofs::Staying::request_has))]
    #[inline]
    fn request(_plan: &Plan, entry: &HistoryEntry) -> Request {
        entry.request()
    }

    #[inline]
    fn fault(entry: &HistoryEntry) -> u32 {
        entry.fault
    }

    #[inline]
    fn cpu(request: Request) -> u32 {
        request.cpu()
    }

    fn most_operations(plan: &Plan) -> u32 {
        plan.opening_bound().max(MOST_OF_A_REQUEST)
    }

    #[tactic(auto, using(crate::proofs::Pathed::path_text))]
    fn paths(alloc: Global, plan: &Plan) -> Result<PathTexts, Memory> {
        path_texts(alloc, plan)
    }

    fn open_all(plan: &Plan, ops: &mut Ops) {
        open_all(plan, ops);
    }

    fn open(alloc: Global, plan: &Plan, _known: bool) -> Result<State, Memory> {
        State::open(alloc, plan)
    }

    #[tactic(auto, using(pw_plan::proofs::RequestBounds::bound_small))]
    #[inline]
    fn step(
        plan: &Plan,
        kept: &mut State,
        request: Request,
        known: Option<Reply>,
        ops: &mut Ops,
    ) -> Reply
        requires request { Has plan.now request }
        requires kept { (S : state) × IsKept plan.now (is_some known) S kept.old
            × IfSome known (λ reply. answer plan.now S request ≡ reply) }
        requires none { ops.old.elements ≡ [] }
        requires room { most_of plan.now ≤ ops.old.capacity }
        ensures reply { (S : state) → IsKept plan.now (is_some known) S kept.old
            → IfSome known (λ reply. answer plan.now S request ≡ reply)
            → result ≡ answer plan.now S request }
        ensures list { (S : state) → IsKept plan.now (is_some known) S kept.old
            → IfSome known (λ reply. answer plan.now S request ≡ reply)
            → ops.new.elements ≡ ops_of plan.now S request }
        ensures after { (S : state) → IsKept plan.now (is_some known) S kept.old
            → IfSome known (λ reply. answer plan.now S request ≡ reply)
            → IsKept plan.now (is_some known) (after plan.now S request) kept.new }
        ensures room { ops.new.capacity ≡ ops.old.capacity }
    {
        step(plan, kept, request, known, ops)
    }

    #[tactic(auto, using(pw_plan::proofs::RequestBounds::bound_small))]
    #[inline]
    fn operations(plan: &Plan, kept: &mut State, request: Request, ops: &mut Ops) {
        kept.operations(plan, request, ops);
    }

    #[inline]
    fn put_request<K: Sink>(page: &mut Page, sink: &mut K, request: Request) -> Result<(), Failed> {
        put_request(page, sink, request)
    }

    #[inline]
    fn put_reply<K: Sink>(page: &mut Page, sink: &mut K, reply: Reply) -> Result<(), Failed> {
        put_reply(page, sink, reply)
    }
}
