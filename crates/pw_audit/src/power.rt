//! Processor power as a kind of coordination whose histories are audited.
ghost use Rattle.std.specs.Prelude.{◌≡◌, ◌∷◌, ◌++◌, codes, decimal, take, OnOk};
ghost use Rattle.std.specs.List.{flat_map};
ghost use Rattle.pw_text.specs.Behind.{behind};
ghost use Rattle.pw_model.specs.States.{IsState};
ghost use Rattle.pw_script.specs.Asking.{IsNarrowRequest};
ghost use Rattle.pw_script.specs.HistoryText.{power_words, reply_words, request_words, tolerance_words};
ghost use Rattle.pw_script.specs.Telling.{IsNarrow};
ghost use Rattle.pw_script.specs.inner.Known.{most_of};

use crate::kind::Audited;
use crate::words::{push, push_labelled};
use acpi_values::Chain;
use pw_base::Memory;
use pw_core::{Ops, State, open_all};
use pw_model::{HistoryEntry, Reply};
use pw_plan::{ANY_LATENCY, MOST_OF_A_REQUEST, Plan, Request};
use pw_script::{Line, path_texts, plans_have_segments};
use pw_text::PathTexts;
use std::alloc::Global;

/// Processor power.
pub struct Power;

impl Audited for Power {
    type Plan = Plan;

    type Request = Request;

    type Reply = Reply;

    type Entry = HistoryEntry;

    type State = State;

    type Line = Line;

    ghost words = { power_words };

    ghost is_narrow = { IsNarrow };

    ghost is_narrow_request = { IsNarrowRequest };

    ghost fits = { IsState };

    ghost ask = { λ line. line.request };

    ghost most = { most_of };

    fn plan_tells(plan: &Plan) {
        plans_have_segments(plan);
    }

    fn request_known(request: Request) {
        match request {
            Request::Idle { .. } => {}
            Request::Wake { .. } => {}
            Request::Perf { .. } => {}
            Request::Throttle { .. } => {}
            Request::PerfLimit { .. } => {}
            Request::ThrottleLimit { .. } => {}
        }
    }

    fn request_of(line: &Line) -> Request {
        line.request
    }

    fn cpus(plan: &Plan) -> u32 {
        plan.cpus.as_slice().len() as u32
    }

    fn cpu(request: Request) -> u32 {
        request.cpu()
    }

    fn entry(request: Request, fault: u32) -> HistoryEntry {
        entry_with(request, fault)
    }

    fn fault(entry: &HistoryEntry) -> u32 {
        entry.fault
    }

    #[tactic(auto, using(crate::proofs::PowerTells::power_texts))]
    fn paths(alloc: Global, plan: &Plan) -> Result<PathTexts, Memory> {
        path_texts(alloc, plan)
    }

    fn most_operations(plan: &Plan) -> u32 {
        plan.opening_bound().max(MOST_OF_A_REQUEST)
    }

    fn open(alloc: Global, plan: &Plan) -> Result<State, Memory> {
        State::open(alloc, plan)
    }

    fn open_all(plan: &Plan, ops: &mut Ops) {
        open_all(plan, ops);
    }

    #[tactic(auto, using(pw_plan::proofs::RequestBounds::bound_small))]
    fn step(plan: &Plan, state: &mut State, request: Request, ops: &mut Ops) -> Reply {
        state.step(plan, request, ops)
    }

    #[tactic(auto, using(pw_plan::proofs::RequestBounds::bound_small))]
    fn operations(plan: &Plan, state: &mut State, request: Request, ops: &mut Ops) {
        state.operations(plan, request, ops);
    }

    fn push_request(line: &mut Vec<u8>, request: Request) -> Result<(), Memory> {
        push_request(line, request)
    }

    fn push_reply(line: &mut Vec<u8>, reply: Reply) -> Result<(), Memory> {
        push_reply(line, reply)
    }
}

/// An entry of seat 0, of a processor.
fn plain(cpu: u32, code: u32, argument: u32, tolerance: u32, fault: u32) -> HistoryEntry
    ensures { result ≡ record {
      seat = 0;
      cpu = cpu;
      code = code;
      argument = argument;
      tolerance = tolerance;
      fault = fault;
    } }
{
    HistoryEntry {
        seat: 0,
        cpu,
        code,
        argument,
        tolerance,
        fault,
    }
}

/// The entry of a request, with this fault.
#[tactic(auto, unfolding(pw_model::specs::States::any_latency))]
fn entry_with(request: Request, fault: u32) -> HistoryEntry
    ensures { result ≡ power_words.faulted request fault }
{
    match request {
        Request::Idle {
            cpu,
            state,
            tolerance,
        } => plain(cpu, 1, state, tolerance, fault),
        Request::Wake { cpu } => plain(cpu, 2, 0, ANY_LATENCY, fault),
        Request::Perf { cpu, index } => plain(cpu, 3, index, ANY_LATENCY, fault),
        Request::Throttle { cpu, index } => plain(cpu, 4, index, ANY_LATENCY, fault),
        Request::PerfLimit { cpu, n } => plain(cpu, 5, n, ANY_LATENCY, fault),
        Request::ThrottleLimit { cpu, n } => plain(cpu, 6, n, ANY_LATENCY, fault),
    }
}

/// Puts the tolerance of an idle request, unless it bears any latency.
#[tactic(auto, unfolding(pw_model::specs::States::any_latency))]
fn push_tolerance(line: &mut Vec<u8>, tolerance: u32) -> Result<(), Memory>
    ensures { OnOk result (line.new.items ≡ line.old.items ++ behind (tolerance_words tolerance)) }
{
    if tolerance == ANY_LATENCY {
        return Ok(());
    }
    push_labelled(line, b" ", tolerance)
}

/// Puts an idle request behind its processor's path.
fn push_idle(line: &mut Vec<u8>, state: u32, tolerance: u32) -> Result<(), Memory>
    ensures { OnOk result (line.new.items ≡ line.old.items
        ++ ((codes " idle " ++ decimal state) ++ behind (tolerance_words tolerance))) }
{
    push_labelled(line, b" idle ", state)?;
    push_tolerance(line, tolerance)
}

/// Puts what was asked behind its processor's path.
fn push_request(line: &mut Vec<u8>, request: Request) -> Result<(), Memory>
    ensures { OnOk result (line.new.items ≡ line.old.items ++ behind (request_words request)) }
{
    match request {
        Request::Idle {
            state,
            tolerance,
            ..
        } => push_idle(line, state, tolerance),
        Request::Wake { .. } => push(line, b" wake"),
        Request::Perf { index, .. } => push_labelled(line, b" perf ", index),
        Request::Throttle { index, .. } => push_labelled(line, b" throttle ", index),
        Request::PerfLimit { n, .. } => push_labelled(line, b" plimit ", n),
        Request::ThrottleLimit { n, .. } => push_labelled(line, b" tlimit ", n),
    }
}

/// Puts states, each behind a space.
fn push_states(line: &mut Vec<u8>, states: &[u8]) -> Result<(), Memory>
    ensures { OnOk result (line.new.items ≡ line.old.items ++ flat_map (λ s. 32 ∷ decimal s) states.now) }
{
    for state in states {
        push_labelled(line, b" ", u32::from(*state))?;
    }
    Ok(())
}

/// The states of a chain.
#[tactic(auto, using(pw_script::proofs::Spacing::take_least))]
fn states_of(chain: &Chain) -> &[u8]
    ensures { result.now ≡ take chain.now.len chain.now.states }
{
    let states: &[u8] = &chain.states;
    let len = usize::from(chain.len).min(states.len());
    &states[..len]
}

/// Puts the states that a processor entered.
fn push_chain(line: &mut Vec<u8>, chain: &Chain) -> Result<(), Memory>
    ensures { OnOk result (line.new.items ≡ line.old.items
        ++ (codes " entered" ++ flat_map (λ s. 32 ∷ decimal s) (take chain.now.len chain.now.states))) }
{
    push(line, b" entered")?;
    push_states(line, states_of(chain))
}

/// Puts that a domain can't be coordinated.
fn push_unfit(line: &mut Vec<u8>, domain: u32, why: u8) -> Result<(), Memory>
    ensures { OnOk result (line.new.items ≡ line.old.items
        ++ ((codes " refused unfit domain " ++ decimal domain) ++ (codes " why " ++ decimal why))) }
{
    push_labelled(line, b" refused unfit domain ", domain)?;
    push_labelled(line, b" why ", u32::from(why))
}

/// Puts what a request was answered.
fn push_reply(line: &mut Vec<u8>, reply: Reply) -> Result<(), Memory>
    ensures { OnOk result (line.new.items ≡ line.old.items ++ behind (reply_words reply)) }
{
    match reply {
        Reply::Entered { chain } => push_chain(line, &chain),
        Reply::Running => push(line, b" running"),
        Reply::Stands { index } => push_labelled(line, b" stands ", index),
        Reply::NoState { count } => push_labelled(line, b" refused no state, count ", count),
        Reply::Disabled => push(line, b" refused disabled"),
        Reply::AboveLimit { limit } => push_labelled(line, b" refused above limit ", limit),
        Reply::NoTable => push(line, b" refused no table"),
        Reply::Unfit { domain, why } => push_unfit(line, domain, why),
        Reply::TooSlow { latency } => push_labelled(line, b" refused latency ", latency),
    }
}
