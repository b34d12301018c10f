ghost use Rattle.std.specs.Prelude.{◌≡◌, ◌∷◌, ◌++◌, codes, decimal, is_ok, take};
ghost use Rattle.std.specs.List.{flat_map};
ghost use Rattle.pw_text.specs.Puts.{PutsText};
ghost use Rattle.pw_text.specs.Behind.{behind};
ghost use Rattle.pw_script.specs.HistoryText.{reply_words, request_words, tolerance_words};

use acpi_values::Chain;
use pw_base::{Failed, Sink};
use pw_model::Reply;
use pw_plan::{ANY_LATENCY, Request};
use pw_text::{Page, put_labelled};

/// Puts the tolerance of an idle request, unless it bears any latency.
#[tactic(auto, unfolding(pw_model::specs::States::any_latency))]
fn put_tolerance<K: Sink>(page: &mut Page, sink: &mut K, tolerance: u32) -> Result<(), Failed>
    ensures { PutsText K.Sink sink.old sink.new page.old page.new
        (behind (tolerance_words tolerance)) (is_ok result) }
{
    if tolerance == ANY_LATENCY {
        return Ok(());
    }
    put_labelled(page, sink, b" ", tolerance)
}

/// Puts an idle request behind its processor's path.
fn put_idle<K: Sink>(
    page: &mut Page,
    sink: &mut K,
    state: u32,
    tolerance: u32,
) -> Result<(), Failed>
    ensures { PutsText K.Sink sink.old sink.new page.old page.new
        ((codes " idle " ++ decimal state) ++ behind (tolerance_words tolerance)) (is_ok result) }
{
    put_labelled(page, sink, b" idle ", state)?;
    put_tolerance(page, sink, tolerance)
}

/// Puts what was asked behind its processor's path.
pub(crate) fn put_request<K: Sink>(
    page: &mut Page,
    sink: &mut K,
    request: Request,
) -> Result<(), Failed>
    ensures { PutsText K.Sink sink.old sink.new page.old page.new
        (behind (request_words request)) (is_ok result) }
{
    match request {
        Request::Idle {
            state,
            tolerance,
            ..
        } => put_idle(page, sink, state, tolerance),
        Request::Wake { .. } => page.put(sink, b" wake"),
        Request::Perf { index, .. } => put_labelled(page, sink, b" perf ", index),
        Request::Throttle { index, .. } => put_labelled(page, sink, b" throttle ", index),
        Request::PerfLimit { n, .. } => put_labelled(page, sink, b" plimit ", n),
        Request::ThrottleLimit { n, .. } => put_labelled(page, sink, b" tlimit ", n),
    }
}

/// Puts states, each behind a space.
fn put_states<K: Sink>(page: &mut Page, sink: &mut K, states: &[u8]) -> Result<(), Failed>
    ensures { PutsText K.Sink sink.old sink.new page.old page.new
        (flat_map (λ s. 32 ∷ decimal s) states.now) (is_ok result) }
{
    for state in states {
        put_labelled(page, sink, b" ", u32::from(*state))?;
    }
    Ok(())
}

/// The states of a chain.
#[tactic(auto, using(crate::proofs::Spacing::take_least))]
fn states_of(chain: &Chain) -> &[u8]
    ensures { result.now ≡ take chain.now.len chain.now.states }
{
    let states: &[u8] = &chain.states;
    let len = usize::from(chain.len).min(states.len());
    &states[..len]
}

/// Puts the states that a processor entered.
fn put_chain<K: Sink>(page: &mut Page, sink: &mut K, chain: &Chain) -> Result<(), Failed>
    ensures { PutsText K.Sink sink.old sink.new page.old page.new
        (codes " entered" ++ flat_map (λ s. 32 ∷ decimal s) (take chain.now.len chain.now.states))
        (is_ok result) }
{
    page.put(sink, b" entered")?;
    put_states(page, sink, states_of(chain))
}

/// Puts that a domain can't be coordinated.
fn put_unfit<K: Sink>(page: &mut Page, sink: &mut K, domain: u32, why: u8) -> Result<(), Failed>
    ensures { PutsText K.Sink sink.old sink.new page.old page.new
        ((codes " refused unfit domain " ++ decimal domain) ++ (codes " why " ++ decimal why))
        (is_ok result) }
{
    put_labelled(page, sink, b" refused unfit domain ", domain)?;
    put_labelled(page, sink, b" why ", u32::from(why))
}

/// Puts what a request was answered.
pub(crate) fn put_reply<K: Sink>(page: &mut Page, sink: &mut K, reply: Reply) -> Result<(), Failed>
    ensures { PutsText K.Sink sink.old sink.new page.old page.new
        (behind (reply_words reply)) (is_ok result) }
{
    match reply {
        Reply::Entered { chain } => put_chain(page, sink, &chain),
        Reply::Running => page.put(sink, b" running"),
        Reply::Stands { index } => put_labelled(page, sink, b" stands ", index),
        Reply::NoState { count } => put_labelled(page, sink, b" refused no state, count ", count),
        Reply::Disabled => page.put(sink, b" refused disabled"),
        Reply::AboveLimit { limit } => put_labelled(page, sink, b" refused above limit ", limit),
        Reply::NoTable => page.put(sink, b" refused no table"),
        Reply::Unfit { domain, why } => put_unfit(page, sink, domain, why),
        Reply::TooSlow { latency } => put_labelled(page, sink, b" refused latency ", latency),
    }
}
