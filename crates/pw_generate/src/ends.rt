ghost use Rattle.std.specs.Prelude.{◌≡◌, ◌<◌, ◌∷◌, ◌++◌, [], codes, decimal, is_ok, length, slice_index_or};
ghost use Rattle.pw_text.specs.Lines.{text_of};
ghost use Rattle.pw_text.specs.Puts.{PutsText};
ghost use Rattle.pw_model.specs.States.{IsState};
ghost use Rattle.pw_generate.specs.inner.Ending.{end_lines, standing_behind, standings_behind, states_behind};

use pw_base::{Failed, Sink};
use pw_core::{container_state, standing_now};
use pw_model::State;
use pw_plan::{DomainKind, Plan};
use pw_text::{Page, put_number};

/// Puts a number behind a space.
fn put_behind<K: Sink>(page: &mut Page, sink: &mut K, number: u8) -> Result<(), Failed>
    ensures { PutsText K.Sink sink.old sink.new page.old page.new
        (32 ∷ decimal number) (is_ok result) }
{
    page.put(sink, b" ")?;
    put_number(page, sink, u64::from(number))
}

/// Puts the state of each container behind a space.
fn put_states<K: Sink>(
    page: &mut Page,
    sink: &mut K,
    plan: &Plan,
    state: &State,
) -> Result<(), Failed>
    requires { IsState plan.now state.now }
    ensures { PutsText K.Sink sink.old sink.new page.old page.new
        (states_behind plan.now state.now) (is_ok result) }
{
    for node in 0..plan.containers.as_slice().len() {
        put_behind(page, sink, container_state(plan, state, node as u32))?;
    }
    Ok(())
}

/// The first of the members of a domain.
fn first_of(members: &[u32]) -> u32
    ensures { result ≡ slice_index_or members.now 0 0 }
{
    match members.first() {
        None => 0,
        Some(first) => *first,
    }
}

/// Puts where a domain stands behind a space, if it is one of performance.
fn put_standing<K: Sink>(
    page: &mut Page,
    sink: &mut K,
    plan: &Plan,
    state: &State,
    place: usize,
) -> Result<(), Failed>
    requires { place < length plan.now.domains }
    ensures { PutsText K.Sink sink.old sink.new page.old page.new
        (standing_behind plan.now state.now place) (is_ok result) }
{
    let domain = plan.domain(place);
    let first = first_of(domain.members.as_slice());
    match domain.kind {
        DomainKind::Perf => put_behind(page, sink, standing_now(plan, state, place, first)),
        DomainKind::Throttle => Ok(()),
        DomainKind::Idle => Ok(()),
    }
}

/// Puts where each performance domain stands behind a space.
fn put_standings<K: Sink>(
    page: &mut Page,
    sink: &mut K,
    plan: &Plan,
    state: &State,
) -> Result<(), Failed>
    ensures { PutsText K.Sink sink.old sink.new page.old page.new
        (standings_behind plan.now state.now) (is_ok result) }
{
    for place in 0..plan.domains.as_slice().len() {
        put_standing(page, sink, plan, state, place)?;
    }
    Ok(())
}

/// Puts the line of the containers.
fn put_containers_line<K: Sink>(
    page: &mut Page,
    sink: &mut K,
    plan: &Plan,
    state: &State,
) -> Result<(), Failed>
    requires { IsState plan.now state.now }
    ensures { PutsText K.Sink sink.old sink.new page.old page.new
        (codes "containers" ++ (states_behind plan.now state.now ++ 10 ∷ [])) (is_ok result) }
{
    page.put(sink, b"containers")?;
    put_states(page, sink, plan, state)?;
    page.put(sink, b"\n")
}

/// Puts the line of the performance domains.
fn put_standing_line<K: Sink>(
    page: &mut Page,
    sink: &mut K,
    plan: &Plan,
    state: &State,
) -> Result<(), Failed>
    ensures { PutsText K.Sink sink.old sink.new page.old page.new
        (codes "standing" ++ (standings_behind plan.now state.now ++ 10 ∷ [])) (is_ok result) }
{
    page.put(sink, b"standing")?;
    put_standings(page, sink, plan, state)?;
    page.put(sink, b"\n")
}

/// Puts the lines of where the containers and the performance domains stand.
pub fn put_ends<K: Sink>(
    page: &mut Page,
    sink: &mut K,
    plan: &Plan,
    state: &State,
) -> Result<(), Failed>
    requires { IsState plan.now state.now }
    ensures { PutsText K.Sink sink.old sink.new page.old page.new
        (text_of (end_lines plan.now state.now)) (is_ok result) }
{
    put_containers_line(page, sink, plan, state)?;
    put_standing_line(page, sink, plan, state)
}
