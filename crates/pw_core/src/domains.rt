ghost use Rattle.std.specs.Prelude.{◌≡◌, ◌<◌, length, map, slice_index_or, All};
ghost use Rattle.pw_model.specs.States.{IsState, ask_of, limit_of};
ghost use Rattle.pw_model.specs.States.{with_change};
ghost use Rattle.pw_model.specs.Domains.{standing, stands_at};

use crate::reads::{ask_after, asks_of, limit_after, limits_of};
use acpi_values::Coord;
use pw_model::{Change, State};
use pw_plan::{DomainKind, Plan};

/// Where these members, which software coordinates, stand together.
fn stands_at(plan: &Plan, state: &State, change: Change, kind: DomainKind, members: &[u32]) -> u8
    requires members { All (λ p. p < length plan.now.cpus) members.now }
    requires fits { IsState plan.now state.now }
    ensures { let after = with_change state.now change in
        result ≡ stands_at (map (ask_of kind after) members.now)
        (map (limit_of kind after) members.now) }
{
    let mut limit = 0;
    let mut ask = u8::MAX;
    for member in members {
        limit = limit_after(kind, state, change, *member).max(limit);
        ask = ask_after(kind, state, change, *member).min(ask);
    }
    limit.max(ask)
}

/// Where a domain, or in a domain that hardware coordinates this member, stands in the changed
/// state.
pub fn standing(plan: &Plan, state: &State, change: Change, place: usize, cpu: u32) -> u8
    requires place { place < length plan.now.domains }
    requires cpu { cpu < length plan.now.cpus }
    requires fits { IsState plan.now state.now }
    ensures { result ≡ standing plan.now (with_change state.now change) place cpu }
{
    let domain = plan.domain(place);
    let kind = domain.kind;
    match domain.coord {
        Coord::SwAll => stands_at(plan, state, change, kind, domain.members.as_slice()),
        Coord::SwAny => stands_at(plan, state, change, kind, domain.members.as_slice()),
        Coord::HwAll => {
            limit_after(kind, state, change, cpu).max(ask_after(kind, state, change, cpu))
        }
    }
}

/// The entry of a processor, 0 where there is none.
#[inline]
fn entry(entries: &[u8], cpu: u32) -> u8
    ensures { result ≡ slice_index_or entries.now cpu 0 }
{
    match entries.get(cpu as usize) {
        None => 0,
        Some(found) => *found,
    }
}

/// Where members with these asks and limits stand together.
fn together(asks: &[u8], limits: &[u8], members: &[u32]) -> u8
    ensures { result ≡ stands_at (map (λ p. slice_index_or asks.now p 0) members.now)
        (map (λ p. slice_index_or limits.now p 0) members.now) }
{
    let mut limit = 0;
    let mut ask = u8::MAX;
    for member in members {
        limit = entry(limits, *member).max(limit);
        ask = entry(asks, *member).min(ask);
    }
    limit.max(ask)
}

/// Where a domain, or in a domain that hardware coordinates this member, stands.
pub fn standing_now(plan: &Plan, state: &State, place: usize, cpu: u32) -> u8
    requires { place < length plan.now.domains }
    ensures { result ≡ standing plan.now state.now place cpu }
{
    let domain = plan.domain(place);
    let asks = asks_of(domain.kind, state);
    let limits = limits_of(domain.kind, state);
    match domain.coord {
        Coord::SwAll => together(asks, limits, domain.members.as_slice()),
        Coord::SwAny => together(asks, limits, domain.members.as_slice()),
        Coord::HwAll => entry(limits, cpu).max(entry(asks, cpu)),
    }
}
