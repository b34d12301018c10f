ghost use Rattle.std.specs.Prelude.{◌≡◌, ◌<◌, length, map, max, min, slice_index_or};
ghost use Rattle.pw_cppc.specs.Planning.{domain_of};
ghost use Rattle.pw_cppc.specs.States.{ask_of, maximum_of, minimum_of};
ghost use Rattle.pw_cppc.specs.States.{standing, stands, stands_at, within};

use crate::CppcPlan;
use crate::numbers::CppcNumbers;
use acpi_values::Coord;

/// The number of a processor, 0 where there is none.
#[inline]
pub fn number(numbers: &[u64], cpu: u32) -> u64
    ensures { result ≡ slice_index_or numbers.now cpu 0 }
{
    match numbers.get(cpu as usize) {
        None => 0,
        Some(found) => *found,
    }
}

/// What is asked for and the least that is allowed, but no more than the most that is allowed.
fn within(ask: u64, minimum: u64, maximum: u64) -> u64
    ensures { result ≡ within ask minimum maximum }
{
    minimum.max(ask).min(maximum)
}

/// Where members with these asks, minima and maxima stand together.
#[tactic(auto, unfolding(crate::specs::States::any_performance))]
fn together(asks: &[u64], minima: &[u64], maxima: &[u64], members: &[u32]) -> u64
    ensures { result ≡ stands_at (map (λ p. slice_index_or asks.now p 0) members.now)
        (map (λ p. slice_index_or minima.now p 0) members.now)
        (map (λ p. slice_index_or maxima.now p 0) members.now) }
{
    let mut ask = 0;
    let mut minimum = 0;
    let mut maximum = u64::MAX;
    for member in members {
        ask = number(asks, *member).max(ask);
        minimum = number(minima, *member).max(minimum);
        maximum = number(maxima, *member).min(maximum);
    }
    within(ask, minimum, maximum)
}

/// Where a processor stands by its own numbers.
fn own(numbers: &CppcNumbers, cpu: u32) -> u64
    ensures { result ≡ within (ask_of numbers.now cpu) (minimum_of numbers.now cpu)
        (maximum_of numbers.now cpu) }
{
    within(
        number(numbers.asks.as_slice(), cpu),
        number(numbers.minima.as_slice(), cpu),
        number(numbers.maxima.as_slice(), cpu),
    )
}

/// Where a domain, or in a domain that hardware coordinates this member, stands.
pub fn standing(plan: &CppcPlan, numbers: &CppcNumbers, place: usize, cpu: u32) -> u64
    requires { place < length plan.now.domains }
    ensures { result ≡ standing plan.now numbers.now place cpu }
{
    let domain = plan.domain(place);
    let members = domain.members.as_slice();
    let asks = numbers.asks.as_slice();
    let minima = numbers.minima.as_slice();
    let maxima = numbers.maxima.as_slice();
    match domain.coord {
        Coord::SwAll => together(asks, minima, maxima, members),
        Coord::SwAny => together(asks, minima, maxima, members),
        Coord::HwAll => own(numbers, cpu),
    }
}

/// Where a processor's domain, or in a domain that hardware coordinates the processor, stands.
pub fn stands(plan: &CppcPlan, numbers: &CppcNumbers, cpu: u32) -> u64
    requires { domain_of plan.now cpu < length plan.now.domains }
    ensures { result ≡ stands plan.now numbers.now cpu }
{
    let Some(place) = plan.domain_of(cpu) else {
        unreachable!()
    };
    standing(plan, numbers, place, cpu)
}
