ghost use Rattle.std.specs.Prelude.{◌≡◌, List};
ghost use Rattle.acpi_values.specs.declared.operation.Op.{Op as operation};
ghost use Rattle.pw_plan.specs.Orderly.{is_scaled};
ghost use Rattle.pw_model.specs.Records.{record_count, scaled_count};
ghost use Rattle.pw_machine.specs.Walk.{next_turn};
ghost use Rattle.pw_walker.specs.Places.{IsSomePlace, walk_of};

use crate::place::Place;
use pw_plan::{Domain, DomainKind, Plan};

/// Whether a domain is of performance or throttling.
fn is_scaled(domain: &Domain) -> bool
    ensures { result ≡ is_scaled domain.now }
{
    !matches!(domain.kind, DomainKind::Idle)
}

/// How many domains are of performance or throttling: they come first, so halving finds where they end.
pub fn scaled_count(plan: &Plan) -> usize
    ensures { result ≡ scaled_count plan.now }
{
    let mut low = 0;
    let mut high = plan.domains.as_slice().len();
    while low < high {
        let middle = low + (high - low) / 2;
        if is_scaled(plan.domain(middle)) {
            low = middle + 1;
        } else {
            high = middle;
        }
    }
    low
}

/// How many records the plan has: of containers, of domains of performance and throttling, and of groups.
pub fn record_count(plan: &Plan) -> u32
    ensures { result ≡ record_count plan.now }
{
    let containers = plan.containers.as_slice().len();
    let groups = plan.groups.as_slice().len();
    (containers + scaled_count(plan) + groups) as u32
}

/// The turn of the record that comes next, or the journal's, `record_count`, where all are held.
pub fn next_turn(plan: &Plan, place: &Place) -> u32
    requires { IsSomePlace plan.now place.now }
    ensures { (ops : List operation) → result ≡ next_turn plan.now (walk_of place.now ops) }
{
    let containers = plan.containers.as_slice().len();
    match *place {
        Place::Over { .. } => record_count(plan),
        Place::Scaled { domain } => containers as u32 + domain,
        Place::Grouped { group } => (containers + scaled_count(plan)) as u32 + group,
        Place::Climbing { node, .. } => node,
    }
}
