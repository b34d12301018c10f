ghost use Rattle.std.specs.Prelude.{◌≡◌, ◌<◌, ◌&&◌, true, length, All};
ghost use Rattle.std.specs.List.{list_any};
ghost use Rattle.pw_plan.specs.declared.domain.DomainKind.TheVariants.{Idle};
ghost use Rattle.pw_plan.specs.Covering.{covers};
ghost use Rattle.pw_model.specs.States.{IsState, with_change};
ghost use Rattle.pw_core.specs.inner.Drawn.{brought_by};
ghost use Rattle.pw_model.specs.Domains.{c_state, governs};
ghost use Rattle.pw_model.specs.Domains.{is_gathered, is_sw_all, may_enter};
ghost use Rattle.pw_model.specs.Operations.{is_drawn};

use crate::reads::vote_after;
use acpi_values::Coord;
use pw_model::{Change, State};
use pw_plan::{Domain, Plan};

/// Whether each member votes for the domain's state or a deeper one.
fn is_gathered(state: &State, change: Change, domain: &Domain) -> bool
    requires { All (λ p. p < length state.now.votes) domain.now.members }
    ensures { result ≡ is_gathered (with_change state.now change) domain.now }
{
    for member in domain.members.as_slice() {
        if u32::from(vote_after(state, change, *member).state) <= domain.index {
            return false;
        }
    }
    true
}

/// Whether software coordinates the idle domain of this processor, and it is about this C state.
fn governs(_cpu: u32, level: u8, domain: &Domain) -> bool
    requires { covers Idle _cpu domain.now ≡ true }
    ensures { result ≡ governs _cpu level domain.now }
{
    u64::from(domain.index) + 1 == u64::from(level) && !matches!(domain.coord, Coord::HwAll)
}

/// Whether each domain that governs this C state of the processor is gathered.
fn may_enter(plan: &Plan, state: &State, change: Change, cpu: u32, level: u8) -> bool
    requires { IsState plan.now state.now }
    ensures { result ≡ may_enter plan.now (with_change state.now change) cpu level }
{
    for membership in plan.idle_domains_of(cpu) {
        let domain = plan.domain(membership.place);
        if governs(cpu, level, domain) && !is_gathered(state, change, domain) {
            return false;
        }
    }
    true
}

/// The C state of a processor in the changed state.
pub fn c_state(plan: &Plan, state: &State, change: Change, cpu: u32) -> u8
    requires cpu { cpu < length plan.now.cpus }
    requires fits { IsState plan.now state.now }
    ensures { result ≡ c_state plan.now (with_change state.now change) cpu }
{
    let mut level = vote_after(state, change, cpu).state;
    while level > 0 {
        if may_enter(plan, state, change, cpu, level) {
            return level;
        }
        level -= 1;
    }
    0
}

/// Whether software coordinates the idle domain of this processor, and the change of its vote can bring it to
/// be gathered.
fn is_brought(state: &State, change: Change, domain: &Domain, cpu: u32) -> bool
    requires cover { covers Idle cpu domain.now ≡ true }
    requires cpu { cpu < length state.now.votes }
    requires members { All (λ p. p < length state.now.votes) domain.now.members }
    ensures { result ≡ brought_by state.now (with_change state.now change) cpu domain.now }
{
    !matches!(domain.coord, Coord::HwAll)
        && u32::from(state.votes.as_slice()[cpu as usize].state) <= domain.index
        && is_gathered(state, change, domain)
}

/// Whether the change of the processor's vote can bring one of its domains to be gathered.
pub fn brings_one(plan: &Plan, state: &State, change: Change, cpu: u32) -> bool
    requires cpu { cpu < length plan.now.cpus }
    requires fits { IsState plan.now state.now }
    ensures { result
        ≡ list_any (brought_by state.now (with_change state.now change) cpu) plan.now.domains }
{
    for membership in plan.idle_domains_of(cpu) {
        let domain = plan.domain(membership.place);
        if is_brought(state, change, domain, cpu) {
            return true;
        }
    }
    false
}

/// Whether a SW_ALL domain of the processor is about this C state.
fn is_set_on_all(plan: &Plan, cpu: u32, level: u8) -> bool
    ensures { result ≡ list_any (λ d. governs cpu level d && is_sw_all d.coord) plan.now.domains }
{
    for membership in plan.idle_domains_of(cpu) {
        let domain = plan.domain(membership.place);
        if governs(cpu, level, domain) && matches!(domain.coord, Coord::SwAll) {
            return true;
        }
    }
    false
}

/// Whether the change raises the C state of the processor to one that a SW_ALL domain of it is about.
pub fn is_drawn(plan: &Plan, state: &State, change: Change, cpu: u32) -> bool
    requires cpu { cpu < length plan.now.cpus }
    requires fits { IsState plan.now state.now }
    ensures { result ≡ is_drawn plan.now state.now (with_change state.now change) cpu }
{
    // The C state before costs most and is looked for last.
    let after = c_state(plan, state, change, cpu);
    after > 0
        && is_set_on_all(plan, cpu, after)
        && c_state(plan, state, Change::Nothing, cpu) < after
}
