ghost use Rattle.std.specs.Prelude.{◌≡◌, ◌<◌, ◌≤◌, ◌&&◌, ◌^◌, length, nat_le, if◌then◌else◌, ◌==◌};
ghost use Rattle.acpi_values.specs.Idle.{rows_of};
ghost use Rattle.pw_plan.specs.Places.{row_at};
ghost use Rattle.pw_model.specs.States.{IsState, idling, running, with_change};
ghost use Rattle.pw_model.specs.Containers.{child_vote, container_vote};
ghost use Rattle.pw_model.specs.Containers.{enables_to, greatest};
ghost use Rattle.pw_core.specs.inner.Known.{IsKnown, known_vote};

use crate::reads::vote_after;
use acpi_values::{IdleKind, IdleRow, IdleTable};
use pw_model::{Change, State, Vote};
use pw_plan::{Child, Plan};

/// The vote of who runs.
pub const RUNNING: Vote = Vote {
    state: 0,
    tolerance: u32::MAX,
};

/// A container whose vote was computed before.
#[derive(Clone, Copy)]
pub struct KnownVote {
    pub node: u32,
    pub vote: Vote,
}

/// What a child allows its container.
#[derive(Clone, Copy)]
struct Allowance {
    /// The deepest state, counted from 1; 0 for none.
    state: u32,
    /// The greatest wake latency, in microseconds.
    tolerance: u32,
}

/// The row of a state, counted from 1.
pub fn row(table: &IdleTable, state: u8) -> IdleRow
    requires first { 1 ≤ state }
    requires last { state ≤ length (rows_of table.now) }
    ensures { result ≡ row_at table.now state }
{
    table.states()[state as usize - 1]
}

/// What a child with this table and vote allows.
fn allowed(table: &IdleTable, vote: Vote) -> Allowance
    requires { vote.state ≤ length (rows_of table.now) }
    ensures value { result ≡ record { state = enables_to table.now vote; tolerance = vote.tolerance } }
    ensures fits { vote.tolerance < 2 ^ 32 }
{
    let state = if vote.state == 0 {
        0
    } else {
        row(table, vote.state).parent
    };
    Allowance {
        state,
        tolerance: vote.tolerance,
    }
}

/// The deepest enabled state within what is allowed, 0 where there is none.
fn deepest(table: &IdleTable, allowance: Allowance) -> u8
    requires { length (rows_of table.now) ≤ 255 }
    ensures { result ≡ greatest
        (λ i. (row_at table.now i).enabled
        && (nat_le i allowance.state && nat_le (row_at table.now i).latency allowance.tolerance))
        (length (rows_of table.now)) }
{
    let mut state = table.states().len() as u8;
    while state > 0 {
        let found = row(table, state);
        if found.enabled
            && u32::from(state) <= allowance.state
            && found.latency <= allowance.tolerance
        {
            return state;
        }
        state -= 1;
    }
    0
}

/// The vote of a processor, as its container sees it.
#[tactic(auto, unfolding(pw_model::specs::States::any_latency))]
fn cpu_vote(plan: &Plan, state: &State, change: Change, cpu: u32) -> Vote
    requires cpu { cpu < length plan.now.cpus }
    requires fits { IsState plan.now state.now }
    ensures { result ≡ child_vote plan.now (with_change state.now change) (Child.Cpu cpu) }
{
    match plan.cpu(cpu).idle.kind {
        IdleKind::Lpi => vote_after(state, change, cpu),
        IdleKind::Cst => RUNNING,
        IdleKind::Absent => RUNNING,
    }
}

/// The vote of who is in this state and bears so much, unless it runs.
#[tactic(auto, unfolding(pw_model::specs::States::any_latency))]
fn vote_in(state: u8, tolerance: u32) -> Vote
    ensures { result ≡ (if state == 0 then running else idling state tolerance) }
{
    if state == 0 {
        RUNNING
    } else {
        Vote { state, tolerance }
    }
}

/// The vote of this container, where it is known.
fn known_vote(known: Option<KnownVote>, node: u32) -> Option<Vote>
    ensures { result ≡ known_vote known node }
{
    match known {
        Some(found) if found.node == node => Some(found.vote),
        _ => None,
    }
}

/// The vote of a container. One that is known isn't computed again.
pub fn container_vote(
    plan: &Plan,
    state: &State,
    change: Change,
    node: u32,
    known: Option<KnownVote>,
) -> Vote
    requires node { node < length plan.now.containers }
    requires old { IsState plan.now state.now }
    requires fits { IsState plan.now (with_change state.now change) }
    requires known { IsKnown plan.now (with_change state.now change) known }
    ensures { result ≡ container_vote plan.now (with_change state.now change) node }
{
    if let Some(vote) = known_vote(known, node) {
        return vote;
    }
    let children = plan.children_of(node);
    if children.is_empty() {
        return RUNNING;
    }
    let mut least = Allowance {
        state: u32::MAX,
        tolerance: u32::MAX,
    };
    for child in children {
        // Once a child enables no state, its container runs whatever the others do.
        if least.state == 0 {
            return RUNNING;
        }
        let own = match *child {
            Child::Cpu(cpu) => allowed(&plan.cpu(cpu).idle, cpu_vote(plan, state, change, cpu)),
            Child::Container(below) => allowed(
                &plan.container(below).idle,
                container_vote(plan, state, change, below, known),
            ),
        };
        least.state = least.state.min(own.state);
        least.tolerance = least.tolerance.min(own.tolerance);
    }
    vote_in(deepest(&plan.container(node).idle, least), least.tolerance)
}

/// The state of a container.
pub fn container_state(plan: &Plan, state: &State, node: u32) -> u8
    requires node { node < length plan.now.containers }
    requires fits { IsState plan.now state.now }
    ensures { result ≡ (container_vote plan.now state.now node).state }
{
    container_vote(plan, state, Change::Nothing, node, None).state
}
