ghost use Rattle.std.specs.Prelude.{◌≡◌, ◌<◌, ◌≤◌, ◌+◌, true, false, length, map, IfOk, slice_index_or, slice_set};
ghost use Rattle.acpi_values.specs.Idle.{rows_of};
ghost use Rattle.pw_plan.specs.declared.plan.Plan.{Plan};
ghost use Rattle.pw_plan.specs.Places.{children_at, container_at, row_at, table_of};
ghost use Rattle.pw_model.specs.States.{any_latency, running};
ghost use Rattle.pw_model.specs.Containers.{allows, greatest, least_tolerance};
ghost use Rattle.pw_model.specs.Containers.{may_idle, node_vote};
ghost use Rattle.pw_model.specs.Calls.{child_state, child_tolerance};
ghost use Rattle.pw_model.specs.Calls.{node_state, node_tolerance, opening_part, with_vote};
ghost use Rattle.pw_model.specs.Holding.{HoldsVotes, table_at};
ghost use Rattle.pw_model.specs.Records.{container};
ghost use Rattle.pw_idle.specs.Nodes.{Counts, IsNodeOf, node_part, one_if};

use acpi_values::{IdleRow, IdleTable};
use pw_base::{List, Memory};
use pw_core::row;
use pw_model::Vote;
use pw_plan::{Child, Plan};
use std::alloc::Global;

/// The vote of who runs.
#[tactic(auto, unfolding(pw_model::specs::States::any_latency))]
fn running() -> Vote
    ensures { result ≡ running }
{
    Vote {
        state: 0,
        tolerance: u32::MAX,
    }
}

/// Whether a child with this table and vote allows its container a state of this latency.
fn allows(table: &IdleTable, vote: Vote, state: u8, latency: u32) -> bool
    requires { vote.state ≤ length (rows_of table.now) }
    ensures { result ≡ allows table.now vote state latency }
{
    let reach = if vote.state == 0 {
        0
    } else {
        row(table, vote.state).parent
    };
    u32::from(state) <= reach && latency <= vote.tolerance
}

/// The table of the child at this place.
fn table_of(plan: &Plan, node: u32, place: usize) -> &IdleTable
    requires node { node < length plan.now.containers }
    requires place { place < length (children_at plan.now node) }
    ensures { result.now
        ≡ table_of plan.now (slice_index_or (children_at plan.now node) place (Child.Cpu 0)) }
{
    match plan.children_of(node)[place] {
        Child::Cpu(cpu) => &plan.cpu(cpu).idle,
        Child::Container(below) => &plan.container(below).idle,
    }
}

/// The vote at this place.
fn vote_at(votes: &[Vote], place: usize) -> Vote
    requires { place < length votes.now }
    ensures { result ≡ slice_index_or votes.now place running }
{
    votes[place]
}

/// How many of the children pass a test, of which one passes it now and passed it before.
fn changed(count: usize, children: usize, was: bool, now: bool) -> usize
    requires some { was ≡ true → 0 < count }
    requires room { was ≡ false → count < children }
    ensures { one_if was + result ≡ one_if now + count }
{
    if was == now {
        count
    } else if now {
        count + 1
    } else {
        count - 1
    }
}

/// Counts anew how many children allow each state, where the child at this place votes otherwise: it
/// goes over the states and not over the children.
fn recount(
    plan: &Plan,
    node: u32,
    votes: &[Vote],
    place: usize,
    vote: Vote,
    allowing: &mut List<usize>,
)
    requires node { node < length plan.now.containers }
    requires holds { HoldsVotes plan.now node votes.now }
    requires place { place < length (children_at plan.now node) }
    requires fits { vote.state ≤ table_at plan.now node place }
    requires counts { Counts plan.now node votes.now allowing.old }
    ensures { Counts plan.now node (slice_set votes.now place vote) allowing.new }
{
    let own = &plan.container(node).idle;
    let table = table_of(plan, node, place);
    let old = vote_at(votes, place);
    let children = votes.len();
    for at in 0..own.states().len() {
        let state = at as u8 + 1;
        let latency = row(own, state).latency;
        let was = allows(table, old, state, latency);
        let now = allows(table, vote, state, latency);
        let count = allowing.as_slice()[at];
        allowing.set(at, changed(count, children, was, now));
    }
}

/// Whether a container whose children vote so may be in this state.
fn may_idle(plan: &Plan, node: u32, votes: &[Vote], allowing: &[usize], state: u8) -> bool
    requires node { node < length plan.now.containers }
    requires first { 1 ≤ state }
    requires last { state ≤ length (rows_of (container_at plan.now node).idle) }
    requires holds { HoldsVotes plan.now node votes.now }
    requires counts { Counts plan.now node votes.now allowing.now }
    ensures { result ≡ may_idle plan.now node votes.now state }
{
    row(&plan.container(node).idle, state).enabled && allowing[state as usize - 1] == votes.len()
}

/// The deepest state that a container may be in whose children vote so, 0 where there is none.
fn deepest(plan: &Plan, node: u32, votes: &[Vote], allowing: &[usize]) -> u8
    requires node { node < length plan.now.containers }
    requires holds { HoldsVotes plan.now node votes.now }
    requires counts { Counts plan.now node votes.now allowing.now }
    ensures { result ≡ (node_vote plan.now node votes.now).state }
{
    if votes.is_empty() {
        return 0;
    }
    let mut state = plan.container(node).idle.states().len() as u8;
    while state > 0 && !may_idle(plan, node, votes, allowing, state) {
        state -= 1;
    }
    state
}

/// No child counted, for each of these states.
fn no_counts(alloc: Global, rows: &[IdleRow]) -> Result<List<usize>, Memory>
    ensures { IfOk result (λ counts. counts ≡ map (λ r. 0) rows.now) }
{
    let mut counts = Vec::new(alloc);
    for _row in rows {
        counts.push(0)?;
    }
    Ok(List::from_vec(counts))
}

/// Votes of those who run, one for each child.
fn all_running(alloc: Global, children: &[Child]) -> Result<List<Vote>, Memory>
    ensures { IfOk result (λ votes. votes ≡ map (λ c. running) children.now) }
{
    let mut votes = Vec::new(alloc);
    for _child in children {
        votes.push(running())?;
    }
    Ok(List::from_vec(votes))
}

/// What the children of a container vote, and the state that follows.
#[derive(Drop)]
pub struct NodeRec {
    node: u32,
    votes: List<Vote>,
    /// Of each state, that of state 1 first: how many children allow it.
    allowing: List<usize>,
    state: u8,
}

impl NodeRec {
    /// The record at the start: every child runs.
    pub fn open(alloc: Global, plan: &Plan, node: u32) -> Result<NodeRec, Memory>
        requires { node < length plan.now.containers }
        ensures of { IfOk result (λ r. IsNodeOf plan.now r) }
        ensures node { IfOk result (λ r. r.node ≡ node) }
        ensures part { IfOk result (λ r. node_part r ≡ opening_part plan.now (container node)) }
    {
        let votes = all_running(alloc, plan.children_of(node))?;
        let allowing = no_counts(alloc, plan.container(node).idle.states())?;
        let state = deepest(plan, node, votes.as_slice(), allowing.as_slice());
        Ok(NodeRec {
            node,
            votes,
            allowing,
            state,
        })
    }

    /// The container's state.
    pub fn state(&self) -> u8
        ensures { (P : Plan) → IsNodeOf P self.now
            → result ≡ node_state P self.now.node (node_part self.now) }
    {
        self.state
    }

    /// The wake latency that the container bears.
    pub fn tolerance(&self) -> u32
        ensures { (P : Plan) → IsNodeOf P self.now
            → result ≡ node_tolerance P self.now.node (node_part self.now) }
    {
        if self.state == 0 {
            return u32::MAX;
        }
        let mut least = u32::MAX;
        for vote in self.votes.as_slice() {
            least = vote.tolerance.min(least);
        }
        least
    }

    /// The state of the child at this place.
    pub fn child(&self, child: u32) -> u8
        requires { child < length self.now.votes }
        ensures { result ≡ child_state (node_part self.now) child }
    {
        self.votes.as_slice()[child as usize].state
    }

    /// The wake latency that the child at this place bears.
    pub fn child_tolerance(&self, child: u32) -> u32
        requires { child < length self.now.votes }
        ensures { result ≡ child_tolerance (node_part self.now) child }
    {
        self.votes.as_slice()[child as usize].tolerance
    }

    /// Sets the vote of the child at this place, and answers the container's state.
    pub fn vote(&mut self, plan: &Plan, child: u32, state: u8, tolerance: u32) -> u8
        requires of { IsNodeOf plan.now self.old }
        requires child { child < length (children_at plan.now self.old.node) }
        requires state { state ≤ table_at plan.now self.old.node child }
        requires tolerance { state ≡ 0 → tolerance ≡ any_latency }
        ensures of { IsNodeOf plan.now self.new }
        ensures node { self.new.node ≡ self.old.node }
        ensures part { node_part self.new ≡ with_vote child (record { state = state; tolerance = tolerance })
            (node_part self.old) }
        ensures state { result ≡ node_state plan.now self.new.node (node_part self.new) }
    {
        let place = child as usize;
        let vote = Vote { state, tolerance };
        recount(
            plan,
            self.node,
            self.votes.as_slice(),
            place,
            vote,
            &mut self.allowing,
        );
        self.votes.set(place, vote);
        self.state = deepest(
            plan,
            self.node,
            self.votes.as_slice(),
            self.allowing.as_slice(),
        );
        self.state
    }
}
