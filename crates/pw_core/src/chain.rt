ghost use Rattle.std.specs.Prelude.{◌≡◌, ◌<◌, ◌∷◌, ◌++◌, [], length};
ghost use Rattle.pw_model.specs.States.{IsState, vote_of, with_change};
ghost use Rattle.pw_model.specs.Containers.{ancestors};
ghost use Rattle.pw_model.specs.Answers.{chain_of, states_along, states_of};
ghost use Rattle.pw_core.specs.Chains.{IsChain, states_in};

use crate::c_states::c_state;
use crate::reads::vote_after;
use crate::tree::{KnownVote, container_vote};
use acpi_values::{Chain, IdleKind};
use pw_model::{Change, State};
use pw_plan::Plan;

/// The chain of this state alone.
pub fn chain_of_one(state: u8) -> Chain
    ensures { result ≡ chain_of (state ∷ []) }
{
    Chain {
        len: 1,
        states: [state, 0, 0, 0, 0, 0, 0, 0, 0],
    }
}

/// The chain with one more state.
pub fn extended(mut chain: Chain, state: u8) -> Chain
    requires chain { IsChain chain }
    requires room { length (states_in chain) < 9 }
    ensures { result ≡ chain_of (states_in chain ++ state ∷ []) }
{
    chain.states[chain.len as usize] = state;
    chain.len += 1;
    chain
}

/// The state of a processor and those of its containers upwards, as far as they are above 0.
fn climbed(plan: &Plan, state: &State, change: Change, cpu: u32) -> Chain
    requires cpu { cpu < length plan.now.cpus }
    requires old { IsState plan.now state.now }
    requires fits { IsState plan.now (with_change state.now change) }
    ensures { let after = with_change state.now change in
        result ≡ chain_of ((vote_of after cpu).state
        ∷ states_along plan.now after (ancestors plan.now cpu)) }
{
    let mut chain = chain_of_one(vote_after(state, change, cpu).state);
    let mut next = plan.cpu(cpu).parent;
    let mut known = None;
    while let Some(node) = next {
        let vote = container_vote(plan, state, change, node, known);
        if vote.state == 0 {
            return chain;
        }
        chain = extended(chain, vote.state);
        known = Some(KnownVote { node, vote });
        next = plan.container(node).parent;
    }
    chain
}

/// The states that a processor comes to by its vote.
pub fn chain_under(plan: &Plan, state: &State, change: Change, cpu: u32) -> Chain
    requires cpu { cpu < length plan.now.cpus }
    requires old { IsState plan.now state.now }
    requires fits { IsState plan.now (with_change state.now change) }
    ensures { result ≡ chain_of (states_of plan.now (with_change state.now change) cpu) }
{
    match plan.cpu(cpu).idle.kind {
        IdleKind::Lpi => climbed(plan, state, change, cpu),
        IdleKind::Cst => chain_of_one(c_state(plan, state, change, cpu)),
        IdleKind::Absent => climbed(plan, state, change, cpu),
    }
}
