ghost use Rattle.std.specs.Prelude.{◌≡◌, ◌<◌, ◌≤◌, ◌∷◌, ◌++◌, ◌&&◌, [], Some, length, nat_lt};
ghost use Rattle.std.specs.Prelude.{if◌then◌else◌};
ghost use Rattle.acpi_values.specs.Idle.{rows_of};
ghost use Rattle.pw_plan.specs.Places.{IsIn, parent_of, table_of};
ghost use Rattle.pw_model.specs.Containers.{node_vote};
ghost use Rattle.pw_model.specs.States.{IsProper};
ghost use Rattle.pw_model.specs.Answers.{chain_of};
ghost use Rattle.pw_model.specs.Effects.{both_run, votes_in, votes_with};
ghost use Rattle.pw_model.specs.Records.{votes};
ghost use Rattle.pw_core.specs.Chains.{IsChain, states_in};
ghost use Rattle.pw_idle.specs.Nodes.{node_part};
ghost use Rattle.pw_walker.specs.Records.{IsNode};

use acpi_values::Chain;
use pw_core::extended;
use pw_idle::NodeRec;
use pw_model::Vote;
use pw_plan::{Child, Plan};

/// The chain after a container, while it rises with one state more.
pub fn chain_with(chain: Chain, rising: bool, state: u8) -> Chain
    requires chain { IsChain chain }
    requires room { length (states_in chain) < 9 }
    ensures { result ≡ (if rising then chain_of (states_in chain ++ state ∷ []) else chain) }
{
    if rising {
        extended(chain, state)
    } else {
        chain
    }
}

/// Whether a chain goes on with this state.
pub fn goes_on(rising: bool, state: u8) -> bool
    ensures { result ≡ (rising && nat_lt 0 state) }
{
    rising && state > 0
}

/// What came of a child's vote.
#[derive(Clone, Copy)]
pub struct Voted {
    /// Whether the container runs before and after.
    pub runs: bool,
    /// What it then votes.
    pub vote: Vote,
}

/// Sets the vote of a child in the record of its container.
#[inline(always)]
pub fn set_vote(held: &mut NodeRec, plan: &Plan, node: u32, child: Child, vote: Vote) -> Voted
    requires node { node < length plan.now.containers }
    requires inside { IsIn plan.now child }
    requires parent { parent_of plan.now child ≡ Some node }
    requires of { IsNode plan.now node held.old }
    requires state { vote.state ≤ length (rows_of (table_of plan.now child)) }
    requires proper { IsProper vote }
    ensures of { IsNode plan.now node held.new }
    ensures part { node_part held.new
        ≡ votes (votes_with plan.now node child vote (votes_in (node_part held.old))) }
    ensures vote { result.vote
        ≡ node_vote plan.now node (votes_with plan.now node child vote (votes_in (node_part held.old))) }
    ensures runs { result.runs
        ≡ both_run (node_vote plan.now node (votes_in (node_part held.old))) result.vote }
{
    let Some(place) = plan.place_of(child) else {
        unreachable!()
    };
    let before = held.state();
    let after = held.vote(plan, place as u32, vote.state, vote.tolerance);
    Voted {
        runs: before == 0 && after == 0,
        vote: Vote {
            state: after,
            tolerance: held.tolerance(),
        },
    }
}
