ghost use Rattle.std.specs.Prelude.{◌≡◌, ◌<◌, ℕ, length, IfSome, IsTrue, Some};
ghost use Rattle.pw_plan.specs.Tree.{line_from};
ghost use Rattle.pw_core.specs.Chains.{AreStates, IsChain};

use acpi_values::{Chain, Composite};
use pw_core::chain_composite;
use pw_plan::Plan;

/// The chain of this state alone.
pub(crate) fn alone(state: u8) -> Chain
    ensures { IsChain result }
{
    Chain {
        len: 1,
        states: [state, 0, 0, 0, 0, 0, 0, 0, 0],
    }
}

/// The chain with one more state, if there is a place for it.
pub(crate) fn extended(mut chain: Chain, state: u8) -> Option<Chain>
    requires { IsChain chain }
    ensures { IfSome result IsChain }
{
    if chain.len >= 9 {
        return None;
    }
    chain.states[chain.len as usize] = state;
    chain.len += 1;
    Some(chain)
}

/// Whether each is a state of the container that stands at its place, from this one upwards.
fn are_states(plan: &Plan, next: Option<u32>, states: &[u8]) -> bool
    requires { (n : ℕ) → next ≡ Some n → n < length plan.now.containers }
    ensures { IsTrue result → AreStates plan.now (line_from plan.now.containers next) states.now }
{
    let Some((state, above)) = states.split_first() else {
        return true;
    };
    let Some(node) = next else {
        return false;
    };
    let container = plan.container(node);
    if *state == 0 || *state as usize > container.idle.states().len() {
        return false;
    }
    are_states(plan, container.parent, above)
}

/// What a processor enters in this chain, if it is one of its states and of its containers'.
pub(crate) fn entered(plan: &Plan, cpu: u32, chain: &Chain) -> Option<Composite>
    requires cpu { cpu < length plan.now.cpus }
    requires chain { IsChain chain.now }
{
    let (own, above) = chain.states[..chain.len as usize].split_first()?;
    let parts = plan.cpu(cpu);
    if *own == 0 || *own as usize > parts.idle.states().len() {
        return None;
    }
    if !are_states(plan, parts.parent, above) {
        return None;
    }
    Some(chain_composite(plan, cpu, chain))
}
