ghost use Rattle.std.specs.Prelude.{◌≡◌, All, IfOk};
ghost use Rattle.pw_model.specs.States.{IsState};
ghost use Rattle.pw_model.specs.History.{StatesRequest, replay, replay_from};

use crate::state::State;
use pw_base::Memory;
use pw_model::HistoryEntry;
use pw_plan::Plan;
use std::alloc::Global;

/// Makes the requests of the entries, in their order, but for those that are faults.
pub fn replay_on(plan: &Plan, state: &mut State, entries: &[HistoryEntry])
    requires fits { IsState plan.now state.old }
    requires entries { All (StatesRequest plan.now) entries.now }
    ensures replay { state.new ≡ replay_from plan.now state.old entries.now }
    ensures fits { IsState plan.now state.new }
{
    for entry in entries {
        if entry.fault == 0 {
            state.apply(plan, entry.request());
        }
    }
}

/// The state that a history leaves.
#[tactic(auto, unfolding(pw_kind::specs::History::replay))]
pub fn replay(alloc: Global, plan: &Plan, entries: &[HistoryEntry]) -> Result<State, Memory>
    requires { All (StatesRequest plan.now) entries.now }
    ensures replay { IfOk result (λ state. state ≡ replay plan.now entries.now) }
    ensures fits { IfOk result (λ state. IsState plan.now state) }
{
    let mut state = State::open(alloc, plan)?;
    replay_on(plan, &mut state, entries);
    Ok(state)
}
