ghost use Rattle.pw_model.specs.States.{IsState};

use crate::steps::records::Note;
use crate::steps::run::is_told;
use crate::well;
use pw_core::State;
use pw_machines::{ANSWER, NoPlan, plan_of};
use pw_plan::{Plan, PlanFault};
use pw_regs::Ops;
use std::alloc::Global;

/// As many operations as a request of these machines has at most.
const ROOM: u32 = 300;

/// Why lines give no plan.
fn refusal(alloc: Global, why: NoPlan) -> Option<String> {
    match why {
        NoPlan::Unfit => String::from_str(alloc, "parts that don't fit").ok(),
        NoPlan::Fault(PlanFault::Limit { which, number }) => {
            format!(in alloc; "limit {which}: {number}").ok()
        }
        NoPlan::Unread | NoPlan::Fault(PlanFault::Memory) => None,
    }
}

/// The first line that is told something else than it must be, if there is one. The text is what it is
/// told.
fn first_other<'a>(
    text: &mut String,
    alloc: Global,
    plan: &Plan,
    state: &mut State,
    notes: &mut Vec<Note>,
    lines: &'a str,
    ops: &mut Ops,
) -> Option<&'a str>
    requires { IsState plan.now state.old }
{
    for line in lines.lines() {
        if let Some((asked, wanted)) = line.split_once(ANSWER) {
            if !is_told(text, alloc, plan, state, notes, asked, wanted, ops) {
                return Some(asked);
            }
        }
    }
    None
}

/// What comes of the lines that ask for something, from this state on.
fn asked(
    alloc: Global,
    plan: &Plan,
    state: &mut State,
    lines: &str,
    ops: &mut Ops,
) -> Option<String>
    requires { IsState plan.now state.old }
{
    let mut notes = Vec::new(alloc);
    let mut text = String::new(alloc);
    match first_other(&mut text, alloc, plan, state, &mut notes, lines, ops) {
        None => well(alloc),
        Some(asked) => {
            let told = text.as_str();
            format!(in alloc; "{asked}: {told}").ok()
        }
    }
}

/// The same from the state that the plan opens with.
fn played(alloc: Global, plan: &Plan, lines: &str) -> Option<String> {
    let mut ops = Ops::new(alloc, ROOM).ok()?;
    let mut state = State::open(alloc, plan).ok()?;
    let came = asked(alloc, plan, &mut state, lines, &mut ops);
    drop(state);
    came
}

/// Where there is no plan, the first line that asks for something asks why.
fn refused(alloc: Global, why: &str, lines: &str) -> Option<String> {
    let asks = lines.lines().find(|line| line.contains(ANSWER));
    if asks.and_then(|line| line.strip_prefix("plan -> ")) == Some(why) {
        return well(alloc);
    }
    format!(in alloc; "plan: {why}").ok()
}

/// What comes of the lines of a case: `as it must be`, or the first that is told something else.
pub(crate) fn came(alloc: Global, lines: &str) -> Option<String> {
    match plan_of(alloc, lines) {
        Ok(plan) => {
            let came = played(alloc, &plan, lines);
            drop(plan);
            came
        }
        Err(why) => refused(alloc, refusal(alloc, why)?.as_str(), lines),
    }
}
