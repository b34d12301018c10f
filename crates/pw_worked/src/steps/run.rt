ghost use Rattle.pw_model.specs.States.{IsState};

use crate::steps::about::put_about;
use crate::steps::records::Note;
use crate::steps::walk::walked;
use pw_core::State;
use pw_machines::{put_ops, put_outcome, request_of};
use pw_plan::{Plan, Request};
use pw_regs::Ops;
use std::alloc::Global;

/// Tells what a request is answered by `step`, and what it operates.
fn by_step(
    text: &mut String,
    plan: &Plan,
    state: &mut State,
    request: Request,
    ops: &mut Ops,
) -> Option<()>
    requires { IsState plan.now state.old }
    ensures { IsState plan.now state.new }
{
    ops.clear();
    if !plan.has(&request) || ops.spare() < plan.ops_bound(&request) {
        return None;
    }
    let reply = state.step(plan, request, ops);
    put_outcome(text, &reply, ops.list())
}

/// Tells the operations at the start.
fn opening(text: &mut String, plan: &Plan, state: &State, ops: &mut Ops) -> Option<()>
    requires { IsState plan.now state.now }
{
    ops.clear();
    if ops.spare() < plan.opening_bound() {
        return None;
    }
    state.opening(plan, ops);
    if ops.list().is_empty() {
        return text.push_str("nothing").ok();
    }
    put_ops(text, ops.list())
}

/// Tells what a line asks for, of a request by the coordinator.
fn tell(
    text: &mut String,
    alloc: Global,
    plan: &Plan,
    state: &mut State,
    notes: &[Note],
    asked: &str,
    ops: &mut Ops,
) -> Option<()>
    requires { IsState plan.now state.old }
    ensures { IsState plan.now state.new }
{
    text.clear();
    if let Some(request) = request_of(asked) {
        return by_step(text, plan, state, request, ops);
    }
    if asked == "open" {
        return opening(text, plan, state, ops);
    }
    put_about(text, alloc, plan, notes, asked)
}

/// Tells of a request what it is answered by the records, and what it operates.
fn tell_again(
    text: &mut String,
    alloc: Global,
    plan: &Plan,
    notes: &mut Vec<Note>,
    asked: &str,
    ops: &mut Ops,
) -> Option<()> {
    let Some(request) = request_of(asked) else {
        return Some(());
    };
    text.clear();
    ops.clear();
    let reply = walked(alloc, plan, notes, request, ops)?;
    put_outcome(text, &reply, ops.list())
}

/// Whether a line is told what it must be, of a request by the coordinator and by the records. The text is
/// what it is told.
pub(crate) fn is_told(
    text: &mut String,
    alloc: Global,
    plan: &Plan,
    state: &mut State,
    notes: &mut Vec<Note>,
    asked: &str,
    wanted: &str,
    ops: &mut Ops,
) -> bool
    requires { IsState plan.now state.old }
    ensures { IsState plan.now state.new }
{
    let told = tell(text, alloc, plan, state, notes.as_slice(), asked, ops);
    if told.is_none() || text.as_str() != wanted {
        return false;
    }
    let told = tell_again(text, alloc, plan, notes, asked, ops);
    told.is_some() && text.as_str() == wanted
}
