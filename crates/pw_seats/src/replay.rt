ghost use Rattle.pw_model.specs.States.{IsState};

use pw_core::State;
use pw_machines::{put_reply, request_in};
use pw_model::{HistoryEntry, Reply};
use pw_plan::{Plan, Request};
use pw_regs::Ops;
use std::alloc::Global;

/// As many operations as a request of these machines has at most.
const ROOM: u32 = 300;

/// A reply that a seat was told.
#[derive(Clone, Copy)]
pub(crate) struct Heard {
    pub seat: u32,
    pub reply: Reply,
}

/// What one caller alone is answered, if there is room for the operations.
fn answered(plan: &Plan, state: &mut State, request: Request, ops: &mut Ops) -> Option<Reply>
    requires { IsState plan.now state.old }
    ensures { IsState plan.now state.new }
{
    ops.clear();
    if !plan.has(&request) || ops.spare() < plan.ops_bound(&request) {
        return None;
    }
    Some(state.step(plan, request, ops))
}

/// Whether two replies are written alike.
fn are_alike(alloc: Global, one: &Reply, other: &Reply) -> Option<bool> {
    let mut text = String::new(alloc);
    put_reply(&mut text, one)?;
    let mut again = String::new(alloc);
    put_reply(&mut again, other)?;
    Some(text.as_str() == again.as_str())
}

/// What the seat of the last of these entries heard of it.
fn heard_last(entries: &[HistoryEntry], seat: u32, heard: &[Heard]) -> Option<Reply> {
    let earlier = entries.iter().filter(|entry| entry.seat == seat).count();
    let mut own = heard.iter().filter(|heard| heard.seat == seat);
    let last = own.nth(earlier)?;
    Some(last.reply)
}

/// Whether each entry but a fault was answered what one caller alone is answered in this state who makes the
/// same requests in this order. Each seat heard its replies in the order of its entries.
fn agree_from(
    alloc: Global,
    plan: &Plan,
    state: &mut State,
    ops: &mut Ops,
    entries: &[HistoryEntry],
    heard: &[Heard],
) -> Option<bool>
    requires { IsState plan.now state.old }
{
    for place in 0..entries.len() {
        let entry = entries[place];
        if entry.fault == 0 {
            let reply = answered(plan, state, request_in(&entry)?, ops)?;
            let told = heard_last(&entries[..place], entry.seat, heard)?;
            if !are_alike(alloc, &told, &reply)? {
                return Some(false);
            }
        }
    }
    Some(true)
}

/// The same from the state that the plan opens with.
pub(crate) fn all_agree(
    alloc: Global,
    plan: &Plan,
    entries: &[HistoryEntry],
    heard: &[Heard],
) -> Option<bool> {
    let mut ops = Ops::new(alloc, ROOM).ok()?;
    let mut state = State::open(alloc, plan).ok()?;
    agree_from(alloc, plan, &mut state, &mut ops, entries, heard)
}
