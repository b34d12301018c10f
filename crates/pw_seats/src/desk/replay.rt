ghost use Rattle.pw_cppc.specs.States.{AreNumbers};

use crate::desk::crew::request_at;
use acpi_values::Op;
use pw_cppc::{CppcEntry, CppcPlan, CppcState, open_all};
use pw_machines::put_ops;
use pw_regs::Ops;
use std::alloc::Global;

/// As many operations as the start or a request of these machines has at most.
const ROOM: u32 = 300;

/// Appends the operations that one caller alone has of an entry's request, or those before its fault.
fn redo(
    all: &mut Vec<Op>,
    plan: &CppcPlan,
    state: &mut CppcState,
    entry: &CppcEntry,
    ops: &mut Ops,
) -> Option<()>
    requires { AreNumbers plan.now state.old }
    ensures { AreNumbers plan.now state.new }
{
    if entry.code < 1 || entry.code > 3 {
        return None;
    }
    let request = entry.request();
    ops.clear();
    if !plan.has(&request) || ops.spare() < plan.ops_bound(&request) {
        return None;
    }
    let _reply = state.step(plan, request, ops);
    let list = ops.list();
    let count = match entry.fault {
        0 => list.len(),
        fault => (fault - 1) as usize,
    };
    all.extend_from_slice(list.get(..count)?).ok()
}

/// The operations at the start.
fn opening_of(alloc: Global, plan: &CppcPlan) -> Option<Vec<Op>> {
    let mut ops = Ops::new(alloc, ROOM).ok()?;
    if ops.spare() < plan.opening_bound() {
        return None;
    }
    open_all(plan, &mut ops);
    Vec::from_slice(alloc, ops.list()).ok()
}

/// Appends those of one caller alone who makes the requests of these entries.
fn redo_all(
    all: &mut Vec<Op>,
    alloc: Global,
    plan: &CppcPlan,
    state: &mut CppcState,
    entries: &[CppcEntry],
) -> Option<()>
    requires { AreNumbers plan.now state.old }
{
    let mut ops = Ops::new(alloc, ROOM).ok()?;
    for entry in entries {
        redo(all, plan, state, entry, &mut ops)?;
    }
    Some(())
}

/// The operations of one caller alone who makes the requests of these entries.
fn operations_of(alloc: Global, plan: &CppcPlan, entries: &[CppcEntry]) -> Option<Vec<Op>> {
    let mut state = CppcState::open(alloc, plan).ok()?;
    let mut all = opening_of(alloc, plan)?;
    let told = redo_all(&mut all, alloc, plan, &mut state, entries);
    drop(state);
    told.and(Some(all))
}

/// Whether these operations are those of one caller alone who makes the requests of the entries.
pub(crate) fn are_of(
    alloc: Global,
    ops: &[Op],
    plan: &CppcPlan,
    entries: &[CppcEntry],
) -> Option<bool> {
    let again = operations_of(alloc, plan, entries)?;
    let mut text = String::new(alloc);
    put_ops(&mut text, ops)?;
    let mut other = String::new(alloc);
    put_ops(&mut other, again.as_slice())?;
    Some(text.as_str() == other.as_str())
}

/// Whether each seat asked for a processor of its own, and its entries are the requests of that one's
/// rounds, in order.
pub(crate) fn are_in_order(entries: &[CppcEntry]) -> bool {
    for place in 0..entries.len() {
        let entry = entries[place];
        let earlier = &entries[..place];
        let round = earlier
            .iter()
            .filter(|other| other.seat == entry.seat)
            .count();
        let of_cpu = earlier
            .iter()
            .filter(|other| other.cpu == entry.cpu)
            .count();
        let asked = CppcEntry::of(entry.seat, request_at(entry.cpu, round), 0);
        if of_cpu != round || asked.code != entry.code || asked.argument != entry.argument {
            return false;
        }
    }
    true
}
