ghost use Rattle.std.specs.Prelude.{◌≡◌, ◌≤◌, ◌<◌, ◌+◌, ◌^◌, length, vec_capacity, vec_len, OnOk, OnErr};
ghost use Rattle.pw_plan.specs.Requests.{Has, ops_bound};
ghost use Rattle.pw_model.specs.History.{Faultless, Legal, replay, replies};
ghost use Rattle.pw_regs.specs.Seen.{registers_seen};
ghost use Rattle.pw_machine.specs.Walk.{over};
ghost use Rattle.pw_walker.specs.Places.{IsPlace, walk_of};
ghost use Rattle.pw_drive.specs.Keeping.{AreRecordsOf, part_in};
ghost use Rattle.pw_drive.specs.inner.Running.{Stands, Turned};
ghost use Rattle.pw_drive.specs.inner.Midway.{IsMidway, Undone};

use crate::records::Records;
use pw_core::Ops;
use pw_journal::Journal;
use pw_model::Reply;
use pw_plan::{Plan, Request};
use pw_regs::Registers;
use pw_walker::{
    Place, step_domain, step_group, step_node, unstep_domain, unstep_group, unstep_node,
};

/// Enters a request that has all its records: does the operations, appends the entry and keeps the reply. At
/// a fault it answers how many of the operations were done.
#[inline(always)]
fn enter<R: Registers>(
    _plan: &Plan,
    _records: &Records,
    request: &Request,
    reply: Reply,
    ops: &Ops,
    journal: &mut Journal<R>,
    kept: &mut Vec<Reply>,
) -> Result<(), u32>
    requires legal { Legal _plan.now journal.old.entries }
    requires faultless { Faultless journal.old.entries }
    requires of { AreRecordsOf _plan.now _records.now }
    requires has { Has _plan.now request.now }
    requires midway { IsMidway _plan.now (replay _plan.now journal.old.entries) request.now
        (over reply ops.now.elements) (part_in _records.now) }
    requires space { length journal.old.entries < journal.old.capacity }
    requires room { ops_bound _plan.now request.now ≤ ops.now.capacity }
    requires few { ops.now.capacity < 2 ^ 32 }
    requires answered { kept.old.items ≡ replies _plan.now journal.old.entries }
    requires spare { vec_len kept.old < vec_capacity kept.old }
    ensures space { journal.new.capacity ≡ journal.old.capacity }
    ensures turned { Turned _plan.now request.now journal.old.entries journal.new.entries
        (registers_seen R.Registers journal.old.regs) (registers_seen R.Registers journal.new.regs) }
    ensures answered { kept.new.items ≡ replies _plan.now journal.new.entries }
    ensures count { OnOk result (vec_len kept.new ≡ vec_len kept.old + 1) }
    ensures capacity { vec_capacity kept.new ≡ vec_capacity kept.old }
    ensures stands { OnOk result (Stands _plan.now journal.new.entries _records.now) }
    ensures undone { OnErr result
        (Undone _plan.now journal.old.entries journal.new.entries _records.now _records.now) }
{
    match journal.append(0, *request, ops.list()) {
        Ok(()) => {
            kept.push_reserved(reply);
            Ok(())
        }
        Err(done) => Err(done),
    }
}

/// Makes a request from this place on: steps the records that come next, each where it lies, does the
/// operations, appends the entry and keeps the reply. At a fault it sets back what each record had, from the
/// last to the first, and answers how many of the operations were done.
pub fn make_from<R: Registers>(
    plan: &Plan,
    records: &mut Records,
    request: &Request,
    place: &Place,
    ops: &mut Ops,
    journal: &mut Journal<R>,
    kept: &mut Vec<Reply>,
) -> Result<(), u32>
    requires legal { Legal plan.now journal.old.entries }
    requires faultless { Faultless journal.old.entries }
    requires of { AreRecordsOf plan.now records.old }
    requires place { IsPlace plan.now request.now place.now ops.old.elements }
    requires midway { IsMidway plan.now (replay plan.now journal.old.entries) request.now
        (walk_of place.now ops.old.elements) (part_in records.old) }
    requires space { length journal.old.entries < journal.old.capacity }
    requires room { ops_bound plan.now request.now ≤ ops.old.capacity }
    requires few { ops.old.capacity < 2 ^ 32 }
    requires answered { kept.old.items ≡ replies plan.now journal.old.entries }
    requires spare { vec_len kept.old < vec_capacity kept.old }
    ensures space { journal.new.capacity ≡ journal.old.capacity }
    ensures room { ops.new.capacity ≡ ops.old.capacity }
    ensures turned { Turned plan.now request.now journal.old.entries journal.new.entries
        (registers_seen R.Registers journal.old.regs) (registers_seen R.Registers journal.new.regs) }
    ensures answered { kept.new.items ≡ replies plan.now journal.new.entries }
    ensures count { OnOk result (vec_len kept.new ≡ vec_len kept.old + 1) }
    ensures capacity { vec_capacity kept.new ≡ vec_capacity kept.old }
    ensures stands { OnOk result (Stands plan.now journal.new.entries records.new) }
    ensures undone { OnErr result
        (Undone plan.now journal.old.entries journal.new.entries records.old records.new) }
{
    match *place {
        Place::Over { reply } => enter(plan, records, request, reply, ops, journal, kept),
        Place::Scaled { domain } => {
            let held = &mut records.domains[domain as usize];
            let (next, old) = step_domain(plan, request, held, ops);
            match make_from(plan, records, request, &next, ops, journal, kept) {
                Ok(()) => Ok(()),
                Err(done) => {
                    unstep_domain(plan, &mut records.domains[domain as usize], old);
                    Err(done)
                }
            }
        }
        Place::Grouped { group } => {
            let held = &mut records.groups[group as usize];
            let (next, old) = step_group(plan, request, held, ops);
            match make_from(plan, records, request, &next, ops, journal, kept) {
                Ok(()) => Ok(()),
                Err(done) => {
                    unstep_group(plan, &mut records.groups[group as usize], old);
                    Err(done)
                }
            }
        }
        Place::Climbing { node, climb } => {
            let held = &mut records.nodes[node as usize];
            let (next, old) = step_node(plan, request, node, climb, held, ops);
            match make_from(plan, records, request, &next, ops, journal, kept) {
                Ok(()) => Ok(()),
                Err(done) => {
                    unstep_node(plan, &mut records.nodes[node as usize], old);
                    Err(done)
                }
            }
        }
    }
}
