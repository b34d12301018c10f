ghost use Rattle.std.specs.Prelude.{◌≡◌, ◌≤◌, ◌<◌, ◌^◌, [], length, vec_capacity, IfErr, IfOk, IfSome};
ghost use Rattle.std.specs.List.{AllByRecursion};
ghost use Rattle.pw_plan.specs.declared.request.Request.{Request as request};
ghost use Rattle.pw_plan.specs.Requests.{Has, ops_bound, opening_bound};
ghost use Rattle.pw_model.specs.declared.entry.HistoryEntry.{HistoryEntry as entry};
ghost use Rattle.pw_model.specs.History.{replies};
ghost use Rattle.pw_model.specs.Operations.{opening_ops};
ghost use Rattle.pw_regs.specs.Seen.{registers_seen};
ghost use Rattle.pw_script.specs.declared.script.Line.{Line as asked};
ghost use Rattle.pw_script.specs.Lawful.{LawfulSerial};
ghost use Rattle.pw_script.specs.Reading.{operations, requests_of};
ghost use Rattle.pw_regs.specs.Doing.{Did};
ghost use Rattle.pw_drive.specs.Driven.{OperatesFor};
ghost use Rattle.pw_drive.specs.inner.Running.{Keeps, Stands, opening_done};

use crate::records::Records;
use crate::running::{make_all, most_operations};
use pw_base::{List, Memory};
use pw_core::{Ops, open_all};
use pw_journal::{HistoryEntry, Journal};
use pw_model::Reply;
use pw_plan::Plan;
use pw_regs::Registers;
use pw_script::{Line, Script};
use std::alloc::Global;

/// What a run of a script gives. `opening` is how many operations at the start were done where a
/// fault ended them; then no request was made. The replies are those of the entries, in their order: a
/// fault has none.
#[derive(Drop)]
pub struct Driven<R> {
    pub plan: Plan,
    pub opening: Option<u32>,
    pub entries: List<HistoryEntry>,
    pub replies: List<Reply>,
    pub regs: R,
}

/// The records at the start, a list with room for the operations of the start and of each request, and one
/// with room for so many replies.
fn prepare(alloc: Global, plan: &Plan, lines: usize) -> Result<(Records, Ops, Vec<Reply>), Memory>
    ensures stands { IfOk result (λ held. Stands plan.now [] held.0) }
    ensures none { IfOk result (λ held. held.1.elements ≡ []) }
    ensures few { IfOk result (λ held. held.1.capacity < 2 ^ 32) }
    ensures opening { IfOk result (λ held. opening_bound plan.now ≤ held.1.capacity) }
    ensures room { IfOk result (λ held. (q : request) → ops_bound plan.now q ≤ held.1.capacity) }
    ensures unanswered { IfOk result (λ held. held.2.items ≡ []) }
    ensures spare { IfOk result (λ held. lines ≤ vec_capacity held.2) }
{
    let records = Records::open(alloc, plan)?;
    let ops = Ops::new(alloc, most_operations(plan))?;
    let replies = Vec::with_capacity(alloc, lines)?;
    Ok((records, ops, replies))
}

/// Does the operations at the start. At a fault it answers how many of them were done.
fn open<R: Registers>(plan: &Plan, ops: &mut Ops, journal: &mut Journal<R>) -> Option<u32>
    requires none { ops.old.elements ≡ [] }
    requires room { opening_bound plan.now ≤ ops.old.capacity }
    requires few { ops.old.capacity < 2 ^ 32 }
    requires empty { journal.old.entries ≡ [] }
    ensures room { ops.new.capacity ≡ ops.old.capacity }
    ensures empty { journal.new.entries ≡ [] }
    ensures space { journal.new.capacity ≡ journal.old.capacity }
    ensures within { IfSome result (λ k. k < length (opening_ops plan.now)) }
    ensures did { Did (opening_bound plan.now) (opening_done plan.now result) result
        (registers_seen R.Registers journal.old.regs) (registers_seen R.Registers journal.new.regs) }
{
    open_all(plan, ops);
    journal.operate(ops.list()).err()
}

/// Does the operations at the start, and makes the requests of the lines in their order, up to the first
/// fault, and keeps their replies. Where that ended the start it answers how many operations were done.
fn run<R: Registers>(
    plan: &Plan,
    records: &mut Records,
    lines: &[Line],
    ops: &mut Ops,
    journal: &mut Journal<R>,
    kept: &mut Vec<Reply>,
) -> Option<u32>
    requires has { AllByRecursion (λ (l : asked). Has plan.now l.request) lines.now }
    requires stands { Stands plan.now [] records.old }
    requires none { ops.old.elements ≡ [] }
    requires few { ops.old.capacity < 2 ^ 32 }
    requires opening { opening_bound plan.now ≤ ops.old.capacity }
    requires room { (q : request) → ops_bound plan.now q ≤ ops.old.capacity }
    requires empty { journal.old.entries ≡ [] }
    requires space { journal.old.capacity ≡ length lines.now }
    requires unanswered { kept.old.items ≡ [] }
    requires spare { length lines.now ≤ vec_capacity kept.old }
    ensures replies { kept.new.items ≡ replies plan.now journal.new.entries }
    ensures space { journal.new.capacity ≡ journal.old.capacity }
    ensures keeps { Keeps plan.now journal.new.entries records.new }
    ensures lawful { LawfulSerial plan.now (requests_of lines.now) result journal.new.entries }
    ensures seats { AllByRecursion (λ (e : entry). e.seat ≡ 0) journal.new.entries }
    ensures operates { OperatesFor plan.now (operations plan.now lines.now) result journal.new.entries
        (registers_seen R.Registers journal.old.regs) (registers_seen R.Registers journal.new.regs) }
{
    let opening = open(plan, ops, journal);
    if opening.is_none() {
        make_all(plan, records, lines, ops, journal, kept);
    }
    opening
}

/// Runs a script on registers: the operations at the start, and then the requests of its lines in their
/// order, up to the first fault of a register. All memory is taken before the first operation; where
/// there is none, the registers are given back as they were.
pub fn serial<R: Registers>(
    alloc: Global,
    plan: Plan,
    script: &Script,
    regs: R,
) -> Result<Driven<R>, R>
    requires few { length script.now.lines ≤ 65536 }
    requires has { AllByRecursion (λ (l : asked). Has plan l.request) script.now.lines }
    ensures plan { IfOk result (λ driven. driven.plan ≡ plan) }
    // The history is one of the lines in their order.
    ensures lawful { IfOk result (λ driven.
        LawfulSerial plan (requests_of script.now.lines) driven.opening driven.entries) }
    // Each entry has the reply of its place.
    ensures replies { IfOk result (λ driven. driven.replies ≡ replies plan driven.entries) }
    ensures seats { IfOk result (λ driven. AllByRecursion (λ (e : entry). e.seat ≡ 0) driven.entries) }
    // The registers' log grew by the operations of the start and of that history.
    ensures operates { IfOk result (λ driven.
        OperatesFor plan (operations plan script.now.lines) driven.opening driven.entries
        (registers_seen R.Registers regs) (registers_seen R.Registers driven.regs)) }
    ensures given_back { IfErr result (λ back. back ≡ regs) }
{
    let lines = script.lines.as_slice();
    let Ok((mut records, mut ops, mut replies)) = prepare(alloc, &plan, lines.len()) else {
        drop(plan);
        return Err(regs);
    };
    let mut journal = match Journal::open(alloc, lines.len() as u32, regs) {
        Ok(journal) => journal,
        Err(regs) => {
            drop(plan);
            drop(records);
            return Err(regs);
        }
    };
    let opening = run(
        &plan,
        &mut records,
        lines,
        &mut ops,
        &mut journal,
        &mut replies,
    );
    drop(records);
    let (entries, regs) = journal.finish();
    Ok(Driven {
        plan,
        opening,
        entries: List::from_vec(entries),
        replies: List::from_vec(replies),
        regs,
    })
}
