ghost use Rattle.std.specs.Prelude.{◌≡◌, ◌≤◌, ◌<◌, ◌+◌, ◌^◌, [], true, length, is_some, vec_capacity, vec_len, OnOk, OnErr};
ghost use Rattle.std.specs.List.{AllByRecursion};
ghost use Rattle.pw_plan.specs.declared.request.Request.{Request as request};
ghost use Rattle.pw_plan.specs.Requests.{Has, ops_bound, opening_bound};
ghost use Rattle.pw_model.specs.History.{fault_at, replies};
ghost use Rattle.pw_regs.specs.Seen.{registers_seen};
ghost use Rattle.pw_script.specs.declared.script.Line.{Line as asked};
ghost use Rattle.pw_drive.specs.inner.Running.{Keeps, Ran, Stands, Turned};

use crate::records::Records;
use crate::walking::make_from;
use pw_core::Ops;
use pw_journal::Journal;
use pw_model::Reply;
use pw_plan::{MOST_OF_A_REQUEST, Plan, Request};
use pw_regs::Registers;
use pw_script::Line;
use pw_walker::begin;

/// How many operations the start or any request has at most.
pub fn most_operations(plan: &Plan) -> u32
    ensures opening { opening_bound plan.now ≤ result }
    ensures requests { (q : request) → ops_bound plan.now q ≤ result }
{
    plan.opening_bound().max(MOST_OF_A_REQUEST)
}

/// Makes a request: does its operations, appends its entry and keeps its reply. At a fault it sets back
/// what the request changed, and answers how many of the operations were done.
fn make<R: Registers>(
    plan: &Plan,
    records: &mut Records,
    request: Request,
    ops: &mut Ops,
    journal: &mut Journal<R>,
    kept: &mut Vec<Reply>,
) -> Result<(), u32>
    requires has { Has plan.now request }
    requires stands { Stands plan.now journal.old.entries records.old }
    requires space { length journal.old.entries < journal.old.capacity }
    requires room { ops_bound plan.now request ≤ ops.old.capacity }
    requires few { ops.old.capacity < 2 ^ 32 }
    requires answered { kept.old.items ≡ replies plan.now journal.old.entries }
    requires spare { vec_len kept.old < vec_capacity kept.old }
    ensures space { journal.new.capacity ≡ journal.old.capacity }
    ensures room { ops.new.capacity ≡ ops.old.capacity }
    ensures turned { Turned plan.now request journal.old.entries journal.new.entries
        (registers_seen R.Registers journal.old.regs) (registers_seen R.Registers journal.new.regs) }
    ensures answered { kept.new.items ≡ replies plan.now journal.new.entries }
    ensures count { OnOk result (vec_len kept.new ≡ vec_len kept.old + 1) }
    ensures capacity { vec_capacity kept.new ≡ vec_capacity kept.old }
    ensures stands { OnOk result (Stands plan.now journal.new.entries records.new) }
    ensures keeps { Keeps plan.now journal.new.entries records.new }
    ensures stopped { OnErr result (is_some (fault_at journal.new.entries) ≡ true) }
{
    ops.clear();
    let place = begin(plan, &request, ops);
    make_from(plan, records, &request, &place, ops, journal, kept)
}

/// Makes the requests of the lines in their order, up to the first fault, and keeps their replies.
pub fn make_all<R: Registers>(
    plan: &Plan,
    records: &mut Records,
    lines: &[Line],
    ops: &mut Ops,
    journal: &mut Journal<R>,
    kept: &mut Vec<Reply>,
)
    requires has { AllByRecursion (λ (l : asked). Has plan.now l.request) lines.now }
    requires stands { Stands plan.now [] records.old }
    requires empty { journal.old.entries ≡ [] }
    requires space { journal.old.capacity ≡ length lines.now }
    requires room { (q : request) → ops_bound plan.now q ≤ ops.old.capacity }
    requires few { ops.old.capacity < 2 ^ 32 }
    requires unanswered { kept.old.items ≡ [] }
    requires spare { length lines.now ≤ vec_capacity kept.old }
    ensures replies { kept.new.items ≡ replies plan.now journal.new.entries }
    ensures space { journal.new.capacity ≡ journal.old.capacity }
    ensures keeps { Keeps plan.now journal.new.entries records.new }
    ensures ran { Ran plan.now lines.now journal.new.entries
        (registers_seen R.Registers journal.old.regs) (registers_seen R.Registers journal.new.regs) }
{
    for line in lines {
        match make(plan, records, line.request, ops, journal, kept) {
            Ok(()) => {}
            Err(_) => return,
        }
    }
}
