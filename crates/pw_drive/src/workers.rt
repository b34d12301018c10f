//! The whole run of a script by workers.
ghost use Rattle.std.specs.Prelude.{◌≡◌, ◌≤◌, ◌∷◌, [], length, vec_capacity, IfErr, IfOk};
ghost use Rattle.std.specs.List.{AllByRecursion};
ghost use Rattle.pw_plan.specs.Requests.{Has};
ghost use Rattle.pw_books.specs.Books.{calls_of};
ghost use Rattle.pw_rule.specs.Rule.{given_of, promise_of};
ghost use Rattle.pw_script.specs.declared.script.Line.{Line as asked};
ghost use Rattle.pw_script.specs.Reading.{requests_of};
ghost use Rattle.pw_turns.specs.Owning.{Owns};
ghost use Rattle.pw_turns.specs.Views.{view_in};
ghost use Rattle.pw_drive.specs.Drives.{Drives, GivesBack, Replies};
ghost use Rattle.pw_drive.specs.inner.Lists.{AreLists, AreListsFor};
ghost use Rattle.pw_drive.specs.inner.Replying.{AreEmpty, HaveRoom};
ghost use Rattle.pw_drive.specs.inner.Runs.{LeavesNone, Makes};

use crate::gathering::end;
use crate::lists::lists_of;
use crate::replying::{in_order, rooms};
use crate::seating::seat_all;
use crate::working::{Begun, Worker, work_all};
use pw_base::{Gate, List, Memory};
use pw_core::Ops;
use pw_model::Reply;
use pw_plan::{MOST_OF_A_REQUEST, Plan, Request};
use pw_regs::Registers;
use pw_script::{Line, Script};
use pw_turns::{Closed, Coordinator, OpenFault, Seat};
use std::alloc::Global;
use std::sync::Wait;
use std::thread::Threads;

/// What a run by workers gives: the closed coordinator, and the replies to its history's entries in their
/// order, of which a fault has none; or where an operation at the start failed, how many were done before.
#[derive(Drop)]
pub enum Drove<R> {
    Closed {
        closed: Closed<R>,
        replies: List<Reply>,
    },
    Opening {
        done: u32,
        plan: Plan,
        regs: R,
    },
}

/// What a run takes memory for: a list of requests for each processor, room for a worker for each before and
/// after it makes them and for its replies, and for all replies.
#[derive(Drop)]
struct Prepared<R: Registers> {
    lists: Vec<Vec<Request>>,
    workers: Vec<Worker>,
    begun: Vec<Begun<R>>,
    done: Vec<Worker>,
    each: Vec<Vec<Reply>>,
    all: Vec<Reply>,
}

/// The memory for a run of these lines.
fn prepare<R: Registers>(alloc: Global, plan: &Plan, lines: &[Line]) -> Result<Prepared<R>, Memory>
    requires { AllByRecursion (λ (l : asked). Has plan.now l.request) lines.now }
    ensures lists { IfOk result
        (λ p. AreLists (requests_of lines.now) (length plan.now.cpus) p.lists.items) }
    ensures none { IfOk result (λ p. p.workers.items ≡ []) }
    ensures room { IfOk result (λ p. length p.lists.items ≤ vec_capacity p.workers) }
    ensures undone { IfOk result (λ p. (p.begun.items ≡ []) × (p.done.items ≡ [])) }
    ensures more { IfOk result (λ p. (length p.lists.items ≤ vec_capacity p.begun)
        × (length p.lists.items ≤ vec_capacity p.done)) }
    ensures empty { IfOk result (λ p. AreEmpty (length p.lists.items) p.each.items) }
    ensures spare { IfOk result (λ p. HaveRoom (length p.lists.items) p.lists.items p.each.items) }
    ensures unanswered { IfOk result (λ p. p.all.items ≡ []) }
    ensures enough { IfOk result (λ p. length lines.now ≤ vec_capacity p.all) }
{
    let lists = lists_of(alloc, plan, lines)?;
    let workers = Vec::with_capacity(alloc, lists.len())?;
    let begun = Vec::with_capacity(alloc, lists.len())?;
    let done = Vec::with_capacity(alloc, lists.len())?;
    let each = rooms(alloc, lists.as_slice())?;
    let all = Vec::with_capacity(alloc, lines.len())?;
    Ok(Prepared {
        lists,
        workers,
        begun,
        done,
        each,
        all,
    })
}

/// Seats the workers, lets them make their requests, and ends the coordinator, with each worker's replies at
/// the place of its processor. Where there is no memory for a seat no request is made, and the registers are
/// given back.
fn run<T: Threads + Wait + Sync, R: Registers + Send, G: Gate + Sync>(
    rt: &T,
    alloc: Global,
    coordinator: Coordinator<R>,
    mut first: Seat,
    lists: Vec<Vec<Request>>,
    mut workers: Vec<Worker>,
    begun: Vec<Begun<R>>,
    done: Vec<Worker>,
    each: &mut Vec<Vec<Reply>>,
    gate: &G,
) -> Result<Closed<R>, R>
    requires owns { Owns coordinator.table.shared.table_id first }
    requires parts { (view_in first.badge.views).parts ≡ 65536 }
    requires silent { (view_in first.badge.views).book ≡ calls_of 0 [] ∷ [] }
    requires lists { AreListsFor coordinator.plan lists.items }
    requires none { workers.items ≡ [] }
    requires room { length lists.items ≤ vec_capacity workers }
    requires undone { (begun.items ≡ []) × (done.items ≡ []) }
    requires more { (length lists.items ≤ vec_capacity begun) × (length lists.items ≤ vec_capacity done) }
    requires unseen { (view_in first.badge.views).seen ≡ [] }
    requires empty { AreEmpty (length lists.items) each.old.items }
    requires spare { HaveRoom (length lists.items) lists.items each.old.items }
    ensures plan { IfOk result (λ c. c.sealed.plan ≡ coordinator.plan) }
    ensures made { IfOk result (λ c. let key = coordinator.table.shared.key in
        Makes R.Registers (promise_of R.Registers key) (given_of R.Registers key) lists.items each.new.items
        c.sealed.entries c.regs) }
    ensures given_back { IfErr result (λ back. let key = coordinator.table.shared.key in
        LeavesNone R.Registers (promise_of R.Registers key) (given_of R.Registers key) back) }
{
    if seat_all(alloc, &coordinator, &mut first, lists, each, &mut workers).is_err() {
        let (sealed, regs) = end(coordinator, first, workers, each).into_parts();
        drop(sealed);
        return Err(regs);
    }
    // Room behind the seats', so that the end of the heap stays where it is while these are given back.
    let _behind = Ops::new(alloc, MOST_OF_A_REQUEST);
    let done = work_all(rt, &coordinator, gate, workers, begun, done);
    Ok(end(coordinator, first, done, each))
}

/// Runs a script on registers by one worker for each processor that it names, side by side over one
/// shared coordinator: each makes its processor's lines in their order, up to a fault, and keeps their
/// replies. The memory of the seats alone is taken after the operations at the start. A worker's thread has a
/// stack of 128 KiB, on which the registers' operations and the gate run.
pub fn drive<T: Threads + Wait + Sync, R: Registers + Send, G: Gate + Sync>(
    rt: &T,
    alloc: Global,
    plan: Plan,
    script: &Script,
    regs: R,
    gate: &G,
) -> Result<Drove<R>, R>
    requires few { length script.now.lines ≤ 65536 }
    requires has { AllByRecursion (λ (l : asked). Has plan l.request) script.now.lines }
    ensures drove { IfOk result (λ d. Drives R.Registers plan script.now.lines regs d) }
    // Each entry has the reply of its place.
    ensures replies { IfOk result (λ d. Replies plan d) }
    ensures given_back { IfErr result (λ back. GivesBack R.Registers plan regs back) }
{
    let lines = script.lines.as_slice();
    let Ok(prepared) = prepare(alloc, &plan, lines) else {
        drop(plan);
        return Err(regs);
    };
    let Prepared {
        lists,
        workers,
        begun,
        done,
        mut each,
        all,
    } = prepared;
    match Coordinator::open(alloc, plan, regs, lines.len() as u32) {
        Ok((coordinator, first)) => {
            match run(
                rt,
                alloc,
                coordinator,
                first,
                lists,
                workers,
                begun,
                done,
                &mut each,
                gate,
            ) {
                Ok(closed) => {
                    let replies = in_order(closed.sealed(), each, all);
                    Ok(Drove::Closed { closed, replies })
                }
                Err(regs) => Err(regs),
            }
        }
        Err(OpenFault::RegisterFault { done, plan, regs }) => {
            Ok(Drove::Opening { done, plan, regs })
        }
        Err(OpenFault::Memory { regs }) => Err(regs),
    }
}
