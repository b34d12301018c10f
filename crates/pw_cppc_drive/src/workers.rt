//! The whole run of a script by workers.
ghost use Rattle.std.specs.Prelude.{◌≡◌, ◌≤◌, ◌∷◌, [], None, length, vec_capacity, IfErr, IfOk};
ghost use Rattle.std.specs.List.{AllByRecursion};
ghost use Rattle.pw_regs.specs.Seen.{registers_seen};
ghost use Rattle.pw_books.specs.Books.{calls_of};
ghost use Rattle.pw_cppc.specs.Requests.{Has};
ghost use Rattle.pw_cppc_drive.specs.declared.script.CppcLine.{CppcLine as line};
ghost use Rattle.pw_cppc_drive.specs.Reading.{operations, requests_of};
ghost use Rattle.pw_cppc_drive.specs.Driven.{OperatesFor};
ghost use Rattle.pw_cppc_desk.specs.Owning.{Owns};
ghost use Rattle.pw_cppc_desk.specs.Views.{view_in};
ghost use Rattle.pw_cppc_drive.specs.Lawful.{GivesBack, Lawful, Opened, TellSeats};
ghost use Rattle.pw_cppc_drive.specs.inner.Lists.{AreLists, AreListsFor};
ghost use Rattle.pw_cppc_drive.specs.inner.Runs.{Makes};

use crate::gathering::end;
use crate::lists::lists_of;
use crate::seating::seat_all;
use crate::working::{Worker, work_all};
use crate::{CppcDriven, CppcLine, CppcScript};
use pw_base::{List, Memory};
use pw_cppc::{CppcPlan, CppcRequest};
use pw_cppc_desk::{CppcClosed, CppcDesk, CppcOpenFault, CppcSeat};
use pw_regs::Registers;
use std::alloc::Global;
use std::sync::Wait;
use std::thread::Threads;

/// A list of requests for each processor, and room for a worker for each.
fn prepare(
    alloc: Global,
    plan: &CppcPlan,
    lines: &[CppcLine],
) -> Result<(Vec<Vec<CppcRequest>>, Vec<Worker>), Memory>
    requires { AllByRecursion (λ (l : line). Has plan.now l.request) lines.now }
    ensures lists { IfOk result (λ made.
        AreLists (requests_of lines.now) (length plan.now.cpus) made.0.items) }
    ensures none { IfOk result (λ made. made.1.items ≡ []) }
    ensures room { IfOk result (λ made. length made.0.items ≤ vec_capacity made.1) }
{
    let lists = lists_of(alloc, plan, lines)?;
    let workers = Vec::with_capacity(alloc, lists.len())?;
    Ok((lists, workers))
}

/// Seats the workers, lets them make their requests, and closes the desk. Where a worker gets no seat no
/// request is made, and the registers are given back.
fn run<T: Threads + Wait + Sync, R: Registers + Send>(
    rt: &T,
    desk: CppcDesk<R>,
    mut first: CppcSeat,
    lists: Vec<Vec<CppcRequest>>,
    mut workers: Vec<Worker>,
) -> Result<CppcClosed<R>, R>
    requires owns { Owns desk.table.shared.table_id first }
    requires parts { (view_in first.badge.views).parts ≡ 65536 }
    requires silent { (view_in first.badge.views).book ≡ calls_of 0 [] ∷ [] }
    requires lists { AreListsFor desk.plan lists.items }
    requires none { workers.items ≡ [] }
    requires room { length lists.items ≤ vec_capacity workers }
    ensures plan { IfOk result (λ c. c.plan ≡ desk.plan) }
    ensures made { IfOk result (λ c.
        Makes R.Registers desk.plan desk.capacity desk.table.shared.key.regs.value lists.items
        c.entries c.regs) }
    ensures given_back { IfErr result (λ back.
        Opened R.Registers desk.plan desk.table.shared.key.regs.value back) }
{
    if !seat_all(&desk, &mut first, lists, &mut workers) {
        let closed = end(desk, first, workers);
        drop(closed.plan);
        drop(closed.entries);
        return Err(closed.regs);
    }
    work_all(rt, &desk, workers.as_mut_slice());
    Ok(end(desk, first, workers))
}

/// Runs a script on registers by one worker for each processor that it names, side by side at one desk:
/// each makes its processor's lines in their order, up to a fault. All memory is taken before the first
/// operation. Where there is none, or no number for a worker's seat, the registers are given back.
pub fn cppc_drive<T: Threads + Wait + Sync, R: Registers + Send>(
    rt: &T,
    alloc: Global,
    plan: CppcPlan,
    script: &CppcScript,
    regs: R,
) -> Result<CppcDriven<R>, R>
    requires few { length script.now.lines ≤ 65536 }
    requires has { AllByRecursion (λ (l : line). Has plan l.request) script.now.lines }
    ensures plan { IfOk result (λ driven. driven.plan ≡ plan) }
    // The history is one of the lines, each processor's in their order.
    ensures lawful { IfOk result (λ driven.
        Lawful plan (requests_of script.now.lines) driven.opening driven.entries) }
    // No replies are handed on.
    ensures unknown { IfOk result (λ driven. driven.replies ≡ None) }
    // Each processor has a seat of its own.
    ensures seats { IfOk result (λ driven. TellSeats driven.entries) }
    // The registers' log grew by the operations of the start and of that history.
    ensures operates { IfOk result (λ driven.
        OperatesFor plan (operations plan script.now.lines) driven.opening driven.entries
        (registers_seen R.Registers regs) (registers_seen R.Registers driven.regs)) }
    ensures given_back { IfErr result (λ back. GivesBack R.Registers plan regs back) }
{
    let lines = script.lines.as_slice();
    let Ok((lists, workers)) = prepare(alloc, &plan, lines) else {
        drop(plan);
        return Err(regs);
    };
    match CppcDesk::open(alloc, plan, regs, lines.len() as u32) {
        Ok((desk, first)) => match run(rt, desk, first, lists, workers) {
            Ok(closed) => Ok(CppcDriven {
                plan: closed.plan,
                opening: None,
                entries: closed.entries,
                replies: None,
                regs: closed.regs,
            }),
            Err(regs) => Err(regs),
        },
        Err(CppcOpenFault::RegisterFault { done, plan, regs }) => Ok(CppcDriven {
            plan,
            opening: Some(done),
            entries: List::from_vec(Vec::new(alloc)),
            replies: None,
            regs,
        }),
        Err(CppcOpenFault::Memory { regs }) => Err(regs),
    }
}
