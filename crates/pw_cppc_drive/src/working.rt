//! A worker makes its processor's requests, and all workers do so side by side.
ghost use Rattle.std.specs.Prelude.{◌≡◌, ◌∷◌, []};
ghost use Rattle.std.specs.List.{AllByRecursion};
ghost use denote.Param.Send.{IsSync, IsSend};
ghost use Rattle.pw_cppc.specs.Requests.{Has};
ghost use Rattle.pw_books.specs.Books.{calls_of};
ghost use Rattle.pw_cppc_desk.specs.Owning.{Owns};
ghost use Rattle.pw_cppc_desk.specs.Views.{view_in};
ghost use Rattle.pw_cppc_drive.specs.inner.Workers.{HasEnded, HaveEnded, IsReady, MadeLines, is_answer};

use pw_cppc::CppcRequest;
use pw_cppc_desk::{CppcDesk, CppcDone, CppcSeat};
use pw_regs::Registers;
use std::sync::Wait;
use std::thread::{Threads, join_mut};

/// A processor with its lines' requests, and the seat that makes them.
#[derive(Drop)]
pub(crate) struct Worker {
    pub(crate) cpu: u32,
    pub(crate) requests: Vec<CppcRequest>,
    pub(crate) seat: CppcSeat,
}

/// Whether a request has a reply, so that its worker goes on.
fn was_answered(done: CppcDone) -> bool
    ensures { result ≡ is_answer done }
{
    matches!(done, CppcDone::Answer(_))
}

/// Makes the requests in their order, up to a fault.
fn make_all<W: Wait, R: Registers>(
    rt: &W,
    desk: &CppcDesk<R>,
    requests: &[CppcRequest],
    seat: &mut CppcSeat,
)
    requires owns { Owns desk.now.table.shared.table_id seat.old }
    requires has { AllByRecursion (Has desk.now.plan) requests.now }
    requires fresh { let v = view_in seat.old.badge.views in v.book ≡ calls_of v.number [] ∷ [] }
    ensures owns { Owns desk.now.table.shared.table_id seat.new }
    ensures parts { (view_in seat.new.badge.views).parts ≡ (view_in seat.old.badge.views).parts }
    ensures made { MadeLines requests.now desk.now.capacity (view_in seat.new.badge.views) }
{
    for request in requests {
        let done = desk.request(rt, seat, *request);
        if !was_answered(done) {
            return;
        }
    }
}

/// A worker makes its processor's requests.
fn work<W: Wait, R: Registers>(rt: &W, desk: &CppcDesk<R>, worker: &mut Worker)
    requires { IsReady desk.now.table.shared.table_id desk.now.plan worker.old }
    ensures { HasEnded desk.now.table.shared.table_id desk.now.capacity worker.old worker.new }
{
    make_all(rt, desk, worker.requests.as_slice(), &mut worker.seat);
}

/// A worker makes its requests on a thread of its own, and the others from here on.
#[cycle(side_by_side)]
fn work_beside<T: Threads + Wait + Sync, R: Registers + Send>(
    rt: &T,
    desk: &CppcDesk<R>,
    first: &mut Worker,
    others: &mut [Worker],
)
    requires first { IsReady desk.now.table.shared.table_id desk.now.plan first.old }
    requires others { AllByRecursion (IsReady desk.now.table.shared.table_id desk.now.plan) others.old }
    ensures first { HasEnded desk.now.table.shared.table_id desk.now.capacity first.old first.new }
    ensures others { HaveEnded desk.now.table.shared.table_id desk.now.capacity others.old others.new }
{
    let mut there = ||
        requires { IsReady desk.now.table.shared.table_id desk.now.plan first.now }
        ensures { HasEnded desk.entry.now.table.shared.table_id desk.entry.now.capacity
            first.entry.now first.exit.now }
    { work(rt, desk, first) };
    let mut here = ||
        requires { IsSync T.row × IsSend R.row
            × AllByRecursion (IsReady desk.now.table.shared.table_id desk.now.plan) others.now }
        ensures { HaveEnded desk.entry.now.table.shared.table_id desk.entry.now.capacity
            others.entry.now others.exit.now }
    { work_all(rt, desk, others) };
    join_mut(rt, &mut there, &mut here);
}

/// All workers make their processors' requests, side by side. This thread starts that of each but the last,
/// one after the other, so that many have ended before the last begins.
#[cycle(side_by_side)]
pub(crate) fn work_all<T: Threads + Wait + Sync, R: Registers + Send>(
    rt: &T,
    desk: &CppcDesk<R>,
    workers: &mut [Worker],
)
    requires { AllByRecursion (IsReady desk.now.table.shared.table_id desk.now.plan) workers.old }
    ensures { HaveEnded desk.now.table.shared.table_id desk.now.capacity workers.old workers.new }
{
    let Some((first, others)) = workers.split_first_mut() else {
        return;
    };
    if others.is_empty() {
        work(rt, desk, first);
        return;
    }
    work_beside(rt, desk, first, others);
}
