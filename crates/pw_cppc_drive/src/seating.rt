//! A seat for each processor with lines.
ghost use Rattle.std.specs.Prelude.{◌≡◌, ◌≤◌, ◌<◌, ◌+◌, [], true, length, vec_capacity};
ghost use Rattle.pw_cppc_desk.specs.Owning.{Owns};
ghost use Rattle.pw_cppc_desk.specs.Views.{view_in};
ghost use Rattle.pw_cppc_drive.specs.inner.Seated.{AllSeated, AreSeated, IsSeated};

use crate::working::Worker;
use pw_cppc::CppcRequest;
use pw_cppc_desk::{CppcDesk, CppcSeat};
use pw_regs::Registers;

/// Seats a worker with one part of the first seat's, where a number is left for its seat.
fn seat_worker<R: Registers>(
    desk: &CppcDesk<R>,
    first: &mut CppcSeat,
    cpu: u32,
    requests: Vec<CppcRequest>,
) -> Option<Worker>
    requires owns { Owns desk.now.table.shared.table_id first.old }
    requires parts { 1 < (view_in first.old.badge.views).parts }
    ensures owns { Owns desk.now.table.shared.table_id first.new }
    ensures book { (view_in first.new.badge.views).book ≡ (view_in first.old.badge.views).book }
    ensures seated { IsSeated desk.now.table.shared.table_id cpu requests
        (view_in first.old.badge.views).parts result (view_in first.new.badge.views).parts }
{
    match desk.split(first, 1) {
        Ok(seat) => Some(Worker {
            cpu,
            requests,
            seat,
        }),
        Err(_) => None,
    }
}

/// Seats a worker for each processor whose list isn't empty, from the last to the first, and answers
/// whether all have one. The workers that have seats stay where no number was left for one more.
pub(crate) fn seat_all<R: Registers>(
    desk: &CppcDesk<R>,
    first: &mut CppcSeat,
    mut lists: Vec<Vec<CppcRequest>>,
    workers: &mut Vec<Worker>,
) -> bool
    requires owns { Owns desk.now.table.shared.table_id first.old }
    requires parts { (view_in first.old.badge.views).parts ≡ 65536 }
    requires few { length lists.items ≤ 256 }
    requires none { workers.old.items ≡ [] }
    requires room { length lists.items ≤ vec_capacity workers.old }
    ensures owns { Owns desk.now.table.shared.table_id first.new }
    ensures book { (view_in first.new.badge.views).book ≡ (view_in first.old.badge.views).book }
    ensures parts { (view_in first.new.badge.views).parts + length workers.new.items ≡ 65536 }
    ensures seated { AreSeated desk.now.table.shared.table_id lists.items workers.new.items }
    ensures all { result ≡ true → AllSeated lists.items workers.new.items }
{
    while let Some(requests) = lists.pop() {
        if !requests.is_empty() {
            let cpu = lists.len() as u32;
            let Some(worker) = seat_worker(desk, first, cpu, requests) else {
                return false;
            };
            workers.push_reserved(worker);
        }
    }
    true
}
