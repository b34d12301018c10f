//! A seat for each processor with lines.
ghost use Rattle.std.specs.Prelude.{◌≡◌, ◌≤◌, ◌<◌, ◌+◌, [], length, vec_capacity, OnOk};
ghost use Rattle.pw_drive.specs.inner.Replying.{AreEmpty, HaveRoom};
ghost use Rattle.pw_turns.specs.Owning.{Owns};
ghost use Rattle.pw_turns.specs.Views.{view_in};
ghost use Rattle.pw_drive.specs.inner.Seated.{AllSeated, AreSeated, IsSeated};

use crate::replying::take_room;
use crate::working::Worker;
use pw_base::Memory;
use pw_model::Reply;
use pw_plan::Request;
use pw_regs::Registers;
use pw_turns::{Coordinator, Seat};
use std::alloc::Global;

/// Seats a worker with one part of the first seat's.
fn seat_worker<R: Registers>(
    alloc: Global,
    coordinator: &Coordinator<R>,
    first: &mut Seat,
    cpu: u32,
    requests: Vec<Request>,
    replies: Vec<Reply>,
) -> Result<Worker, Memory>
    requires owns { Owns coordinator.now.table.shared.table_id first.old }
    requires parts { 1 < (view_in first.old.badge.views).parts }
    requires unseen { (view_in first.old.badge.views).seen ≡ [] }
    requires none { replies.items ≡ [] }
    requires room { length requests.items ≤ vec_capacity replies }
    ensures owns { Owns coordinator.now.table.shared.table_id first.new }
    ensures book { (view_in first.new.badge.views).book ≡ (view_in first.old.badge.views).book }
    ensures unseen { (view_in first.new.badge.views).seen ≡ [] }
    ensures seated { IsSeated coordinator.now.table.shared.table_id cpu requests
        (view_in first.old.badge.views).parts result (view_in first.new.badge.views).parts }
{
    match coordinator.split(alloc, first, 1) {
        Ok(seat) => Ok(Worker {
            cpu,
            requests,
            seat,
            replies,
        }),
        Err(_) => Err(Memory),
    }
}

/// Seats a worker for each processor whose list isn't empty, from the last to the first, and gives it
/// the room for its replies. The workers that have seats stay where there was no memory for one more.
pub(crate) fn seat_all<R: Registers>(
    alloc: Global,
    coordinator: &Coordinator<R>,
    first: &mut Seat,
    mut lists: Vec<Vec<Request>>,
    each: &mut Vec<Vec<Reply>>,
    workers: &mut Vec<Worker>,
) -> Result<(), Memory>
    requires owns { Owns coordinator.now.table.shared.table_id first.old }
    requires parts { (view_in first.old.badge.views).parts ≡ 65536 }
    requires unseen { (view_in first.old.badge.views).seen ≡ [] }
    requires few { length lists.items ≤ 256 }
    requires empty { AreEmpty (length lists.items) each.old.items }
    requires spare { HaveRoom (length lists.items) lists.items each.old.items }
    requires none { workers.old.items ≡ [] }
    requires room { length lists.items ≤ vec_capacity workers.old }
    ensures owns { Owns coordinator.now.table.shared.table_id first.new }
    ensures book { (view_in first.new.badge.views).book ≡ (view_in first.old.badge.views).book }
    ensures parts { (view_in first.new.badge.views).parts + length workers.new.items ≡ 65536 }
    ensures few { length workers.new.items ≤ length lists.items }
    ensures seated { AreSeated coordinator.now.table.shared.table_id lists.items workers.new.items }
    ensures all { OnOk result (AllSeated lists.items workers.new.items) }
    ensures empty { AreEmpty (length lists.items) each.new.items }
{
    while let Some(requests) = lists.pop() {
        if !requests.is_empty() {
            let cpu = lists.len();
            let replies = take_room(alloc, each, cpu);
            let worker = seat_worker(alloc, coordinator, first, cpu as u32, requests, replies)?;
            workers.push_reserved(worker);
        }
    }
    Ok(())
}
