//! All seats become one, and the coordinator ends.
ghost use Rattle.std.specs.Prelude.{◌≡◌, ◌<◌, ◌+◌, length};
ghost use Rattle.std.specs.List.{AllByRecursion};
ghost use Rattle.pw_rule.specs.Rule.{given_of, promise_of};
ghost use Rattle.pw_turns.specs.Owning.{Owns};
ghost use Rattle.pw_turns.specs.Views.{view_in};
ghost use Rattle.pw_drive.specs.declared.working.Worker.{Worker as worker};
ghost use Rattle.pw_drive.specs.inner.Gathered.{EndsWith, IsGathered, IsMember};
ghost use Rattle.pw_drive.specs.inner.Replying.{handed_down};

use crate::working::Worker;
use pw_model::Reply;
use pw_regs::Registers;
use pw_turns::{Closed, Coordinator, Seat};

/// Joins the workers' seats into the first one, from the last to the first, and puts each one's replies at
/// the place of its processor.
fn gather<R: Registers>(
    coordinator: &Coordinator<R>,
    first: Seat,
    mut workers: Vec<Worker>,
    each: &mut Vec<Vec<Reply>>,
) -> Seat
    requires owns { Owns coordinator.now.table.shared.table_id first }
    requires workers { AllByRecursion (IsMember coordinator.now.table.shared.table_id) workers.items }
    requires inside { AllByRecursion (λ (w : worker). w.cpu < length each.old.items) workers.items }
    ensures owns { Owns coordinator.now.table.shared.table_id result }
    ensures gathered { IsGathered (view_in first.badge.views) workers.items (view_in result.badge.views) }
    ensures handed { each.new.items ≡ handed_down each.old.items workers.items }
{
    let mut seat = first;
    while let Some(worker) = workers.pop() {
        seat = coordinator.join(seat, worker.seat);
        each[worker.cpu as usize] = worker.replies;
    }
    seat
}

/// Joins all seats, puts each worker's replies at the place of its processor, and closes the coordinator.
pub(crate) fn end<R: Registers>(
    coordinator: Coordinator<R>,
    first: Seat,
    workers: Vec<Worker>,
    each: &mut Vec<Vec<Reply>>,
) -> Closed<R>
    requires owns { Owns coordinator.table.shared.table_id first }
    requires workers { AllByRecursion (IsMember coordinator.table.shared.table_id) workers.items }
    requires inside { AllByRecursion (λ (w : worker). w.cpu < length each.old.items) workers.items }
    requires parts { (view_in first.badge.views).parts + length workers.items ≡ 65536 }
    ensures plan { result.sealed.plan ≡ coordinator.plan }
    ensures ends { let key = coordinator.table.shared.key in
        EndsWith R.Registers (promise_of R.Registers key) (given_of R.Registers key)
        (view_in first.badge.views) workers.items
        result.sealed.entries result.regs }
    ensures handed { each.new.items ≡ handed_down each.old.items workers.items }
{
    let seat = gather(&coordinator, first, workers, each);
    coordinator.close(seat)
}
