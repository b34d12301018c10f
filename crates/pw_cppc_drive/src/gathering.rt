//! All seats become one, and the desk is closed.
ghost use Rattle.std.specs.Prelude.{◌≡◌, ◌+◌, length};
ghost use Rattle.std.specs.List.{AllByRecursion};
ghost use Rattle.pw_cppc_desk.specs.Owning.{Owns};
ghost use Rattle.pw_cppc_desk.specs.Views.{view_in};
ghost use Rattle.pw_cppc_drive.specs.inner.Gathered.{EndsWith, IsGathered, IsMember};

use crate::working::Worker;
use pw_cppc_desk::{CppcClosed, CppcDesk, CppcSeat};
use pw_regs::Registers;

/// Joins the workers' seats into the first one, from the last to the first.
fn gather<R: Registers>(desk: &CppcDesk<R>, first: CppcSeat, mut workers: Vec<Worker>) -> CppcSeat
    requires owns { Owns desk.now.table.shared.table_id first }
    requires workers { AllByRecursion (IsMember desk.now.table.shared.table_id) workers.items }
    ensures owns { Owns desk.now.table.shared.table_id result }
    ensures gathered { IsGathered (view_in first.badge.views) workers.items (view_in result.badge.views) }
{
    let mut seat = first;
    while let Some(worker) = workers.pop() {
        seat = desk.join(seat, worker.seat);
    }
    seat
}

/// Joins all seats, and closes the desk.
pub(crate) fn end<R: Registers>(
    desk: CppcDesk<R>,
    first: CppcSeat,
    workers: Vec<Worker>,
) -> CppcClosed<R>
    requires owns { Owns desk.table.shared.table_id first }
    requires workers { AllByRecursion (IsMember desk.table.shared.table_id) workers.items }
    requires parts { (view_in first.badge.views).parts + length workers.items ≡ 65536 }
    ensures plan { result.plan ≡ desk.plan }
    ensures ends { EndsWith R.Registers desk.plan desk.capacity desk.table.shared.key.regs.value
        (view_in first.badge.views) workers.items result.entries result.regs }
{
    let seat = gather(&desk, first, workers);
    desk.close(seat)
}
