//! How a program calls the shared coordinator from threads of its own.

ghost use Rattle.std.specs.Prelude.{◌≡◌};
ghost use Rattle.std.specs.Thread.{IsSync};
ghost use Rattle.pw_turns.specs.Owning.{Owns};
ghost use Rattle.pw_turns.specs.Views.{view_in};

use pw_base::OpenGate;
use pw_machines::plan_of;
use pw_plan::{Plan, Request};
use pw_regs::{RegisterFile, Registers};
use pw_turns::{Closed, Coordinator, OpenFault, Seat};
use std::alloc::Global;
use std::io;
use std::sync::Wait;
use std::thread::{Threads, join};

/// A cluster of two processors: in its states 1 and 2 it wakes in 100 and 500 microseconds.
const CLUSTER: &str = "\
container - | lpi on 100 0 1 0x10 | lpi on 500 0 2 0x20
cpu 0 | lpi on 10 0 0 127 32 0 3 1 | lpi on 50 0 1 127 32 0 3 2 | lpi on 200 0 2 127 32 0 3 3
cpu 0 | lpi on 10 0 0 127 32 0 3 1 | lpi on 50 0 1 127 32 0 3 2 | lpi on 200 0 2 127 32 0 3 3
";

/// Has a processor enter its deepest state, and gives the seat back.
fn idle<W: Wait, R: Registers>(rt: &W, shared: &Coordinator<R>, mut seat: Seat, cpu: u32) -> Seat
    requires { Owns shared.now.table.shared.table_id seat }
    ensures owns { Owns shared.now.table.shared.table_id result }
    ensures parts { (view_in result.badge.views).parts ≡ (view_in seat.badge.views).parts }
{
    let request = Request::Idle {
        cpu,
        state: 3,
        tolerance: u32::MAX,
    };
    if shared.plan().has(&request) {
        let _told = shared.request(rt, &mut seat, request, &OpenGate);
    }
    seat
}

/// Two processors go idle, each on a thread of its own. Ends with the history of both; with an empty one
/// where there is no memory for a second seat.
fn pair<T: Threads + Wait + Sync>(
    rt: &T,
    alloc: Global,
    plan: Plan,
    regs: RegisterFile,
) -> Result<Closed<RegisterFile>, OpenFault<RegisterFile>> {
    let (coordinator, mut first) = Coordinator::open(alloc, plan, regs, 2)?;
    let Ok(second) = coordinator.split(alloc, &mut first, 1) else {
        return Ok(coordinator.close(first));
    };
    let shared = &coordinator;
    let (first, second) = join(
        rt,
        move || -> Seat
            requires { IsSync T.row × Owns shared.now.table.shared.table_id first }
            ensures { Owns shared.entry.now.table.shared.table_id result
                × ((view_in result.badge.views).parts ≡ (view_in first.badge.views).parts) }
        { idle(rt, shared, first, 0) },
        move || -> Seat
            requires { IsSync T.row × Owns shared.now.table.shared.table_id second }
            ensures { Owns shared.entry.now.table.shared.table_id result
                × ((view_in result.badge.views).parts ≡ (view_in second.badge.views).parts) }
        { idle(rt, shared, second, 1) },
    );
    let seat = coordinator.join(first, second);
    Ok(coordinator.close(seat))
}

/// The plan of the cluster, and registers with room for 16 operations.
fn prepare(alloc: Global) -> Option<(Plan, RegisterFile)> {
    let plan = plan_of(alloc, CLUSTER).ok()?;
    let regs = RegisterFile::new(alloc, 16).ok()?;
    Some((plan, regs))
}

/// Tells how many requests the closed history has, and how many operations were done.
pub(crate) fn print_pair<T: Threads + Wait + Sync>(
    rt: &HostRuntime,
    threads: &T,
) -> io::Result<()> {
    let Some((plan, regs)) = prepare(rt.alloc()) else {
        return println!(rt; "no memory");
    };
    match pair(threads, rt.alloc(), plan, regs) {
        Ok(closed) => {
            let requests = closed.sealed().entries().len();
            let operations = closed.regs().log().len();
            drop(closed);
            println!(rt; "{requests} requests, {operations} operations")
        }
        Err(OpenFault::Memory { regs }) => {
            let operations = regs.log().len();
            drop(regs);
            println!(rt; "no memory for a coordinator, {operations} operations")
        }
        Err(OpenFault::RegisterFault { done, plan, regs }) => {
            drop(plan);
            drop(regs);
            println!(rt; "register fault after {done}")
        }
    }
}
