//! A worker makes its processor's requests, and all workers do so side by side.
ghost use Rattle.std.specs.Prelude.{◌≡◌, ◌∷◌, ◌≤◌, [], List as list, length, vec_capacity};
ghost use Rattle.std.specs.List.{AllByRecursion};
ghost use denote.Param.Send.{IsSync, IsSend};
ghost use Rattle.pw_plan.specs.Requests.{Has};
ghost use Rattle.pw_books.specs.Books.{calls_of};
ghost use Rattle.pw_rule.specs.Rule.{given_of};
ghost use Rattle.pw_turns.specs.Owning.{Owns};
ghost use Rattle.pw_turns.specs.Views.{view_in};
ghost use Rattle.pw_drive.specs.inner.Replying.{KeepsReplies, reply_in};
ghost use Rattle.atomic_table.specs.Seated.{TableId};
ghost use Rattle.pw_machine.specs.Machine.{Given};
ghost use Rattle.pw_drive.specs.declared.working.Worker.{Worker as worker};
ghost use Rattle.pw_drive.specs.inner.Begun.{AllWillEnd, WillEnd};
ghost use Rattle.pw_drive.specs.inner.Workers.{HasEnded, HaveEnded, IsReady, MadeLines};

use core::thread::Stack;
use pw_base::Gate;
use pw_model::Reply;
use pw_plan::Request;
use pw_regs::Registers;
use pw_turns::{Coordinator, Done, Seat};
use std::snapshot::Snapshot;
use std::sync::Wait;
use std::thread;
use std::thread::{Promise, PromisedHandle, Scope, Threads};

/// The stack of a worker's thread, in bytes: of this size the C library keeps those of 256 threads, and
/// gives none back to the system before the program ends.
const STACK: usize = 128 * 1024;

/// A processor with its lines' requests, the seat that makes them, and the replies so far, with room for
/// one to each request.
#[derive(Drop)]
pub(crate) struct Worker {
    pub(crate) cpu: u32,
    pub(crate) requests: Vec<Request>,
    pub(crate) seat: Seat,
    pub(crate) replies: Vec<Reply>,
}

/// The reply to a request, if it has one, so that its worker goes on.
fn reply_of(done: Done) -> Option<Reply>
    ensures { result ≡ reply_in done }
{
    match done {
        Done::Answer(reply) => Some(reply),
        _ => None,
    }
}

/// Makes the requests in their order, up to a fault, and keeps their replies.
fn make_all<W: Wait, R: Registers, G: Gate>(
    rt: &W,
    coordinator: &Coordinator<R>,
    requests: &[Request],
    seat: &mut Seat,
    replies: &mut Vec<Reply>,
    gate: &G,
)
    requires owns { Owns coordinator.now.table.shared.table_id seat.old }
    requires has { AllByRecursion (Has coordinator.now.plan) requests.now }
    requires fresh { let v = view_in seat.old.badge.views in v.book ≡ calls_of v.number [] ∷ [] }
    requires unseen { (view_in seat.old.badge.views).seen ≡ [] }
    requires none { replies.old.items ≡ [] }
    requires room { length requests.now ≤ vec_capacity replies.old }
    ensures owns { Owns coordinator.now.table.shared.table_id seat.new }
    ensures parts { (view_in seat.new.badge.views).parts ≡ (view_in seat.old.badge.views).parts }
    ensures made { MadeLines requests.now (given_of R.Registers coordinator.now.table.shared.key).capacity
        (view_in seat.new.badge.views) }
    ensures replied { KeepsReplies (given_of R.Registers coordinator.now.table.shared.key).plan
        replies.new.items (view_in seat.new.badge.views) }
{
    for request in requests {
        let done = coordinator.request(rt, seat, *request, gate);
        let Some(reply) = reply_of(done) else {
            return;
        };
        replies.push_reserved(reply);
    }
}

/// A worker that makes its processor's requests.
fn worked<W: Wait, R: Registers, G: Gate>(
    rt: &W,
    coordinator: &Coordinator<R>,
    gate: &G,
    mut worker: Worker,
) -> Worker
    requires { IsReady coordinator.now.table.shared.table_id coordinator.now.plan worker }
    ensures { HasEnded coordinator.now.table.shared.table_id
        (given_of R.Registers coordinator.now.table.shared.key) worker result }
{
    make_all(
        rt,
        coordinator,
        worker.requests.as_slice(),
        &mut worker.seat,
        &mut worker.replies,
        gate,
    );
    worker
}

/// What a worker's thread promises: the worker, when it has made its requests.
#[derive(Drop)]
pub(crate) struct Ends<R: Registers> {
    pub(crate) coordinator: Snapshot<Coordinator<R>>,
    pub(crate) worker: Snapshot<Worker>,
}

impl<R: Registers> Promise<Worker> for Ends<R> {
    ghost kept_by = { λ p w. HasEnded p.coordinator.value.table.shared.table_id
        (given_of R.Registers p.coordinator.value.table.shared.key) p.worker.value w };
}

/// A worker that makes its requests on a thread of its own, or that made them on this one.
#[derive(Drop)]
pub(crate) enum Begun<R: Registers> {
    There(PromisedHandle<Worker, Ends<R>>),
    Here(Worker),
}

/// The worker, when it has made its requests.
fn ended<T: Threads, R: Registers>(rt: &T, begun: Begun<R>) -> Worker
    ensures { (id : TableId) (given : Given) (v : worker) → WillEnd R.Registers id given v begun
        → HasEnded id given v result }
{
    match begun {
        Begun::There(handle) => handle.join(rt),
        Begun::Here(worker) => worker,
    }
}

/// Lets a worker make its requests on a thread of its own, or on this one where none can be made.
fn begin<'s, E, T: Threads + Wait + Sync, R: Registers + Send, G: Gate + Sync>(
    scope: &Scope<'s, E>,
    rt: &'s T,
    coordinator: &'s Coordinator<R>,
    gate: &'s G,
    worker: Worker,
) -> Begun<R>
    requires { IsReady coordinator.now.table.shared.table_id coordinator.now.plan worker }
    ensures { WillEnd R.Registers coordinator.now.table.shared.table_id
        (given_of R.Registers coordinator.now.table.shared.key) worker result }
{
    let promise = Ends {
        coordinator: Snapshot::of(coordinator),
        worker: Snapshot::of(&worker),
    };
    let there = move || -> Worker
        requires { IsReady coordinator.now.table.shared.table_id coordinator.now.plan worker }
        ensures { HasEnded coordinator.entry.now.table.shared.table_id
            (given_of R.Registers coordinator.entry.now.table.shared.key) worker result }
    { worked(rt, coordinator, gate, worker) };
    let stack = Stack::new().stack_size(STACK);
    match stack.spawn_scoped_with(scope, promise, there) {
        Ok(handle) => Begun::There(handle),
        Err(refused) => Begun::Here((refused.value)()),
    }
}

/// All workers begin, in their order. They stand where there is room for them.
fn begin_all<'s, E, T: Threads + Wait + Sync, R: Registers + Send, G: Gate + Sync>(
    scope: &Scope<'s, E>,
    rt: &'s T,
    coordinator: &'s Coordinator<R>,
    gate: &'s G,
    workers: Vec<Worker>,
    mut begun: Vec<Begun<R>>,
) -> Vec<Begun<R>>
    requires ready { AllByRecursion (IsReady coordinator.now.table.shared.table_id coordinator.now.plan)
        workers.items }
    requires none { begun.items ≡ [] }
    requires room { length workers.items ≤ vec_capacity begun }
    ensures { AllWillEnd R.Registers coordinator.now.table.shared.table_id
        (given_of R.Registers coordinator.now.table.shared.key) workers.items result.items }
{
    for worker in workers {
        begun.push_reserved(begin(scope, rt, coordinator, gate, worker));
    }
    begun
}

/// All workers, when they have made their requests.
fn end_all<T: Threads, R: Registers>(
    rt: &T,
    begun: Vec<Begun<R>>,
    mut done: Vec<Worker>,
) -> Vec<Worker>
    requires none { done.items ≡ [] }
    requires room { length begun.items ≤ vec_capacity done }
    ensures { (id : TableId) (given : Given) (vs : list worker)
        → AllWillEnd R.Registers id given vs begun.items → HaveEnded id given vs result.items }
{
    for one in begun {
        done.push_reserved(ended(rt, one));
    }
    done
}

/// All workers make their processors' requests, side by side. This thread starts that of each, one after the
/// other, so that many have ended before the last begins.
pub(crate) fn work_all<T: Threads + Wait + Sync, R: Registers + Send, G: Gate + Sync>(
    rt: &T,
    coordinator: &Coordinator<R>,
    gate: &G,
    workers: Vec<Worker>,
    begun: Vec<Begun<R>>,
    done: Vec<Worker>,
) -> Vec<Worker>
    requires ready { AllByRecursion (IsReady coordinator.now.table.shared.table_id coordinator.now.plan)
        workers.items }
    requires none { (begun.items ≡ []) × (done.items ≡ []) }
    requires room { (length workers.items ≤ vec_capacity begun)
        × (length workers.items ≤ vec_capacity done) }
    ensures { HaveEnded coordinator.now.table.shared.table_id
        (given_of R.Registers coordinator.now.table.shared.key) workers.items result.items }
{
    thread::scope(
        thread::scope_env(),
        rt,
        |scope| -> Vec<Worker>
            requires { IsSync T.row × IsSend R.row × IsSync G.row
                × AllByRecursion (IsReady coordinator.now.table.shared.table_id coordinator.now.plan)
                workers.items
                × (begun.items ≡ []) × (done.items ≡ [])
                × (length workers.items ≤ vec_capacity begun)
                × (length workers.items ≤ vec_capacity done) }
            ensures { HaveEnded coordinator.entry.now.table.shared.table_id
                (given_of R.Registers coordinator.entry.now.table.shared.key) workers.items result.items }
        {
            let begun = begin_all(scope, rt, coordinator, gate, workers, begun);
            end_all(rt, begun, done)
        },
    )
}
