//! The calls for callers in C (`include/yeqorwas.h`): the handle is a struct of the caller's, which
//! keeps a box of this library's, and each result the number of a `pw_embed::Status`. Misuse that can be
//! told is a status, and changes nothing.
#![tactic(auto)]

ghost use Rattle.std.specs.Prelude.{◌≡◌, []};
ghost use Rattle.pw_embed.specs.declared.machine.Machine.TheVariants.{Blocks};
ghost use Rattle.pw_embed.specs.Cppc.{Asked};
ghost use Rattle.pw_embed.specs.Machines.{AddsBlock, Asks, Counts as Counted, Lists, Plans, Starts, TellsCpu};
ghost use Rattle.pw_embed.specs.Endless.{BeginsAt, EndsAt, Shows as EndlessShows, listed};
ghost use Rattle.pw_embed.specs.Operations.{Listed};
ghost use Rattle.pw_embed.specs.Statuses.{Tells};
ghost use Rattle.pw_embed.specs.Seats.{Asks as SeatAsks, Counts as SeatCounts, Lists as SeatLists};
ghost use Rattle.pw_embed.specs.Seats.{Seals, Shows, TellsEntry};
ghost use Rattle.pw_handles.specs.declared.kept.Kept.TheVariants.{Machine as machine};
ghost use Rattle.pw_handles.specs.Handled.{Closes, KeptSo, OnCppc, OnMachine, Opens, OpensCppc};
ghost use Rattle.pw_handles.specs.Endless.{JoinsEndless, OnEndless, OpensEndlessOf};
ghost use Rattle.pw_handles.specs.Endless.{OweOneEndless, SplitsEndless};
ghost use Rattle.pw_handles.specs.Seated.{JoinsTo, OnSeat, OpensSeatOf, OweOneCoordinator, SplitsTo};

use pw_embed::{
    Counts, CppcReplyNumbers, CppcRequestNumbers, CpuNumbers, EntryNumbers, FaultNumbers,
    OpNumbers, ReplyNumbers, RequestNumbers, SeatFacts,
};
use pw_handles::Handle;
use std::alloc::Global;

/// Opens a closed handle for a machine without blocks.
#[unsafe(no_mangle)]
pub extern "C" fn yeq_machine_open(alloc: Global, h: &mut Handle) -> i32
    ensures { Tells result (λ s. Opens h.old h.new s (λ k. k ≡ machine (Blocks []))) }
{
    h.open(alloc).code()
}

/// Adds the block that the bytes spell.
#[unsafe(no_mangle)]
pub extern "C" fn yeq_machine_add_block(
    alloc: Global,
    h: &mut Handle,
    bytes: &[u8],
    fault: &mut FaultNumbers,
) -> i32
    ensures { Tells result (λ s. OnMachine h.old h.new s (fault.new ≡ fault.old)
        (λ m n t. AddsBlock m bytes.now fault.old n fault.new t)) }
{
    h.add_block(alloc, bytes, fault).code()
}

/// Makes the plan of the blocks.
#[unsafe(no_mangle)]
pub extern "C" fn yeq_machine_plan(
    alloc: Global,
    h: &mut Handle,
    fault: &mut FaultNumbers,
    path: &mut [u8],
) -> i32
    ensures { Tells result (λ s. OnMachine h.old h.new s ((fault.new ≡ fault.old) × (path.new ≡ path.old))
        (λ m n t. Plans m fault.old path.old n fault.new path.new t)) }
{
    h.plan(alloc, fault, path).code()
}

/// Counts the parts of the plan.
#[unsafe(no_mangle)]
pub extern "C" fn yeq_machine_counts(h: &mut Handle, counts: &mut Counts) -> i32
    ensures { Tells result (λ s. OnMachine h.old h.new s (counts.new ≡ counts.old)
        (λ m n t. (n ≡ m) × Counted m counts.old counts.new t)) }
{
    h.count(counts).code()
}

/// Tells of a processor of the plan.
#[unsafe(no_mangle)]
pub extern "C" fn yeq_machine_cpu(
    h: &mut Handle,
    cpu: u32,
    told: &mut CpuNumbers,
    path: &mut [u8],
    length: &mut usize,
) -> i32
    ensures { Tells result (λ s. OnMachine h.old h.new s
        ((told.new ≡ told.old) × (path.new ≡ path.old) × (length.new ≡ length.old))
        (λ m n t. (n ≡ m)
        × TellsCpu m cpu (told.old, path.old, length.old) (told.new, path.new, length.new) t)) }
{
    h.tell_cpu(cpu, told, path, length).code()
}

/// Starts the coordinator of one caller.
#[unsafe(no_mangle)]
pub extern "C" fn yeq_machine_start(alloc: Global, h: &mut Handle) -> i32
    ensures { Tells result (λ s. OnMachine h.old h.new s (Unit {0}) Starts) }
{
    h.start(alloc).code()
}

/// Makes a request.
#[unsafe(no_mangle)]
pub extern "C" fn yeq_machine_ask(
    h: &mut Handle,
    asked: &RequestNumbers,
    reply: &mut ReplyNumbers,
) -> i32
    ensures { Tells result (λ s. OnMachine h.old h.new s (reply.new ≡ reply.old)
        (λ m n t. Asks m asked.now reply.old n reply.new t)) }
{
    h.ask(asked, reply).code()
}

/// Tells the operations of the last request that was made, or those at the start.
#[unsafe(no_mangle)]
pub extern "C" fn yeq_machine_ops(h: &mut Handle, out: &mut [OpNumbers], count: &mut u32) -> i32
    ensures { Tells result (λ s. OnMachine h.old h.new s ((out.new ≡ out.old) × (count.new ≡ count.old))
        (λ m n t. (n ≡ m) × Lists m out.old count.old out.new count.new t)) }
{
    h.ops(out, count).code()
}

/// Closes an open handle.
#[unsafe(no_mangle)]
pub extern "C" fn yeq_machine_close(alloc: Global, h: &mut Handle) -> i32
    ensures { Tells result (Closes h.old h.new) }
{
    h.close(alloc).code()
}

/// Opens a closed handle for the first seat of a new coordinator of a machine.
#[unsafe(no_mangle)]
pub extern "C" fn yeq_seat_open(
    alloc: Global,
    h: &mut Handle,
    machine: &mut Handle,
    entries: u32,
) -> i32
    ensures kept { KeptSo machine.old machine.new }
    ensures opened { Tells result (OpensSeatOf h.old machine.old entries h.new) }
{
    h.open_seat(alloc, machine, entries).code()
}

/// Opens another, closed handle for a new seat, with so many of this one's parts.
#[unsafe(no_mangle)]
pub extern "C" fn yeq_seat_split(
    alloc: Global,
    h: &mut Handle,
    other: &mut Handle,
    parts: u32,
) -> i32
    ensures { Tells result (SplitsTo h.old other.old parts h.new other.new) }
{
    h.split_seat(alloc, other, parts).code()
}

/// Makes a request by a seat, or gives up where another seat has what it needs.
#[unsafe(no_mangle)]
pub extern "C" fn yeq_seat_ask(
    h: &mut Handle,
    asked: &RequestNumbers,
    reply: &mut ReplyNumbers,
) -> i32
    ensures { Tells result (λ s. OnSeat h.old h.new s (reply.new ≡ reply.old)
        (λ t u st. SeatAsks t asked.now reply.old u reply.new st)) }
{
    h.ask_seat(asked, reply).code()
}

/// Tells the operations of a seat's last request, or those at the start, and the request's number.
#[unsafe(no_mangle)]
pub extern "C" fn yeq_seat_ops(
    h: &mut Handle,
    out: &mut [OpNumbers],
    count: &mut u32,
    number: &mut u64,
) -> i32
    ensures { Tells result (λ s. OnSeat h.old h.new s
        ((out.new ≡ out.old) × (count.new ≡ count.old) × (number.new ≡ number.old))
        (λ t u st. (u ≡ t)
        × SeatLists t (out.old, count.old, number.old) (out.new, count.new, number.new) st)) }
{
    h.seat_ops(out, count, number).code()
}

/// Tells what a seat knows.
#[unsafe(no_mangle)]
pub extern "C" fn yeq_seat_tell(h: &mut Handle, facts: &mut SeatFacts) -> i32
    ensures { Tells result (λ s. OnSeat h.old h.new s (facts.new ≡ facts.old)
        (λ t u st. (u ≡ t) × Shows t facts.old facts.new st)) }
{
    h.tell_seat(facts).code()
}

/// Joins another seat of the same coordinator into this one, and closes the other handle.
#[unsafe(no_mangle)]
pub extern "C" fn yeq_seat_join(alloc: Global, h: &mut Handle, other: &mut Handle) -> i32
    requires { OweOneCoordinator h.old other.old }
    ensures { Tells result (JoinsTo h.old other.old h.new other.new) }
{
    h.join_seat(alloc, other).code()
}

/// Ends the coordinator of its only seat.
#[unsafe(no_mangle)]
pub extern "C" fn yeq_seat_seal(h: &mut Handle) -> i32
    ensures { Tells result (λ s. OnSeat h.old h.new s (Unit {0}) Seals) }
{
    h.seal_seat().code()
}

/// Counts the entries of the history of a coordinator that has ended.
#[unsafe(no_mangle)]
pub extern "C" fn yeq_seat_entries(h: &mut Handle, count: &mut u32) -> i32
    ensures { Tells result (λ s. OnSeat h.old h.new s (count.new ≡ count.old)
        (λ t u st. (u ≡ t) × SeatCounts t count.old count.new st)) }
{
    h.seat_entries(count).code()
}

/// Tells the entry of this index of the history of a coordinator that has ended.
#[unsafe(no_mangle)]
pub extern "C" fn yeq_seat_entry(h: &mut Handle, index: u32, entry: &mut EntryNumbers) -> i32
    ensures { Tells result (λ s. OnSeat h.old h.new s (entry.new ≡ entry.old)
        (λ t u st. (u ≡ t) × TellsEntry t index entry.old entry.new st)) }
{
    h.seat_entry(index, entry).code()
}

/// Closes an open handle.
#[unsafe(no_mangle)]
pub extern "C" fn yeq_seat_close(alloc: Global, h: &mut Handle) -> i32
    ensures { Tells result (Closes h.old h.new) }
{
    h.close(alloc).code()
}

/// Opens a closed handle for the first seat of a new coordinator without end of a machine.
#[unsafe(no_mangle)]
pub extern "C" fn yeq_endless_open(alloc: Global, h: &mut Handle, machine: &mut Handle) -> i32
    ensures kept { KeptSo machine.old machine.new }
    ensures opened { Tells result (OpensEndlessOf h.old machine.old h.new) }
{
    h.open_endless(alloc, machine).code()
}

/// Opens another, closed handle for a new seat, with so many of this one's parts.
#[unsafe(no_mangle)]
pub extern "C" fn yeq_endless_split(
    alloc: Global,
    h: &mut Handle,
    other: &mut Handle,
    parts: u32,
) -> i32
    ensures { Tells result (SplitsEndless h.old other.old parts h.new other.new) }
{
    h.split_endless(alloc, other, parts).code()
}

/// Begins a request by a seat, or gives up where another seat has what it needs.
#[unsafe(no_mangle)]
pub extern "C" fn yeq_endless_begin(
    h: &mut Handle,
    asked: &RequestNumbers,
    reply: &mut ReplyNumbers,
) -> i32
    ensures { Tells result (λ s. OnEndless h.old h.new s (reply.new ≡ reply.old)
        (λ t u st. BeginsAt t asked.now reply.old u reply.new st)) }
{
    h.begin_endless(asked, reply).code()
}

/// Tells the operations of the request that a seat has begun, or those at the start.
#[unsafe(no_mangle)]
pub extern "C" fn yeq_endless_ops(h: &mut Handle, out: &mut [OpNumbers], count: &mut u32) -> i32
    ensures { Tells result (λ s. OnEndless h.old h.new s ((out.new ≡ out.old) × (count.new ≡ count.old))
        (λ t u st. (u ≡ t) × Listed (listed t) out.old out.new count.new st)) }
{
    h.endless_ops(out, count).code()
}

/// Finishes the request that a seat has begun, with so many of its operations done.
#[unsafe(no_mangle)]
pub extern "C" fn yeq_endless_finish(h: &mut Handle, done: u32) -> i32
    ensures { Tells result (λ s. OnEndless h.old h.new s (Unit {0}) (λ t u st. EndsAt t done u st)) }
{
    h.finish_endless(done).code()
}

/// Tells what a seat knows that has begun no request.
#[unsafe(no_mangle)]
pub extern "C" fn yeq_endless_tell(h: &mut Handle, facts: &mut SeatFacts) -> i32
    ensures { Tells result (λ s. OnEndless h.old h.new s (facts.new ≡ facts.old)
        (λ t u st. (u ≡ t) × EndlessShows t facts.old facts.new st)) }
{
    h.tell_endless(facts).code()
}

/// Joins another seat of the same coordinator into this one, and closes the other handle.
#[unsafe(no_mangle)]
pub extern "C" fn yeq_endless_join(alloc: Global, h: &mut Handle, other: &mut Handle) -> i32
    requires { OweOneEndless h.old other.old }
    ensures { Tells result (JoinsEndless h.old other.old h.new other.new) }
{
    h.join_endless(alloc, other).code()
}

/// Closes an open handle, unless its seat has begun a request.
#[unsafe(no_mangle)]
pub extern "C" fn yeq_endless_close(alloc: Global, h: &mut Handle) -> i32
    ensures { Tells result (Closes h.old h.new) }
{
    h.close(alloc).code()
}

/// Opens a closed handle for the coordinator by `_CPC` of a machine.
#[unsafe(no_mangle)]
pub extern "C" fn yeq_cppc_open(alloc: Global, h: &mut Handle, machine: &mut Handle) -> i32
    ensures kept { KeptSo machine.old machine.new }
    ensures opened { Tells result (OpensCppc h.old machine.old h.new) }
{
    h.open_cppc(alloc, machine).code()
}

/// Makes a request for a performance.
#[unsafe(no_mangle)]
pub extern "C" fn yeq_cppc_ask(
    h: &mut Handle,
    asked: &CppcRequestNumbers,
    reply: &mut CppcReplyNumbers,
) -> i32
    ensures { Tells result (λ s. OnCppc h.old h.new s (reply.new ≡ reply.old)
        (λ c d t. Asked c asked.now reply.old d reply.new t)) }
{
    h.ask_cppc(asked, reply).code()
}

/// Tells the operations of the last request for a performance, or those at the start.
#[unsafe(no_mangle)]
pub extern "C" fn yeq_cppc_ops(h: &mut Handle, out: &mut [OpNumbers], count: &mut u32) -> i32
    ensures { Tells result (λ s. OnCppc h.old h.new s ((out.new ≡ out.old) × (count.new ≡ count.old))
        (λ c d t. (d ≡ c) × Listed c.ops.elements out.old out.new count.new t)) }
{
    h.cppc_ops(out, count).code()
}

/// Closes an open handle.
#[unsafe(no_mangle)]
pub extern "C" fn yeq_cppc_close(alloc: Global, h: &mut Handle) -> i32
    ensures { Tells result (Closes h.old h.new) }
{
    h.close(alloc).code()
}
