//! A request in two steps: between them its operations are the caller's to do, who has all its turns.
ghost use Rattle.std.specs.Prelude.{ℕ, ◌≡◌, ◌≢◌, ◌+◌, ◌++◌, ◌∷◌, ◌<◌, ◌≤◌, ◌^◌, [], false, true, length, vec_capacity, IfErr, IfOk};
ghost use Rattle.pw_plan.specs.Requests.{Has};
ghost use Rattle.pw_model.specs.Records.{record_count};
ghost use Rattle.pw_rule.specs.Plays.{mine, Mine};
ghost use Rattle.pw_rule.specs.Rule.{given_of, promise_of};
ghost use Rattle.pw_machine.specs.declared.view.View.{View as view};
ghost use Rattle.pw_journal.specs.Reported.{ReportedHeld};
ghost use Rattle.pw_turns.specs.Steps.{MetSince, Since};
ghost use Rattle.pw_turns.specs.Views.{view_in};
ghost use Rattle.pw_turns.specs.Went.{Began, Ended, OneMore, Went, own_in};

use crate::coordinator::{Coordinator, Seat, TableSeat, out, seated};
use crate::held_record::{HeldRecord, Reached};
use crate::keeping::Keeps;
use crate::requests::{Try, listed};
use crate::sleeping::{Silent, Wakes, Waking};
use crate::taking::Taking;
use crate::waited::Done;
use crate::waiting::Waiting;
use acpi_values::Op;
use pw_base::{Memory, OpenGate};
use pw_core::Ops;
use pw_journal::{Journal, ReportedRegisters};
use pw_model::Reply;
use pw_plan::Request;
use pw_regs::Registers;
use pw_rule::Boxed;
use pw_walker::begin;
use std::alloc::Global;
use std::sync::Wait;

/// Room for the records that a request in two steps holds.
#[derive(Drop)]
pub struct RecordRoom<R> {
    pub(crate) records: Vec<HeldRecord<R>>,
    ghost empty: { length records.items ≡ 0 },
}

/// A request that has all its turns, and whose operations are the caller's to do. It can't be dropped: it
/// ends by `finish_begun`, which gives its seat back, and until then each other request meets its turns.
pub struct Begun<R> {
    pub(crate) raw: TableSeat<R>,
    pub(crate) number: u32,
    pub(crate) parts: u32,
    pub(crate) seen: u64,
    pub(crate) met: Option<(u32, u32)>,
    pub(crate) ops: Ops,
    pub(crate) records: Vec<HeldRecord<R>>,
    pub(crate) request: Request,
    pub(crate) reply: Reply,
    pub(crate) journal: Boxed<Journal<R>>,
}

impl<R> Begun<R> {
    /// What the request is answered if all its operations are done.
    pub fn reply(&self) -> Reply
        ensures { result ≡ self.now.reply }
    {
        self.reply
    }

    /// The operations to do, in order.
    pub fn ops(&self) -> &[Op]
        ensures { result.now ≡ self.now.ops.elements }
    {
        self.ops.list()
    }
}

/// A request that did not begin: its seat and room, and what it was told, a `Try` or, where it waited, a
/// `Done`.
#[derive(Drop)]
pub struct NotBegun<R, T> {
    pub seat: Seat,
    pub room: RecordRoom<R>,
    pub told: T,
}

impl<R: Registers, K: Keeps> Coordinator<R, K> {
    ghost use Rattle.pw_turns.specs.Owning.{Owns};
    ghost use Rattle.pw_turns.specs.Begun.{MakesNone};
    ghost use Rattle.pw_turns.specs.Finished.{Finished, try_of};
    ghost use Rattle.pw_turns.specs.Told.{Told};
    ghost use Rattle.pw_turns.specs.TwoSteps.{BeginTells, IsBegun};

    /// Room for the records of any request: a seat needs it once.
    pub fn record_room(&self, alloc: Global) -> Result<RecordRoom<R>, Memory>
        ensures { IfOk result (λ room. record_count self.now.plan ≤ vec_capacity room.records) }
    {
        let records = Vec::with_capacity(alloc, self.counts.records as usize)?;
        Ok(RecordRoom { records })
    }

    /// Begins a request: it takes all its turns, the journal's last, or gives back what it took.
    fn start_with<T: Taking>(
        &self,
        taking: &T,
        seat: Seat,
        room: RecordRoom<R>,
        request: Request,
    ) -> Result<Begun<R>, NotBegun<R, T::Told>>
        requires owns { Owns self.now.table.shared.table_id seat }
        requires has { Has self.now.plan request }
        requires room { record_count self.now.plan ≤ vec_capacity room.records }
        ensures request { IfOk result (λ b. b.request ≡ request) }
        ensures begun { let shared = self.now.table.shared in
            IfOk result (λ b. Since T.waits (view_in seat.badge.views)
            (λ u. IsBegun R.Registers shared.key shared.table_id u b)) }
        ensures asked { IfOk result (λ b. BeginTells self.now.plan (view_in seat.badge.views) b) }
        ensures began { IfOk result (λ b. Began T.waits request (own_in seat.badge.views) b.raw.me.0.own) }
        ensures owns { IfErr result (λ e. Owns self.now.table.shared.table_id e.seat) }
        ensures room { IfErr result (λ e. record_count self.now.plan ≤ vec_capacity e.room.records) }
        ensures none { IfErr result (λ e. MakesNone (T.tried e.told)) }
        ensures told { let given = given_of R.Registers self.now.table.shared.key in
            IfErr result (λ e. Since T.waits (view_in seat.badge.views)
            (λ u. Told given u request (T.tried e.told) (view_in e.seat.badge.views))) }
        ensures steps { let number = (view_in seat.badge.views).number in
            IfErr result (λ e. Went T.waits (record_count self.now.plan) number request (T.tried e.told)
            (own_in seat.badge.views) (own_in e.seat.badge.views)) }
    {
        let Seat {
            mut badge,
            number,
            parts,
            mut seen,
            mut met,
            mut ops,
        } = seat;
        let RecordRoom { records: mut held } = room;
        let mut raw: TableSeat<R> = out(&mut badge);
        ops.clear();
        let place = begin(&self.plan, &request, &mut ops);
        match self.reach(
            taking, &mut raw, &mut met, &mut ops, &mut held, &mut seen, number, request, place,
        ) {
            Ok(Reached { reply, journal }) => Ok(Begun {
                raw,
                number,
                parts,
                seen,
                met,
                ops,
                records: held,
                request,
                reply,
                journal,
            }),
            Err(told) => {
                T::wake(self, self.counts.records as usize + 1);
                self.give_back::<T>(&mut raw, &mut held, request, T::as_try(told));
                let seat = seated(raw, number, parts, seen, met, ops);
                let room = RecordRoom { records: held };
                Err(NotBegun { seat, room, told })
            }
        }
    }

    /// Begins a request: it takes all its turns, the journal's last, and its operations are the caller's to
    /// do, until `finish_begun`. It gives up where another seat has one of them. It takes no memory and
    /// never waits.
    pub fn try_begin(
        &self,
        seat: Seat,
        room: RecordRoom<R>,
        request: Request,
    ) -> Result<Begun<R>, NotBegun<R, Try>>
        requires owns { Owns self.now.table.shared.table_id seat }
        requires has { Has self.now.plan request }
        requires room { record_count self.now.plan ≤ vec_capacity room.records }
        ensures request { IfOk result (λ b. b.request ≡ request) }
        ensures begun { let shared = self.now.table.shared in
            IfOk result (λ b. IsBegun R.Registers shared.key shared.table_id (view_in seat.badge.views) b) }
        ensures asked { IfOk result (λ b. BeginTells self.now.plan (view_in seat.badge.views) b) }
        ensures began { IfOk result (λ b. Began false request (own_in seat.badge.views) b.raw.me.0.own) }
        ensures owns { IfErr result (λ e. Owns self.now.table.shared.table_id e.seat) }
        ensures room { IfErr result (λ e. record_count self.now.plan ≤ vec_capacity e.room.records) }
        ensures none { IfErr result (λ e. MakesNone e.told) }
        ensures told { let given = given_of R.Registers self.now.table.shared.key in
            IfErr result (λ e. Told given (view_in seat.badge.views) request e.told
            (view_in e.seat.badge.views)) }
        ensures steps { let number = (view_in seat.badge.views).number in
            IfErr result (λ e. Went false (record_count self.now.plan) number request e.told
            (own_in seat.badge.views) (own_in e.seat.badge.views)) }
    {
        self.start_with(&Silent, seat, room, request)
    }

    /// Begins a request as `try_begin`, but waits where another seat has a turn that it needs, and keeps
    /// those that it has. It takes no memory.
    pub fn begin_request<W: Wait>(
        &self,
        rt: &W,
        seat: Seat,
        room: RecordRoom<R>,
        request: Request,
    ) -> Result<Begun<R>, NotBegun<R, Done>>
        requires owns { Owns self.now.table.shared.table_id seat }
        requires has { Has self.now.plan request }
        requires room { record_count self.now.plan ≤ vec_capacity room.records }
        ensures request { IfOk result (λ b. b.request ≡ request) }
        ensures begun { let shared = self.now.table.shared in
            IfOk result (λ b. MetSince (view_in seat.badge.views)
            (λ u. IsBegun R.Registers shared.key shared.table_id u b)) }
        ensures asked { IfOk result (λ b. BeginTells self.now.plan (view_in seat.badge.views) b) }
        ensures began { IfOk result (λ b. Began true request (own_in seat.badge.views) b.raw.me.0.own) }
        ensures owns { IfErr result (λ e. Owns self.now.table.shared.table_id e.seat) }
        ensures room { IfErr result (λ e. record_count self.now.plan ≤ vec_capacity e.room.records) }
        ensures none { IfErr result (λ e. MakesNone (try_of e.told)) }
        ensures told { let given = given_of R.Registers self.now.table.shared.key in
            IfErr result (λ e. Finished given (view_in seat.badge.views) request e.told
            (view_in e.seat.badge.views)) }
        ensures steps { let number = (view_in seat.badge.views).number in
            IfErr result (λ e. Went true (record_count self.now.plan) number request (try_of e.told)
            (own_in seat.badge.views) (own_in e.seat.badge.views)) }
    {
        let taking = Waiting {
            rt,
            gate: &OpenGate,
        };
        self.start_with(&taking, seat, room, request)
    }
}

impl<K: Keeps> Coordinator<ReportedRegisters, K> {
    ghost use Rattle.pw_turns.specs.Climb.{Climbs};
    ghost use Rattle.pw_turns.specs.Begun.{Awaits, fault_by, told_by};
    ghost use Rattle.pw_turns.specs.Asked.{entry_as};
    ghost use Rattle.pw_turns.specs.TwoSteps.{IsBegun, Finishes};
    ghost use Rattle.pw_machine.specs.Steps.{release_with_entry};

    /// Makes the entry of a request, as the caller says its operations ended, and gives the journal back.
    fn enter(
        &self,
        raw: &mut TableSeat<ReportedRegisters>,
        journal: Boxed<Journal<ReportedRegisters>>,
        ops: &[Op],
        number: u32,
        request: Request,
        reply: Reply,
        done: Result<(), u32>,
    ) -> Try
        requires id { raw.old.table_id ≡ self.now.table.shared.table_id }
        requires few { length ops.now < 2 ^ 32 }
        requires within { IfErr done (λ k. k < length ops.now) }
        requires awaits { let key = self.now.table.shared.key in
            let by = ⟦<ReportedRegisters as Registers>⟧ in
            (m : Mine ReportedHeld) × Awaits by (promise_of by key) (given_of by key) request reply ops.now
            number m journal (mine raw.old.me) }
        ensures id { raw.new.table_id ≡ raw.old.table_id }
        ensures is { result ≡ told_by reply done }
        ensures seen { raw.new.me.0.view.seen
            ≡ journal.entries ++ entry_as number request (fault_by done) ∷ [] }
        ensures told { let key = self.now.table.shared.key in
            let by = ⟦<ReportedRegisters as Registers>⟧ in
            (m : Mine ReportedHeld) → Awaits by (promise_of by key) (given_of by key) request reply ops.now
            number m journal (mine raw.old.me)
            → Climbs (given_of by key) m.0 request result raw.new.me.0.view × (raw.new.me.1 ≡ m.1) }
        ensures own { (count : ℕ) × OneMore raw.old.me.0.own
            (release_with_entry (entry_as number request (fault_by done)) count) raw.new.me.0.own }
    {
        let mut journal = journal;
        journal.get_mut().report(number, request, ops, done);
        match done {
            Ok(()) => {
                self.commit_for(raw, journal, request, 0);
                Try::Answer(reply)
            }
            Err(k) => {
                self.commit_for(raw, journal, request, k + 1);
                Try::RegisterFault { done: k }
            }
        }
    }

    /// Ends a request, and wakes who waits for its turns where it is to.
    fn end_begun<W: Wakes>(
        &self,
        begun: Begun<ReportedRegisters>,
        done: Result<(), u32>,
    ) -> (Seat, RecordRoom<ReportedRegisters>, Try)
        requires begun { let shared = self.now.table.shared in
            (v : view) × IsBegun ⟦<ReportedRegisters as Registers>⟧ shared.key shared.table_id v begun }
        requires within { IfErr done (λ k. k < length begun.ops.elements) }
        ensures { let shared = self.now.table.shared in
            Finishes ⟦<ReportedRegisters as Registers>⟧ shared.key shared.table_id begun done result.0
            result.1 result.2 }
    {
        let Begun {
            mut raw,
            number,
            parts,
            seen,
            met,
            ops,
            mut records,
            request,
            reply,
            journal,
        } = begun;
        let list = listed(&ops);
        let told = self.enter(&mut raw, journal, list, number, request, reply, done);
        W::wake(self, self.counts.records as usize + 1);
        self.give_back::<W>(&mut raw, &mut records, request, told);
        let seat = seated(raw, number, parts, seen + 1, met, ops);
        (seat, RecordRoom { records }, told)
    }

    /// Ends a request, with the caller's word that all its operations were done, or that a register failed
    /// after so many that were: it appends its entry, and gives its turns back. It takes no memory and never
    /// waits. It wakes no thread, as `try_request`.
    pub fn finish_begun(
        &self,
        begun: Begun<ReportedRegisters>,
        done: Result<(), u32>,
    ) -> (Seat, RecordRoom<ReportedRegisters>, Try)
        requires begun { let shared = self.now.table.shared in
            (v : view) × IsBegun ⟦<ReportedRegisters as Registers>⟧ shared.key shared.table_id v begun }
        requires within { IfErr done (λ k. k < length begun.ops.elements) }
        ensures { let shared = self.now.table.shared in
            Finishes ⟦<ReportedRegisters as Registers>⟧ shared.key shared.table_id begun done result.0
            result.1 result.2 }
    {
        self.end_begun::<Silent>(begun, done)
    }

    /// The same, and it wakes threads that wait for its turns.
    pub fn finish_request(
        &self,
        begun: Begun<ReportedRegisters>,
        done: Result<(), u32>,
    ) -> (Seat, RecordRoom<ReportedRegisters>, Try)
        requires begun { let shared = self.now.table.shared in
            (v : view) × IsBegun ⟦<ReportedRegisters as Registers>⟧ shared.key shared.table_id v begun }
        requires within { IfErr done (λ k. k < length begun.ops.elements) }
        ensures { let shared = self.now.table.shared in
            Finishes ⟦<ReportedRegisters as Registers>⟧ shared.key shared.table_id begun done result.0
            result.1 result.2 }
    {
        self.end_begun::<Waking>(begun, done)
    }
}
