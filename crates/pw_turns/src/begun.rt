//! What a request in two steps does with its turns: between its steps it has them all.
ghost use Rattle.std.specs.Prelude.{◌≡◌, ◌≢◌, ◌+◌, ◌<◌, ◌≤◌, ◌∷◌, ◌++◌, ℕ, [], true, false, length, vec_len, vec_capacity, IfErr, IfOk, OnErr, OnOk, MatchResult};
ghost use Rattle.atomic_table.specs.Table.{rest};
ghost use Rattle.pw_plan.specs.Requests.{Has, ops_bound};
ghost use Rattle.pw_model.specs.Records.{record_count};
ghost use Rattle.pw_model.specs.History.{Faultless};
ghost use Rattle.pw_machine.specs.declared.view.View.{View as view};
ghost use Rattle.pw_machine.specs.Steps.{Asks, release_without_entry, take_journal};
ghost use Rattle.pw_rule.specs.Moves.{TellsNext};
ghost use Rattle.pw_rule.specs.Plays.{mine};
ghost use Rattle.pw_rule.specs.Rule.{given_of, promise_of};
ghost use Rattle.pw_machine.specs.Walk.{walk};
ghost use Rattle.pw_walker.specs.Places.{IsPlace, walk_of};
ghost use Rattle.pw_turns.specs.Steps.{LedOut, Since};
ghost use Rattle.pw_turns.specs.Views.{is_met};
ghost use Rattle.pw_turns.specs.Went.{Began, GaveBack, OneMore, Turned, TurnedAt, Walked};

use crate::contents::step_content;
use crate::coordinator::{Coordinator, TableSeat};
use crate::held_record::{HeldRecord, Reached};
use crate::keeping::Keeps;
use crate::requests::{Try, settle};
use crate::sleeping::Wakes;
use crate::taking::Taking;
use crate::waited::Done;
use pw_core::Ops;
use pw_journal::Journal;
use pw_model::Reply;
use pw_plan::Request;
use pw_regs::Registers;
use pw_rule::Boxed;
use pw_walker::{Place, next_turn};

impl<R: Registers, K: Keeps> Coordinator<R, K> {
    ghost use Rattle.pw_turns.specs.Climb.{Climbs};
    ghost use Rattle.pw_turns.specs.Finished.{try_of};
    ghost use Rattle.pw_turns.specs.HeldRecords.{rank};
    ghost use Rattle.pw_turns.specs.inner.Taking.{Holds, told_in};
    ghost use Rattle.pw_turns.specs.Begun.{IsReady, Leads, MakesNone, Reaches};
    ghost use Rattle.pw_turns.specs.Told.{KeepsMet};

    /// Takes the records from this place on, makes the request on them and keeps them; or gives up.
    pub(crate) fn hold<T: Taking>(
        &self,
        taking: &T,
        raw: &mut TableSeat<R>,
        met: &mut Option<(u32, u32)>,
        ops: &mut Ops,
        records: &mut Vec<HeldRecord<R>>,
        number: u32,
        request: Request,
        place: Place,
    ) -> Result<Reply, T::Told>
        requires id { raw.old.table_id ≡ self.now.table.shared.table_id }
        requires number { (number ≡ raw.old.me.0.view.number) × (number < 65536) }
        requires asks { Asks self.now.plan raw.old.me.0.view request × (raw.old.me.0.view.out ≡ []) }
        requires place { IsPlace self.now.plan request place ops.old.elements }
        requires walk { walk self.now.plan request raw.old.me.0.view.held ≡ walk_of place ops.old.elements }
        requires room { ops_bound self.now.plan request ≤ ops.old.capacity }
        requires records { vec_len records.old + rank place ≤ vec_capacity records.old }
        requires met { is_met met.old raw.old.me.0.view ≡ true }
        ensures id { raw.new.table_id ≡ raw.old.table_id }
        ensures capacity { ops.new.capacity ≡ ops.old.capacity }
        ensures room { vec_capacity records.new ≡ vec_capacity records.old }
        ensures met { is_met met.new raw.new.me.0.view ≡ true }
        ensures held { let given = given_of R.Registers self.now.table.shared.key in
            Since T.waits raw.old.me.0.view (λ u. Holds given request (u, raw.old.me.1) records.old.items
            (told_in T.tried result) ops.new.elements records.new.items (mine raw.new.me)) }
        ensures own { let last = record_count self.now.plan in
            MatchResult result (λ _. Walked T.waits request raw.old.me.0.own raw.new.me.0.own)
            (λ told. TurnedAt T.waits last number request (T.tried told) raw.old.me.0.own
            raw.new.me.0.own) }
    {
        if let Place::Over { reply } = place {
            return Ok(reply);
        }
        let turn = next_turn(&self.plan, &place);
        let mut content = match taking.obtain_record(self, raw, met, turn, number, request) {
            Ok(content) => content,
            Err(told) => return Err(told),
        };
        let (next, old) = step_content(&self.plan, &request, place, &mut content, ops);
        records.push_reserved(HeldRecord { turn, content, old });
        self.hold(taking, raw, met, ops, records, number, request, next)
    }

    /// Puts the records back, the last first: changed where the request was answered, and else as they
    /// were. It wakes who waits for one where it is to.
    pub(crate) fn give_back<W: Wakes>(
        &self,
        raw: &mut TableSeat<R>,
        records: &mut Vec<HeldRecord<R>>,
        _request: Request,
        told: Try,
    )
        requires id { raw.old.table_id ≡ self.now.table.shared.table_id }
        requires has { Has self.now.plan _request }
        requires told { let given = given_of R.Registers self.now.table.shared.key in
            (v : view) × (IsReady given _request v records.old.items told (mine raw.old.me)) }
        ensures id { raw.new.table_id ≡ raw.old.table_id }
        ensures slots { raw.new.me.1 ≡ [] }
        ensures records { length records.new.items ≡ 0 }
        ensures room { vec_capacity records.new ≡ vec_capacity records.old }
        ensures seen { raw.new.me.0.view.seen ≡ raw.old.me.0.view.seen }
        ensures met { KeepsMet raw.old.me.0.view raw.new.me.0.view }
        ensures told { let given = given_of R.Registers self.now.table.shared.key in
            (v : view) → IsReady given _request v records.old.items told (mine raw.old.me)
            → Climbs given v _request told raw.new.me.0.view }
        ensures own { GaveBack raw.old.me.0.own raw.new.me.0.own }
    {
        let Some(held) = records.pop() else {
            return;
        };
        let HeldRecord {
            turn,
            mut content,
            old,
        } = held;
        settle(&self.plan, told, &mut content, old);
        self.unlock_record(raw, turn, content);
        W::wake(self, turn as usize + 1);
        self.give_back::<W>(raw, records, _request, told);
    }

    /// The journal that the seat has, where its history has room and no fault; or it is given back.
    pub(crate) fn look_in(
        &self,
        raw: &mut TableSeat<R>,
        journal: Boxed<Journal<R>>,
        seen: &mut u64,
        _number: u32,
        _request: Request,
    ) -> Result<Boxed<Journal<R>>, Done>
        requires id { raw.old.table_id ≡ self.now.table.shared.table_id }
        requires led { let key = self.now.table.shared.key in
            (v : view) × LedOut R.Registers (promise_of R.Registers key) (given_of R.Registers key) _request
            (record_count self.now.plan) (v, rest raw.old.me.1) journal (mine raw.old.me)
            × (v.mark ≡ false) × (v.out ≡ []) }
        ensures id { raw.new.table_id ≡ raw.old.table_id }
        ensures same { IfOk result (λ j. (j ≡ journal) × (raw.new.me ≡ raw.old.me)) }
        ensures room { IfOk result (λ j. length j.entries ≢ self.now.capacity) }
        ensures faultless { IfOk result (λ j. Faultless j.entries) }
        ensures seen { IfOk result (λ j. seen.new ≡ length j.entries) }
        ensures told { let key = self.now.table.shared.key in
            IfErr result (λ told. (v : view)
            → LedOut R.Registers (promise_of R.Registers key) (given_of R.Registers key) _request
            (record_count self.now.plan) (v, rest raw.old.me.1) journal (mine raw.old.me)
            → Climbs (given_of R.Registers key) v _request (try_of told) raw.new.me.0.view) }
        ensures slots { OnErr result (raw.new.me.1 ≡ rest raw.old.me.1) }
        ensures met { KeepsMet raw.old.me.0.view raw.new.me.0.view }
        ensures looked { OnErr result (seen.new ≡ length raw.new.me.0.view.seen) }
        ensures none { IfErr result (λ told. MakesNone (try_of told)) }
        ensures own { IfErr result (λ told. (count : ℕ)
            × OneMore raw.old.me.0.own (release_without_entry count) raw.new.me.0.own
            × Turned (record_count self.now.plan) _number _request (try_of told)
            (take_journal _request ∷ release_without_entry count ∷ [])) }
    {
        *seen = journal.get().len();
        if let Some(at) = journal.get().fault_at() {
            self.unlock_journal_for(raw, journal);
            return Err(Done::Stopped { at });
        }
        if *seen == self.capacity {
            self.unlock_journal_for(raw, journal);
            return Err(Done::Full {
                capacity: self.capacity,
            });
        }
        Ok(journal)
    }

    /// Takes the journal for a request whose records are held; or gives up.
    #[inline(always)]
    pub(crate) fn lead<T: Taking>(
        &self,
        taking: &T,
        raw: &mut TableSeat<R>,
        met: &mut Option<(u32, u32)>,
        seen: &mut u64,
        number: u32,
        request: Request,
    ) -> Result<Boxed<Journal<R>>, T::Told>
        requires id { raw.old.table_id ≡ self.now.table.shared.table_id }
        requires number { (number ≡ raw.old.me.0.view.number) × (number < 65536) }
        requires asks { Asks self.now.plan raw.old.me.0.view request × (raw.old.me.0.view.out ≡ []) }
        requires next { TellsNext self.now.plan raw.old.me.0.view request (record_count self.now.plan) }
        requires seen { seen.old ≡ length raw.old.me.0.view.seen }
        requires met { is_met met.old raw.old.me.0.view ≡ true }
        ensures id { raw.new.table_id ≡ raw.old.table_id }
        ensures leads { IfOk result (λ j. let key = self.now.table.shared.key in
            Since T.waits raw.old.me.0.view (λ u. Leads R.Registers (promise_of R.Registers key)
            (given_of R.Registers key) request (u, raw.old.me.1) j (mine raw.new.me))) }
        ensures seen { IfOk result (λ j. seen.new ≡ length j.entries) }
        ensures told { let given = given_of R.Registers self.now.table.shared.key in
            IfErr result (λ told. Since T.waits raw.old.me.0.view
            (λ u. Climbs given u request (T.tried told) raw.new.me.0.view)) }
        ensures slots { OnErr result (raw.new.me.1 ≡ raw.old.me.1) }
        ensures looked { OnErr result (seen.new ≡ length raw.new.me.0.view.seen) }
        ensures met { is_met met.new raw.new.me.0.view ≡ true }
        ensures none { IfErr result (λ told. MakesNone (T.tried told)) }
        ensures own { let last = record_count self.now.plan in
            MatchResult result (λ _. Began T.waits request raw.old.me.0.own raw.new.me.0.own)
            (λ told. TurnedAt T.waits last number request (T.tried told) raw.old.me.0.own
            raw.new.me.0.own) }
    {
        let journal = match taking.obtain_journal(self, raw, met, number, request) {
            Ok(journal) => journal,
            Err(told) => return Err(told),
        };
        match self.look_in(raw, journal, seen, number, request) {
            Ok(journal) => Ok(journal),
            Err(done) => Err(T::told(done)),
        }
    }

    /// Takes all turns of a request; or gives up, with the records that it took still held.
    pub(crate) fn reach<T: Taking>(
        &self,
        taking: &T,
        raw: &mut TableSeat<R>,
        met: &mut Option<(u32, u32)>,
        ops: &mut Ops,
        records: &mut Vec<HeldRecord<R>>,
        seen: &mut u64,
        number: u32,
        request: Request,
        place: Place,
    ) -> Result<Reached<R>, T::Told>
        requires id { raw.old.table_id ≡ self.now.table.shared.table_id }
        requires number { (number ≡ raw.old.me.0.view.number) × (number < 65536) }
        requires asks { Asks self.now.plan raw.old.me.0.view request × (raw.old.me.0.view.out ≡ []) }
        requires none { raw.old.me.1 ≡ [] }
        requires place { IsPlace self.now.plan request place ops.old.elements }
        requires walk { walk self.now.plan request raw.old.me.0.view.held ≡ walk_of place ops.old.elements }
        requires room { ops_bound self.now.plan request ≤ ops.old.capacity }
        requires empty { length records.old.items ≡ 0 }
        requires records { rank place ≤ vec_capacity records.old }
        requires seen { seen.old ≡ length raw.old.me.0.view.seen }
        requires met { is_met met.old raw.old.me.0.view ≡ true }
        ensures id { raw.new.table_id ≡ raw.old.table_id }
        ensures capacity { ops.new.capacity ≡ ops.old.capacity }
        ensures room { vec_capacity records.new ≡ vec_capacity records.old }
        ensures reaches { IfOk result (λ r. let key = self.now.table.shared.key in
            Since T.waits raw.old.me.0.view (λ u. Reaches R.Registers (promise_of R.Registers key)
            (given_of R.Registers key) request number u r.reply ops.new.elements records.new.items
            r.journal (mine raw.new.me))) }
        ensures found { IfOk result (λ r. seen.new ≡ length r.journal.entries) }
        ensures told { let given = given_of R.Registers self.now.table.shared.key in
            IfErr result (λ told. Since T.waits raw.old.me.0.view (λ u. IsReady given request u
            records.new.items (T.tried told) (mine raw.new.me))) }
        ensures seen { OnErr result (seen.new ≡ length raw.new.me.0.view.seen) }
        ensures met { is_met met.new raw.new.me.0.view ≡ true }
        ensures none { IfErr result (λ told. MakesNone (T.tried told)) }
        ensures own { let last = record_count self.now.plan in
            MatchResult result (λ _. Began T.waits request raw.old.me.0.own raw.new.me.0.own)
            (λ told. TurnedAt T.waits last number request (T.tried told) raw.old.me.0.own
            raw.new.me.0.own) }
    {
        let reply = match self.hold(taking, raw, met, ops, records, number, request, place) {
            Ok(reply) => reply,
            Err(told) => return Err(told),
        };
        match self.lead(taking, raw, met, seen, number, request) {
            Ok(journal) => Ok(Reached { reply, journal }),
            Err(told) => Err(told),
        }
    }
}
