ghost use Rattle.std.specs.Prelude.{◌≡◌, ◌<◌, ◌++◌, ◌∷◌, [], true, None, Some, MatchResult};
ghost use Rattle.atomic_table.specs.Table.{rest};
ghost use Rattle.pw_model.specs.Records.{record_count};
ghost use Rattle.pw_model.specs.History.{replay};
ghost use Rattle.pw_machine.specs.Steps.{Asks, HoldsAs, entered, find_journal_held, find_record_held, freed};
ghost use Rattle.pw_machine.specs.Steps.{let_go, release_with_entry, release_without_entry, take_journal};
ghost use Rattle.pw_rule.specs.Contents.{IsRecordOf};
ghost use Rattle.pw_rule.specs.Moves.{TellsNext};
ghost use Rattle.pw_rule.specs.Plays.{IsFound, IsGrown, Met, mine};
ghost use Rattle.pw_rule.specs.Rule.{given_of, promise_of};
ghost use Rattle.pw_turns.specs.Asked.{entry_as};
ghost use Rattle.pw_turns.specs.Went.{FreedOne, OneMore, TookOne};
ghost use Rattle.pw_turns.specs.Steps.{IsOut, LedOut, MetRecord, TookOut, content_part};

use crate::coordinator::{Coordinator, TableSeat};
use crate::keeping::Keeps;
use crate::plays::{Asked, Commit, LockJournal, LockRecord, UnlockJournal, UnlockRecord};
use pw_journal::Journal;
use pw_plan::Request;
use pw_regs::Registers;
use pw_rule::{Boxed, Content};
use std::marker::Brand;

impl<R: Registers, K: Keeps> Coordinator<R, K> {
    /// The record of a turn, or the number of the seat that has it: then this one gives up, or goes on.
    pub(crate) fn lock_record<Q: Asked>(
        &self,
        raw: &mut TableSeat<R>,
        turn: u32,
        number: u32,
        _request: Request,
    ) -> Result<Content<R>, u32>
        requires id { raw.old.table_id ≡ self.now.table.shared.table_id }
        requires given { Q.given ≡ Some (given_of R.Registers self.now.table.shared.key) }
        requires asked { Q.request ≡ _request }
        requires asks { Asks self.now.plan raw.old.me.0.view _request }
        requires turn { turn < record_count self.now.plan }
        requires next { TellsNext self.now.plan raw.old.me.0.view _request turn }
        requires number { (number ≡ raw.old.me.0.view.number) × (number < 65536) }
        ensures id { raw.new.table_id ≡ raw.old.table_id }
        ensures view { let given = given_of R.Registers self.now.table.shared.key in
            MatchResult result
            (λ content. TookOut given _request (mine raw.old.me) turn content (mine raw.new.me))
            (λ holder. MetRecord Q.gives_up given _request (mine raw.old.me) turn holder (mine raw.new.me)) }
        ensures own { MatchResult result (λ _. TookOne turn _request raw.old.me.0.own raw.new.me.0.own)
            (λ _. OneMore raw.old.me.0.own (find_record_held turn _request Q.gives_up) raw.new.me.0.own) }
    {
        let word = turn as usize + 1;
        let mine = u64::from(number) + 1;
        let found = self
            .table
            .shared
            .compare_exchange::<LockRecord<Q>>(raw, word, 0, mine);
        if found != 0 {
            return Err((found - 1) as u32);
        }
        match self.table.shared.exchange(raw, turn as usize, None) {
            Some(content) => Ok(content),
            None => unreachable!(),
        }
    }

    /// The journal, or the number of the seat that has it: then this one gives up, or goes on.
    pub(crate) fn lock_journal<Q: Asked>(
        &self,
        raw: &mut TableSeat<R>,
        number: u32,
        _request: Request,
    ) -> Result<Boxed<Journal<R>>, u32>
        requires id { raw.old.table_id ≡ self.now.table.shared.table_id }
        requires given { Q.given ≡ Some (given_of R.Registers self.now.table.shared.key) }
        requires promise { Q.promise ≡ promise_of R.Registers self.now.table.shared.key }
        requires asked { Q.request ≡ _request }
        requires asks { Asks self.now.plan raw.old.me.0.view _request }
        requires next { TellsNext self.now.plan raw.old.me.0.view _request (record_count self.now.plan) }
        requires number { (number ≡ raw.old.me.0.view.number) × (number < 65536) }
        ensures id { raw.new.table_id ≡ raw.old.table_id }
        ensures view { let given = given_of R.Registers self.now.table.shared.key in
            let promise = promise_of R.Registers self.now.table.shared.key in
            let last = record_count self.now.plan in
            MatchResult result
            (λ journal. LedOut R.Registers promise given _request last (mine raw.old.me) journal
            (mine raw.new.me))
            (λ holder. Met Q.gives_up _request (mine raw.old.me) last holder (mine raw.new.me)) }
        ensures own { MatchResult result
            (λ _. OneMore raw.old.me.0.own (take_journal _request) raw.new.me.0.own)
            (λ _. OneMore raw.old.me.0.own (find_journal_held _request Q.gives_up) raw.new.me.0.own) }
    {
        let last = self.counts.records as usize;
        let mine = u64::from(number) + 1;
        let found = self
            .table
            .shared
            .compare_exchange::<LockJournal<Q>>(raw, last + 1, 0, mine);
        if found != 0 {
            return Err((found - 1) as u32);
        }
        match self.table.shared.exchange(raw, last, None) {
            Some(Content::Log(journal)) => Ok(journal),
            _ => unreachable!(),
        }
    }

    /// Gives the journal back with one entry more.
    pub(crate) fn commit<Q: Asked>(
        &self,
        raw: &mut TableSeat<R>,
        journal: Boxed<Journal<R>>,
        _request: Request,
        _fault: u32,
    )
        requires id { raw.old.table_id ≡ self.now.table.shared.table_id }
        requires given { Q.given ≡ Some (given_of R.Registers self.now.table.shared.key) }
        requires entry { Q.entry ≡ entry_as raw.old.me.0.view.number _request _fault }
        requires count { Q.count ≡ R.faults journal.regs }
        requires out { IsOut (record_count self.now.plan) (mine raw.old.me) }
        requires grown { let key = self.now.table.shared.key in
            IsGrown R.Registers (promise_of R.Registers key) (given_of R.Registers key) raw.old.me.0.view
            (entry_as raw.old.me.0.view.number _request _fault) journal }
        ensures id { raw.new.table_id ≡ raw.old.table_id }
        ensures view { let e = entry_as raw.old.me.0.view.number _request _fault in
            mine raw.new.me ≡ (
              entered self.now.plan (replay self.now.plan (raw.old.me.0.view.seen ++ e ∷ [])) e
                  (R.faults journal.regs) raw.old.me.0.view,
              rest raw.old.me.1,
            ) }
        ensures own { let e = entry_as raw.old.me.0.view.number _request _fault in
            OneMore raw.old.me.0.own (release_with_entry e (R.faults journal.regs)) raw.new.me.0.own }
    {
        let last = self.counts.records as usize;
        let empty = self
            .table
            .shared
            .exchange(raw, last, Some(Content::Log(journal)));
        let None = empty else { unreachable!() };
        self.table.shared.store::<Commit<Q>>(raw, last + 1, 0);
    }

    /// The same with what it is about picked.
    pub(crate) fn commit_for(
        &self,
        raw: &mut TableSeat<R>,
        journal: Boxed<Journal<R>>,
        request: Request,
        fault: u32,
    )
        requires id { raw.old.table_id ≡ self.now.table.shared.table_id }
        requires out { IsOut (record_count self.now.plan) (mine raw.old.me) }
        requires grown { let key = self.now.table.shared.key in
            IsGrown R.Registers (promise_of R.Registers key) (given_of R.Registers key) raw.old.me.0.view
            (entry_as raw.old.me.0.view.number request fault) journal }
        ensures id { raw.new.table_id ≡ raw.old.table_id }
        ensures view { let e = entry_as raw.old.me.0.view.number request fault in
            mine raw.new.me ≡ (
              entered self.now.plan (replay self.now.plan (raw.old.me.0.view.seen ++ e ∷ [])) e
                  (R.faults journal.regs) raw.old.me.0.view,
              rest raw.old.me.1,
            ) }
        ensures own { let e = entry_as raw.old.me.0.view.number request fault in
            OneMore raw.old.me.0.own (release_with_entry e (R.faults journal.regs)) raw.new.me.0.own }
    {
        self.commit::<Brand>(raw, journal, request, fault);
    }

    /// Gives the journal back as it was.
    pub(crate) fn unlock_journal<Q: Asked>(
        &self,
        raw: &mut TableSeat<R>,
        journal: Boxed<Journal<R>>,
    )
        requires id { raw.old.table_id ≡ self.now.table.shared.table_id }
        requires count { Q.count ≡ R.faults journal.regs }
        requires out { IsOut (record_count self.now.plan) (mine raw.old.me) }
        requires found { let key = self.now.table.shared.key in
            let promise = promise_of R.Registers key in
            IsFound R.Registers promise (given_of R.Registers key) raw.old.me.0.view journal }
        ensures id { raw.new.table_id ≡ raw.old.table_id }
        ensures view { mine raw.new.me
            ≡ (let_go (R.faults journal.regs) raw.old.me.0.view, rest raw.old.me.1) }
        ensures own { let count = R.faults journal.regs in
            OneMore raw.old.me.0.own (release_without_entry count) raw.new.me.0.own }
    {
        let last = self.counts.records as usize;
        let empty = self
            .table
            .shared
            .exchange(raw, last, Some(Content::Log(journal)));
        let None = empty else { unreachable!() };
        self.table
            .shared
            .store::<UnlockJournal<Q>>(raw, last + 1, 0);
    }

    /// The same with what it is about picked.
    pub(crate) fn unlock_journal_for(&self, raw: &mut TableSeat<R>, journal: Boxed<Journal<R>>)
        requires id { raw.old.table_id ≡ self.now.table.shared.table_id }
        requires out { IsOut (record_count self.now.plan) (mine raw.old.me) }
        requires found { let key = self.now.table.shared.key in
            let promise = promise_of R.Registers key in
            IsFound R.Registers promise (given_of R.Registers key) raw.old.me.0.view journal }
        ensures id { raw.new.table_id ≡ raw.old.table_id }
        ensures view { mine raw.new.me
            ≡ (let_go (R.faults journal.regs) raw.old.me.0.view, rest raw.old.me.1) }
        ensures own { let count = R.faults journal.regs in
            OneMore raw.old.me.0.own (release_without_entry count) raw.new.me.0.own }
    {
        self.unlock_journal::<Brand>(raw, journal);
    }

    /// Gives a record back, with the part that is noted of it.
    pub(crate) fn unlock_record(&self, raw: &mut TableSeat<R>, turn: u32, content: Content<R>)
        requires id { raw.old.table_id ≡ self.now.table.shared.table_id }
        requires turn { turn < record_count self.now.plan }
        requires out { IsOut turn (mine raw.old.me) }
        requires holds { IsRecordOf self.now.plan turn (content_part content) content }
        requires noted { HoldsAs turn (content_part content) raw.old.me.0.view.held }
        requires releasing { (raw.old.me.0.view.releasing ≡ true) × (raw.old.me.0.view.out ≡ []) }
        ensures id { raw.new.table_id ≡ raw.old.table_id }
        ensures view { mine raw.new.me ≡ (freed turn raw.old.me.0.view, rest raw.old.me.1) }
        ensures own { FreedOne turn raw.old.me.0.own raw.new.me.0.own }
    {
        let slot = turn as usize;
        let empty = self.table.shared.exchange(raw, slot, Some(content));
        let None = empty else { unreachable!() };
        self.table.shared.store::<UnlockRecord>(raw, slot + 1, 0);
    }
}
