ghost use Rattle.std.specs.Prelude.{◌≡◌, ◌<◌, Some, MatchResult};
ghost use Rattle.atomic_table.specs.Table.{rest};
ghost use Rattle.pw_cppc_desk.specs.Entries.{entry_as};
ghost use Rattle.pw_books.specs.Steps.{IsIdle, entered, find_held, let_go};
ghost use Rattle.pw_books.specs.Steps.{release_with_entry, release_without_entry};
ghost use Rattle.pw_cppc_desk.specs.Plays.{IsFound, IsGrown, Met, mine};
ghost use Rattle.pw_cppc_desk.specs.Rule.{given_of};
ghost use Rattle.pw_cppc_desk.specs.Slots.{seat_of};
ghost use Rattle.pw_cppc_desk.specs.Tracks.{keeping};
ghost use Rattle.pw_cppc_desk.specs.Steps.{IsOut, LedOut};
ghost use Rattle.pw_cppc_desk.specs.Went.{OneMore, TookTurn};

use crate::Ledger;
use crate::desk::{CppcDesk, SLOT, TURN, TableSeat};
use crate::plays::{Asked, Commit, Lock, Unlock};
use pw_cppc::CppcRequest;
use pw_regs::Registers;
use std::marker::Brand;

impl<R: Registers> CppcDesk<R> {
    /// What the turn holds, or the number of the seat that has it.
    pub(crate) fn lock<Q: Asked>(
        &self,
        raw: &mut TableSeat<R>,
        number: u32,
    ) -> Result<Ledger<R>, u32>
        requires id { raw.old.table_id ≡ self.now.table.shared.table_id }
        requires given { Q.given ≡ Some (given_of R.Registers self.now.table.shared.key) }
        requires idle { IsIdle raw.old.me.0.view }
        requires number { (number ≡ raw.old.me.0.view.number) × (number < 65536) }
        ensures id { raw.new.table_id ≡ raw.old.table_id }
        ensures view { let given = given_of R.Registers self.now.table.shared.key in
            MatchResult result
            (λ ledger. LedOut R.Registers given (mine raw.old.me) ledger (mine raw.new.me))
            (λ holder. Met (mine raw.old.me) holder (mine raw.new.me)) }
        ensures own { MatchResult result (λ _. TookTurn (keeping raw.old.me.0) (keeping raw.new.me.0))
            (λ _. OneMore (keeping raw.old.me.0) find_held (keeping raw.new.me.0)) }
    {
        let mine = u64::from(number) + 1;
        let found = self
            .table
            .shared
            .compare_exchange::<Lock<Q>>(raw, TURN, 0, mine);
        if found != 0 {
            return Err((found - 1) as u32);
        }
        match self.table.shared.exchange(raw, SLOT, None) {
            Some(ledger) => Ok(ledger),
            None => unreachable!(),
        }
    }

    /// The same with what it is about picked.
    pub(crate) fn lock_for(&self, raw: &mut TableSeat<R>, number: u32) -> Result<Ledger<R>, u32>
        requires id { raw.old.table_id ≡ self.now.table.shared.table_id }
        requires idle { IsIdle raw.old.me.0.view }
        requires number { (number ≡ raw.old.me.0.view.number) × (number < 65536) }
        ensures id { raw.new.table_id ≡ raw.old.table_id }
        ensures view { let given = given_of R.Registers self.now.table.shared.key in
            MatchResult result
            (λ ledger. LedOut R.Registers given (mine raw.old.me) ledger (mine raw.new.me))
            (λ holder. Met (mine raw.old.me) holder (mine raw.new.me)) }
        ensures own { MatchResult result (λ _. TookTurn (keeping raw.old.me.0) (keeping raw.new.me.0))
            (λ _. OneMore (keeping raw.old.me.0) find_held (keeping raw.new.me.0)) }
    {
        self.lock::<Brand>(raw, number)
    }

    /// Gives the turn back with one entry more.
    pub(crate) fn commit<Q: Asked>(
        &self,
        raw: &mut TableSeat<R>,
        ledger: Ledger<R>,
        _request: CppcRequest,
        _fault: u32,
    )
        requires id { raw.old.table_id ≡ self.now.table.shared.table_id }
        requires entry { Q.entry ≡ entry_as raw.old.me.0.view.number _request _fault }
        requires count { Q.count ≡ R.faults ledger.regs }
        requires out { IsOut (mine raw.old.me) }
        requires grown { IsGrown R.Registers (given_of R.Registers self.now.table.shared.key)
            raw.old.me.0.view (entry_as raw.old.me.0.view.number _request _fault) ledger }
        ensures id { raw.new.table_id ≡ raw.old.table_id }
        ensures view { mine raw.new.me ≡ (
          entered seat_of (entry_as raw.old.me.0.view.number _request _fault) (R.faults ledger.regs)
              raw.old.me.0.view,
          rest raw.old.me.1,
        ) }
        ensures own { OneMore (keeping raw.old.me.0) (release_with_entry (entry_as
            raw.old.me.0.view.number _request _fault) (R.faults ledger.regs)) (keeping raw.new.me.0) }
    {
        let empty = self.table.shared.exchange(raw, SLOT, Some(ledger));
        let None = empty else { unreachable!() };
        self.table.shared.store::<Commit<Q>>(raw, TURN, 0);
        self.wake();
    }

    /// The same with what it is about picked.
    pub(crate) fn commit_for(
        &self,
        raw: &mut TableSeat<R>,
        ledger: Ledger<R>,
        request: CppcRequest,
        fault: u32,
    )
        requires id { raw.old.table_id ≡ self.now.table.shared.table_id }
        requires out { IsOut (mine raw.old.me) }
        requires grown { IsGrown R.Registers (given_of R.Registers self.now.table.shared.key)
            raw.old.me.0.view (entry_as raw.old.me.0.view.number request fault) ledger }
        ensures id { raw.new.table_id ≡ raw.old.table_id }
        ensures view { mine raw.new.me ≡ (
          entered seat_of (entry_as raw.old.me.0.view.number request fault) (R.faults ledger.regs)
              raw.old.me.0.view,
          rest raw.old.me.1,
        ) }
        ensures own { OneMore (keeping raw.old.me.0) (release_with_entry (entry_as
            raw.old.me.0.view.number request fault) (R.faults ledger.regs)) (keeping raw.new.me.0) }
    {
        self.commit::<Brand>(raw, ledger, request, fault);
    }

    /// Gives the turn back, and all is as it was.
    pub(crate) fn unlock<Q: Asked>(&self, raw: &mut TableSeat<R>, ledger: Ledger<R>)
        requires id { raw.old.table_id ≡ self.now.table.shared.table_id }
        requires count { Q.count ≡ R.faults ledger.regs }
        requires out { IsOut (mine raw.old.me) }
        requires found { IsFound R.Registers (given_of R.Registers self.now.table.shared.key)
            raw.old.me.0.view ledger }
        ensures id { raw.new.table_id ≡ raw.old.table_id }
        ensures view { mine raw.new.me
            ≡ (let_go (R.faults ledger.regs) raw.old.me.0.view, rest raw.old.me.1) }
        ensures own { OneMore (keeping raw.old.me.0) (release_without_entry (R.faults ledger.regs))
            (keeping raw.new.me.0) }
    {
        let empty = self.table.shared.exchange(raw, SLOT, Some(ledger));
        let None = empty else { unreachable!() };
        self.table.shared.store::<Unlock<Q>>(raw, TURN, 0);
        self.wake();
    }

    /// The same with what it is about picked.
    pub(crate) fn unlock_for(&self, raw: &mut TableSeat<R>, ledger: Ledger<R>)
        requires id { raw.old.table_id ≡ self.now.table.shared.table_id }
        requires out { IsOut (mine raw.old.me) }
        requires found { IsFound R.Registers (given_of R.Registers self.now.table.shared.key)
            raw.old.me.0.view ledger }
        ensures id { raw.new.table_id ≡ raw.old.table_id }
        ensures view { mine raw.new.me
            ≡ (let_go (R.faults ledger.regs) raw.old.me.0.view, rest raw.old.me.1) }
        ensures own { OneMore (keeping raw.old.me.0) (release_without_entry (R.faults ledger.regs))
            (keeping raw.new.me.0) }
    {
        self.unlock::<Brand>(raw, ledger);
    }
}
