//! How a request takes a turn that another seat may have: it gives up, or it waits.
ghost use Rattle.std.specs.Prelude.{◌≡◌, ◌<◌, Bool, true, false, IfErr, IfOk, OnErr, MatchResult};
ghost use Rattle.pw_model.specs.Records.{record_count};
ghost use Rattle.pw_machine.specs.Steps.{Asks};
ghost use Rattle.pw_rule.specs.Moves.{TellsNext};
ghost use Rattle.pw_rule.specs.Plays.{mine};
ghost use Rattle.pw_rule.specs.Rule.{given_of, promise_of};
ghost use Rattle.pw_turns.specs.Steps.{LedOut, Since, TookOut};
ghost use Rattle.pw_turns.specs.Views.{is_met};
ghost use Rattle.pw_turns.specs.Went.{Began, TurnedAt, Walked};

use crate::coordinator::{Coordinator, TableSeat};
use crate::keeping::Keeps;
use crate::requests::Try;
use crate::sleeping::{Silent, Wakes};
use crate::waited::Done;
use pw_journal::Journal;
use pw_plan::Request;
use pw_regs::Registers;
use pw_rule::{Boxed, Content};
use std::marker::Brand;

/// How a request takes its turns. What it is told says by its type whether it may have found one held.
pub(crate) trait Taking: Wakes {
    ghost use Rattle.pw_turns.specs.declared.requests.Try.{Try as tried_as};
    ghost use Rattle.pw_turns.specs.Finished.{try_of};
    ghost use Rattle.pw_turns.specs.inner.Taking.{GivesUp};

    /// What it is told.
    type Told: Copy;

    /// Whether it waits where another seat has a turn.
    ghost waits: { Bool };

    /// What one that gives up would have been told.
    ghost tried: { Self.Told → tried_as };

    /// What it is told that had all its turns.
    fn told(done: Done) -> Self::Told
        ensures { tried result ≡ try_of done };

    /// What one that gives up would have been told.
    fn as_try(told: Self::Told) -> Try
        ensures { result ≡ tried told };

    /// The record of a turn, or what it is told where it gives up.
    fn obtain_record<R: Registers, K: Keeps>(
        &self,
        coordinator: &Coordinator<R, K>,
        raw: &mut TableSeat<R>,
        met: &mut Option<(u32, u32)>,
        turn: u32,
        number: u32,
        request: Request,
    ) -> Result<Content<R>, Self::Told>
        requires id { raw.old.table_id ≡ coordinator.now.table.shared.table_id }
        requires asks { Asks coordinator.now.plan raw.old.me.0.view request }
        requires turn { turn < record_count coordinator.now.plan }
        requires next { TellsNext coordinator.now.plan raw.old.me.0.view request turn }
        requires number { (number ≡ raw.old.me.0.view.number) × (number < 65536) }
        requires met { is_met met.old raw.old.me.0.view ≡ true }
        ensures id { raw.new.table_id ≡ raw.old.table_id }
        ensures took { let given = given_of R.Registers coordinator.now.table.shared.key in
            IfOk result (λ content. Since waits raw.old.me.0.view
            (λ u. TookOut given request (u, raw.old.me.1) turn content (mine raw.new.me))) }
        ensures told { let given = given_of R.Registers coordinator.now.table.shared.key in
            IfErr result (λ told. GivesUp given raw.old.me.0.view request (tried told) raw.new.me.0.view) }
        ensures slots { OnErr result (raw.new.me.1 ≡ raw.old.me.1) }
        ensures met { is_met met.new raw.new.me.0.view ≡ true }
        ensures own { let last = record_count coordinator.now.plan in
            MatchResult result (λ _. Walked waits request raw.old.me.0.own raw.new.me.0.own)
            (λ told. TurnedAt waits last number request (tried told) raw.old.me.0.own raw.new.me.0.own) };

    /// The journal, or what it is told where it gives up.
    fn obtain_journal<R: Registers, K: Keeps>(
        &self,
        coordinator: &Coordinator<R, K>,
        raw: &mut TableSeat<R>,
        met: &mut Option<(u32, u32)>,
        number: u32,
        request: Request,
    ) -> Result<Boxed<Journal<R>>, Self::Told>
        requires id { raw.old.table_id ≡ coordinator.now.table.shared.table_id }
        requires asks { Asks coordinator.now.plan raw.old.me.0.view request }
        requires next { TellsNext coordinator.now.plan raw.old.me.0.view request
            (record_count coordinator.now.plan) }
        requires number { (number ≡ raw.old.me.0.view.number) × (number < 65536) }
        requires met { is_met met.old raw.old.me.0.view ≡ true }
        ensures id { raw.new.table_id ≡ raw.old.table_id }
        ensures led { let key = coordinator.now.table.shared.key in
            IfOk result (λ journal. Since waits raw.old.me.0.view
            (λ u. LedOut R.Registers (promise_of R.Registers key) (given_of R.Registers key) request
            (record_count coordinator.now.plan) (u, raw.old.me.1) journal (mine raw.new.me))) }
        ensures told { let given = given_of R.Registers coordinator.now.table.shared.key in
            IfErr result (λ told. GivesUp given raw.old.me.0.view request (tried told) raw.new.me.0.view) }
        ensures slots { OnErr result (raw.new.me.1 ≡ raw.old.me.1) }
        ensures met { is_met met.new raw.new.me.0.view ≡ true }
        ensures own { let last = record_count coordinator.now.plan in
            MatchResult result (λ _. Began waits request raw.old.me.0.own raw.new.me.0.own)
            (λ told. TurnedAt waits last number request (tried told) raw.old.me.0.own raw.new.me.0.own) };
}

/// It gives up.
impl Taking for Silent {
    type Told = Try;

    ghost waits = { false };

    ghost tried = { λ told. told };

    fn told(done: Done) -> Try {
        done.as_try()
    }

    fn as_try(told: Try) -> Try {
        told
    }

    #[inline(always)]
    fn obtain_record<R: Registers, K: Keeps>(
        &self,
        coordinator: &Coordinator<R, K>,
        raw: &mut TableSeat<R>,
        met: &mut Option<(u32, u32)>,
        turn: u32,
        number: u32,
        request: Request,
    ) -> Result<Content<R>, Try> {
        match coordinator.lock_record::<Brand>(raw, turn, number, request) {
            Ok(content) => Ok(content),
            Err(holder) => {
                *met = Some((turn, holder));
                Err(Try::Busy { turn, holder })
            }
        }
    }

    #[inline(always)]
    fn obtain_journal<R: Registers, K: Keeps>(
        &self,
        coordinator: &Coordinator<R, K>,
        raw: &mut TableSeat<R>,
        met: &mut Option<(u32, u32)>,
        number: u32,
        request: Request,
    ) -> Result<Boxed<Journal<R>>, Try> {
        match coordinator.lock_journal::<Brand>(raw, number, request) {
            Ok(journal) => Ok(journal),
            Err(holder) => {
                let last = coordinator.counts.records;
                *met = Some((last, holder));
                Err(Try::Busy { turn: last, holder })
            }
        }
    }
}
