ghost use Rattle.std.specs.Prelude.{◌≡◌, ◌<◌, length, true};
ghost use Rattle.pw_cppc.specs.Requests.{Has};
ghost use Rattle.pw_books.specs.Steps.{IsIdle};
ghost use Rattle.pw_cppc_desk.specs.Tracks.{keeping};
ghost use Rattle.pw_cppc_desk.specs.Views.{IsAtRest, is_met, view_in};
ghost use Rattle.pw_cppc_desk.specs.Went.{WentOnce, keeping_in};

use crate::desk::{CppcDesk, CppcSeat, TableSeat, out};
use crate::serving::CppcDone;
use pw_cppc::{CppcReply, CppcRequest};
use pw_regs::Registers;

/// What a request was told that doesn't wait.
#[derive(Clone, Copy)]
pub enum CppcTry {
    /// The reply of its place in the history.
    Answer(CppcReply),
    /// Another seat, of this number, has the turn: nothing was done.
    Busy { holder: u32 },
    /// The history has as many entries as it may have: nothing was done.
    Full { capacity: u32 },
    /// A register failed after so many operations that were done, and the history ends with this
    /// request.
    RegisterFault { done: u32 },
    /// The history ended with a fault before, as this entry, counted from 1: nothing was done.
    Stopped { at: u32 },
}

impl CppcDone {
    ghost use Rattle.pw_cppc_desk.specs.Trying.{try_of};

    /// What a request that gives up is told, where it found the turn free.
    fn as_try(self) -> CppcTry
        ensures { result ≡ try_of self }
    {
        match self {
            CppcDone::Answer(reply) => CppcTry::Answer(reply),
            CppcDone::Full { capacity } => CppcTry::Full { capacity },
            CppcDone::RegisterFault { done } => CppcTry::RegisterFault { done },
            CppcDone::Stopped { at } => CppcTry::Stopped { at },
        }
    }
}

impl<R: Registers> CppcDesk<R> {
    ghost use Rattle.pw_cppc_desk.specs.Owning.{Owns};
    ghost use Rattle.pw_cppc_desk.specs.Told.{Told};

    /// Makes a request where the turn is free.
    fn ask(
        &self,
        raw: &mut TableSeat<R>,
        met: &mut Option<u32>,
        seen: &mut u32,
        number: u32,
        request: CppcRequest,
    ) -> CppcTry
        requires id { raw.old.table_id ≡ self.now.table.shared.table_id }
        requires has { Has self.now.plan request }
        requires rest { IsAtRest raw.old.me.0.view }
        requires live { IsIdle raw.old.me.0.view }
        requires number { (number ≡ raw.old.me.0.view.number) × (number < 65536) }
        requires seen { seen.old ≡ length raw.old.me.0.view.seen }
        requires met { is_met met.old raw.old.me.0.view ≡ true }
        ensures id { raw.new.table_id ≡ raw.old.table_id }
        ensures slots { raw.new.me.1 ≡ raw.old.me.1 }
        ensures rest { IsAtRest raw.new.me.0.view }
        ensures seen { seen.new ≡ length raw.new.me.0.view.seen }
        ensures met { is_met met.new raw.new.me.0.view ≡ true }
        ensures told { Told self.now.plan self.now.capacity raw.old.me.0.view request result
            raw.new.me.0.view }
        ensures own { WentOnce number request result (keeping raw.old.me.0) (keeping raw.new.me.0) }
    {
        match self.lock_for(raw, number) {
            Ok(ledger) => self.serve(raw, ledger, seen, number, request).as_try(),
            Err(holder) => {
                *met = Some(holder);
                CppcTry::Busy { holder }
            }
        }
    }

    /// Makes a request, or gives up where another seat has the turn. It takes no memory and never
    /// waits.
    pub fn try_request(&self, seat: &mut CppcSeat, request: CppcRequest) -> CppcTry
        requires owns { Owns self.now.table.shared.table_id seat.old }
        requires has { Has self.now.plan request }
        ensures owns { Owns self.now.table.shared.table_id seat.new }
        ensures told { Told self.now.plan self.now.capacity (view_in seat.old.badge.views) request result
            (view_in seat.new.badge.views) }
        ensures steps { WentOnce (view_in seat.old.badge.views).number request result
            (keeping_in seat.old.badge.views) (keeping_in seat.new.badge.views) }
    {
        let number = seat.number;
        let mut raw: TableSeat<R> = out(&mut seat.badge);
        let told = self.ask(&mut raw, &mut seat.met, &mut seat.seen, number, request);
        seat.badge = raw.into_badge();
        told
    }
}
