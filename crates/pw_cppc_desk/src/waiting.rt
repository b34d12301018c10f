//! A request that sleeps while another seat has the turn.
ghost use Rattle.std.specs.Prelude.{◌≡◌, ◌<◌, length, true};
ghost use Rattle.pw_cppc.specs.Requests.{Has};
ghost use Rattle.pw_books.specs.Steps.{IsIdle};
ghost use Rattle.pw_cppc_desk.specs.Rule.{given_of};
ghost use Rattle.pw_cppc_desk.specs.Plays.{mine};
ghost use Rattle.pw_cppc_desk.specs.Tracks.{keeping};
ghost use Rattle.pw_cppc_desk.specs.Steps.{LedOn};
ghost use Rattle.pw_cppc_desk.specs.Views.{is_met, view_in};
ghost use Rattle.pw_cppc_desk.specs.Went.{TookLater, WentOn, keeping_in};

use crate::Ledger;
use crate::desk::{CppcDesk, CppcSeat, TableSeat, out};
use crate::serving::CppcDone;
use pw_cppc::CppcRequest;
use pw_regs::Registers;
use std::marker::Brand;
use std::sync::Wait;

impl<R: Registers> CppcDesk<R> {
    ghost use Rattle.pw_cppc_desk.specs.Finished.{Finished};
    ghost use Rattle.pw_cppc_desk.specs.Owning.{Owns};

    /// What the turn holds, once no other seat has it.
    fn wait<W: Wait>(
        &self,
        rt: &W,
        raw: &mut TableSeat<R>,
        met: &mut Option<u32>,
        number: u32,
    ) -> Ledger<R>
        requires id { raw.old.table_id ≡ self.now.table.shared.table_id }
        requires idle { IsIdle raw.old.me.0.view }
        requires number { (number ≡ raw.old.me.0.view.number) × (number < 65536) }
        requires met { is_met met.old raw.old.me.0.view ≡ true }
        ensures id { raw.new.table_id ≡ raw.old.table_id }
        ensures view { LedOn R.Registers (given_of R.Registers self.now.table.shared.key)
            (mine raw.old.me) result (mine raw.new.me) }
        ensures own { TookLater (keeping raw.old.me.0) (keeping raw.new.me.0) }
        ensures met { is_met met.new raw.new.me.0.view ≡ true }
    {
        for _ in rt.forever() {
            match self.lock::<Brand>(raw, number) {
                Ok(ledger) => return ledger,
                Err(holder) => {
                    *met = Some(holder);
                    self.wait_on(rt, holder + 1);
                }
            }
        }
        unreachable!()
    }

    /// Makes a request. It waits where another seat has the turn, and takes no memory.
    pub fn request<W: Wait>(&self, rt: &W, seat: &mut CppcSeat, request: CppcRequest) -> CppcDone
        requires owns { Owns self.now.table.shared.table_id seat.old }
        requires has { Has self.now.plan request }
        ensures owns { Owns self.now.table.shared.table_id seat.new }
        ensures told { Finished self.now.plan self.now.capacity (view_in seat.old.badge.views) request result
            (view_in seat.new.badge.views) }
        ensures steps { WentOn (view_in seat.old.badge.views).number request result
            (keeping_in seat.old.badge.views) (keeping_in seat.new.badge.views) }
    {
        let number = seat.number;
        let mut raw: TableSeat<R> = out(&mut seat.badge);
        let ledger = self.wait(rt, &mut raw, &mut seat.met, number);
        let done = self.serve(&mut raw, ledger, &mut seat.seen, number, request);
        seat.badge = raw.into_badge();
        done
    }
}
