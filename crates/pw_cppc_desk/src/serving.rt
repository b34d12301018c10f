ghost use Rattle.std.specs.Prelude.{◌≡◌, ◌<◌, Some, length};
ghost use Rattle.atomic_table.specs.Table.{rest};
ghost use Rattle.pw_cppc.specs.Requests.{Has};
ghost use Rattle.pw_cppc_desk.specs.Plays.{IsFound, mine};
ghost use Rattle.pw_cppc_desk.specs.Rule.{given_of};
ghost use Rattle.pw_cppc_desk.specs.Tracks.{keeping};
ghost use Rattle.pw_cppc_desk.specs.Steps.{IsOut};
ghost use Rattle.pw_cppc_desk.specs.Went.{Served};

use crate::Ledger;
use crate::desk::{CppcDesk, TableSeat};
use pw_cppc::{CppcReply, CppcRequest};
use pw_regs::Registers;

/// What a request was told that waited where it had to.
#[derive(Clone, Copy)]
pub enum CppcDone {
    /// The reply of its place in the history.
    Answer(CppcReply),
    /// The history has as many entries as it may have: nothing was done.
    Full { capacity: u32 },
    /// A register failed after so many operations that were done, and the history ends with this
    /// request.
    RegisterFault { done: u32 },
    /// The history ended with a fault before, as this entry, counted from 1: nothing was done.
    Stopped { at: u32 },
}

impl<R: Registers> CppcDesk<R> {
    ghost use Rattle.pw_cppc_desk.specs.Steps.{Serves};

    /// Makes a request with the turn in hand, and gives the turn back.
    pub(crate) fn serve(
        &self,
        raw: &mut TableSeat<R>,
        mut ledger: Ledger<R>,
        seen: &mut u32,
        number: u32,
        request: CppcRequest,
    ) -> CppcDone
        requires id { raw.old.table_id ≡ self.now.table.shared.table_id }
        requires has { Has self.now.plan request }
        requires number { number ≡ raw.old.me.0.view.number }
        requires out { IsOut (mine raw.old.me) }
        requires found { IsFound R.Registers (given_of R.Registers self.now.table.shared.key)
            raw.old.me.0.view ledger }
        requires first { raw.old.me.0.view.at_lock ≡ Some (R.faults ledger.regs) }
        ensures id { raw.new.table_id ≡ raw.old.table_id }
        ensures slots { raw.new.me.1 ≡ rest raw.old.me.1 }
        ensures seen { seen.new ≡ length raw.new.me.0.view.seen }
        ensures serves { Serves self.now.plan self.now.capacity raw.old.me.0.view request result
            raw.new.me.0.view }
        ensures own { Served number request result (keeping raw.old.me.0) (keeping raw.new.me.0) }
    {
        *seen = ledger.len();
        if let Some(at) = ledger.fault_at() {
            self.unlock_for(raw, ledger);
            return CppcDone::Stopped { at };
        }
        if *seen == self.capacity {
            self.unlock_for(raw, ledger);
            return CppcDone::Full {
                capacity: self.capacity,
            };
        }
        *seen += 1;
        match ledger.make(&self.plan, number, request) {
            Ok(reply) => {
                self.commit_for(raw, ledger, request, 0);
                CppcDone::Answer(reply)
            }
            Err(done) => {
                self.commit_for(raw, ledger, request, done + 1);
                CppcDone::RegisterFault { done }
            }
        }
    }
}
