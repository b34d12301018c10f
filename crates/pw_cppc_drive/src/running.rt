ghost use Rattle.std.specs.Prelude.{◌≡◌, ◌≤◌, [], length, vec_capacity};
ghost use Rattle.std.specs.List.{AllByRecursion};
ghost use Rattle.pw_regs.specs.Seen.{registers_seen};
ghost use Rattle.pw_cppc.specs.Requests.{Has};
ghost use Rattle.pw_cppc.specs.History.{replies};
ghost use Rattle.pw_cppc_drive.specs.declared.script.CppcLine.{CppcLine as line};
ghost use Rattle.pw_cppc_desk.specs.Ledgered.{IsLedgerOf};
ghost use Rattle.pw_cppc_drive.specs.inner.Running.{Ran};

use crate::CppcLine;
use pw_cppc::{CppcPlan, CppcReply};
use pw_cppc_desk::Ledger;
use pw_regs::Registers;

/// Makes the requests of the lines in their order, up to the first fault, and keeps their replies.
pub fn make_all<R: Registers>(
    plan: &CppcPlan,
    lines: &[CppcLine],
    ledger: &mut Ledger<R>,
    kept: &mut Vec<CppcReply>,
)
    requires has { AllByRecursion (λ (l : line). Has plan.now l.request) lines.now }
    requires of { IsLedgerOf plan.now ledger.old }
    requires empty { ledger.old.entries ≡ [] }
    requires space { length lines.now ≤ ledger.old.capacity }
    requires unanswered { kept.old.items ≡ [] }
    requires spare { length lines.now ≤ vec_capacity kept.old }
    ensures replies { kept.new.items ≡ replies plan.now ledger.new.entries }
    ensures ran { Ran plan.now lines.now ledger.new.entries
        (registers_seen R.Registers ledger.old.regs) (registers_seen R.Registers ledger.new.regs) }
{
    for line in lines {
        match ledger.make(plan, 0, line.request) {
            Ok(reply) => kept.push_reserved(reply),
            Err(_) => return,
        }
    }
}
