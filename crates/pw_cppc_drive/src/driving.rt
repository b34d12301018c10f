ghost use Rattle.std.specs.Prelude.{◌≡◌, ◌≤◌, [], Some, length, vec_capacity, IfErr, IfOk};
ghost use Rattle.std.specs.List.{AllByRecursion};
ghost use Rattle.pw_regs.specs.Seen.{registers_seen};
ghost use Rattle.pw_cppc.specs.Requests.{Has};
ghost use Rattle.pw_cppc.specs.declared.entry.CppcEntry.{CppcEntry as entry};
ghost use Rattle.pw_cppc.specs.History.{LawfulSerial, replies};
ghost use Rattle.pw_cppc_drive.specs.declared.script.CppcLine.{CppcLine as line};
ghost use Rattle.pw_cppc_drive.specs.Reading.{operations, requests_of};
ghost use Rattle.pw_cppc_desk.specs.Ledgered.{IsLedgerOf};
ghost use Rattle.pw_cppc_drive.specs.Driven.{OperatesFor};

use crate::running::make_all;
use crate::{CppcLine, CppcScript};
use pw_base::List;
use pw_cppc::{CppcEntry, CppcPlan, CppcReply};
use pw_cppc_desk::Ledger;
use pw_regs::Registers;
use std::alloc::Global;

/// What a run of a script gives. `opening` is how many operations at the start were done where a
/// fault ended them; then no request was made. The replies, where they are known, are those of the entries,
/// in their order: a fault has none.
#[derive(Drop)]
pub struct CppcDriven<R> {
    pub plan: CppcPlan,
    pub opening: Option<u32>,
    pub entries: List<CppcEntry>,
    pub replies: Option<List<CppcReply>>,
    pub regs: R,
}

/// Does the operations at the start, and makes the requests of the lines in their order, up to the first
/// fault, and keeps their replies. Where that ended the start it answers how many operations were done.
fn run<R: Registers>(
    plan: &CppcPlan,
    lines: &[CppcLine],
    ledger: &mut Ledger<R>,
    kept: &mut Vec<CppcReply>,
) -> Option<u32>
    requires has { AllByRecursion (λ (l : line). Has plan.now l.request) lines.now }
    requires of { IsLedgerOf plan.now ledger.old }
    requires empty { ledger.old.entries ≡ [] }
    requires space { length lines.now ≤ ledger.old.capacity }
    requires unanswered { kept.old.items ≡ [] }
    requires spare { length lines.now ≤ vec_capacity kept.old }
    ensures replies { kept.new.items ≡ replies plan.now ledger.new.entries }
    ensures lawful { LawfulSerial plan.now (requests_of lines.now) result ledger.new.entries }
    ensures seats { AllByRecursion (λ (e : entry). e.seat ≡ 0) ledger.new.entries }
    ensures operates { OperatesFor plan.now (operations plan.now lines.now) result ledger.new.entries
        (registers_seen R.Registers ledger.old.regs) (registers_seen R.Registers ledger.new.regs) }
{
    if let Err(done) = ledger.operate_opening(plan) {
        return Some(done);
    }
    make_all(plan, lines, ledger, kept);
    None
}

/// Runs a script on registers: the operations at the start, and then the requests of its lines in their
/// order, up to the first fault of a register. All memory is taken before the first operation; where
/// there is none, the registers are given back as they were.
pub fn cppc_serial<R: Registers>(
    alloc: Global,
    plan: CppcPlan,
    script: &CppcScript,
    regs: R,
) -> Result<CppcDriven<R>, R>
    requires few { length script.now.lines ≤ 65536 }
    requires has { AllByRecursion (λ (l : line). Has plan l.request) script.now.lines }
    ensures plan { IfOk result (λ driven. driven.plan ≡ plan) }
    // The history is one of the lines in their order.
    ensures lawful { IfOk result (λ driven.
        LawfulSerial plan (requests_of script.now.lines) driven.opening driven.entries) }
    // Each entry has the reply of its place.
    ensures replies { IfOk result (λ driven. driven.replies ≡ Some (replies plan driven.entries)) }
    ensures seats { IfOk result (λ driven. AllByRecursion (λ (e : entry). e.seat ≡ 0) driven.entries) }
    // The registers' log grew by the operations of the start and of that history.
    ensures operates { IfOk result (λ driven.
        OperatesFor plan (operations plan script.now.lines) driven.opening driven.entries
        (registers_seen R.Registers regs) (registers_seen R.Registers driven.regs)) }
    ensures given_back { IfErr result (λ back. back ≡ regs) }
{
    let lines = script.lines.as_slice();
    let Ok(mut replies) = Vec::with_capacity(alloc, lines.len()) else {
        drop(plan);
        return Err(regs);
    };
    let mut ledger = match Ledger::open(alloc, &plan, lines.len() as u32, regs) {
        Ok(ledger) => ledger,
        Err(regs) => {
            drop(plan);
            return Err(regs);
        }
    };
    let opening = run(&plan, lines, &mut ledger, &mut replies);
    let (entries, regs) = ledger.finish();
    Ok(CppcDriven {
        plan,
        opening,
        entries: List::from_vec(entries),
        replies: Some(List::from_vec(replies)),
        regs,
    })
}
