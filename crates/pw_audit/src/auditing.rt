ghost use Rattle.std.specs.Prelude.{◌≡◌, ◌≢◌, ◌<◌, ◌↔◌, ℕ, length, map, Err, IfOk, IsOk};
ghost use Rattle.pw_script.specs.Reading.{requests_of};
ghost use Rattle.pw_script.specs.Wholes.{IsWhole, pieces_of};
ghost use Rattle.pw_cppc_drive.specs.Reading.{requests_of as cppc_requests_of};
ghost use Rattle.pw_cppc_drive.specs.Wholes.{IsWhole as CppcIsWhole};
ghost use Rattle.pw_audit.specs.declared.answer.TheConstants.{MOST_BYTES};
ghost use Rattle.pw_audit.specs.declared.answer.AuditFault.TheVariants as faults;
ghost use Rattle.pw_audit.specs.declared.form.Form.TheVariants.{Trace};
ghost use Rattle.pw_audit.specs.Audited.{IsShort, IsUnfinished, IsWrong, Shows};
ghost use Rattle.pw_audit.specs.CppcAudited as cppc;
ghost use Rattle.pw_audit.specs.Judging.{Told};
ghost use Rattle.pw_audit.specs.Traces.{IsUnfinishedAs, IsWholeAs, IsWrongAs, ShowsAs};
ghost use Rattle.pw_audit.specs.inner.Answering.{answer_by, performance_audit, power_audit};

use crate::answer::{Audit, AuditFault, CppcAudit, MOST_BYTES};
use crate::form::Form;
use crate::kind::Audited;
use crate::performance::Performance;
use crate::power::Power;
use crate::walk::read_text;
use pw_base::List;
use pw_cppc::{CppcEntry, CppcPlan};
use pw_cppc_drive::CppcScript;
use pw_model::HistoryEntry;
use pw_plan::Plan;
use pw_script::Script;
use std::alloc::Global;

/// Audits a text of this form, of any kind of coordination: the opening and the entries that it shows, if it
/// is whole.
pub fn audit_as<T: Audited>(
    form: Form,
    alloc: Global,
    plan: &T::Plan,
    lines: &[T::Line],
    text: &[u8],
) -> Result<(Option<u32>, List<T::Entry>), AuditFault>
    ensures { Told T.words form plan.now (map T.ask lines.now) text.now result }
{
    if text.len() > MOST_BYTES as usize {
        return Err(AuditFault::TooLong { bound: MOST_BYTES });
    }
    read_text::<T>(form, alloc, plan, lines, text)
}

/// The answer for processor power.
fn power_audit(
    found: Result<(Option<u32>, List<HistoryEntry>), AuditFault>,
) -> Result<Audit, AuditFault>
    ensures { result ≡ answer_by power_audit found }
{
    match found {
        Ok((opening, entries)) => Ok(Audit { opening, entries }),
        Err(fault) => Err(fault),
    }
}

/// The answer for desired performance.
fn performance_audit(
    found: Result<(Option<u32>, List<CppcEntry>), AuditFault>,
) -> Result<CppcAudit, AuditFault>
    ensures { result ≡ answer_by performance_audit found }
{
    match found {
        Ok((opening, entries)) => Ok(CppcAudit { opening, entries }),
        Err(fault) => Err(fault),
    }
}

/// Audits a text: whether it is that of a history, or of an opening that a fault ended, that the plan and
/// the script allow. What it answers says nothing of where the text came from.
pub fn audit(alloc: Global, plan: &Plan, script: &Script, text: &[u8]) -> Result<Audit, AuditFault>
    ensures shown { IfOk result (λ a. Shows plan.now (requests_of script.now.lines) text.now a) }
    ensures whole { result ≢ Err faults.Memory →
        IsOk result ↔ (IsShort text.now × IsWhole plan.now (requests_of script.now.lines) text.now) }
    ensures long { (b : ℕ) → result ≢ Err faults.Memory →
        result ≡ Err (faults.TooLong b) ↔ ((b ≡ MOST_BYTES) × (MOST_BYTES < length text.now)) }
    ensures wrong { (k : ℕ) → result ≢ Err faults.Memory →
        result ≡ Err (faults.Wrong k)
        ↔ (IsShort text.now × IsWrong plan.now (requests_of script.now.lines) text.now k) }
    ensures unfinished { (n : ℕ) → result ≢ Err faults.Memory →
        result ≡ Err (faults.Unfinished n) ↔ (IsShort text.now × (n ≡ length (pieces_of text.now))
        × IsUnfinished plan.now (requests_of script.now.lines) text.now) }
{
    let lines = script.lines.as_slice();
    power_audit(audit_as::<Power>(Form::History, alloc, plan, lines, text))
}

/// Audits a trace of a running system: the same for texts that may lack the operations of the opening, all of
/// them, and have those of each entry in any order of the processors that they are on.
pub fn audit_trace(
    alloc: Global,
    plan: &Plan,
    script: &Script,
    text: &[u8],
) -> Result<Audit, AuditFault>
    ensures shown { IfOk result (λ a.
        ShowsAs Trace plan.now (requests_of script.now.lines) text.now a) }
    ensures whole { result ≢ Err faults.Memory → IsOk result
        ↔ (IsShort text.now × IsWholeAs Trace plan.now (requests_of script.now.lines) text.now) }
    ensures long { (b : ℕ) → result ≢ Err faults.Memory →
        result ≡ Err (faults.TooLong b) ↔ ((b ≡ MOST_BYTES) × (MOST_BYTES < length text.now)) }
    ensures wrong { (k : ℕ) → result ≢ Err faults.Memory →
        result ≡ Err (faults.Wrong k)
        ↔ (IsShort text.now × IsWrongAs Trace plan.now (requests_of script.now.lines) text.now k) }
    ensures unfinished { (n : ℕ) → result ≢ Err faults.Memory →
        result ≡ Err (faults.Unfinished n) ↔ (IsShort text.now × (n ≡ length (pieces_of text.now))
        × IsUnfinishedAs Trace plan.now (requests_of script.now.lines) text.now) }
{
    let lines = script.lines.as_slice();
    power_audit(audit_as::<Power>(Form::Trace, alloc, plan, lines, text))
}

/// Audits a text of a script of requests for performance: whether it is that of a history, or of an opening
/// that a fault ended, that the plan and the script allow.
pub fn audit_cppc(
    alloc: Global,
    plan: &CppcPlan,
    script: &CppcScript,
    text: &[u8],
) -> Result<CppcAudit, AuditFault>
    ensures shown { IfOk result (λ a.
        cppc.Shows plan.now (cppc_requests_of script.now.lines) text.now a) }
    ensures whole { result ≢ Err faults.Memory → IsOk result
        ↔ (IsShort text.now × CppcIsWhole plan.now (cppc_requests_of script.now.lines) text.now) }
    ensures long { (b : ℕ) → result ≢ Err faults.Memory →
        result ≡ Err (faults.TooLong b) ↔ ((b ≡ MOST_BYTES) × (MOST_BYTES < length text.now)) }
    ensures wrong { (k : ℕ) → result ≢ Err faults.Memory →
        result ≡ Err (faults.Wrong k)
        ↔ (IsShort text.now × cppc.IsWrong plan.now (cppc_requests_of script.now.lines) text.now k) }
    ensures unfinished { (n : ℕ) → result ≢ Err faults.Memory →
        result ≡ Err (faults.Unfinished n) ↔ (IsShort text.now × (n ≡ length (pieces_of text.now))
        × cppc.IsUnfinished plan.now (cppc_requests_of script.now.lines) text.now) }
{
    let lines = script.lines.as_slice();
    performance_audit(audit_as::<Performance>(Form::History, alloc, plan, lines, text))
}

/// Audits a trace of a running system by a script of requests for performance, as `audit_trace` does.
pub fn audit_cppc_trace(
    alloc: Global,
    plan: &CppcPlan,
    script: &CppcScript,
    text: &[u8],
) -> Result<CppcAudit, AuditFault>
    ensures shown { IfOk result (λ a.
        cppc.ShowsAs Trace plan.now (cppc_requests_of script.now.lines) text.now a) }
    ensures whole { result ≢ Err faults.Memory → IsOk result
        ↔ (IsShort text.now × cppc.IsWholeAs Trace plan.now (cppc_requests_of script.now.lines) text.now) }
    ensures long { (b : ℕ) → result ≢ Err faults.Memory →
        result ≡ Err (faults.TooLong b) ↔ ((b ≡ MOST_BYTES) × (MOST_BYTES < length text.now)) }
    ensures wrong { (k : ℕ) → result ≢ Err faults.Memory →
        result ≡ Err (faults.Wrong k)
        ↔ (IsShort text.now × cppc.IsWrongAs Trace plan.now (cppc_requests_of script.now.lines) text.now k) }
    ensures unfinished { (n : ℕ) → result ≢ Err faults.Memory →
        result ≡ Err (faults.Unfinished n) ↔ (IsShort text.now × (n ≡ length (pieces_of text.now))
        × cppc.IsUnfinishedAs Trace plan.now (cppc_requests_of script.now.lines) text.now) }
{
    let lines = script.lines.as_slice();
    performance_audit(audit_as::<Performance>(Form::Trace, alloc, plan, lines, text))
}
