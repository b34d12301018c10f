ghost use Rattle.std.specs.Prelude.{IfErr, IfOk, map};
ghost use Rattle.pw_base.specs.Outside.{KeepsFiles};
ghost use Rattle.pw_base.specs.Seen.{files_seen};
ghost use Rattle.pw_runs.specs.Texts.{HoldText, IsText};
ghost use Rattle.pw_runs.specs.inner.AuditParts.{IsWhyNone, IsWhyUnlawful};

use aml_block::{FileFault, read_all};
use pw_audit::{AuditFault, Audited, Form, MOST_BYTES, audit_as};
use pw_base::Files;
use std::alloc::Global;

/// Why a history isn't lawful.
#[derive(Clone, Copy)]
pub enum Unlawful {
    /// Its file couldn't be read.
    Unread,
    /// Its bytes are none of the script, or memory ran out.
    Fault(AuditFault),
}

/// How many entries the history has whose whole text, in this form, these bytes are.
fn count_entries<T: Audited>(
    form: Form,
    alloc: Global,
    bytes: &[u8],
    plan: &T::Plan,
    lines: &[T::Line],
) -> Result<usize, Unlawful>
    ensures whole { IfOk result (λ n. IsText T.words form plan.now (map T.ask lines.now) bytes.now n) }
    ensures none { IfErr result (IsWhyNone T.words form plan.now (map T.ask lines.now) bytes.now) }
{
    match audit_as::<T>(form, alloc, plan, lines, bytes) {
        Ok((_opening, entries)) => Ok(entries.as_slice().len()),
        Err(fault) => Err(Unlawful::Fault(fault)),
    }
}

/// How many entries the history has that is in the file of this name. Of a file that is too long one
/// byte too many is read.
pub fn read_history<T: Audited, F: Files>(
    form: Form,
    alloc: Global,
    files: &mut F,
    name: &str,
    plan: &T::Plan,
    lines: &[T::Line],
) -> Result<usize, Unlawful>
    ensures keeps { KeepsFiles F.told F.holds F.faults files.old files.new }
    ensures held { IfOk result (λ n. HoldText T.words form (files_seen F.Files files.old) name.now
        plan.now (map T.ask lines.now) n) }
    ensures unlawful { IfErr result
        (λ why. IsWhyUnlawful T.words form (files_seen F.Files files.old) (files_seen F.Files files.new)
        name.now plan.now (map T.ask lines.now) why) }
{
    match read_all(alloc, files, name, MOST_BYTES as usize + 1) {
        Err(FileFault::ReadFault) => Err(Unlawful::Unread),
        Err(FileFault::Memory) => Err(Unlawful::Fault(AuditFault::Memory)),
        Ok(bytes) => count_entries::<T>(form, alloc, &bytes, plan, lines),
    }
}
