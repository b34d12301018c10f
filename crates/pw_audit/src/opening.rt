//! The lines of the opening.
ghost use Rattle.std.specs.Prelude.{◌≡◌, ◌<◌, ◌+◌, ◌^◌, ◌++◌, ◌∷◌, [], ℕ, None, Option, false, length, true, IfErr, IfOk, MatchOption};
ghost use Rattle.pw_text.specs.Lines.{with_feed};
ghost use Rattle.pw_text.specs.Openings.{opened, opening_line};
ghost use Rattle.pw_history.specs.Asked.{Begins};
ghost use Rattle.pw_history.specs.Paths.{ArePaths};
ghost use Rattle.pw_audit.specs.declared.form.Form.TheVariants.{Trace};
ghost use Rattle.pw_audit.specs.inner.Stopping.{HasFirst, LacksFirst, OpeningRead, StopsAtOpening, WithinOpening};

use crate::answer::AuditFault;
use crate::form::Form;
use crate::kind::Audited;
use crate::matching::{pass_ops, strip};
use crate::operations::push_op_line;
use crate::outcome::read_count;
use acpi_values::Op;
use pw_base::Memory;
use pw_text::PathTexts;

/// How the first line of a text says that the opening went, which has so many operations, and what stands
/// behind that line.
fn read_first<'a>(
    line: &mut Vec<u8>,
    count: u32,
    text: &'a [u8],
) -> Result<Option<(Option<u32>, &'a [u8])>, Memory>
    ensures { IfOk result (λ o. MatchOption o ((f : Option ℕ) → WithinOpening count f
        → Begins (with_feed (opening_line f)) text.now → ⊥)
        (λ r. WithinOpening count r.0 × (text.now ≡ with_feed (opening_line r.0) ++ r.1.now))) }
{
    match strip(text, b"open -> register fault after ") {
        None => match strip(text, b"open\n") {
            None => Ok(None),
            Some(rest) => Ok(Some((None, rest))),
        },
        Some(behind) => match read_count(line, count, behind)? {
            None => Ok(None),
            Some((done, rest)) => Ok(Some((Some(done), rest))),
        },
    }
}

/// The operations at the start that were done.
fn opened(ops: &[Op], opening: Option<u32>) -> &[Op]
    requires { WithinOpening (length ops.now) opening }
    ensures { result.now ≡ opened opening ops.now }
{
    match opening {
        None => ops,
        Some(done) => &ops[..done as usize],
    }
}

/// Whether a text doesn't begin with the first of these operations of the opening, if there are any.
fn lacks_first<T: Audited>(
    line: &mut Vec<u8>,
    _plan: &T::Plan,
    paths: &PathTexts,
    ops: &[Op],
    left: &[u8],
) -> Result<bool, Memory>
    requires paths { ArePaths T.words _plan.now paths.now }
    requires ops { ops.now ≡ T.words.opening_ops _plan.now }
    ensures lacks { IfOk result (λ b. b ≡ true → LacksFirst T.words _plan.now left.now) }
    ensures has { IfOk result (λ b. b ≡ false → HasFirst T.words _plan.now left.now) }
{
    match ops.first() {
        None => Ok(false),
        Some(op) => {
            line.clear();
            push_op_line(line, paths, op)?;
            Ok(strip(left, line.as_slice()).is_none())
        }
    }
}

/// Whether a trace left out the operations of the opening, which are these.
fn leaves_out<T: Audited>(
    form: Form,
    opening: Option<u32>,
    line: &mut Vec<u8>,
    plan: &T::Plan,
    paths: &PathTexts,
    ops: &[Op],
    left: &[u8],
) -> Result<bool, Memory>
    requires paths { ArePaths T.words plan.now paths.now }
    requires ops { ops.now ≡ T.words.opening_ops plan.now }
    ensures out { IfOk result (λ b. b ≡ true →
        (form ≡ Trace) × (opening ≡ None) × LacksFirst T.words plan.now left.now) }
    ensures has { IfOk result (λ b. b ≡ false → form ≡ Trace → opening ≡ None
        → HasFirst T.words plan.now left.now) }
{
    match form {
        Form::History => Ok(false),
        Form::Trace => match opening {
            None => lacks_first::<T>(line, plan, paths, ops, left),
            Some(_) => Ok(false),
        },
    }
}

/// How the opening went, which has these operations, as a text says it, what stands behind its lines, and
/// how many lines stand before that.
pub(crate) fn read_opening<'a, T: Audited>(
    form: Form,
    line: &mut Vec<u8>,
    plan: &T::Plan,
    paths: &PathTexts,
    ops: &[Op],
    text: &'a [u8],
) -> Result<(Option<u32>, u32, &'a [u8]), AuditFault>
    requires paths { ArePaths T.words plan.now paths.now }
    requires ops { ops.now ≡ T.words.opening_ops plan.now }
    requires few { length ops.now + 1 < 2 ^ 32 }
    requires short { length text.now + 1 < 2 ^ 32 }
    ensures within { IfOk result (λ r. WithinOpening (length (T.words.opening_ops plan.now)) r.0) }
    ensures read { IfOk result (λ r. OpeningRead T.words form plan.now r.0 text.now r.1 r.2.now) }
    ensures stops { IfErr result (StopsAtOpening T.words form plan.now text.now) }
{
    if text.is_empty() {
        return Err(AuditFault::Unfinished { lines: 0 });
    }
    let Some((opening, rest)) = read_first(line, ops.len() as u32, text)? else {
        return Err(AuditFault::Wrong { line: 1 });
    };
    if leaves_out::<T>(form, opening, line, plan, paths, ops, rest)? {
        return Ok((opening, 1, rest));
    }
    let done = opened(ops, opening);
    let next = pass_ops(line, paths, done, 1, rest)?;
    Ok((opening, 1 + done.len() as u32, next))
}
