//! Texts that begin with others.
ghost use Rattle.std.specs.Prelude.{◌≡◌, ◌<◌, ◌+◌, ◌^◌, ◌∷◌, ◌++◌, ℕ, List, length, map, IfErr, IfOk, MatchOption};
ghost use Rattle.pw_text.specs.Lines.{text_of};
ghost use Rattle.pw_text.specs.HistoryText.{op_line_by};
ghost use Rattle.pw_text.specs.Paths.{text_at};
ghost use Rattle.pw_history.specs.Asked.{Begins};
ghost use Rattle.pw_audit.specs.inner.Looking.{IsWord};
ghost use Rattle.pw_audit.specs.inner.Stopping.{MissesLine, StopsIn};

use crate::answer::AuditFault;
use crate::operations::push_op_line;
use acpi_values::Op;
use pw_text::PathTexts;

/// What follows a text at the start of another, if that begins with it.
pub(crate) fn strip<'a>(left: &'a [u8], text: &[u8]) -> Option<&'a [u8]>
    ensures { MatchOption result (Begins text.now left.now → ⊥) (λ rest. left.now ≡ text.now ++ rest.now) }
{
    left.strip_prefix(text)
}

/// The bytes up to the first space, and what stands behind it.
pub(crate) fn word(bytes: &[u8]) -> (&[u8], &[u8])
    ensures { (w rest : List ℕ) → IsWord w → bytes.now ≡ w ++ 32 ∷ rest → (result.0.now ≡ w)
        × (result.1.now ≡ rest) }
{
    for (index, byte) in bytes.iter().enumerate() {
        if *byte == b' ' {
            return (&bytes[..index], &bytes[index + 1..]);
        }
    }
    (bytes, &[])
}

/// Passes over a line that should come behind so many, its line feed included.
fn pass<'a>(line: &[u8], passed: u32, left: &'a [u8]) -> Result<&'a [u8], AuditFault>
    requires { passed + length left.now < 2 ^ 32 }
    ensures ok { IfOk result (λ rest. left.now ≡ line.now ++ rest.now) }
    ensures stops { IfErr result (MissesLine line.now passed left.now) }
{
    match strip(left, line) {
        Some(rest) => Ok(rest),
        None => {
            if left.is_empty() {
                return Err(AuditFault::Unfinished { lines: passed });
            }
            Err(AuditFault::Wrong { line: passed + 1 })
        }
    }
}

/// Passes over the lines of operations, which should come behind so many lines.
pub(crate) fn pass_ops<'a>(
    line: &mut Vec<u8>,
    paths: &PathTexts,
    ops: &[Op],
    before: u32,
    left: &'a [u8],
) -> Result<&'a [u8], AuditFault>
    requires { before + length left.now < 2 ^ 32 }
    ensures ok { IfOk result (λ rest.
        left.now ≡ text_of (map (op_line_by (text_at paths.now)) ops.now) ++ rest.now) }
    ensures stops { IfErr result (StopsIn (map (op_line_by (text_at paths.now)) ops.now) before left.now) }
{
    let mut rest = left;
    let mut passed = before;
    for op in ops {
        line.clear();
        push_op_line(line, paths, op)?;
        rest = pass(line.as_slice(), passed, rest)?;
        passed += 1;
    }
    Ok(rest)
}
