use crate::played::Played;
use pw_audit::{Audit, AuditFault, audit};
use pw_plan::Plan;
use pw_script::Script;
use std::alloc::Global;
use std::str::from_utf8;

/// The text of a history.
pub(crate) fn put_text(text: &mut String, written: &[u8]) -> Option<()> {
    text.push_str(from_utf8(written).ok()?).ok()
}

/// How many operations the text of a history tells.
pub(crate) fn operations_in(written: &[u8]) -> Option<usize> {
    let lines = from_utf8(written).ok()?.lines();
    Some(lines.filter(|line| line.starts_with("  ")).count())
}

/// How many entries a history has, and how many operations the registers saw.
pub(crate) fn put_counts(text: &mut String, played: &Played) -> Option<()> {
    let (entries, done) = (played.entries, played.operations);
    writeln!(text, "{entries} entries, {done} operations").ok()
}

/// What the audit answered.
fn put_answer(text: &mut String, answer: &Result<Audit, AuditFault>) -> Option<()> {
    match answer {
        Ok(shown) => writeln!(text, "lawful entries {}", shown.entries.as_slice().len()).ok(),
        Err(AuditFault::Wrong { line }) => writeln!(text, "history: line {line}").ok(),
        Err(AuditFault::Unfinished { lines }) => {
            writeln!(text, "history: ends after {lines} lines").ok()
        }
        Err(AuditFault::TooLong { bound }) => {
            writeln!(text, "history: longer than {bound}").ok()
        }
        Err(AuditFault::Memory) => None,
    }
}

/// What the audit answers to the text of a history.
pub(crate) fn put_audit(
    text: &mut String,
    alloc: Global,
    plan: &Plan,
    script: &Script,
    written: &[u8],
) -> Option<()> {
    let answer = audit(alloc, plan, script, written);
    let told = put_answer(text, &answer);
    drop(answer);
    told
}
