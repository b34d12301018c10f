use crate::scripts::case::{Case, Printing, Reading};
use crate::scripts::entries::entries_of;
use crate::scripts::history::put_history;
use crate::scripts::reading::parse_with;
use crate::scripts::text::{put_fault, put_lines};
use crate::well;
use pw_plan::Plan;
use pw_script::Line;
use std::alloc::Global;

/// Tells how a script is read.
fn put_reading(text: &mut String, reading: Reading, lines: &[Line]) -> Option<()> {
    match reading {
        Reading::Nothing => Some(()),
        Reading::Lines => put_lines(text, lines),
        Reading::Count => {
            let count = lines.len();
            writeln!(text, "count {count}").ok()
        }
    }
}

/// Tells what comes of the lines of a script.
fn put_script(
    text: &mut String,
    alloc: Global,
    plan: &Plan,
    case: &Case,
    asked: &[Line],
    lines: &str,
) -> Option<()> {
    put_reading(text, case.reading, asked)?;
    if matches!(case.printing, Printing::Nothing) {
        return Some(());
    }
    let entries = entries_of(alloc, plan, asked, case.fault)?;
    put_history(
        text,
        alloc,
        plan,
        case.opening,
        entries.as_slice(),
        case.printing,
        lines,
    )
}

/// Tells what comes of a case.
fn tell(text: &mut String, alloc: Global, plan: &Plan, case: &Case, lines: &str) -> Option<()> {
    match parse_with(alloc, case.script.as_slice(), plan, case.functions) {
        Ok(script) => put_script(text, alloc, plan, case, script.lines.as_slice(), lines),
        Err(fault) => put_fault(text, fault),
    }
}

/// What is told of a case.
fn told(alloc: Global, plan: &Plan, case: &Case, lines: &str) -> Option<String> {
    let mut text = String::new(alloc);
    tell(&mut text, alloc, plan, case, lines)?;
    Some(text)
}

/// Reads a case, which says what it must be, and compares what is told of it.
fn compared(alloc: Global, plan: &Plan, case: &mut Case, lines: &str) -> Option<String> {
    case.read_all(alloc, lines)?;
    if case.wanted.is_empty() {
        return None;
    }
    let told = told(alloc, plan, case, lines)?;
    if told.as_str() == case.wanted.as_str() {
        return well(alloc);
    }
    Some(told)
}

/// What comes of the lines of a case: `as it must be`, or what else.
pub(crate) fn came(alloc: Global, plan: &Plan, lines: &str) -> Option<String> {
    let mut case = Case::new(alloc);
    let came = compared(alloc, plan, &mut case, lines);
    drop(case);
    came
}
