ghost use Rattle.std.specs.List.{AllByRecursion};
ghost use Rattle.pw_model.specs.History.{StatesRequest};

use crate::scripts::case::Printing;
use crate::scripts::text::put_out;
use pw_base::MemorySink;
use pw_machines::{ANSWER, u32_at};
use pw_model::HistoryEntry;
use pw_plan::Plan;
use pw_script::print_history;
use std::alloc::Global;
use std::str::from_utf8;

/// As many bytes as an output has room for.
const ROOM: u32 = 1 << 22;

/// The text of a history in a sink with room for it.
fn printed(
    alloc: Global,
    plan: &Plan,
    opening: Option<u32>,
    entries: &[HistoryEntry],
) -> Option<MemorySink>
    requires { AllByRecursion (StatesRequest plan.now) entries.now }
{
    let mut sink = MemorySink::new(alloc, ROOM, Vec::new(alloc), ROOM).ok()?;
    print_history(alloc, plan, opening, entries, &mut sink).ok()?;
    Some(sink)
}

/// The calls that fail: this one, or none where it is 0.
fn fails_of(alloc: Global, call: u32) -> Option<Vec<u32>> {
    let mut fails = Vec::new(alloc);
    if call > 0 {
        fails.push(call).ok()?;
    }
    Some(fails)
}

/// `sink ROOM PIECE CALL`: a sink with room for so many bytes, which takes so many in one call and fails
/// at this call.
fn sink_of(alloc: Global, asked: &str) -> Option<MemorySink> {
    let (room, piece) = (u32_at(asked, 1)?, u32_at(asked, 2)?.max(1));
    let fails = fails_of(alloc, u32_at(asked, 3)?)?;
    MemorySink::new(alloc, room, fails, piece).ok()
}

/// How many bytes of the whole text a sink has, where it failed just if these aren't all.
fn count_in(
    alloc: Global,
    plan: &Plan,
    opening: Option<u32>,
    entries: &[HistoryEntry],
    whole: &[u8],
    mut sink: MemorySink,
) -> Option<usize>
    requires { AllByRecursion (StatesRequest plan.now) entries.now }
{
    let is_whole = print_history(alloc, plan, opening, entries, &mut sink).is_ok();
    let count = sink.written().len();
    if !whole.starts_with(sink.written()) || is_whole != (count == whole.len()) {
        return None;
    }
    Some(count)
}

/// Tells of each line `sink ROOM PIECE CALL -> COUNT` how many bytes such a sink has.
fn put_sinks(
    text: &mut String,
    alloc: Global,
    plan: &Plan,
    opening: Option<u32>,
    entries: &[HistoryEntry],
    whole: &[u8],
    lines: &str,
) -> Option<()>
    requires { AllByRecursion (StatesRequest plan.now) entries.now }
{
    for line in lines.lines() {
        if line.starts_with("sink ") {
            let (asked, _) = line.split_once(ANSWER)?;
            let sink = sink_of(alloc, asked)?;
            let count = count_in(alloc, plan, opening, entries, whole, sink)?;
            writeln!(text, "{asked}{ANSWER}{count}").ok()?;
        }
    }
    Some(())
}

fn put_whole(text: &mut String, printing: Printing, whole: &[u8]) -> Option<()> {
    match printing {
        Printing::Nothing => Some(()),
        Printing::Lines => put_out(text, from_utf8(whole).ok()?),
        Printing::Length => {
            let count = whole.len();
            writeln!(text, "length {count}").ok()
        }
    }
}

/// Tells of the text of a history, or of an opening that a fault ended.
pub(crate) fn put_history(
    text: &mut String,
    alloc: Global,
    plan: &Plan,
    opening: Option<u32>,
    entries: &[HistoryEntry],
    printing: Printing,
    lines: &str,
) -> Option<()>
    requires { AllByRecursion (StatesRequest plan.now) entries.now }
{
    let sink = printed(alloc, plan, opening, entries)?;
    let whole = sink.written();
    put_whole(text, printing, whole)?;
    put_sinks(text, alloc, plan, opening, entries, whole, lines)
}
