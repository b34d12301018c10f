ghost use Rattle.std.specs.Prelude.{IsTrue};
ghost use Rattle.pw_model.specs.History.{Faultless, Legal};

use pw_base::MemorySink;
use pw_generate::print_summary;
use pw_model::HistoryEntry;
use pw_plan::Plan;
use pw_regs::FailingRegisters;
use pw_script::print_history;
use std::alloc::Global;

/// As many bytes as a text has room for.
const ROOM: u32 = 1 << 20;

/// As many bytes as a summary has room for.
const SUMMARY_ROOM: u32 = 1 << 12;

/// What came of a run.
#[derive(Drop)]
pub(crate) struct Played {
    /// The text of the history.
    pub(crate) text: MemorySink,
    /// Its summary, where no register failed.
    pub(crate) summary: Option<MemorySink>,
    /// How many entries the history has.
    pub(crate) entries: usize,
    /// How many operations the registers saw.
    pub(crate) operations: usize,
}

fn sink(alloc: Global, room: u32) -> Option<MemorySink> {
    MemorySink::new(alloc, room, Vec::new(alloc), ROOM).ok()
}

/// Whether no entry is a fault.
fn is_faultless(entries: &[HistoryEntry]) -> bool
    ensures { IsTrue result → Faultless entries.now }
{
    let mut left = entries;
    while let [entry, rest @ ..] = left {
        if entry.fault != 0 {
            return false;
        }
        left = rest;
    }
    true
}

fn text_of(
    alloc: Global,
    plan: &Plan,
    opening: Option<u32>,
    entries: &[HistoryEntry],
) -> Option<MemorySink>
    requires { Legal plan.now entries.now }
{
    let mut text = sink(alloc, ROOM)?;
    print_history(alloc, plan, opening, entries, &mut text).ok()?;
    Some(text)
}

fn summary_of(
    alloc: Global,
    plan: &Plan,
    opening: Option<u32>,
    entries: &[HistoryEntry],
) -> Option<MemorySink>
    requires { Legal plan.now entries.now }
{
    if opening.is_some() || !is_faultless(entries) {
        return None;
    }
    let mut text = sink(alloc, SUMMARY_ROOM)?;
    print_summary(alloc, plan, entries, &mut text).ok()?;
    Some(text)
}

/// What came of a run with this history, which left these registers.
pub(crate) fn told(
    alloc: Global,
    plan: &Plan,
    opening: Option<u32>,
    entries: &[HistoryEntry],
    regs: &FailingRegisters,
) -> Option<Played>
    requires { Legal plan.now entries.now }
{
    Some(Played {
        text: text_of(alloc, plan, opening, entries)?,
        summary: summary_of(alloc, plan, opening, entries),
        entries: entries.len(),
        operations: regs.log().len(),
    })
}
