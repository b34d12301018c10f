ghost use Rattle.std.specs.Prelude.{◌≡◌, map};
ghost use Rattle.std.specs.List.{AllByRecursion};
ghost use Rattle.pw_model.specs.History.{WellFormed};
ghost use Rattle.pw_script.specs.HistoryText.{history_text};
ghost use Rattle.pw_script.specs.Telling.{HasSegments, IsNarrow, IsNarrowFault, unseated};

use pw_history::segments_known;
use pw_model::HistoryEntry;
use pw_plan::Plan;

/// Each plan has paths of segments.
pub fn plans_have_segments(plan: &Plan)
    ensures { HasSegments plan.now }
{
    let mut left = plan.cpus.as_slice();
    while let [cpu, rest @ ..] = left {
        segments_known(cpu.path.segs.as_slice());
        left = rest;
    }
}

/// The numbers of an entry are of 32 bits.
fn entry_known(entry: &HistoryEntry)
    ensures { IsNarrow entry.now }
{
    let _argument = entry.argument;
    let _tolerance = entry.tolerance;
    let _fault = entry.fault;
}

/// The numbers of entries are of 32 bits.
pub fn entries_are_narrow(entries: &[HistoryEntry])
    ensures { AllByRecursion IsNarrow entries.now }
{
    let mut left = entries;
    while let [entry, rest @ ..] = left {
        entry_known(entry);
        left = rest;
    }
}

/// The number of operations before a fault is of 32 bits.
fn fault_known(fault: Option<u32>)
    ensures { IsNarrowFault fault }
{
    match fault {
        None => {}
        Some(_) => {}
    }
}

/// The printed text of a history tells how the opening went, and every entry but for who made it: of
/// the values of these types nothing need be said of paths and numbers.
pub fn text_tells_history(
    plan: &Plan,
    a: Option<u32>,
    b: Option<u32>,
    these: &[HistoryEntry],
    those: &[HistoryEntry],
)
    ensures { WellFormed plan.now these.now → WellFormed plan.now those.now
        → history_text plan.now a these.now ≡ history_text plan.now b those.now
        → (a ≡ b) × (map unseated these.now ≡ map unseated those.now) }
{
    plans_have_segments(plan);
    fault_known(a);
    fault_known(b);
    entries_are_narrow(these);
    entries_are_narrow(those);
}
