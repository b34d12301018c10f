ghost use Rattle.std.specs.Prelude.{◌≡◌, ◌++◌, ◌∷◌, [], decimal, is_ok, length, true};
ghost use Rattle.std.specs.Prelude.{Err, IfOk, IfSome, OnOk};
ghost use Rattle.pw_base.specs.Outside.{GrewByPart, KeepsSink, Rose};
ghost use Rattle.pw_text.specs.Lines.{text_of};
ghost use Rattle.pw_text.specs.Puts.{PutsText};
ghost use Rattle.pw_text.specs.declared.fault.PrintFault.TheVariants as faults;
ghost use Rattle.pw_model.specs.States.{IsState, opening};
ghost use Rattle.pw_model.specs.History.{Faultless, Legal, replay, replies};
ghost use Rattle.pw_generate.specs.Summary.{summary_text};
ghost use Rattle.pw_generate.specs.inner.Counting.{counted, none, reply_lines, size_lines};

use crate::counts::{Counts, count_replies};
use crate::ends::put_ends;
use pw_base::{Failed, Memory, Sink};
use pw_core::State;
use pw_model::{HistoryEntry, Reply, State as Lists};
use pw_plan::Plan;
use pw_text::{Page, PrintFault, put_number};
use std::alloc::Global;

/// Puts the line of a number behind its label.
fn put_line<K: Sink>(page: &mut Page, sink: &mut K, label: &[u8], number: u64) -> Result<(), Failed>
    ensures { PutsText K.Sink sink.old sink.new page.old page.new
        (label.now ++ (decimal number ++ 10 ∷ [])) (is_ok result) }
{
    page.put(sink, label)?;
    put_number(page, sink, number)?;
    page.put(sink, b"\n")
}

/// Puts how many processors and lines there are.
fn put_sizes<K: Sink>(
    page: &mut Page,
    sink: &mut K,
    plan: &Plan,
    entries: &[HistoryEntry],
) -> Result<(), Failed>
    ensures { PutsText K.Sink sink.old sink.new page.old page.new
        (text_of (size_lines (length plan.now.cpus) (length entries.now))) (is_ok result) }
{
    put_line(
        page,
        sink,
        b"processors ",
        plan.cpus.as_slice().len() as u64,
    )?;
    put_line(page, sink, b"lines ", entries.len() as u64)
}

/// Puts how many requests were answered in which way.
fn put_counts<K: Sink>(page: &mut Page, sink: &mut K, counts: &Counts) -> Result<(), Failed>
    ensures { PutsText K.Sink sink.old sink.new page.old page.new
        (text_of (reply_lines counts.now)) (is_ok result) }
{
    put_line(page, sink, b"entered ", counts.entered)?;
    put_line(page, sink, b"running ", counts.running)?;
    put_line(page, sink, b"stands ", counts.stands)?;
    put_line(page, sink, b"refused ", counts.refused)
}

/// Puts a summary by way of a page, and hands all of it to the sink: that of entries which were answered so
/// and left this state.
fn put_summary<K: Sink>(
    page: &mut Page,
    sink: &mut K,
    plan: &Plan,
    entries: &[HistoryEntry],
    counts: &Counts,
    state: &Lists,
) -> Result<(), Failed>
    requires counts { counts.now ≡ counted none (replies plan.now entries.now) }
    requires state { state.now ≡ replay plan.now entries.now }
    requires fits { IsState plan.now state.now }
    ensures text { PutsText K.Sink sink.old sink.new page.old page.new
        (summary_text plan.now entries.now) (is_ok result) }
    ensures empty { OnOk result (page.new ≡ []) }
{
    put_sizes(page, sink, plan, entries)?;
    put_counts(page, sink, counts)?;
    put_ends(page, sink, plan, state)?;
    page.flush(sink)
}

/// What a summary takes memory for.
#[derive(Drop)]
struct Held {
    page: Page,
    state: State,
}

/// Takes it: the page is empty, and the state is that of the opening.
fn hold(alloc: Global, plan: &Plan) -> Result<Held, Memory>
    ensures page { IfOk result (λ h. h.page ≡ []) }
    ensures opened { IfOk result (λ h. h.state ≡ opening plan.now) }
    ensures fits { IfOk result (λ h. IsState plan.now h.state) }
{
    Ok(Held {
        page: Page::new(alloc)?,
        state: State::open(alloc, plan)?,
    })
}

/// Prints the summary of a history as `print_summary` does, with the replies to its entries where they are
/// known: then they aren't worked out again.
#[tactic(auto, unfolding(pw_kind::specs::History::replay, pw_kind::specs::History::replies))]
pub fn print_summary_known<K: Sink>(
    alloc: Global,
    plan: &Plan,
    entries: &[HistoryEntry],
    known: Option<&[Reply]>,
    out: &mut K,
) -> Result<(), PrintFault>
    requires legal { Legal plan.now entries.now }
    requires faultless { Faultless entries.now }
    requires known { IfSome known (λ told. told.now ≡ replies plan.now entries.now) }
    ensures keeps { KeepsSink K.told K.faults out.old out.new }
    ensures whole { OnOk result (K.told out.old ≡ true →
        K.written out.new ≡ K.written out.old ++ summary_text plan.now entries.now) }
    // Whatever fails, the sink has a beginning of the text.
    ensures part { K.told out.old ≡ true →
        GrewByPart (K.written out.old) (K.written out.new) (summary_text plan.now entries.now) }
    ensures sink { result ≡ Err faults.Sink → Rose (K.faults out.old) (K.faults out.new) }
    ensures memory { result ≡ Err faults.Memory → out.new ≡ out.old }
{
    let Held {
        mut page,
        mut state,
    } = hold(alloc, plan)?;
    let counts = count_replies(plan, &mut state, entries, known);
    put_summary(&mut page, out, plan, entries, &counts, state.lists())?;
    Ok(())
}

/// Prints the summary of a history: how many processors and lines there are, how many requests were answered
/// in which way, the state of each container at the end, and where each performance domain stands. Memory is
/// taken before the sink sees a byte.
pub fn print_summary<K: Sink>(
    alloc: Global,
    plan: &Plan,
    entries: &[HistoryEntry],
    out: &mut K,
) -> Result<(), PrintFault>
    requires legal { Legal plan.now entries.now }
    requires faultless { Faultless entries.now }
    ensures keeps { KeepsSink K.told K.faults out.old out.new }
    ensures whole { OnOk result (K.told out.old ≡ true →
        K.written out.new ≡ K.written out.old ++ summary_text plan.now entries.now) }
    // Whatever fails, the sink has a beginning of the text.
    ensures part { K.told out.old ≡ true →
        GrewByPart (K.written out.old) (K.written out.new) (summary_text plan.now entries.now) }
    ensures sink { result ≡ Err faults.Sink → Rose (K.faults out.old) (K.faults out.new) }
    ensures memory { result ≡ Err faults.Memory → out.new ≡ out.old }
{
    print_summary_known(alloc, plan, entries, None, out)
}
