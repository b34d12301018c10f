ghost use Rattle.std.specs.Prelude.{◌≡◌, ◌++◌, [], is_ok, true};
ghost use Rattle.std.specs.Prelude.{Err, OnOk};
ghost use Rattle.pw_base.specs.Outside.{GrewByPart, KeepsSink, Rose};
ghost use Rattle.pw_text.specs.Puts.{PutsText};
ghost use Rattle.pw_text.specs.declared.fault.PrintFault.TheVariants as faults;
ghost use Rattle.pw_check.specs.CheckText.{check_text};

use crate::domains::{put_domains, put_groups};
use crate::machine::{put_containers, put_cpus};
use crate::noting::{put_note_count, put_notes};
use acpi_build::Note;
use pw_base::{Failed, Sink};
use pw_plan::Plan;
use pw_text::{Page, PrintFault};
use std::alloc::Global;

/// Puts all lines, by way of a page.
fn put_lines<K: Sink>(
    page: &mut Page,
    sink: &mut K,
    plan: &Plan,
    notes: &[Note],
) -> Result<(), Failed>
    ensures { PutsText K.Sink sink.old sink.new page.old page.new
        (check_text plan.now notes.now) (is_ok result) }
{
    let containers = plan.containers.as_slice();
    put_containers(page, sink, containers)?;
    put_cpus(page, sink, containers, plan.cpus.as_slice())?;
    put_domains(page, sink, plan.domains.as_slice())?;
    put_groups(page, sink, plan.groups.as_slice())?;
    put_notes(page, sink, notes)?;
    put_note_count(page, sink, notes.len())
}

/// Puts all lines, and hands all of them to the sink.
fn put_whole<K: Sink>(
    page: &mut Page,
    sink: &mut K,
    plan: &Plan,
    notes: &[Note],
) -> Result<(), Failed>
    ensures text { PutsText K.Sink sink.old sink.new page.old page.new
        (check_text plan.now notes.now) (is_ok result) }
    ensures empty { OnOk result (page.new ≡ []) }
{
    put_lines(page, sink, plan, notes)?;
    page.flush(sink)
}

/// Puts what `check` prints of a plan and its notes: a line for each container, processor, domain, group
/// and note, and one for the number of notes. Memory is taken before the sink sees a byte.
pub fn print_check<K: Sink>(
    alloc: Global,
    plan: &Plan,
    notes: &[Note],
    out: &mut K,
) -> Result<(), PrintFault>
    ensures keeps { KeepsSink K.told K.faults out.old out.new }
    ensures whole { OnOk result (K.told out.old ≡ true →
        K.written out.new ≡ K.written out.old ++ check_text plan.now notes.now) }
    // Whatever fails, the sink has a beginning of the text.
    ensures part { K.told out.old ≡ true →
        GrewByPart (K.written out.old) (K.written out.new) (check_text plan.now notes.now) }
    ensures sink { result ≡ Err faults.Sink → Rose (K.faults out.old) (K.faults out.new) }
    ensures memory { result ≡ Err faults.Memory → out.new ≡ out.old }
{
    let mut page = Page::new(alloc)?;
    put_whole(&mut page, out, plan, notes)?;
    Ok(())
}
