ghost use Rattle.std.specs.Prelude.{◌≡◌, ◌∷◌, is_ok};
ghost use Rattle.std.specs.List.{flat_map};
ghost use Rattle.pw_text.specs.Puts.{PutsText};
ghost use Rattle.pw_check.specs.CheckText.{count_line, note_line, note_text};

use crate::words::{put_count, put_labelled, put_named};
use acpi_build::{Note, NoteKind};
use pw_base::{Failed, Sink};
use pw_text::Page;

/// Puts what a note says, behind a space.
fn put_note_text<K: Sink>(page: &mut Page, sink: &mut K, kind: NoteKind) -> Result<(), Failed>
    ensures { PutsText K.Sink sink.old sink.new page.old page.new
        (32 ∷ note_text kind) (is_ok result) }
{
    match kind {
        NoteKind::ByMethod => page.put(sink, b" by method"),
        NoteKind::ByAlias => page.put(sink, b" by alias"),
        NoteKind::Empty => page.put(sink, b" empty"),
        NoteKind::Ignored => page.put(sink, b" ignored"),
        NoteKind::NoSuchState => page.put(sink, b" no such state"),
        NoteKind::UnfitDomain { domain } => put_labelled(page, sink, b" unfit domain ", domain),
    }
}

/// Puts the line of a note.
fn put_note<K: Sink>(page: &mut Page, sink: &mut K, note: &Note) -> Result<(), Failed>
    ensures { PutsText K.Sink sink.old sink.new page.old page.new
        (note_line note.now) (is_ok result) }
{
    put_named(page, sink, b"note ", note.path.segs.as_slice())?;
    put_note_text(page, sink, note.kind)?;
    page.put(sink, b"\n")
}

/// Puts the lines of notes, in order.
pub fn put_notes<K: Sink>(page: &mut Page, sink: &mut K, notes: &[Note]) -> Result<(), Failed>
    ensures { PutsText K.Sink sink.old sink.new page.old page.new
        (flat_map note_line notes.now) (is_ok result) }
{
    for note in notes {
        put_note(page, sink, note)?;
    }
    Ok(())
}

/// Puts the line that says how many notes there are.
pub fn put_note_count<K: Sink>(page: &mut Page, sink: &mut K, count: usize) -> Result<(), Failed>
    ensures { PutsText K.Sink sink.old sink.new page.old page.new
        (count_line count) (is_ok result) }
{
    put_count(page, sink, b"notes ", count)?;
    page.put(sink, b"\n")
}
