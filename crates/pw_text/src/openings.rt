ghost use Rattle.std.specs.Prelude.{◌≡◌, is_ok, take};
ghost use Rattle.pw_text.specs.Lines.{text_of};
ghost use Rattle.pw_text.specs.Puts.{PutsText};
ghost use Rattle.pw_text.specs.HistoryText.{op_line_by, opened_lines};
ghost use Rattle.pw_text.specs.Openings.{opened, opening_line};
ghost use Rattle.pw_text.specs.Paths.{text_at};

use crate::operations::put_ops;
use crate::page::Page;
use crate::path_texts::PathTexts;
use crate::words::put_labelled;
use acpi_values::Op;
use pw_base::{Failed, Sink};

/// So many first operations, all where there are fewer.
#[tactic(auto, using(crate::proofs::Spacing::take_of_least))]
pub fn first_of(ops: &[Op], count: u32) -> &[Op]
    ensures { result.now ≡ take count ops.now }
{
    let count = (count as usize).min(ops.len());
    &ops[..count]
}

/// Puts that the plan was opened, or how many operations were done when a register failed.
pub fn put_open_line<K: Sink>(
    page: &mut Page,
    sink: &mut K,
    opening: Option<u32>,
) -> Result<(), Failed>
    ensures { PutsText K.Sink sink.old sink.new page.old page.new
        (opening_line opening) (is_ok result) }
{
    match opening {
        None => page.put(sink, b"open"),
        Some(done) => put_labelled(page, sink, b"open -> register fault after ", done),
    }
}

/// The operations at the start that were done.
pub fn opened(ops: &[Op], opening: Option<u32>) -> &[Op]
    ensures { result.now ≡ opened opening ops.now }
{
    match opening {
        None => ops,
        Some(done) => first_of(ops, done),
    }
}

/// Puts the lines of an opening of these operations: its first line, and the operations that were done.
pub fn put_opened<K: Sink>(
    page: &mut Page,
    sink: &mut K,
    paths: &PathTexts,
    opening: Option<u32>,
    ops: &[Op],
) -> Result<(), Failed>
    ensures { PutsText K.Sink sink.old sink.new page.old page.new
        (text_of (opened_lines (op_line_by (text_at paths.now)) ops.now opening)) (is_ok result) }
{
    put_open_line(page, sink, opening)?;
    page.put(sink, b"\n")?;
    put_ops(page, sink, paths, opened(ops, opening))
}
