ghost use Rattle.std.specs.Prelude.{◌≡◌, ◌∷◌, [], codes, decimal, is_ok};
ghost use Rattle.pw_text.specs.Lines.{line_of};
ghost use Rattle.pw_text.specs.Puts.{PutsText};
ghost use Rattle.pw_text.specs.Text.{place_text};
ghost use Rattle.pw_check.specs.Numbers.{pair_text};
ghost use Rattle.pw_check.specs.Refusals.{limit_word, refusal_line, why_word};

use crate::names::{limit_name, why_name};
use crate::words::{put_labelled, put_named, put_pair, put_word};
use acpi_build::BuildFault;
use acpi_values::{Place, Why};
use aml_data::Seg;
use pw_base::{Failed, Sink};
use pw_text::Page;

/// Puts the line of an object that means nothing at a place.
fn put_meaningless<K: Sink>(
    page: &mut Page,
    sink: &mut K,
    path: &[Seg],
    place: Place,
    why: Why,
) -> Result<(), Failed>
    ensures { PutsText K.Sink sink.old sink.new page.old page.new
        (line_of (codes "object:" ∷ place_text path.now ∷ codes "at" ∷ pair_text place.outer place.inner
        ∷ why_word why ∷ [])) (is_ok result) }
{
    put_named(page, sink, b"object: ", path)?;
    put_pair(page, sink, b" at ", place.outer, place.inner)?;
    put_word(page, sink, why_name(why))?;
    page.put(sink, b"\n")
}

/// Puts the line of a limit that is passed by this number.
fn put_limit<K: Sink>(page: &mut Page, sink: &mut K, which: u8, number: u32) -> Result<(), Failed>
    ensures { PutsText K.Sink sink.old sink.new page.old page.new
        (line_of (codes "limit:" ∷ limit_word which ∷ decimal number ∷ [])) (is_ok result) }
{
    page.put(sink, b"limit:")?;
    put_word(page, sink, limit_name(which))?;
    put_labelled(page, sink, b" ", number)?;
    page.put(sink, b"\n")
}

/// Puts the line that says why objects make no plan. It takes no memory.
pub fn put_refusal<K: Sink>(page: &mut Page, sink: &mut K, fault: &BuildFault) -> Result<(), Failed>
    ensures { PutsText K.Sink sink.old sink.new page.old page.new
        (refusal_line fault.now) (is_ok result) }
{
    match fault {
        BuildFault::Object { path, place, why } => put_meaningless(
            page,
            sink,
            path.segs.as_slice(),
            *place,
            *why,
        ),
        BuildFault::Limit { which, number } => put_limit(page, sink, *which, *number),
        BuildFault::Memory => page.put(sink, b"no memory\n"),
    }
}
