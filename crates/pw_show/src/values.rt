ghost use Rattle.std.specs.Prelude.{◌≡◌, ◌++◌, codes, decimal, map, is_ok};
ghost use Rattle.pw_text.specs.Puts.{PutsText};
ghost use Rattle.pw_show.specs.Values.{separated, behind, braced, value_text};

use crate::buffers::put_buffer;
use crate::strings::put_string;
use aml_data::Data;
use pw_base::{Failed, Sink};
use pw_text::{Page, put_number, put_path};

/// Puts a data object.
#[cycle(values)]
#[tactic(auto, using(crate::proofs::Layers::layers))]
pub fn put_value<K: Sink>(page: &mut Page, sink: &mut K, value: &Data) -> Result<(), Failed>
    ensures { PutsText K.Sink sink.old sink.new page.old page.new
        (value_text value.now) (is_ok result) }
{
    match value {
        Data::Int(number) => put_number(page, sink, *number),
        Data::Ones => page.put(sink, b"Ones"),
        Data::Revision => page.put(sink, b"Revision"),
        Data::Text(text) => put_string(page, sink, text.as_slice()),
        Data::Buffer(buffer) => {
            let buffer = buffer.get();
            put_buffer(page, sink, buffer.size, buffer.bytes.as_slice())
        }
        Data::Package { count, elements } => {
            put_package(
                page,
                sink,
                b"Package(",
                u64::from(*count),
                elements.as_slice(),
            )
        }
        Data::VarPackage(counted) => {
            let counted = counted.get();
            let elements = counted.elements.as_slice();
            put_package(page, sink, b"VarPackage(", counted.count, elements)
        }
        Data::Path(path) => put_path(page, sink, path.get()),
    }
}

#[cycle(values)]
fn put_package<K: Sink>(
    page: &mut Page,
    sink: &mut K,
    word: &[u8],
    count: u64,
    elements: &[Data],
) -> Result<(), Failed>
    ensures { PutsText K.Sink sink.old sink.new page.old page.new
        (braced word.now count (separated (codes ", ") (map value_text elements.now))) (is_ok result) }
{
    put_head(page, sink, word, count)?;
    put_elements(page, sink, elements)?;
    page.put(sink, b"}")
}

#[cycle(values)]
fn put_elements<K: Sink>(page: &mut Page, sink: &mut K, elements: &[Data]) -> Result<(), Failed>
    ensures { PutsText K.Sink sink.old sink.new page.old page.new
        (separated (codes ", ") (map value_text elements.now)) (is_ok result) }
{
    let Some((first, rest)) = elements.split_first() else {
        return Ok(());
    };
    put_value(page, sink, first)?;
    for element in rest {
        put_behind_comma(page, sink, element)?;
    }
    Ok(())
}

#[cycle(values)]
fn put_behind_comma<K: Sink>(page: &mut Page, sink: &mut K, element: &Data) -> Result<(), Failed>
    ensures { PutsText K.Sink sink.old sink.new page.old page.new
        (behind (codes ", ") (value_text element.now)) (is_ok result) }
{
    page.put(sink, b", ")?;
    put_value(page, sink, element)
}

/// Puts the front of what stands in braces: a word, and a count in parentheses.
pub fn put_head<K: Sink>(
    page: &mut Page,
    sink: &mut K,
    word: &[u8],
    count: u64,
) -> Result<(), Failed>
    ensures { PutsText K.Sink sink.old sink.new page.old page.new
        (word.now ++ decimal count ++ codes ") {") (is_ok result) }
{
    page.put(sink, word)?;
    put_number(page, sink, count)?;
    page.put(sink, b") {")
}
