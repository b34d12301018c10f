ghost use Rattle.std.specs.Prelude.{◌≡◌, ◌++◌, codes, decimal, is_ok, map};
ghost use Rattle.std.specs.List.{join_with_byte};
ghost use Rattle.serde_json.specs.Written.{compact_text};
ghost use Rattle.pw_text.specs.Puts.{PutsText};
ghost use Rattle.pw_show.specs.Json.{element_json, package_json, told};
ghost use Rattle.pw_show.specs.inner.Pieces.{element_text, kind_text};
ghost use Rattle.pw_show.specs.inner.Putting.{PutsUnlessMemory, SinkAlone, comma_before};

use crate::json_buffers::put_json_buffer;
use crate::json_paths::put_json_path;
use crate::json_strings::put_characters;
use aml_data::Data;
use pw_base::{Failed, Sink};
use pw_text::{Page, PrintFault, put_number};
use std::alloc::Global;

/// The front of a data object as JSON, which tells its kind.
pub fn kind_of(value: &Data) -> &'static [u8]
    ensures { result.now ≡ kind_text (told value.now).kind }
{
    match value {
        Data::Int(_) => b"{\"kind\":\"integer\"",
        Data::Ones => b"{\"kind\":\"ones\"",
        Data::Revision => b"{\"kind\":\"revision\"",
        Data::Text(_) => b"{\"kind\":\"string\"",
        Data::Buffer(_) => b"{\"kind\":\"buffer\"",
        Data::Package { .. } => b"{\"kind\":\"package\"",
        Data::VarPackage(_) => b"{\"kind\":\"varpackage\"",
        Data::Path(_) => b"{\"kind\":\"path\"",
    }
}

/// Puts the value of a data object as JSON, piece by piece. Memory is taken for a piece of a string alone.
#[cycle(values)]
#[tactic(auto, using(crate::proofs::Told::tellings))]
pub fn put_told<K: Sink>(
    alloc: Global,
    page: &mut Page,
    sink: &mut K,
    value: &Data,
) -> Result<(), PrintFault>
    ensures { PutsUnlessMemory K.Sink sink.old sink.new page.old page.new
        (compact_text (told value.now).value) result }
{
    match value {
        Data::Int(number) => without_memory(put_number(page, sink, *number)),
        Data::Ones | Data::Revision => without_memory(page.put(sink, b"null")),
        Data::Text(text) => put_characters(alloc, page, sink, text.as_slice()),
        Data::Buffer(buffer) => {
            let buffer = buffer.get();
            without_memory(put_json_buffer(page, sink, buffer.size, buffer.bytes.as_slice()))
        }
        Data::Package { count, elements } => {
            put_package(alloc, page, sink, u64::from(*count), elements.as_slice())
        }
        Data::VarPackage(counted) => {
            let counted = counted.get();
            put_package(
                alloc,
                page,
                sink,
                counted.count,
                counted.elements.as_slice(),
            )
        }
        Data::Path(path) => without_memory(put_json_path(page, sink, path.get())),
    }
}

#[cycle(values)]
fn put_package<K: Sink>(
    alloc: Global,
    page: &mut Page,
    sink: &mut K,
    count: u64,
    elements: &[Data],
) -> Result<(), PrintFault>
    ensures { PutsUnlessMemory K.Sink sink.old sink.new page.old page.new
        (compact_text (package_json count (map element_json (map told elements.now)))) result }
{
    put_count(page, sink, count)?;
    put_elements(alloc, page, sink, elements)?;
    page.put(sink, b"]}")?;
    Ok(())
}

#[cycle(values)]
fn put_elements<K: Sink>(
    alloc: Global,
    page: &mut Page,
    sink: &mut K,
    elements: &[Data],
) -> Result<(), PrintFault>
    ensures { PutsUnlessMemory K.Sink sink.old sink.new page.old page.new
        (join_with_byte 44 (map (λ v. element_text (told v)) elements.now)) result }
{
    for (index, element) in elements.iter().enumerate() {
        put_element(alloc, page, sink, index, element)?;
    }
    Ok(())
}

/// Puts an element, behind a comma unless it is the first.
#[cycle(values)]
fn put_element<K: Sink>(
    alloc: Global,
    page: &mut Page,
    sink: &mut K,
    index: usize,
    element: &Data,
) -> Result<(), PrintFault>
    ensures { PutsUnlessMemory K.Sink sink.old sink.new page.old page.new
        (comma_before index ++ element_text (told element.now)) result }
{
    put_front(page, sink, index, kind_of(element), b",\"value\":")?;
    put_told(alloc, page, sink, element)?;
    page.put(sink, b"}")?;
    Ok(())
}

/// Puts what stands before the elements of a package.
fn put_count<K: Sink>(page: &mut Page, sink: &mut K, count: u64) -> Result<(), Failed>
    ensures { PutsText K.Sink sink.old sink.new page.old page.new
        (codes "{\"count\":" ++ (decimal count ++ codes ",\"elements\":[")) (is_ok result) }
{
    page.put(sink, b"{\"count\":")?;
    put_number(page, sink, count)?;
    page.put(sink, b",\"elements\":[")
}

/// Puts the front of an object as JSON, behind a comma unless it is the first: its kind and the key of what
/// comes.
pub fn put_front<K: Sink>(
    page: &mut Page,
    sink: &mut K,
    index: usize,
    kind: &[u8],
    key: &[u8],
) -> Result<(), Failed>
    ensures { PutsText K.Sink sink.old sink.new page.old page.new
        (comma_before index ++ (kind.now ++ key.now)) (is_ok result) }
{
    page.put(sink, comma(index))?;
    page.put(sink, kind)?;
    page.put(sink, key)
}

/// A comma, unless it stands before the first.
fn comma(index: usize) -> &'static [u8]
    ensures { result.now ≡ comma_before index }
{
    if index == 0 { b"" } else { b"," }
}

/// What came of a call that takes no memory.
pub fn without_memory(outcome: Result<(), Failed>) -> Result<(), PrintFault>
    ensures { SinkAlone outcome result }
{
    Ok(outcome?)
}
