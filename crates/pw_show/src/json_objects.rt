ghost use Rattle.std.specs.Prelude.{◌≡◌, ◌++◌, codes, is_ok};
ghost use Rattle.acpi_space.specs.Things.{thing};
ghost use Rattle.serde_json.specs.Data.{string};
ghost use Rattle.serde_json.specs.Written.{compact_text};
ghost use Rattle.pw_text.specs.Puts.{PutsText};
ghost use Rattle.pw_text.specs.Text.{path_text};
ghost use Rattle.pw_show.specs.Json.{object_json, told, with_value};
ghost use Rattle.pw_show.specs.inner.Pieces.{head_text};
ghost use Rattle.pw_show.specs.inner.Putting.{PutsUnlessMemory, comma_before};

use crate::json_paths::{put_json_path, put_json_place};
use crate::json_values::{kind_of, put_front, put_told, without_memory};
use acpi_space::Object;
use aml_data::{Data, Path, Seg};
use pw_base::{Failed, Sink};
use pw_text::{Page, PrintFault};
use std::alloc::Global;

/// Puts an object of the namespace as JSON, behind a comma unless it is the first: its kind, its full path,
/// and its own value if it has one.
pub fn put_json_object<K: Sink>(
    alloc: Global,
    page: &mut Page,
    sink: &mut K,
    index: usize,
    path: &[Seg],
    object: Object<'_>,
) -> Result<(), PrintFault>
    ensures { PutsUnlessMemory K.Sink sink.old sink.new page.old page.new
        (comma_before index ++ compact_text (object_json path.now (thing object.entry))) result }
{
    match object {
        Object::Data(value) => put_valued(alloc, page, sink, index, path, value),
        Object::Device => {
            without_memory(put_head(page, sink, index, b"{\"kind\":\"device\"", path, b"}"))
        }
        Object::Processor => {
            without_memory(put_head(page, sink, index, b"{\"kind\":\"processor\"", path, b"}"))
        }
        Object::Method => {
            without_memory(put_head(page, sink, index, b"{\"kind\":\"method\"", path, b"}"))
        }
        Object::Alias(target) => without_memory(put_alias(page, sink, index, path, target)),
    }
}

fn put_valued<K: Sink>(
    alloc: Global,
    page: &mut Page,
    sink: &mut K,
    index: usize,
    path: &[Seg],
    value: &Data,
) -> Result<(), PrintFault>
    ensures { PutsUnlessMemory K.Sink sink.old sink.new page.old page.new
        (comma_before index
        ++ compact_text (with_value (told value.now).kind path.now (told value.now).value)) result }
{
    put_head(page, sink, index, kind_of(value), path, b",\"value\":")?;
    put_told(alloc, page, sink, value)?;
    page.put(sink, b"}")?;
    Ok(())
}

fn put_alias<K: Sink>(
    page: &mut Page,
    sink: &mut K,
    index: usize,
    path: &[Seg],
    target: &Path,
) -> Result<(), Failed>
    ensures { PutsText K.Sink sink.old sink.new page.old page.new
        (comma_before index
        ++ compact_text (with_value (codes "alias") path.now (string (path_text target.now))))
        (is_ok result) }
{
    put_head(
        page,
        sink,
        index,
        b"{\"kind\":\"alias\"",
        path,
        b",\"value\":",
    )?;
    put_json_path(page, sink, target)?;
    page.put(sink, b"}")
}

/// Puts the front of an object, its path, and what stands behind it.
fn put_head<K: Sink>(
    page: &mut Page,
    sink: &mut K,
    index: usize,
    kind: &[u8],
    path: &[Seg],
    behind: &[u8],
) -> Result<(), Failed>
    ensures { PutsText K.Sink sink.old sink.new page.old page.new
        (comma_before index ++ head_text kind.now path.now behind.now) (is_ok result) }
{
    put_front(page, sink, index, kind, b",\"path\":")?;
    put_json_place(page, sink, path)?;
    page.put(sink, behind)
}
