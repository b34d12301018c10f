ghost use Rattle.std.specs.Prelude.{◌≡◌, ◌≤◌, ◌++◌, [], true, length, map};
ghost use Rattle.std.specs.Prelude.{Err, OnOk};
ghost use Rattle.std.specs.List.{All, join_with_byte};
ghost use Rattle.pw_base.specs.Outside.{GrewByPart, KeepsSink, Rose};
ghost use Rattle.pw_text.specs.declared.fault.PrintFault.TheVariants as faults;
ghost use Rattle.acpi_space.specs.Namespace.{Entry};
ghost use Rattle.pw_show.specs.Json.{entry_text, json_text};
ghost use Rattle.pw_show.specs.inner.Putting.{PutsUnlessMemory};

use crate::json_objects::put_json_object;
use acpi_space::Space;
use aml_data::Seg;
use pw_base::{Room, Sink};
use pw_text::{Page, PrintFault};
use std::alloc::Global;

/// Prints the objects of a space as one JSON text and a line feed, piece by piece. Memory is taken for a
/// piece of a string at a time, so it may run out in the midst of the text.
pub fn print_json<K: Sink>(alloc: Global, space: &Space<'_>, out: &mut K) -> Result<(), PrintFault>
    ensures keeps { KeepsSink K.told K.faults out.old out.new }
    ensures whole { OnOk result (K.told out.old ≡ true →
        K.written out.new ≡ K.written out.old ++ json_text space.now) }
    // Whatever fails, the sink has a beginning of the text.
    ensures part { K.told out.old ≡ true →
        GrewByPart (K.written out.old) (K.written out.new) (json_text space.now) }
    ensures sink { result ≡ Err faults.Sink → Rose (K.faults out.old) (K.faults out.new) }
{
    let mut path = Room::new(alloc, space.longest_path())?;
    let mut page = Page::new(alloc)?;
    put_whole(alloc, &mut page, out, space, &mut path)
}

/// Puts the text by way of an empty page, and hands over the last page too. The buffer is filled anew with
/// each path, and has room for the longest.
fn put_whole<K: Sink>(
    alloc: Global,
    page: &mut Page,
    sink: &mut K,
    space: &Space<'_>,
    path: &mut Room<Seg>,
) -> Result<(), PrintFault>
    requires empty { page.old ≡ [] }
    requires room { All (λ (e : Entry). length e.path ≤ path.old.capacity) space.now }
    ensures keeps { KeepsSink K.told K.faults sink.old sink.new }
    ensures whole { OnOk result (K.told sink.old ≡ true →
        K.written sink.new ≡ K.written sink.old ++ json_text space.now) }
    ensures part { K.told sink.old ≡ true →
        GrewByPart (K.written sink.old) (K.written sink.new) (json_text space.now) }
    ensures sink { result ≡ Err faults.Sink → Rose (K.faults sink.old) (K.faults sink.new) }
{
    put_array(alloc, page, sink, space, path)?;
    page.flush(sink)?;
    Ok(())
}

fn put_array<K: Sink>(
    alloc: Global,
    page: &mut Page,
    sink: &mut K,
    space: &Space<'_>,
    path: &mut Room<Seg>,
) -> Result<(), PrintFault>
    requires { All (λ (e : Entry). length e.path ≤ path.old.capacity) space.now }
    ensures { PutsUnlessMemory K.Sink sink.old sink.new page.old page.new
        (json_text space.now) result }
{
    page.put(sink, b"[")?;
    put_objects(alloc, page, sink, space, path)?;
    page.put(sink, b"]\n")?;
    Ok(())
}

fn put_objects<K: Sink>(
    alloc: Global,
    page: &mut Page,
    sink: &mut K,
    space: &Space<'_>,
    path: &mut Room<Seg>,
) -> Result<(), PrintFault>
    requires { All (λ (e : Entry). length e.path ≤ path.old.capacity) space.now }
    ensures { PutsUnlessMemory K.Sink sink.old sink.new page.old page.new
        (join_with_byte 44 (map entry_text space.now)) result }
{
    for (index, placed) in space.placed().iter().enumerate() {
        space.fill_path(index, path);
        put_json_object(alloc, page, sink, index, path.as_slice(), placed.object)?;
    }
    Ok(())
}
