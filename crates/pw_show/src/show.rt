ghost use Rattle.std.specs.Prelude.{◌≡◌, ◌≤◌, ◌++◌, length, codes, is_ok};
ghost use Rattle.std.specs.List.{All};
ghost use Rattle.acpi_space.specs.Things.{thing};
ghost use Rattle.acpi_space.specs.Namespace.{Entry};
ghost use Rattle.pw_text.specs.Puts.{PutsText};
ghost use Rattle.pw_text.specs.Text.{path_text, place_text};
ghost use Rattle.pw_show.specs.Show.{object_line, object_text, show_text};
ghost use Rattle.pw_show.specs.Values.{value_text};

use crate::values::put_value;
use acpi_space::{Object, Space};
use aml_data::{Data, Path, Seg};
use pw_base::{Failed, Room, Sink};
use pw_text::{Page, put_path, put_place};

/// Puts a line for each object of a space, in their order. The buffer is filled anew with each path,
/// and has room for the longest. It takes no memory.
pub fn put_space<K: Sink>(
    page: &mut Page,
    sink: &mut K,
    space: &Space<'_>,
    path: &mut Room<Seg>,
) -> Result<(), Failed>
    requires { All (λ (e : Entry). length e.path ≤ path.old.capacity) space.now }
    ensures { PutsText K.Sink sink.old sink.new page.old page.new
        (show_text space.now) (is_ok result) }
{
    for (index, placed) in space.placed().iter().enumerate() {
        space.fill_path(index, path);
        put_line(page, sink, path.as_slice(), placed.object)?;
    }
    Ok(())
}

/// Puts the line of an object: its full path, and what it is. It takes no memory.
pub fn put_line<K: Sink>(
    page: &mut Page,
    sink: &mut K,
    path: &[Seg],
    object: Object<'_>,
) -> Result<(), Failed>
    ensures { PutsText K.Sink sink.old sink.new page.old page.new
        (object_line path.now (thing object.entry)) (is_ok result) }
{
    put_place(page, sink, path)?;
    put_object(page, sink, object)?;
    page.put(sink, b"\n")
}

fn put_object<K: Sink>(page: &mut Page, sink: &mut K, object: Object<'_>) -> Result<(), Failed>
    ensures { PutsText K.Sink sink.old sink.new page.old page.new
        (object_text (thing object.entry)) (is_ok result) }
{
    match object {
        Object::Data(value) => put_data(page, sink, value),
        Object::Device => page.put(sink, b" device"),
        Object::Processor => page.put(sink, b" processor"),
        Object::Method => page.put(sink, b" method"),
        Object::Alias(target) => put_target(page, sink, target),
    }
}

fn put_data<K: Sink>(page: &mut Page, sink: &mut K, value: &Data) -> Result<(), Failed>
    ensures { PutsText K.Sink sink.old sink.new page.old page.new
        (codes " = " ++ value_text value.now) (is_ok result) }
{
    page.put(sink, b" = ")?;
    put_value(page, sink, value)
}

fn put_target<K: Sink>(page: &mut Page, sink: &mut K, target: &Path) -> Result<(), Failed>
    ensures { PutsText K.Sink sink.old sink.new page.old page.new
        (codes " alias " ++ path_text target.now) (is_ok result) }
{
    page.put(sink, b" alias ")?;
    put_path(page, sink, target)
}
