ghost use Rattle.std.specs.Prelude.{◌≡◌, ◌≤◌, ◌++◌, [], true, length, is_ok, Err, OnOk};
ghost use Rattle.std.specs.List.{All};
ghost use Rattle.pw_base.specs.Outside.{GrewByPart, KeepsSink, Rose};
ghost use Rattle.acpi_space.specs.Namespace.{Entry};
ghost use Rattle.pw_text.specs.declared.fault.PrintFault.TheVariants as faults;
ghost use Rattle.pw_text.specs.Puts.{PutsText};
ghost use Rattle.pw_show.specs.Show.{show_text};

use crate::show::put_space;
use acpi_space::Space;
use aml_data::Seg;
use pw_base::{Failed, Room, Sink};
use pw_text::{Page, PrintFault};
use std::alloc::Global;

/// Puts all lines, and hands all of them to the sink.
fn put_whole<K: Sink>(
    page: &mut Page,
    sink: &mut K,
    space: &Space<'_>,
    path: &mut Room<Seg>,
) -> Result<(), Failed>
    requires { All (λ (e : Entry). length e.path ≤ path.old.capacity) space.now }
    ensures text { PutsText K.Sink sink.old sink.new page.old page.new
        (show_text space.now) (is_ok result) }
    ensures empty { OnOk result (page.new ≡ []) }
{
    put_space(page, sink, space, path)?;
    page.flush(sink)
}

/// Prints a line for each object of a space, in their order. Memory is taken before the sink sees a byte.
pub fn print_space<K: Sink>(alloc: Global, space: &Space<'_>, out: &mut K) -> Result<(), PrintFault>
    ensures keeps { KeepsSink K.told K.faults out.old out.new }
    ensures whole { OnOk result (K.told out.old ≡ true →
        K.written out.new ≡ K.written out.old ++ show_text space.now) }
    // Whatever fails, the sink has a beginning of the text.
    ensures part { K.told out.old ≡ true →
        GrewByPart (K.written out.old) (K.written out.new) (show_text space.now) }
    ensures sink { result ≡ Err faults.Sink → Rose (K.faults out.old) (K.faults out.new) }
    ensures memory { result ≡ Err faults.Memory → out.new ≡ out.old }
{
    let mut path = Room::new(alloc, space.longest_path())?;
    let mut page = Page::new(alloc)?;
    put_whole(&mut page, out, space, &mut path)?;
    Ok(())
}
