ghost use Rattle.std.specs.Prelude.{◌≡◌, [], is_ok};
ghost use Rattle.pw_base.specs.Outside.{KeepsSink};
ghost use Rattle.pw_base.specs.Seen.{sink_seen, GrewByLine};
ghost use Rattle.pw_check.specs.Refusals.{refusal_line};
ghost use Rattle.pw_load.specs.Lines.{fault_line, twice_line};

use crate::lines::{put_fault_line, put_twice_line};
use acpi_build::BuildFault;
use aml_block::BlockFault;
use aml_data::Seg;
use pw_base::Sink;
use pw_check::put_refusal;
use pw_text::Page;

/// Writes the line of the own fault of the block of this number, where so many are named, by way of an
/// empty page.
pub fn say_fault<K: Sink>(
    page: &mut Page,
    err: &mut K,
    many: usize,
    number: usize,
    fault: BlockFault,
)
    requires { page.old ≡ [] }
    ensures keeps { KeepsSink K.told K.faults err.old err.new }
    ensures line { GrewByLine (sink_seen K.Sink err.old) (sink_seen K.Sink err.new)
        (fault_line many number fault) }
{
    if put_fault_line(page, err, many, number, fault).is_ok() {
        let _ = page.flush(err);
    }
}

/// Writes the line of a path at which two objects are placed, by way of an empty page.
pub fn say_twice<K: Sink>(page: &mut Page, err: &mut K, path: &[Seg])
    requires { page.old ≡ [] }
    ensures keeps { KeepsSink K.told K.faults err.old err.new }
    ensures line { GrewByLine (sink_seen K.Sink err.old) (sink_seen K.Sink err.new)
        (twice_line path.now) }
{
    if put_twice_line(page, err, path).is_ok() {
        let _ = page.flush(err);
    }
}

/// Writes the line of objects that make no plan, by way of an empty page.
pub fn say_refusal<K: Sink>(page: &mut Page, err: &mut K, fault: &BuildFault)
    requires { page.old ≡ [] }
    ensures keeps { KeepsSink K.told K.faults err.old err.new }
    ensures line { GrewByLine (sink_seen K.Sink err.old) (sink_seen K.Sink err.new)
        (refusal_line fault.now) }
{
    if put_refusal(page, err, fault).is_ok() {
        let _ = page.flush(err);
    }
}
