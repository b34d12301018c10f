ghost use Rattle.std.specs.Prelude.{◌≡◌, [], is_ok};
ghost use Rattle.pw_base.specs.Outside.{KeepsSink};
ghost use Rattle.pw_text.specs.Puts.{PutsText};
ghost use Rattle.pw_load.specs.Seen.{outputs_seen};
ghost use Rattle.pw_load.specs.Ends.{Did};
ghost use Rattle.pw_runs.specs.Histories.{lawful_line};
ghost use Rattle.pw_runs.specs.inner.AuditParts.{telling};

use crate::put_between;
use pw_base::{Failed, Sink};
use pw_load::write_fault;
use pw_text::Page;

/// Puts that a history of so many entries is lawful, by way of a page, and hands all of it to the sink.
fn put_lawful<K: Sink>(page: &mut Page, sink: &mut K, entries: usize) -> Result<(), Failed>
    ensures text { PutsText K.Sink sink.old sink.new page.old page.new (lawful_line entries) (is_ok result) }
    ensures empty { page.new ≡ [] }
{
    put_between(page, sink, b"lawful entries ", entries as u64, b"\n")?;
    page.flush(sink)
}

/// Prints that a history of so many entries is lawful, by way of an empty page, and says the status.
pub fn print_lawful<K: Sink>(page: &mut Page, out: &mut K, err: &mut K, entries: usize) -> u8
    requires { page.old ≡ [] }
    ensures keeps_out { KeepsSink K.told K.faults out.old out.new }
    ensures keeps_err { KeepsSink K.told K.faults err.old err.new }
    ensures did { Did (telling entries)
        (outputs_seen K.Sink out.old err.old) (outputs_seen K.Sink out.new err.new) result }
{
    match put_lawful(page, out, entries) {
        Ok(()) => 0,
        Err(_) => write_fault(err),
    }
}
