ghost use Rattle.std.specs.Prelude.{◌≡◌, []};
ghost use Rattle.pw_base.specs.Outside.{KeepsSink};
ghost use Rattle.pw_base.specs.Seen.{sink_seen, GrewByLine};
ghost use Rattle.pw_runs.specs.Histories.{history_line, history_status};

use crate::say_number;
use pw_audit::AuditFault;
use pw_base::Sink;
use pw_load::without_memory;
use pw_text::Page;

/// Says why a history isn't lawful, by way of an empty page, and the status.
pub fn refuse_history<K: Sink>(page: &mut Page, err: &mut K, fault: AuditFault) -> u8
    requires { page.old ≡ [] }
    ensures keeps { KeepsSink K.told K.faults err.old err.new }
    ensures status { result ≡ history_status fault }
    ensures line { GrewByLine (sink_seen K.Sink err.old) (sink_seen K.Sink err.new) (history_line fault) }
{
    match fault {
        AuditFault::Memory => without_memory(err),
        AuditFault::TooLong { bound } => {
            say_number(page, err, b"history: longer than ", bound, b"\n");
            8
        }
        AuditFault::Wrong { line } => {
            say_number(page, err, b"history: line ", line, b"\n");
            8
        }
        AuditFault::Unfinished { lines } => {
            say_number(page, err, b"history: ends after ", lines, b" lines\n");
            8
        }
    }
}
