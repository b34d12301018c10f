ghost use Rattle.std.specs.Prelude.{◌≡◌, [], IfSome, None};
ghost use Rattle.pw_base.specs.Outside.{KeepsSink};
ghost use Rattle.pw_model.specs.History.{Faultless, Legal, replies};
ghost use Rattle.pw_drive.specs.Driven.{stopped_at};
ghost use Rattle.pw_load.specs.Seen.{outputs_seen};
ghost use Rattle.pw_load.specs.Ends.{Ended};
ghost use Rattle.pw_runs.specs.inner.Trying.{SumsUp};

use crate::{failed_after, say_register};
use pw_base::Sink;
use pw_generate::print_summary_known;
use pw_load::printed;
use pw_model::{HistoryEntry, Reply};
use pw_plan::Plan;
use pw_text::Page;
use std::alloc::Global;

/// Prints the summary of a run on the output, with its replies where they are known, or where a register
/// failed, a line on the error output, by way of an empty page. It says the status.
pub fn print_run<K: Sink>(
    alloc: Global,
    plan: &Plan,
    opening: Option<u32>,
    entries: &[HistoryEntry],
    known: Option<&[Reply]>,
    page: &mut Page,
    out: &mut K,
    err: &mut K,
) -> u8
    requires empty { page.old ≡ [] }
    requires legal { Legal plan.now entries.now }
    requires faultless { stopped_at opening entries.now ≡ None → Faultless entries.now }
    requires known { IfSome known (λ told. told.now ≡ replies plan.now entries.now) }
    ensures keeps_out { KeepsSink K.told K.faults out.old out.new }
    ensures keeps_err { KeepsSink K.told K.faults err.old err.new }
    ensures printed { Ended (SumsUp plan.now opening entries.now
        (outputs_seen K.Sink out.old err.old) (outputs_seen K.Sink out.new err.new))
        (outputs_seen K.Sink out.old err.old) (outputs_seen K.Sink out.new err.new) result }
{
    match failed_after(opening, entries) {
        None => printed(err, print_summary_known(alloc, plan, entries, known, out)),
        Some(done) => {
            say_register(page, err, done);
            5
        }
    }
}
