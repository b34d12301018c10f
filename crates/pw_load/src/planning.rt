ghost use Rattle.std.specs.Prelude.{◌≡◌, [], IfErr, IfOk, OnOk};
ghost use Rattle.pw_base.specs.Outside.{KeepsSink};
ghost use Rattle.pw_base.specs.Seen.{sink_seen};
ghost use Rattle.acpi_build.specs.Planning.{IsPlanFrom};
ghost use Rattle.acpi_build.specs.Tables.{AreCountable};
ghost use Rattle.pw_load.specs.Ends.{Stopped};
ghost use Rattle.pw_load.specs.Steps.{planning};

use crate::refusal::refuse_plan;
use acpi_build::{Note, plan};
use acpi_space::Space;
use pw_base::Sink;
use pw_plan::Plan;
use pw_text::Page;
use std::alloc::Global;

/// The plan of the machine that objects tell of, with its notes (ACPI 6.5, 8.4); or the status, once the
/// error output has the line that says why there is none, by way of an empty page.
pub fn make_plan<K: Sink>(
    alloc: Global,
    space: &Space<'_>,
    page: &mut Page,
    err: &mut K,
) -> Result<(Plan, Vec<Note>), u8>
    requires empty { page.old ≡ [] }
    requires countable { AreCountable space.now }
    ensures keeps_err { KeepsSink K.told K.faults err.old err.new }
    ensures made { IfOk result (λ r. IsPlanFrom space.now r.0 r.1.items) }
    ensures quiet { OnOk result (err.new ≡ err.old) }
    ensures empty { OnOk result (page.new ≡ []) }
    ensures stopped { IfErr result (λ status. Stopped (planning space.now)
        (sink_seen K.Sink err.old) (sink_seen K.Sink err.new) status) }
{
    match plan(alloc, space) {
        Ok(made) => Ok(made),
        Err(fault) => Err(refuse_plan(page, err, &fault)),
    }
}
