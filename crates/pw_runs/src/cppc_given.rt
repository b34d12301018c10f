ghost use Rattle.std.specs.Prelude.{◌≡◌, ◌≤◌, [], IfErr, IfOk, OnOk};
ghost use Rattle.pw_base.specs.Outside.{KeepsFiles, KeepsSink};
ghost use Rattle.pw_base.specs.Seen.{files_seen, sink_seen, OfFiles};
ghost use Rattle.aml_block.specs.Held.{names_of};
ghost use Rattle.pw_text.specs.declared.script.TheConstants.{MOST_OPERATIONS};
ghost use Rattle.pw_load.specs.Ends.{Stopped};
ghost use Rattle.pw_cppc_drive.specs.Reading.{Fit, operations};
ghost use Rattle.pw_runs.specs.CppcRuns.{AreGiven, steering};
ghost use Rattle.pw_runs.specs.CppcScripts.{HoldsScript};
ghost use Rattle.pw_runs.specs.inner.CppcParts.{scripting};

use crate::cppc_planned::plan_in;
use crate::cppc_script::script_in;
use pw_base::{Files, Sink};
use pw_cppc::CppcPlan;
use pw_cppc_drive::CppcScript;
use pw_text::Page;
use std::alloc::Global;

/// A plan with the script for it.
fn with_script<F: Files, K: Sink>(
    alloc: Global,
    files: &mut F,
    name: &str,
    plan: CppcPlan,
    page: &mut Page,
    err: &mut K,
) -> Result<(CppcPlan, CppcScript), u8>
    requires { page.old ≡ [] }
    ensures keeps_files { KeepsFiles F.told F.holds F.faults files.old files.new }
    ensures keeps_err { KeepsSink K.told K.faults err.old err.new }
    ensures plan { IfOk result (λ r. r.0 ≡ plan) }
    ensures held { IfOk result (λ r. OfFiles (files_seen F.Files files.old)
        (λ holds. HoldsScript (holds name.now) plan r.1.lines)) }
    ensures bounded { IfOk result (λ r. operations r.0 r.1.lines ≤ MOST_OPERATIONS) }
    ensures fit { IfOk result (λ r. Fit r.0 r.1.lines) }
    ensures quiet { OnOk result (err.new ≡ err.old) }
    ensures empty { OnOk result (page.new ≡ []) }
    ensures stopped { IfErr result (λ status. Stopped
        (scripting (files_seen F.Files files.old) (files_seen F.Files files.new) plan name.now)
        (sink_seen K.Sink err.old) (sink_seen K.Sink err.new) status) }
{
    match script_in(alloc, files, name, &plan, page, err) {
        Ok(script) => Ok((plan, script)),
        Err(status) => {
            drop(plan);
            Err(status)
        }
    }
}

/// The plan of the performance of the processors that the blocks in the files of these names describe,
/// and the script for it: the blocks come first. Or the status, once the error output has the line that
/// says why there is no plan or no script, by way of an empty page.
pub fn read_given<F: Files, K: Sink>(
    alloc: Global,
    files: &mut F,
    script: &str,
    blocks: &[&str],
    page: &mut Page,
    err: &mut K,
) -> Result<(CppcPlan, CppcScript), u8>
    requires { page.old ≡ [] }
    ensures keeps_files { KeepsFiles F.told F.holds F.faults files.old files.new }
    ensures keeps_err { KeepsSink K.told K.faults err.old err.new }
    ensures given { IfOk result (λ r. AreGiven (files_seen F.Files files.old) script.now
        (names_of blocks.now) r.0 r.1.lines) }
    ensures fit { IfOk result (λ r. Fit r.0 r.1.lines) }
    ensures quiet { OnOk result (err.new ≡ err.old) }
    ensures empty { OnOk result (page.new ≡ []) }
    ensures stopped { IfErr result (λ status. Stopped
        (steering script.now (names_of blocks.now) (files_seen F.Files files.old)
        (files_seen F.Files files.new))
        (sink_seen K.Sink err.old) (sink_seen K.Sink err.new) status) }
{
    match plan_in(alloc, files, blocks, page, err) {
        Err(status) => Err(status),
        Ok(plan) => with_script(alloc, files, script, plan, page, err),
    }
}
