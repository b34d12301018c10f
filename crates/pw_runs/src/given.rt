ghost use Rattle.std.specs.Prelude.{◌≡◌, ◌≤◌, [], length, IfErr, IfOk, OnOk};
ghost use Rattle.std.specs.List.{AllByRecursion};
ghost use Rattle.pw_base.specs.Outside.{KeepsFiles, KeepsSink};
ghost use Rattle.pw_base.specs.Seen.{files_seen, sink_seen, OfFiles};
ghost use Rattle.pw_text.specs.declared.script.TheConstants.{MOST_OPERATIONS};
ghost use Rattle.pw_plan.specs.Requests.{Has};
ghost use Rattle.aml_block.specs.Held.{names_of};
ghost use Rattle.pw_script.specs.declared.script.Line.{Line as line};
ghost use Rattle.pw_script.specs.Reading.{operations};
ghost use Rattle.pw_load.specs.Ends.{Stopped};
ghost use Rattle.pw_runs.specs.Runs.{AreGiven, driving};
ghost use Rattle.pw_runs.specs.Scripts.{HoldsScript};
ghost use Rattle.pw_runs.specs.inner.Parts.{scripting};

use crate::planned::plan_in;
use crate::refusal::refuse_script;
use crate::script::{Missing, read_script};
use pw_base::{Files, Sink};
use pw_load::read_fault;
use pw_plan::Plan;
use pw_script::Script;
use pw_text::Page;
use std::alloc::Global;

/// The script in the file of this name; or the status, once the error output has the line that says why
/// there is none, by way of an empty page.
fn script_in<F: Files, K: Sink>(
    alloc: Global,
    files: &mut F,
    name: &str,
    plan: &Plan,
    step: bool,
    page: &mut Page,
    err: &mut K,
) -> Result<Script, u8>
    requires { page.old ≡ [] }
    ensures keeps_files { KeepsFiles F.told F.holds F.faults files.old files.new }
    ensures keeps_err { KeepsSink K.told K.faults err.old err.new }
    ensures held { IfOk result (λ script. OfFiles (files_seen F.Files files.old)
        (λ holds. HoldsScript (holds name.now) plan.now step script.lines)) }
    ensures few { IfOk result (λ script. length script.lines ≤ 65536) }
    ensures bounded { IfOk result (λ script. operations plan.now script.lines ≤ MOST_OPERATIONS) }
    ensures has { IfOk result (λ script. AllByRecursion (λ (l : line). Has plan.now l.request) script.lines) }
    ensures quiet { OnOk result (err.new ≡ err.old) }
    ensures empty { OnOk result (page.new ≡ []) }
    ensures stopped { IfErr result (λ status. Stopped
        (scripting (files_seen F.Files files.old) (files_seen F.Files files.new) plan.now step name.now)
        (sink_seen K.Sink err.old) (sink_seen K.Sink err.new) status) }
{
    match read_script(alloc, files, name, plan, step) {
        Ok(script) => Ok(script),
        Err(Missing::Unread) => Err(read_fault(err)),
        Err(Missing::Fault(fault)) => Err(refuse_script(page, err, fault)),
    }
}

/// A plan with the script for it.
fn with_script<F: Files, K: Sink>(
    alloc: Global,
    files: &mut F,
    name: &str,
    plan: Plan,
    step: bool,
    page: &mut Page,
    err: &mut K,
) -> Result<(Plan, Script), u8>
    requires { page.old ≡ [] }
    ensures keeps_files { KeepsFiles F.told F.holds F.faults files.old files.new }
    ensures keeps_err { KeepsSink K.told K.faults err.old err.new }
    ensures plan { IfOk result (λ r. r.0 ≡ plan) }
    ensures held { IfOk result (λ r. OfFiles (files_seen F.Files files.old)
        (λ holds. HoldsScript (holds name.now) plan step r.1.lines)) }
    ensures few { IfOk result (λ r. length r.1.lines ≤ 65536) }
    ensures bounded { IfOk result (λ r. operations r.0 r.1.lines ≤ MOST_OPERATIONS) }
    ensures has { IfOk result (λ r. AllByRecursion (λ (l : line). Has r.0 l.request) r.1.lines) }
    ensures quiet { OnOk result (err.new ≡ err.old) }
    ensures empty { OnOk result (page.new ≡ []) }
    ensures stopped { IfErr result (λ status. Stopped
        (scripting (files_seen F.Files files.old) (files_seen F.Files files.new) plan step name.now)
        (sink_seen K.Sink err.old) (sink_seen K.Sink err.new) status) }
{
    match script_in(alloc, files, name, &plan, step, page, err) {
        Ok(script) => Ok((plan, script)),
        Err(status) => {
            drop(plan);
            Err(status)
        }
    }
}

/// The plan of the blocks in the files of these names, and the script for it: the blocks come first. Or
/// the status, once the error output has the line that says why there is no plan or no script, by way of
/// an empty page.
pub fn read_given<F: Files, K: Sink>(
    alloc: Global,
    files: &mut F,
    step: bool,
    script: &str,
    blocks: &[&str],
    page: &mut Page,
    err: &mut K,
) -> Result<(Plan, Script), u8>
    requires { page.old ≡ [] }
    ensures keeps_files { KeepsFiles F.told F.holds F.faults files.old files.new }
    ensures keeps_err { KeepsSink K.told K.faults err.old err.new }
    ensures given { IfOk result (λ r. AreGiven (files_seen F.Files files.old) step script.now
        (names_of blocks.now) r.0 r.1.lines) }
    ensures few { IfOk result (λ r. length r.1.lines ≤ 65536) }
    ensures has { IfOk result (λ r. AllByRecursion (λ (l : line). Has r.0 l.request) r.1.lines) }
    ensures quiet { OnOk result (err.new ≡ err.old) }
    ensures empty { OnOk result (page.new ≡ []) }
    ensures stopped { IfErr result (λ status. Stopped
        (driving step script.now (names_of blocks.now) (files_seen F.Files files.old)
        (files_seen F.Files files.new))
        (sink_seen K.Sink err.old) (sink_seen K.Sink err.new) status) }
{
    match plan_in(alloc, files, blocks, page, err) {
        Err(status) => Err(status),
        Ok(plan) => with_script(alloc, files, script, plan, step, page, err),
    }
}
