ghost use Rattle.std.specs.Prelude.{◌≡◌, ◌≤◌, [], IfErr, IfOk, OnOk};
ghost use Rattle.pw_base.specs.Outside.{KeepsFiles, KeepsSink};
ghost use Rattle.pw_base.specs.Seen.{files_seen, sink_seen, OfFiles};
ghost use Rattle.pw_text.specs.declared.script.TheConstants.{MOST_OPERATIONS};
ghost use Rattle.pw_load.specs.Ends.{Stopped};
ghost use Rattle.pw_cppc_drive.specs.Reading.{Fit, IsScript, operations};
ghost use Rattle.pw_runs.specs.CppcScripts.{HoldsScript};
ghost use Rattle.pw_runs.specs.inner.CppcParts.{parsing, scripting};

use crate::refuse_script;
use aml_block::{FileFault, read_all};
use pw_base::{Files, Sink};
use pw_cppc::CppcPlan;
use pw_cppc_drive::{CppcScript, cppc_parse};
use pw_load::{read_fault, without_memory};
use pw_text::{MOST_BYTES, Page};
use std::alloc::Global;

/// The script that these bytes spell; or the status, once the error output has the line that says why
/// they are none, by way of an empty page.
fn script_of<K: Sink>(
    alloc: Global,
    bytes: &[u8],
    plan: &CppcPlan,
    page: &mut Page,
    err: &mut K,
) -> Result<CppcScript, u8>
    requires { page.old ≡ [] }
    ensures keeps_err { KeepsSink K.told K.faults err.old err.new }
    ensures script { IfOk result (λ script. IsScript plan.now bytes.now script.lines) }
    ensures bounded { IfOk result (λ script. operations plan.now script.lines ≤ MOST_OPERATIONS) }
    ensures fit { IfOk result (λ script. Fit plan.now script.lines) }
    ensures quiet { OnOk result (err.new ≡ err.old) }
    ensures empty { OnOk result (page.new ≡ []) }
    ensures stopped { IfErr result (λ status. Stopped (parsing plan.now bytes.now)
        (sink_seen K.Sink err.old) (sink_seen K.Sink err.new) status) }
{
    match cppc_parse(alloc, bytes, plan) {
        Ok(script) => Ok(script),
        Err(fault) => Err(refuse_script(page, err, fault)),
    }
}

/// The script in the file of this name; or the status, once the error output has the line that says why
/// there is none, by way of an empty page. Of a file that is too long one byte too many is read.
pub fn script_in<F: Files, K: Sink>(
    alloc: Global,
    files: &mut F,
    name: &str,
    plan: &CppcPlan,
    page: &mut Page,
    err: &mut K,
) -> Result<CppcScript, u8>
    requires { page.old ≡ [] }
    ensures keeps_files { KeepsFiles F.told F.holds F.faults files.old files.new }
    ensures keeps_err { KeepsSink K.told K.faults err.old err.new }
    ensures held { IfOk result (λ script. OfFiles (files_seen F.Files files.old)
        (λ holds. HoldsScript (holds name.now) plan.now script.lines)) }
    ensures bounded { IfOk result (λ script. operations plan.now script.lines ≤ MOST_OPERATIONS) }
    ensures fit { IfOk result (λ script. Fit plan.now script.lines) }
    ensures quiet { OnOk result (err.new ≡ err.old) }
    ensures empty { OnOk result (page.new ≡ []) }
    ensures stopped { IfErr result (λ status. Stopped
        (scripting (files_seen F.Files files.old) (files_seen F.Files files.new) plan.now name.now)
        (sink_seen K.Sink err.old) (sink_seen K.Sink err.new) status) }
{
    match read_all(alloc, files, name, MOST_BYTES as usize + 1) {
        Err(FileFault::ReadFault) => Err(read_fault(err)),
        Err(FileFault::Memory) => Err(without_memory(err)),
        Ok(bytes) => script_of(alloc, &bytes, plan, page, err),
    }
}
