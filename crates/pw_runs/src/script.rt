ghost use Rattle.std.specs.Prelude.{◌≡◌, ◌≢◌, ◌≤◌, [], Bool, length, IfErr, IfOk};
ghost use Rattle.std.specs.List.{AllByRecursion};
ghost use Rattle.pw_base.specs.Outside.{KeepsFiles};
ghost use Rattle.pw_base.specs.Seen.{files_seen, OfFiles};
ghost use Rattle.pw_plan.specs.Requests.{Has};
ghost use Rattle.pw_notice.specs.Handling.{Handles, HandlesAs};
ghost use Rattle.pw_script.specs.declared.script.Line.{Line as line};
ghost use Rattle.pw_text.specs.declared.script.ScriptFault.TheVariants as faults;
ghost use Rattle.pw_text.specs.declared.script.TheConstants.{MOST_OPERATIONS};
ghost use Rattle.pw_script.specs.Reading.{operations};
ghost use Rattle.pw_runs.specs.Scripts.{HoldsScript, IsNoScript, IsScript, limit_by};
ghost use Rattle.pw_runs.specs.inner.Parts.{IsWhyMissing, IsWhyNone};

use acpi_values::IdleTable;
use aml_block::{FileFault, read_all};
use pw_base::Files;
use pw_governor::{Governor, deepest};
use pw_notice::{Handlers, follow, step as step_once};
use pw_plan::Plan;
use pw_script::{Script, parse};
use pw_text::{MOST_BYTES, ScriptFault};
use std::alloc::Global;

/// Why there is no script.
#[derive(Clone, Copy)]
pub enum Missing {
    /// Its file couldn't be read.
    Unread,
    /// Its bytes are none, or memory ran out.
    Fault(ScriptFault),
}

// A function of another crate is passed in a closure, since its contract can't be seen where it is named
// alone.

/// The script that these bytes spell, with the limits that these functions answer.
fn parse_by<P: Fn(u32, u32, u32) -> u32, T: Fn(u32, u32, u32) -> u32>(
    alloc: Global,
    bytes: &[u8],
    plan: &Plan,
    perf: P,
    throttle: T,
) -> Result<Script, ScriptFault>
    requires perf { Handles (P.pre perf) (P.post perf) }
    requires throttle { Handles (T.pre throttle) (T.post throttle) }
    ensures script { IfOk result (λ script. (step : Bool) → HandlesAs (limit_by step) (P.post perf)
        → HandlesAs (limit_by step) (T.post throttle) → IsScript plan.now step bytes.now script.lines) }
    ensures few { IfOk result (λ script. length script.lines ≤ 65536) }
    ensures bounded { IfOk result (λ script. operations plan.now script.lines ≤ MOST_OPERATIONS) }
    ensures has { IfOk result (λ script. AllByRecursion (λ (l : line). Has plan.now l.request) script.lines) }
    ensures none { IfErr result (λ fault. fault ≢ faults.Memory → (step : Bool)
        → HandlesAs (limit_by step) (P.post perf) → HandlesAs (limit_by step) (T.post throttle)
        → IsNoScript plan.now step bytes.now fault) }
{
    let governor = Governor::new(|table: &IdleTable, tolerance: u32, residency: u32| {
        deepest(table, tolerance, residency)
    });
    let handlers = Handlers::new(perf, throttle);
    parse(alloc, bytes, plan, &governor, &handlers)
}

/// The script that these bytes spell: the deepest state that suits a processor is chosen, and a
/// notification moves a limit to the platform's value, or by one step towards it.
fn parse_script(alloc: Global, bytes: &[u8], plan: &Plan, step: bool) -> Result<Script, ScriptFault>
    ensures script { IfOk result (λ script. IsScript plan.now step bytes.now script.lines) }
    ensures few { IfOk result (λ script. length script.lines ≤ 65536) }
    ensures bounded { IfOk result (λ script. operations plan.now script.lines ≤ MOST_OPERATIONS) }
    ensures has { IfOk result (λ script. AllByRecursion (λ (l : line). Has plan.now l.request) script.lines) }
    ensures none { IfErr result (λ fault. fault ≢ faults.Memory → IsNoScript plan.now step bytes.now fault) }
{
    if step {
        parse_by(
            alloc,
            bytes,
            plan,
            |count: u32, current: u32, value: u32| step_once(count, current, value),
            |count: u32, current: u32, value: u32| step_once(count, current, value),
        )
    } else {
        parse_by(
            alloc,
            bytes,
            plan,
            |count: u32, current: u32, value: u32| follow(count, current, value),
            |count: u32, current: u32, value: u32| follow(count, current, value),
        )
    }
}

/// The same, or why there is none.
fn script_of(alloc: Global, bytes: &[u8], plan: &Plan, step: bool) -> Result<Script, Missing>
    ensures script { IfOk result (λ script. IsScript plan.now step bytes.now script.lines) }
    ensures few { IfOk result (λ script. length script.lines ≤ 65536) }
    ensures bounded { IfOk result (λ script. operations plan.now script.lines ≤ MOST_OPERATIONS) }
    ensures has { IfOk result (λ script. AllByRecursion (λ (l : line). Has plan.now l.request) script.lines) }
    ensures none { IfErr result (IsWhyNone plan.now step bytes.now) }
{
    match parse_script(alloc, bytes, plan, step) {
        Ok(script) => Ok(script),
        Err(fault) => Err(Missing::Fault(fault)),
    }
}

/// The script in the file of this name. Of a file that is too long one byte too many is read.
pub fn read_script<F: Files>(
    alloc: Global,
    files: &mut F,
    name: &str,
    plan: &Plan,
    step: bool,
) -> Result<Script, Missing>
    ensures keeps { KeepsFiles F.told F.holds F.faults files.old files.new }
    ensures held { IfOk result (λ script. OfFiles (files_seen F.Files files.old)
        (λ holds. HoldsScript (holds name.now) plan.now step script.lines)) }
    ensures few { IfOk result (λ script. length script.lines ≤ 65536) }
    ensures bounded { IfOk result (λ script. operations plan.now script.lines ≤ MOST_OPERATIONS) }
    ensures has { IfOk result (λ script. AllByRecursion (λ (l : line). Has plan.now l.request) script.lines) }
    ensures missing { IfErr result
        (λ why. IsWhyMissing (files_seen F.Files files.old) (files_seen F.Files files.new)
        name.now plan.now step why) }
{
    match read_all(alloc, files, name, MOST_BYTES as usize + 1) {
        Err(FileFault::ReadFault) => Err(Missing::Unread),
        Err(FileFault::Memory) => Err(Missing::Fault(ScriptFault::Memory)),
        Ok(bytes) => script_of(alloc, &bytes, plan, step),
    }
}
