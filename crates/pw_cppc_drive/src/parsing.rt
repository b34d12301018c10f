ghost use Rattle.std.specs.Prelude.{◌≡◌, ◌≢◌, ◌≤◌, [], None, Some, length, nat_lt, IfOk, IfErr, OnOk};
ghost use Rattle.std.specs.List.{AllByRecursion};
ghost use Rattle.pw_cppc.specs.Requests.{Has};
ghost use Rattle.pw_text.specs.declared.script.ScriptFault.TheVariants as faults;
ghost use Rattle.pw_text.specs.declared.script.TheConstants.{MOST_LINES, MOST_OPERATIONS};
ghost use Rattle.pw_text.specs.Fields.{lines_of};
ghost use Rattle.pw_text.specs.Looking.{IsIndexOf};
ghost use Rattle.pw_text.specs.Scripts.{first_bad_by};
ghost use Rattle.pw_cppc_drive.specs.Forms.{request_in, segs_of};
ghost use Rattle.pw_cppc_drive.specs.Reading.{Fit, IsNoScript, IsScript, lines_in, operations};

use crate::index::index_of;
use crate::line::request_in;
use crate::script::{CppcLine, CppcScript};
use pw_base::List;
use pw_cppc::CppcPlan;
use pw_text::{MOST_OPERATIONS, PathIndex, ScriptFault, Spelled, first_line, too_long};
use std::alloc::Global;

/// Whether the lines have too many operations, with those at the start.
fn has_too_many(plan: &CppcPlan, lines: &[CppcLine]) -> bool
    ensures { result ≡ nat_lt MOST_OPERATIONS (operations plan.now lines.now) }
{
    let mut bound = u64::from(plan.opening_bound());
    let mut left = lines;
    while let [line, rest @ ..] = left {
        if bound > u64::from(MOST_OPERATIONS) {
            return true;
        }
        bound += u64::from(plan.ops_bound(&line.request));
        left = rest;
    }
    bound > u64::from(MOST_OPERATIONS)
}

/// Reads lines, and puts those that ask for something into a list. `room` is room for a path.
fn read_into(
    plan: &CppcPlan,
    index: &PathIndex,
    room: &mut Spelled,
    bytes: &[u8],
    lines: &mut Vec<CppcLine>,
) -> Result<(), ScriptFault>
    requires index { IsIndexOf segs_of plan.now.paths index.now }
    requires few { length (lines_of bytes.now) ≤ MOST_LINES }
    requires none { lines.old.items ≡ [] }
    ensures good { OnOk result (first_bad_by (request_in plan.now) 1 (lines_of bytes.now) ≡ None) }
    ensures read { OnOk result (lines.new.items ≡ lines_in plan.now bytes.now) }
    ensures few { OnOk result (length lines.new.items ≤ MOST_LINES) }
    ensures exist { OnOk result (AllByRecursion (λ l. Has plan.now l.request) lines.new.items) }
    ensures bad { IfErr result (λ fault. fault ≢ faults.Memory →
        first_bad_by (request_in plan.now) 1 (lines_of bytes.now) ≡ Some fault) }
{
    let mut number = 0;
    let mut left = bytes;
    while !left.is_empty() {
        let (text, rest) = first_line(left);
        number += 1;
        match request_in(plan, index, room, text)? {
            Err(why) => return Err(ScriptFault::Line { number, why }),
            Ok(None) => {}
            Ok(Some(request)) => lines.push(CppcLine { number, request })?,
        }
        left = rest;
    }
    Ok(())
}

/// The lines that ask for something.
fn read_lines(alloc: Global, bytes: &[u8], plan: &CppcPlan) -> Result<Vec<CppcLine>, ScriptFault>
    requires few { length (lines_of bytes.now) ≤ MOST_LINES }
    ensures good { IfOk result (λ lines.
        first_bad_by (request_in plan.now) 1 (lines_of bytes.now) ≡ None) }
    ensures read { IfOk result (λ lines. lines.items ≡ lines_in plan.now bytes.now) }
    ensures few { IfOk result (λ lines. length lines.items ≤ MOST_LINES) }
    ensures exist { IfOk result (λ lines. AllByRecursion (λ l. Has plan.now l.request) lines.items) }
    ensures bad { IfErr result (λ fault. fault ≢ faults.Memory →
        first_bad_by (request_in plan.now) 1 (lines_of bytes.now) ≡ Some fault) }
{
    let index = index_of(alloc, plan)?;
    let mut room = Spelled {
        bytes: Vec::new(alloc),
    };
    let mut lines = Vec::new(alloc);
    read_into(plan, &index, &mut room, bytes, &mut lines)?;
    Ok(lines)
}

/// The script that these bytes spell. A fault is the first of these: there are more than 4,194,304
/// bytes; more than 65,536 lines; a bad line; with those at the start more operations than 1,048,576
/// may come about.
#[tactic(auto, using(crate::proofs::Refusing::line_is_none, crate::proofs::Refusing::much_is_none))]
pub fn cppc_parse(alloc: Global, bytes: &[u8], plan: &CppcPlan) -> Result<CppcScript, ScriptFault>
    ensures script { IfOk result (λ s. IsScript plan.now bytes.now s.lines) }
    ensures fit { IfOk result (λ s. Fit plan.now s.lines) }
    ensures none { IfErr result (λ fault. fault ≢ faults.Memory →
        IsNoScript plan.now bytes.now fault) }
{
    if let Some(fault) = too_long(bytes) {
        return Err(fault);
    }
    let lines = read_lines(alloc, bytes, plan)?;
    if has_too_many(plan, lines.as_slice()) {
        return Err(ScriptFault::TooLong {
            bound: MOST_OPERATIONS,
        });
    }
    Ok(CppcScript {
        lines: List::from_vec(lines),
    })
}
