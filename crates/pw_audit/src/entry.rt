//! The lines of an entry.
ghost use Rattle.std.specs.Prelude.{◌≡◌, ◌<◌, ◌≤◌, ◌+◌, ◌^◌, length, take, IfErr, IfOk, if◌then◌else◌, ◌==◌, ◌-◌};
ghost use Rattle.pw_audit.specs.inner.Heading.{AreAllPaths};
ghost use Rattle.pw_audit.specs.inner.Looking.{LeadsTo};
ghost use Rattle.pw_audit.specs.inner.Outcomes.{PlanTells};
ghost use Rattle.pw_audit.specs.inner.Queues.{AreWithin, EachOwn};
ghost use Rattle.pw_audit.specs.inner.Stopping.{OpsRead, StopsAtEntry, StopsInOps};
ghost use Rattle.pw_audit.specs.inner.Walking.{Steps};

use crate::answer::AuditFault;
use crate::form::Form;
use crate::head::read_head;
use crate::kind::Audited;
use crate::matching::pass_ops;
use crate::outcome::read_outcome;
use crate::queues::Queues;
use crate::traced::pass_traced;
use acpi_values::Op;
use pw_regs::Ops;
use pw_text::PathTexts;
use std::alloc::Global;
use std::collections::HashMap;

/// The operations that were done before a fault, all where there is none.
fn done_before(ops: &[Op], fault: u32) -> &[Op]
    requires { fault ≤ length ops.now }
    ensures { result.now ≡ (if fault == 0 then ops.now else take (fault - 1) ops.now) }
{
    if fault == 0 {
        return ops;
    }
    &ops[..fault as usize - 1]
}

/// Passes over the lines of an entry's operations, which should come behind so many lines.
fn pass_done<'a, T: Audited>(
    form: Form,
    alloc: Global,
    line: &mut Vec<u8>,
    plan: &T::Plan,
    paths: &PathTexts,
    index: &HashMap<Vec<u8>, u32>,
    done: &[Op],
    before: u32,
    left: &'a [u8],
) -> Result<&'a [u8], AuditFault>
    requires laws { PlanTells T.words plan.now T.is_narrow T.is_narrow_request }
    requires paths { AreAllPaths T.words plan.now paths.now }
    requires index { LeadsTo 0 paths.now index.now }
    requires within { AreWithin (T.words.cpus plan.now) done.now }
    requires short { before + length left.now < 2 ^ 32 }
    ensures ok { IfOk result (λ rest. OpsRead T.words form plan.now done.now left.now rest.now) }
    ensures stops { IfErr result (StopsInOps T.words form plan.now done.now before left.now) }
{
    match form {
        Form::History => pass_ops(line, paths, done, before, left),
        Form::Trace => pass_traced::<T>(alloc, line, plan, paths, index, done, before, left),
    }
}

/// The entry that comes next in a text, asked in this state, and what stands behind its lines and how many
/// lines stand before that. Leaves the state after the entry.
pub(crate) fn read_entry<'a, T: Audited>(
    form: Form,
    alloc: Global,
    line: &mut Vec<u8>,
    plan: &T::Plan,
    paths: &PathTexts,
    index: &HashMap<Vec<u8>, u32>,
    asked: &mut Queues<T::Request>,
    state: &mut T::State,
    ops: &mut Ops,
    number: u64,
    before: u32,
    left: &'a [u8],
) -> Result<(T::Entry, u32, &'a [u8]), AuditFault>
    requires laws { PlanTells T.words plan.now T.is_narrow T.is_narrow_request }
    requires paths { AreAllPaths T.words plan.now paths.now }
    requires index { LeadsTo 0 paths.now index.now }
    requires size { length asked.old ≡ T.words.cpus plan.now }
    requires own { EachOwn T.words asked.old }
    requires fits { T.fits plan.now state.old }
    requires room { T.most plan.now ≤ ops.old.capacity }
    requires some { 0 < length left.now }
    requires short { before + length left.now < 2 ^ 32 }
    ensures steps { IfOk result (λ r. Steps T.words T.fits form plan.now state.old number asked.old before
        left.now r.0 state.new asked.new r.1 r.2.now) }
    ensures room { ops.new.capacity ≡ ops.old.capacity }
    ensures stops { IfErr result (
        StopsAtEntry T.words form plan.now state.old number asked.old before left.now) }
{
    let wrong = AuditFault::Wrong { line: before + 1 };
    let Some(head) = read_head::<T>(line, plan, paths, index, asked, number, left)? else {
        return Err(wrong);
    };
    let request = head.0;
    let Some((fault, rest)) = read_outcome::<T>(line, plan, state, ops, request, head.1)? else {
        return Err(wrong);
    };
    let done = done_before(ops.list(), fault);
    let next = pass_done::<T>(
        form,
        alloc,
        line,
        plan,
        paths,
        index,
        done,
        before + 1,
        rest,
    )?;
    Ok((
        T::entry(request, fault),
        before + 1 + done.len() as u32,
        next,
    ))
}
