//! The walk over a text, line by line, with the state of the plan at each line.
ghost use Rattle.std.specs.Prelude.{◌≡◌, ◌<◌, ◌≤◌, ◌^◌, None, length, map, IfErr, IfOk, OnOk};
ghost use Rattle.std.specs.List.{AllByRecursion};
ghost use Rattle.pw_audit.specs.Judging.{IsShort};
ghost use Rattle.pw_audit.specs.Tracing.{ShowsAs};
ghost use Rattle.pw_audit.specs.inner.Heading.{AreAllPaths};
ghost use Rattle.pw_audit.specs.inner.Looking.{LeadsTo};
ghost use Rattle.pw_audit.specs.inner.Outcomes.{PlanTells};
ghost use Rattle.pw_audit.specs.inner.Stopping.{OpeningRead, Refuses, known};
ghost use Rattle.pw_audit.specs.inner.Walking.{Walked};

use crate::answer::AuditFault;
use crate::asked::asked_by;
use crate::entry::read_entry;
use crate::form::Form;
use crate::index::index_of;
use crate::kind::Audited;
use crate::opening::read_opening;
use crate::queues::Queues;
use pw_base::List;
use pw_regs::Ops;
use pw_text::PathTexts;
use std::alloc::Global;
use std::collections::HashMap;

/// The numbers of the lines' requests are of 32 bits.
fn lines_known<T: Audited>(lines: &[T::Line])
    ensures { AllByRecursion T.is_narrow_request (map T.ask lines.now) }
{
    let mut left = lines;
    while let [line, rest @ ..] = left {
        T::request_known(T::request_of(line));
        left = rest;
    }
}

/// Walks over the entries of a text behind its opening, which has so many lines, and puts them into a list.
fn walk<T: Audited>(
    form: Form,
    alloc: Global,
    line: &mut Vec<u8>,
    plan: &T::Plan,
    paths: &PathTexts,
    index: &HashMap<Vec<u8>, u32>,
    lines: &[T::Line],
    asked: &mut Queues<T::Request>,
    state: &mut T::State,
    ops: &mut Ops,
    text: &[u8],
    before: u32,
    behind: &[u8],
    entries: &mut Vec<T::Entry>,
) -> Result<(), AuditFault>
    requires laws { PlanTells T.words plan.now T.is_narrow T.is_narrow_request }
    requires paths { AreAllPaths T.words plan.now paths.now }
    requires index { LeadsTo 0 paths.now index.now }
    requires narrow { AllByRecursion T.is_narrow_request (map T.ask lines.now) }
    requires room { T.most plan.now ≤ ops.old.capacity }
    requires short { length text.now < 2 ^ 31 }
    requires walked { Walked T.words T.fits form plan.now (known T.words plan.now (map T.ask lines.now))
        text.now entries.old.items state.old asked.old before behind.now }
    ensures shows { OnOk result (ShowsAs T.words form plan.now (known T.words plan.now (map T.ask lines.now))
        text.now None entries.new.items) }
    ensures refuses { IfErr result
        (Refuses T.words form plan.now (known T.words plan.now (map T.ask lines.now)) text.now) }
{
    let mut passed = before;
    let mut left = behind;
    while !left.is_empty() {
        let number = entries.len() as u64 + 1;
        let read = read_entry::<T>(
            form, alloc, line, plan, paths, index, asked, state, ops, number, passed, left,
        )?;
        let fault = T::fault(&read.0);
        entries.push(read.0)?;
        passed = read.1;
        left = read.2;
        if fault != 0 {
            if !left.is_empty() {
                return Err(AuditFault::Wrong { line: passed + 1 });
            }
            return Ok(());
        }
    }
    if !asked.is_empty() {
        return Err(AuditFault::Unfinished { lines: passed });
    }
    Ok(())
}

/// The entries of a text behind its opening, which has so many lines.
fn read_entries<T: Audited>(
    form: Form,
    alloc: Global,
    line: &mut Vec<u8>,
    plan: &T::Plan,
    paths: &PathTexts,
    ops: &mut Ops,
    lines: &[T::Line],
    text: &[u8],
    before: u32,
    behind: &[u8],
) -> Result<Vec<T::Entry>, AuditFault>
    requires laws { PlanTells T.words plan.now T.is_narrow T.is_narrow_request }
    requires paths { AreAllPaths T.words plan.now paths.now }
    requires narrow { AllByRecursion T.is_narrow_request (map T.ask lines.now) }
    requires room { T.most plan.now ≤ ops.old.capacity }
    requires opened { OpeningRead T.words form plan.now None text.now before behind.now }
    requires short { length text.now < 2 ^ 31 }
    ensures shows { IfOk result (λ entries. ShowsAs T.words form plan.now
        (known T.words plan.now (map T.ask lines.now)) text.now None entries.items) }
    ensures refuses { IfErr result
        (Refuses T.words form plan.now (known T.words plan.now (map T.ask lines.now)) text.now) }
{
    let index = index_of(alloc, paths, T::cpus(plan))?;
    let Ok(mut state) = T::open(alloc, plan) else {
        drop(index);
        return Err(AuditFault::Memory);
    };
    let Ok(mut asked) = asked_by::<T>(alloc, T::cpus(plan) as usize, lines) else {
        drop(index);
        drop(state);
        return Err(AuditFault::Memory);
    };
    let mut entries = Vec::new(alloc);
    let walked = walk::<T>(
        form,
        alloc,
        line,
        plan,
        paths,
        &index,
        lines,
        &mut asked,
        &mut state,
        ops,
        text,
        before,
        behind,
        &mut entries,
    );
    drop(index);
    drop(state);
    drop(asked);
    walked?;
    Ok(entries)
}

/// What a text shows, if it is whole. The operations of the opening are listed.
fn read_parts<T: Audited>(
    form: Form,
    alloc: Global,
    line: &mut Vec<u8>,
    plan: &T::Plan,
    paths: &PathTexts,
    ops: &mut Ops,
    lines: &[T::Line],
    text: &[u8],
) -> Result<(Option<u32>, List<T::Entry>), AuditFault>
    requires laws { PlanTells T.words plan.now T.is_narrow T.is_narrow_request }
    requires paths { AreAllPaths T.words plan.now paths.now }
    requires narrow { AllByRecursion T.is_narrow_request (map T.ask lines.now) }
    requires listed { ops.old.elements ≡ T.words.opening_ops plan.now }
    requires room { T.most plan.now ≤ ops.old.capacity }
    requires short { IsShort text.now }
    ensures shown { IfOk result (λ a. ShowsAs T.words form plan.now (map T.ask lines.now) text.now a.0 a.1) }
    ensures refuses { IfErr result (Refuses T.words form plan.now (map T.ask lines.now) text.now) }
{
    let (opening, before, left) = read_opening::<T>(form, line, plan, paths, ops.list(), text)?;
    if let Some(_) = opening {
        if !left.is_empty() {
            return Err(AuditFault::Wrong { line: before + 1 });
        }
        return Ok((opening, List::from_vec(Vec::new(alloc))));
    }
    let entries = read_entries::<T>(
        form, alloc, line, plan, paths, ops, lines, text, before, left,
    )?;
    Ok((opening, List::from_vec(entries)))
}

/// What a text shows, if it is whole.
pub(crate) fn read_text<T: Audited>(
    form: Form,
    alloc: Global,
    plan: &T::Plan,
    lines: &[T::Line],
    text: &[u8],
) -> Result<(Option<u32>, List<T::Entry>), AuditFault>
    requires { IsShort text.now }
    ensures shown { IfOk result (λ a. ShowsAs T.words form plan.now (map T.ask lines.now) text.now a.0 a.1) }
    ensures refuses { IfErr result (Refuses T.words form plan.now (map T.ask lines.now) text.now) }
{
    T::plan_tells(plan);
    lines_known::<T>(lines);
    let paths = T::paths(alloc, plan)?;
    let mut ops = Ops::new(alloc, T::most_operations(plan))?;
    T::open_all(plan, &mut ops);
    let mut line = Vec::new(alloc);
    read_parts::<T>(form, alloc, &mut line, plan, &paths, &mut ops, lines, text)
}
