//! The requests of each processor's lines.
ghost use Rattle.std.specs.Prelude.{[], length, IfOk, OnOk};
ghost use Rattle.std.specs.List.{AllByRecursion};
ghost use Rattle.pw_cppc.specs.Requests.{Has};
ghost use Rattle.pw_cppc_drive.specs.declared.script.CppcLine.{CppcLine as line};
ghost use Rattle.pw_cppc_drive.specs.Reading.{requests_of};
ghost use Rattle.pw_cppc_drive.specs.inner.Lists.{AreLists};

use crate::CppcLine;
use pw_base::Memory;
use pw_cppc::{CppcPlan, CppcRequest};
use std::alloc::Global;

/// So many lists in which nothing is.
fn empty_lists(alloc: Global, count: usize) -> Result<Vec<Vec<CppcRequest>>, Memory>
    ensures { IfOk result (λ lists. AreLists [] count lists.items) }
{
    let mut lists = Vec::with_capacity(alloc, count)?;
    for _ in 0..count {
        lists.push_reserved(Vec::new(alloc));
    }
    Ok(lists)
}

/// Puts the requests of lines, in their order, into the lists of their processors.
fn put_lines(
    plan: &CppcPlan,
    lines: &[CppcLine],
    lists: &mut Vec<Vec<CppcRequest>>,
) -> Result<(), Memory>
    requires has { AllByRecursion (λ (l : line). Has plan.now l.request) lines.now }
    requires empty { AreLists [] (length plan.now.cpus) lists.old.items }
    ensures { OnOk result (AreLists (requests_of lines.now) (length plan.now.cpus) lists.new.items) }
{
    for line in lines {
        lists[line.request.cpu() as usize].push(line.request)?;
    }
    Ok(())
}

/// A list for each processor of the plan, with the requests of its lines in their order.
pub(crate) fn lists_of(
    alloc: Global,
    plan: &CppcPlan,
    lines: &[CppcLine],
) -> Result<Vec<Vec<CppcRequest>>, Memory>
    requires { AllByRecursion (λ (l : line). Has plan.now l.request) lines.now }
    ensures { IfOk result (λ lists. AreLists (requests_of lines.now) (length plan.now.cpus) lists.items) }
{
    let mut lists = empty_lists(alloc, plan.cpus.as_slice().len())?;
    put_lines(plan, lines, &mut lists)?;
    Ok(lists)
}
