//! The requests of each processor's lines.
ghost use Rattle.std.specs.Prelude.{◌≡◌, [], length, IfOk};
ghost use Rattle.std.specs.List.{AllByRecursion};
ghost use Rattle.pw_plan.specs.Requests.{Has};
ghost use Rattle.pw_script.specs.declared.script.Line.{Line as asked};
ghost use Rattle.pw_script.specs.Reading.{requests_of};
ghost use Rattle.pw_drive.specs.inner.Lists.{AreLists};

use pw_base::Memory;
use pw_plan::{Plan, Request};
use pw_script::Line;
use std::alloc::Global;

/// How many of the lines are of each processor of the plan.
fn counts_of(alloc: Global, plan: &Plan, lines: &[Line]) -> Result<Vec<usize>, Memory>
    requires { AllByRecursion (λ (l : asked). Has plan.now l.request) lines.now }
    ensures { IfOk result (λ counts. length counts.items ≡ length plan.now.cpus) }
{
    let mut counts = vec![in alloc; 0usize; plan.cpus.as_slice().len()]?;
    for line in lines {
        let count = &mut counts[line.request.cpu() as usize];
        *count = count.saturating_add(1);
    }
    Ok(counts)
}

/// Lists in which nothing is, with room for so many requests each.
fn empty_lists(alloc: Global, counts: &[usize]) -> Result<Vec<Vec<Request>>, Memory>
    ensures { IfOk result (λ lists. AreLists [] (length counts.now) lists.items) }
{
    let mut lists = Vec::with_capacity(alloc, counts.len())?;
    for count in counts {
        lists.push_reserved(Vec::with_capacity(alloc, *count)?);
    }
    Ok(lists)
}

/// A list for each processor of the plan, with the requests of its lines in their order.
pub(crate) fn lists_of(
    alloc: Global,
    plan: &Plan,
    lines: &[Line],
) -> Result<Vec<Vec<Request>>, Memory>
    requires { AllByRecursion (λ (l : asked). Has plan.now l.request) lines.now }
    ensures { IfOk result (λ lists. AreLists (requests_of lines.now) (length plan.now.cpus) lists.items) }
{
    let counts = counts_of(alloc, plan, lines)?;
    let mut lists = empty_lists(alloc, counts.as_slice())?;
    for line in lines {
        lists[line.request.cpu() as usize].push(line.request)?;
    }
    Ok(lists)
}
