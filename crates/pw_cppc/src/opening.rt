ghost use Rattle.std.specs.Prelude.{◌≡◌, ◌<◌, ◌+◌, ◌++◌, length, map, sum_by, All, IfOk};
ghost use Rattle.std.specs.List.{flat_map};
ghost use Rattle.pw_model.specs.Operations.{opening_at};
ghost use Rattle.pw_regs.specs.Rooms.{HasRoom};
ghost use Rattle.pw_cppc.specs.declared.parts.Control.TheVariants as controls;
ghost use Rattle.pw_cppc.specs.Parts.{highest_of, lowest_of};
ghost use Rattle.pw_cppc.specs.Planning.{domain_at, parts_at};
ghost use Rattle.pw_cppc.specs.Requests.{opened_by, opening_bound, opening_count};
ghost use Rattle.pw_cppc.specs.Requests.{register_count};
ghost use Rattle.pw_cppc.specs.States.{opening};
ghost use Rattle.pw_cppc.specs.Operations.{opening_ops, opening_ops_of, range_ops, set_on};

use crate::numbers::CppcNumbers;
use crate::setting::{set_each, set_on};
use crate::{Control, CppcPlan};
use acpi_values::Coord;
use pw_base::{List, Memory};
use pw_regs::Ops;
use std::alloc::Global;

/// The highest performance of each processor.
fn highest_of_all(alloc: Global, plan: &CppcPlan) -> Result<List<u64>, Memory>
    ensures { IfOk result (λ numbers. numbers ≡ map highest_of plan.now.cpus) }
{
    let mut numbers = Vec::new(alloc);
    for parts in plan.cpus.as_slice() {
        numbers.push(parts.highest())?;
    }
    Ok(List::from_vec(numbers))
}

/// The lowest performance of each processor.
fn lowest_of_all(alloc: Global, plan: &CppcPlan) -> Result<List<u64>, Memory>
    ensures { IfOk result (λ numbers. numbers ≡ map lowest_of plan.now.cpus) }
{
    let mut numbers = Vec::new(alloc);
    for parts in plan.cpus.as_slice() {
        numbers.push(parts.lowest())?;
    }
    Ok(List::from_vec(numbers))
}

/// The numbers that a plan opens with.
#[tactic(auto, unfolding(crate::specs::States::opening))]
pub fn opened(alloc: Global, plan: &CppcPlan) -> Result<CppcNumbers, Memory>
    ensures { IfOk result (λ numbers. numbers ≡ opening plan.now) }
{
    Ok(CppcNumbers {
        asks: highest_of_all(alloc, plan)?,
        minima: lowest_of_all(alloc, plan)?,
        maxima: highest_of_all(alloc, plan)?,
    })
}

/// Sets the bounds of a processor to its lowest and its highest performance.
fn set_range(plan: &CppcPlan, cpu: u32, ops: &mut Ops)
    requires cpu { cpu < length plan.now.cpus }
    requires room { HasRoom ops.old (register_count controls.Minimum (parts_at plan.now cpu)
        + register_count controls.Maximum (parts_at plan.now cpu)) }
    ensures { ops.new ≡ record ops.old { elements = ops.old.elements ++ range_ops plan.now cpu } }
{
    let parts = plan.parts(cpu);
    set_on(plan, Control::Minimum, cpu, parts.lowest(), ops);
    set_on(plan, Control::Maximum, cpu, parts.highest(), ops);
}

/// Sets the bounds of each of these processors.
fn set_ranges(plan: &CppcPlan, members: &[u32], ops: &mut Ops)
    requires members { All (λ p. p < length plan.now.cpus) members.now }
    requires room { HasRoom ops.old (sum_by (λ p. register_count controls.Minimum (parts_at plan.now p)
        + register_count controls.Maximum (parts_at plan.now p)) members.now) }
    ensures { ops.new ≡ record ops.old {
      elements = ops.old.elements ++ flat_map (range_ops plan.now) members.now;
    } }
{
    for member in members {
        set_range(plan, *member, ops);
    }
}

/// Sets at the start where a domain stands: on each member, or on the first of a SW_ANY domain.
fn set_start(plan: &CppcPlan, coord: Coord, value: u64, members: &[u32], ops: &mut Ops)
    requires members { All (λ p. p < length plan.now.cpus) members.now }
    requires room { HasRoom ops.old (opened_by coord members.now) }
    ensures { ops.new ≡ record ops.old {
      elements = ops.old.elements
          ++ flat_map (λ p. set_on plan.now controls.Desired p value) (opening_at coord members.now);
    } }
{
    match coord {
        Coord::SwAll => set_each(plan, value, members, ops),
        Coord::SwAny => {
            if let Some(first) = members.first() {
                set_on(plan, Control::Desired, *first, value, ops);
            }
        }
        Coord::HwAll => set_each(plan, value, members, ops),
    }
}

/// Appends the operations at the start on this domain. Each member asks for its highest
/// performance, which in a fit domain is that of all and within its bounds: there they stand.
fn open_domain(plan: &CppcPlan, place: usize, ops: &mut Ops)
    requires place { place < length plan.now.domains }
    requires room { HasRoom ops.old (opening_count plan.now (domain_at plan.now place)) }
    ensures { ops.new ≡ record ops.old { elements = ops.old.elements ++ opening_ops_of plan.now place } }
{
    let domain = plan.domain(place);
    if domain.unfit != 0 {
        return;
    }
    let members = domain.members.as_slice();
    let Some(first) = members.first() else {
        return;
    };
    let highest = plan.parts(*first).highest();
    set_ranges(plan, members, ops);
    set_start(plan, domain.coord, highest, members, ops)
}

/// Appends the operations at the start: each fit domain's bounds, and where it stands.
pub fn open_all(plan: &CppcPlan, ops: &mut Ops)
    requires { HasRoom ops.old (opening_bound plan.now) }
    ensures { ops.new ≡ record ops.old { elements = ops.old.elements ++ opening_ops plan.now } }
{
    for place in 0..plan.domains.as_slice().len() {
        open_domain(plan, place, ops);
    }
}
