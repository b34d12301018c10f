ghost use Rattle.std.specs.Prelude.{◌≡◌, ◌<◌, ◌++◌, ◌==◌, [], length, All, if◌then◌else◌};
ghost use Rattle.std.specs.List.{flat_map};
ghost use Rattle.pw_plan.specs.Requests.{set_count};
ghost use Rattle.pw_model.specs.Operations.{set_at};
ghost use Rattle.pw_regs.specs.Rooms.{HasRoom};
ghost use Rattle.pw_cppc.specs.declared.parts.Control.TheVariants.{Desired};
ghost use Rattle.pw_cppc.specs.Planning.{domain_at, parts_at};
ghost use Rattle.pw_cppc.specs.Requests.{Has, register_count};
ghost use Rattle.pw_cppc.specs.Operations.{bound_ops, set_on};

use crate::{Control, CppcPlan, CppcRequest};
use acpi_values::{Coord, Op};
use pw_regs::Ops;

/// Sets a value on a processor, where it has the register.
pub fn set_on(plan: &CppcPlan, control: Control, cpu: u32, value: u64, ops: &mut Ops)
    requires cpu { cpu < length plan.now.cpus }
    requires room { HasRoom ops.old (register_count control (parts_at plan.now cpu)) }
    ensures { ops.new ≡ record ops.old {
      elements = ops.old.elements ++ set_on plan.now control cpu value;
    } }
{
    if let Some(register) = plan.parts(cpu).register(control) {
        ops.push(Op::Set {
            cpu,
            register,
            value,
        });
    }
}

/// Sets the desired performance on each of these processors, in their order.
pub fn set_each(plan: &CppcPlan, value: u64, members: &[u32], ops: &mut Ops)
    requires members { All (λ p. p < length plan.now.cpus) members.now }
    requires room { HasRoom ops.old (length members.now) }
    ensures { ops.new ≡ record ops.old {
      elements = ops.old.elements ++ flat_map (λ p. set_on plan.now Desired p value) members.now;
    } }
{
    for member in members {
        set_on(plan, Control::Desired, *member, value, ops);
    }
}

/// Sets a new minimum or maximum on the processor itself.
pub fn set_bound(plan: &CppcPlan, request: CppcRequest, ops: &mut Ops)
    requires has { Has plan.now request }
    requires room { HasRoom ops.old 1 }
    ensures { ops.new ≡ record ops.old {
      elements = ops.old.elements ++ bound_ops plan.now request;
    } }
{
    match request {
        CppcRequest::Desired { .. } => {}
        CppcRequest::Minimum { cpu, value } => {
            set_on(plan, Control::Minimum, cpu, u64::from(value), ops)
        }
        CppcRequest::Maximum { cpu, value } => {
            set_on(plan, Control::Maximum, cpu, u64::from(value), ops)
        }
    }
}

/// Sets where a domain stands, if that isn't where it stood before.
pub fn set_changed(plan: &CppcPlan, place: usize, cpu: u32, before: u64, after: u64, ops: &mut Ops)
    requires place { place < length plan.now.domains }
    requires cpu { cpu < length plan.now.cpus }
    requires room { HasRoom ops.old (set_count (domain_at plan.now place).coord
        (length (domain_at plan.now place).members)) }
    ensures { ops.new ≡ record ops.old {
      elements = ops.old.elements ++ (if before == after then [] else
          flat_map (λ p. set_on plan.now Desired p after)
          (set_at (domain_at plan.now place).coord (domain_at plan.now place).members cpu));
    } }
{
    if before == after {
        return;
    }
    let domain = plan.domain(place);
    match domain.coord {
        Coord::SwAll => set_each(plan, after, domain.members.as_slice(), ops),
        Coord::SwAny => set_on(plan, Control::Desired, cpu, after, ops),
        Coord::HwAll => set_on(plan, Control::Desired, cpu, after, ops),
    }
}
