//! Operations of accepted requests.
ghost use Rattle.std.specs.Prelude.{◌≡◌, ◌<◌, ◌≤◌, ◌++◌, ◌∷◌, [], length, map, slice_index_or};
ghost use Rattle.acpi_values.specs.Idle.{rows_of};
ghost use Rattle.pw_plan.specs.Places.{cpu_at, domain_at};
ghost use Rattle.pw_plan.specs.Requests.{set_count};
ghost use Rattle.pw_model.specs.Answers.{chain_of};
ghost use Rattle.pw_model.specs.Operations.{set_at, set_on};
ghost use Rattle.pw_model.specs.Effects.{enter_c};
ghost use Rattle.pw_regs.specs.Rooms.{HasRoom};

use acpi_values::{Chain, Composite, Coord, Op};
use pw_core::{own_register, row, set_each, set_on};
use pw_plan::Plan;
use pw_regs::Ops;

/// Sets the new state of a domain, which this member asked for.
pub fn set_at(plan: &Plan, place: u32, member: u32, state: u8, ops: &mut Ops)
    requires place { place < length plan.now.domains }
    requires member { member < length (domain_at plan.now place).members }
    requires room { HasRoom ops.old
        (set_count (domain_at plan.now place).coord (length (domain_at plan.now place).members)) }
    ensures { ops.new ≡ record ops.old {
      elements = ops.old.elements ++ map (set_on plan.now (domain_at plan.now place).kind state)
          (set_at (domain_at plan.now place).coord (domain_at plan.now place).members
          (slice_index_or (domain_at plan.now place).members member 0));
    } }
{
    let domain = plan.domain(place as usize);
    let members = domain.members.as_slice();
    match domain.coord {
        Coord::SwAll => set_each(plan, domain.kind, state, members, ops),
        Coord::SwAny => ops.push(set_on(plan, domain.kind, state, members[member as usize])),
        Coord::HwAll => ops.push(set_on(plan, domain.kind, state, members[member as usize])),
    }
}

/// The chain of one state.
fn chain_of_one(state: u8) -> Chain
    ensures { result ≡ chain_of (state ∷ []) }
{
    Chain {
        len: 1,
        states: [state, 0, 0, 0, 0, 0, 0, 0, 0],
    }
}

/// A processor enters a C state.
pub fn enter_c(plan: &Plan, cpu: u32, state: u8) -> Op
    requires cpu { cpu < length plan.now.cpus }
    requires first { 1 ≤ state }
    requires last { state ≤ length (rows_of (cpu_at plan.now cpu).idle) }
    ensures { result ≡ enter_c plan.now cpu state }
{
    Op::Enter {
        cpu,
        composite: Composite {
            register: own_register(row(&plan.cpu(cpu).idle, state).entry),
            states: chain_of_one(state),
        },
    }
}
