ghost use Rattle.std.specs.Prelude.{◌≡◌, ◌<◌, ◌++◌, ◌==◌, [], length, map, All, if◌then◌else◌};
ghost use Rattle.pw_plan.specs.Parts.{scale_of};
ghost use Rattle.pw_plan.specs.Requests.{domain_bound, set_count};
ghost use Rattle.pw_plan.specs.Places.{domain_at, domain_of};
ghost use Rattle.pw_model.specs.States.{IsState, with_change};
ghost use Rattle.pw_model.specs.Answers.{stands};
ghost use Rattle.pw_model.specs.Operations.{control_of, domain_ops};
ghost use Rattle.pw_model.specs.Operations.{register_of, set_at, set_on};
ghost use Rattle.pw_regs.specs.Rooms.{HasRoom};

use crate::composite::own_register;
use crate::domains::standing;
use acpi_values::{Coord, EntryMethod, Op, Register};
use pw_model::{Change, Reply, State};
use pw_plan::{CpuParts, DomainKind, Plan};
use pw_regs::Ops;

/// The control register of a processor's states of this kind.
fn register_of(kind: DomainKind, cpu: &CpuParts) -> Register
    ensures { result ≡ register_of (scale_of kind cpu.now) }
{
    match cpu.scale(kind) {
        None => own_register(EntryMethod::Integer(0)),
        Some(found) => match found.register {
            None => own_register(EntryMethod::Integer(0)),
            Some(register) => register,
        },
    }
}

/// The control value of a processor's state of this kind.
fn control_of(kind: DomainKind, cpu: &CpuParts, state: u8) -> u32
    ensures { result ≡ control_of (scale_of kind cpu.now) state }
{
    match cpu.scale(kind) {
        None => 0,
        Some(found) => {
            let controls = found.controls.as_slice();
            if (state as usize) < controls.len() {
                controls[state as usize]
            } else {
                0
            }
        }
    }
}

/// Sets a state on a processor, by its own register and control value.
pub fn set_on(plan: &Plan, kind: DomainKind, state: u8, cpu: u32) -> Op
    requires { cpu < length plan.now.cpus }
    ensures { result ≡ set_on plan.now kind state cpu }
{
    let parts = plan.cpu(cpu);
    Op::Set {
        cpu,
        register: register_of(kind, parts),
        value: u64::from(control_of(kind, parts, state)),
    }
}

/// Sets a state on each of these processors, in their order.
pub fn set_each(plan: &Plan, kind: DomainKind, state: u8, members: &[u32], ops: &mut Ops)
    requires members { All (λ p. p < length plan.now.cpus) members.now }
    requires room { HasRoom ops.old (length members.now) }
    ensures { ops.new ≡ record ops.old {
      elements = ops.old.elements ++ map (set_on plan.now kind state) members.now;
    } }
{
    for member in members {
        ops.push(set_on(plan, kind, state, *member));
    }
}

/// Where the processor's domain of this kind stands in the changed state.
pub fn stands_after(plan: &Plan, state: &State, change: Change, kind: DomainKind, cpu: u32) -> Reply
    requires cpu { cpu < length plan.now.cpus }
    requires place { domain_of plan.now kind cpu < length plan.now.domains }
    requires fits { IsState plan.now state.now }
    ensures { result ≡ stands plan.now (with_change state.now change) kind cpu }
{
    let Some(membership) = plan.domain_of(kind, cpu) else {
        unreachable!()
    };
    Reply::Stands {
        index: u32::from(standing(plan, state, change, membership.place, cpu)),
    }
}

/// Sets where a domain stands, if that isn't where it stood before, and says it.
pub fn set_changed(
    plan: &Plan,
    kind: DomainKind,
    place: usize,
    cpu: u32,
    before: u8,
    after: u8,
    ops: &mut Ops,
) -> Reply
    requires place { place < length plan.now.domains }
    requires cpu { cpu < length plan.now.cpus }
    requires room { HasRoom ops.old (set_count (domain_at plan.now place).coord
        (length (domain_at plan.now place).members)) }
    ensures reply { result ≡ Reply.Stands after }
    ensures list { ops.new ≡ record ops.old {
      elements = ops.old.elements ++ (if before == after then [] else
          map (set_on plan.now kind after)
          (set_at (domain_at plan.now place).coord (domain_at plan.now place).members cpu));
    } }
{
    if before != after {
        let domain = plan.domain(place);
        match domain.coord {
            Coord::SwAll => set_each(plan, kind, after, domain.members.as_slice(), ops),
            Coord::SwAny => ops.push(set_on(plan, kind, after, cpu)),
            Coord::HwAll => ops.push(set_on(plan, kind, after, cpu)),
        }
    }
    Reply::Stands {
        index: u32::from(after),
    }
}

/// Appends the operations of an accepted request on the processor's domain of this kind, and says
/// where the domain then stands.
pub fn set_domain(
    plan: &Plan,
    state: &State,
    change: Change,
    kind: DomainKind,
    cpu: u32,
    ops: &mut Ops,
) -> Reply
    requires cpu { cpu < length plan.now.cpus }
    requires place { domain_of plan.now kind cpu < length plan.now.domains }
    requires fits { IsState plan.now state.now }
    requires room { HasRoom ops.old (domain_bound plan.now kind cpu) }
    ensures reply { result ≡ stands plan.now (with_change state.now change) kind cpu }
    ensures list { ops.new ≡ record ops.old {
      elements = ops.old.elements
          ++ domain_ops plan.now state.now (with_change state.now change) kind cpu;
    } }
{
    let Some(membership) = plan.domain_of(kind, cpu) else {
        unreachable!()
    };
    let before = standing(plan, state, Change::Nothing, membership.place, cpu);
    let after = standing(plan, state, change, membership.place, cpu);
    set_changed(plan, kind, membership.place, cpu, before, after, ops)
}
