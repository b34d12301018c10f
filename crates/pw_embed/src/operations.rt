ghost use Rattle.std.specs.Prelude.{◌≡◌, ◌≤◌, ◌++◌, length, map, drop};
ghost use Rattle.pw_embed.specs.Operations.{Listed, op_numbers, on};

use crate::status::Status;
use acpi_values::{Chain, Op, Register};
use pw_plan::in_32_bits;

/// An operation on a register of a processor: 1 a value is written to it, 2 the processor enters an idle
/// state by it.
#[repr(C)]
#[derive(Clone, Copy)]
pub struct OpNumbers {
    pub address: u64,
    /// Of 1 what is written; else 0.
    pub value: u64,
    pub kind: u32,
    pub cpu: u32,
    pub space: u8,
    pub width: u8,
    pub offset: u8,
    pub access: u8,
    /// Of 2 how many states there are; else 0.
    pub length: u8,
    pub states: [u8; 9],
}

const NO_STATES: Chain = Chain {
    len: 0,
    states: [0; 9],
};

impl OpNumbers {
    fn on(kind: u32, cpu: u32, register: Register, value: u64, chain: Chain) -> OpNumbers
        ensures { result ≡ on kind cpu register value chain }
    {
        let states = chain.states;
        OpNumbers {
            address: register.address,
            value,
            kind,
            cpu,
            space: register.space,
            width: register.width,
            offset: register.offset,
            access: register.access,
            length: chain.len,
            states,
        }
    }

    /// The numbers of an operation.
    pub fn of(op: Op) -> OpNumbers
        ensures { result ≡ op_numbers op }
    {
        match op {
            Op::Set {
                cpu,
                register,
                value,
            } => OpNumbers::on(1, cpu, register, value, NO_STATES),
            Op::Enter { cpu, composite } => {
                OpNumbers::on(2, cpu, composite.register, 0, composite.states)
            }
        }
    }
}

/// Writes the numbers of operations at the front of the caller's room.
fn put_ops(list: &[Op], out: &mut [OpNumbers])
    requires { length list.now ≤ length out.old }
    ensures { out.new ≡ map op_numbers list.now ++ drop (length list.now) out.old }
{
    for (i, op) in list.iter().enumerate() {
        out[i] = OpNumbers::of(*op);
    }
}

/// Writes operations at the front of the caller's room, where there is room for all of them, and how
/// many they are.
#[tactic(auto, unfolding(crate::specs::Operations::Listed))]
pub fn tell_ops(list: &[Op], out: &mut [OpNumbers], count: &mut u32) -> Status
    ensures { Listed list.now out.old out.new count.new result }
{
    *count = in_32_bits(list.len());
    if out.len() < list.len() {
        return Status::Room;
    }
    put_ops(list, out);
    Status::Done
}
