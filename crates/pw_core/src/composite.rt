ghost use Rattle.std.specs.Prelude.{◌≡◌, ◌<◌, length};
ghost use Rattle.pw_model.specs.Composites.{add_entry, composite_of, own_register};
ghost use Rattle.pw_core.specs.Chains.{AreStatesOf, IsChain, states_in};

use crate::tree::row;
use acpi_values::{Chain, Composite, EntryMethod, Register};
use pw_plan::Plan;

/// A processor's own entry method as a register: a number is the address of one of fixed hardware.
pub fn own_register(entry: EntryMethod) -> Register
    ensures { result ≡ own_register entry }
{
    match entry {
        EntryMethod::Register(register) => register,
        EntryMethod::Integer(address) => Register {
            space: 127,
            width: 0,
            offset: 0,
            access: 0,
            address,
        },
    }
}

/// A container's entry method on top of what is below it.
fn add_entry(register: Register, entry: EntryMethod) -> Register
    ensures { result ≡ add_entry register entry }
{
    match entry {
        EntryMethod::Register(own) => own,
        EntryMethod::Integer(added) => Register {
            space: register.space,
            width: register.width,
            offset: register.offset,
            access: register.access,
            address: register.address.wrapping_add(added),
        },
    }
}

/// What a processor enters in a chain of its state and those of its containers.
pub fn chain_composite(plan: &Plan, cpu: u32, chain: &Chain) -> Composite
    requires cpu { cpu < length plan.now.cpus }
    requires chain { IsChain chain.now }
    requires states { AreStatesOf plan.now cpu (states_in chain.now) }
    ensures { result ≡ composite_of plan.now cpu (states_in chain.now) }
{
    let own = plan.cpu(cpu);
    let mut register = own_register(row(&own.idle, chain.states[0]).entry);
    let mut next = own.parent;
    for place in 1..chain.len as usize {
        if let Some(node) = next {
            let container = plan.container(node);
            register = add_entry(register, row(&container.idle, chain.states[place]).entry);
            next = container.parent;
        }
    }
    Composite {
        register,
        states: *chain,
    }
}
