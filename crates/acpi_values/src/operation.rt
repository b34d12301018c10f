use crate::register::Register;

/// The states that an idle request comes to: the processor's own first, then those of its containers
/// upwards, as far as they are above 0. The places from `len` on are 0.
#[derive(Clone, Copy)]
pub struct Chain {
    pub len: u8,
    pub states: [u8; 9],
}

/// What a processor enters: a register made of the entry methods of a chain of states
/// (ACPI 6.5, 8.4.3.3).
#[derive(Clone, Copy)]
pub struct Composite {
    pub register: Register,
    pub states: Chain,
}

/// An operation on a register of a processor.
#[derive(Clone, Copy)]
pub enum Op {
    /// The control value of a performance or throttling state is written.
    Set {
        cpu: u32,
        register: Register,
        value: u64,
    },
    /// The processor enters an idle state.
    Enter {
        cpu: u32,
        composite: Composite,
    },
}
