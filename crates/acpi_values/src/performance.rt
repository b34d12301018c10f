use crate::register::Register;
use pw_base::List;

/// A performance state: an entry of `_PSS`, the first being the fastest (ACPI 6.5, 8.4.5.2).
#[derive(Clone, Copy)]
pub struct PState {
    /// In MHz.
    pub frequency: u32,
    /// In milliwatts.
    pub power: u32,
    /// For how many microseconds the processor can't run while it changes to this state.
    pub latency: u32,
    /// For how many microseconds others can't reach memory meanwhile.
    pub bus_latency: u32,
    /// What is written to the control register to change to this state.
    pub control: u32,
    /// What the status register then shows.
    pub status: u32,
}

/// A throttling state: an entry of `_TSS`, the first being the fastest (ACPI 6.5, 8.4.4.2).
#[derive(Clone, Copy)]
pub struct TState {
    /// The percentage of the full frequency, 1 to 100.
    pub percent: u32,
    /// In milliwatts.
    pub power: u32,
    /// In microseconds.
    pub latency: u32,
    /// What is written to the control register to change to this state.
    pub control: u32,
    /// What the status register then shows; 0 where it needn't be looked at.
    pub status: u32,
}

/// The registers of `_PCT` or `_PTC` (ACPI 6.5, 8.4.5.1 and 8.4.4.1).
#[derive(Clone, Copy)]
pub struct ControlPair {
    pub control: Register,
    pub status: Register,
}

/// An element of `_CPC` behind the first two: a number, or the register that holds it.
#[derive(Clone, Copy)]
pub enum CpcEntry {
    Number(u64),
    Register(Register),
}

/// Continuous performance control: `_CPC` (ACPI 6.5, 8.4.6.1).
#[derive(Drop)]
pub struct Cpc {
    pub revision: u8,
    /// The elements from the third on, in their order.
    pub entries: List<CpcEntry>,
}
