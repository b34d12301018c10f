use crate::register::Register;
use pw_base::List;

/// How a low power idle state is entered (ACPI 6.5, 8.4.3.3).
#[derive(Clone, Copy)]
pub enum EntryMethod {
    /// By this register.
    Register(Register),
    /// By this number, which is added to the address of the register of the state below.
    Integer(u64),
}

/// A low power idle state: an element of `_LPI` (ACPI 6.5, 8.4.3.3).
#[derive(Drop)]
pub struct LpiState {
    /// The least time in the state that is worth its cost, in microseconds.
    pub min_residency: u32,
    /// The worst time to wake, in microseconds.
    pub wake_latency: u32,
    /// Bit 0: the state is enabled. The others are 0.
    pub flags: u32,
    /// Which context is lost.
    pub lost: u32,
    /// The frequency of the residency counter in Hz, 0 where it isn't known.
    pub frequency: u32,
    /// The deepest state of the parent that this state enables, 0 for none.
    pub parent: u32,
    pub entry: EntryMethod,
    /// The counter of time in this state; null where there is none.
    pub residency: Register,
    /// The counter of entries to this state; null where there is none.
    pub usage: Register,
    /// The name of the state, as text.
    pub name: List<u8>,
}

/// Low power idle states: `_LPI` (ACPI 6.5, 8.4.3.3).
#[derive(Drop)]
pub struct Lpi {
    /// 0 where the states are entered hierarchically.
    pub level: u64,
    /// State 1 first.
    pub states: List<LpiState>,
}
