use crate::lpi::EntryMethod;
use crate::register::Register;
use pw_base::List;

/// A C state: an element of `_CST` (ACPI 6.5, 8.4.1.1).
#[derive(Clone, Copy)]
pub struct CState {
    pub register: Register,
    /// The type of the state: 1 for C1, and so on.
    pub kind: u8,
    /// The worst time to enter and leave the state, in microseconds.
    pub latency: u32,
    /// In milliwatts.
    pub power: u32,
}

/// Which states a processor or container may idle in.
#[derive(Clone, Copy)]
pub enum IdleKind {
    /// Low power idle states of `_LPI`.
    Lpi,
    /// C states of `_CST`.
    Cst,
    /// None.
    Absent,
}

/// A state to idle in, as coordination sees it.
#[derive(Clone, Copy)]
pub struct IdleRow {
    pub enabled: bool,
    /// The worst time to wake, in microseconds.
    pub latency: u32,
    /// The least time in the state that is worth its cost, in microseconds; 0 for a C state.
    pub residency: u32,
    /// The deepest state of the parent that this state enables, 0 for none and for a C state.
    pub parent: u32,
    pub entry: EntryMethod,
}

/// The states that a processor or container may idle in. State i is row i, counted from 1;
/// state 0 is running. An absent table has no states, whatever rows it holds.
#[derive(Drop)]
pub struct IdleTable {
    pub kind: IdleKind,
    pub rows: List<IdleRow>,
}

impl IdleTable {
    ghost use Rattle.std.specs.Prelude.{◌≡◌};
    ghost use Rattle.acpi_values.specs.Idle.{rows_of};

    /// The rows of the table's states, that of state 1 first.
    pub fn states(&self) -> &[IdleRow]
        ensures { result.now ≡ rows_of self.now }
    {
        match self.kind {
            IdleKind::Lpi => self.rows.as_slice(),
            IdleKind::Cst => self.rows.as_slice(),
            IdleKind::Absent => &[],
        }
    }
}
