ghost use Rattle.std.specs.Prelude.{◌≡◌};
ghost use Rattle.pw_audit.specs.declared.answer.AuditFault.TheVariants as faults;

use pw_base::{List, Memory};
use pw_cppc::CppcEntry;
use pw_model::HistoryEntry;
use std::alloc::AllocFailed;

/// How many bytes a text has at most.
pub const MOST_BYTES: u32 = 67_108_864;

/// What a whole text shows.
#[derive(Drop)]
pub struct Audit {
    /// How many operations were done where the opening was ended by a fault.
    pub opening: Option<u32>,
    /// The entries, each with the seat 0, since a text doesn't tell seats.
    pub entries: List<HistoryEntry>,
}

/// What a whole text of requests for performance shows.
#[derive(Drop)]
pub struct CppcAudit {
    /// How many operations were done where the opening was ended by a fault.
    pub opening: Option<u32>,
    /// The entries, each with the seat 0, since a text doesn't tell seats.
    pub entries: List<CppcEntry>,
}

/// Why a text isn't whole: the first of these that holds.
#[derive(Clone, Copy)]
pub enum AuditFault {
    /// It has more bytes than this.
    TooLong { bound: u32 },
    /// This line, counted from 1, is the first that no whole text has behind the lines before it.
    Wrong { line: u32 },
    /// Its lines, so many, are the first ones of a whole text, and not all of one.
    Unfinished { lines: u32 },
    /// Want of memory.
    Memory,
}

impl From<Memory> for AuditFault {
    ghost from_gives = { λ _ e. e ≡ faults.Memory };

    fn from(_e: Memory) -> AuditFault {
        AuditFault::Memory
    }
}

impl<T: Drop> From<AllocFailed<T>> for AuditFault {
    ghost from_gives = { λ _ e. e ≡ faults.Memory };

    fn from(_e: AllocFailed<T>) -> AuditFault {
        AuditFault::Memory
    }
}
