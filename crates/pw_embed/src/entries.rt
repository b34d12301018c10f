ghost use Rattle.std.specs.Prelude.{◌≡◌};
ghost use Rattle.pw_embed.specs.Entries.{entry_numbers};

use crate::RequestNumbers;
use pw_model::HistoryEntry;

/// A request that was made, as a history keeps it.
#[repr(C)]
#[derive(Clone, Copy)]
pub struct EntryNumbers {
    /// The number of the seat that made it.
    pub seat: u32,
    /// 0, or one more than the number of operations that were done before a register failed.
    pub fault: u32,
    pub request: RequestNumbers,
}

impl EntryNumbers {
    /// The numbers of an entry.
    pub fn of(entry: &HistoryEntry) -> EntryNumbers
        ensures { result ≡ entry_numbers entry.now }
    {
        EntryNumbers {
            seat: entry.seat,
            fault: entry.fault,
            request: RequestNumbers {
                kind: entry.code,
                cpu: entry.cpu,
                argument: entry.argument,
                tolerance: entry.tolerance,
            },
        }
    }
}
