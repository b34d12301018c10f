use crate::part::Part;
use pw_books::Calls;
use pw_model::HistoryEntry;
use pw_plan::Request;
use std::collections::LinkedList;

/// A record that a seat holds, with the part that it noted of it.
pub struct Held {
    pub turn: u32,
    pub noted: Part,
}

/// A turn that was found held, and by whom.
pub struct Met {
    pub turn: u32,
    pub holder: u32,
}

/// What a seat knows. No value of it is made.
pub struct View {
    pub number: u32,
    /// The history as far as the seat has seen it.
    pub seen: LinkedList<HistoryEntry>,
    /// What the seat that was joined had seen, until the read after the join.
    pub told: Option<LinkedList<HistoryEntry>>,
    pub book: LinkedList<Calls<HistoryEntry>>,
    /// The records that it holds, in the order in which it took them.
    pub held: LinkedList<Held>,
    /// Whether it holds the journal.
    pub leads: bool,
    /// The turns whose slots are empty: it has their values in hand. The journal's turn is the one
    /// after the records'.
    pub out: LinkedList<u32>,
    /// The registers' count when it last took the journal, and when it last released it.
    pub at_lock: Option<u64>,
    pub at_unlock: Option<u64>,
    pub request: Option<Request>,
    /// It made its entry, or gives up.
    pub releasing: bool,
    pub met: Option<Met>,
    pub meets: u64,
    /// None is left to a seat that was joined into another.
    pub parts: u32,
    /// The coordinator is being opened.
    pub mark: bool,
    /// The number of seats made that it last read.
    pub read: Option<u32>,
}
