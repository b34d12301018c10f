use crate::Calls;
use std::collections::LinkedList;

/// What a seat knows. No value of it is made.
pub struct View<E> {
    pub number: u32,
    /// The history as far as the seat has seen it.
    pub seen: LinkedList<E>,
    /// What the seat that was joined had seen, until the read after the join.
    pub told: Option<LinkedList<E>>,
    pub book: LinkedList<Calls<E>>,
    /// Whether it holds the turn.
    pub holds: bool,
    /// The slot is empty: it has its value in hand.
    pub out: bool,
    /// The registers' count when it last took the turn, and when it last released it.
    pub at_lock: Option<u64>,
    pub at_unlock: Option<u64>,
    /// The seat that held the turn when this one last looked for it in vain.
    pub met: Option<u32>,
    pub meets: u64,
    /// None is left to a seat that was joined into another.
    pub parts: u32,
    /// The desk is being opened.
    pub mark: bool,
    /// The number of seats made that it last read.
    pub read: Option<u32>,
}
