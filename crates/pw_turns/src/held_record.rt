use crate::contents::Old;
use pw_journal::Journal;
use pw_model::Reply;
use pw_rule::{Boxed, Content};

/// A record that a request holds, and what stood in it before the request changed it.
#[derive(Drop)]
pub(crate) struct HeldRecord<R> {
    pub(crate) turn: u32,
    pub(crate) content: Content<R>,
    pub(crate) old: Old,
}

/// The reply of a request that has all its turns, and the journal.
pub(crate) struct Reached<R> {
    pub(crate) reply: Reply,
    pub(crate) journal: Boxed<Journal<R>>,
}
