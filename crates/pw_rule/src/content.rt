use crate::boxed::Boxed;
use pw_domain::{DomainRec, GroupRec};
use pw_idle::NodeRec;
use pw_journal::Journal;

/// What lies in a slot: a record, or the journal.
#[derive(Drop)]
pub enum Content<R> {
    Node(Boxed<NodeRec>),
    Domain(Boxed<DomainRec>),
    Group(Boxed<GroupRec>),
    Log(Boxed<Journal<R>>),
}
