use crate::fault::ObjectFault;
use crate::note::Note;

/// What was remarked of objects while they were read: notes, and which of them mean nothing.
#[derive(Drop)]
pub(crate) struct Said {
    pub(crate) notes: Vec<Note>,
    pub(crate) faults: Vec<ObjectFault>,
}
