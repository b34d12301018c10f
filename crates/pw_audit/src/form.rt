/// What an audited text is.
#[derive(Clone, Copy)]
pub enum Form {
    /// A printed history: the operations of its opening stand behind its first line, and those of an entry
    /// in their order.
    History,
    /// A trace of a running system: the operations of its opening may be left out, all of them, and those of
    /// an entry may stand in any order of the processors that they are on.
    Trace,
}
