use aml_data::FullPath;

/// What is to be known of an object that counts as absent, in whole or in part.
#[derive(Clone, Copy)]
pub enum NoteKind {
    /// A method stands there.
    ByMethod,
    /// An alias stands there.
    ByAlias,
    /// A list of no states.
    Empty,
    /// A `_CST` beside an `_LPI`.
    Ignored,
    /// An entry of `_CSD` about a C state that isn't there.
    NoSuchState,
    /// The processor leads a domain that can't be coordinated, at this place of the plan's list.
    UnfitDomain { domain: u32 },
}

/// A note of an object.
#[derive(Drop)]
pub struct Note {
    pub path: FullPath,
    pub kind: NoteKind,
}
