use aml_data::{Data, Path, Width};

/// What stands at a place of the namespace. Data and names are those of the block.
#[derive(Clone, Copy)]
pub enum Object<'a> {
    /// A data object.
    Data(&'a Data),
    /// A device.
    Device,
    /// A processor that is declared by a term of its own.
    Processor,
    /// A method. Its body isn't kept.
    Method,
    /// A second name of an object, with the name of that object as it is written.
    Alias(&'a Path),
}

/// An object that was placed. Its full path is told by the space: `Space::path` and `Space::fill_path`
/// at its index.
#[derive(Clone, Copy)]
pub struct Placed<'a> {
    pub(crate) name: usize,
    /// Its place in the list of the objects, from 0.
    pub index: usize,
    /// The object.
    pub object: Object<'a>,
    /// The width of its integers.
    pub width: Width,
}
