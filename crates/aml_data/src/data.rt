ghost use Rattle.std.specs.Prelude.{◌≡◌, IfOk};
ghost use Rattle.aml_data.specs.declared.data.Data.TheVariants.{Path as at_path};
ghost use Rattle.aml_data.specs.Objects.{Buffer as at_buffer, VarPackage as at_var_package};

use crate::path::{Path, copy_path};
use pw_base::{Boxed, CompactList, Memory};
use std::alloc::Global;

/// A data object: a constant, a string, a buffer, a package or a name (ACPI 6.5, 20.2.3).
#[derive(Drop)]
pub enum Data {
    /// An integer constant.
    Int(u64),
    /// All bits set, at the width of the integers of the table.
    Ones,
    /// The revision of the interpreter.
    Revision,
    /// A string: its bytes are 1 to 0x7F, without the 0 that ends it.
    Text(CompactList<u8>),
    /// A buffer.
    Buffer(Boxed<Buffer>),
    /// A package of so many elements, of which the first are given and the rest uninitialised.
    Package {
        count: u8,
        elements: CompactList<Data>,
    },
    /// A package that a constant counts.
    VarPackage(Boxed<Counted<Data>>),
    /// A name.
    Path(Boxed<Path>),
}

/// A buffer: its content is these bytes, and then zeros up to its size where that is greater
/// (ACPI 6.5, 20.2.5.4).
#[derive(Drop)]
pub struct Buffer {
    pub size: u64,
    pub bytes: CompactList<u8>,
}

/// So many elements, of which the first are given and the rest uninitialised (ACPI 6.5, 20.2.5.4).
#[derive(Drop)]
pub struct Counted<T> {
    pub count: u64,
    pub elements: CompactList<T>,
}

// A package of small numbers is little else than its elements: two words each.
const _: () = prove!(size_of::<Data>() == 16);

impl Data {
    /// A buffer of this size, which begins with these bytes.
    pub fn buffer(alloc: Global, size: u64, bytes: CompactList<u8>) -> Result<Data, Memory>
        ensures { IfOk result (λ object. object ≡ at_buffer size bytes) }
    {
        let buffer = Boxed::new(alloc, Buffer { size, bytes })?;
        Ok(Data::Buffer(buffer))
    }

    /// A package that a constant counts, of so many elements, which begins with these.
    pub fn var_package(
        alloc: Global,
        count: u64,
        elements: CompactList<Data>,
    ) -> Result<Data, Memory>
        ensures { IfOk result (λ object. object ≡ at_var_package count elements) }
    {
        let counted = Boxed::new(alloc, Counted { count, elements })?;
        Ok(Data::VarPackage(counted))
    }

    /// A name.
    pub fn path(alloc: Global, path: Path) -> Result<Data, Memory>
        ensures { IfOk result (λ object. object ≡ at_path path) }
    {
        let path = Boxed::new(alloc, path)?;
        Ok(Data::Path(path))
    }
}

/// How many bits an integer has in a table: 32 below revision 2 of its block, else 64
/// (ACPI 6.5, 5.2.11.1).
#[derive(Clone, Copy, Debug, PartialEq, Eq)]
pub enum Width {
    W32,
    W64,
}

fn copy_bytes(alloc: Global, bytes: &CompactList<u8>) -> Result<CompactList<u8>, Memory>
    ensures { IfOk result (λ copy. copy ≡ bytes.now) }
{
    CompactList::from_slice(alloc, bytes.as_slice())
}

/// A data object equal to this one.
#[cycle(copy)]
pub fn copy_data(alloc: Global, object: &Data) -> Result<Data, Memory>
    ensures { IfOk result (λ copy. copy ≡ object.now) }
{
    match object {
        Data::Int(value) => Ok(Data::Int(*value)),
        Data::Ones => Ok(Data::Ones),
        Data::Revision => Ok(Data::Revision),
        Data::Text(text) => {
            let text = copy_bytes(alloc, text)?;
            Ok(Data::Text(text))
        }
        Data::Buffer(buffer) => {
            let bytes = copy_bytes(alloc, &buffer.get().bytes)?;
            Data::buffer(alloc, buffer.get().size, bytes)
        }
        Data::Package { count, elements } => {
            let elements = copy_elements(alloc, elements.as_slice())?;
            Ok(Data::Package {
                count: *count,
                elements,
            })
        }
        Data::VarPackage(counted) => {
            let elements = copy_elements(alloc, counted.get().elements.as_slice())?;
            Data::var_package(alloc, counted.get().count, elements)
        }
        Data::Path(path) => {
            let path = copy_path(alloc, path.get())?;
            Data::path(alloc, path)
        }
    }
}

#[cycle(copy)]
fn copy_elements(alloc: Global, elements: &[Data]) -> Result<CompactList<Data>, Memory>
    ensures { IfOk result (λ copies. copies ≡ elements.now) }
{
    let mut copies = Vec::new(alloc);
    for element in elements {
        copies.push(copy_data(alloc, element)?)?;
    }
    CompactList::from_vec(alloc, copies)
}
