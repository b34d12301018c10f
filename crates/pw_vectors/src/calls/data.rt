//! Data objects (ACPI 6.5, 20.2.3 and 20.2.5.4).

use aml_data::{
    Data, Path, Width, copy_data, decode, encode, integer, is_writable, object_of, written_len,
};
use pw_base::CompactList;
use std::alloc::Global;

/// Whether an object is written as these bytes.
fn is_written(alloc: Global, object: &Data, bytes: &[u8]) -> bool {
    let mut out = Vec::new(alloc);
    is_writable(object)
        && written_len(object) == bytes.len() as u64
        && encode(alloc, object, &mut out).is_ok()
        && out.as_slice() == bytes
}

/// Whether a copy of an object is written as these bytes.
fn copy_is_written(alloc: Global, object: &Data, bytes: &[u8]) -> Option<bool> {
    let copy = copy_data(alloc, object).ok()?;
    Some(is_written(alloc, &copy, bytes))
}

/// Whether an object is read, copied and written.
pub(crate) fn object(alloc: Global) -> Option<bool> {
    let bytes = [0x12, 0x05, 0x02, 0x00, 0x0A, 0x07];
    let (object, n) = decode(alloc, &bytes, 0).ok()?;
    Some(n == 6 && copy_is_written(alloc, &object, &bytes)?)
}

/// Whether an object in front of bytes means a number.
pub(crate) fn number(alloc: Global) -> Option<bool> {
    let (object, rest) = object_of(alloc, &[0x0E, 8, 7, 6, 5, 4, 3, 2, 1, 0], 10).ok()?;
    let is_low = integer(&object, Width::W32) == Some(0x0506_0708);
    let is_whole = integer(&object, Width::W64) == Some(0x0102_0304_0506_0708);
    Some(rest.len() == 1 && is_low && is_whole)
}

/// A package of this object alone, whose count is this.
fn package(alloc: Global, count: u8, object: Data) -> Option<Data> {
    let mut elements = Vec::new(alloc);
    elements.push(object).ok()?;
    let elements = CompactList::from_vec(alloc, elements).ok()?;
    Some(Data::Package { count, elements })
}

/// Whether packages that nest so deep are written.
fn are_written(alloc: Global, depth: u32) -> Option<bool> {
    let mut object = Data::Ones;
    for _ in 0..depth {
        object = package(alloc, 1, object)?;
    }
    Some(is_writable(&object))
}

/// Whether packages nest 32 deep.
pub(crate) fn depth(alloc: Global) -> Option<bool> {
    Some(are_written(alloc, 32)? && !are_written(alloc, 33)?)
}

/// Whether no more elements are written than are counted.
pub(crate) fn count(alloc: Global) -> Option<bool> {
    Some(!is_writable(&package(alloc, 0, Data::Ones)?))
}

/// Whether a name of no part is no object.
pub(crate) fn name_of_no_part(alloc: Global) -> Option<bool> {
    let path = Path {
        root: false,
        ups: 0,
        segs: CompactList::from_slice(alloc, &[]).ok()?,
    };
    Some(!is_writable(&Data::path(alloc, path).ok()?))
}
