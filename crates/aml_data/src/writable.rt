ghost use Rattle.std.specs.Prelude.{◌≡◌, ◌+◌, ◌-◌, ◌<◌, ◌≤◌, ◌^◌, ◌↔◌, true, length, IsTrue};
ghost use Rattle.std.specs.List.{AllByRecursion};
ghost use Rattle.aml_data.specs.Grammar.{IsAscii, HasPart};
ghost use Rattle.aml_data.specs.Segment.{IsSegment};
ghost use Rattle.aml_data.specs.Written.{AreElements, IsWritable, IsWritablePath, IsWritableWithin};

use crate::data::Data;
use crate::lengths::object_len;
use crate::limits::{DEEPEST, TOO_LONG, TOO_MANY_SEGMENTS};
use crate::path::Path;
use crate::seg::Seg;

/// Whether every byte may stand in a string.
fn is_ascii(text: &[u8]) -> bool
    ensures { IsTrue result ↔ AllByRecursion IsAscii text.now }
{
    for byte in text {
        if *byte == 0 || *byte >= 0x80 {
            return false;
        }
    }
    true
}

/// Whether a number can be written, as each can: contracts see it without a bound.
fn is_number(number: u64) -> bool
    ensures value { IsTrue result }
    ensures bound { number < 2 ^ 64 }
{
    let _number = number;
    true
}

/// The number that a byte counts, below 256: contracts see it without a bound.
fn count_of(count: u8) -> u64
    ensures value { result ≡ count }
    ensures bound { count < 2 ^ 8 }
{
    u64::from(count)
}

/// Whether these are segments, as each `Seg` is: contracts see its four bytes alone.
pub(crate) fn are_segments(segs: &[Seg]) -> bool
    ensures value { IsTrue result }
    ensures segments { AllByRecursion IsSegment segs.now }
{
    for seg in segs {
        let _bytes = seg.bytes();
    }
    true
}

/// Whether a name can be written: it has at most 255 segments, and no steps up from the root
/// (ACPI 6.5, 20.2.2). It takes no memory.
pub fn is_writable_name(path: &Path) -> bool
    ensures { IsTrue result ↔ IsWritablePath path.now }
{
    let segs = path.segs.as_slice();
    if segs.len() >= TOO_MANY_SEGMENTS || (path.root && path.ups > 0) {
        return false;
    }
    are_segments(segs)
}

/// Whether a name can be written as a data object: it has a prefix or a segment too.
fn is_writable_path(path: &Path) -> bool
    ensures { IsTrue result ↔ (IsWritablePath path.now × HasPart path.now) }
{
    is_writable_name(path) && (path.root || path.ups > 0 || !path.segs.as_slice().is_empty())
}

/// Whether an object can be written but for its length. Its packages may nest `depth` deep.
#[cycle(writable)]
fn is_within(value: &Data, depth: u32) -> bool
    ensures { IsTrue result ↔ IsWritableWithin depth value.now }
{
    match value {
        Data::Int(number) => is_number(*number),
        Data::Ones => true,
        Data::Revision => true,
        Data::Text(text) => is_ascii(text.as_slice()),
        Data::Buffer(buffer) => is_number(buffer.get().size),
        Data::Package { count, elements } => {
            are_elements(elements.as_slice(), count_of(*count), depth)
        }
        Data::VarPackage(counted) => {
            let counted = counted.get();
            are_elements(counted.elements.as_slice(), counted.count, depth)
        }
        Data::Path(path) => is_writable_path(path.get()),
    }
}

/// Whether these may be the elements of a package of this count, which itself may stand where packages
/// may nest `depth` deep.
#[cycle(writable)]
fn are_elements(elements: &[Data], count: u64, depth: u32) -> bool
    ensures { IsTrue result ↔ ((0 < depth) × (count < 2 ^ 64)
        × AreElements (IsWritableWithin (depth - 1)) count elements.now) }
{
    if depth == 0 || elements.len() as u64 > count {
        return false;
    }
    for element in elements {
        if !is_within(element, depth - 1) {
            return false;
        }
    }
    true
}

/// Whether an object can be written: every byte of a string is 1 to 0x7F, no package has more elements
/// than its count or nests more than 32 deep, every name has a prefix or a segment, at most 255
/// segments, and no steps up from the root, and the shortest spelling has fewer than 2 ^ 28 bytes, so
/// that a PkgLength can count them (ACPI 6.5, 20.2). It takes no memory.
pub fn is_writable(value: &Data) -> bool
    ensures { IsTrue result ↔ IsWritable value.now }
{
    is_within(value, DEEPEST) && object_len(value, DEEPEST) < TOO_LONG
}
