ghost use Rattle.std.specs.Prelude.{◌≡◌, ◌+◌, ◌-◌, ◌<◌, ◌≤◌, ◌^◌, length, map, min};
ghost use Rattle.std.specs.List.{AllByRecursion};
ghost use Rattle.aml_data.specs.Segment.{joined};
ghost use Rattle.aml_data.specs.Written.{written, written_constant, written_length, segments_lead};
ghost use Rattle.aml_data.specs.Written.{written_prefix, written_name};
ghost use Rattle.aml_data.specs.Written.{IsWritable, IsWritablePath, IsWritableWithin};

use crate::data::{Buffer, Data};
use crate::limits::{DEEPEST, TOO_LONG};
use crate::path::Path;

/// How many bytes the shortest integer constant of a number has (ACPI 6.5, 20.2.3).
pub fn constant_len(number: u64) -> u64
    ensures { result ≡ length (written_constant number) }
{
    1 + u64::from(number > 1)
        + u64::from(number > 0xFF)
        + 2 * u64::from(number > 0xFFFF)
        + 4 * u64::from(number > 0xFFFF_FFFF)
}

/// How many bytes the shortest PkgLength before so many bytes has (ACPI 6.5, 20.2.4).
pub fn length_len(content: u64) -> u64
    ensures { result ≡ length (written_length content) }
{
    match content {
        0..=62 => 1,
        63..=4093 => 2,
        4094..=1_048_572 => 3,
        _ => 4,
    }
}

/// How many bytes stand before so many segments.
fn lead_len(segments: usize) -> u64
    ensures { result ≡ length (segments_lead segments) }
{
    match segments {
        1 => 0,
        0 | 2 => 1,
        _ => 2,
    }
}

/// How many bytes stand before the segments of a name, for the root or the steps up.
fn prefix_len(path: &Path) -> u64
    ensures value { result ≡ length (written_prefix path.now) }
    ensures small { result < 2 ^ 32 }
{
    if path.root { 1 } else { u64::from(path.ups) }
}

/// How many bytes the written form of a name has (ACPI 6.5, 20.2.2).
#[tactic(auto, using(crate::proofs::WrittenLengths::names))]
pub fn name_len(path: &Path) -> u64
    requires { IsWritablePath path.now }
    ensures value { result ≡ length (written_name path.now) }
    ensures small { result < 2 ^ 33 }
{
    let segments = path.segs.as_slice().len();
    prefix_len(path) + lead_len(segments) + 4 * segments as u64
}

/// How many bytes an object has, whose content follows a PkgLength.
fn sized_len(content: u64) -> u64
    requires { content + 5 < 2 ^ 64 }
    ensures { result ≡ min TOO_LONG (1 + length (written_length content) + content) }
{
    TOO_LONG.min(1 + length_len(content) + content)
}

/// How many bytes the written form of a buffer has, counted up to `TOO_LONG`.
#[tactic(auto, using(crate::proofs::WrittenLengths::lengths))]
fn buffer_len(buffer: &Buffer) -> u64
    ensures { result ≡ min TOO_LONG (length (written (Data.Buffer buffer.now))) }
{
    sized_len(constant_len(buffer.size) + buffer.bytes.as_slice().len() as u64)
}

/// How many bytes the written form of an object has, counted up to `TOO_LONG`. Most elements are
/// integers, which take no further call.
#[cycle(lengths)]
#[inline]
#[tactic(auto, using(crate::proofs::WrittenLengths::lengths))]
pub(crate) fn object_len(value: &Data, depth: u32) -> u64
    requires { IsWritableWithin depth value.now }
    ensures { result ≡ min TOO_LONG (length (written value.now)) }
{
    if let Data::Int(number) = value {
        return constant_len(*number);
    }
    any_len(value, depth)
}

#[cycle(lengths)]
#[inline(never)]
#[tactic(auto, using(crate::proofs::WrittenLengths::lengths))]
fn any_len(value: &Data, depth: u32) -> u64
    requires { IsWritableWithin depth value.now }
    ensures { result ≡ min TOO_LONG (length (written value.now)) }
{
    match value {
        Data::Int(number) => constant_len(*number),
        Data::Ones => 1,
        Data::Revision => 2,
        Data::Text(text) => TOO_LONG.min(text.as_slice().len() as u64 + 2),
        Data::Buffer(buffer) => buffer_len(buffer.get()),
        Data::Package { elements, .. } => {
            sized_len(1 + elements_len(elements.as_slice(), depth - 1))
        }
        Data::VarPackage(counted) => {
            let counted = counted.get();
            let elements = counted.elements.as_slice();
            sized_len(constant_len(counted.count) + elements_len(elements, depth - 1))
        }
        Data::Path(path) => TOO_LONG.min(name_len(path.get())),
    }
}

/// How many bytes the written forms of objects have together, counted up to `TOO_LONG`.
#[cycle(lengths)]
#[tactic(auto, using(crate::proofs::WrittenLengths::lengths))]
pub(crate) fn elements_len(elements: &[Data], depth: u32) -> u64
    requires { AllByRecursion (IsWritableWithin depth) elements.now }
    ensures { result ≡ min TOO_LONG (length (joined (map written elements.now))) }
{
    let mut total = 0;
    for element in elements {
        total += object_len(element, depth);
        if total >= TOO_LONG {
            return TOO_LONG;
        }
    }
    total
}

/// How many bytes the written form of an object has. It takes no memory.
pub fn written_len(value: &Data) -> u64
    requires { IsWritable value.now }
    ensures value { result ≡ length (written value.now) }
    ensures small { result < TOO_LONG }
{
    object_len(value, DEEPEST)
}
