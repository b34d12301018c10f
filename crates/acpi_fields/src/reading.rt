ghost use Rattle.std.specs.Prelude.{◌≡◌, ◌≢◌, ◌≤◌, length, MatchOption};
ghost use Rattle.acpi_values.specs.Registers.{register_of};
ghost use Rattle.acpi_fields.specs.Reading.{content, count_at, fixed_of, integer_at, most_32};
ghost use Rattle.acpi_fields.specs.Reading.{register_in, text_at};
ghost use Rattle.pw_base.specs.Answers.{Tells};
ghost use Rattle.acpi_fields.specs.Reading.{number_of, register_at};

use acpi_values::{Place, Register, Shape, Why};
use aml_data::{Data, Width, integer};

/// How many bytes a register has (ACPI 6.5, 6.4.3.7).
const REGISTER_SIZE: usize = 17;

/// An integer of at most so much, at the width of its table.
pub fn integer_at(object: &Data, width: Width, most: u64, place: Place) -> Result<u64, Shape>
    ensures { result ≡ integer_at width most place object.now }
{
    match integer(object, width) {
        None => Err(Shape {
            place,
            why: Why::Kind,
        }),
        Some(number) if number <= most => Ok(number),
        Some(_) => Err(Shape {
            place,
            why: Why::Range,
        }),
    }
}

/// Field `inner` of element `outer`, both counted from 1: an integer of at most so much.
pub fn number_of(
    fields: &[Data],
    width: Width,
    most: u64,
    outer: u32,
    inner: u32,
) -> Result<u64, Shape>
    requires first { 1 ≤ inner }
    requires last { inner ≤ length fields.now }
    ensures { result ≡ number_of width most outer inner fields.now }
{
    integer_at(
        &fields[inner as usize - 1],
        width,
        most,
        Place { outer, inner },
    )
}

/// The same, of at most 32 bits.
#[tactic(auto, unfolding(crate::specs::Reading::most_32))]
pub fn u32_of(fields: &[Data], width: Width, outer: u32, inner: u32) -> Result<u32, Shape>
    requires first { 1 ≤ inner }
    requires last { inner ≤ length fields.now }
    ensures { result ≡ number_of width most_32 outer inner fields.now }
{
    let number = number_of(fields, width, u64::from(u32::MAX), outer, inner)?;
    Ok(number as u32)
}

/// Field `inner` of element `outer`, both counted from 1: an integer, which is to be this number.
#[tactic(auto, unfolding(crate::specs::Reading::most_64))]
pub fn fixed_of(
    fields: &[Data],
    width: Width,
    wanted: u64,
    why: Why,
    outer: u32,
    inner: u32,
) -> Result<u64, Shape>
    requires first { 1 ≤ inner }
    requires last { inner ≤ length fields.now }
    ensures { result ≡ fixed_of width wanted why outer inner fields.now }
{
    let number = number_of(fields, width, u64::MAX, outer, inner)?;
    if number != wanted {
        let place = Place { outer, inner };
        return Err(Shape { place, why });
    }
    Ok(number)
}

/// Element `outer` of the whole, which is to count the elements behind it.
#[tactic(auto, unfolding(crate::specs::Reading::most_64))]
pub fn count_at(object: &Data, width: Width, outer: u32, behind: usize) -> Result<u64, Shape>
    ensures { result ≡ count_at width outer behind object.now }
{
    let place = Place { outer, inner: 0 };
    let count = integer_at(object, width, u64::MAX, place)?;
    if count != behind as u64 {
        return Err(Shape {
            place,
            why: Why::Count,
        });
    }
    Ok(count)
}

/// What a buffer holds, where that is as long as a register. The zeros behind the bytes of a longer
/// one are never made.
fn content_of(size: u64, bytes: &[u8]) -> Option<[u8; 17]>
    ensures { MatchOption result (length (content size bytes.now) ≢ 17)
        (λ held. held ≡ content size bytes.now) }
{
    if size.max(bytes.len() as u64) != REGISTER_SIZE as u64 {
        return None;
    }
    let mut held = [0; REGISTER_SIZE];
    held[..bytes.len()].copy_from_slice(bytes);
    Some(held)
}

/// A register: a buffer that holds a resource template of one (ACPI 6.5, 6.4.3.7).
pub fn register_at(object: &Data, place: Place) -> Result<Register, Shape>
    ensures { result ≡ register_at place object.now }
{
    match object {
        Data::Buffer(buffer) => {
            let buffer = buffer.get();
            register_in(buffer.size, buffer.bytes.as_slice(), place)
        }
        Data::Int(_)
        | Data::Ones
        | Data::Revision
        | Data::Text(_)
        | Data::Package { .. }
        | Data::VarPackage(_)
        | Data::Path(_) => Err(Shape {
            place,
            why: Why::Kind,
        }),
    }
}

/// The register in a buffer.
fn register_in(size: u64, bytes: &[u8], place: Place) -> Result<Register, Shape>
    ensures { result ≡ register_in place (register_of (content size bytes.now)) }
{
    let refused = Shape {
        place,
        why: Why::Register,
    };
    match content_of(size, bytes) {
        None => Err(refused),
        Some(held) => match Register::from_bytes(&held) {
            Ok(register) => Ok(register),
            Err(_) => Err(refused),
        },
    }
}

/// A string.
pub fn text_at(object: &Data, place: Place) -> Result<&[u8], Shape>
    ensures { Tells (λ r. r.now) result (text_at place object.now) }
{
    match object {
        Data::Text(text) => Ok(text.as_slice()),
        Data::Int(_)
        | Data::Ones
        | Data::Revision
        | Data::Buffer(_)
        | Data::Package { .. }
        | Data::VarPackage(_)
        | Data::Path(_) => Err(Shape {
            place,
            why: Why::Kind,
        }),
    }
}
