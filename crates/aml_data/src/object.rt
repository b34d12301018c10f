ghost use Rattle.std.specs.Prelude.{◌≡◌, ◌+◌, ◌<◌, ◌≤◌, ◌-◌, ◌^◌, suc, length, IfOk};
ghost use Rattle.aml_data.specs.Segment.{begins_name};
ghost use Rattle.aml_data.specs.inner.Reading.{Gives, Tells, byte_at, constant_at};
ghost use Rattle.aml_data.specs.inner.ReadingObjects.{revision_at, counted_at, buffer_at, package_at, var_package_at};
ghost use Rattle.aml_data.specs.inner.ReadingObjects.{string_at, name_or_constant_at, elements_at};
ghost use Rattle.aml_data.specs.inner.ReadingObjects.{within, object_within, object_at};

use crate::bytes::byte_of;
use crate::constant::constant_of;
use crate::data::Data;
use crate::fault::DataFault;
use crate::length::window_of;
use crate::limits::DEEPEST;
use crate::name::name_of;
use crate::opcode::{
    BUFFER_OP, DUAL_NAME_PREFIX, EXT_OP_PREFIX, MULTI_NAME_PREFIX, ONES_OP, PACKAGE_OP,
    PARENT_PREFIX_CHAR, REVISION_OP, ROOT_CHAR, STRING_PREFIX, VAR_PACKAGE_OP,
};
use crate::seg::is_letter;
use crate::text::text_of;
use pw_base::CompactList;
use std::alloc::Global;

/// As many elements as most packages have at most.
const FEW: u64 = 8;

/// Whether this byte begins a name that is a data object: one with a prefix or a segment.
fn begins_name(byte: u8) -> bool
    ensures { result ≡ begins_name byte }
{
    is_letter(byte)
        || byte == ROOT_CHAR
        || byte == PARENT_PREFIX_CHAR
        || byte == DUAL_NAME_PREFIX
        || byte == MULTI_NAME_PREFIX
}

/// The revision of the interpreter behind the byte 5B, and the bytes after it.
fn revision_of(bytes: &[u8], end: usize) -> Result<(Data, &[u8]), DataFault>
    requires { length bytes.now ≤ end }
    ensures value { Tells (λ x. (x.0, x.1.now)) result (revision_at end bytes.now) }
    ensures shorter { IfOk result (λ x. length x.1.now < length bytes.now) }
{
    match bytes {
        [] => Err(DataFault::Short { at: end }),
        [REVISION_OP, rest @ ..] => Ok((Data::Revision, rest)),
        [byte, ..] => Err(DataFault::BadLead {
            at: end - bytes.len(),
            byte: *byte,
        }),
    }
}

/// The PkgLength that stands first, and what it holds: a byte and the bytes behind it; and the bytes
/// after them.
#[tactic(auto, unfolding(crate::specs::inner::ReadingObjects::counted_at))]
fn counted_by_byte(bytes: &[u8], end: usize) -> Result<(u8, &[u8], &[u8]), DataFault>
    requires { length bytes.now ≤ end }
    ensures value { Tells (λ x. ((x.0, x.1.now), x.2.now)) result (counted_at byte_at end bytes.now) }
    ensures shorter { IfOk result (λ x. length x.1.now + length x.2.now < length bytes.now) }
{
    let (inside, after) = window_of(bytes, end)?;
    let (count, content) = byte_of(inside, end - after.len())?;
    Ok((count, content, after))
}

/// The same where an integer constant stands first in what the PkgLength holds.
#[tactic(auto, unfolding(crate::specs::inner::ReadingObjects::counted_at))]
fn counted_by_constant(bytes: &[u8], end: usize) -> Result<(u64, &[u8], &[u8]), DataFault>
    requires { length bytes.now ≤ end }
    ensures value { Tells (λ x. ((x.0, x.1.now), x.2.now)) result (counted_at constant_at end bytes.now) }
    ensures shorter { IfOk result (λ x. length x.1.now + length x.2.now < length bytes.now) }
{
    let (inside, after) = window_of(bytes, end)?;
    let (count, content) = constant_of(inside, end - after.len())?;
    Ok((count, content, after))
}

/// The buffer behind its lead byte, and the bytes after it. Its content past its bytes is never made.
fn buffer_of(alloc: Global, bytes: &[u8], end: usize) -> Result<(Data, &[u8]), DataFault>
    requires { length bytes.now ≤ end }
    ensures value { Gives (λ x. (x.0, x.1.now)) result (buffer_at end bytes.now) }
    ensures shorter { IfOk result (λ x. length x.1.now < length bytes.now) }
{
    let (size, content, after) = counted_by_constant(bytes, end)?;
    let bytes = CompactList::from_slice(alloc, content)?;
    Ok((Data::buffer(alloc, size, bytes)?, after))
}

/// The string behind its lead byte, and the bytes after it.
fn string_of(alloc: Global, bytes: &[u8], end: usize) -> Result<(Data, &[u8]), DataFault>
    requires { length bytes.now ≤ end }
    ensures value { Gives (λ x. (x.0, x.1.now)) result (string_at end bytes.now) }
    ensures shorter { IfOk result (λ x. length x.1.now < length bytes.now) }
{
    let (text, rest) = text_of(alloc, bytes, end)?;
    Ok((Data::Text(text), rest))
}

/// The name that stands first, where `lead`, the first byte, begins one, or else the integer constant, and
/// the bytes after it.
fn name_or_constant_of(
    alloc: Global,
    lead: u8,
    bytes: &[u8],
    end: usize,
) -> Result<(Data, &[u8]), DataFault>
    requires within { length bytes.now ≤ end }
    requires small { end < 2 ^ 32 }
    ensures value { Gives (λ x. (x.0, x.1.now)) result (name_or_constant_at lead end bytes.now) }
    ensures shorter { IfOk result (λ x. length x.1.now < length bytes.now) }
{
    if begins_name(lead) {
        let (path, rest) = name_of(alloc, bytes, end)?;
        return Ok((Data::path(alloc, path)?, rest));
    }
    let (number, rest) = constant_of(bytes, end)?;
    Ok((Data::Int(number), rest))
}

/// The package behind its lead byte, and the bytes after it. `depth` levels may be opened, its own among
/// them.
#[cycle(objects)]
#[tactic(auto, unfolding(crate::specs::inner::ReadingObjects::pack_at, crate::specs::inner::ReadingObjects::within))]
fn package_of(
    alloc: Global,
    bytes: &[u8],
    end: usize,
    depth: u32,
) -> Result<(Data, &[u8]), DataFault>
    requires within { length bytes.now < end }
    requires small { end < 2 ^ 32 }
    ensures value { Gives (λ x. (x.0, x.1.now)) result
        (package_at (within depth) (end - suc (length bytes.now)) end bytes.now) }
    ensures shorter { IfOk result (λ x. length x.1.now < length bytes.now) }
{
    if depth == 0 {
        let at = end - bytes.len() - 1;
        return Err(DataFault::TooDeep { at });
    }
    let (count, content, after) = counted_by_byte(bytes, end)?;
    let elements = elements_of(
        alloc,
        content,
        end - after.len(),
        u64::from(count),
        depth - 1,
    )?;
    Ok((Data::Package { count, elements }, after))
}

/// The same of a package that a constant counts.
#[cycle(objects)]
#[tactic(auto, unfolding(crate::specs::inner::ReadingObjects::pack_at, crate::specs::inner::ReadingObjects::within))]
fn var_package_of(
    alloc: Global,
    bytes: &[u8],
    end: usize,
    depth: u32,
) -> Result<(Data, &[u8]), DataFault>
    requires within { length bytes.now < end }
    requires small { end < 2 ^ 32 }
    ensures value { Gives (λ x. (x.0, x.1.now)) result
        (var_package_at (within depth) (end - suc (length bytes.now)) end bytes.now) }
    ensures shorter { IfOk result (λ x. length x.1.now < length bytes.now) }
{
    if depth == 0 {
        let at = end - bytes.len() - 1;
        return Err(DataFault::TooDeep { at });
    }
    let (count, content, after) = counted_by_constant(bytes, end)?;
    let elements = elements_of(alloc, content, end - after.len(), count, depth - 1)?;
    Ok((Data::var_package(alloc, count, elements)?, after))
}

/// How much room is taken at first for the elements of a package: as much as its count says where they
/// can be so many, and are few.
fn room_for(bytes: &[u8], count: u64) -> usize {
    bytes.len().min(FEW.min(count) as usize)
}

/// The elements of a package, to the end of its bytes: at most so many, each nesting at most so deep.
#[cycle(objects)]
fn elements_of(
    alloc: Global,
    bytes: &[u8],
    end: usize,
    count: u64,
    depth: u32,
) -> Result<CompactList<Data>, DataFault>
    requires within { length bytes.now ≤ end }
    requires small { end < 2 ^ 32 }
    ensures { Gives (λ x. x) result (elements_at (object_within depth) count end bytes.now) }
{
    let mut elements = Vec::with_capacity(alloc, room_for(bytes, count))?;
    let mut rest = bytes;
    let mut left = count;
    while !rest.is_empty() {
        if left == 0 {
            let at = end - rest.len();
            return Err(DataFault::TooMany { at });
        }
        let (element, after) = object_within(alloc, rest, end, depth)?;
        elements.push(element)?;
        rest = after;
        left -= 1;
    }
    Ok(CompactList::from_vec(alloc, elements)?)
}

/// The data object that stands first, nesting at most so deep, and the bytes after it.
#[cycle(objects)]
#[tactic(auto, unfolding(crate::specs::inner::ReadingObjects::object_by))]
fn object_within(
    alloc: Global,
    bytes: &[u8],
    end: usize,
    depth: u32,
) -> Result<(Data, &[u8]), DataFault>
    requires within { length bytes.now ≤ end }
    requires small { end < 2 ^ 32 }
    ensures value { Gives (λ x. (x.0, x.1.now)) result (object_within depth end bytes.now) }
    ensures shorter { IfOk result (λ x. length x.1.now < length bytes.now) }
{
    match bytes {
        [] => Err(DataFault::Short { at: end }),
        [ONES_OP, rest @ ..] => Ok((Data::Ones, rest)),
        [EXT_OP_PREFIX, rest @ ..] => revision_of(rest, end),
        [STRING_PREFIX, rest @ ..] => string_of(alloc, rest, end),
        [BUFFER_OP, rest @ ..] => buffer_of(alloc, rest, end),
        [PACKAGE_OP, rest @ ..] => package_of(alloc, rest, end, depth),
        [VAR_PACKAGE_OP, rest @ ..] => var_package_of(alloc, rest, end, depth),
        [lead, ..] => name_or_constant_of(alloc, *lead, bytes, end),
    }
}

/// The data object that stands first, and the bytes after it. `end` is the place where the bytes end
/// (ACPI 6.5, 20.2.3).
#[tactic(auto, unfolding(crate::specs::inner::ReadingObjects::object_at))]
pub fn object_of(alloc: Global, bytes: &[u8], end: usize) -> Result<(Data, &[u8]), DataFault>
    requires within { length bytes.now ≤ end }
    requires small { end < 2 ^ 32 }
    ensures value { Gives (λ x. (x.0, x.1.now)) result (object_at end bytes.now) }
    ensures shorter { IfOk result (λ x. length x.1.now < length bytes.now) }
{
    object_within(alloc, bytes, end, DEEPEST)
}
