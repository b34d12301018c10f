//! Terms that hold no terms, each behind its opcode (ACPI 6.5, 20.2.5).

ghost use Rattle.std.specs.Prelude.{◌≡◌, ◌<◌, ◌≤◌, ◌^◌, length, IfOk};
ghost use Rattle.aml_block.specs.inner.TermReading.{Gives, name_term_at, alias_at, external_at, mutex_at};
ghost use Rattle.aml_block.specs.inner.TermReading.{event_at, extent_at, region_at, unread_at};
ghost use Rattle.aml_data.specs.inner.Reading.{Tells};

use crate::parts::read_named;
use crate::term::Term;
use crate::term_fault::TermFault;
use aml_data::{DataFault, byte_of, constant_of, name_of, object_of, window_of};
use pw_base::CompactList;
use std::alloc::Global;

/// The name and the object of a Name, and the bytes after them.
#[tactic(auto, unfolding(crate::specs::inner::TermReading::name_term_at))]
pub(crate) fn read_name_term(
    alloc: Global,
    bytes: &[u8],
    end: usize,
) -> Result<(Term, &[u8]), TermFault>
    requires within { length bytes.now ≤ end }
    requires small { end < 2 ^ 32 }
    ensures value { Gives (λ x. (x.0, x.1.now)) result (name_term_at end bytes.now) }
    ensures shorter { IfOk result (λ x. length x.1.now < length bytes.now) }
{
    let (path, rest) = read_named(alloc, bytes, end)?;
    let (value, rest) = object_of(alloc, rest, end)?;
    Ok((Term::Name { path, value }, rest))
}

/// The name of an object and its second name, and the bytes after them.
#[tactic(auto, unfolding(crate::specs::inner::TermReading::alias_at))]
pub(crate) fn read_alias(
    alloc: Global,
    bytes: &[u8],
    end: usize,
) -> Result<(Term, &[u8]), TermFault>
    requires within { length bytes.now ≤ end }
    requires small { end < 2 ^ 32 }
    ensures value { Gives (λ x. (x.0, x.1.now)) result (alias_at end bytes.now) }
    ensures shorter { IfOk result (λ x. length x.1.now < length bytes.now) }
{
    let (source, rest) = name_of(alloc, bytes, end)?;
    let (alias, rest) = read_named(alloc, rest, end)?;
    Ok((Term::Alias { source, alias }, rest))
}

/// The name, the type and the number of arguments of an External, and the bytes after them.
#[tactic(auto, unfolding(crate::specs::inner::TermReading::external_at))]
pub(crate) fn read_external(
    alloc: Global,
    bytes: &[u8],
    end: usize,
) -> Result<(Term, &[u8]), TermFault>
    requires within { length bytes.now ≤ end }
    requires small { end < 2 ^ 32 }
    ensures value { Gives (λ x. (x.0, x.1.now)) result (external_at end bytes.now) }
    ensures shorter { IfOk result (λ x. length x.1.now < length bytes.now) }
{
    let (path, rest) = name_of(alloc, bytes, end)?;
    let (kind, rest) = byte_of(rest, end)?;
    let (args, rest) = byte_of(rest, end)?;
    Ok((Term::External { path, kind, args }, rest))
}

/// The name and the flags of a Mutex, and the bytes after them.
#[tactic(auto, unfolding(crate::specs::inner::TermReading::mutex_at))]
pub(crate) fn read_mutex(
    alloc: Global,
    bytes: &[u8],
    end: usize,
) -> Result<(Term, &[u8]), TermFault>
    requires within { length bytes.now ≤ end }
    requires small { end < 2 ^ 32 }
    ensures value { Gives (λ x. (x.0, x.1.now)) result (mutex_at end bytes.now) }
    ensures shorter { IfOk result (λ x. length x.1.now < length bytes.now) }
{
    let (path, rest) = name_of(alloc, bytes, end)?;
    let (flags, rest) = byte_of(rest, end)?;
    Ok((Term::Mutex { path, flags }, rest))
}

/// The name of an Event, and the bytes after it.
#[tactic(auto, unfolding(crate::specs::inner::TermReading::event_at))]
pub(crate) fn read_event(
    alloc: Global,
    bytes: &[u8],
    end: usize,
) -> Result<(Term, &[u8]), TermFault>
    requires within { length bytes.now ≤ end }
    requires small { end < 2 ^ 32 }
    ensures value { Gives (λ x. (x.0, x.1.now)) result (event_at end bytes.now) }
    ensures shorter { IfOk result (λ x. length x.1.now < length bytes.now) }
{
    let (path, rest) = name_of(alloc, bytes, end)?;
    Ok((Term::Event { path }, rest))
}

/// The space, the offset and the length of an OperationRegion, which stand behind its name, and the bytes
/// after them.
fn read_extent(bytes: &[u8], end: usize) -> Result<((u8, u64, u64), &[u8]), DataFault>
    requires { length bytes.now ≤ end }
    ensures value { Tells (λ x. ((x.0.0, (x.0.1, x.0.2)), x.1.now)) result (extent_at end bytes.now) }
    ensures shorter { IfOk result (λ x. length x.1.now < length bytes.now) }
{
    let (space, rest) = byte_of(bytes, end)?;
    let (offset, rest) = constant_of(rest, end)?;
    let (length, rest) = constant_of(rest, end)?;
    Ok(((space, offset, length), rest))
}

/// The name, the space, the offset and the length of an OperationRegion, and the bytes after them.
#[tactic(auto, unfolding(crate::specs::inner::TermReading::region_at))]
pub(crate) fn read_region(
    alloc: Global,
    bytes: &[u8],
    end: usize,
) -> Result<(Term, &[u8]), TermFault>
    requires within { length bytes.now ≤ end }
    requires small { end < 2 ^ 32 }
    ensures value { Gives (λ x. (x.0, x.1.now)) result (region_at end bytes.now) }
    ensures shorter { IfOk result (λ x. length x.1.now < length bytes.now) }
{
    let (path, rest) = name_of(alloc, bytes, end)?;
    let ((space, offset, length), rest) = read_extent(rest, end)?;
    let term = Term::Region {
        path,
        space,
        offset,
        length,
    };
    Ok((term, rest))
}

/// The body of a term of this opcode, kept as it is, and the bytes after it.
#[tactic(auto, unfolding(crate::specs::inner::TermReading::unread_at))]
pub(crate) fn read_unread(
    alloc: Global,
    opcode: u16,
    bytes: &[u8],
    end: usize,
) -> Result<(Term, &[u8]), TermFault>
    requires within { length bytes.now ≤ end }
    ensures value { Gives (λ x. (x.0, x.1.now)) result (unread_at opcode end bytes.now) }
    ensures shorter { IfOk result (λ x. length x.1.now < length bytes.now) }
{
    let (body, rest) = window_of(bytes, end)?;
    let body = CompactList::from_slice(alloc, body)?;
    Ok((Term::Unread { opcode, body }, rest))
}
