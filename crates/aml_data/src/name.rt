ghost use Rattle.std.specs.Prelude.{◌≡◌, ◌+◌, ◌<◌, ◌≤◌, ◌^◌, length, IfOk};
ghost use Rattle.aml_data.specs.inner.Reading.{Gives, ups_at, prefix_at, several_at, many_at, segments_at, name_at};

use crate::fault::DataFault;
use crate::opcode::{
    DUAL_NAME_PREFIX, MULTI_NAME_PREFIX, NULL_NAME, PARENT_PREFIX_CHAR, ROOT_CHAR,
};
use crate::path::Path;
use crate::seg::{Seg, segment_of};
use pw_base::CompactList;
use std::alloc::Global;

/// How many bytes 5E stand in front, and the bytes after them.
fn ups_of(bytes: &[u8]) -> (u32, &[u8])
    requires { length bytes.now < 2 ^ 32 }
    ensures value { (result.0, result.1.now) ≡ ups_at bytes.now }
    ensures shorter { result.0 + length result.1.now ≡ length bytes.now }
{
    let mut ups = 0;
    let mut rest = bytes;
    while let [PARENT_PREFIX_CHAR, after @ ..] = rest {
        ups += 1;
        rest = after;
    }
    (ups, rest)
}

/// Whether the root stands in front, how many steps up, and the bytes after them.
#[tactic(auto, unfolding(crate::specs::inner::Reading::prefix_at))]
fn prefix_of(bytes: &[u8]) -> (bool, u32, &[u8])
    requires { length bytes.now < 2 ^ 32 }
    ensures value { (result.0, result.1, result.2.now) ≡ prefix_at bytes.now }
    ensures shorter { length result.2.now ≤ length bytes.now }
{
    match bytes {
        [] => (false, 0, bytes),
        [ROOT_CHAR, rest @ ..] => (true, 0, rest),
        [_, ..] => {
            let (ups, rest) = ups_of(bytes);
            (false, ups, rest)
        }
    }
}

/// One segment, and the bytes after it.
fn single_of(
    alloc: Global,
    bytes: &[u8],
    end: usize,
) -> Result<(CompactList<Seg>, &[u8]), DataFault>
    requires { length bytes.now ≤ end }
    ensures value { Gives (λ x. (x.0, x.1.now)) result (several_at 1 end bytes.now) }
    ensures shorter { IfOk result (λ x. length x.1.now < length bytes.now) }
{
    let (segment, rest) = segment_of(bytes, end)?;
    let segs = CompactList::from_slice(alloc, &[Seg::of_segment(segment)])?;
    Ok((segs, rest))
}

/// So many segments, and the bytes after them.
fn several_of(
    alloc: Global,
    bytes: &[u8],
    end: usize,
    count: u8,
) -> Result<(CompactList<Seg>, &[u8]), DataFault>
    requires { length bytes.now ≤ end }
    ensures value { Gives (λ x. (x.0, x.1.now)) result (several_at count end bytes.now) }
    ensures shorter { IfOk result (λ x. length x.1.now + count ≤ length bytes.now) }
{
    let mut segs = Vec::with_capacity(alloc, usize::from(count))?;
    let mut rest = bytes;
    for _ in 0..count {
        let (segment, after) = segment_of(rest, end)?;
        segs.push(Seg::of_segment(segment))?;
        rest = after;
    }
    Ok((CompactList::from_vec(alloc, segs)?, rest))
}

/// A count that isn't 0, so many segments, and the bytes after them.
fn many_of(alloc: Global, bytes: &[u8], end: usize) -> Result<(CompactList<Seg>, &[u8]), DataFault>
    requires { length bytes.now ≤ end }
    ensures value { Gives (λ x. (x.0, x.1.now)) result (many_at end bytes.now) }
    ensures shorter { IfOk result (λ x. length x.1.now < length bytes.now) }
{
    match bytes {
        [] => Err(DataFault::Short { at: end }),
        [0, ..] => Err(DataFault::BadName {
            at: end - bytes.len(),
        }),
        [count, rest @ ..] => several_of(alloc, rest, end, *count),
    }
}

/// The segments of a name, and the bytes after them.
#[tactic(auto, unfolding(crate::specs::inner::Reading::segments_at))]
fn segments_of(
    alloc: Global,
    bytes: &[u8],
    end: usize,
) -> Result<(CompactList<Seg>, &[u8]), DataFault>
    requires { length bytes.now ≤ end }
    ensures value { Gives (λ x. (x.0, x.1.now)) result (segments_at end bytes.now) }
    ensures shorter { IfOk result (λ x. length x.1.now < length bytes.now) }
{
    match bytes {
        [] => Err(DataFault::Short { at: end }),
        [NULL_NAME, rest @ ..] => Ok((CompactList::from_slice(alloc, &[])?, rest)),
        [DUAL_NAME_PREFIX, rest @ ..] => several_of(alloc, rest, end, 2),
        [MULTI_NAME_PREFIX, rest @ ..] => many_of(alloc, rest, end),
        [_, ..] => single_of(alloc, bytes, end),
    }
}

/// The name that stands first, and the bytes after it. `end` is the place where the bytes end
/// (ACPI 6.5, 20.2.2).
#[tactic(auto, unfolding(crate::specs::inner::Reading::name_at))]
pub fn name_of(alloc: Global, bytes: &[u8], end: usize) -> Result<(Path, &[u8]), DataFault>
    requires within { length bytes.now ≤ end }
    requires small { end < 2 ^ 32 }
    ensures value { Gives (λ x. (x.0, x.1.now)) result (name_at end bytes.now) }
    ensures shorter { IfOk result (λ x. length x.1.now < length bytes.now) }
{
    let (root, ups, rest) = prefix_of(bytes);
    let (segs, after) = segments_of(alloc, rest, end)?;
    Ok((Path { root, ups, segs }, after))
}
