ghost use Rattle.std.specs.Prelude.{◌≡◌, ◌<◌, ◌≤◌, ◌^◌, length, IfOk};
ghost use Rattle.aml_data.specs.inner.Reading.{Gives, Tells};
ghost use Rattle.aml_block.specs.inner.ReadingParts.{named_at, double_at};

use aml_data::{DataFault, Path, name_of};
use std::alloc::Global;

/// The name that stands first, which has a segment, and the bytes after it. `end` is the place where the
/// bytes end.
#[tactic(auto, unfolding(crate::specs::inner::ReadingParts::named_at))]
pub(crate) fn read_named(
    alloc: Global,
    bytes: &[u8],
    end: usize,
) -> Result<(Path, &[u8]), DataFault>
    requires within { length bytes.now ≤ end }
    requires small { end < 2 ^ 32 }
    ensures value { Gives (λ x. (x.0, x.1.now)) result (named_at end bytes.now) }
    ensures shorter { IfOk result (λ x. length x.1.now < length bytes.now) }
{
    let (path, rest) = name_of(alloc, bytes, end)?;
    if path.segs.as_slice().is_empty() {
        let at = end - rest.len() - 1;
        return Err(DataFault::BadName { at });
    }
    Ok((path, rest))
}

/// The number of the first four bytes, lowest first, and the bytes after them.
pub(crate) fn read_double(bytes: &[u8], end: usize) -> Result<(u32, &[u8]), DataFault>
    ensures value { Tells (λ x. (x.0, x.1.now)) result (double_at end bytes.now) }
    ensures shorter { IfOk result (λ x. length x.1.now < length bytes.now) }
{
    if bytes.len() < 4 {
        return Err(DataFault::Short { at: end });
    }
    let (front, rest) = bytes.split_at(4);
    let number = u32::from_le_bytes([front[0], front[1], front[2], front[3]]);
    Ok((number, rest))
}
