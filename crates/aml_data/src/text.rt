ghost use Rattle.std.specs.Prelude.{◌≡◌, ◌+◌, ◌<◌, ◌≤◌, length, take, drop, IfOk};
ghost use Rattle.aml_data.specs.inner.Reading.{Gives, Tells};
ghost use Rattle.aml_data.specs.inner.ReadingObjects.{text_at};

use crate::fault::DataFault;
use pw_base::CompactList;
use std::alloc::Global;

/// How many bytes stand before the 0 that ends a string.
#[tactic(auto, unfolding(crate::specs::inner::ReadingObjects::text_at))]
fn text_length(bytes: &[u8], end: usize) -> Result<usize, DataFault>
    requires { length bytes.now ≤ end }
    ensures value { Tells (λ n. (take n bytes.now, drop (n + 1) bytes.now)) result
        (text_at end bytes.now) }
    ensures inside { IfOk result (λ n. n < length bytes.now) }
{
    for (i, byte) in bytes.iter().enumerate() {
        if *byte == 0 {
            return Ok(i);
        }
        if *byte >= 0x80 {
            return Err(DataFault::BadText {
                at: end - (bytes.len() - i),
            });
        }
    }
    Err(DataFault::Short { at: end })
}

/// The string behind its lead byte, without the 0 that ends it, and the bytes after that. `end` is the
/// place where the bytes end (ACPI 6.5, 20.2.3).
pub(crate) fn text_of(
    alloc: Global,
    bytes: &[u8],
    end: usize,
) -> Result<(CompactList<u8>, &[u8]), DataFault>
    requires { length bytes.now ≤ end }
    ensures value { Gives (λ x. (x.0, x.1.now)) result (text_at end bytes.now) }
    ensures shorter { IfOk result (λ x. length x.1.now < length bytes.now) }
{
    let count = text_length(bytes, end)?;
    let (text, _) = bytes.split_at(count);
    let (_, rest) = bytes.split_at(count + 1);
    let text = CompactList::from_slice(alloc, text)?;
    Ok((text, rest))
}
