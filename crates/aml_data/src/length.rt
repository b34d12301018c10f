ghost use Rattle.std.specs.Prelude.{◌≡◌, ◌+◌, ◌<◌, ◌≤◌, length, IfOk};
ghost use Rattle.aml_data.specs.inner.Reading.{Tells, left_at, length_at, length_value, window_at};

use crate::fault::DataFault;

/// The length that a lead byte and the bytes that follow it give.
fn length_value(lead: u8, following: &[u8]) -> usize
    ensures { result ≡ length_value lead following.now }
{
    let low = usize::from(lead % 16);
    match following {
        [] => usize::from(lead),
        [b] => low + 16 * usize::from(*b),
        [b, c] => low + 16 * usize::from(*b) + 0x1000 * usize::from(*c),
        [b, c, d, ..] => {
            low + 16 * usize::from(*b) + 0x1000 * usize::from(*c) + 0x10_0000 * usize::from(*d)
        }
    }
}

/// How many bytes behind a PkgLength belong to its object, where it stands before `rest`. `more` is the
/// number of bytes that follow its lead byte.
fn left_of(lead: u8, more: usize, rest: &[u8], end: usize) -> Result<(usize, &[u8]), DataFault>
    requires end { length rest.now < end }
    requires long { more ≤ length rest.now }
    requires few { more < 4 }
    ensures value { Tells (λ x. (x.0, x.1.now)) result (left_at end more lead rest.now) }
    ensures inside { IfOk result (λ x. x.0 ≤ length x.1.now) }
    ensures shorter { IfOk result (λ x. length x.1.now ≤ length rest.now) }
{
    let (following, after) = rest.split_at(more);
    let whole = length_value(lead, following);
    if whole <= more || whole > rest.len() + 1 {
        let at = end - rest.len() - 1;
        return Err(DataFault::BadLength { at });
    }
    Ok((whole - more - 1, after))
}

/// The PkgLength that stands first: how many bytes after it belong to its object, and the bytes after
/// it. `end` is the place where the bytes end (ACPI 6.5, 20.2.4).
#[tactic(auto, unfolding(crate::specs::inner::Reading::length_at))]
pub fn length_of(bytes: &[u8], end: usize) -> Result<(usize, &[u8]), DataFault>
    requires within { length bytes.now ≤ end }
    ensures value { Tells (λ x. (x.0, x.1.now)) result (length_at end bytes.now) }
    ensures inside { IfOk result (λ x. x.0 ≤ length x.1.now) }
    ensures shorter { IfOk result (λ x. length x.1.now < length bytes.now) }
{
    match bytes {
        [] => Err(DataFault::Short { at: end }),
        [lead, rest @ ..] => {
            let more = usize::from(*lead / 64);
            if more > 0 && *lead / 16 % 4 != 0 {
                let at = end - bytes.len();
                return Err(DataFault::BadLength { at });
            }
            if rest.len() < more {
                return Err(DataFault::Short { at: end });
            }
            left_of(*lead, more, rest, end)
        }
    }
}

/// The bytes that the PkgLength that stands first counts after itself, and the bytes after them. `end`
/// is the place where the bytes end (ACPI 6.5, 20.2.4).
#[tactic(auto, unfolding(crate::specs::inner::Reading::window_at))]
pub fn window_of(bytes: &[u8], end: usize) -> Result<(&[u8], &[u8]), DataFault>
    requires within { length bytes.now ≤ end }
    ensures value { Tells (λ x. (x.0.now, x.1.now)) result (window_at end bytes.now) }
    ensures shorter { IfOk result (λ x. length x.0.now + length x.1.now < length bytes.now) }
{
    let (count, rest) = length_of(bytes, end)?;
    Ok(rest.split_at(count))
}
