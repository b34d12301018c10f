ghost use Rattle.std.specs.Prelude.{◌<◌, length, IfOk};
ghost use Rattle.std.specs.Int.{w16, w32, w64};
ghost use Rattle.aml_data.specs.inner.Reading.{Tells, byte_at, number_at};

use crate::fault::DataFault;

/// The first byte, and the bytes after it. `end` is the place where the bytes end.
pub fn byte_of(bytes: &[u8], end: usize) -> Result<(u8, &[u8]), DataFault>
    ensures value { Tells (λ x. (x.0, x.1.now)) result (byte_at end bytes.now) }
    ensures shorter { IfOk result (λ x. length x.1.now < length bytes.now) }
{
    match bytes {
        [] => Err(DataFault::Short { at: end }),
        [byte, rest @ ..] => Ok((*byte, rest)),
    }
}

/// The number in the first two bytes, and the bytes after it.
pub(crate) fn word_of(bytes: &[u8], end: usize) -> Result<(u64, &[u8]), DataFault>
    ensures value { Tells (λ x. (x.0, x.1.now)) result (number_at w16 end bytes.now) }
    ensures shorter { IfOk result (λ x. length x.1.now < length bytes.now) }
{
    if bytes.len() < 2 {
        return Err(DataFault::Short { at: end });
    }
    let (front, rest) = bytes.split_at(2);
    let number = u16::from_le_bytes([front[0], front[1]]);
    Ok((u64::from(number), rest))
}

/// The number in the first four bytes, and the bytes after it.
pub(crate) fn double_of(bytes: &[u8], end: usize) -> Result<(u64, &[u8]), DataFault>
    ensures value { Tells (λ x. (x.0, x.1.now)) result (number_at w32 end bytes.now) }
    ensures shorter { IfOk result (λ x. length x.1.now < length bytes.now) }
{
    if bytes.len() < 4 {
        return Err(DataFault::Short { at: end });
    }
    let (front, rest) = bytes.split_at(4);
    let number = u32::from_le_bytes([front[0], front[1], front[2], front[3]]);
    Ok((u64::from(number), rest))
}

/// The number in the first eight bytes, and the bytes after it.
pub(crate) fn quad_of(bytes: &[u8], end: usize) -> Result<(u64, &[u8]), DataFault>
    ensures value { Tells (λ x. (x.0, x.1.now)) result (number_at w64 end bytes.now) }
    ensures shorter { IfOk result (λ x. length x.1.now < length bytes.now) }
{
    if bytes.len() < 8 {
        return Err(DataFault::Short { at: end });
    }
    let (front, rest) = bytes.split_at(8);
    let number = u64::from_le_bytes([
        front[0], front[1], front[2], front[3], front[4], front[5], front[6], front[7],
    ]);
    Ok((number, rest))
}
