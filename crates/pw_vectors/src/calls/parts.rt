//! Constants and lengths (ACPI 6.5, 20.2.3 and 20.2.4).

use aml_data::{
    byte_of, constant_len, constant_of, decode_constant, decode_length, encode_constant,
    encode_length, length_len, length_of, window_of,
};
use std::alloc::Global;

/// Whether constants and lengths are read at a place.
pub(crate) fn parts_at_a_place() -> Option<bool> {
    let is_read = decode_constant(&[0x0A, 0x05, 0x5B, 0x30], 0) == Ok((5, 2));
    Some(is_read && decode_length(&[0x12, 0x43, 0x00, 0x00], 1) == Ok((4, 2)))
}

/// Whether constants and lengths are written.
pub(crate) fn parts_written(alloc: Global) -> Option<bool> {
    let mut out = Vec::new(alloc);
    encode_constant(alloc, 256, &mut out).ok()?;
    encode_length(alloc, 63, &mut out).ok()?;
    let is_written = out.as_slice() == [0x0B, 0x00, 0x01, 0x41, 0x04].as_slice();
    Some(is_written && constant_len(256) == 3 && length_len(63) == 2)
}

/// Whether constants and lengths in front of bytes are read, and what lies behind them is left.
pub(crate) fn parts_in_front() -> Option<bool> {
    let (bytes, sized) = ([0x0A, 0x05, 0x01], [0x03, 0x07, 0x08, 0x09]);
    let is_byte = matches!(byte_of(&bytes, 9), Ok((0x0A, rest)) if rest.len() == 2);
    let is_constant = matches!(constant_of(&bytes, 9), Ok((5, rest)) if rest.len() == 1);
    let is_window =
        matches!(window_of(&sized, 10), Ok((inside, rest)) if inside.len() == 2 && rest.len() == 1);
    let is_length = matches!(length_of(&[0x42, 0x00, 0x08], 10), Ok((0, _)));
    Some(is_byte && is_constant && is_window && is_length)
}
