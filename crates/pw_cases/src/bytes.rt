use std::alloc::Global;

/// What stands in the header of a definition block behind its checksum (ACPI 6.5, 5.2.6).
const HEADER_END: &[u8] = b"POWER POWERTAB\x01\x00\x00\x00PWR \x01\x00\x00\x00";

/// Puts the bytes that words spell: `5B` is a byte, `5B83` two, `3*00` three of one, `'_PPC` a text.
pub(crate) fn put_bytes(alloc: Global, bytes: &mut Vec<u8>, words: &str) -> Option<()> {
    for word in words.split_whitespace() {
        put_word(alloc, bytes, word)?;
    }
    Some(())
}

fn put_word(alloc: Global, bytes: &mut Vec<u8>, word: &str) -> Option<()> {
    if let Some(text) = word.strip_prefix("'") {
        return bytes.extend_from_slice(text.as_bytes()).ok();
    }
    let Some((count, digits)) = word.split_once("*") else {
        return put_digits(bytes, word);
    };
    let count = count.parse::<u32>().ok()?;
    let mut piece = Vec::new(alloc);
    put_digits(&mut piece, digits)?;
    put_times(bytes, piece.as_slice(), count)
}

fn put_times(bytes: &mut Vec<u8>, piece: &[u8], count: u32) -> Option<()> {
    for _ in 0..count {
        bytes.extend_from_slice(piece).ok()?;
    }
    Some(())
}

fn put_digits(bytes: &mut Vec<u8>, digits: &str) -> Option<()> {
    let mut high = None;
    for digit in digits.as_bytes() {
        let value = digit_value(*digit)?;
        match high {
            None => high = Some(value),
            Some(first) => {
                bytes.push(first << 4 | value).ok()?;
                high = None;
            }
        }
    }
    if high.is_some() { None } else { Some(()) }
}

fn digit_value(digit: u8) -> Option<u8> {
    match digit {
        b'0'..=b'9' => Some(digit - b'0'),
        b'A'..=b'F' => Some(digit - b'A' + 10),
        _ => None,
    }
}

fn sum_of(bytes: &[u8]) -> u8 {
    bytes
        .iter()
        .fold(0, |sum: u8, byte| sum.wrapping_add(*byte))
}

/// Puts a block of this signature and body, with the right length and checksum, where there is nothing yet.
pub(crate) fn put_block(block: &mut Vec<u8>, signature: &str, body: &[u8]) -> Option<()> {
    let length = u32::try_from(body.len()).ok()?.checked_add(36)?;
    block.extend_from_slice(signature.as_bytes()).ok()?;
    block.extend_from_slice(&length.to_le_bytes()).ok()?;
    block.push(2).ok()?;
    let sum = sum_of(block.as_slice())
        .wrapping_add(sum_of(HEADER_END))
        .wrapping_add(sum_of(body));
    block.push(0u8.wrapping_sub(sum)).ok()?;
    block.extend_from_slice(HEADER_END).ok()?;
    block.extend_from_slice(body).ok()
}
