/// The word at this place of a line.
pub fn word_at(line: &str, at: usize) -> Option<&str> {
    line.split_whitespace().nth(at)
}

/// The number at this place: in decimal, behind `0x` in hexadecimal, `any` for the greatest of 32 bits.
pub fn number_at(line: &str, at: usize) -> Option<u64> {
    let word = word_at(line, at)?;
    if word == "any" {
        return Some(u64::from(u32::MAX));
    }
    match word.strip_prefix("0x") {
        Some(digits) => u64::from_str_radix(digits, 16).ok(),
        None => word.parse::<u64>().ok(),
    }
}

/// The number at this place, below 2^32.
pub fn u32_at(line: &str, at: usize) -> Option<u32> {
    u32::try_from(number_at(line, at)?).ok()
}

/// The number at this place, below 256.
pub(crate) fn u8_at(line: &str, at: usize) -> Option<u8> {
    u8::try_from(number_at(line, at)?).ok()
}
