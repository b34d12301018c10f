ghost use Rattle.std.specs.Prelude.{◌≡◌, ◌≤◌, ◌<◌, true};
ghost use Rattle.std.specs.List.{list_all};
ghost use Rattle.pw_text.specs.Forms.{is_digit, is_number, number_of};

/// Whether it is one or more digits.
pub fn is_number(text: &[u8]) -> bool
    ensures { result ≡ is_number text.now }
{
    let mut left = text;
    while let [byte, rest @ ..] = left {
        if !byte.is_ascii_digit() {
            return false;
        }
        left = rest;
    }
    !text.is_empty()
}

/// The number that the digits say, unless it is above 4294967295. No digits say 0.
pub fn value_of(text: &[u8]) -> Option<u32>
    requires { list_all is_digit text.now ≡ true }
    ensures { result ≡ number_of text.now }
{
    let mut value = 0u64;
    let mut left = text;
    while let [digit, rest @ ..] = left {
        value = 10 * value + u64::from(*digit - b'0');
        if value > u64::from(u32::MAX) {
            return None;
        }
        left = rest;
    }
    Some(value as u32)
}
