ghost use Rattle.std.specs.Prelude.{◌≡◌, ◌≤◌, ◌<◌, decimal, drop, is_ok, length, true};
ghost use Rattle.std.specs.Fmt.{digit_glyph, digits};
ghost use Rattle.pw_text.specs.Puts.{PutsText};
ghost use Rattle.pw_text.specs.Text.{hex_text};

use crate::page::Page;
use itoa::Buffer;
use pw_base::{Failed, Sink};

/// Puts a number in decimal.
#[tactic(auto, using(std::proofs::lemmas::Fmt::decimal_digit))]
pub fn put_number<K: Sink>(page: &mut Page, sink: &mut K, number: u64) -> Result<(), Failed>
    ensures { PutsText K.Sink sink.old sink.new page.old page.new
        (decimal number) (is_ok result) }
{
    // Most numbers that are printed have one digit.
    if number < 10 {
        return page.put(sink, &[b'0' + number as u8]);
    }
    let mut digits = Buffer::new();
    page.put(sink, digits.format(number).as_bytes())
}

/// Puts a number in upper-case hexadecimal behind `0x`.
pub fn put_hex<K: Sink>(page: &mut Page, sink: &mut K, number: u64) -> Result<(), Failed>
    ensures { PutsText K.Sink sink.old sink.new page.old page.new
        (hex_text number) (is_ok result) }
{
    page.put(sink, b"0x")?;
    let mut digits = [0u8; 64];
    let start = write_hex(number, &mut digits);
    page.put(sink, &digits[start..])
}

/// Writes hexadecimal digits at the end of the buffer, and says where they begin: std's digits have up to
/// 64 places.
pub fn write_hex(number: u64, buf: &mut [u8; 64]) -> usize
    ensures within { result ≤ 64 }
    ensures text { drop result buf.new ≡ digits 16 true number }
{
    let mut at = 64;
    let mut rest = number;
    while at > 0 {
        at -= 1;
        buf[at] = hex_digit((rest % 16) as u8);
        rest /= 16;
        if rest == 0 {
            break;
        }
    }
    at
}

/// The upper-case digit of a value below 16.
pub fn hex_digit(value: u8) -> u8
    requires { value < 16 }
    ensures { result ≡ digit_glyph true value }
{
    if value < 10 {
        b'0' + value
    } else {
        b'A' + (value - 10)
    }
}
