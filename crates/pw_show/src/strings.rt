ghost use Rattle.std.specs.Prelude.{◌≡◌, ◌++◌, codes, is_ok};
ghost use Rattle.std.specs.List.{flat_map};
ghost use Rattle.pw_text.specs.Puts.{PutsText};
ghost use Rattle.pw_show.specs.Values.{byte_digits, escaped};

use pw_base::{Failed, Sink};
use pw_text::{Page, hex_digit};

/// Puts the bytes of a string between double quotes.
pub fn put_string<K: Sink>(page: &mut Page, sink: &mut K, text: &[u8]) -> Result<(), Failed>
    ensures { PutsText K.Sink sink.old sink.new page.old page.new
        (codes "\"" ++ flat_map escaped text.now ++ codes "\"") (is_ok result) }
{
    page.put(sink, b"\"")?;
    put_escaped(page, sink, text)?;
    page.put(sink, b"\"")
}

fn put_escaped<K: Sink>(page: &mut Page, sink: &mut K, text: &[u8]) -> Result<(), Failed>
    ensures { PutsText K.Sink sink.old sink.new page.old page.new
        (flat_map escaped text.now) (is_ok result) }
{
    for byte in text {
        put_byte(page, sink, *byte)?;
    }
    Ok(())
}

fn put_byte<K: Sink>(page: &mut Page, sink: &mut K, byte: u8) -> Result<(), Failed>
    ensures { PutsText K.Sink sink.old sink.new page.old page.new
        (escaped byte) (is_ok result) }
{
    if byte == b'"' || byte == b'\\' {
        return page.put(sink, &[b'\\', byte]);
    }
    if byte < 0x20 || byte == 0x7F {
        let [high, low] = hex_pair(byte);
        return page.put(sink, &[b'\\', b'x', high, low]);
    }
    page.put(sink, &[byte])
}

/// Two upper-case hexadecimal digits.
pub fn hex_pair(byte: u8) -> [u8; 2]
    ensures { result ≡ byte_digits byte }
{
    [hex_digit(byte / 16), hex_digit(byte % 16)]
}
