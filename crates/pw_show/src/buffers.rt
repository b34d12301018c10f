ghost use Rattle.std.specs.Prelude.{◌≡◌, ◌≤◌, ◌*◌, codes, is_ok, length, map, take};
ghost use Rattle.std.specs.List.{flat_map};
ghost use Rattle.pw_text.specs.Puts.{PutsText};
ghost use Rattle.pw_show.specs.Values.{braced, byte_digits, separated};
ghost use Rattle.pw_show.specs.inner.Pieces.{spaced_byte};

use crate::strings::hex_pair;
use crate::values::put_head;
use pw_base::{Failed, Sink};
use pw_text::Page;

/// So many bytes of a buffer are spelled at once, and then put as one text.
const PIECE: usize = 512;

/// So many characters they are: a space and two digits each.
const PIECE_TEXT: usize = 3 * PIECE;

/// Puts a buffer: its size, and its bytes.
pub fn put_buffer<K: Sink>(
    page: &mut Page,
    sink: &mut K,
    size: u64,
    bytes: &[u8],
) -> Result<(), Failed>
    ensures { PutsText K.Sink sink.old sink.new page.old page.new
        (braced (codes "Buffer(") size (separated (codes " ") (map byte_digits bytes.now))) (is_ok result) }
{
    put_head(page, sink, b"Buffer(", size)?;
    put_bytes(page, sink, bytes)?;
    page.put(sink, b"}")
}

fn put_bytes<K: Sink>(page: &mut Page, sink: &mut K, bytes: &[u8]) -> Result<(), Failed>
    ensures { PutsText K.Sink sink.old sink.new page.old page.new
        (separated (codes " ") (map byte_digits bytes.now)) (is_ok result) }
{
    let Some((first, rest)) = bytes.split_first() else {
        return Ok(());
    };
    page.put(sink, &hex_pair(*first))?;
    put_other_bytes(page, sink, rest)
}

fn put_other_bytes<K: Sink>(page: &mut Page, sink: &mut K, bytes: &[u8]) -> Result<(), Failed>
    ensures { PutsText K.Sink sink.old sink.new page.old page.new
        (flat_map spaced_byte bytes.now) (is_ok result) }
{
    let mut rest = bytes;
    while rest.len() > PIECE {
        let (piece, others) = rest.split_at(PIECE);
        put_piece(page, sink, piece)?;
        rest = others;
    }
    put_piece(page, sink, rest)
}

fn put_piece<K: Sink>(page: &mut Page, sink: &mut K, bytes: &[u8]) -> Result<(), Failed>
    requires { length bytes.now ≤ PIECE }
    ensures { PutsText K.Sink sink.old sink.new page.old page.new
        (flat_map spaced_byte bytes.now) (is_ok result) }
{
    let mut text = [b' '; PIECE_TEXT];
    write_spaced(bytes, &mut text);
    page.put(sink, &text[..3 * bytes.len()])
}

/// Writes each byte behind a space, from the front of the text on.
fn write_spaced(bytes: &[u8], text: &mut [u8; PIECE_TEXT])
    requires { length bytes.now ≤ PIECE }
    ensures { take (3 * length bytes.now) text.new ≡ flat_map spaced_byte bytes.now }
{
    for (i, byte) in bytes.iter().enumerate() {
        let [high, low] = hex_pair(*byte);
        text[3 * i] = b' ';
        text[3 * i + 1] = high;
        text[3 * i + 2] = low;
    }
}
