ghost use Rattle.std.specs.Prelude.{◌≡◌, ◌+◌, ◌≤◌, ◌++◌, codes, decimal, is_ok, length, map, take};
ghost use Rattle.std.specs.List.{flat_map, join_with_byte};
ghost use Rattle.serde_json.specs.Written.{compact_text};
ghost use Rattle.pw_text.specs.Puts.{PutsText};
ghost use Rattle.pw_show.specs.Json.{buffer_json};
ghost use Rattle.pw_show.specs.inner.Pieces.{comma_number};

use pw_base::{Failed, Sink};
use pw_text::{Page, put_number};

/// So many bytes of a buffer are spelled at once, and then put as one text.
const PIECE: usize = 512;

/// So many characters they are at most: a comma and three digits each.
const PIECE_TEXT: usize = 4 * PIECE;

/// Puts a buffer as JSON: the list of its bytes, and its size.
pub fn put_json_buffer<K: Sink>(
    page: &mut Page,
    sink: &mut K,
    size: u64,
    bytes: &[u8],
) -> Result<(), Failed>
    ensures { PutsText K.Sink sink.old sink.new page.old page.new
        (compact_text (buffer_json size bytes.now)) (is_ok result) }
{
    page.put(sink, b"{\"bytes\":[")?;
    put_list(page, sink, bytes)?;
    put_size(page, sink, size)
}

/// Puts what stands behind the bytes.
fn put_size<K: Sink>(page: &mut Page, sink: &mut K, size: u64) -> Result<(), Failed>
    ensures { PutsText K.Sink sink.old sink.new page.old page.new
        (codes "],\"size\":" ++ (decimal size ++ codes "}")) (is_ok result) }
{
    page.put(sink, b"],\"size\":")?;
    put_number(page, sink, size)?;
    page.put(sink, b"}")
}

fn put_list<K: Sink>(page: &mut Page, sink: &mut K, bytes: &[u8]) -> Result<(), Failed>
    ensures { PutsText K.Sink sink.old sink.new page.old page.new
        (join_with_byte 44 (map decimal bytes.now)) (is_ok result) }
{
    let Some((first, rest)) = bytes.split_first() else {
        return Ok(());
    };
    put_number(page, sink, u64::from(*first))?;
    put_others(page, sink, rest)
}

fn put_others<K: Sink>(page: &mut Page, sink: &mut K, bytes: &[u8]) -> Result<(), Failed>
    ensures { PutsText K.Sink sink.old sink.new page.old page.new
        (flat_map comma_number bytes.now) (is_ok result) }
{
    let mut rest = bytes;
    while rest.len() > PIECE {
        let (piece, others) = rest.split_at(PIECE);
        put_piece(page, sink, piece)?;
        rest = others;
    }
    put_piece(page, sink, rest)
}

fn put_piece<K: Sink>(page: &mut Page, sink: &mut K, bytes: &[u8]) -> Result<(), Failed>
    requires { length bytes.now ≤ PIECE }
    ensures { PutsText K.Sink sink.old sink.new page.old page.new
        (flat_map comma_number bytes.now) (is_ok result) }
{
    let mut text = [0; PIECE_TEXT];
    let end = write_numbers(bytes, &mut text);
    page.put(sink, &text[..end])
}

/// Writes each byte behind a comma, from the front of the text on, and says where they end.
fn write_numbers(bytes: &[u8], text: &mut [u8; PIECE_TEXT]) -> usize
    requires { length bytes.now ≤ PIECE }
    ensures within { result ≤ PIECE_TEXT }
    ensures text { take result text.new ≡ flat_map comma_number bytes.now }
{
    let mut end = 0;
    for byte in bytes {
        end = write_number(*byte, text, end);
    }
    end
}

/// Writes a byte behind a comma from a place on, and says where it ends.
#[inline]
fn write_number(byte: u8, text: &mut [u8; PIECE_TEXT], at: usize) -> usize
    requires { at + 4 ≤ PIECE_TEXT }
    ensures within { result ≤ at + 4 }
    ensures text { take result text.new ≡ take at text.old ++ comma_number byte }
{
    let last = b'0' + byte % 10;
    let tens = b'0' + byte / 10 % 10;
    text[at] = b',';
    if byte < 10 {
        text[at + 1] = last;
        return at + 2;
    }
    if byte < 100 {
        text[at + 1] = tens;
        text[at + 2] = last;
        return at + 3;
    }
    text[at + 1] = b'0' + byte / 100;
    text[at + 2] = tens;
    text[at + 3] = last;
    at + 4
}
