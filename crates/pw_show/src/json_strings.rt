ghost use Rattle.std.specs.Prelude.{◌≡◌, ◌<◌, ◌≤◌, ◌-◌, IfOk, drop, encode_utf8_all, is_ok, length, string_bytes, take, true};
ghost use Rattle.std.specs.List.{flat_map};
ghost use Rattle.serde_json.specs.Written.{compact_text};
ghost use Rattle.pw_text.specs.Puts.{PutsText};
ghost use Rattle.pw_show.specs.Json.{characters};
ghost use Rattle.pw_show.specs.inner.Pieces.{character_text, is_printable};
ghost use Rattle.pw_show.specs.inner.Putting.{PutsUnlessMemory};

use crate::json_values::without_memory;
use pw_base::{Failed, Memory, Sink};
use pw_text::{Page, PrintFault};
use serde_json::Value;
use std::alloc::Global;

/// So many characters of a string are made a value at most at once.
const PIECE: usize = 512;

/// Puts the text whose characters have these codes, as a string of JSON. Printable characters are put one by
/// one; of the others `serde_json` makes a value, a piece at a time.
pub fn put_characters<K: Sink>(
    alloc: Global,
    page: &mut Page,
    sink: &mut K,
    bytes: &[u8],
) -> Result<(), PrintFault>
    ensures { PutsUnlessMemory K.Sink sink.old sink.new page.old page.new
        (compact_text (characters bytes.now)) result }
{
    page.put(sink, b"\"")?;
    put_pieces(alloc, page, sink, bytes)?;
    page.put(sink, b"\"")?;
    Ok(())
}

fn put_pieces<K: Sink>(
    alloc: Global,
    page: &mut Page,
    sink: &mut K,
    bytes: &[u8],
) -> Result<(), PrintFault>
    ensures { PutsUnlessMemory K.Sink sink.old sink.new page.old page.new
        (flat_map character_text bytes.now) result }
{
    let mut rest = bytes;
    while !rest.is_empty() {
        let size = first_piece(rest);
        let (piece, others) = rest.split_at(size);
        put_piece(alloc, page, sink, piece)?;
        rest = others;
    }
    Ok(())
}

/// How many bytes are put at once: a printable character, or all before the next.
fn first_piece(bytes: &[u8]) -> usize
    requires { 0 < length bytes.now }
    ensures some { 0 < result }
    ensures within { result ≤ length bytes.now }
{
    let most = bytes.len().min(PIECE);
    let mut size = 1;
    while size < most && !is_printable(bytes[0]) && !is_printable(bytes[size]) {
        size += 1;
    }
    size
}

/// Whether JSON has a character as it is, or else behind a backslash alone.
fn is_printable(byte: u8) -> bool
    ensures { result ≡ is_printable byte }
{
    byte >= 0x20 && byte < 0x7F
}

fn put_piece<K: Sink>(
    alloc: Global,
    page: &mut Page,
    sink: &mut K,
    bytes: &[u8],
) -> Result<(), PrintFault>
    ensures { PutsUnlessMemory K.Sink sink.old sink.new page.old page.new
        (flat_map character_text bytes.now) result }
{
    if bytes.len() == 1 && is_printable(bytes[0]) {
        return without_memory(put_printable(page, sink, bytes[0]));
    }
    put_others(alloc, page, sink, bytes)
}

/// Puts a printable character.
fn put_printable<K: Sink>(page: &mut Page, sink: &mut K, byte: u8) -> Result<(), Failed>
    requires { is_printable byte ≡ true }
    ensures { PutsText K.Sink sink.old sink.new page.old page.new
        (character_text byte) (is_ok result) }
{
    if byte == b'"' || byte == b'\\' {
        return page.put(sink, &[b'\\', byte]);
    }
    page.put(sink, &[byte])
}

/// Puts characters of which a value is made.
fn put_others<K: Sink>(
    alloc: Global,
    page: &mut Page,
    sink: &mut K,
    bytes: &[u8],
) -> Result<(), PrintFault>
    ensures { PutsUnlessMemory K.Sink sink.old sink.new page.old page.new
        (flat_map character_text bytes.now) result }
{
    let text = string_text(alloc, bytes)?;
    page.put(sink, inside(text.as_slice()))?;
    Ok(())
}

/// The text of a string, in its quotes.
fn string_text(alloc: Global, bytes: &[u8]) -> Result<Vec<u8>, Memory>
    ensures { IfOk result (λ text. text.items ≡ compact_text (characters bytes.now)) }
{
    let text = characters_of(alloc, bytes)?;
    Ok(Value::from(text).to_vec(alloc)?)
}

/// What stands between the first byte and the last.
fn inside(quoted: &[u8]) -> &[u8]
    requires { 2 ≤ length quoted.now }
    ensures { result.now ≡ take (length quoted.now - 2) (drop 1 quoted.now) }
{
    &quoted[1..quoted.len() - 1]
}

/// The text whose characters have these codes.
fn characters_of(alloc: Global, bytes: &[u8]) -> Result<String, Memory>
    ensures { IfOk result (λ text. string_bytes text ≡ encode_utf8_all bytes.now) }
{
    let mut text = String::with_capacity(alloc, bytes.len())?;
    for byte in bytes {
        text.push(char::from(*byte))?;
    }
    Ok(text)
}
