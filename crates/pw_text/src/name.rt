ghost use Rattle.std.specs.Prelude.{◌≡◌, [], IfOk, Some, None, if◌then◌else◌};
ghost use Rattle.aml_data.specs.Segment.{is_letter, is_word};
ghost use Rattle.pw_text.specs.Fields.{parts};
ghost use Rattle.pw_text.specs.Forms.{filled, is_short, name_of, names_of};
ghost use Rattle.pw_text.specs.inner.Names.{filled_few};

use crate::lines::cut;
use pw_base::Memory;

/// Whether a segment may begin with this byte.
fn is_letter(byte: u8) -> bool
    ensures { result ≡ is_letter byte }
{
    byte.is_ascii_uppercase() || byte == b'_'
}

/// Whether a segment may go on with this byte.
fn is_word(byte: u8) -> bool
    ensures { result ≡ is_word byte }
{
    is_letter(byte) || byte.is_ascii_digit()
}

/// One to four bytes, filled up to four by `_`. None where there are more, or none.
fn filled(text: &[u8]) -> Option<[u8; 4]>
    ensures { result ≡ filled_few text.now }
{
    match text {
        [a] => Some([*a, b'_', b'_', b'_']),
        [a, b] => Some([*a, *b, b'_', b'_']),
        [a, b, c] => Some([*a, *b, *c, b'_']),
        [a, b, c, d] => Some([*a, *b, *c, *d]),
        _ => None,
    }
}

/// A segment of one to four characters, filled up to four. None where it is none.
fn segment_of(text: &[u8]) -> Option<[u8; 4]>
    ensures { result ≡ (if is_short text.now then Some (filled text.now) else None) }
{
    let seg = filled(text)?;
    if is_letter(seg[0]) && is_word(seg[1]) && is_word(seg[2]) && is_word(seg[3]) {
        Some(seg)
    } else {
        None
    }
}

/// Puts segments that dots join behind a name that is empty. False where one of them is none.
fn put_segments(name: &mut Vec<u8>, text: &[u8]) -> Result<bool, Memory>
    requires { name.old.items ≡ [] }
    ensures { IfOk result (λ ok. names_of (parts 46 text.now) ≡ (if ok then Some name.new.items else None)) }
{
    let mut left = text;
    loop {
        let (part, behind) = cut(left, b'.');
        let Some(seg) = segment_of(part) else {
            return Ok(false);
        };
        name.extend_from_slice(&seg)?;
        match behind {
            None => return Ok(true),
            Some(rest) => left = rest,
        }
    }
}

/// Writes the segments of a path over the name. False where it is no path.
pub fn write_name(name: &mut Vec<u8>, text: &[u8]) -> Result<bool, Memory>
    ensures { IfOk result (λ ok. name_of text.now ≡ (if ok then Some name.new.items else None)) }
{
    name.clear();
    match text {
        [b'\\', rest @ ..] => put_segments(name, rest),
        _ => Ok(false),
    }
}
