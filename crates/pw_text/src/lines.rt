ghost use Rattle.std.specs.Prelude.{◌≡◌, ◌==◌, ◌∷◌, ◌<◌, ◌≤◌, length, IfSome, IfNone, option_copied};
ghost use Rattle.std.specs.List.{count_by};
ghost use Rattle.pw_text.specs.Fields.{parts, lines_of, fields_of, onto_fields, without_return};
ghost use Rattle.pw_text.specs.inner.Cuts.{parts_after};
ghost use Rattle.pw_text.specs.inner.Feeds.{is_open};

use memchr::memchr;

/// The part up to the first byte that is `at`, and what stands behind that byte.
pub(crate) fn cut(bytes: &[u8], at: u8) -> (&[u8], Option<&[u8]>)
    ensures value { parts at bytes.now ≡ parts_after at result.0.now (option_copied result.1) }
    ensures whole { IfNone result.1 (result.0.now ≡ bytes.now) }
    ensures shorter { IfSome result.1 (λ rest. length rest.now < length bytes.now) }
{
    for (index, byte) in bytes.iter().enumerate() {
        if *byte == at {
            return (&bytes[..index], Some(&bytes[index + 1..]));
        }
    }
    (bytes, None)
}

/// The same, where that byte is likely to be farther off: many bytes are looked at at once.
fn cut_far(bytes: &[u8], at: u8) -> (&[u8], Option<&[u8]>)
    ensures value { parts at bytes.now ≡ parts_after at result.0.now (option_copied result.1) }
    ensures whole { IfNone result.1 (result.0.now ≡ bytes.now) }
    ensures shorter { IfSome result.1 (λ rest. length rest.now < length bytes.now) }
{
    match memchr(at, bytes) {
        None => (bytes, None),
        Some(index) => (&bytes[..index], Some(&bytes[index + 1..])),
    }
}

/// Without a carriage return at the end.
fn without_return(line: &[u8]) -> &[u8]
    ensures { result.now ≡ without_return line.now }
{
    match line {
        [front @ .., b'\r'] => front,
        _ => line,
    }
}

/// The first line, and what stands behind its ending.
pub fn first_line(bytes: &[u8]) -> (&[u8], &[u8])
    requires { 0 < length bytes.now }
    ensures value { lines_of bytes.now ≡ result.0.now ∷ lines_of result.1.now }
    ensures shorter { length result.1.now < length bytes.now }
{
    let (part, behind) = cut_far(bytes, b'\n');
    match behind {
        None => (part, &[]),
        Some(rest) => (without_return(part), rest),
    }
}

/// The first field, empty where there is none, and what stands behind it.
pub fn first_field(line: &[u8]) -> (&[u8], &[u8])
    ensures { fields_of line.now ≡ onto_fields result.0.now (fields_of result.1.now) }
{
    let mut left = line;
    loop {
        let (part, behind) = cut(left, b' ');
        match behind {
            None => return (part, &[]),
            Some(rest) => {
                if !part.is_empty() {
                    return (part, rest);
                }
                left = rest;
            }
        }
    }
}

/// How many line feeds there are among a few bytes: a count of 8 bits is had of many at once.
fn few_feeds(bytes: &[u8]) -> u8
    requires { length bytes.now ≤ 255 }
    ensures { result ≡ count_by (λ b. b == 10) bytes.now }
{
    let mut feeds = 0;
    for byte in bytes {
        if *byte == b'\n' {
            feeds += 1;
        }
    }
    feeds
}

/// How many line feeds there are.
fn count_feeds(bytes: &[u8]) -> usize
    ensures { result ≡ count_by (λ b. b == 10) bytes.now }
{
    let mut feeds = 0;
    let mut left = bytes;
    while left.len() > 128 {
        let (few, rest) = left.split_at(128);
        feeds += usize::from(few_feeds(few));
        left = rest;
    }
    feeds + usize::from(few_feeds(left))
}

/// Whether the last line has no line feed.
fn is_open(bytes: &[u8]) -> bool
    ensures { result ≡ is_open bytes.now }
{
    !bytes.is_empty() && bytes[bytes.len() - 1] != b'\n'
}

/// How many lines there are.
pub fn count_lines(bytes: &[u8]) -> usize
    ensures { result ≡ length (lines_of bytes.now) }
{
    let feeds = count_feeds(bytes);
    if is_open(bytes) { feeds + 1 } else { feeds }
}
