use crate::fields::{put_elements, put_integer, put_register_at, put_template, put_two_fields};
use crate::tables::put_told;
use aml_data::{Data, Width, decode, encode, is_writable};
use std::alloc::Global;

/// Puts the bytes of words in hexadecimal, `3*00` for three alike.
fn put_bytes(bytes: &mut Vec<u8>, words: &str) -> Option<()> {
    for word in words.split_whitespace() {
        let (count, digits) = word.split_once("*").unwrap_or(("1", word));
        let byte = u8::from_str_radix(digits, 16).ok()?;
        for _ in 0..count.parse::<u32>().ok()? {
            bytes.push(byte).ok()?;
        }
    }
    Some(())
}

/// The object that all of the bytes spell.
fn object_of(alloc: Global, bytes: &[u8]) -> Option<Data> {
    if bytes.len() >= 1000 {
        return None;
    }
    let (object, used) = decode(alloc, bytes, 0).ok()?;
    if used == bytes.len() {
        Some(object)
    } else {
        None
    }
}

/// Whether the object is written as these bytes.
fn is_written(alloc: Global, object: &Data, bytes: &[u8]) -> Option<bool> {
    if !is_writable(object) {
        return None;
    }
    let mut written = Vec::new(alloc);
    encode(alloc, object, &mut written).ok()?;
    Some(written.as_slice() == bytes)
}

/// Tells what an object of this kind is read as, a part of a table too, and gives the object that is
/// written of it.
fn put_object(
    text: &mut String,
    alloc: Global,
    kind: &str,
    width: Width,
    object: &Data,
) -> Option<Option<Data>> {
    match kind {
        "register" => return put_register_at(text, alloc, object),
        "integer" => put_integer(text, object, width)?,
        "elements" => put_elements(text, object)?,
        "two-fields" => put_two_fields(text, object)?,
        _ => return put_told(text, alloc, kind, width, object),
    }
    Some(None)
}

/// Tells what bytes are read as, and gives whether they are written again of it; none where nothing is.
fn put_read(text: &mut String, alloc: Global, kind: &str, bytes: &[u8]) -> Option<Option<bool>> {
    if kind == "template" {
        let written = put_template(text, bytes)?;
        return Some(written.map(|held| held.as_slice() == bytes));
    }
    let (kind, width) = kind.split_once("/").unwrap_or((kind, "64"));
    let width = if width == "32" {
        Width::W32
    } else {
        Width::W64
    };
    let object = object_of(alloc, bytes)?;
    let told = put_object(text, alloc, kind, width, &object);
    drop(object);
    match told? {
        Some(written) => {
            let again = is_written(alloc, &written, bytes);
            drop(written);
            Some(Some(again?))
        }
        None => Some(None),
    }
}

/// Compares what is read of the bytes, and where it is asked for what is written again.
fn compared(alloc: Global, kind: &str, words: &str, wanted: &str, again: bool) -> Option<String> {
    let mut bytes = Vec::new(alloc);
    put_bytes(&mut bytes, words)?;
    let mut text = String::new(alloc);
    let written = put_read(&mut text, alloc, kind, bytes.as_slice())?;
    if text.as_str() != wanted {
        return Some(text);
    }
    let came = if !again || written == Some(true) {
        "as it must be"
    } else {
        "written otherwise"
    };
    String::from_str(alloc, came).ok()
}

/// What comes of a vector: `KIND/WIDTH BYTES = VALUE`, or `->` where the value is written otherwise.
pub(crate) fn came(alloc: Global, vector: &str) -> Option<String> {
    let (kind, rest) = vector.split_once(" ")?;
    match rest.split_once(" = ") {
        Some((words, wanted)) => compared(alloc, kind, words, wanted, true),
        None => {
            let (words, wanted) = rest.split_once(" -> ")?;
            compared(alloc, kind, words, wanted, false)
        }
    }
}
