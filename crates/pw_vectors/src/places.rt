use crate::objects::{Change, object_of};
use crate::tables::put_told;
use aml_data::Width;
use std::alloc::Global;

/// A place of an object, what stands there, the width of integers, and what must be read.
#[derive(Clone, Copy)]
struct Row<'a> {
    change: Change<'a>,
    width: Width,
    wanted: &'a str,
}

/// The row of a line `1.2/32 ones -> 4294967295`.
fn row_of(line: &str) -> Option<Row> {
    let (changed, wanted) = line.split_once(" -> ")?;
    let (place, part) = changed.split_once(" ")?;
    let (outer, inner) = place.split_once(".")?;
    let (inner, width) = inner.split_once("/").unwrap_or((inner, "64"));
    let change = Change {
        outer: outer.parse::<usize>().ok()?,
        inner: inner.parse::<usize>().ok()?,
        part,
    };
    let width = if width == "32" {
        Width::W32
    } else {
        Width::W64
    };
    Some(Row {
        change,
        width,
        wanted,
    })
}

/// Whether an object of this kind that is changed as both lines say is read as the first says. The text is
/// what it is read as.
fn is_read(
    text: &mut String,
    alloc: Global,
    kind: &str,
    good: &str,
    first: &str,
    later: &str,
) -> Option<bool> {
    let (first, later) = (row_of(first)?, row_of(later)?);
    let object = object_of(alloc, good, &[first.change, later.change])?;
    text.clear();
    put_told(text, alloc, kind, first.width, &object)?;
    if text.is_empty() {
        text.push_str("no states").ok()?;
    }
    Some(text.as_str() == first.wanted)
}

/// Whether a fault is told alone, and before each that stands behind it.
fn is_first(
    text: &mut String,
    alloc: Global,
    kind: &str,
    good: &str,
    faults: &str,
    at: usize,
    line: &str,
) -> Option<bool> {
    for later in faults.lines().skip(at) {
        if !is_read(text, alloc, kind, good, line, later)? {
            return Some(false);
        }
    }
    Some(true)
}

/// The first line of the places that is read otherwise, an empty one where none is.
fn other_place<'a>(
    text: &mut String,
    alloc: Global,
    kind: &str,
    good: &str,
    places: &'a str,
) -> Option<&'a str> {
    for line in places.lines() {
        if !is_read(text, alloc, kind, good, line, line)? {
            return Some(line);
        }
    }
    Some("")
}

/// The first of the faults that isn't told first, an empty one where each is.
fn other_fault<'a>(
    text: &mut String,
    alloc: Global,
    kind: &str,
    good: &str,
    faults: &'a str,
) -> Option<&'a str> {
    for (at, line) in faults.lines().enumerate() {
        if !is_first(text, alloc, kind, good, faults, at, line)? {
            return Some(line);
        }
    }
    Some("")
}

/// What comes of the lines of a table: `as it must be`, or the first that is read otherwise.
pub(crate) fn table_came(alloc: Global, kind: &str, lines: &str) -> Option<String> {
    let (good, lines) = lines.strip_prefix("good ")?.split_once("\n")?;
    let (places, faults) = lines.split_once("\nfaults\n")?;
    let mut text = String::new(alloc);
    let mut other = other_place(&mut text, alloc, kind, good, places)?;
    if other.is_empty() {
        other = other_fault(&mut text, alloc, kind, good, faults)?;
    }
    if other.is_empty() {
        return String::from_str(alloc, "as it must be").ok();
    }
    let told = text.as_str();
    format!(in alloc; "{other}: {told}").ok()
}
