//! The namespace of blocks (ACPI 6.5, 5.3).

use acpi_space::Space;
use aml_block::{Block, parse};
use aml_data::{FullPath, Seg, Width};
use pw_base::{List, Room};
use std::alloc::Global;

/// A block of this signature, revision and body.
fn block_of(alloc: Global, signature: &[u8], revision: u8, body: &[u8]) -> Option<Block> {
    let mut bytes = Vec::new(alloc);
    bytes.extend_from_slice(signature).ok()?;
    let length = u8::try_from(36 + body.len()).ok()?;
    bytes
        .extend_from_slice(&[length, 0, 0, 0, revision, 0])
        .ok()?;
    bytes
        .extend_from_slice(b"POWER POWERTAB\x01\x00\x00\x00PWR \x01\x00\x00\x00")
        .ok()?;
    bytes.extend_from_slice(body).ok()?;
    let mut sum: u8 = 0;
    for byte in &bytes {
        sum = sum.wrapping_add(*byte);
    }
    bytes[9] = 0u8.wrapping_sub(sum);
    parse(alloc, &bytes).ok()
}

/// The widths of integers in the first object and in the last.
fn ends_of(space: &Space) -> Option<(Width, Width)> {
    Some((space.placed().first()?.width, space.placed().last()?.width))
}

/// Whether integers have these widths in a block of this signature and revision, and in an SSDT of
/// revision 2 behind it.
fn have_widths(
    alloc: Global,
    signature: &[u8],
    revision: u8,
    first: Width,
    last: Width,
) -> Option<bool> {
    let one = block_of(alloc, signature, revision, b"\x08AAAA\xFF")?;
    let Some(other) = block_of(alloc, b"SSDT", 2, b"\x08BBBB\xFF") else {
        drop(one);
        return None;
    };
    let blocks = [one, other];
    let ends = match Space::build(alloc, &blocks) {
        Ok(space) => ends_of(&space),
        Err(_) => None,
    };
    drop(blocks);
    let (before, behind) = ends?;
    Some(before == first && behind == last)
}

/// Whether integers have the width of the first DSDT.
pub(crate) fn widths(alloc: Global) -> Option<bool> {
    let (narrow, wide) = (Width::W32, Width::W64);
    let are_own = have_widths(alloc, b"SSDT", 1, narrow, wide)?;
    let are_narrow = have_widths(alloc, b"DSDT", 1, narrow, narrow)?;
    let are_wide = have_widths(alloc, b"DSDT", 2, wide, wide)?;
    Some(are_own && are_narrow && are_wide)
}

/// The number of the object at this path of one segment.
fn found(alloc: Global, space: &Space, name: [u8; 4]) -> Option<usize> {
    let path = FullPath {
        segs: List::from_vec(Vec::from_slice(alloc, &[Seg::new(name)?]).ok()?),
    };
    space.find(&path).map(|p| p.index)
}

/// Whether `DEV0` is object 1, in which `BBBB` is object 2 and `AAAA` is none.
fn are_found(alloc: Global, space: &Space) -> Option<bool> {
    let device = found(alloc, space, *b"DEV0")?;
    let (inside, beside) = (Seg::new(*b"BBBB")?, Seg::new(*b"AAAA")?);
    if space.placed().len() < 3 {
        return None;
    }
    let inside = space.find_below(1, inside).map(|p| p.index);
    Some(device == 1 && inside == Some(2) && space.find_below(1, beside).is_none())
}

/// Whether the path of object 2 is of two segments, and none is longer.
fn is_longest(alloc: Global, space: &Space) -> Option<bool> {
    if space.placed().len() < 3 {
        return None;
    }
    let mut path = Room::new(alloc, space.path_length(2)).ok()?;
    space.fill_path(2, &mut path);
    Some(path.as_slice().len() == 2 && space.longest_path() == 2)
}

fn are_right(alloc: Global, space: &Space) -> Option<bool> {
    Some(are_found(alloc, space)? && is_longest(alloc, space)?)
}

/// Whether objects are found by path and by segment.
pub(crate) fn objects(alloc: Global) -> Option<bool> {
    let body = b"\x08AAAA\x00\x5B\x82\x0BDEV0\x08BBBB\x01";
    let blocks = [block_of(alloc, b"SSDT", 2, body)?];
    let told = match Space::build(alloc, &blocks) {
        Ok(space) => are_right(alloc, &space),
        Err(_) => None,
    };
    drop(blocks);
    told
}
