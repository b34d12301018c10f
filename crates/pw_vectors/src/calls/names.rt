//! Names (ACPI 6.5, 20.2.2).

use aml_data::{
    FullPath, Path, Seg, copy_full_path, copy_path, decode_name, encode_name, is_writable_name,
    name_len, name_of,
};
use pw_base::List;
use std::alloc::Global;

/// Whether segments are of capitals, digits and underscores.
pub(crate) fn segments() -> Option<bool> {
    for text in [*b"_SB_", *b"CLU0", *b"A0Z9", *b"____"] {
        if !Seg::new(text).is_some_and(|seg| seg.bytes() == text) {
            return Some(false);
        }
    }
    for text in [*b"0ABC", *b"_sb_", *b"AB D", [0x41, 0x42, 0x43, 0]] {
        if Seg::new(text).is_some() {
            return Some(false);
        }
    }
    Some(true)
}

/// Whether a name is written as these bytes.
fn is_written(alloc: Global, path: &Path, bytes: &[u8]) -> bool {
    let mut out = Vec::new(alloc);
    is_writable_name(path)
        && name_len(path) == bytes.len() as u64
        && encode_name(alloc, path, &mut out).is_ok()
        && out.as_slice() == bytes
}

/// Whether a copy of a name is one from the root, and written as these bytes.
fn copy_is_written(alloc: Global, path: &Path, bytes: &[u8]) -> Option<bool> {
    let copy = copy_path(alloc, path).ok()?;
    Some(copy.root && copy.ups == 0 && is_written(alloc, &copy, bytes))
}

/// Whether a name is read, copied and written.
pub(crate) fn name(alloc: Global) -> Option<bool> {
    let (path, n) = decode_name(alloc, b"\\\x2F\x02_SB_CLU0", 0).ok()?;
    Some(n == 11 && copy_is_written(alloc, &path, b"\\\x2E_SB_CLU0")?)
}

/// Whether a copy of a path has this first segment.
fn is_copied(alloc: Global, full: &FullPath, first: [u8; 4]) -> Option<bool> {
    let copy = copy_full_path(alloc, full).ok()?;
    let seg = copy.segs.as_slice().first()?;
    Some(seg.bytes() == first)
}

/// Whether these segments make a path, and are copied.
fn make_a_path(alloc: Global, segs: &[Seg], first: [u8; 4]) -> Option<bool> {
    let full = FullPath {
        segs: List::from_vec(Vec::from_slice(alloc, segs).ok()?),
    };
    is_copied(alloc, &full, first)
}

/// Whether a name in front of bytes has its segments.
pub(crate) fn name_in_front(alloc: Global) -> Option<bool> {
    let (path, rest) = name_of(alloc, b"^_PPC\x00", 9).ok()?;
    let is_read = path.ups == 1 && rest.len() == 1;
    Some(is_read && make_a_path(alloc, path.segs.as_slice(), *b"_PPC")?)
}
