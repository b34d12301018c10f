//! Parts of the written form, each put into a room right before what follows it: so the PkgLength of
//! an object is put when its content stands, and counts it without another walk.

ghost use Rattle.std.specs.Prelude.{◌≡◌, ◌<◌, ◌≤◌, ◌∷◌, [], true, length};
ghost use Rattle.aml_data.specs.Segment.{joined};
ghost use Rattle.aml_data.specs.Written.{written_constant, written_length, written_prefix};
ghost use Rattle.aml_data.specs.Written.{segments_lead, written_name};
ghost use Rattle.aml_data.specs.inner.Filling.{Fills};

use crate::limits::{LONGEST_CONTENT, TOO_MANY_SEGMENTS};
use crate::opcode::{
    BYTE_PREFIX, DUAL_NAME_PREFIX, DWORD_PREFIX, MULTI_NAME_PREFIX, NULL_NAME, ONE_OP,
    PARENT_PREFIX_CHAR, QWORD_PREFIX, ROOT_CHAR, WORD_PREFIX, ZERO_OP,
};
use crate::path::Path;
use crate::seg::Seg;

/// Puts bytes right before `end`, and answers where they begin, as all that follow do.
#[inline]
pub(crate) fn fill(bytes: &[u8], room: &mut [u8], end: usize) -> usize
    requires fits { length bytes.now ≤ end }
    requires within { end ≤ length room.old }
    ensures { Fills room.old room.new result end bytes.now }
{
    let start = end - bytes.len();
    room[start..end].copy_from_slice(bytes);
    start
}

/// Puts the shortest integer constant of a number (ACPI 6.5, 20.2.3).
#[inline]
pub(crate) fn fill_constant(value: u64, room: &mut [u8], end: usize) -> usize
    requires fits { length (written_constant value) ≤ end }
    requires within { end ≤ length room.old }
    ensures { Fills room.old room.new result end (written_constant value) }
{
    match value {
        0 => fill(&[ZERO_OP], room, end),
        1 => fill(&[ONE_OP], room, end),
        2..=0xFF => fill(&[BYTE_PREFIX, value as u8], room, end),
        0x100..=0xFFFF => {
            let [a, b] = (value as u16).to_le_bytes();
            fill(&[WORD_PREFIX, a, b], room, end)
        }
        0x1_0000..=0xFFFF_FFFF => {
            let [a, b, c, d] = (value as u32).to_le_bytes();
            fill(&[DWORD_PREFIX, a, b, c, d], room, end)
        }
        _ => {
            let [a, b, c, d, e, f, g, h] = value.to_le_bytes();
            fill(&[QWORD_PREFIX, a, b, c, d, e, f, g, h], room, end)
        }
    }
}

/// Puts the shortest PkgLength before so many bytes (ACPI 6.5, 20.2.4).
#[inline]
pub(crate) fn fill_length(content: usize, room: &mut [u8], end: usize) -> usize
    requires short { content ≤ LONGEST_CONTENT }
    requires fits { length (written_length content) ≤ end }
    requires within { end ≤ length room.old }
    ensures { Fills room.old room.new result end (written_length content) }
{
    match content {
        0..=62 => fill(&[(content + 1) as u8], room, end),
        63..=4093 => {
            let whole = content + 2;
            fill(&[(0x40 + whole % 16) as u8, (whole / 16) as u8], room, end)
        }
        4094..=1_048_572 => {
            let whole = content + 3;
            let lead = (0x80 + whole % 16) as u8;
            fill(
                &[lead, (whole / 16 % 256) as u8, (whole / 0x1000) as u8],
                room,
                end,
            )
        }
        _ => {
            let whole = content + 4;
            let lead = (0xC0 + whole % 16) as u8;
            let second = (whole / 0x1000 % 256) as u8;
            let third = (whole / 0x10_0000) as u8;
            fill(&[lead, (whole / 16 % 256) as u8, second, third], room, end)
        }
    }
}

/// Puts steps up, or the root.
fn fill_prefix(path: &Path, room: &mut [u8], end: usize) -> usize
    requires fits { length (written_prefix path.now) ≤ end }
    requires within { end ≤ length room.old }
    ensures { Fills room.old room.new result end (written_prefix path.now) }
{
    if path.root {
        return fill(&[ROOT_CHAR], room, end);
    }
    let start = end - path.ups as usize;
    room[start..end].fill(PARENT_PREFIX_CHAR);
    start
}

/// Puts what says how many segments follow.
fn fill_lead(segments: usize, room: &mut [u8], end: usize) -> usize
    requires few { segments < TOO_MANY_SEGMENTS }
    requires fits { length (segments_lead segments) ≤ end }
    requires within { end ≤ length room.old }
    ensures { Fills room.old room.new result end (segments_lead segments) }
{
    match segments {
        0 => fill(&[NULL_NAME], room, end),
        1 => fill(&[], room, end),
        2 => fill(&[DUAL_NAME_PREFIX], room, end),
        _ => fill(&[MULTI_NAME_PREFIX, segments as u8], room, end),
    }
}

/// Puts segments one after the other.
fn fill_segments(segs: &[Seg], room: &mut [u8], end: usize) -> usize
    requires fits { length (joined segs.now) ≤ end }
    requires within { end ≤ length room.old }
    ensures { Fills room.old room.new result end (joined segs.now) }
{
    let mut start = end;
    let mut left = segs.len();
    while left > 0 {
        left -= 1;
        let bytes = segs[left].bytes();
        start = fill(&bytes, room, start);
    }
    start
}

/// Puts a name (ACPI 6.5, 20.2.2).
pub(crate) fn fill_name(path: &Path, room: &mut [u8], end: usize) -> usize
    requires few { length path.now.segs < TOO_MANY_SEGMENTS }
    requires fits { length (written_name path.now) ≤ end }
    requires within { end ≤ length room.old }
    ensures { Fills room.old room.new result end (written_name path.now) }
{
    let segs = path.segs.as_slice();
    let segments = fill_segments(segs, room, end);
    let lead = fill_lead(segs.len(), room, segments);
    fill_prefix(path, room, lead)
}
