ghost use Rattle.std.specs.Prelude.{◌≡◌, ◌+◌, ◌<◌, ◌≤◌, ◌^◌, ◌++◌, true, length, IfSome, OnOk, OnErr};
ghost use Rattle.aml_data.specs.Written.{written_constant, written_length, written_name};

use crate::filling::{fill_length, fill_name};
use crate::lengths::{length_len, name_len};
use crate::limits::{LONGEST_CONTENT, TOO_MANY_SEGMENTS};
use crate::opcode::{BYTE_PREFIX, DWORD_PREFIX, ONE_OP, QWORD_PREFIX, WORD_PREFIX, ZERO_OP};
use crate::path::Path;
use crate::seg::Seg;
use crate::writable::are_segments;
use pw_base::Memory;
use std::alloc::Global;

/// Appends bytes.
fn append(bytes: &[u8], out: &mut Vec<u8>) -> Result<(), Memory>
    ensures ok { OnOk result (out.new.items ≡ out.old.items ++ bytes.now) }
    ensures err { OnErr result (out.new.items ≡ out.old.items) }
{
    out.extend_from_slice(bytes)?;
    Ok(())
}

/// The segment that a name is, where it is one alone.
fn sole(path: &Path) -> Option<Seg>
    ensures { IfSome result (λ seg. written_name path.now ≡ seg) }
{
    if path.root || path.ups != 0 {
        return None;
    }
    match path.segs.as_slice() {
        [seg] => Some(*seg),
        _ => None,
    }
}

/// Appends the shortest integer constant of a number (ACPI 6.5, 20.2.3). After want of memory the
/// vector is as it was.
pub fn encode_constant(_alloc: Global, value: u64, out: &mut Vec<u8>) -> Result<(), Memory>
    ensures ok { OnOk result (out.new.items ≡ out.old.items ++ written_constant value) }
    ensures err { OnErr result (out.new.items ≡ out.old.items) }
{
    match value {
        0 => append(&[ZERO_OP], out),
        1 => append(&[ONE_OP], out),
        2..=0xFF => append(&[BYTE_PREFIX, value as u8], out),
        0x100..=0xFFFF => {
            let [a, b] = (value as u16).to_le_bytes();
            append(&[WORD_PREFIX, a, b], out)
        }
        0x1_0000..=0xFFFF_FFFF => {
            let [a, b, c, d] = (value as u32).to_le_bytes();
            append(&[DWORD_PREFIX, a, b, c, d], out)
        }
        _ => {
            let [a, b, c, d, e, f, g, h] = value.to_le_bytes();
            append(&[QWORD_PREFIX, a, b, c, d, e, f, g, h], out)
        }
    }
}

/// Appends the shortest PkgLength of an object with so many bytes after it (ACPI 6.5, 20.2.4). After
/// want of memory the vector is as it was.
pub fn encode_length(_alloc: Global, content: usize, out: &mut Vec<u8>) -> Result<(), Memory>
    requires { content ≤ LONGEST_CONTENT }
    ensures ok { OnOk result (out.new.items ≡ out.old.items ++ written_length content) }
    ensures err { OnErr result (out.new.items ≡ out.old.items) }
{
    let end = out.len() + length_len(content as u64) as usize;
    out.resize(end, 0)?;
    fill_length(content, out.as_mut_slice(), end);
    Ok(())
}

/// Appends the written form of a name (ACPI 6.5, 20.2.2): `00`, one segment alone, `2E` and two, or
/// `2F`, their number and more. After want of memory the vector is as it was.
pub fn encode_name(_alloc: Global, path: &Path, out: &mut Vec<u8>) -> Result<(), Memory>
    requires few { length path.now.segs < TOO_MANY_SEGMENTS }
    requires no_ups { path.now.root ≡ true → path.now.ups ≡ 0 }
    ensures ok { OnOk result (out.new.items ≡ out.old.items ++ written_name path.now) }
    ensures err { OnErr result (out.new.items ≡ out.old.items) }
{
    if let Some(seg) = sole(path) {
        return append(&seg.bytes(), out);
    }
    let _segments = are_segments(path.segs.as_slice());
    let end = out.len() + name_len(path) as usize;
    out.resize(end, 0)?;
    fill_name(path, out.as_mut_slice(), end);
    Ok(())
}
