ghost use Rattle.std.specs.Prelude.{◌≡◌, ◌+◌, ◌<◌, ◌≤◌, ◌^◌, ◌++◌, ◌∷◌, [], length, map};
ghost use Rattle.std.specs.Prelude.{OnOk, OnErr};
ghost use Rattle.std.specs.List.{AllByRecursion};
ghost use Rattle.aml_data.specs.Segment.{joined};
ghost use Rattle.aml_data.specs.Written.{written, written_length};
ghost use Rattle.aml_data.specs.Written.{IsWritable, IsWritableWithin};
ghost use Rattle.aml_data.specs.inner.Filling.{Fills};

use crate::data::{Buffer, Counted, Data};
use crate::filling::{fill, fill_constant, fill_length, fill_name};
use crate::lengths::written_len;
use crate::limits::{DEEPEST, LONGEST_CONTENT, TOO_LONG};
use crate::opcode::{
    BUFFER_OP, EXT_OP_PREFIX, ONES_OP, PACKAGE_OP, REVISION_OP, STRING_PREFIX, VAR_PACKAGE_OP,
};
use crate::writing::encode_constant;
use pw_base::Memory;
use std::alloc::Global;

/// Puts a string right before `end`, and answers where it begins, as all that follow do.
#[tactic(auto, using(crate::proofs::Room::filling))]
fn fill_text(text: &[u8], room: &mut [u8], end: usize) -> usize
    requires fits { length text.now + 2 ≤ end }
    requires within { end ≤ length room.old }
    ensures { Fills room.old room.new result end (STRING_PREFIX ∷ text.now ++ 0 ∷ []) }
{
    let zero = fill(&[0x00], room, end);
    let start = fill(text, room, zero);
    fill(&[STRING_PREFIX], room, start)
}

/// Puts a lead byte, and the PkgLength of so many bytes after it.
#[tactic(auto, using(crate::proofs::Room::filling))]
fn fill_head(lead: u8, content: usize, room: &mut [u8], end: usize) -> usize
    requires short { content ≤ LONGEST_CONTENT }
    requires fits { 1 + length (written_length content) ≤ end }
    requires within { end ≤ length room.old }
    ensures { Fills room.old room.new result end (lead ∷ written_length content) }
{
    let start = fill_length(content, room, end);
    fill(&[lead], room, start)
}

/// Puts a buffer.
fn fill_buffer(buffer: &Buffer, room: &mut [u8], end: usize) -> usize
    requires short { length (written (Data.Buffer buffer.now)) < TOO_LONG }
    requires fits { length (written (Data.Buffer buffer.now)) ≤ end }
    requires within { end ≤ length room.old }
    ensures { Fills room.old room.new result end (written (Data.Buffer buffer.now)) }
{
    let bytes = fill(buffer.bytes.as_slice(), room, end);
    let content = fill_constant(buffer.size, room, bytes);
    fill_head(BUFFER_OP, end - content, room, content)
}

/// Puts an object. Its packages nest at most `depth` deep.
#[cycle(objects)]
#[tactic(auto, using(crate::proofs::WrittenLayers::layers))]
fn fill_object(value: &Data, depth: u32, room: &mut [u8], end: usize) -> usize
    requires nested { IsWritableWithin depth value.now }
    requires short { length (written value.now) < TOO_LONG }
    requires fits { length (written value.now) ≤ end }
    requires within { end ≤ length room.old }
    ensures { Fills room.old room.new result end (written value.now) }
{
    match value {
        Data::Int(number) => fill_constant(*number, room, end),
        Data::Ones => fill(&[ONES_OP], room, end),
        Data::Revision => fill(&[EXT_OP_PREFIX, REVISION_OP], room, end),
        Data::Text(text) => fill_text(text.as_slice(), room, end),
        Data::Buffer(buffer) => fill_buffer(buffer.get(), room, end),
        Data::Package { count, elements } => {
            fill_package(*count, elements.as_slice(), depth - 1, room, end)
        }
        Data::VarPackage(counted) => fill_var_package(counted.get(), depth - 1, room, end),
        Data::Path(path) => fill_name(path.get(), room, end),
    }
}

/// Puts a package, whose elements nest at most `depth` deep.
#[cycle(objects)]
fn fill_package(count: u8, elements: &[Data], depth: u32, room: &mut [u8], end: usize) -> usize
    requires nested { AllByRecursion (IsWritableWithin depth) elements.now }
    requires short { length (written (Data.Package count elements.now)) < TOO_LONG }
    requires fits { length (written (Data.Package count elements.now)) ≤ end }
    requires within { end ≤ length room.old }
    ensures { Fills room.old room.new result end (written (Data.Package count elements.now)) }
{
    let body = fill_elements(elements, depth, room, end);
    let content = fill(&[count], room, body);
    fill_head(PACKAGE_OP, end - content, room, content)
}

/// Puts a package that is counted by a constant, whose elements nest at most `depth` deep.
#[cycle(objects)]
fn fill_var_package(counted: &Counted<Data>, depth: u32, room: &mut [u8], end: usize) -> usize
    requires nested { AllByRecursion (IsWritableWithin depth) counted.now.elements }
    requires short { length (written (Data.VarPackage counted.now)) < TOO_LONG }
    requires fits { length (written (Data.VarPackage counted.now)) ≤ end }
    requires within { end ≤ length room.old }
    ensures { Fills room.old room.new result end (written (Data.VarPackage counted.now)) }
{
    let body = fill_elements(counted.elements.as_slice(), depth, room, end);
    let content = fill_constant(counted.count, room, body);
    fill_head(VAR_PACKAGE_OP, end - content, room, content)
}

/// Puts the elements of a package, which nest at most `depth` deep.
#[cycle(objects)]
fn fill_elements(elements: &[Data], depth: u32, room: &mut [u8], end: usize) -> usize
    requires nested { AllByRecursion (IsWritableWithin depth) elements.now }
    requires short { length (joined (map written elements.now)) < TOO_LONG }
    requires fits { length (joined (map written elements.now)) ≤ end }
    requires within { end ≤ length room.old }
    ensures { Fills room.old room.new result end (joined (map written elements.now)) }
{
    let mut start = end;
    let mut left = elements.len();
    while left > 0 {
        left -= 1;
        start = fill_object(&elements[left], depth, room, start);
    }
    start
}

/// Appends the written form of a data object: of every part the shortest spelling (ACPI 6.5, 20.2).
/// After want of memory the vector is as it was.
pub fn encode(alloc: Global, value: &Data, out: &mut Vec<u8>) -> Result<(), Memory>
    requires { IsWritable value.now }
    ensures ok { OnOk result (out.new.items ≡ out.old.items ++ written value.now) }
    ensures err { OnErr result (out.new.items ≡ out.old.items) }
{
    if let Data::Int(number) = value {
        return encode_constant(alloc, *number, out);
    }
    let end = out.len() + written_len(value) as usize;
    out.resize(end, 0)?;
    fill_object(value, DEEPEST, out.as_mut_slice(), end);
    Ok(())
}
