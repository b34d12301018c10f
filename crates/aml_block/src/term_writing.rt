ghost use Rattle.std.specs.Prelude.{◌≡◌, ◌+◌, ◌-◌, ◌<◌, ◌≤◌, ◌^◌, ◌++◌, ◌∷◌, [], length, take, drop, is_ok};
ghost use Rattle.std.specs.Prelude.{IsTrue, IfOk, OnOk, OnErr};
ghost use Rattle.aml_data.specs.declared.limits.TheConstants.{LONGEST_CONTENT};
ghost use Rattle.aml_data.specs.Written.{sized, written, written_constant, written_length};
ghost use Rattle.aml_data.specs.Written.{written_name};
ghost use Rattle.aml_data.specs.Written.{IsWritable, IsWritablePath};
ghost use Rattle.aml_block.specs.Opcodes.{is_term, opcode_bytes};
ghost use Rattle.aml_block.specs.inner.Appending.{Appends};
ghost use Rattle.aml_block.specs.WrittenTerms.{written_registers, written_term, written_terms};
ghost use Rattle.aml_block.specs.WrittenTerms.{AreWritable, AreWritableTerms, IsWritableTerm};

use crate::opcode::{
    ALIAS_OP, DEVICE_OP, EVENT_OP, EXTENDED, EXTERNAL_OP, MUTEX_OP, NAME_OP, OP_REGION_OP,
    PROCESSOR_OP, SCOPE_OP,
};
use crate::term::{DEEPEST, Term};
use aml_data::opcode::EXT_OP_PREFIX;
use aml_data::{Data, Path, encode, encode_constant, encode_length, encode_name};
use pw_base::Memory;
use std::alloc::Global;

fn put(bytes: &[u8], out: &mut Vec<u8>) -> Result<(), Memory>
    ensures { Appends out.old.items out.new.items bytes.now (is_ok result) }
{
    out.extend_from_slice(bytes)?;
    Ok(())
}

#[tactic(auto, using(crate::proofs::Appended::appended))]
fn put_name(alloc: Global, path: &Path, out: &mut Vec<u8>) -> Result<(), Memory>
    requires { IsWritablePath path.now }
    ensures { Appends out.old.items out.new.items (written_name path.now) (is_ok result) }
{
    encode_name(alloc, path, out)
}

#[tactic(auto, using(crate::proofs::Appended::appended))]
fn put_constant(alloc: Global, value: u64, out: &mut Vec<u8>) -> Result<(), Memory>
    ensures { Appends out.old.items out.new.items (written_constant value) (is_ok result) }
{
    encode_constant(alloc, value, out)
}

#[tactic(auto, using(crate::proofs::Appended::appended))]
fn put_object(alloc: Global, value: &Data, out: &mut Vec<u8>) -> Result<(), Memory>
    requires { IsWritable value.now }
    ensures { Appends out.old.items out.new.items (written value.now) (is_ok result) }
{
    encode(alloc, value, out)
}

#[tactic(auto, using(crate::proofs::Appended::appended))]
fn put_length(alloc: Global, content: usize, out: &mut Vec<u8>) -> Result<(), Memory>
    requires { content ≤ LONGEST_CONTENT }
    ensures { Appends out.old.items out.new.items (written_length content) (is_ok result) }
{
    encode_length(alloc, content, out)
}

/// Appends a content behind its PkgLength (ACPI 6.5, 20.2.4).
#[tactic(auto, using(crate::proofs::Appended::appended))]
fn put_sized(alloc: Global, content: &[u8], out: &mut Vec<u8>) -> Result<(), Memory>
    requires { length content.now ≤ LONGEST_CONTENT }
    ensures { Appends out.old.items out.new.items (sized content.now) (is_ok result) }
{
    put_length(alloc, content.len(), out)?;
    put(content, out)
}

/// Appends an opcode.
#[tactic(auto, using(crate::proofs::Appended::appended))]
fn put_opcode(opcode: u16, out: &mut Vec<u8>) -> Result<(), Memory>
    requires { IsTrue (is_term opcode) }
    ensures { Appends out.old.items out.new.items (opcode_bytes opcode) (is_ok result) }
{
    if opcode < 0x100 {
        put(&[opcode as u8], out)
    } else {
        put(&[EXT_OP_PREFIX, (opcode - EXTENDED) as u8], out)
    }
}

/// Appends a Name.
#[tactic(auto, using(crate::proofs::Appended::appended))]
fn put_name_term(alloc: Global, path: &Path, value: &Data, out: &mut Vec<u8>) -> Result<(), Memory>
    requires path { IsWritablePath path.now }
    requires value { IsWritable value.now }
    ensures { Appends out.old.items out.new.items (opcode_bytes NAME_OP
        ++ (written_name path.now ++ written value.now)) (is_ok result) }
{
    put_opcode(NAME_OP, out)?;
    put_name(alloc, path, out)?;
    put_object(alloc, value, out)
}

/// Appends an Alias.
#[tactic(auto, using(crate::proofs::Appended::appended))]
fn put_alias(alloc: Global, source: &Path, alias: &Path, out: &mut Vec<u8>) -> Result<(), Memory>
    requires source { IsWritablePath source.now }
    requires alias { IsWritablePath alias.now }
    ensures { Appends out.old.items out.new.items (opcode_bytes ALIAS_OP
        ++ (written_name source.now ++ written_name alias.now)) (is_ok result) }
{
    put_opcode(ALIAS_OP, out)?;
    put_name(alloc, source, out)?;
    put_name(alloc, alias, out)
}

/// Appends an External.
#[tactic(auto, using(crate::proofs::Appended::appended))]
fn put_external(
    alloc: Global,
    path: &Path,
    kind: u8,
    args: u8,
    out: &mut Vec<u8>,
) -> Result<(), Memory>
    requires { IsWritablePath path.now }
    ensures { Appends out.old.items out.new.items
        (opcode_bytes EXTERNAL_OP ++ (written_name path.now ++ (kind ∷ args ∷ []))) (is_ok result) }
{
    put_opcode(EXTERNAL_OP, out)?;
    put_name(alloc, path, out)?;
    put(&[kind, args], out)
}

/// Appends a Mutex.
#[tactic(auto, using(crate::proofs::Appended::appended))]
fn put_mutex(alloc: Global, path: &Path, flags: u8, out: &mut Vec<u8>) -> Result<(), Memory>
    requires { IsWritablePath path.now }
    ensures { Appends out.old.items out.new.items
        (opcode_bytes MUTEX_OP ++ (written_name path.now ++ (flags ∷ []))) (is_ok result) }
{
    put_opcode(MUTEX_OP, out)?;
    put_name(alloc, path, out)?;
    put(&[flags], out)
}

/// Appends an Event.
#[tactic(auto, using(crate::proofs::Appended::appended))]
fn put_event(alloc: Global, path: &Path, out: &mut Vec<u8>) -> Result<(), Memory>
    requires { IsWritablePath path.now }
    ensures { Appends out.old.items out.new.items (opcode_bytes EVENT_OP ++ written_name path.now)
        (is_ok result) }
{
    put_opcode(EVENT_OP, out)?;
    put_name(alloc, path, out)
}

/// Appends an OperationRegion.
#[tactic(auto, using(crate::proofs::Appended::appended))]
fn put_region(
    alloc: Global,
    path: &Path,
    space: u8,
    offset: u64,
    length: u64,
    out: &mut Vec<u8>,
) -> Result<(), Memory>
    requires { IsWritablePath path.now }
    ensures { Appends out.old.items out.new.items (opcode_bytes OP_REGION_OP ++ (written_name path.now
        ++ (space ∷ (written_constant offset ++ written_constant length)))) (is_ok result) }
{
    put_opcode(OP_REGION_OP, out)?;
    put_name(alloc, path, out)?;
    put(&[space], out)?;
    put_constant(alloc, offset, out)?;
    put_constant(alloc, length, out)
}

/// Brings the bytes from `end` on, four or fewer, in front of those from `at` on.
fn bring_forward(bytes: &mut [u8], at: usize, end: usize)
    requires order { at ≤ end }
    requires within { end ≤ length bytes.old }
    requires few { length bytes.old ≤ end + 4 }
    ensures { bytes.new ≡ take at bytes.old ++ (drop end bytes.old ++ take (end - at) (drop at bytes.old)) }
{
    let size = bytes.len() - end;
    let mut brought = [0; 4];
    brought[..size].copy_from_slice(&bytes[end..]);
    bytes.copy_within(at..end, at + size);
    bytes[at..at + size].copy_from_slice(&brought[..size]);
}

/// Puts the PkgLength of what stands from `at` on in front of it, so that a content is written once and
/// in its place (ACPI 6.5, 20.2.4).
fn put_length_before(alloc: Global, at: usize, out: &mut Vec<u8>) -> Result<(), Memory>
    requires within { at ≤ length out.old.items }
    requires counted { length (drop at out.old.items) ≤ LONGEST_CONTENT }
    ensures ok { OnOk result (out.new.items ≡ take at out.old.items ++ sized (drop at out.old.items)) }
    ensures err { OnErr result (out.new.items ≡ out.old.items) }
{
    let end = out.len();
    encode_length(alloc, end - at, out)?;
    bring_forward(out.as_mut_slice(), at, end);
    Ok(())
}

/// What stands between the name and the terms of a Processor.
fn registers_of(id: u8, block: u32, length: u8) -> [u8; 6]
    ensures { result ≡ written_registers id block length }
{
    let [a, b, c, d] = block.to_le_bytes();
    [id, a, b, c, d, length]
}

/// Appends what a term holds behind its PkgLength: its name, its registers and its terms.
#[cycle(terms)]
#[tactic(auto, using(crate::proofs::Appended::appended))]
fn put_held(
    alloc: Global,
    path: &Path,
    registers: &[u8],
    terms: &[Term],
    depth: u32,
    out: &mut Vec<u8>,
) -> Result<(), Memory>
    requires path { IsWritablePath path.now }
    requires writable { AreWritable depth terms.now }
    requires short { length (written_terms terms.now) < 2 ^ 28 }
    ensures { Appends out.old.items out.new.items
        ((written_name path.now ++ registers.now) ++ written_terms terms.now) (is_ok result) }
{
    put_name(alloc, path, out)?;
    put(registers, out)?;
    put_terms(alloc, terms, depth, out)
}

/// Appends a term that holds terms. `registers` stand between its name and them.
#[cycle(terms)]
#[tactic(auto, using(crate::proofs::Appended::appended))]
fn put_holder(
    alloc: Global,
    opcode: u16,
    path: &Path,
    registers: &[u8],
    terms: &[Term],
    depth: u32,
    out: &mut Vec<u8>,
) -> Result<(), Memory>
    requires opcode { IsTrue (is_term opcode) }
    requires path { IsWritablePath path.now }
    requires writable { AreWritable depth terms.now }
    requires short { length (opcode_bytes opcode
        ++ sized ((written_name path.now ++ registers.now) ++ written_terms terms.now)) < 2 ^ 28 }
    ensures { Appends out.old.items out.new.items (opcode_bytes opcode
        ++ sized ((written_name path.now ++ registers.now) ++ written_terms terms.now)) (is_ok result) }
{
    put_opcode(opcode, out)?;
    let at = out.as_slice().len();
    put_held(alloc, path, registers, terms, depth, out)?;
    put_length_before(alloc, at, out)
}

/// Appends a term in which `depth` levels may be opened.
#[cycle(terms)]
#[tactic(auto, using(crate::proofs::Appended::appended, crate::proofs::WrittenTerms::layers))]
fn put_term(alloc: Global, term: &Term, depth: u32, out: &mut Vec<u8>) -> Result<(), Memory>
    requires writable { IsWritableTerm depth term.now }
    requires short { length (written_term term.now) < 2 ^ 28 }
    ensures { Appends out.old.items out.new.items (written_term term.now) (is_ok result) }
{
    match term {
        Term::Name { path, value } => put_name_term(alloc, path, value, out),
        Term::Scope { path, terms } => {
            put_holder(alloc, SCOPE_OP, path, &[], terms.as_slice(), depth, out)
        }
        Term::Device { path, terms } => {
            put_holder(alloc, DEVICE_OP, path, &[], terms.as_slice(), depth, out)
        }
        Term::Processor {
            path,
            id,
            block,
            length,
            terms,
        } => {
            let registers = registers_of(*id, *block, *length);
            put_holder(
                alloc,
                PROCESSOR_OP,
                path,
                &registers,
                terms.as_slice(),
                depth,
                out,
            )
        }
        Term::Unread { opcode, body } => {
            put_opcode(*opcode, out)?;
            put_sized(alloc, body.as_slice(), out)
        }
        Term::Alias { source, alias } => put_alias(alloc, source, alias, out),
        Term::External { path, kind, args } => put_external(alloc, path, *kind, *args, out),
        Term::Mutex { path, flags } => put_mutex(alloc, path, *flags, out),
        Term::Event { path } => put_event(alloc, path, out),
        Term::Region {
            path,
            space,
            offset,
            length,
        } => put_region(alloc, path, *space, *offset, *length, out),
    }
}

/// Appends the terms in a term that is one of `depth` levels that may be opened.
#[cycle(terms)]
#[tactic(auto, using(crate::proofs::Appended::appended))]
fn put_terms(alloc: Global, terms: &[Term], depth: u32, out: &mut Vec<u8>) -> Result<(), Memory>
    requires writable { AreWritable depth terms.now }
    requires short { length (written_terms terms.now) < 2 ^ 28 }
    ensures { Appends out.old.items out.new.items (written_terms terms.now) (is_ok result) }
{
    for term in terms {
        put_term(alloc, term, depth - 1, out)?;
    }
    Ok(())
}

/// Appends the written forms of terms, one after the other: of every part the shortest spelling
/// (ACPI 6.5, 20.2.5). After want of memory the vector is as it was.
#[tactic(auto, unfolding(crate::specs::WrittenTerms::AreWritable))]
pub fn encode_terms(alloc: Global, terms: &[Term], out: &mut Vec<u8>) -> Result<(), Memory>
    requires writable { AreWritableTerms terms.now }
    requires short { length (written_terms terms.now) < 2 ^ 28 }
    ensures ok { OnOk result (out.new.items ≡ out.old.items ++ written_terms terms.now) }
    ensures err { OnErr result (out.new.items ≡ out.old.items) }
{
    let before = out.len();
    let put = put_terms(alloc, terms, DEEPEST + 1, out);
    if put.is_err() {
        out.truncate(before);
    }
    put
}
