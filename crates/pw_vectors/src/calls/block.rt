//! Blocks and their terms (ACPI 6.5, 5.2.11 and 20.2.5).

use aml_block::{
    Block, Signature, Term, encode_block, encode_terms, is_writable_block, is_writable_terms,
    parse, read, read_all, terms_of, write, written_terms_len,
};
use aml_data::Width;
use pw_base::{MemoryFile, MemoryFiles, MemorySink};
use std::alloc::Global;

/// A block of one Name: `_PPC` is 0.
const NAMED: [u8; 42] = [
    0x53, 0x53, 0x44, 0x54, 0x2A, 0x00, 0x00, 0x00, 0x02, 0x20, 0x50, 0x4F, 0x57, 0x45, 0x52, 0x20,
    0x50, 0x4F, 0x57, 0x45, 0x52, 0x54, 0x41, 0x42, 0x01, 0x00, 0x00, 0x00, 0x50, 0x57, 0x52, 0x20,
    0x01, 0x00, 0x00, 0x00, 0x08, 0x5F, 0x50, 0x50, 0x43, 0x00,
];

/// Whether terms are written as these bytes.
fn are_written(alloc: Global, terms: &[Term], bytes: &[u8]) -> bool {
    let mut out = Vec::new(alloc);
    bytes.len() < 1000
        && is_writable_terms(terms)
        && written_terms_len(terms) == bytes.len() as u64
        && encode_terms(alloc, terms, &mut out).is_ok()
        && out.as_slice() == bytes
}

/// Whether terms are read, and written again.
pub(crate) fn terms(alloc: Global) -> Option<bool> {
    let bytes = b"\x08_PPC\x01";
    let terms = terms_of(alloc, bytes, 6).ok()?;
    Some(are_written(alloc, terms.as_slice(), bytes))
}

/// Whether a block is written as `NAMED`, whole and into a sink.
fn is_written(alloc: Global, block: &Block) -> Option<bool> {
    if !is_writable_block(block) {
        return Some(false);
    }
    let mut sink = MemorySink::new(alloc, 100, Vec::new(alloc), 7).ok()?;
    let is_sunk = write(alloc, block, &mut sink).is_ok() && sink.written() == NAMED.as_slice();
    let bytes = encode_block(alloc, block).ok()?;
    Some(is_sunk && bytes.as_slice() == NAMED.as_slice())
}

/// Whether a block is read, and written again.
pub(crate) fn block(alloc: Global) -> Option<bool> {
    let block = parse(alloc, &NAMED).ok()?;
    let is_read = block.header.signature == Signature::Ssdt && block.own_width() == Width::W64;
    Some(is_read && is_written(alloc, &block)?)
}

/// The file `one.aml`, of which a read gives seven bytes.
fn file_of(alloc: Global) -> Option<MemoryFiles> {
    let mut files = Vec::new(alloc);
    let name = String::from_str(alloc, "one.aml").ok()?;
    files
        .push(MemoryFile::new(name, Vec::from_slice(alloc, &NAMED).ok()?))
        .ok()?;
    Some(MemoryFiles::new(files, Vec::new(alloc), 7))
}

/// Whether the block of a file is read.
pub(crate) fn block_of_a_file(alloc: Global) -> Option<bool> {
    let block = read(alloc, &mut file_of(alloc)?, "one.aml").ok()?;
    Some(block.terms.as_slice().len() == 1)
}

/// Whether so many bytes of a file are read.
pub(crate) fn start_of_a_file(alloc: Global) -> Option<bool> {
    let bytes = read_all(alloc, &mut file_of(alloc)?, "one.aml", 10).ok()?;
    Some(bytes.as_slice() == &NAMED[..10])
}
