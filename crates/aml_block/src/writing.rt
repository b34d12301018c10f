ghost use Rattle.std.specs.Prelude.{◌≡◌, ◌↔◌, ◌+◌, ◌<◌, ◌≤◌, ◌^◌, ◌++◌, ◌∷◌, true, length, sum};
ghost use Rattle.std.specs.Prelude.{IsTrue, IfOk, OnOk, OnErr, All};
ghost use Rattle.pw_base.specs.Outside.{Rose, KeepsSink, GrewByPart};
ghost use Rattle.aml_block.specs.Header.{signature_text};
ghost use Rattle.aml_block.specs.Written.{checksum_for, written_behind, written_block, written_header};
ghost use Rattle.aml_block.specs.Written.{IsInRange, IsWritableBlock};
ghost use Rattle.aml_block.specs.Spelling.{BlockSpells};

use crate::block::{Block, Header, Signature};
use crate::fault::WriteFault;
use crate::header::{HEADER_SIZE, LARGEST, sum_of};
use crate::{encode_terms, is_writable_terms, written_terms_len};
use pw_base::{Memory, Sink, put_all};
use std::alloc::Global;

/// The place of the length (ACPI 6.5, 5.2.6).
const LENGTH: usize = 4;

/// The place of the checksum.
const CHECKSUM: usize = 9;

/// Whether a block can be written: each of its terms can, and together with the header they have at
/// most 4 MiB. It takes no memory.
pub fn is_writable_block(block: &Block) -> bool
    ensures { IsTrue result ↔ IsWritableBlock block.now }
{
    let terms = block.terms.as_slice();
    is_writable_terms(terms) && HEADER_SIZE as u64 + written_terms_len(terms) <= LARGEST as u64
}

fn signature_bytes(signature: Signature) -> [u8; 4]
    ensures { result ≡ signature_text signature }
{
    match signature {
        Signature::Dsdt => *b"DSDT",
        Signature::Ssdt => *b"SSDT",
    }
}

/// The fields of a header are in their ranges, as those of each are: contracts see them without a bound.
fn fields_fit(header: &Header)
    ensures { IsInRange header.now }
{
    let Header {
        signature: _signature,
        revision: _revision,
        oem_id: _oem_id,
        oem_table_id: _oem_table_id,
        oem_revision: _oem_revision,
        creator_id: _creator_id,
        creator_revision: _creator_revision,
    } = *header;
}

/// Appends a header with length 0 and checksum 0.
fn put_header(header: &Header, out: &mut Vec<u8>) -> Result<(), Memory>
    ensures { OnOk result (out.new.items ≡ out.old.items ++ written_header header.now 0 0) }
{
    out.extend_from_slice(&signature_bytes(header.signature))?;
    out.extend_from_slice(&[0; 4])?;
    out.push(header.revision)?;
    out.push(0)?;
    out.extend_from_slice(&header.oem_id)?;
    out.extend_from_slice(&header.oem_table_id)?;
    out.extend_from_slice(&header.oem_revision.to_le_bytes())?;
    out.extend_from_slice(&header.creator_id)?;
    out.extend_from_slice(&header.creator_revision.to_le_bytes())?;
    Ok(())
}

/// The byte that brings a sum to 0 modulo 256.
fn checksum_of(total: u32) -> u8
    ensures { result ≡ checksum_for total }
{
    ((256 - total % 256) % 256) as u8
}

/// The header and the terms, with the length and the checksum that fit them.
#[tactic(auto, unfolding(crate::specs::Written::written_block))]
fn block_bytes(alloc: Global, block: &Block) -> Result<Vec<u8>, Memory>
    requires { IsWritableBlock block.now }
    ensures { IfOk result (λ bytes. bytes.items ≡ written_block block.now) }
{
    let mut bytes = Vec::new(alloc);
    put_header(&block.header, &mut bytes)?;
    encode_terms(alloc, block.terms.as_slice(), &mut bytes)?;
    let [a, b, c, d] = (bytes.len() as u32).to_le_bytes();
    bytes[LENGTH] = a;
    bytes[LENGTH + 1] = b;
    bytes[LENGTH + 2] = c;
    bytes[LENGTH + 3] = d;
    let checksum = checksum_of(sum_of(bytes.as_slice()));
    bytes[CHECKSUM] = checksum;
    Ok(bytes)
}

/// The written form of a block: of every part the shortest spelling, with its length and checksum
/// (ACPI 6.5, 5.2.6 and 20.2).
pub fn encode_block(alloc: Global, block: &Block) -> Result<Vec<u8>, Memory>
    requires { IsWritableBlock block.now }
    ensures value { IfOk result (λ bytes. bytes.items ≡ written_block block.now) }
    // What is written is a block, and is read as this one.
    ensures spelled { IfOk result (λ bytes. BlockSpells block.now bytes.items) }
{
    let bytes = block_bytes(alloc, block)?;
    fields_fit(&block.header);
    Ok(bytes)
}

/// Writes a block in its written form. After want of memory nothing was written, and where the sink
/// failed a beginning.
pub fn write<K: Sink>(alloc: Global, block: &Block, sink: &mut K) -> Result<(), WriteFault>
    requires { IsWritableBlock block.now }
    ensures keeps { KeepsSink K.told K.faults sink.old sink.new }
    ensures ok { OnOk result (K.told sink.old ≡ true
        → K.written sink.new ≡ K.written sink.old ++ written_block block.now) }
    ensures memory { result ≡ Err WriteFault.Memory → sink.new ≡ sink.old }
    ensures failed { result ≡ Err WriteFault.Sink → Rose (K.faults sink.old) (K.faults sink.new) }
    ensures part { result ≡ Err WriteFault.Sink → K.told sink.old ≡ true
        → GrewByPart (K.written sink.old) (K.written sink.new) (written_block block.now) }
{
    let bytes = encode_block(alloc, block)?;
    put_all(sink, bytes.as_slice())?;
    Ok(())
}
