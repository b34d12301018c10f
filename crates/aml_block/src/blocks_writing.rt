ghost use Rattle.std.specs.Prelude.{◌≡◌, All, IfOk};
ghost use Rattle.std.specs.List.{flat_map};
ghost use Rattle.aml_block.specs.Written.{IsWritableBlock, written_block};

use crate::{Block, encode_block};
use pw_base::Memory;
use std::alloc::Global;

/// The written forms of blocks, one after the other (ACPI 6.5, 5.2.6 and 20.2).
pub fn encode_blocks(alloc: Global, blocks: &[Block]) -> Result<Vec<u8>, Memory>
    requires { All IsWritableBlock blocks.now }
    ensures { IfOk result (λ bytes. bytes.items ≡ flat_map written_block blocks.now) }
{
    let mut bytes = Vec::new(alloc);
    for block in blocks {
        let written = encode_block(alloc, block)?;
        if bytes.is_empty() {
            bytes = written;
        } else {
            bytes.extend_from_slice(written.as_slice())?;
        }
    }
    Ok(bytes)
}
