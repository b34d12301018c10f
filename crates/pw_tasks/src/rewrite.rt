ghost use Rattle.std.specs.Prelude.{All};
ghost use Rattle.pw_base.specs.Outside.{KeepsSink};
ghost use Rattle.aml_block.specs.Written.{IsWritableBlock};
ghost use Rattle.pw_words.specs.declared.command.Task.TheVariants as tasks;
ghost use Rattle.pw_load.specs.Seen.{outputs_seen};
ghost use Rattle.pw_load.specs.Ends.{Did};
ghost use Rattle.pw_tasks.specs.Tasks.{work_over};

use aml_block::{Block, encode_blocks};
use pw_base::{Sink, put_all};
use pw_load::{without_memory, write_fault};
use std::alloc::Global;

/// Does `rewrite` over blocks: their shortest spelling, one after the other. All of them are spelled before
/// anything is written, so that want of memory leaves the output as it was. It says the status.
pub fn rewrite<K: Sink>(alloc: Global, blocks: &[Block], out: &mut K, err: &mut K) -> u8
    requires { All IsWritableBlock blocks.now }
    ensures keeps_out { KeepsSink K.told K.faults out.old out.new }
    ensures keeps_err { KeepsSink K.told K.faults err.old err.new }
    ensures did { Did (work_over tasks.Rewrite blocks.now)
        (outputs_seen K.Sink out.old err.old) (outputs_seen K.Sink out.new err.new) result }
{
    let Ok(text) = encode_blocks(alloc, blocks) else {
        return without_memory(err);
    };
    match put_all(out, text.as_slice()) {
        Ok(()) => 0,
        Err(_) => write_fault(err),
    }
}
