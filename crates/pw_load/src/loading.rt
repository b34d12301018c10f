ghost use Rattle.std.specs.Prelude.{◌≡◌, [], All, IfErr, IfOk, OnOk};
ghost use Rattle.pw_base.specs.Outside.{KeepsFiles, KeepsSink};
ghost use Rattle.pw_base.specs.Seen.{files_seen, sink_seen};
ghost use Rattle.aml_block.specs.Written.{IsWritableBlock};
ghost use Rattle.aml_block.specs.Held.{names_of};
ghost use Rattle.pw_load.specs.Ends.{Stopped};
ghost use Rattle.pw_load.specs.Steps.{loading, AreHeldBy};

use crate::refusal::refuse;
use aml_block::{Block, read_blocks};
use pw_base::{Files, Sink};
use pw_text::Page;
use std::alloc::Global;

/// The blocks that the files of these names hold, one after the other; or the status, once the error
/// output has the line that says why there are none, by way of an empty page.
pub fn load<F: Files, K: Sink>(
    alloc: Global,
    files: &mut F,
    names: &[&str],
    page: &mut Page,
    err: &mut K,
) -> Result<Vec<Block>, u8>
    requires { page.old ≡ [] }
    ensures keeps_files { KeepsFiles F.told F.holds F.faults files.old files.new }
    ensures keeps_err { KeepsSink K.told K.faults err.old err.new }
    ensures held { IfOk result (λ blocks.
        AreHeldBy (files_seen F.Files files.old) (names_of names.now) blocks.items) }
    ensures writable { IfOk result (λ blocks. All IsWritableBlock blocks.items) }
    ensures quiet { OnOk result (err.new ≡ err.old) }
    ensures empty { OnOk result (page.new ≡ []) }
    ensures stopped { IfErr result (λ status.
        Stopped (loading (files_seen F.Files files.old) (files_seen F.Files files.new) (names_of names.now))
        (sink_seen K.Sink err.old) (sink_seen K.Sink err.new) status) }
{
    match read_blocks(alloc, files, names) {
        Ok(blocks) => Ok(blocks),
        Err(fault) => Err(refuse(page, err, names.len(), fault)),
    }
}
