ghost use Rattle.std.specs.Prelude.{◌≡◌, [], All};
ghost use Rattle.pw_base.specs.Outside.{KeepsFiles, KeepsSink};
ghost use Rattle.pw_base.specs.Seen.{files_seen};
ghost use Rattle.aml_block.specs.Written.{IsWritableBlock};
ghost use Rattle.aml_block.specs.Held.{names_of};
ghost use Rattle.pw_load.specs.Seen.{outputs_seen};
ghost use Rattle.pw_load.specs.Ends.{Did};
ghost use Rattle.pw_tasks.specs.Tasks.{work_on, work_over};

use crate::check::check;
use crate::json::show_as_json;
use crate::lint::lint;
use crate::rewrite::rewrite;
use crate::show::show;
use aml_block::Block;
use pw_base::{Files, Sink};
use pw_load::{load, without_memory};
use pw_text::Page;
use pw_words::Task;
use std::alloc::Global;
use std::mem::forget;

/// Does a task over blocks that were read. The page is empty, and for the error output.
fn do_over<K: Sink>(
    alloc: Global,
    task: Task,
    blocks: &[Block],
    page: &mut Page,
    out: &mut K,
    err: &mut K,
) -> u8
    requires empty { page.old ≡ [] }
    requires writable { All IsWritableBlock blocks.now }
    ensures keeps_out { KeepsSink K.told K.faults out.old out.new }
    ensures keeps_err { KeepsSink K.told K.faults err.old err.new }
    ensures did { Did (work_over task blocks.now)
        (outputs_seen K.Sink out.old err.old) (outputs_seen K.Sink out.new err.new) result }
{
    match task {
        Task::Show => show(alloc, blocks, page, out, err),
        Task::ShowAsJson => show_as_json(alloc, blocks, page, out, err),
        Task::Rewrite => rewrite(alloc, blocks, out, err),
        Task::Check => check(alloc, blocks, page, out, err),
        Task::Lint => lint(alloc, blocks, page, out, err),
    }
}

/// Does a task on the blocks in the files of these names, and says the status.
pub fn do_on_blocks<F: Files, K: Sink>(
    alloc: Global,
    task: Task,
    names: &[&str],
    files: &mut F,
    out: &mut K,
    err: &mut K,
) -> u8
    ensures keeps_files { KeepsFiles F.told F.holds F.faults files.old files.new }
    ensures keeps_out { KeepsSink K.told K.faults out.old out.new }
    ensures keeps_err { KeepsSink K.told K.faults err.old err.new }
    ensures did { Did (work_on task (names_of names.now)
        (files_seen F.Files files.old) (files_seen F.Files files.new))
        (outputs_seen K.Sink out.old err.old) (outputs_seen K.Sink out.new err.new) result }
{
    let Ok(mut page) = Page::new(alloc) else {
        return without_memory(err);
    };
    match load(alloc, files, names, &mut page, err) {
        Err(status) => status,
        Ok(blocks) => {
            let status = do_over(alloc, task, &blocks, &mut page, out, err);
            // The process ends now: to give the trees back, piece by piece, takes a fifth of its time.
            forget(blocks);
            status
        }
    }
}
