ghost use Rattle.std.specs.Prelude.{◌≡◌, []};
ghost use Rattle.pw_base.specs.Outside.{KeepsSink};
ghost use Rattle.pw_words.specs.declared.command.Task.TheVariants as tasks;
ghost use Rattle.pw_load.specs.Seen.{outputs_seen};
ghost use Rattle.pw_load.specs.Ends.{Did};
ghost use Rattle.pw_tasks.specs.Tasks.{work_over};

use aml_block::Block;
use pw_base::Sink;
use pw_load::{place, printed};
use pw_show::print_space;
use pw_text::Page;
use std::alloc::Global;
use std::mem::forget;

/// Does `show` over blocks: a line on the output for each object that they place. The page is empty, and
/// for the error output. It says the status.
pub fn show<K: Sink>(
    alloc: Global,
    blocks: &[Block],
    page: &mut Page,
    out: &mut K,
    err: &mut K,
) -> u8
    requires { page.old ≡ [] }
    ensures keeps_out { KeepsSink K.told K.faults out.old out.new }
    ensures keeps_err { KeepsSink K.told K.faults err.old err.new }
    ensures did { Did (work_over tasks.Show blocks.now)
        (outputs_seen K.Sink out.old err.old) (outputs_seen K.Sink out.new err.new) result }
{
    match place(alloc, blocks, page, err) {
        Err(status) => status,
        Ok(space) => {
            let outcome = print_space(alloc, &space, out);
            // The process ends now: to give the objects back takes up to a quarter of its time.
            forget(space);
            printed(err, outcome)
        }
    }
}
