//! What tasks make of blocks that were rewritten.

ghost use Rattle.std.specs.Prelude.{◌≡◌, ℕ, List, true};
ghost use Rattle.pw_base.specs.Seen.{FilesSeen};
ghost use Rattle.aml_block.specs.declared.block.Block.{Block as block};
ghost use Rattle.pw_words.specs.declared.command.Task.{Task as task};
ghost use Rattle.pw_load.specs.Steps.{AreHeldBy};
ghost use Rattle.pw_tasks.specs.Rewritten.{AreRewritten};
ghost use Rattle.pw_tasks.specs.Tasks.{IsTextOn};

use aml_block::{one_list, written_blocks};

/// What a task prints of the blocks of files it prints of them rewritten, each in a file of its own: so a
/// machine in whose tables `lint` finds nothing is one in whose rewritten tables it finds nothing.
pub fn rewritten_blocks_are_read_alike()
    ensures { (t : task) (names others : List (List ℕ)) (files rewritten : FilesSeen) (blocks : List block)
        (text : List ℕ) → files.told ≡ true → AreHeldBy files names blocks
        → AreRewritten rewritten.holds others blocks → IsTextOn t names files text
        → IsTextOn t others rewritten text }
{
    one_list();
    written_blocks();
}
