ghost use Rattle.std.specs.Prelude.{◌≡◌, ◌⊎◌, ◌≤◌, ℕ, List, length};
ghost use Rattle.aml_block.specs.declared.block.Block.{Block as block};
ghost use Rattle.aml_block.specs.declared.fault.BlockFault.{BlockFault as fault_type};
ghost use Rattle.aml_data.specs.declared.data.Data.{Data};
ghost use Rattle.aml_data.specs.Countable.{IsIn, IsCountable};
ghost use Rattle.aml_data.specs.Decoded.{AreBytes};
ghost use Rattle.aml_block.specs.Values.{HasValue};
ghost use Rattle.aml_block.specs.Spelling.{BlockSpells};
ghost use Rattle.aml_block.specs.Faults.{BlockFails};
ghost use Rattle.aml_block.specs.Written.{written_block, IsInRange, IsWritableBlock};

/// Bytes spell at most one block.
pub fn one_block()
    ensures { (a b : block) (bytes : List ℕ) → BlockSpells a bytes → BlockSpells b bytes → a ≡ b }
{}

/// Bytes have at most one first fault, and none where they spell a block.
pub fn one_fault()
    ensures one { (bytes : List ℕ) (f g : fault_type) → BlockFails bytes f → BlockFails bytes g → f ≡ g }
    ensures apart { (b : block) (bytes : List ℕ) (f : fault_type) →
        BlockSpells b bytes → BlockFails bytes f → ⊥ }
{}

/// Each list of bytes spells a block or has a first fault: by `one_fault` one of the two alone.
pub fn block_or_fault()
    ensures { (bytes : List ℕ) → AreBytes bytes
        → ((b : block) × BlockSpells b bytes) ⊎ ((f : fault_type) × BlockFails bytes f) }
{}

/// The written form of a block that can be written spells it, so that it is read as this block; no
/// spelling of a block is shorter; and each block that bytes spell can be written.
pub fn written_blocks()
    ensures spelled { (b : block) → IsWritableBlock b → IsInRange b.header → BlockSpells b (written_block b) }
    ensures least { (b : block) (bytes : List ℕ) → BlockSpells b bytes
        → length (written_block b) ≤ length bytes }
    ensures writable { (b : block) (bytes : List ℕ) → BlockSpells b bytes → IsWritableBlock b }
{}

/// Whatever is in an object that a block names has elements that 32 bits can count, where the block can be
/// written or bytes spell it, so in each block that is read: the readers of tables ask for no more.
pub fn countable_objects()
    ensures writable { (b : block) (value part : Data) → IsWritableBlock b → HasValue value b.terms
        → IsIn part value → IsCountable part }
    ensures spelled { (b : block) (bytes : List ℕ) (value part : Data) → BlockSpells b bytes
        → HasValue value b.terms → IsIn part value → IsCountable part }
{}
