ghost use Rattle.std.specs.Prelude.{◌≡◌, ◌↔◌, ◌⊎◌, ℕ, List, Option};
ghost use Rattle.aml_block.specs.declared.block.Block.{Block as block};
ghost use Rattle.aml_block.specs.declared.blocks_fault.BlocksFault.{BlocksFault as fault_type};
ghost use Rattle.aml_block.specs.Held.{HoldBlocks, FailFirst, AreHeld, HoldBytes, IsAbsent};

/// Files hold at most one list of blocks under the same names.
pub fn one_list()
    ensures { (holds : List ℕ → Option (List ℕ)) (names : List (List ℕ)) (a b : List block) →
        HoldBlocks holds names a → HoldBlocks holds names b → a ≡ b }
{}

/// They have at most one first fault, and none where they hold blocks.
pub fn one_fault_or_blocks()
    ensures one { (holds : List ℕ → Option (List ℕ)) (names : List (List ℕ)) (f g : fault_type) →
        FailFirst holds names f → FailFirst holds names g → f ≡ g }
    ensures apart { (holds : List ℕ → Option (List ℕ)) (names : List (List ℕ)) (blocks : List block)
        (f : fault_type) → HoldBlocks holds names blocks → FailFirst holds names f → ⊥ }
{}

/// Names are those of files that hold blocks, or that have a first fault, or some file isn't there and
/// those before it hold blocks: one of the three alone.
pub fn blocks_or_fault()
    ensures one { (holds : List ℕ → Option (List ℕ)) (names : List (List ℕ)) → HoldBytes holds →
        ((blocks : List block) × HoldBlocks holds names blocks)
        ⊎ ((f : fault_type) × FailFirst holds names f) ⊎ ((n : ℕ) × IsAbsent holds names n) }
    ensures alone { (holds : List ℕ → Option (List ℕ)) (names : List (List ℕ)) (n : ℕ)
        → IsAbsent holds names n →
        ((blocks : List block) → HoldBlocks holds names blocks → ⊥)
        × ((f : fault_type) → FailFirst holds names f → ⊥) }
{}

/// Blocks that are held one after the other are held as a whole.
pub fn whole_list()
    ensures { (holds : List ℕ → Option (List ℕ)) (names : List (List ℕ)) (blocks : List block) →
        HoldBlocks holds names blocks ↔ AreHeld holds names blocks }
{}
