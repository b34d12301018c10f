ghost use Rattle.std.specs.Prelude.{◌≡◌, ℕ, List};
ghost use Rattle.std.specs.List.{AllByRecursion};
ghost use Rattle.aml_data.specs.Segment.{IsSegment, joined};

/// Segments one behind the other tell which they are.
#[tactic(auto, using(crate::proofs::Naming::joined_tells))]
pub fn names_tell_paths()
    ensures { (a b : List (List ℕ)) → AllByRecursion IsSegment a → AllByRecursion IsSegment b
        → joined a ≡ joined b → a ≡ b }
{}
