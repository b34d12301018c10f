ghost use Rattle.std.specs.Prelude.{◌≡◌, ◌≤◌, ◌↔◌, ◌∷◌, ◌++◌, ◌⊎◌, [], ℕ, false, true, codes};
ghost use Rattle.std.specs.Prelude.{Bool, List, decimal, length, reverse};
ghost use Rattle.std.specs.List.{filter};
ghost use Rattle.std.specs.List.Sorted.{IsPermutation};
ghost use Rattle.clap.specs.Takes.{takes};
ghost use Rattle.clap.specs.Words.{Text};
ghost use Rattle.pw_words.specs.App.{line_app};
ghost use Rattle.pw_words.specs.Stated.{IsTaken};
ghost use Rattle.pw_words.specs.Words.{AreFiles, AreMiscounted, AskFor, Asked, IsCommand};
ghost use Rattle.pw_words.specs.Words.{flag_words, is_bare, is_dashed, is_plain, moved, review_flags};
ghost use Rattle.pw_words.specs.Words.{task_flags, task_name, way_flags};
ghost use Rattle.pw_words.specs.Words.Asked.{audit, cppc, drive, generate, on_blocks};
ghost use Rattle.pw_words.specs.declared.command.Review.{Review as review_type};
ghost use Rattle.pw_words.specs.declared.command.Task.{Task as task_type};
ghost use Rattle.pw_words.specs.declared.command.Task.TheVariants.{Show, ShowAsJson};
ghost use Rattle.pw_words.specs.declared.command.Way.{Way as way_type};

/// Words ask for one thing at most.
pub fn one_command()
    ensures { (words : List Text) (a b : Asked) → AskFor words a → AskFor words b → a ≡ b }
{}

/// They name 1 to 64 files of blocks.
pub fn few_blocks()
    ensures task { (words : List Text) (task : task_type) (blocks : List Text) →
        AskFor words (on_blocks task blocks) → (1 ≤ length blocks) × (length blocks ≤ 64) }
    ensures drive { (words : List Text) (way : way_type) (script : Text) (blocks : List Text) →
        AskFor words (drive way script blocks) → (1 ≤ length blocks) × (length blocks ≤ 64) }
    ensures audit { (words : List Text) (review : review_type) (script history : Text) (blocks : List Text) →
        AskFor words (audit review script history blocks) →
        (1 ≤ length blocks) × (length blocks ≤ 64) }
    ensures cppc { (words : List Text) (serial : Bool) (script : Text) (blocks : List Text) →
        AskFor words (cppc serial script blocks) → (1 ≤ length blocks) × (length blocks ≤ 64) }
{}

/// A machine to generate has 1 to 32 clusters.
pub fn few_clusters()
    ensures { (words : List Text) (count : ℕ) →
        AskFor words (generate count) → (1 ≤ count) × (count ≤ 32) }
{}

/// A line of the table asks for itself, and so does one whose flags stand among the names.
pub fn usual_line()
    ensures line { (task : task_type) (blocks : List Text) → AreFiles blocks →
        AskFor (task_name task ∷ task_flags task ++ blocks) (on_blocks task blocks) }
    ensures flag { (before after : List Text) → AreFiles (before ++ after) →
        AskFor (codes "show" ∷ before ++ codes "--json" ∷ after)
        (on_blocks ShowAsJson (before ++ after)) }
    ensures drive { (way : way_type) (script : Text) (blocks : List Text) →
        is_dashed script ≡ false → AreFiles blocks →
        AskFor (codes "drive" ∷ way_flags way ++ script ∷ blocks) (drive way script blocks) }
    // Wherever its flags stand among the names, in either order.
    ensures flags { (way : way_type) (script : Text) (blocks rest : List Text) →
        AreFiles blocks → filter is_bare rest ≡ script ∷ blocks →
        (filter is_dashed rest ≡ way_flags way) ⊎ (filter is_dashed rest ≡ reverse (way_flags way)) →
        AskFor (codes "drive" ∷ rest) (drive way script blocks) }
    ensures audit { (review : review_type) (script history : Text) (blocks : List Text) →
        is_dashed script ≡ false → is_dashed history ≡ false → AreFiles blocks →
        AskFor (codes "audit" ∷ review_flags review ++ script ∷ history ∷ blocks)
        (audit review script history blocks) }
    // Wherever its flags stand among the names, in either order.
    ensures reviews { (review : review_type) (script history : Text) (blocks rest : List Text) →
        AreFiles blocks → filter is_bare rest ≡ script ∷ history ∷ blocks →
        (filter is_dashed rest ≡ review_flags review)
        ⊎ (filter is_dashed rest ≡ reverse (review_flags review)) →
        AskFor (codes "audit" ∷ rest) (audit review script history blocks) }
    ensures cppc { (serial : Bool) (script : Text) (blocks : List Text) →
        is_dashed script ≡ false → AreFiles blocks →
        AskFor (codes "cppc" ∷ flag_words (codes "--serial") serial ++ script ∷ blocks)
        (cppc serial script blocks) }
    // Wherever its flag stands among the names.
    ensures serial { (serial : Bool) (script : Text) (blocks rest : List Text) →
        AreFiles blocks → filter is_bare rest ≡ script ∷ blocks →
        filter is_dashed rest ≡ flag_words (codes "--serial") serial →
        AskFor (codes "cppc" ∷ rest) (cppc serial script blocks) }
    ensures generate { (count : ℕ) → 1 ≤ count → count ≤ 32 →
        AskFor (codes "generate" ∷ decimal count ∷ []) (generate count) }
{}

/// Plain words whose flags are moved are the same words in another order.
pub fn same_words()
    ensures { (words : List Text) → is_plain words ≡ true → IsPermutation words (moved words) }
{}

/// Words that aren't plain are a command exactly where `clap` takes them, unless it states of them
/// that they ask for `generate`, but of no number of clusters.
pub fn taken_words()
    ensures { (words : List Text) → is_plain words ≡ false →
        IsCommand words ↔ (IsTaken words × (AreMiscounted words → ⊥)) }
{}

/// Words that `clap` states that it takes are taken: it has no error for them.
pub fn stated_words_are_taken()
    ensures { (words : List Text) → takes line_app words ≡ true → IsTaken words }
{}

/// Of words that aren't plain: behind `--` a file's name may begin with a hyphen, but a flag ends
/// the names that stand before it, and none may be given twice. A number of clusters is one behind
/// `--` too.
pub fn other_words()
    ensures behind { AskFor (codes "show" ∷ codes "--" ∷ codes "--json" ∷ [])
        (on_blocks Show (codes "--json" ∷ [])) }
    ensures between { IsCommand
        (codes "show" ∷ codes "a" ∷ codes "--json" ∷ codes "--" ∷ codes "-b" ∷ []) → ⊥ }
    ensures script { AskFor
        (codes "drive" ∷ codes "--step" ∷ codes "--" ∷ codes "--serial" ∷ codes "-b" ∷ [])
        (drive (record { serial = false; step = true }) (codes "--serial") (codes "-b" ∷ [])) }
    ensures twice { IsCommand (codes "drive" ∷ codes "--step" ∷ codes "--step" ∷ codes "s"
        ∷ codes "b" ∷ []) → ⊥ }
    ensures count { AskFor (codes "generate" ∷ codes "--" ∷ codes "32" ∷ []) (generate 32) }
    ensures many { IsCommand (codes "generate" ∷ codes "--" ∷ codes "33" ∷ []) → ⊥ }
{}
