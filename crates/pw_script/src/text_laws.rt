ghost use Rattle.std.specs.Prelude.{◌≡◌, ◌<◌, ◌+◌, ◌^◌, ◌∷◌, ◌++◌, ℕ, [], List, Option, None, Some};
ghost use Rattle.std.specs.Prelude.{length, map, take, slice_index_or};
ghost use Rattle.std.specs.List.{AllByRecursion};
ghost use Rattle.pw_text.specs.Lines.{with_feed};
ghost use Rattle.pw_plan.specs.declared.plan.Plan.{Plan as plan};
ghost use Rattle.pw_plan.specs.declared.request.Request.{Request as request};
ghost use Rattle.pw_plan.specs.Requests.{Has};
ghost use Rattle.pw_model.specs.declared.entry.HistoryEntry.{HistoryEntry as entry};
ghost use Rattle.pw_model.specs.History.{Faultless, WellFormed, entry_ops, replay};
ghost use Rattle.pw_script.specs.Asking.{CanBeAsked, IsNarrowRequest};
ghost use Rattle.pw_script.specs.HistoryText.{history_lines, history_text, opening_lines};
ghost use Rattle.pw_script.specs.Lawful.{IsRunOf, Lawful};
ghost use Rattle.pw_script.specs.Telling.{HasSegments, IsNarrow, IsNarrowFault, unseated};
ghost use Rattle.pw_script.specs.Completing.{IsStart, completed};
ghost use Rattle.pw_script.specs.Wholes.{BeginsStart, BeginsWhole, GoesOnWith, HasFeed};
ghost use Rattle.pw_script.specs.Wholes.{IsFirstLine, IsWhole, lines_within, next_op_lines};

/// The printed text of a history tells how the opening went, and every entry but for who made it.
pub fn texts_tell_histories()
    ensures { (P : plan) (a b : Option ℕ) (H G : List entry) → HasSegments P
        → WellFormed P H → WellFormed P G
        → IsNarrowFault a → IsNarrowFault b → AllByRecursion IsNarrow H → AllByRecursion IsNarrow G
        → history_text P a H ≡ history_text P b G
        → (a ≡ b) × (map unseated H ≡ map unseated G) }
{}

/// What may come of a script has numbers as narrow as those of its lines, so that its text tells it.
pub fn texts_of_scripts_tell()
    ensures narrow { (P : plan) (asked : List request) (fault : Option ℕ) (H : List entry)
        → AllByRecursion IsNarrowRequest asked → Lawful P asked fault H
        → IsNarrowFault fault × AllByRecursion IsNarrow H }
    ensures told { (P : plan) (asked others : List request) (a b : Option ℕ) (H G : List entry)
        → HasSegments P → AllByRecursion IsNarrowRequest asked → AllByRecursion IsNarrowRequest others
        → Lawful P asked a H → Lawful P others b G → history_text P a H ≡ history_text P b G
        → (a ≡ b) × (map unseated H ≡ map unseated G) }
{}

/// What begins a history of a script is told by each processor's lines alone: a legal history without
/// a fault goes on to one exactly where each processor's requests begin its lines'.
pub fn beginnings_complete()
    ensures completed { (P : plan) (asked : List request) (H : List entry) → AllByRecursion (Has P) asked
        → Faultless H → IsStart P asked H → IsRunOf P asked (completed asked H) }
    ensures begins { (P : plan) (asked : List request) (H G : List entry) → IsRunOf P asked (H ++ G)
        → IsStart P asked H }
{}

/// Lines begin a whole text exactly where they begin the lines of a start of the script, or of an
/// opening that a fault ended.
pub fn beginnings_are_starts()
    ensures starts { (P : plan) (asked : List request) (lines : List (List ℕ)) → HasSegments P
        → BeginsWhole P asked lines → BeginsStart P asked lines }
    ensures begins { (P : plan) (asked : List request) (lines : List (List ℕ)) → HasSegments P
        → CanBeAsked P asked → BeginsStart P asked lines → BeginsWhole P asked lines }
    // A start whose text is whole is a history of the script.
    ensures whole { (P : plan) (asked : List request) (H : List entry) → HasSegments P
        → CanBeAsked P asked → IsStart P asked H → IsWhole P asked (history_text P None H)
        → IsRunOf P asked H }
    // Fewer of the first lines are first lines too.
    ensures fewer { (P : plan) (asked : List request) (lines : List (List ℕ)) (k : ℕ)
        → BeginsWhole P asked lines → BeginsWhole P asked (take k lines) }
{}

/// Which line may follow: behind the lines of a history that of a next entry, and then those of its
/// operations, one after the other; nothing behind a fault; and before all that the line of the
/// opening and its operations.
pub fn lines_follow()
    ensures feeds { (P : plan) (asked : List request) (lines : List (List ℕ)) → HasSegments P
        → BeginsWhole P asked lines → AllByRecursion HasFeed lines }
    ensures first { (P : plan) (asked : List request) (l : List ℕ) → HasSegments P
        → CanBeAsked P asked → BeginsWhole P asked (with_feed l ∷ []) → IsFirstLine P l }
    ensures opening { (P : plan) (asked : List request) (fault : Option ℕ) (j : ℕ) (l : List ℕ)
        → HasSegments P → CanBeAsked P asked → IsNarrowFault fault
        → j + 1 < length (opening_lines P fault)
        → BeginsWhole P asked (map with_feed (take (j + 1) (opening_lines P fault)) ++ with_feed l ∷ [])
        → l ≡ slice_index_or (opening_lines P fault) (j + 1) [] }
    ensures opening_fault { (P : plan) (asked : List request) (k : ℕ) (l : List ℕ) → HasSegments P
        → CanBeAsked P asked → k < 2 ^ 32
        → BeginsWhole P asked (map with_feed (opening_lines P (Some k)) ++ with_feed l ∷ []) → ⊥ }
    ensures fault { (P : plan) (asked : List request) (H : List entry) (l : List ℕ) → HasSegments P
        → CanBeAsked P asked → IsStart P asked H
        → BeginsWhole P asked (map with_feed (history_lines P None H) ++ with_feed l ∷ [])
        → Faultless H }
    ensures entry { (P : plan) (asked : List request) (H : List entry) (l : List ℕ) → HasSegments P
        → CanBeAsked P asked → IsStart P asked H
        → BeginsWhole P asked (map with_feed (history_lines P None H) ++ with_feed l ∷ [])
        → GoesOnWith P asked H l }
    ensures operation { (P : plan) (asked : List request) (H : List entry) (e : entry) (j : ℕ)
        (l : List ℕ) → HasSegments P → CanBeAsked P asked → IsStart P asked (H ++ e ∷ [])
        → j < length (entry_ops P (replay P H) e)
        → BeginsWhole P asked (map with_feed (lines_within P H e j) ++ with_feed l ∷ [])
        → l ≡ slice_index_or (next_op_lines P H e) j [] }
{}
