ghost use Rattle.std.specs.Prelude.{◌≡◌, ◌↔◌, ◌<◌, ◌+◌, ◌^◌, ◌∷◌, ◌++◌, ℕ, [], List, Option, None, Some};
ghost use Rattle.std.specs.Prelude.{length, map, take, slice_index_or};
ghost use Rattle.std.specs.List.{AllByRecursion};
ghost use Rattle.pw_text.specs.Lines.{with_feed};
ghost use Rattle.pw_cppc.specs.declared.plan.CppcPlan.{CppcPlan as plan};
ghost use Rattle.pw_cppc.specs.declared.request.CppcRequest.{CppcRequest as request};
ghost use Rattle.pw_cppc.specs.declared.entry.CppcEntry.{CppcEntry as entry};
ghost use Rattle.pw_cppc.specs.History.{Faultless, entry_ops, replay};
ghost use Rattle.pw_cppc.specs.Requests.{Has};
ghost use Rattle.pw_history.specs.Telling.{IsNarrowFault};
ghost use Rattle.pw_history.specs.Wholes.{HasFeed};
ghost use Rattle.pw_cppc_drive.specs.HistoryText.{history_lines, history_text};
ghost use Rattle.pw_cppc_drive.specs.Lawful.{Lawful};
ghost use Rattle.pw_cppc_drive.specs.Telling.{HasSegments, IsNarrow, IsNarrowRequest, unseated};
ghost use Rattle.pw_cppc_drive.specs.Wholes.{BeginsStart, BeginsWhole, CanBeAsked, GoesOnWith, IsFirstLine};
ghost use Rattle.pw_cppc_drive.specs.Wholes.{IsRunOf, IsStart, IsWhole, MayCome, completed};
ghost use Rattle.pw_cppc_drive.specs.Wholes.{lines_within, next_op_lines, opening_lines};

/// What may come of requests by workers is what may come of them as their texts tell it.
pub fn cppc_texts_are_of_workers()
    ensures { (P : plan) (asked : List request) (opening : Option ℕ) (es : List entry)
        → AllByRecursion (Has P) asked → Lawful P asked opening es ↔ MayCome P asked opening es }
{}

/// What may come of requests has numbers as narrow as theirs, so that its text tells it.
pub fn cppc_texts_of_scripts_tell()
    ensures narrow { (P : plan) (asked : List request) (fault : Option ℕ) (H : List entry)
        → AllByRecursion IsNarrowRequest asked → MayCome P asked fault H
        → IsNarrowFault fault × AllByRecursion IsNarrow H }
    ensures told { (P : plan) (asked others : List request) (a b : Option ℕ) (H G : List entry)
        → HasSegments P → AllByRecursion IsNarrowRequest asked → AllByRecursion IsNarrowRequest others
        → MayCome P asked a H → MayCome P others b G → history_text P a H ≡ history_text P b G
        → (a ≡ b) × (map unseated H ≡ map unseated G) }
{}

/// What begins a history of requests is told by each processor's own ones alone: a legal history without
/// a fault goes on to one exactly where each processor's requests begin its own ones.
pub fn cppc_beginnings_complete()
    ensures completed { (P : plan) (asked : List request) (H : List entry) → AllByRecursion (Has P) asked
        → Faultless H → IsStart P asked H → IsRunOf P asked (completed asked H) }
    ensures begins { (P : plan) (asked : List request) (H G : List entry) → IsRunOf P asked (H ++ G)
        → IsStart P asked H }
{}

/// Lines begin a whole text exactly where they begin the lines of a start of the requests, or of an
/// opening that a fault ended.
pub fn cppc_beginnings_are_starts()
    ensures starts { (P : plan) (asked : List request) (lines : List (List ℕ)) → HasSegments P
        → BeginsWhole P asked lines → BeginsStart P asked lines }
    ensures begins { (P : plan) (asked : List request) (lines : List (List ℕ)) → HasSegments P
        → CanBeAsked P asked → BeginsStart P asked lines → BeginsWhole P asked lines }
    // A start whose text is whole is a history of the requests.
    ensures whole { (P : plan) (asked : List request) (H : List entry) → HasSegments P
        → CanBeAsked P asked → IsStart P asked H → IsWhole P asked (history_text P None H)
        → IsRunOf P asked H }
    // Fewer of the first lines are first lines too.
    ensures fewer { (P : plan) (asked : List request) (lines : List (List ℕ)) (k : ℕ)
        → BeginsWhole P asked lines → BeginsWhole P asked (take k lines) }
{}

/// Which line may follow: behind the lines of a history that of a next entry, and then those of its
/// operations, one after the other; nothing behind a fault; and before all that the line of the
/// opening and its operations.
pub fn cppc_lines_follow()
    ensures feeds { (P : plan) (asked : List request) (lines : List (List ℕ)) → HasSegments P
        → BeginsWhole P asked lines → AllByRecursion HasFeed lines }
    ensures first { (P : plan) (asked : List request) (l : List ℕ) → HasSegments P
        → CanBeAsked P asked → BeginsWhole P asked (with_feed l ∷ []) → IsFirstLine P l }
    ensures opening { (P : plan) (asked : List request) (fault : Option ℕ) (j : ℕ) (l : List ℕ)
        → HasSegments P → CanBeAsked P asked → IsNarrowFault fault
        → j + 1 < length (opening_lines P fault)
        → BeginsWhole P asked (map with_feed (take (j + 1) (opening_lines P fault)) ++ with_feed l ∷ [])
        → l ≡ slice_index_or (opening_lines P fault) (j + 1) [] }
    ensures opening_fault { (P : plan) (asked : List request) (k : ℕ) (l : List ℕ) → HasSegments P
        → CanBeAsked P asked → k < 2 ^ 32
        → BeginsWhole P asked (map with_feed (opening_lines P (Some k)) ++ with_feed l ∷ []) → ⊥ }
    ensures fault { (P : plan) (asked : List request) (H : List entry) (l : List ℕ) → HasSegments P
        → CanBeAsked P asked → IsStart P asked H
        → BeginsWhole P asked (map with_feed (history_lines P None H) ++ with_feed l ∷ [])
        → Faultless H }
    ensures entry { (P : plan) (asked : List request) (H : List entry) (l : List ℕ) → HasSegments P
        → CanBeAsked P asked → IsStart P asked H
        → BeginsWhole P asked (map with_feed (history_lines P None H) ++ with_feed l ∷ [])
        → GoesOnWith P asked H l }
    ensures operation { (P : plan) (asked : List request) (H : List entry) (e : entry) (j : ℕ)
        (l : List ℕ) → HasSegments P → CanBeAsked P asked → IsStart P asked (H ++ e ∷ [])
        → j < length (entry_ops P (replay P H) e)
        → BeginsWhole P asked (map with_feed (lines_within P H e j) ++ with_feed l ∷ [])
        → l ≡ slice_index_or (next_op_lines P H e) j [] }
{}
