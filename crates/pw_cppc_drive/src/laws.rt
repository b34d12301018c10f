ghost use Rattle.std.specs.Prelude.{◌≡◌, ℕ, List, Option, map};
ghost use Rattle.std.specs.List.{AllByRecursion};
ghost use Rattle.pw_history.specs.Telling.{IsNarrowFault};
ghost use Rattle.pw_cppc.specs.declared.plan.CppcPlan.{CppcPlan as plan};
ghost use Rattle.pw_cppc.specs.declared.request.CppcRequest.{CppcRequest as request};
ghost use Rattle.pw_cppc.specs.declared.entry.CppcEntry.{CppcEntry as entry};
ghost use Rattle.pw_cppc.specs.History.{LawfulSerial, StatesRequest};
ghost use Rattle.pw_cppc_drive.specs.HistoryText.{history_text};
ghost use Rattle.pw_cppc_drive.specs.Lawful.{Lawful};
ghost use Rattle.pw_cppc_drive.specs.Telling.{HasSegments, IsNarrow, unseated};

/// What may come of requests in their order may come of them by workers.
pub fn serial_is_lawful()
    ensures { (P : plan) (asked : List request) (opening : Option ℕ) (es : List entry)
        → LawfulSerial P asked opening es → Lawful P asked opening es }
{}

/// The printed text of a history tells how the opening went, and every entry but for who made it.
pub fn cppc_texts_tell()
    ensures { (P : plan) (a b : Option ℕ) (H G : List entry) → HasSegments P
        → AllByRecursion (StatesRequest P) H → AllByRecursion (StatesRequest P) G
        → IsNarrowFault a → IsNarrowFault b → AllByRecursion IsNarrow H → AllByRecursion IsNarrow G
        → history_text P a H ≡ history_text P b G
        → (a ≡ b) × (map unseated H ≡ map unseated G) }
{}
