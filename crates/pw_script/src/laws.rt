ghost use Rattle.std.specs.Prelude.{◌≡◌, ◌<◌, ◌++◌, ◌∷◌, [], ℕ, List, None, Option, length};
ghost use Rattle.pw_model.specs.declared.state.ScaleKind.{ScaleKind as kind};
ghost use Rattle.pw_plan.specs.declared.plan.Plan.{Plan as plan};
ghost use Rattle.pw_plan.specs.declared.request.Request.{Request as request};
ghost use Rattle.acpi_values.specs.declared.idle.IdleTable.{IdleTable as table};
ghost use Rattle.pw_script.specs.declared.script.Line.{Line as line};
ghost use Rattle.pw_model.specs.declared.entry.HistoryEntry.{HistoryEntry as entry};
ghost use Rattle.pw_governor.specs.Choices.{ChoosesAs};
ghost use Rattle.pw_notice.specs.Handling.{Handles, HandlesAs};
ghost use Rattle.pw_notice.specs.Limits.{AnsweredBy, answer_by};
ghost use Rattle.pw_script.specs.Asking.{CanBeAsked};
ghost use Rattle.pw_script.specs.Lawful.{HasLine, Lawful, LawfulSerial};
ghost use Rattle.pw_script.specs.Reading.{AreLines, Answered, Chosen, LawfullyChosen, requests_of};
ghost use Rattle.pw_script.specs.Sources.{ComesFrom};

use acpi_values::IdleTable;
use pw_governor::Governor;
use pw_notice::Handlers;

/// Where the answers are those of functions, the texts tell the lines.
#[tactic(auto, using(crate::proofs::Existing::lines_told))]
pub fn texts_tell_lines()
    ensures { (P : plan) (choose : table → ℕ → ℕ → ℕ) (answer : kind → ℕ → ℕ → ℕ → ℕ)
        (before : List request) (n : ℕ) (texts : List (List ℕ)) (ls ms : List line)
        → AreLines P (Chosen choose) (Answered answer) before n texts ls
        → AreLines P (Chosen choose) (Answered answer) before n texts ms → ls ≡ ms }
{}

/// The lines of a script can be asked, whatever the governor chooses of what it may and the handlers
/// answer below the count of states: their processors exist, and their numbers are of 32 bits.
pub fn lines_can_be_asked<
    F: Fn(&IdleTable, u32, u32) -> u32,
    P: Fn(u32, u32, u32) -> u32,
    T: Fn(u32, u32, u32) -> u32,
>(governor: &Governor<F>, handlers: &Handlers<P, T>)
    requires perf { Handles (P.pre handlers.now.0) (P.post handlers.now.0) }
    requires throttle { Handles (T.pre handlers.now.1) (T.post handlers.now.1) }
    ensures { (M : plan) (before : List request) (n : ℕ) (texts : List (List ℕ)) (lines : List line)
        → AreLines M (LawfullyChosen (F.post governor.now))
        (AnsweredBy (P.post handlers.now.0) (T.post handlers.now.1)) before n texts lines
        → CanBeAsked M (requests_of lines) }
{}

/// Where the governor and the handlers answer by functions, as those do that answer as `deepest`,
/// `follow` and `step`, the lines are those with what the functions answer, which the texts tell.
pub fn functions_tell_lines<
    F: Fn(&IdleTable, u32, u32) -> u32,
    P: Fn(u32, u32, u32) -> u32,
    T: Fn(u32, u32, u32) -> u32,
>(governor: &Governor<F>, handlers: &Handlers<P, T>)
    ensures { (M : plan) (choose : table → ℕ → ℕ → ℕ) (perf throttle : ℕ → ℕ → ℕ → ℕ)
        (before : List request) (n : ℕ) (texts : List (List ℕ)) (lines : List line)
        → ChoosesAs choose (F.post governor.now)
        → HandlesAs perf (P.post handlers.now.0) → HandlesAs throttle (T.post handlers.now.1)
        → AreLines M (LawfullyChosen (F.post governor.now))
        (AnsweredBy (P.post handlers.now.0) (T.post handlers.now.1)) before n texts lines
        → AreLines M (Chosen choose) (Answered (answer_by perf throttle)) before n texts lines }
{}

/// What may come of a script in the order of its lines may come of it at all.
#[tactic(auto, using(crate::proofs::Orders::serial_lawful))]
pub fn serial_histories_are_lawful()
    ensures { (P : plan) (asked : List request) (fault : Option ℕ) (H : List entry)
        → LawfulSerial P asked fault H → Lawful P asked fault H }
{}

/// In a history that a script allows, each entry is asked by a line, and the limits that stand for its
/// processor are its own ones behind the lines before that, whatever others asked for in between.
pub fn entries_have_lines()
    ensures { (P : plan) (asked : List request) (H G : List entry) (e : entry) → e.cpu < length P.cpus
        → Lawful P asked None (H ++ e ∷ G) → HasLine P asked H e }
{}

/// Whatever the interleaving, each entry of a history that a script allows comes from a line of its text,
/// behind just those that the entry's processor made before it; and where that line is a notice, the
/// entry asks for the limit that the handler answers, shown the limit that stands there for its
/// processor (ACPI 6.5, 8.4.5.3 and 8.4.4.3).
pub fn entries_come_from_texts<
    F: Fn(&IdleTable, u32, u32) -> u32,
    P: Fn(u32, u32, u32) -> u32,
    T: Fn(u32, u32, u32) -> u32,
>(governor: &Governor<F>, handlers: &Handlers<P, T>)
    ensures read { (M : plan) (n : ℕ) (texts : List (List ℕ)) (lines : List line)
        (H G : List entry) (e : entry)
        → AreLines M (LawfullyChosen (F.post governor.now))
        (AnsweredBy (P.post handlers.now.0) (T.post handlers.now.1)) [] n texts lines
        → Lawful M (requests_of lines) None (H ++ e ∷ G)
        → ComesFrom M (LawfullyChosen (F.post governor.now))
        (AnsweredBy (P.post handlers.now.0) (T.post handlers.now.1)) n texts H e }
    // Where the answers are those of functions.
    ensures told { (M : plan) (choose : table → ℕ → ℕ → ℕ) (answer : kind → ℕ → ℕ → ℕ → ℕ) (n : ℕ)
        (texts : List (List ℕ)) (lines : List line) (H G : List entry) (e : entry)
        → AreLines M (Chosen choose) (Answered answer) [] n texts lines
        → Lawful M (requests_of lines) None (H ++ e ∷ G)
        → ComesFrom M (Chosen choose) (Answered answer) n texts H e }
{}
