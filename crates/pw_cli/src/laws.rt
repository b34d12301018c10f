//! What the program promises, in the words of the machine (`docs/PROMISES.md`).
ghost use Rattle.std.specs.Prelude.{◌≡◌, ℕ, Bool, List, Option, false, true};
ghost use Rattle.pw_words.specs.declared.command.Review.{Review as review};
ghost use Rattle.pw_words.specs.declared.command.Task.{Task as task};
ghost use Rattle.pw_words.specs.declared.command.Task.TheVariants.{Check, Rewrite, Show, ShowAsJson};
ghost use Rattle.pw_words.specs.declared.command.Way.{Way as way};
ghost use Rattle.pw_words.specs.Words.{AskFor};
ghost use Rattle.pw_words.specs.Words.Asked.{audit, cppc, drive, generate, on_blocks};
ghost use Rattle.pw_load.specs.Seen.{Seen};
ghost use Rattle.pw_turns.specs.declared.close.Sealed.{Sealed as sealed};
ghost use Rattle.pw_cli.specs.Runs.{IsComplete, Ran, form_of};
ghost use Rattle.pw_cli.specs.BlockPromises.{KeepsCheck, KeepsRewrite, KeepsShow};
ghost use Rattle.pw_cli.specs.CppcPromises.{KeepsCppc, KeepsCppcAudit};
ghost use Rattle.pw_cli.specs.Promises.{KeepsAudit, KeepsDrive, KeepsGenerate, KeepsTask};
ghost use Rattle.pw_cli.specs.StatusPromises.{KeepsStatus};

use acpi_build::{
    notes_have_causes, parents_are_innermost, processors_and_containers, tables_are_meant,
};
use acpi_space::first_dsdt_tells_widths;
use pw_audit::{
    cppc_histories_are_traces, cppc_traces_sort_to_histories, histories_are_traces,
    traces_sort_to_histories,
};
use pw_governor::choices_are_deepest;

/// Where `run` ends with status 0 on words that ask for a drive, on one thread or by workers, of files
/// that tell, the promise of `drive` holds: one history, each processor's requests in order, each
/// refused exactly for the first reason that stands and else served, the machine where the standard
/// says, and the registers set so (ACPI 6.5, 8.4.3.2, 8.4.4.4, 8.4.5.5).
pub fn drives_keep_their_promise()
    ensures { (words : List (List ℕ)) (how : way) (script : List ℕ) (names : List (List ℕ))
        (s : Option sealed) (before after : Seen) → AskFor words (drive how script names)
        → before.files.told ≡ true → Ran words s before after 0
        → KeepsDrive how.serial how.step script names before after }
{
    processors_and_containers();
    parents_are_innermost();
    tables_are_meant();
    first_dsdt_tells_widths();
    choices_are_deepest();
}

/// So it is of `cppc`: one history, each processor's requests in order, and the controls set to where the
/// processors stand (8.4.6.1).
pub fn runs_of_cppc_keep_their_promise()
    ensures { (words : List (List ℕ)) (serial : Bool) (script : List ℕ) (names : List (List ℕ))
        (s : Option sealed) (before after : Seen) → AskFor words (cppc serial script names)
        → Ran words s before after 0 → KeepsCppc serial script names before after }
{}

/// So it is of `generate`: one summary for every order of the load's requests.
pub fn loads_keep_their_promise()
    ensures { (words : List (List ℕ)) (n : ℕ) (s : Option sealed) (before after : Seen)
        → AskFor words (generate n) → Ran words s before after 0 → KeepsGenerate n before after }
{
    processors_and_containers();
    parents_are_innermost();
    tables_are_meant();
    first_dsdt_tells_widths();
}

/// So it is of `audit`: the file has a whole history that the script allows, or with `--trace` a whole
/// trace of one; with `--cppc` one of `cppc`.
pub fn audits_keep_their_promise()
    ensures plain { (words : List (List ℕ)) (how : review) (script history : List ℕ) (names : List (List ℕ))
        (s : Option sealed) (before after : Seen) → AskFor words (audit how script history names)
        → how.cppc ≡ false → Ran words s before after 0
        → KeepsAudit (form_of how) how.step script history names before after }
    ensures cppc { (words : List (List ℕ)) (how : review) (script history : List ℕ) (names : List (List ℕ))
        (s : Option sealed) (before after : Seen) → AskFor words (audit how script history names)
        → how.cppc ≡ true → Ran words s before after 0
        → KeepsCppcAudit (form_of how) script history names before after }
{
    processors_and_containers();
    parents_are_innermost();
    tables_are_meant();
    first_dsdt_tells_widths();
    choices_are_deepest();
    histories_are_traces();
    traces_sort_to_histories();
    cppc_histories_are_traces();
    cppc_traces_sort_to_histories();
}

/// So it is of `show`, `rewrite`, `check` and `lint`: the one text of the only blocks that the files' bytes
/// spell.
pub fn tasks_keep_their_promise()
    ensures { (words : List (List ℕ)) (t : task) (names : List (List ℕ)) (s : Option sealed)
        (before after : Seen) → AskFor words (on_blocks t names)
        → before.files.told ≡ true → Ran words s before after 0
        → KeepsTask t names before after }
{}

/// `show` prints the objects that the only blocks of the files place, at their paths, with `--json` or
/// without.
pub fn shows_keep_their_promise()
    ensures plain { (words : List (List ℕ)) (names : List (List ℕ)) (s : Option sealed) (before after : Seen)
        → AskFor words (on_blocks Show names) → before.files.told ≡ true → Ran words s before after 0
        → KeepsShow false names before after }
    ensures json { (words : List (List ℕ)) (names : List (List ℕ)) (s : Option sealed) (before after : Seen)
        → AskFor words (on_blocks ShowAsJson names) → before.files.told ≡ true → Ran words s before after 0
        → KeepsShow true names before after }
{}

/// `rewrite` prints the shortest bytes that spell the same blocks.
pub fn rewrites_keep_their_promise()
    ensures { (words : List (List ℕ)) (names : List (List ℕ)) (s : Option sealed) (before after : Seen)
        → AskFor words (on_blocks Rewrite names) → before.files.told ≡ true → Ran words s before after 0
        → KeepsRewrite names before after }
{}

/// `check` prints the machine that the blocks describe, as ACPI 6.5 means them (8.3, 8.4), with a note for
/// each cause of one.
pub fn checks_keep_their_promise()
    ensures { (words : List (List ℕ)) (names : List (List ℕ)) (s : Option sealed) (before after : Seen)
        → AskFor words (on_blocks Check names) → before.files.told ≡ true → Ran words s before after 0
        → KeepsCheck names before after }
{
    processors_and_containers();
    parents_are_innermost();
    tables_are_meant();
    first_dsdt_tells_widths();
    notes_have_causes();
}

/// Whatever the words are, the status says how the run ended, and comes where that is so; and no register is
/// operated but by `drive`, `cppc` and `generate`.
pub fn statuses_have_causes()
    ensures { (words : List (List ℕ)) (s : Option sealed) (before after : Seen) (status : ℕ)
        → Ran words s before after status → IsComplete words before after status
        → KeepsStatus words before after status }
{}
