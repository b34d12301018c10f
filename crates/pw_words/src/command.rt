ghost use Rattle.std.specs.Prelude.{◌≡◌, ◌⊎◌, false, MatchResult};
ghost use Rattle.pw_words.specs.Command.{asked_of};
ghost use Rattle.pw_words.specs.Stated.{IsRefused, IsTaken};
ghost use Rattle.pw_words.specs.Words.{AreMiscounted, AskFor, IsCommand, is_plain, texts};
ghost use Rattle.pw_words.specs.declared.command.WordsFault.TheVariants.{Memory, Refused};

use crate::matches::stated;
use crate::order::in_order;
use std::alloc::{AllocError, Global};

/// What can be asked for of the definition blocks in files.
#[derive(Clone, Copy)]
pub enum Task {
    /// `show BLOCK..`: a line for each object that they place.
    Show,
    /// `show --json BLOCK..`: the same as JSON.
    ShowAsJson,
    /// `rewrite BLOCK..`: the blocks in their shortest spelling.
    Rewrite,
    /// `check BLOCK..`: the plan of the machine that they describe, with notes.
    Check,
    /// `lint BLOCK..`: what is amiss with the tables of the machine.
    Lint,
}

/// How a script is run.
#[derive(Clone, Copy)]
pub struct Way {
    /// `--serial`: one thread makes all requests, in the script's order; else one worker a
    /// processor makes those of its own.
    pub serial: bool,
    /// `--step`: a notice moves a limit by one towards the platform's value; else to it.
    pub step: bool,
}

/// How a text is audited.
#[derive(Clone, Copy)]
pub struct Review {
    /// `--step`: a notice moves a limit by one towards the platform's value; else to it.
    pub step: bool,
    /// `--trace`: it is a trace of a running system; else a printed history.
    pub trace: bool,
    /// `--cppc`: it is one of requests for performance; else one of `drive`.
    pub cppc: bool,
}

/// What the words of a command line ask for.
#[derive(Drop)]
pub enum Command<'a> {
    /// A task, of the definition blocks in the files of these names, 1 to 64 of them.
    OnBlocks {
        task: Task,
        blocks: Vec<&'a str>,
    },
    /// `drive [--serial] [--step] SCRIPT BLOCK..`: the script in the file of this name, run on the
    /// machine that the blocks describe, in 1 to 64 files.
    Drive {
        way: Way,
        script: &'a str,
        blocks: Vec<&'a str>,
    },
    /// `audit [--step] [--trace] [--cppc] SCRIPT HISTORY BLOCK..`: the history or the trace in a file checked
    /// against the script and the blocks in 1 to 64 files.
    Audit {
        review: Review,
        script: &'a str,
        history: &'a str,
        blocks: Vec<&'a str>,
    },
    /// `cppc [--serial] SCRIPT BLOCK..`: the script of requests for performance in the file of this
    /// name, run on the processors that the blocks describe, in 1 to 64 files.
    Cppc {
        serial: bool,
        script: &'a str,
        blocks: Vec<&'a str>,
    },
    /// `generate N`: a machine of N clusters and a load for it, driven; a summary is printed. N is
    /// 1 to 32.
    Generate {
        count: u32,
    },
}

/// Why words give no command.
#[derive(Clone, Copy)]
pub enum WordsFault {
    /// They are none.
    Refused,
    /// Want of memory.
    Memory,
}

impl From<AllocError> for WordsFault {
    ghost from_gives = { λ _ e. e ≡ Memory };

    fn from(_e: AllocError) -> WordsFault {
        WordsFault::Memory
    }
}

/// The command of these words, which leave out the program's name. `room` is for the words in the
/// order in which they are read, and what it held is gone.
pub fn command_of<'w, 'a>(
    alloc: Global,
    words: &'w [String],
    room: &'a mut Vec<&'w str>,
) -> Result<Command<'a>, WordsFault>
where
    'w: 'a,
    // It is the command that they ask for, and words that are one are not refused.
    ensures read { MatchResult result (λ c. AskFor (texts words.now) (asked_of c))
        (λ e. e ≡ Refused → IsCommand (texts words.now) → ⊥) }
    // Words that aren't plain are refused exactly where `clap` has an error for them, and so only
    // where it doesn't state that it takes them, or where it states of them that they ask for
    // `generate`, but of no number of clusters.
    ensures taken { is_plain (texts words.now) ≡ false → MatchResult result
        (λ _. IsTaken (texts words.now) × (AreMiscounted (texts words.now) → ⊥))
        (λ e. e ≡ Refused → IsRefused (texts words.now) ⊎ AreMiscounted (texts words.now)) }
{
    *room = in_order(alloc, words)?;
    stated(alloc, room.as_slice())
}
