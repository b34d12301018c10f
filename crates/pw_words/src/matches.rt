ghost use Rattle.std.specs.Prelude.{◌≡◌, ℕ, true, codes, is_some, IfOk, MatchResult, Some};
ghost use Rattle.clap.specs.Words.{all_of, first_of, found_of, kind_of, rows_of};
ghost use Rattle.clap.specs.declared.error.kind.ErrorKind.TheVariants.{OutOfMemory};
ghost use Rattle.pw_words.specs.Command.{asked_of, slice_texts};
ghost use Rattle.pw_words.specs.Stated.{from_words, is_used};
ghost use Rattle.pw_words.specs.Words.{Say, SayReview, SayTask, SayWay, command_name, task_name};
ghost use Rattle.pw_words.specs.Words.Asked.{generate};
ghost use Rattle.pw_words.specs.declared.command.WordsFault.TheVariants.{Refused};
ghost use Rattle.pw_words.specs.inner.Reading.{CanSay, IsOnBlocks, IsUncounted, Reads};

use crate::app::line;
use crate::command::{Command, Review, Task, Way, WordsFault};
use crate::count::count_of;
use clap::error::ErrorKind;
use clap::parser::ValueSource;
use clap::{ArgMatches, Error};
use std::alloc::{AllocError, Global};

/// Whether it was the words that gave a value, and no default.
fn is_from_words(source: Option<ValueSource>) -> bool
    ensures { result ≡ from_words source }
{
    matches!(&source, Some(ValueSource::CommandLine))
}

/// Whether the words gave the flag.
fn was_given(matches: &ArgMatches<'_>, id: &str) -> bool
    ensures { result ≡ is_used id.now (rows_of (found_of matches.now)) }
{
    is_from_words(matches.value_source(id))
}

/// The names of the files that the matches have.
fn blocks_in<'a>(alloc: Global, matches: &ArgMatches<'a>) -> Result<Vec<&'a str>, AllocError>
    requires { is_some (all_of (codes "blocks") (rows_of (found_of matches.now))) ≡ true }
    ensures { IfOk result (λ names.
        all_of (codes "blocks") (rows_of (found_of matches.now)) ≡ Some (slice_texts names.items)) }
{
    match matches.get_strs("blocks") {
        Some(blocks) => Vec::from_slice(alloc, blocks),
        None => unreachable!(),
    }
}

/// The word that the matches have for an argument.
fn word_in<'a>(matches: &ArgMatches<'a>, id: &str) -> &'a str
    requires { is_some (first_of id.now (rows_of (found_of matches.now))) ≡ true }
    ensures { first_of id.now (rows_of (found_of matches.now)) ≡ Some result.now }
{
    match matches.get_str(id) {
        Some(word) => word,
        None => unreachable!(),
    }
}

/// The way that the matches tell.
fn way_in(matches: &ArgMatches<'_>) -> Way
    ensures { SayWay (rows_of (found_of matches.now)) result }
{
    Way {
        serial: was_given(matches, "serial"),
        step: was_given(matches, "step"),
    }
}

/// The review that the matches tell.
fn review_in(matches: &ArgMatches<'_>) -> Review
    ensures { SayReview (rows_of (found_of matches.now)) result }
{
    Review {
        step: was_given(matches, "step"),
        trace: was_given(matches, "trace"),
        cppc: was_given(matches, "cppc"),
    }
}

/// The task of the subcommand of this name, by its matches.
fn task_in(name: &str, matches: &ArgMatches<'_>) -> Task
    requires { IsOnBlocks name.now }
    ensures name { task_name result ≡ name.now }
    ensures flag { SayTask (rows_of (found_of matches.now)) result }
{
    match name {
        "show" => {
            if was_given(matches, "json") {
                Task::ShowAsJson
            } else {
                Task::Show
            }
        }
        "rewrite" => Task::Rewrite,
        "check" => Task::Check,
        "lint" => Task::Lint,
        _ => unreachable!(),
    }
}

/// A task on blocks, by the matches of its subcommand.
fn on_blocks_in<'a>(
    alloc: Global,
    name: &str,
    matches: &ArgMatches<'a>,
) -> Result<Command<'a>, AllocError>
    requires known { IsOnBlocks name.now }
    requires blocks { is_some (all_of (codes "blocks") (rows_of (found_of matches.now))) ≡ true }
    ensures { IfOk result (λ c. (command_name (asked_of c) ≡ name.now)
        × Say (rows_of (found_of matches.now)) (asked_of c)) }
{
    Ok(Command::OnBlocks {
        task: task_in(name, matches),
        blocks: blocks_in(alloc, matches)?,
    })
}

/// A script to run, by the matches of `drive`.
fn drive_in<'a>(alloc: Global, matches: &ArgMatches<'a>) -> Result<Command<'a>, AllocError>
    requires script { is_some (first_of (codes "script") (rows_of (found_of matches.now))) ≡ true }
    requires blocks { is_some (all_of (codes "blocks") (rows_of (found_of matches.now))) ≡ true }
    ensures { IfOk result (λ c. (command_name (asked_of c) ≡ codes "drive")
        × Say (rows_of (found_of matches.now)) (asked_of c)) }
{
    Ok(Command::Drive {
        way: way_in(matches),
        script: word_in(matches, "script"),
        blocks: blocks_in(alloc, matches)?,
    })
}

/// A history or a trace to check, by the matches of `audit`.
fn audit_in<'a>(alloc: Global, matches: &ArgMatches<'a>) -> Result<Command<'a>, AllocError>
    requires script { is_some (first_of (codes "script") (rows_of (found_of matches.now))) ≡ true }
    requires history { is_some (first_of (codes "history") (rows_of (found_of matches.now))) ≡ true }
    requires blocks { is_some (all_of (codes "blocks") (rows_of (found_of matches.now))) ≡ true }
    ensures { IfOk result (λ c. (command_name (asked_of c) ≡ codes "audit")
        × Say (rows_of (found_of matches.now)) (asked_of c)) }
{
    let review = review_in(matches);
    let script = word_in(matches, "script");
    let history = word_in(matches, "history");
    let blocks = blocks_in(alloc, matches)?;
    Ok(Command::Audit {
        review,
        script,
        history,
        blocks,
    })
}

/// A script of requests for performance to run, by the matches of `cppc`.
fn cppc_in<'a>(alloc: Global, matches: &ArgMatches<'a>) -> Result<Command<'a>, AllocError>
    requires script { is_some (first_of (codes "script") (rows_of (found_of matches.now))) ≡ true }
    requires blocks { is_some (all_of (codes "blocks") (rows_of (found_of matches.now))) ≡ true }
    ensures { IfOk result (λ c. (command_name (asked_of c) ≡ codes "cppc")
        × Say (rows_of (found_of matches.now)) (asked_of c)) }
{
    let serial = was_given(matches, "serial");
    Ok(Command::Cppc {
        serial,
        script: word_in(matches, "script"),
        blocks: blocks_in(alloc, matches)?,
    })
}

/// A machine to generate, by the matches of `generate`.
fn generate_in<'a>(matches: &ArgMatches<'a>) -> Result<Command<'a>, WordsFault>
    requires { is_some (first_of (codes "count") (rows_of (found_of matches.now))) ≡ true }
    ensures { MatchResult result (λ c. (command_name (asked_of c) ≡ codes "generate")
        × Say (rows_of (found_of matches.now)) (asked_of c))
        (λ e. (e ≡ Refused)
        × ((count : ℕ) → Say (rows_of (found_of matches.now)) (generate count) → ⊥)) }
{
    match count_of(word_in(matches, "count")) {
        Some(count) => Ok(Command::Generate { count }),
        None => Err(WordsFault::Refused),
    }
}

/// The command of the subcommand of this name, by its matches.
fn command_in<'a>(
    alloc: Global,
    name: &str,
    matches: &ArgMatches<'a>,
) -> Result<Command<'a>, WordsFault>
    requires { CanSay name.now (rows_of (found_of matches.now)) }
    ensures { MatchResult result (λ c. (command_name (asked_of c) ≡ name.now)
        × Say (rows_of (found_of matches.now)) (asked_of c))
        (λ e. e ≡ Refused → IsUncounted name.now (rows_of (found_of matches.now))) }
{
    match name {
        "drive" => Ok(drive_in(alloc, matches)?),
        "audit" => Ok(audit_in(alloc, matches)?),
        "cppc" => Ok(cppc_in(alloc, matches)?),
        "generate" => generate_in(matches),
        _ => Ok(on_blocks_in(alloc, name, matches)?),
    }
}

/// What an error of `clap` comes to.
fn fault_from(error: &Error) -> WordsFault
    ensures { result ≡ Refused → kind_of error.now ≡ OutOfMemory → ⊥ }
{
    if error.kind() == ErrorKind::OutOfMemory {
        WordsFault::Memory
    } else {
        WordsFault::Refused
    }
}

/// The command that `clap` states of the words.
pub(crate) fn stated<'a>(alloc: Global, words: &'a [&'a str]) -> Result<Command<'a>, WordsFault>
    ensures { Reads (slice_texts words.now) result }
{
    let matches = match line(alloc)?.try_get_matches_from(words) {
        Ok(matches) => matches,
        Err(error) => return Err(fault_from(&error)),
    };
    match matches.subcommand() {
        Some((name, inner)) => command_in(alloc, name, inner),
        None => unreachable!(),
    }
}
