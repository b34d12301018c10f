ghost use Rattle.std.specs.Prelude.{◌≡◌, IfOk};
ghost use Rattle.clap.specs.Words.{App as app_type, Rule as rule_type};
ghost use Rattle.clap.specs.Words.{app_of, new_app, with_rule, with_subcommand};
ghost use Rattle.pw_words.specs.App.{audit_app, bare_app, blocks_app, blocks_rule, cppc_app, drive_app};
ghost use Rattle.pw_words.specs.App.{flag_rule, generate_app, line_app, show_app, word_rule};
ghost use Rattle.pw_words.specs.inner.Building.{IsArg, IsMade};

use clap::{Arg, ArgAction, Command};
use std::alloc::{AllocError, Global};

/// `--NAME`.
fn flag<'a>(alloc: Global, name: &'a str) -> Arg<'a>
    ensures { IsArg result (flag_rule name.now) }
{
    Arg::new(alloc, name).long(name).action(ArgAction::SetTrue)
}

/// An argument that must be there.
fn word<'a>(alloc: Global, id: &'a str) -> Arg<'a>
    ensures { IsArg result (word_rule id.now) }
{
    Arg::new(alloc, id).required(true)
}

/// `BLOCK..`. So many blocks at most are named in one command: this project's own limit.
fn blocks<'a>(alloc: Global) -> Arg<'a>
    ensures { IsArg result blocks_rule }
{
    word(alloc, "blocks").num_args(1..=64)
}

/// A command of this name, with no argument yet.
fn named<'a>(alloc: Global, name: &'a str) -> Result<Command<'a>, AllocError>
    ensures { IsMade result (new_app name.now) }
{
    Ok(Command::new(alloc, name))
}

/// The command with one more argument, where it was made. A failure is passed on, so that whoever builds a
/// command has no way out of its own.
fn put<'a>(
    command: Result<Command<'a>, AllocError>,
    arg: Arg<'a>,
) -> Result<Command<'a>, AllocError>
    ensures { (app : app_type) (rule : rule_type) → IsMade command.entry app → IsArg arg.entry rule
        → IsMade result (with_rule app rule) }
{
    match command {
        Ok(command) => command.arg(arg),
        Err(error) => {
            drop(arg);
            Err(error)
        }
    }
}

/// `NAME BLOCK..`.
fn on_blocks<'a>(alloc: Global, name: &'a str) -> Result<Command<'a>, AllocError>
    ensures { IsMade result (blocks_app name.now) }
{
    put(named(alloc, name), blocks(alloc))
}

/// `show [--json] BLOCK..`.
fn show<'a>(alloc: Global) -> Result<Command<'a>, AllocError>
    ensures { IsMade result show_app }
{
    put(on_blocks(alloc, "show"), flag(alloc, "json"))
}

/// `drive [--serial] [--step] SCRIPT BLOCK..`.
fn drive<'a>(alloc: Global) -> Result<Command<'a>, AllocError>
    ensures { IsMade result drive_app }
{
    let command = put(named(alloc, "drive"), flag(alloc, "serial"));
    let command = put(command, flag(alloc, "step"));
    let command = put(command, word(alloc, "script"));
    put(command, blocks(alloc))
}

/// `audit [--step] [--trace] [--cppc] SCRIPT HISTORY BLOCK..`.
fn audit<'a>(alloc: Global) -> Result<Command<'a>, AllocError>
    ensures { IsMade result audit_app }
{
    let command = put(named(alloc, "audit"), flag(alloc, "step"));
    let command = put(command, flag(alloc, "trace"));
    let command = put(command, flag(alloc, "cppc"));
    let command = put(command, word(alloc, "script"));
    let command = put(command, word(alloc, "history"));
    put(command, blocks(alloc))
}

/// `cppc [--serial] SCRIPT BLOCK..`.
fn cppc<'a>(alloc: Global) -> Result<Command<'a>, AllocError>
    ensures { IsMade result cppc_app }
{
    let command = put(named(alloc, "cppc"), flag(alloc, "serial"));
    let command = put(command, word(alloc, "script"));
    put(command, blocks(alloc))
}

/// `generate N`.
fn generate<'a>(alloc: Global) -> Result<Command<'a>, AllocError>
    ensures { IsMade result generate_app }
{
    put(named(alloc, "generate"), word(alloc, "count"))
}

/// The command with no subcommand yet.
fn bare<'a>(alloc: Global) -> Result<Command<'a>, AllocError>
    ensures { IsMade result bare_app }
{
    let command = Command::new(alloc, "pw")
        .no_binary_name(true)
        .disable_help_flag(true)
        .disable_help_subcommand(true)
        .disable_version_flag(true)
        .subcommand_required(true);
    Ok(command)
}

/// The command with one more subcommand, where both were made.
fn with<'a>(
    command: Result<Command<'a>, AllocError>,
    sub: Result<Command<'a>, AllocError>,
) -> Result<Command<'a>, AllocError>
    ensures { (above below : app_type) → IsMade command.entry above → IsMade sub.entry below
        → IsMade result (with_subcommand above below.top) }
{
    match command {
        Ok(command) => match sub {
            Ok(sub) => command.subcommand(sub),
            Err(error) => {
                drop(command);
                Err(error)
            }
        },
        Err(error) => {
            drop(sub);
            Err(error)
        }
    }
}

/// The command by which the words are read.
pub(crate) fn line<'a>(alloc: Global) -> Result<Command<'a>, AllocError>
    ensures { IfOk result (λ c. app_of c ≡ line_app) }
{
    let command = with(bare(alloc), show(alloc));
    let command = with(command, on_blocks(alloc, "rewrite"));
    let command = with(command, on_blocks(alloc, "check"));
    let command = with(command, on_blocks(alloc, "lint"));
    let command = with(command, drive(alloc));
    let command = with(command, audit(alloc));
    let command = with(command, cppc(alloc));
    with(command, generate(alloc))
}
