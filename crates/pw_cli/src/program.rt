ghost use Rattle.std.specs.Prelude.{◌≡◌, ◌≤◌, None, codes};
ghost use Rattle.pw_base.specs.Outside.{KeepsFiles, KeepsSink};
ghost use Rattle.pw_base.specs.Seen.{files_seen, sink_seen, GrewByLine};
ghost use Rattle.pw_text.specs.declared.script.TheConstants.{MOST_OPERATIONS};
ghost use Rattle.pw_words.specs.Command.{asked_of};
ghost use Rattle.pw_words.specs.Words.{texts};
ghost use Rattle.aml_block.specs.Held.{names_of};
ghost use Rattle.pw_load.specs.Ends.{Did, Ended};
ghost use Rattle.pw_load.specs.Seen.{all_seen, outputs_seen};
ghost use Rattle.pw_cli.specs.Runs.{DrivesBy, IsComplete, IsSpared, IsWithin, Obeys, Ran, SteersBy};
ghost use Rattle.pw_cli.specs.Runs.{form_of, reviewing_by, words_line, words_status};

use pw_audit::Form;
use pw_base::{Files, Gate, Sink};
use pw_load::{say, without_memory};
use pw_regs::Registers;
use pw_runs::{Outcome, audit, audit_cppc, cppc, cppc_serially, drive, drive_serially, generate};
use pw_tasks::do_on_blocks;
use pw_words::{Command, Review, Way, WordsFault, command_of};
use std::alloc::Global;
use std::sync::Wait;
use std::thread::Threads;

/// Does `drive`, on one thread or by workers.
fn drive_by<T: Threads + Wait + Sync, F: Files, K: Sink, R: Registers + Send, G: Gate + Sync>(
    rt: &T,
    alloc: Global,
    way: Way,
    script: &str,
    blocks: &[&str],
    files: &mut F,
    out: &mut K,
    err: &mut K,
    regs: R,
    gate: &G,
) -> Outcome<R>
    ensures keeps_files { KeepsFiles F.told F.holds F.faults files.old files.new }
    ensures keeps_out { KeepsSink K.told K.faults out.old out.new }
    ensures keeps_err { KeepsSink K.told K.faults err.old err.new }
    ensures drove { Ended (DrivesBy way.serial way.step script.now (names_of blocks.now) result.sealed
        (all_seen F.Files K.Sink R.Registers files.old out.old err.old regs)
        (all_seen F.Files K.Sink R.Registers files.new out.new err.new result.regs))
        (outputs_seen K.Sink out.old err.old) (outputs_seen K.Sink out.new err.new) result.status }
{
    if way.serial {
        drive_serially(alloc, way.step, script, blocks, files, out, err, regs)
    } else {
        drive(
            rt, alloc, way.step, script, blocks, files, out, err, regs, gate,
        )
    }
}

/// Does `cppc`, on one thread or by workers. Says the status, and gives the registers back.
fn steer_by<T: Threads + Wait + Sync, F: Files, K: Sink, R: Registers + Send>(
    rt: &T,
    alloc: Global,
    serial: bool,
    script: &str,
    blocks: &[&str],
    files: &mut F,
    out: &mut K,
    err: &mut K,
    regs: R,
) -> (u8, R)
    ensures keeps_files { KeepsFiles F.told F.holds F.faults files.old files.new }
    ensures keeps_out { KeepsSink K.told K.faults out.old out.new }
    ensures keeps_err { KeepsSink K.told K.faults err.old err.new }
    ensures steered { Ended (SteersBy serial script.now (names_of blocks.now)
        (all_seen F.Files K.Sink R.Registers files.old out.old err.old regs)
        (all_seen F.Files K.Sink R.Registers files.new out.new err.new result.1))
        (outputs_seen K.Sink out.old err.old) (outputs_seen K.Sink out.new err.new) result.0 }
{
    if serial {
        cppc_serially(alloc, script, blocks, files, out, err, regs)
    } else {
        cppc(rt, alloc, script, blocks, files, out, err, regs)
    }
}

/// The form of a text that is audited.
fn form_of(review: Review) -> Form
    ensures { result ≡ form_of review }
{
    if review.trace {
        Form::Trace
    } else {
        Form::History
    }
}

/// Does `audit`, of a history of `drive` or of `cppc`. Says the status.
fn review_by<F: Files, K: Sink>(
    alloc: Global,
    review: Review,
    script: &str,
    history: &str,
    blocks: &[&str],
    files: &mut F,
    out: &mut K,
    err: &mut K,
) -> u8
    ensures keeps_files { KeepsFiles F.told F.holds F.faults files.old files.new }
    ensures keeps_out { KeepsSink K.told K.faults out.old out.new }
    ensures keeps_err { KeepsSink K.told K.faults err.old err.new }
    ensures did { Did (reviewing_by review.cppc (form_of review) review.step script.now history.now
        (names_of blocks.now) (files_seen F.Files files.old) (files_seen F.Files files.new))
        (outputs_seen K.Sink out.old err.old) (outputs_seen K.Sink out.new err.new) result }
{
    let form = form_of(review);
    if review.cppc {
        audit_cppc(alloc, form, script, history, blocks, files, out, err)
    } else {
        let step = review.step;
        audit(alloc, form, step, script, history, blocks, files, out, err)
    }
}

/// How a command ended that had no coordinator of several callers.
fn unsealed<R>(status: u8, regs: R) -> Outcome<R>
    ensures { result ≡ record { status = status; regs = regs; sealed = None } }
{
    Outcome {
        status,
        regs,
        sealed: None,
    }
}

/// Does what a command asks for.
fn obey<T: Threads + Wait + Sync, F: Files, K: Sink, R: Registers + Send, G: Gate + Sync>(
    rt: &T,
    alloc: Global,
    command: &Command<'_>,
    files: &mut F,
    out: &mut K,
    err: &mut K,
    regs: R,
    gate: &G,
) -> Outcome<R>
    requires { IsWithin (asked_of command.now) }
    ensures keeps_files { KeepsFiles F.told F.holds F.faults files.old files.new }
    ensures keeps_out { KeepsSink K.told K.faults out.old out.new }
    ensures keeps_err { KeepsSink K.told K.faults err.old err.new }
    ensures obeyed { Ended (Obeys (asked_of command.now) result.sealed
        (all_seen F.Files K.Sink R.Registers files.old out.old err.old regs)
        (all_seen F.Files K.Sink R.Registers files.new out.new err.new result.regs))
        (outputs_seen K.Sink out.old err.old) (outputs_seen K.Sink out.new err.new) result.status }
{
    match command {
        Command::OnBlocks { task, blocks } => {
            let status = do_on_blocks(alloc, *task, blocks.as_slice(), files, out, err);
            unsealed(status, regs)
        }
        Command::Drive {
            way,
            script,
            blocks,
        } => {
            let names = blocks.as_slice();
            drive_by(rt, alloc, *way, script, names, files, out, err, regs, gate)
        }
        Command::Audit {
            review,
            script,
            history,
            blocks,
        } => {
            let names = blocks.as_slice();
            let status = review_by(alloc, *review, script, history, names, files, out, err);
            unsealed(status, regs)
        }
        Command::Cppc {
            serial,
            script,
            blocks,
        } => {
            let names = blocks.as_slice();
            let (status, regs) = steer_by(rt, alloc, *serial, script, names, files, out, err, regs);
            unsealed(status, regs)
        }
        Command::Generate { count } => generate(rt, alloc, *count, out, err, regs, gate),
    }
}

/// Says why words are no command, and the status.
fn refuse_words<K: Sink>(err: &mut K, fault: WordsFault) -> u8
    ensures status { result ≡ words_status fault }
    ensures keeps { KeepsSink K.told K.faults err.old err.new }
    ensures line { GrewByLine (sink_seen K.Sink err.old) (sink_seen K.Sink err.new) (words_line fault) }
{
    match fault {
        WordsFault::Memory => without_memory(err),
        WordsFault::Refused => {
            say(err, b"words: refused\n");
            2
        }
    }
}

/// The whole run of the program on these words, which leave out the program's name: with the threads that
/// it may start, the files that it reads, its output and its error output, the registers that it
/// operates, and the gate that a request of `drive` or `generate` passes where workers make it.
pub fn run<T: Threads + Wait + Sync, F: Files, K: Sink, R: Registers + Send, G: Gate + Sync>(
    rt: &T,
    alloc: Global,
    words: &[String],
    files: &mut F,
    out: &mut K,
    err: &mut K,
    regs: R,
    gate: &G,
) -> Outcome<R>
    ensures keeps_files { KeepsFiles F.told F.holds F.faults files.old files.new }
    ensures keeps_out { KeepsSink K.told K.faults out.old out.new }
    ensures keeps_err { KeepsSink K.told K.faults err.old err.new }
    // The status, with its cause, what stands on the two outputs, what registers saw, and what the
    // coordinator gave at its closing.
    ensures ran { Ran (texts words.now) result.sealed
        (all_seen F.Files K.Sink R.Registers files.old out.old err.old regs)
        (all_seen F.Files K.Sink R.Registers files.new out.new err.new result.regs) result.status }
    // What must come where nothing outside fails, unless memory runs out.
    ensures complete { IsComplete (texts words.now)
        (all_seen F.Files K.Sink R.Registers files.old out.old err.old regs)
        (all_seen F.Files K.Sink R.Registers files.new out.new err.new result.regs) result.status }
    // Registers that promise room for as many operations as a script may have never fail in a run.
    ensures spared { MOST_OPERATIONS ≤ R.room regs →
        IsSpared (R.faults regs) (R.faults result.regs) result.status }
{
    let mut room = Vec::new(alloc);
    match command_of(alloc, words, &mut room) {
        Ok(command) => obey(rt, alloc, &command, files, out, err, regs, gate),
        Err(fault) => Outcome {
            status: refuse_words(err, fault),
            regs,
            sealed: None,
        },
    }
}
