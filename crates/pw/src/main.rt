//! The program `pw`: the words of its command line, the files of the system, its two outputs, and registers
//! in memory. What it does with them is the library's `run`.
#![tactic(auto)]

ghost use Rattle.std.specs.Prelude.{◌≡◌, codes, if◌then◌else◌};

use pw_base::{OpenGate, StdFiles, StdSink, put_all};
use pw_cli::run;
use pw_regs::RegisterFile;
use pw_text::MOST_OPERATIONS;
use std::process::ExitCode;
use std::{env, io};

fn main(rt: HostRuntime) -> ExitCode {
    let mut out = StdSink::stdout(rt.stdout());
    let mut err = StdSink::stderr(rt.stderr());
    let alloc = rt.alloc();
    let words = match words(&rt) {
        Ok(words) => words,
        Err(error) => return end_early(&mut err, error.kind() == io::ErrorKind::OutOfMemory),
    };
    let Ok(regs) = RegisterFile::new(alloc, MOST_OPERATIONS) else {
        return end_early(&mut err, true);
    };
    let mut files = StdFiles::new(&rt, alloc);
    let outcome = run(
        &rt,
        alloc,
        words.as_slice(),
        &mut files,
        &mut out,
        &mut err,
        regs,
        &OpenGate,
    );
    ExitCode::from(outcome.status)
}

/// Ends a run before it begins.
fn end_early(err: &mut StdSink, memory: bool) -> ExitCode {
    let (status, line) = early_end(memory);
    let _ = put_all(err, line);
    ExitCode::from(status)
}

/// The words behind the program's name. One that isn't UTF-8 is an error.
fn words(rt: &HostRuntime) -> io::Result<Vec<String>> {
    let mut all = env::args(rt)?;
    let _ = all.next();
    let mut words = Vec::new(rt.alloc());
    for word in all {
        words.push(word)?;
    }
    Ok(words)
}

/// The status and the line of a run that ends before it begins: for want of memory, or since a word
/// isn't UTF-8.
fn early_end(memory: bool) -> (u8, &'static [u8])
    ensures status { result.0 ≡ (if memory then 6 else 2) }
    ensures line { result.1.now ≡ (if memory then codes "no memory\n" else codes "words: refused\n") }
{
    if memory {
        (6, b"no memory\n")
    } else {
        (2, b"words: refused\n")
    }
}
