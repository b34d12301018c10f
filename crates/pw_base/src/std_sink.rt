ghost use Rattle.std.specs.Prelude.{◌≡◌, ◌≤◌, [], false, length, IfOk};

use crate::failure::Failed;
use crate::sink::Sink;
use std::io;
use std::io::{Stderr, Stdout, Write};
use std::marker::Model;

#[derive(Drop)]
enum Stream {
    Output(Stdout),
    Errors(Stderr),
}

/// Standard output or standard error, unbuffered. It tells nothing of what was written. Contracts see
/// its count of failures.
#[derive(Drop)]
pub struct StdSink {
    stream: Stream,
    faults: u64,
}

impl Model for StdSink {
    ghost use Rattle.std.specs.Prelude.{ℕ};

    ghost Value = { ℕ };

    ghost view = { λ s. s.faults };
}

impl StdSink {
    /// Standard output.
    pub fn stdout(output: Stdout) -> StdSink
        ensures { result ≡ 0 }
    {
        StdSink {
            stream: Stream::Output(output),
            faults: 0,
        }
    }

    /// Standard error.
    pub fn stderr(errors: Stderr) -> StdSink
        ensures { result ≡ 0 }
    {
        StdSink {
            stream: Stream::Errors(errors),
            faults: 0,
        }
    }
}

impl Sink for StdSink {
    ghost told = { λ _. false };

    ghost written = { λ _. [] };

    ghost faults = { λ count. count };

    fn write(&mut self, piece: &[u8]) -> Result<usize, Failed> {
        match write_some(&mut self.stream, piece) {
            Ok(count) if count > 0 || piece.is_empty() => Ok(count),
            _ => {
                self.faults = self.faults.saturating_add(1);
                Err(Failed)
            }
        }
    }
}

fn write_some(stream: &mut Stream, piece: &[u8]) -> io::Result<usize>
    ensures { IfOk result (λ n. n ≤ length piece.now) }
{
    match stream {
        Stream::Output(output) => output.write(piece),
        Stream::Errors(errors) => errors.write(piece),
    }
}
