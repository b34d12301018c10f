ghost use Rattle.std.specs.Prelude.{◌≡◌, codes};
ghost use Rattle.pw_base.specs.Outside.{KeepsSink};
ghost use Rattle.pw_base.specs.Seen.{sink_seen, GrewByLine};
ghost use Rattle.pw_load.specs.Ends.{print_line, print_status};

use pw_base::{Sink, put_all};
use pw_text::PrintFault;

/// Writes a line on the error output. Its failure is passed over.
pub fn say<K: Sink>(err: &mut K, line: &[u8])
    ensures keeps { KeepsSink K.told K.faults err.old err.new }
    ensures line { GrewByLine (sink_seen K.Sink err.old) (sink_seen K.Sink err.new) line.now }
{
    let _ = put_all(err, line);
}

/// Says that memory ran out, and the status.
pub fn without_memory<K: Sink>(err: &mut K) -> u8
    ensures status { result ≡ 6 }
    ensures keeps { KeepsSink K.told K.faults err.old err.new }
    ensures line { GrewByLine (sink_seen K.Sink err.old) (sink_seen K.Sink err.new) (codes "no memory\n") }
{
    say(err, b"no memory\n");
    6
}

/// Says that a file couldn't be read, and the status.
pub fn read_fault<K: Sink>(err: &mut K) -> u8
    ensures status { result ≡ 3 }
    ensures keeps { KeepsSink K.told K.faults err.old err.new }
    ensures line { GrewByLine (sink_seen K.Sink err.old) (sink_seen K.Sink err.new) (codes "read fault\n") }
{
    say(err, b"read fault\n");
    3
}

/// Says that the output couldn't be written, and the status.
pub fn write_fault<K: Sink>(err: &mut K) -> u8
    ensures status { result ≡ 4 }
    ensures keeps { KeepsSink K.told K.faults err.old err.new }
    ensures line { GrewByLine (sink_seen K.Sink err.old) (sink_seen K.Sink err.new) (codes "write fault\n") }
{
    say(err, b"write fault\n");
    4
}

/// Says what became of a text that was to be printed, and the status: nothing where it is whole.
pub fn printed<K: Sink>(err: &mut K, outcome: Result<(), PrintFault>) -> u8
    ensures status { result ≡ print_status outcome }
    ensures keeps { KeepsSink K.told K.faults err.old err.new }
    ensures line { GrewByLine (sink_seen K.Sink err.old) (sink_seen K.Sink err.new) (print_line outcome) }
{
    match outcome {
        Ok(()) => 0,
        Err(PrintFault::Sink) => write_fault(err),
        Err(PrintFault::Memory) => without_memory(err),
    }
}
