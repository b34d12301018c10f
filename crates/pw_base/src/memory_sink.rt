ghost use Rattle.std.specs.Prelude.{◌≡◌, ◌≤◌, ◌<◌, ◌++◌, [], true, length, take, is_err, IfOk, OnOk, OnErr};
ghost use Rattle.pw_base.specs.Outside.{Rose, KeepsSink};
ghost use Rattle.pw_base.specs.InMemory.{next_count, write_count, write_fails};
ghost use Rattle.pw_base.specs.InMemory.{sink_faults, sink_tells, written_in};

use crate::failure::{Failed, Memory};
use crate::memory_files::is_listed;
use crate::room::Room;
use crate::sink::Sink;
use std::alloc::Global;
use std::marker::Model;

/// A sink in memory that tells all that it took. It takes its room when it is made. A write takes at
/// most `piece` bytes and as many as there is room. It fails at the calls that the caller listed,
/// counted from 1, and where a byte is to be taken and there is no room.
#[derive(Drop)]
pub struct MemorySink {
    taken: Room<u8>,
    fails: Vec<u32>,
    piece: u32,
    calls: u64,
    faults: u64,
}

impl Model for MemorySink {
    ghost use Rattle.std.specs.Prelude.{◌≤◌};
    ghost use Rattle.pw_base.specs.InMemory.{SinkHeld};

    ghost Value = { SinkHeld };

    ghost view = { λ m. record {
      written = m.taken.elements;
      room = m.taken.capacity;
      fails = m.fails.items;
      piece = m.piece;
      calls = m.calls;
      faults = m.faults;
    } };

    ghost invariant = { λ m. 1 ≤ m.piece };
}

impl MemorySink {
    /// An empty sink with room for so many bytes, of which no call was made yet.
    pub fn new(alloc: Global, room: u32, fails: Vec<u32>, piece: u32) -> Result<MemorySink, Memory>
        requires { 1 ≤ piece }
        ensures { IfOk result (λ s. s ≡ record {
          written = [];
          room = room;
          fails = fails.items;
          piece = piece;
          calls = 0;
          faults = 0;
        }) }
    {
        Ok(MemorySink {
            taken: Room::new(alloc, room as usize)?,
            fails,
            piece,
            calls: 0,
            faults: 0,
        })
    }

    /// The bytes taken so far.
    pub fn written(&self) -> &[u8]
        ensures { result.now ≡ self.now.written }
    {
        self.taken.as_slice()
    }
}

impl Sink for MemorySink {
    ghost told = { sink_tells };

    ghost written = { written_in };

    ghost faults = { sink_faults };

    fn write(&mut self, piece: &[u8]) -> Result<usize, Failed>
        ensures keeps { KeepsSink sink_tells sink_faults self.old self.new }
        ensures within { IfOk result (λ n. n ≤ length piece.now) }
        ensures some { IfOk result (λ n. 0 < length piece.now → 0 < n) }
        ensures taken { IfOk result (λ n. sink_tells self.old ≡ true →
            written_in self.new ≡ written_in self.old ++ take n piece.now) }
        ensures failed { OnErr result (Rose (sink_faults self.old) (sink_faults self.new)) }
        ensures stays { OnErr result (sink_tells self.old ≡ true →
            written_in self.new ≡ written_in self.old) }
        ensures exact_failure { is_err result ≡ write_fails self.old piece.now }
        ensures exact_count { IfOk result (λ n. n ≡ write_count self.old piece.now) }
        ensures ok_state { OnOk result (self.new ≡ record self.old {
          written = self.new.written;
          calls = next_count self.old.calls;
        }) }
        ensures failed_state { OnErr result (self.new ≡ record self.old {
          calls = next_count self.old.calls;
          faults = next_count self.old.faults;
        }) }
    {
        self.calls = self.calls.saturating_add(1);
        let spare = self.taken.spare();
        if is_listed(self.fails.as_slice(), self.calls) || !piece.is_empty() && spare == 0 {
            self.faults = self.faults.saturating_add(1);
            return Err(Failed);
        }
        let count = piece.len().min(self.piece as usize).min(spare);
        self.taken.extend_from_slice(&piece[..count]);
        Ok(count)
    }
}
