ghost use Rattle.std.specs.Prelude.{◌≡◌, ◌≤◌, ◌<◌, ◌++◌, ℕ, Bool, true, List, take, length};
ghost use Rattle.std.specs.Prelude.{IfOk, OnOk, OnErr};
ghost use Rattle.pw_base.specs.Outside.{Rose, KeepsSink, GrewByPart};

use crate::failure::Failed;

/// A place that takes bytes: an output, or memory.
pub trait Sink {
    ghost told: { Self → Bool };

    ghost written: { Self → List ℕ };

    ghost faults: { Self → ℕ };

    /// Takes the first bytes of a piece, at least one unless the piece is empty.
    fn write(&mut self, piece: &[u8]) -> Result<usize, Failed>
        ensures keeps { KeepsSink told faults self.old self.new }
        ensures within { IfOk result (λ n. n ≤ length piece.now) }
        ensures some { IfOk result (λ n. 0 < length piece.now → 0 < n) }
        ensures taken { IfOk result (λ n. told self.old ≡ true →
            written self.new ≡ written self.old ++ take n piece.now) }
        ensures failed { OnErr result (Rose (faults self.old) (faults self.new)) }
        ensures stays { OnErr result (told self.old ≡ true → written self.new ≡ written self.old) };
}

/// Writes all bytes, in as many pieces as the sink wants. It takes no memory.
pub fn put_all<K: Sink>(sink: &mut K, bytes: &[u8]) -> Result<(), Failed>
    ensures keeps { KeepsSink K.told K.faults sink.old sink.new }
    ensures ok { OnOk result (K.told sink.old ≡ true →
        K.written sink.new ≡ K.written sink.old ++ bytes.now) }
    ensures failed { OnErr result (Rose (K.faults sink.old) (K.faults sink.new)) }
    // After a failure the sink has a beginning of the bytes.
    ensures part { OnErr result (K.told sink.old ≡ true →
        GrewByPart (K.written sink.old) (K.written sink.new) bytes.now) }
{
    let mut done = 0;
    while done < bytes.len() {
        done += sink.write(&bytes[done..])?;
    }
    Ok(())
}
