ghost use Rattle.std.specs.Prelude.{◌≡◌, ◌≤◌, ℕ, Bool, true, List, Option, length, IfOk, OnErr, IsSomeAnd};
ghost use Rattle.pw_base.specs.Outside.{Rose, KeepsFiles, IsRead};

use crate::failure::Failed;

/// Files by name. Names are text, as the command line has them.
pub trait Files {
    ghost told: { Self → Bool };

    ghost holds: { Self → List ℕ → Option (List ℕ) };

    ghost faults: { Self → List ℕ → ℕ };

    /// Reads bytes of a file from a place on, as many as come, at most as many as `buf` has.
    /// `Ok(0)` for a `buf` with room is the end. A file that isn't there is a failure.
    fn read(&mut self, name: &str, at: u64, buf: &mut [u8]) -> Result<usize, Failed>
        ensures keeps { KeepsFiles told holds faults self.old self.new }
        ensures within { IfOk result (λ n. n ≤ length buf.old) }
        // What a told file gives is what its name holds.
        ensures content { IfOk result (λ n. told self.old ≡ true →
            IsSomeAnd (holds self.old name.now) (λ content. IsRead content at n buf.new)) }
        // A failure is counted at the name that was read.
        ensures failed { OnErr result (Rose (faults self.old name.now) (faults self.new name.now)) };
}
