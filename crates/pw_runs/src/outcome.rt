ghost use Rattle.std.specs.Prelude.{◌≡◌, ◌≢◌, ◌⊎◌, Some, None};

use pw_turns::Sealed;

/// How a run ended.
///
/// | status | comes |
/// |---|---|
/// | 0 | all is done and written |
/// | 1 | the blocks are refused |
/// | 2 | the words are refused |
/// | 3 | a file can't be read |
/// | 4 | the output can't be written |
/// | 5 | a register failed |
/// | 6 | want of memory |
/// | 7 | the script is refused |
/// | 8 | the history is refused |
#[derive(Drop)]
pub struct Outcome<R> {
    /// The exit status of the program.
    pub status: u8,
    /// The registers that were handed to it.
    pub regs: R,
    /// What the coordinator of this run gave at its closing. It is `Some` exactly where the command is
    /// `drive` without `--serial` or `generate`, the status is 0 or 5, and no operation at the start
    /// failed.
    pub sealed: Option<Sealed>,
}

/// What is handed on of a coordinator that is closed, where its run ends with this status.
pub fn handed_on(status: u8, sealed: Sealed) -> Option<Sealed>
    ensures given { (status ≡ 0) ⊎ (status ≡ 5) → result ≡ Some sealed }
    ensures unended { status ≢ 0 → status ≢ 5 → result ≡ None }
{
    match status {
        0 | 5 => Some(sealed),
        _ => {
            drop(sealed);
            None
        }
    }
}
