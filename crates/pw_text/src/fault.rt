ghost use Rattle.std.specs.Prelude.{◌≡◌};
ghost use Rattle.pw_text.specs.declared.fault.PrintFault.TheVariants as faults;

use pw_base::{Failed, Memory};

/// Why a text wasn't printed whole.
#[derive(Clone, Copy)]
pub enum PrintFault {
    /// The sink failed.
    Sink,
    /// Want of memory.
    Memory,
}

impl From<Failed> for PrintFault {
    ghost from_gives = { λ _ e. e ≡ faults.Sink };

    fn from(_e: Failed) -> PrintFault {
        PrintFault::Sink
    }
}

impl From<Memory> for PrintFault {
    ghost from_gives = { λ _ e. e ≡ faults.Memory };

    fn from(_e: Memory) -> PrintFault {
        PrintFault::Memory
    }
}
