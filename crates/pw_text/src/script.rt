ghost use Rattle.std.specs.Prelude.{◌≡◌};
ghost use Rattle.pw_text.specs.declared.script.ScriptFault.TheVariants.{Memory as no_memory};
ghost use Rattle.pw_text.specs.Scripts.{too_long};

use crate::lines::count_lines;
use pw_base::Memory;
use std::alloc::{AllocError, AllocFailed};

/// How many bytes a script has at most.
pub const MOST_BYTES: u32 = 4_194_304;

/// How many lines a script has at most, those that ask nothing among them.
pub const MOST_LINES: u32 = 65_536;

/// How many operations may come about by a script at most, with those at the start.
pub const MOST_OPERATIONS: u32 = 1_048_576;

/// Why a line is bad: the first of these that holds.
#[derive(Clone, Copy)]
pub enum LineWhy {
    /// It has no form of a line.
    Grammar,
    /// No processor of the plan has its path.
    Processor,
    /// A number is above 4294967295, or no such notification is handled.
    Number,
}

/// Why bytes are no script.
#[derive(Clone, Copy)]
pub enum ScriptFault {
    /// It has more bytes, more lines or maybe more operations than this.
    TooLong { bound: u32 },
    /// This line is the first bad one; lines are counted from 1.
    Line { number: u32, why: LineWhy },
    /// Want of memory.
    Memory,
}

impl From<Memory> for ScriptFault {
    ghost from_gives = { λ _ e. e ≡ no_memory };

    fn from(_e: Memory) -> ScriptFault {
        ScriptFault::Memory
    }
}

impl From<AllocError> for ScriptFault {
    ghost from_gives = { λ _ e. e ≡ no_memory };

    fn from(_e: AllocError) -> ScriptFault {
        ScriptFault::Memory
    }
}

impl<T: Drop> From<AllocFailed<T>> for ScriptFault {
    ghost from_gives = { λ _ e. e ≡ no_memory };

    fn from(_e: AllocFailed<T>) -> ScriptFault {
        ScriptFault::Memory
    }
}

/// The fault of bytes of which there are too many, or that have too many lines.
pub fn too_long(bytes: &[u8]) -> Option<ScriptFault>
    ensures { result ≡ too_long bytes.now }
{
    if bytes.len() > MOST_BYTES as usize {
        return Some(ScriptFault::TooLong { bound: MOST_BYTES });
    }
    if count_lines(bytes) > MOST_LINES as usize {
        return Some(ScriptFault::TooLong { bound: MOST_LINES });
    }
    None
}
