ghost use Rattle.std.specs.Prelude.{◌≡◌, ◌<◌, ◌≤◌, ◌^◌, length, IfOk, IsTrue};
ghost use Rattle.aml_data.specs.inner.Reading.{Gives, Tells};
ghost use Rattle.aml_block.specs.Opcodes.{is_holder};
ghost use Rattle.aml_block.specs.inner.Fronts.{with_terms, registers_at, head_at};

use crate::opcode::{DEVICE_OP, SCOPE_OP};
use crate::parts::{read_double, read_named};
use crate::term::Term;
use aml_data::{DataFault, Path, byte_of, name_of};
use pw_base::{CompactList, List, Memory};
use std::alloc::Global;

/// What stands in front of the terms that a term holds.
#[derive(Drop)]
pub(crate) enum Front {
    Scope {
        path: Path,
    },
    Device {
        path: Path,
    },
    Processor {
        path: Path,
        id: u8,
        block: u32,
        length: u8,
    },
}

impl Front {
    /// The term that holds these terms.
    pub(crate) fn holding(self, alloc: Global, terms: List<Term>) -> Result<Term, Memory>
        ensures { IfOk result (λ term. term ≡ with_terms self terms) }
    {
        match self {
            Front::Scope { path } => Ok(Term::Scope { path, terms }),
            Front::Device { path } => Ok(Term::Device { path, terms }),
            Front::Processor {
                path,
                id,
                block,
                length,
            } => {
                let terms = CompactList::from_vec(alloc, terms.into_vec())?;
                Ok(Term::Processor {
                    path,
                    id,
                    block,
                    length,
                    terms,
                })
            }
        }
    }
}

/// The registers of a Processor, which stand behind its name, and the bytes after them.
fn read_registers(bytes: &[u8], end: usize) -> Result<((u8, u32, u8), &[u8]), DataFault>
    ensures value { Tells (λ x. ((x.0.0, (x.0.1, x.0.2)), x.1.now)) result (registers_at end bytes.now) }
    ensures shorter { IfOk result (λ x. length x.1.now < length bytes.now) }
{
    let (id, rest) = byte_of(bytes, end)?;
    let (block, rest) = read_double(rest, end)?;
    let (length, rest) = byte_of(rest, end)?;
    Ok(((id, block, length), rest))
}

/// What stands in front of the terms that a term of this opcode holds, and the bytes after it: a name, for
/// a Device one with a segment, and for a Processor its registers too (ACPI 6.5, 20.2.5.1 and 20.2.5.2;
/// ACPI 5.1, 20.2.5.2).
#[tactic(auto, unfolding(crate::specs::inner::Fronts::head_at))]
pub(crate) fn read_front(
    alloc: Global,
    opcode: u16,
    bytes: &[u8],
    end: usize,
) -> Result<(Front, &[u8]), DataFault>
    requires opcode { IsTrue (is_holder opcode) }
    requires within { length bytes.now ≤ end }
    requires small { end < 2 ^ 32 }
    ensures value { Gives (λ x. (with_terms x.0, x.1.now)) result (head_at opcode end bytes.now) }
    ensures shorter { IfOk result (λ x. length x.1.now < length bytes.now) }
{
    match opcode {
        SCOPE_OP => {
            let (path, rest) = name_of(alloc, bytes, end)?;
            Ok((Front::Scope { path }, rest))
        }
        DEVICE_OP => {
            let (path, rest) = read_named(alloc, bytes, end)?;
            Ok((Front::Device { path }, rest))
        }
        _ => {
            let (path, rest) = read_named(alloc, bytes, end)?;
            let ((id, block, length), rest) = read_registers(rest, end)?;
            let front = Front::Processor {
                path,
                id,
                block,
                length,
            };
            Ok((front, rest))
        }
    }
}
