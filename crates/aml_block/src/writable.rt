ghost use Rattle.std.specs.Prelude.{◌≡◌, ◌<◌, ◌^◌, ◌↔◌, IsTrue};
ghost use Rattle.aml_data.specs.Written.{IsWritablePath};
ghost use Rattle.aml_block.specs.Layouts.{HasSegment};
ghost use Rattle.aml_block.specs.WrittenTerms.{AreWritable, AreWritableTerms, IsWritableTerm};

use crate::opcode::keeps_body;
use crate::term::{DEEPEST, Term};
use aml_data::{Path, is_writable, is_writable_name};

/// Whether a name can be written, and has a segment.
fn is_writable_named(path: &Path) -> bool
    ensures { IsTrue result ↔ (IsWritablePath path.now × HasSegment path.now) }
{
    is_writable_name(path) && !path.segs.as_slice().is_empty()
}

/// Whether an address can be written, as each can: contracts see it without a bound.
fn is_address(address: u32) -> bool
    ensures value { IsTrue result }
    ensures bound { address < 2 ^ 32 }
{
    let _address = address;
    true
}

/// Whether a number can be written, as each can: contracts see it without a bound.
fn is_number(number: u64) -> bool
    ensures value { IsTrue result }
    ensures bound { number < 2 ^ 64 }
{
    let _number = number;
    true
}

/// Whether a term in which `depth` levels may be opened can be written, but for its length.
#[cycle(writable)]
fn is_writable_term(term: &Term, depth: u32) -> bool
    ensures { IsTrue result ↔ IsWritableTerm depth term.now }
{
    match term {
        Term::Name { path, value } => is_writable_named(path) && is_writable(value),
        Term::Scope { path, terms } => {
            is_writable_name(path) && are_writable(terms.as_slice(), depth)
        }
        Term::Device { path, terms } => {
            is_writable_named(path) && are_writable(terms.as_slice(), depth)
        }
        Term::Processor {
            path,
            block,
            terms,
            ..
        } => {
            is_writable_named(path) && is_address(*block) && are_writable(terms.as_slice(), depth)
        }
        Term::Unread { opcode, .. } => keeps_body(*opcode),
        Term::Alias { source, alias } => is_writable_name(source) && is_writable_named(alias),
        Term::External { path, .. } => is_writable_name(path),
        Term::Mutex { path, .. } => is_writable_name(path),
        Term::Event { path } => is_writable_name(path),
        Term::Region {
            path,
            offset,
            length,
            ..
        } => is_writable_name(path) && is_number(*offset) && is_number(*length),
    }
}

/// Whether the terms in a term that is one of `depth` levels that may be opened can be written, but for
/// their length.
#[cycle(writable)]
fn are_writable(terms: &[Term], depth: u32) -> bool
    ensures { IsTrue result ↔ AreWritable depth terms.now }
{
    if depth == 0 {
        return false;
    }
    for term in terms {
        if !is_writable_term(term, depth - 1) {
            return false;
        }
    }
    true
}

/// Whether terms can be written, but for their length: each data object can be, each name has at most
/// 255 segments and no steps up from the root, that of a Name, a Device, a Processor and of the alias
/// of an Alias has a segment, Scope, Device and Processor nest at most 32 deep, and each opcode whose
/// body isn't read is one of them (ACPI 6.5, 20.2.5). It takes no memory.
#[tactic(auto, unfolding(crate::specs::WrittenTerms::AreWritable))]
pub fn is_writable_terms(terms: &[Term]) -> bool
    ensures { IsTrue result ↔ AreWritableTerms terms.now }
{
    are_writable(terms, DEEPEST + 1)
}
