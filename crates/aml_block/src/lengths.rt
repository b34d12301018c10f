ghost use Rattle.std.specs.Prelude.{◌≡◌, ◌+◌, ◌<◌, ◌≤◌, ◌^◌, length, min, IsTrue};
ghost use Rattle.aml_data.specs.Written.{written_length};
ghost use Rattle.aml_block.specs.Opcodes.{is_unread, opcode_bytes};
ghost use Rattle.aml_block.specs.WrittenTerms.{written_term, written_terms};
ghost use Rattle.aml_block.specs.WrittenTerms.{AreWritable, AreWritableTerms, IsWritableTerm};

use crate::term::{DEEPEST, Term};
use aml_data::limits::TOO_LONG;
use aml_data::{constant_len, length_len, name_len, written_len};

/// How many bytes an opcode has.
fn opcode_len(opcode: u16) -> u64
    requires { IsTrue (is_unread opcode) }
    ensures value { result ≡ length (opcode_bytes opcode) }
    ensures small { result ≤ 2 }
{
    if opcode < 0x100 { 1 } else { 2 }
}

/// How many bytes a term has, whose content follows an opcode and a PkgLength.
fn sized_len(opcode: u64, content: u64) -> u64
    requires opcode { opcode ≤ 2 }
    requires content { content + 6 < 2 ^ 64 }
    ensures { result ≡ min (2 ^ 28) (opcode + length (written_length content) + content) }
{
    TOO_LONG.min(opcode + length_len(content) + content)
}

/// How many bytes the written form of a term has, in which `depth` levels may be opened.
#[cycle(lengths)]
#[tactic(auto, using(crate::proofs::TermLengths::lengths))]
fn term_len(term: &Term, depth: u32) -> u64
    requires { IsWritableTerm depth term.now }
    ensures { result ≡ min (2 ^ 28) (length (written_term term.now)) }
{
    match term {
        Term::Name { path, value } => TOO_LONG.min(1 + name_len(path) + written_len(value)),
        Term::Scope { path, terms } => {
            sized_len(1, name_len(path) + terms_len(terms.as_slice(), depth))
        }
        Term::Device { path, terms } => {
            sized_len(2, name_len(path) + terms_len(terms.as_slice(), depth))
        }
        Term::Processor { path, terms, .. } => {
            sized_len(2, name_len(path) + 6 + terms_len(terms.as_slice(), depth))
        }
        Term::Unread { opcode, body } => {
            sized_len(opcode_len(*opcode), body.as_slice().len() as u64)
        }
        Term::Alias { source, alias } => TOO_LONG.min(1 + name_len(source) + name_len(alias)),
        Term::External { path, .. } => TOO_LONG.min(3 + name_len(path)),
        Term::Mutex { path, .. } => TOO_LONG.min(3 + name_len(path)),
        Term::Event { path } => TOO_LONG.min(2 + name_len(path)),
        Term::Region {
            path,
            offset,
            length,
            ..
        } => TOO_LONG.min(3 + name_len(path) + constant_len(*offset) + constant_len(*length)),
    }
}

/// How many bytes the written forms of the terms in a term have together, counted up to `TOO_LONG`.
#[cycle(lengths)]
fn terms_len(terms: &[Term], depth: u32) -> u64
    requires { AreWritable depth terms.now }
    ensures { result ≡ min (2 ^ 28) (length (written_terms terms.now)) }
{
    let mut total = 0;
    for term in terms {
        total += term_len(term, depth - 1);
        if total >= TOO_LONG {
            return TOO_LONG;
        }
    }
    total
}

/// How many bytes the written forms of terms have together, counted up to 2 ^ 28. It takes no memory.
#[tactic(auto, unfolding(crate::specs::WrittenTerms::AreWritable))]
pub fn written_terms_len(terms: &[Term]) -> u64
    requires { AreWritableTerms terms.now }
    ensures { result ≡ min (2 ^ 28) (length (written_terms terms.now)) }
{
    terms_len(terms, DEEPEST + 1)
}
