ghost use Rattle.std.specs.Prelude.{◌≢◌, ◌<◌, ◌≤◌, ◌-◌, ◌^◌, List as list, length, Ok, Err, IsTrue, IfOk, IfErr};
ghost use Rattle.aml_block.specs.Opcodes.{is_holder};
ghost use Rattle.aml_block.specs.declared.term.Term.{Term as term_type};
ghost use Rattle.aml_block.specs.declared.term_fault.TermFault.{TermFault as fault_type};
ghost use Rattle.aml_block.specs.declared.term_fault.TermFault.TheVariants.{Data};
ghost use Rattle.aml_data.specs.declared.fault.DataFault.TheVariants.{Memory};
ghost use Rattle.aml_block.specs.Grammar.{TermsSpell};
ghost use Rattle.aml_block.specs.TermFaults.{TermsFail};
ghost use Rattle.aml_block.specs.inner.TermReading.{Gives, holder_at, behind_opcode};
ghost use Rattle.aml_block.specs.inner.TermReading.{within, term_within, terms_within, terms_at};

use crate::front::read_front;
use crate::opcode::{
    ALIAS_OP, DEVICE_OP, EVENT_OP, EXTERNAL_OP, MUTEX_OP, NAME_OP, OP_REGION_OP, PROCESSOR_OP,
    SCOPE_OP, keeps_body, read_opcode,
};
use crate::plain::{
    read_alias, read_event, read_external, read_mutex, read_name_term, read_region, read_unread,
};
use crate::term::{DEEPEST, Term};
use crate::term_fault::TermFault;
use aml_data::{DataFault, window_of};
use pw_base::List;
use std::alloc::Global;

/// A term of this opcode, which holds terms, and the bytes after it. Its opcode stands at `at`, and
/// `depth` levels may be opened, its own among them (ACPI 6.5, 20.2.5.1 and 20.2.5.2).
#[cycle(terms)]
#[tactic(auto, unfolding(crate::specs::inner::TermReading::holder_at, crate::specs::inner::TermReading::within))]
fn read_holder(
    alloc: Global,
    opcode: u16,
    bytes: &[u8],
    at: usize,
    end: usize,
    depth: u32,
) -> Result<(Term, &[u8]), TermFault>
    requires opcode { IsTrue (is_holder opcode) }
    requires within { length bytes.now ≤ end }
    requires small { end < 2 ^ 32 }
    ensures value { Gives (λ x. (x.0, x.1.now)) result (holder_at (within depth) opcode at end bytes.now) }
    ensures shorter { IfOk result (λ x. length x.1.now < length bytes.now) }
{
    if depth == 0 {
        return Err(TermFault::Data(DataFault::TooDeep { at }));
    }
    let (inside, after) = window_of(bytes, end)?;
    let end = end - after.len();
    let (front, inside) = read_front(alloc, opcode, inside, end)?;
    let terms = read_terms(alloc, inside, end, depth - 1)?;
    Ok((front.holding(alloc, terms)?, after))
}

/// A term of this opcode, which stands at `at`, from the bytes behind the opcode, and the bytes after
/// it (ACPI 6.5, 20.2.5).
#[cycle(terms)]
#[tactic(auto, unfolding(crate::specs::inner::TermReading::behind_opcode))]
fn read_behind(
    alloc: Global,
    opcode: u16,
    bytes: &[u8],
    at: usize,
    end: usize,
    depth: u32,
) -> Result<(Term, &[u8]), TermFault>
    requires within { length bytes.now ≤ end }
    requires small { end < 2 ^ 32 }
    ensures value { Gives (λ x. (x.0, x.1.now)) result
        (behind_opcode (within depth) opcode at end bytes.now) }
    ensures shorter { IfOk result (λ x. length x.1.now < length bytes.now) }
{
    match opcode {
        NAME_OP => read_name_term(alloc, bytes, end),
        ALIAS_OP => read_alias(alloc, bytes, end),
        EXTERNAL_OP => read_external(alloc, bytes, end),
        MUTEX_OP => read_mutex(alloc, bytes, end),
        EVENT_OP => read_event(alloc, bytes, end),
        OP_REGION_OP => read_region(alloc, bytes, end),
        SCOPE_OP | DEVICE_OP | PROCESSOR_OP => read_holder(alloc, opcode, bytes, at, end, depth),
        _ => {
            if keeps_body(opcode) {
                return read_unread(alloc, opcode, bytes, end);
            }
            Err(TermFault::BadTerm { at, opcode })
        }
    }
}

/// The term that stands first, nesting at most so deep, and the bytes after it.
#[cycle(terms)]
#[tactic(auto, unfolding(crate::specs::inner::TermReading::term_by))]
fn read_term(
    alloc: Global,
    bytes: &[u8],
    end: usize,
    depth: u32,
) -> Result<(Term, &[u8]), TermFault>
    requires within { length bytes.now ≤ end }
    requires small { end < 2 ^ 32 }
    ensures value { Gives (λ x. (x.0, x.1.now)) result (term_within depth end bytes.now) }
    ensures shorter { IfOk result (λ x. length x.1.now < length bytes.now) }
{
    let (opcode, rest) = read_opcode(bytes, end)?;
    read_behind(alloc, opcode, rest, end - bytes.len(), end, depth)
}

/// Terms to the end of the bytes, each nesting at most so deep.
#[cycle(terms)]
fn read_terms(alloc: Global, bytes: &[u8], end: usize, depth: u32) -> Result<List<Term>, TermFault>
    requires within { length bytes.now ≤ end }
    requires small { end < 2 ^ 32 }
    ensures { Gives (λ x. x) result (terms_within depth end bytes.now) }
{
    let mut terms = Vec::new(alloc);
    let mut rest = bytes;
    while !rest.is_empty() {
        let (term, after) = read_term(alloc, rest, end, depth)?;
        terms.push(term)?;
        rest = after;
    }
    terms.shrink_to_fit();
    Ok(List::from_vec(terms))
}

/// The terms that the bytes spell, all of the bytes. `end` is the place where the bytes end
/// (ACPI 6.5, 20.2.5).
#[tactic(auto, unfolding(crate::specs::inner::TermReading::terms_at))]
pub fn terms_of(alloc: Global, bytes: &[u8], end: usize) -> Result<List<Term>, TermFault>
    requires within { length bytes.now ≤ end }
    requires small { end < 2 ^ 32 }
    // What is read is spelled by the bytes.
    ensures found { IfOk result (λ terms. TermsSpell terms bytes.now) }
    // What the bytes spell is read, unless memory runs out.
    ensures only { (terms : list term_type) → TermsSpell terms bytes.now → Gives (λ x. x) result (Ok terms) }
    // Otherwise it is the first fault.
    ensures fault { IfErr result (λ f. f ≢ Data Memory → TermsFail end bytes.now f) }
    // The first fault is answered, unless memory runs out before it is met.
    ensures refused { (f : fault_type) → TermsFail end bytes.now f → Gives (λ x. x) result (Err f) }
    // It is what reading from left to right gives.
    ensures reads { Gives (λ x. x) result (terms_at end bytes.now) }
{
    read_terms(alloc, bytes, end, DEEPEST)
}
