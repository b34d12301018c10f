//! Going through the terms of blocks.

ghost use Rattle.std.specs.Prelude.{◌≡◌, ◌≢◌, ◌<◌, ◌≤◌, ℕ, true, false, [], ◌∷◌, ◌++◌, List, length, take, get_or, replicate, OnOk, IfOk, MatchOption};
ghost use Rattle.aml_data.specs.declared.opcode.TheConstants.{PARENT_PREFIX_CHAR, ROOT_CHAR};
ghost use Rattle.aml_data.specs.declared.path.Path.{Path as path_type};
ghost use Rattle.acpi_space.specs.declared.terms.TheConstants.{LONGEST};
ghost use Rattle.acpi_space.specs.MethodNames.{IsMethodName};
ghost use Rattle.acpi_space.specs.Steps.{method_steps, never_runs, unread_steps, steps_of, steps_in};
ghost use Rattle.acpi_space.specs.inner.Naming.{named_by, path_of};
ghost use Rattle.acpi_space.specs.inner.Trees.{IsGrown};
ghost use Rattle.acpi_space.specs.inner.Standing.{Does};

use crate::building::Building;
use crate::fault::SpaceFault;
use crate::object::Object;
use aml_block::Term;
use aml_block::opcode::{IF_OP, METHOD_OP};
use aml_data::opcode::{PARENT_PREFIX_CHAR, ROOT_CHAR, ZERO_OP};
use aml_data::{DataFault, Seg, Width, name_of};
use pw_base::{CompactList, Memory};
use std::alloc::Global;

/// No name without steps up has more bytes: the root, a prefix, a count and 255 segments (ACPI 6.5, 20.2.2).
const LONGEST: usize = 1023;

/// The name of a method. It may lead up so many steps that no `Path` counts them.
#[derive(Drop)]
struct MethodName {
    root: bool,
    ups: usize,
    segs: CompactList<Seg>,
}

/// How many bytes 5E stand in front, and the bytes after them.
fn steps_up(body: &[u8]) -> (usize, &[u8])
    ensures parts { body.now ≡ replicate result.0 PARENT_PREFIX_CHAR ++ result.1.now }
    ensures end { (rest : List ℕ) → result.1.now ≡ PARENT_PREFIX_CHAR ∷ rest → ⊥ }
{
    let mut ups = 0;
    let mut rest = body;
    while let [PARENT_PREFIX_CHAR, after @ ..] = rest {
        ups += 1;
        rest = after;
    }
    (ups, rest)
}

/// Whether a root stands behind steps up, as in no name.
fn is_root_behind(ups: usize, rest: &[u8]) -> bool
    ensures yes { result ≡ true → (0 < ups) × ((more : List ℕ) × (rest.now ≡ ROOT_CHAR ∷ more)) }
    ensures no { result ≡ false → 0 < ups → (more : List ℕ) → rest.now ≡ ROOT_CHAR ∷ more → ⊥ }
{
    if ups == 0 {
        return false;
    }
    match rest {
        [ROOT_CHAR, _more @ ..] => true,
        _ => false,
    }
}

/// As many bytes as a name has at most.
fn front_of(body: &[u8]) -> &[u8]
    ensures value { result.now ≡ take LONGEST body.now }
    ensures small { length result.now ≤ LONGEST }
{
    if body.len() <= LONGEST {
        body
    } else {
        &body[..LONGEST]
    }
}

/// A name isn't read for what the bytes are, or for want of memory.
fn unless_memory(fault: DataFault) -> Result<(), Memory>
    ensures { IfOk result (λ _. fault ≢ DataFault.Memory) }
{
    match fault {
        DataFault::Memory => Err(Memory),
        _ => Ok(()),
    }
}

/// The name that the body of a method begins with, where it has a segment. A body has any length, and is
/// read no further than the name may go.
fn name_of_method(alloc: Global, body: &[u8]) -> Result<Option<MethodName>, Memory>
    ensures { IfOk result (λ name. MatchOption name ((path : path_type) → IsMethodName body.now path → ⊥)
        (λ m. IsMethodName body.now (path_of m))) }
{
    let (ups, rest) = steps_up(body);
    if is_root_behind(ups, rest) {
        return Ok(None);
    }
    let front = front_of(rest);
    match name_of(alloc, front, front.len()) {
        Ok((path, _)) => {
            if path.segs.as_slice().is_empty() {
                return Ok(None);
            }
            Ok(Some(MethodName {
                root: path.root,
                ups,
                segs: path.segs,
            }))
        }
        Err(fault) => {
            unless_memory(fault)?;
            Ok(None)
        }
    }
}

/// Places a method where its body begins with a name.
fn place_method<'a>(
    alloc: Global,
    building: &mut Building<'a>,
    body: &[u8],
    scope: usize,
    width: Width,
) -> Result<(), SpaceFault>
    requires { scope < length building.old.tree }
    ensures grown { OnOk result (IsGrown building.old.tree building.new.tree) }
    ensures done { Does building.old result building.new
        (λ _. method_steps width (get_or building.old.tree scope []) (named_by body.now)) }
{
    match name_of_method(alloc, body)? {
        Some(name) => {
            let start = building.tree.start(scope, name.root, name.ups);
            building.put_below(alloc, start, name.segs.as_slice(), Object::Method, width)?;
            Ok(())
        }
        None => Ok(()),
    }
}

/// Whether what is in a term of this opcode and body is never run: in an If whose predicate is `Zero`.
fn never_runs(opcode: u16, body: &[u8]) -> bool
    ensures { result ≡ never_runs opcode body.now }
{
    match body.first() {
        Some(byte) => opcode == IF_OP && *byte == ZERO_OP,
        None => false,
    }
}

/// Goes through a term whose body isn't read, in a scope.
fn place_unread<'a>(
    alloc: Global,
    building: &mut Building<'a>,
    opcode: u16,
    body: &[u8],
    scope: usize,
    width: Width,
) -> Result<(), SpaceFault>
    requires { scope < length building.old.tree }
    ensures grown { OnOk result (IsGrown building.old.tree building.new.tree) }
    ensures done { Does building.old result building.new
        (λ _. unread_steps width (get_or building.old.tree scope []) opcode body.now) }
{
    if opcode == METHOD_OP {
        return place_method(alloc, building, body, scope, width);
    }
    if never_runs(opcode, body) {
        return Ok(());
    }
    building.pass(scope, opcode)
}

/// Goes through a term in a scope.
#[cycle(terms)]
fn place_term<'a>(
    alloc: Global,
    building: &mut Building<'a>,
    term: &'a Term,
    scope: usize,
    width: Width,
) -> Result<(), SpaceFault>
    requires { scope < length building.old.tree }
    ensures grown { OnOk result (IsGrown building.old.tree building.new.tree) }
    ensures done { Does building.old result building.new
        (steps_of width term.now (get_or building.old.tree scope [])) }
{
    match term {
        Term::Name { path, value } => {
            building.put(alloc, scope, path, Object::Data(value), width)?;
            Ok(())
        }
        Term::Scope { path, terms } => {
            let at = building.open(scope, path)?;
            place_terms(alloc, building, terms.as_slice(), at, width)
        }
        Term::Device { path, terms } => {
            let at = building.put(alloc, scope, path, Object::Device, width)?;
            place_terms(alloc, building, terms.as_slice(), at, width)
        }
        Term::Processor { path, terms, .. } => {
            let at = building.put(alloc, scope, path, Object::Processor, width)?;
            place_terms(alloc, building, terms.as_slice(), at, width)
        }
        Term::Unread { opcode, body } => {
            place_unread(alloc, building, *opcode, body.as_slice(), scope, width)
        }
        Term::Alias { source, alias } => {
            building.put(alloc, scope, alias, Object::Alias(source), width)?;
            Ok(())
        }
        Term::External { .. } => Ok(()),
        Term::Mutex { .. } => Ok(()),
        Term::Event { .. } => Ok(()),
        Term::Region { .. } => Ok(()),
    }
}

/// Goes through terms in a scope, in their order.
#[cycle(terms)]
pub(crate) fn place_terms<'a>(
    alloc: Global,
    building: &mut Building<'a>,
    terms: &'a [Term],
    scope: usize,
    width: Width,
) -> Result<(), SpaceFault>
    requires { scope < length building.old.tree }
    ensures grown { OnOk result (IsGrown building.old.tree building.new.tree) }
    ensures done { Does building.old result building.new
        (steps_in width terms.now (get_or building.old.tree scope [])) }
{
    for term in terms {
        place_term(alloc, building, term, scope, width)?;
    }
    Ok(())
}
