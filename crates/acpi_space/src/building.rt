//! What stands while the terms of blocks are gone through.

ghost use Rattle.std.specs.Prelude.{◌≡◌, ◌<◌, [], ◌∷◌, ◌++◌, List, length, get_or, IfOk, OnOk};
ghost use Rattle.acpi_space.specs.Places.{place_of, opened};
ghost use Rattle.acpi_space.specs.Steps.{Step as step_of, opens, gives, passes, touched};
ghost use Rattle.acpi_space.specs.Things.{thing};
ghost use Rattle.acpi_space.specs.inner.Trees.{IsAt, IsGrown};
ghost use Rattle.acpi_space.specs.inner.Standing.{Does, IsNoted, StandsIn, told_at};

use crate::fault::SpaceFault;
use crate::object::{Object, Placed};
use crate::passed::Passed;
use crate::tree::Tree;
use aml_data::{Path, Seg, Width};
use pw_base::Memory;
use std::alloc::Global;

/// The places that are known, what is placed so far, which object stands at a place, and what was passed
/// over.
#[derive(Drop)]
pub(crate) struct Building<'a> {
    pub(crate) tree: Tree,
    pub(crate) placed: Vec<Placed<'a>>,
    pub(crate) index: Vec<Option<usize>>,
    pub(crate) passed: Vec<Passed>,
}

impl<'a> Building<'a> {
    /// Nothing is placed yet.
    pub(crate) fn new(alloc: Global) -> Building<'a>
        ensures { StandsIn result [] }
    {
        Building {
            tree: Tree::new(alloc),
            placed: Vec::new(alloc),
            index: Vec::new(alloc),
            passed: Vec::new(alloc),
        }
    }

    /// Places an object where a name leads from a scope.
    pub(crate) fn put(
        &mut self,
        alloc: Global,
        scope: usize,
        path: &Path,
        object: Object<'a>,
        width: Width,
    ) -> Result<usize, SpaceFault>
        requires { scope < length self.old.tree }
        ensures grown { OnOk result (IsGrown self.old.tree self.new.tree) }
        ensures here { IfOk result (λ k. IsAt self.new.tree k
            (place_of (get_or self.old.tree scope []) path.now)) }
        ensures done { Does self.old result self.new
            (λ _. gives width (place_of (get_or self.old.tree scope []) path.now) (thing object.entry) ∷ []) }
    {
        let start = self.tree.start(scope, path.root, path.ups as usize);
        self.put_below(alloc, start, path.segs.as_slice(), object, width)
    }

    /// Places an object at segments below a place.
    pub(crate) fn put_below(
        &mut self,
        alloc: Global,
        start: usize,
        segs: &[Seg],
        object: Object<'a>,
        width: Width,
    ) -> Result<usize, SpaceFault>
        requires { start < length self.old.tree }
        ensures grown { OnOk result (IsGrown self.old.tree self.new.tree) }
        ensures here { IfOk result (λ k. IsAt self.new.tree k (get_or self.old.tree start [] ++ segs.now)) }
        ensures done { Does self.old result self.new
            (λ _. gives width (get_or self.old.tree start [] ++ segs.now) (thing object.entry) ∷ []) }
    {
        let name = self.tree.settle(start, segs)?;
        self.tree.facts();
        if number_at(self.index.as_slice(), name).is_some() {
            let path = self.tree.path(alloc, name)?;
            return Err(SpaceFault::Twice { path });
        }
        let index = self.placed.len();
        self.placed.push(Placed {
            name,
            index,
            object,
            width,
        })?;
        note(&mut self.index, name, index)?;
        Ok(name)
    }

    /// Opens the place that a Scope names.
    pub(crate) fn open(&mut self, scope: usize, path: &Path) -> Result<usize, SpaceFault>
        requires { scope < length self.old.tree }
        ensures within { IfOk result (λ k. k < length self.new.tree) }
        ensures here { (before : List step_of) → StandsIn self.old before
            → IfOk result (λ k. IsAt self.new.tree k
            (opened (touched before) (get_or self.old.tree scope []) path.now)) }
        ensures grown { OnOk result (IsGrown self.old.tree self.new.tree) }
        ensures done { Does self.old result self.new
            (λ before. opens (opened (touched before) (get_or self.old.tree scope []) path.now) ∷ []) }
    {
        let name = self.tree.open(scope, path)?;
        self.tree.facts();
        Ok(name)
    }

    /// Passes over a term of this opcode in a scope.
    pub(crate) fn pass(&mut self, scope: usize, opcode: u16) -> Result<(), SpaceFault>
        requires { scope < length self.old.tree }
        ensures grown { OnOk result (IsGrown self.old.tree self.new.tree) }
        ensures done { Does self.old result self.new
            (λ _. passes (get_or self.old.tree scope []) opcode ∷ []) }
    {
        self.tree.facts();
        self.passed.push(Passed {
            name: scope,
            opcode,
        })?;
        Ok(())
    }
}

/// The object that stands at a place.
pub(crate) fn number_at(index: &[Option<usize>], place: usize) -> Option<usize>
    ensures { result ≡ told_at index.now place }
{
    match index.get(place) {
        Some(number) => *number,
        None => None,
    }
}

/// Notes which object stands at a place.
fn note(index: &mut Vec<Option<usize>>, place: usize, number: usize) -> Result<(), Memory>
    ensures { OnOk result (IsNoted index.old.items index.new.items place number) }
{
    while index.len() <= place {
        index.push(None)?;
    }
    index[place] = Some(number);
    Ok(())
}
