ghost use Rattle.std.specs.Prelude.{◌≡◌, ◌⊎◌, ◌≤◌, ◌<◌, [], ◌∷◌, ◌++◌, length, map, get_or, Contains, IfOk, IfErr, MatchOption};
ghost use Rattle.std.specs.List.{All, Any};
ghost use Rattle.acpi_space.specs.Distinct.{IsDistinct};
ghost use Rattle.acpi_space.specs.Namespace.{Entry as entry_of, entries_in, places_of};
ghost use Rattle.acpi_space.specs.Lookup.{label_around};
ghost use Rattle.acpi_space.specs.Standing.{AreObjects, IsFaultIn, IsFound};
ghost use Rattle.acpi_space.specs.inner.Standing.{entries_at, IsIndex};

use crate::blocks::place_blocks;
use crate::building::{Building, number_at};
use crate::fault::SpaceFault;
use crate::labels::{around_places, at_objects};
use crate::object::Placed;
use crate::tree::Tree;
use aml_block::Block;
use aml_data::{FullPath, Seg};
use pw_base::{Memory, Room};
use std::alloc::Global;
use std::marker::Model;

/// The objects that blocks place in the namespace, in the order of the blocks and within a block in its
/// order (ACPI 6.5, 5.3). Contracts see the list of the objects with their full paths. Places share the
/// names that they begin with, so that the memory of a space grows with the bytes of its blocks, however
/// long the paths are. Its data objects are those of the blocks, which aren't copied.
#[derive(Drop)]
pub struct Space<'a> {
    tree: Tree,
    placed: Vec<Placed<'a>>,
    index: Vec<Option<usize>>,
}

impl<'a> Model for Space<'a> {
    ghost use Rattle.std.specs.Prelude.{List as list};
    ghost use Rattle.acpi_space.specs.Namespace.{Entry};

    ghost Value = { list Entry };

    ghost use Rattle.std.specs.Coded.{codes};
    ghost use Rattle.aml_data.specs.contracts.data.Data as data_of;

    ghost coded = { Prim.hlevel (codes, data_of.the_row.coded) };

    ghost use Rattle.acpi_space.specs.inner.Standing.{entries_at, IsIndex};

    ghost view = { λ s. entries_at s.tree s.placed.items };

    ghost invariant = { λ s. IsIndex s.tree s.placed.items s.index.items };
}

/// The object that stands at a place.
fn object_at<'s, 'a>(
    tree: &Tree,
    placed: &'s [Placed<'a>],
    index: &[Option<usize>],
    name: usize,
) -> Option<&'s Placed<'a>>
    requires indexed { IsIndex tree.now placed.now index.now }
    requires distinct { IsDistinct tree.now }
    requires within { name < length tree.now }
    ensures { MatchOption result
        (Contains (places_of (entries_at tree.now placed.now)) (get_or tree.now name []) → ⊥)
        (λ p. IsFound (entries_at tree.now placed.now) (get_or tree.now name []) p.now) }
{
    match number_at(index, name) {
        Some(number) => Some(&placed[number]),
        None => None,
    }
}

impl<'a> Space<'a> {
    /// Places the objects of blocks. `Twice` names the first place that is given a second object.
    pub fn build(alloc: Global, blocks: &'a [Block]) -> Result<Space<'a>, SpaceFault>
        ensures placed { IfOk result (λ space. space ≡ entries_in blocks.now) }
        ensures distinct { IfOk result (λ space. IsDistinct (places_of space)) }
        ensures fault { IfErr result (λ f. IsFaultIn f blocks.now) }
    {
        let Building {
            tree,
            placed,
            index,
            passed: _passed,
        } = place_blocks(alloc, blocks)?;
        Ok(Space {
            tree,
            placed,
            index,
        })
    }

    /// The object that is placed at a full path. It takes no memory.
    pub fn find(&self, path: &FullPath) -> Option<&Placed<'a>>
        ensures { MatchOption result (Contains (places_of self.now) path.now.segs → ⊥)
            (λ p. IsFound self.now path.now.segs p.now) }
    {
        self.tree.facts();
        match self.tree.find(path.segs.as_slice()) {
            Some(name) => object_at(
                &self.tree,
                self.placed.as_slice(),
                self.index.as_slice(),
                name,
            ),
            None => None,
        }
    }

    /// The object that is placed at a segment below the object at a place of the list. It takes no memory.
    pub fn find_below(&self, index: usize, seg: Seg) -> Option<&Placed<'a>>
        requires { index < length self.now }
        ensures { (d : entry_of) → MatchOption result
            (Contains (places_of self.now) ((get_or self.now index d).path ++ seg ∷ []) → ⊥)
            (λ p. IsFound self.now ((get_or self.now index d).path ++ seg ∷ []) p.now) }
    {
        self.tree.facts();
        let above = &self.placed[index];
        match self.tree.child(above.name, seg) {
            Some(name) => object_at(
                &self.tree,
                self.placed.as_slice(),
                self.index.as_slice(),
                name,
            ),
            None => None,
        }
    }

    /// The objects, in their order.
    pub fn placed(&self) -> &[Placed<'a>]
        ensures objects { AreObjects self.now result.now }
        ensures distinct { IsDistinct (places_of self.now) }
    {
        self.tree.facts();
        self.placed.as_slice()
    }

    /// The full path of the object at a place of the list.
    pub fn path(&self, alloc: Global, index: usize) -> Result<FullPath, Memory>
        requires { index < length self.now }
        ensures { IfOk result (λ p. (d : entry_of) → p.segs ≡ (get_or self.now index d).path) }
    {
        let placed = &self.placed[index];
        self.tree.path(alloc, placed.name)
    }

    /// Fills a buffer with the full path of the object at a place of the list. It takes no memory.
    pub fn fill_path(&self, index: usize, path: &mut Room<Seg>)
        requires within { index < length self.now }
        requires room { (d : entry_of) → length (get_or self.now index d).path ≤ path.old.capacity }
        ensures { (d : entry_of) → path.new ≡ record path.old { elements = (get_or self.now index d).path } }
    {
        let placed = &self.placed[index];
        self.tree.fill(placed.name, path);
    }

    /// How many segments the full path of the object at a place of the list has. It takes no memory.
    pub fn path_length(&self, index: usize) -> usize
        requires { index < length self.now }
        ensures { (d : entry_of) → result ≡ length (get_or self.now index d).path }
    {
        let placed = &self.placed[index];
        self.tree.depth(placed.name)
    }

    /// How many segments the longest full path of its objects has; 0 for no objects. It takes no memory.
    pub fn longest_path(&self) -> usize
        ensures bound { All (λ (e : entry_of). length e.path ≤ result) self.now }
        ensures attained { (result ≡ 0) ⊎ Any (λ (e : entry_of). length e.path ≡ result) self.now }
    {
        let mut longest = 0;
        for placed in &self.placed {
            longest = longest.max(self.tree.depth(placed.name));
        }
        longest
    }

    /// Of each object, the label of the innermost object around it that has one. The work grows with the
    /// places that are known, however many objects have labels.
    pub fn labels_around(
        &self,
        alloc: Global,
        labels: &[Option<u32>],
    ) -> Result<Vec<Option<u32>>, Memory>
        requires { length labels.now ≡ length self.now }
        ensures { IfOk result
            (λ r. r.items ≡ map (λ (e : entry_of). label_around self.now labels.now e.path) self.now) }
    {
        self.tree.facts();
        let around = around_places(
            alloc,
            &self.tree,
            self.placed.as_slice(),
            self.index.as_slice(),
            labels,
        )?;
        at_objects(alloc, self.placed.as_slice(), around.as_slice())
    }
}
