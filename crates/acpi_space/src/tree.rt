//! The places of a namespace as a tree of names, so that places share what they begin with.

ghost use Rattle.std.specs.Prelude.{◌≡◌, ◌⊎◌, ◌≤◌, ◌<◌, ◌+◌, ◌-◌, ◌^◌, ℕ, [], ◌∷◌, ◌++◌, List as list};
ghost use Rattle.std.specs.Prelude.{length, take, get_or, if◌then◌else◌};
ghost use Rattle.std.specs.Prelude.{Contains, MatchOption, IfOk, IfSome, OnErr, OnOk};
ghost use Rattle.acpi_space.specs.Places.{Place as place, opened, place_of, up};
ghost use Rattle.acpi_space.specs.declared.tree.Name.{Name as name_type};
ghost use Rattle.acpi_space.specs.inner.Trees.{back_of, below, places_in, IsAt, IsClosed, IsGrown, IsNext, IsOrdered};
ghost use Rattle.acpi_space.specs.inner.Trees.{HasNoneFrom, IsLast, IsNearest, IsNowhere, IsRisen, IsTold, key, Knows, Reaches};
ghost use Rattle.acpi_space.specs.Distinct.{IsDistinct};

use aml_data::{FullPath, Path, Seg};
use pw_base::{List, Memory, Room};
use std::alloc::Global;
use std::cmp::Reverse;
use std::collections::BTreeMap;
use std::marker::Model;

/// A name: the number of the place above it, how many segments its place has, and its last one.
#[derive(Clone, Copy)]
pub(crate) struct Name {
    pub(crate) above: usize,
    pub(crate) depth: usize,
    pub(crate) seg: Seg,
    /// So many places right before this one stand above it, each above the next; it may count too few.
    pub(crate) back: u32,
}

/// Places, by their numbers. The root has number 0. Contracts see the list of the places.
#[derive(Drop)]
pub(crate) struct Tree {
    names: Vec<Name>,
    /// From a segment and the place above it to a number. The greatest stand first, since most names rise and
    /// the map looks through a node from its first key on.
    numbers: BTreeMap<Reverse<(Seg, usize)>, usize>,
}

impl Model for Tree {
    ghost use Rattle.std.specs.Prelude.{ℕ, List as list};
    ghost use Rattle.std.specs.Coded.{coded_list, coded_ℕ};

    ghost Value = { list (list (list ℕ)) };

    ghost coded = { coded_list (coded_list (coded_list coded_ℕ)) };

    ghost use Rattle.acpi_space.specs.inner.Trees.{places_in, IsTree};

    ghost view = { λ t. places_in t.names.items };

    ghost invariant = { λ t. IsTree t.names.items t.numbers };
}

impl Tree {
    /// The tree of the root.
    pub(crate) fn new(alloc: Global) -> Tree
        ensures { result ≡ [] ∷ [] }
    {
        Tree {
            names: Vec::new(alloc),
            numbers: BTreeMap::new(alloc),
        }
    }

    /// The place of a segment below a place, where it is one of the tree.
    pub(crate) fn child(&self, at: usize, seg: Seg) -> Option<usize>
        requires { at < length self.now }
        ensures { MatchOption result (Contains self.now (below self.now at seg) → ⊥)
            (λ k. IsAt self.now k (below self.now at seg)) }
    {
        self.numbers.get(&Reverse((seg, at))).copied()
    }

    /// The place above a place, and the segment below that; the root has none.
    pub(crate) fn above(&self, at: usize) -> Option<(usize, Seg)>
        requires { at < length self.now }
        ensures root { MatchOption result (get_or self.now at [] ≡ [])
            (λ a. get_or self.now at [] ≡ below self.now a.0 a.1) }
        ensures less { MatchOption result (at ≡ 0) (λ a. a.0 < at) }
    {
        let names = &self.names;
        if at == 0 {
            return None;
        }
        let name = names[at - 1];
        Some((name.above, name.seg))
    }

    /// How many segments a place has. It takes no memory.
    pub(crate) fn depth(&self, at: usize) -> usize
        requires { at < length self.now }
        ensures { result ≡ length (get_or self.now at []) }
    {
        depth_in(self.names.as_slice(), at)
    }

    /// The place of a segment below a place, mostly one that isn't there yet: the map is looked up but once
    /// for it.
    fn enter(&mut self, at: usize, seg: Seg) -> Result<usize, Memory>
        requires { at < length self.old }
        ensures { IfOk result (λ k. Reaches self.old self.new k (below self.old at seg)) }
    {
        let name = next_name(self.names.as_slice(), at, seg);
        self.names.push(name)?;
        let number = self.names.len();
        match tell(&mut self.numbers, seg, at, number) {
            Ok(None) => Ok(number),
            Ok(Some(known)) => {
                let _ = self.names.pop();
                Ok(known)
            }
            Err(_) => {
                let _ = self.names.pop();
                Err(Memory)
            }
        }
    }

    /// The place of a segment below a place.
    fn step(&mut self, at: usize, seg: Seg) -> Result<usize, Memory>
        requires { at < length self.old }
        ensures { IfOk result (λ k. Reaches self.old self.new k (below self.old at seg)) }
    {
        match self.child(at, seg) {
            Some(number) => Ok(number),
            None => self.enter(at, seg),
        }
    }

    /// The place of segments below a place.
    pub(crate) fn reach(&mut self, at: usize, segs: &[Seg]) -> Result<usize, Memory>
        requires { at < length self.old }
        ensures { IfOk result (λ k. Reaches self.old self.new k (get_or self.old at [] ++ segs.now)) }
    {
        let mut here = at;
        for seg in segs {
            here = self.step(here, *seg)?;
        }
        Ok(here)
    }

    /// The same, where the last segment mostly leads to a place that isn't there yet.
    pub(crate) fn settle(&mut self, at: usize, segs: &[Seg]) -> Result<usize, Memory>
        requires { at < length self.old }
        ensures { IfOk result (λ k. Reaches self.old self.new k (get_or self.old at [] ++ segs.now)) }
    {
        match segs.split_last() {
            None => Ok(at),
            Some((last, before)) => {
                let above = self.reach(at, before)?;
                self.enter(above, *last)
            }
        }
    }

    /// The place so many steps up from a place; above the root it is the root.
    fn up(&self, at: usize, steps: usize) -> usize
        requires { at < length self.now }
        ensures { IsAt self.now result (up steps (get_or self.now at [])) }
    {
        let mut here = at;
        let mut left = steps;
        while left > 0 {
            match self.above(here) {
                Some((above, _)) => here = above,
                None => return here,
            }
            left -= 1;
        }
        here
    }

    /// The place from which a name leads on: the root, or so many steps up from a scope.
    pub(crate) fn start(&self, scope: usize, root: bool, ups: usize) -> usize
        requires { scope < length self.now }
        ensures { IsAt self.now result (if root then [] else up ups (get_or self.now scope [])) }
    {
        self.facts();
        if root {
            return 0;
        }
        self.up(scope, ups)
    }

    /// The place where a name leads from a scope.
    fn touch(&mut self, scope: usize, path: &Path) -> Result<usize, Memory>
        requires { scope < length self.old }
        ensures { IfOk result (λ k. Reaches self.old self.new k
            (place_of (get_or self.old scope []) path.now)) }
    {
        let start = self.start(scope, path.root, path.ups as usize);
        self.reach(start, path.segs.as_slice())
    }

    /// The last place, up to this number, that has the segment below it, and the number of the place there.
    fn last(&self, seg: Seg, most: usize) -> Option<(usize, usize)>
        requires { most < length self.now }
        ensures { MatchOption result (HasNoneFrom self.now seg 0 most) (IsLast self.now seg most) }
    {
        let mut known = self.numbers.range(Reverse((seg, most))..);
        match known.next() {
            None => None,
            Some((key, number)) if key.0.0 == seg => Some((key.0.1, *number)),
            Some(_) => None,
        }
    }

    /// A place above another. Places between the two are passed where their numbers are greater than this
    /// one, so that long paths take few steps.
    fn rise(&self, at: usize, least: usize) -> usize
        requires within { at < length self.now }
        requires some { least < at }
        ensures { IsRisen self.now at least result }
    {
        let names = &self.names;
        let name = names[at - 1];
        let back = name.back as usize;
        if back == 0 {
            return name.above;
        }
        if back < at - least { at - back } else { least }
    }

    /// The place of a segment below a scope, or below the first place above it that has it below.
    pub(crate) fn search(&self, scope: usize, seg: Seg) -> Option<usize>
        requires { scope < length self.now }
        ensures { MatchOption result (IsNowhere self.now (get_or self.now scope []) seg)
            (IsNearest self.now (get_or self.now scope []) seg) }
    {
        self.facts();
        let mut here = scope;
        let Some(mut found) = self.last(seg, here) else {
            return None;
        };
        while found.0 < here {
            here = self.rise(here, found.0);
            if here < found.0 {
                let Some(next) = self.last(seg, here) else {
                    return None;
                };
                found = next;
            }
        }
        Some(found.1)
    }

    /// The place that is found from a scope, where the name is one that is searched.
    fn searched(&self, scope: usize, path: &Path) -> Option<usize>
        requires { scope < length self.now }
        ensures within { IfSome result (λ k. k < length self.now) }
        ensures found { (known : list place) → Knows self.now known
            → MatchOption result
            (opened known (get_or self.now scope []) path.now ≡ place_of (get_or self.now scope []) path.now)
            (λ k. IsAt self.now k (opened known (get_or self.now scope []) path.now)) }
    {
        if path.root || path.ups != 0 {
            return None;
        }
        match path.segs.as_slice() {
            [seg] => self.search(scope, *seg),
            _ => None,
        }
    }

    /// The place that a Scope opens.
    pub(crate) fn open(&mut self, scope: usize, path: &Path) -> Result<usize, Memory>
        requires { scope < length self.old }
        ensures within { IfOk result (λ k. k < length self.new) }
        ensures grown { OnOk result (IsGrown self.old self.new) }
        ensures found { (known : list place) → Knows self.old known
            → IfOk result (λ k. Reaches self.old self.new k
            (opened known (get_or self.old scope []) path.now)) }
    {
        match self.searched(scope, path) {
            Some(number) => Ok(number),
            None => self.touch(scope, path),
        }
    }

    /// The number of a place, where it is one of the tree.
    pub(crate) fn find(&self, segs: &[Seg]) -> Option<usize>
        ensures { MatchOption result (Contains self.now segs.now → ⊥) (λ k. IsAt self.now k segs.now) }
    {
        self.facts();
        let mut here = 0;
        for seg in segs {
            match self.child(here, *seg) {
                Some(number) => here = number,
                None => return None,
            }
        }
        Some(here)
    }

    /// The segments of a place.
    pub(crate) fn path(&self, alloc: Global, at: usize) -> Result<FullPath, Memory>
        requires { at < length self.now }
        ensures { IfOk result (λ p. p.segs ≡ get_or self.now at []) }
    {
        let mut segs = Vec::new(alloc);
        let mut here = at;
        while let Some((above, seg)) = self.above(here) {
            segs.push(seg)?;
            here = above;
        }
        segs.reverse();
        Ok(FullPath {
            segs: List::from_vec(segs),
        })
    }

    /// Fills a buffer with the segments of a place. It takes no memory.
    pub(crate) fn fill(&self, at: usize, path: &mut Room<Seg>)
        requires within { at < length self.now }
        requires room { length (get_or self.now at []) ≤ path.old.capacity }
        ensures { path.new ≡ record path.old { elements = get_or self.now at [] } }
    {
        path.clear();
        let mut here = at;
        while let Some((above, seg)) = self.above(here) {
            path.push(seg);
            here = above;
        }
        path.reverse();
    }

    /// How many places there are.
    pub(crate) fn count(&self) -> usize
        ensures { result ≡ length self.now }
    {
        self.names.len() + 1
    }

    /// What holds of each tree.
    pub(crate) fn facts(&self)
        ensures distinct { IsDistinct self.now }
        ensures closed { IsClosed self.now }
        ensures root { IsAt self.now 0 [] }
        ensures ordered { IsOrdered self.now }
    {
        let _ = &self.names;
    }
}

/// Tells a map a number where it knows none, and else answers the one that it knows.
fn tell(
    map: &mut BTreeMap<Reverse<(Seg, usize)>, usize>,
    seg: Seg,
    at: usize,
    number: usize,
) -> Result<Option<usize>, Memory>
    ensures told { IfOk result (IsTold map.old map.new (key seg at) number) }
    ensures err { OnErr result (map.new.entries ≡ map.old.entries) }
{
    let known = map.insert(Reverse((seg, at)), number)?;
    if let Some(before) = known {
        match map.insert(Reverse((seg, at)), before) {
            Ok(_) => {}
            Err(_) => unreachable!(),
        }
    }
    Ok(known)
}

/// How many segments a place has.
fn depth_in(names: &[Name], at: usize) -> usize
    requires within { at ≤ length names.now }
    requires deep { (i : ℕ) (d : name_type) → i < length names.now
        → (get_or names.now i d).depth ≡ length (get_or (places_in names.now) (i + 1) []) }
    ensures { result ≡ length (get_or (places_in names.now) at []) }
{
    if at == 0 {
        return 0;
    }
    names[at - 1].depth
}

/// How many places right before the next one will stand above it, where that comes below this one.
fn next_back(names: &[Name], at: usize) -> u32
    ensures { (result ≡ 0) ⊎ ((at ≡ length names.now) × (result ≤ back_of names.now at + 1)) }
{
    if at == 0 || at != names.len() {
        return 0;
    }
    names[at - 1].back.saturating_add(1)
}

/// The name of the place that comes next, of a segment below a place.
fn next_name(names: &[Name], at: usize, seg: Seg) -> Name
    requires within { at ≤ length names.now }
    requires small { length (get_or (places_in names.now) at []) ≤ at }
    requires deep { (i : ℕ) (d : name_type) → i < length names.now
        → (get_or names.now i d).depth ≡ length (get_or (places_in names.now) (i + 1) []) }
    ensures above { result.above ≡ at }
    ensures seg { result.seg ≡ seg }
    ensures next { IsNext names.now result }
{
    Name {
        above: at,
        depth: depth_in(names, at) + 1,
        seg,
        back: next_back(names, at),
    }
}
