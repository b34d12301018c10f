//! Of each place, the label of the innermost labelled object around it.

ghost use Rattle.std.specs.Prelude.{◌≡◌, ◌<◌, ℕ, [], None, length, map, get_or, IfOk};
ghost use Rattle.acpi_space.specs.Lookup.{label_around, label_at};
ghost use Rattle.acpi_space.specs.declared.object.Placed.{Placed as placed_of};
ghost use Rattle.acpi_space.specs.inner.Standing.{entries_at, IsIndex};

use crate::building::number_at;
use crate::object::Placed;
use crate::tree::Tree;
use pw_base::Memory;
use std::alloc::Global;

/// The label of the object at a place.
fn label_of(
    tree: &Tree,
    placed: &[Placed],
    index: &[Option<usize>],
    labels: &[Option<u32>],
    at: usize,
) -> Option<u32>
    requires indexed { IsIndex tree.now placed.now index.now }
    requires at { at < length tree.now }
    requires labels { length labels.now ≡ length placed.now }
    ensures { result ≡ label_at (entries_at tree.now placed.now) labels.now (get_or tree.now at []) }
{
    tree.facts();
    match number_at(index, at) {
        Some(number) => labels[number],
        None => None,
    }
}

/// The label of the innermost labelled object around a place, by those of the places before it.
fn around_place(
    tree: &Tree,
    placed: &[Placed],
    index: &[Option<usize>],
    labels: &[Option<u32>],
    around: &[Option<u32>],
    at: usize,
) -> Option<u32>
    requires indexed { IsIndex tree.now placed.now index.now }
    requires labels { length labels.now ≡ length placed.now }
    requires at { at < length tree.now }
    requires many { length around.now ≡ at }
    requires each { (q : ℕ) → q < at → get_or around.now q None
        ≡ label_around (entries_at tree.now placed.now) labels.now (get_or tree.now q []) }
    ensures { result ≡ label_around (entries_at tree.now placed.now) labels.now (get_or tree.now at []) }
{
    match tree.above(at) {
        Some((above, _)) => match label_of(tree, placed, index, labels, above) {
            Some(label) => Some(label),
            None => around[above],
        },
        None => None,
    }
}

/// Of each place, the label of the innermost labelled object around it.
pub(crate) fn around_places(
    alloc: Global,
    tree: &Tree,
    placed: &[Placed],
    index: &[Option<usize>],
    labels: &[Option<u32>],
) -> Result<Vec<Option<u32>>, Memory>
    requires indexed { IsIndex tree.now placed.now index.now }
    requires labels { length labels.now ≡ length placed.now }
    ensures many { IfOk result (λ r. length r.items ≡ length tree.now) }
    ensures each { IfOk result (λ r. (q : ℕ) → q < length tree.now → get_or r.items q None
        ≡ label_around (entries_at tree.now placed.now) labels.now (get_or tree.now q [])) }
{
    let mut around = Vec::new(alloc);
    for at in 0..tree.count() {
        let label = around_place(tree, placed, index, labels, around.as_slice(), at);
        around.push(label)?;
    }
    Ok(around)
}

/// What is said of the places of objects.
pub(crate) fn at_objects(
    alloc: Global,
    placed: &[Placed],
    around: &[Option<u32>],
) -> Result<Vec<Option<u32>>, Memory>
    requires { (i : ℕ) (d : placed_of) → i < length placed.now
        → (get_or placed.now i d).name < length around.now }
    ensures { IfOk result (λ r. r.items ≡ map (λ (p : placed_of). get_or around.now p.name None) placed.now) }
{
    let mut result = Vec::new(alloc);
    for placed in placed {
        result.push(around[placed.name])?;
    }
    Ok(result)
}
