//! Which objects are containers and processors, in which order, and which container is around each.

ghost use Rattle.std.specs.Prelude.{◌≡◌, ◌<◌, ℕ, length, map, filter, position, nat_eq, slice_index_or};
ghost use Rattle.std.specs.Prelude.{if◌then◌else◌, Some, None, IfOk, IfSome};
ghost use Rattle.std.specs.List.{All, range_with_len};
ghost use Rattle.std.specs.Option.{option_map, option_or};
ghost use Rattle.acpi_build.specs.Finding.{containers_of, has_id};
ghost use Rattle.acpi_build.specs.Finding.{is_container, is_processor, is_text, place_below};
ghost use Rattle.acpi_build.specs.Finding.{numbers_of, processors_of};
ghost use Rattle.acpi_build.specs.inner.Fitting.{AreParents};
ghost use Rattle.acpi_build.specs.inner.Labels.{container_labels};
ghost use Rattle.acpi_space.specs.Things.{thing};
ghost use Rattle.pw_plan.specs.Limits.{in_32_bits as cut};
ghost use Rattle.acpi_space.specs.Lookup.{entry_in, number_at};

use crate::depths::sort_by_depth;
use crate::names::Name;
use acpi_space::{Object, Placed, Space};
use aml_data::Data;
use pw_base::Memory;
use pw_plan::in_32_bits;
use std::alloc::Global;

/// Whether an object is this text itself.
fn holds_text(object: Object, text: &[u8]) -> bool
    ensures { result ≡ is_text text.now (thing object.entry) }
{
    match object {
        Object::Data(data) => match data {
            Data::Text(found) => found.as_slice() == text,
            Data::Int(_)
            | Data::Ones
            | Data::Revision
            | Data::Buffer(_)
            | Data::Package { .. }
            | Data::VarPackage(_)
            | Data::Path(_) => false,
        },
        Object::Device | Object::Processor | Object::Method | Object::Alias(_) => false,
    }
}

/// The object of this number.
pub(crate) fn object_in<'s, 'a>(space: &'s Space<'a>, index: usize) -> &'s Placed<'a>
    requires { index < length space.now }
    ensures { thing result.now.object ≡ (entry_in space.now index).object }
{
    &space.placed()[index]
}

/// How many objects there are.
fn count(space: &Space) -> usize
    ensures { result ≡ length space.now }
{
    space.placed().len()
}

/// The object at a name right below an object. It takes no memory.
pub(crate) fn object_below<'s, 'a>(
    space: &'s Space<'a>,
    index: usize,
    name: Name,
) -> Option<&'s Placed<'a>>
    requires { index < length space.now }
    ensures number { option_map (λ p. p.now.index) result
        ≡ number_at space.now (place_below space.now index name) }
    ensures object { IfSome result (λ p. thing p.now.object ≡ (entry_in space.now p.now.index).object) }
    ensures width { IfSome result (λ p. p.now.width ≡ (entry_in space.now p.now.index).width) }
{
    let _objects = space.placed();
    space.find_below(index, name.segment())
}

/// Whether the `_HID` of an object is this text (ACPI 6.5, 6.1.5).
fn has_hid(space: &Space, index: usize, text: &[u8]) -> bool
    requires { index < length space.now }
    ensures { result ≡ has_id space.now text.now index }
{
    match object_below(space, index, Name::Hid) {
        Some(placed) => holds_text(placed.object, text),
        None => false,
    }
}

/// Whether it is a container: a device with this `_HID`.
fn is_container_device(space: &Space, index: usize) -> bool
    requires { index < length space.now }
    ensures { result ≡ is_container space.now index }
{
    match object_in(space, index).object {
        Object::Device => has_hid(space, index, b"ACPI0010"),
        Object::Data(_) | Object::Processor | Object::Method | Object::Alias(_) => false,
    }
}

/// Whether it is a processor: a device with this `_HID`, or one that is declared by a term of its own.
fn is_processor_object(space: &Space, index: usize) -> bool
    requires { index < length space.now }
    ensures { result ≡ is_processor space.now index }
{
    match object_in(space, index).object {
        Object::Device => has_hid(space, index, b"ACPI0007"),
        Object::Processor => true,
        Object::Data(_) | Object::Method | Object::Alias(_) => false,
    }
}

/// The numbers of the processors, in order.
#[tactic(auto, using(crate::proofs::Orders::range_more), unfolding(crate::specs::Finding::processors_of))]
pub(crate) fn processors(alloc: Global, space: &Space) -> Result<Vec<usize>, Memory>
    ensures { IfOk result (λ r. r.items ≡ processors_of space.now) }
{
    let mut found = Vec::new(alloc);
    for number in 0..count(space) {
        if is_processor_object(space, number) {
            found.push(number)?;
        }
    }
    Ok(found)
}

/// The numbers of the containers, in the order of the objects.
#[tactic(auto, using(crate::proofs::Orders::range_more))]
fn unsorted(alloc: Global, space: &Space) -> Result<Vec<usize>, Memory>
    ensures order { IfOk result (λ r. r.items ≡ filter (is_container space.now) (numbers_of space.now)) }
    ensures within { IfOk result (λ r. All (λ k. k < length space.now) r.items) }
{
    let mut found = Vec::new(alloc);
    for number in 0..count(space) {
        if is_container_device(space, number) {
            found.push(number)?;
        }
    }
    Ok(found)
}

/// The numbers of the containers, by how many segments their paths have, and in the order of the
/// objects where that is equal.
#[tactic(auto, unfolding(crate::specs::Finding::containers_of))]
pub(crate) fn containers(alloc: Global, space: &Space) -> Result<Vec<usize>, Memory>
    ensures { IfOk result (λ r. r.items ≡ containers_of space.now) }
{
    let found = unsorted(alloc, space)?;
    sort_by_depth(alloc, space, found.as_slice())
}

/// Labels an object that has no label.
fn put_label(labels: &mut Vec<Option<u32>>, at: usize, number: usize)
    requires { at < length labels.old.items }
    ensures many { length labels.new.items ≡ length labels.old.items }
    ensures each { (q : ℕ) → slice_index_or labels.new.items q None
        ≡ option_or (slice_index_or labels.old.items q None)
        (if nat_eq q at then Some (cut number) else None) }
{
    if labels[at].is_none() {
        labels[at] = Some(in_32_bits(number));
    }
}

/// Of each object, its number as a container.
fn labels(alloc: Global, count: usize, order: &[usize]) -> Result<Vec<Option<u32>>, Memory>
    requires { All (λ k. k < count) order.now }
    ensures { IfOk result (λ r. r.items
        ≡ map (λ k. option_map cut (position (nat_eq k) order.now)) (range_with_len 0 count)) }
{
    let mut labels = Vec::new(alloc);
    for _ in 0..count {
        labels.push(None)?;
    }
    for (number, at) in order.iter().enumerate() {
        put_label(&mut labels, *at, number);
    }
    Ok(labels)
}

/// Of each object, the number of the container around it.
#[tactic(auto, unfolding(crate::specs::inner::Labels::container_labels))]
pub(crate) fn parents(
    alloc: Global,
    space: &Space,
    order: &[usize],
) -> Result<Vec<Option<u32>>, Memory>
    requires order { order.now ≡ containers_of space.now }
    requires within { All (λ k. k < length space.now) order.now }
    ensures { IfOk result (λ r. AreParents space.now r.items) }
{
    let _objects = space.placed();
    let labels = labels(alloc, count(space), order)?;
    space.labels_around(alloc, labels.as_slice())
}
