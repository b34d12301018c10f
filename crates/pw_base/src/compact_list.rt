ghost use Rattle.std.specs.Prelude.{◌≡◌, ◌≤◌, [], length, vec_capacity, IfOk, IfSome};
ghost use Rattle.core.specs.Mem.Slots.{slots_items, slots_ptr, slots_len, IsFull, SamePlaces};
ghost use Rattle.std.specs.Align.{type_align};
ghost use denote.RawPtr.{◌+ₚ◌};

use crate::failure::Memory;
use crate::thin::{Open, Space, Thin, block_bytes, fits};
use core::slots::Slots;
use std::alloc::Global;
use std::marker::Model;

/// A row of elements behind one pointer, in one block with their count, that contracts see as the list of
/// its elements, so that a tree of them is plain data: two are equal exactly where their elements are, to
/// every depth.
pub struct CompactList<T> {
    block: Thin<T, Global>,
    alloc: Global,
}

impl<T> Model for CompactList<T> {
    ghost use Rattle.std.specs.Prelude.{List as list};
    ghost use Rattle.std.specs.Coded.{coded_list};

    ghost Value = { list T };

    ghost coded = { coded_list T.code };

    ghost view = { λ l. l.block.items };
}

// An empty block for as many elements as `like` has.
fn reserve<T>(alloc: &Global, like: &[T]) -> Option<(Slots<T>, Open<T, Global>)>
    requires { type_align T.row ≤ 8 }
    ensures { IfSome result (λ r. (slots_len r.0 ≡ length like.now) × (slots_ptr r.0 ≡ r.1.ptr +ₚ 8)
        × (slots_len r.0 ≡ r.1.len)) }
{
    let len = like.len();
    if !fits::<T>(len) {
        return None;
    }
    let space = Space::new(alloc, len, block_bytes::<T>(len))?;
    Some(space.open(like))
}

// How many elements a long vector gives up before its block shrinks.
const STRETCH: usize = 4096;

// Moves the elements into the slots, the last first. A long vector shrinks meanwhile, so that the two
// together take little more than one of them.
fn fill<T>(slots: &mut Slots<T>, mut items: Vec<T>)
    requires { slots_len slots.old ≡ length items.items }
    ensures { IsFull slots.new × (slots_items slots.new ≡ items.items) × SamePlaces slots.old slots.new }
{
    while let Some(item) = items.pop() {
        let left = items.len();
        slots.put(left, item);
        if left > 0 && left % STRETCH == 0 {
            items.shrink_to_fit();
        }
    }
    items.destroy_empty();
}

// Moves the elements out of the slots, the first first.
fn pour<T>(slots: &mut Slots<T>, items: &mut Vec<T>)
    requires full { IsFull slots.old }
    requires empty { items.old.items ≡ [] }
    requires room { slots_len slots.old ≤ vec_capacity items.old }
    ensures items { items.new.items ≡ slots_items slots.old }
    ensures places { SamePlaces slots.old slots.new }
{
    let mut i = 0;
    while i < slots.len() {
        items.push_reserved(slots.take(i));
        i += 1;
    }
}

// Drops each value, the first first.
fn drop_all<T: Drop>(slots: &mut Slots<T>)
    requires { IsFull slots.old }
    ensures { SamePlaces slots.old slots.new }
{
    let mut i = 0;
    while i < slots.len() {
        drop(slots.take(i));
        i += 1;
    }
}

impl<T> CompactList<T> {
    /// The elements, in order.
    pub fn as_slice(&self) -> &[T]
        ensures { result.now ≡ self.now }
    {
        self.block.as_slice()
    }
}

impl<T: Copy> CompactList<T> {
    /// The elements of a slice, copied.
    pub fn from_slice(alloc: Global, items: &[T]) -> Result<CompactList<T>, Memory>
        requires { type_align T.row ≤ 8 }
        ensures { IfOk result (λ list. list ≡ items.now) }
    {
        let Some((mut slots, open)) = reserve(&alloc, items) else {
            return Err(Memory);
        };
        slots.copy_in(0, items);
        let block = open.close(slots);
        Ok(CompactList { block, alloc })
    }
}

impl<T: Drop> CompactList<T> {
    /// The elements of a vector, in their order.
    pub fn from_vec(alloc: Global, items: Vec<T>) -> Result<CompactList<T>, Memory>
        requires { type_align T.row ≤ 8 }
        ensures { IfOk result (λ list. list ≡ items.items) }
    {
        let Some((mut slots, open)) = reserve(&alloc, items.as_slice()) else {
            return Err(Memory);
        };
        fill(&mut slots, items);
        let block = open.close(slots);
        Ok(CompactList { block, alloc })
    }

    /// The elements as a vector, in their order.
    pub fn into_vec(self) -> Result<Vec<T>, Memory>
        ensures { IfOk result (λ items. items.items ≡ self) }
    {
        let mut items = Vec::with_capacity(self.alloc, self.as_slice().len())?;
        let CompactList { block, alloc } = self;
        let (mut slots, open) = block.open();
        pour(&mut slots, &mut items);
        let len = slots.len();
        let space = open.empty(slots);
        space.free(&alloc, block_bytes::<T>(len));
        Ok(items)
    }
}

impl<T: Drop> Drop for CompactList<T> {
    fn drop(self) {
        let CompactList { block, alloc } = self;
        let (mut slots, open) = block.open();
        drop_all(&mut slots);
        let len = slots.len();
        let space = open.empty(slots);
        space.free(&alloc, block_bytes::<T>(len));
    }
}
