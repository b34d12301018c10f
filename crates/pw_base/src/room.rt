ghost use Rattle.std.specs.Prelude.{◌≡◌, ◌↔◌, IsTrue, ◌+◌, ◌≤◌, ◌<◌, ◌++◌, ◌∷◌, [], length, reverse, IfOk};

use crate::failure::Memory;
use std::alloc::Global;
use std::marker::Model;

/// A list with room: it takes memory for its whole capacity when it is made, and none later.
/// Contracts see its elements and its capacity.
#[derive(Drop)]
pub struct Room<T> {
    list: Vec<T>,
    room: usize,
}

impl<T> Model for Room<T> {
    ghost use Rattle.std.specs.Prelude.{◌≤◌, vec_len, vec_capacity};
    ghost use Rattle.pw_base.specs.Room.{Bounded};

    ghost Value = { Bounded T };

    ghost view = { λ r. record { elements = r.list.items; capacity = r.room } };

    ghost invariant = { λ r. (vec_len r.list ≤ r.room) × (r.room ≤ vec_capacity r.list) };
}

impl<T> Room<T> {
    /// An empty list with room for so many elements.
    pub fn new(alloc: Global, capacity: usize) -> Result<Room<T>, Memory>
        ensures { IfOk result (λ r. r ≡ record { elements = []; capacity = capacity }) }
    {
        Ok(Room {
            list: Vec::with_capacity(alloc, capacity)?,
            room: capacity,
        })
    }

    /// How many elements there are.
    pub fn len(&self) -> usize
        ensures value { result ≡ length self.now.elements }
        ensures within { length self.now.elements ≤ self.now.capacity }
    {
        self.list.len()
    }

    /// Whether there is no element.
    pub fn is_empty(&self) -> bool
        ensures { IsTrue result ↔ length self.now.elements ≡ 0 }
    {
        self.list.is_empty()
    }

    /// How many elements it may have.
    pub fn capacity(&self) -> usize
        ensures value { result ≡ self.now.capacity }
        ensures within { length self.now.elements ≤ self.now.capacity }
    {
        self.room
    }

    /// How many more elements there is room for.
    pub fn spare(&self) -> usize
        ensures { length self.now.elements + result ≡ self.now.capacity }
    {
        self.room - self.list.len()
    }

    /// The elements, in order.
    pub fn as_slice(&self) -> &[T]
        ensures { result.now ≡ self.now.elements }
    {
        self.list.as_slice()
    }

    /// Puts the elements in the opposite order. It takes no memory.
    pub fn reverse(&mut self)
        ensures { self.new ≡ record self.old { elements = reverse self.old.elements } }
    {
        self.list.reverse();
    }

    /// Puts an element at the end. It takes no memory.
    pub fn push(&mut self, item: T)
        requires { length self.old.elements < self.old.capacity }
        ensures { self.new ≡ record self.old { elements = self.old.elements ++ item ∷ [] } }
    {
        self.list.push_reserved(item);
    }
}

impl<T: Copy> Room<T> {
    /// Puts elements at the end, in their order. It takes no memory.
    pub fn extend_from_slice(&mut self, items: &[T])
        requires { length self.old.elements + length items.now ≤ self.old.capacity }
        ensures { self.new ≡ record self.old { elements = self.old.elements ++ items.now } }
    {
        match self.list.extend_from_slice(items) {
            Ok(()) => {}
            Err(_) => unreachable!(),
        }
    }
}

impl<T: Drop> Room<T> {
    /// Lets all elements go. It keeps the room.
    pub fn clear(&mut self)
        ensures { self.new ≡ record self.old { elements = [] } }
    {
        self.list.clear();
    }
}
