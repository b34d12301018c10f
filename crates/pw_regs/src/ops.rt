ghost use Rattle.std.specs.Prelude.{◌≡◌, ◌<◌, ◌+◌, ◌∷◌, ◌++◌, [], length, IfOk};

use acpi_values::Op;
use pw_base::{Memory, Room};
use std::alloc::Global;
use std::marker::Model;

/// A list of operations with a capacity: it takes memory when it is made, and none later. Contracts
/// see its operations and its capacity.
#[derive(Drop)]
pub struct Ops {
    room: Room<Op>,
}

impl Model for Ops {
    ghost use Rattle.std.specs.Prelude.{◌<◌, ◌^◌};
    ghost use Rattle.acpi_values.specs.declared.operation.Op.{Op as operation};
    ghost use Rattle.pw_base.specs.Room.{Bounded};

    ghost Value = { Bounded operation };

    ghost view = { λ o. o.room };

    ghost invariant = { λ o. o.room.capacity < 2 ^ 32 };
}

impl Ops {
    /// An empty list with room for so many operations.
    pub fn new(alloc: Global, capacity: u32) -> Result<Ops, Memory>
        ensures { IfOk result (λ ops. ops ≡ record { elements = []; capacity = capacity }) }
    {
        Ok(Ops {
            room: Room::new(alloc, capacity as usize)?,
        })
    }

    /// How many more operations there is room for.
    pub fn spare(&self) -> u32
        ensures { length self.now.elements + result ≡ self.now.capacity }
    {
        self.room.spare() as u32
    }

    /// Lets all operations go. It keeps the room.
    pub fn clear(&mut self)
        ensures { self.new ≡ record self.old { elements = [] } }
    {
        self.room.clear();
    }

    /// The operations, in order.
    pub fn list(&self) -> &[Op]
        ensures { result.now ≡ self.now.elements }
    {
        self.room.as_slice()
    }

    /// Puts an operation at the end.
    pub fn push(&mut self, op: Op)
        requires { length self.old.elements < self.old.capacity }
        ensures { self.new ≡ record self.old { elements = self.old.elements ++ op ∷ [] } }
    {
        self.room.push(op);
    }
}
