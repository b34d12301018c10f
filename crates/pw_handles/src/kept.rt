ghost use Rattle.std.specs.Prelude.{◌≡◌};

use pw_embed::{Cppc, Endless, Machine, Seat};
use std::alloc::Global;
use std::mem::replace;

/// What a handle is open for.
#[derive(Drop)]
pub enum Kept {
    /// What no open handle has.
    Nothing,
    Machine(Machine),
    Seat(Seat),
    Endless(Endless),
    Cppc(Cppc),
}

impl Kept {
    ghost use Rattle.pw_handles.specs.Handled.{has_begun};

    /// Whether it is a seat that has begun a request.
    pub fn has_begun(&self) -> bool
        ensures { result ≡ has_begun self.now }
    {
        match self {
            Kept::Endless(seat) => seat.is_begun(),
            _ => false,
        }
    }
}

/// Puts this in place of what is kept, which is dropped by a call, since that has many ways.
pub(crate) fn put_in(kept: &mut Kept, next: Kept)
    ensures { kept.new ≡ next }
{
    drop(replace(kept, next));
}

/// A box for what a handle is to keep.
pub(crate) fn empty_box(alloc: Global) -> Option<Box<Kept, Global>> {
    Box::new(alloc, Kept::Nothing).ok()
}

/// The box with this in it.
pub(crate) fn with(mut room: Box<Kept, Global>, kept: Kept) -> Box<Kept, Global>
    ensures { result.value ≡ kept }
{
    put_in(&mut room, kept);
    room
}
