ghost use Rattle.std.specs.Prelude.{◌≡◌, nat_eq, true, false, MatchOption};
ghost use Rattle.std.specs.Borrow.{sem};

use crate::kept::Kept;
use crate::place::Place;
use pw_embed::Status;
use std::alloc::Global;
use std::mem::replace;

/// The mark of a handle that is open.
const OPEN: u64 = 0x5945_514F_5045_4E21;

/// What a caller keeps: all 0 before it is opened, and once it is closed.
#[repr(C)]
#[derive(Drop)]
pub struct Handle {
    mark: u64,
    pub place: Place,
    ghost agrees: { place.full ≡ nat_eq mark 0x5945_514F_5045_4E21 },
}

impl Handle {
    ghost use Rattle.pw_handles.specs.Handled.{Closes, LeftBy, Opened};
    ghost use Rattle.pw_handles.specs.Lending.{LendsHandle};

    fn empty() -> Handle
        ensures { result.place.full ≡ false }
    {
        Handle {
            mark: 0,
            place: Place::empty(),
        }
    }

    /// Whether it is open.
    pub fn is_open(&self) -> bool
        ensures { result ≡ self.now.place.full }
    {
        self.mark == OPEN
    }

    /// What an open handle keeps, where it lies.
    pub(crate) fn kept(&mut self) -> &mut Kept
        requires { self.old.place.full ≡ true }
        ensures* writes_back { sem 𝓛 (LendsHandle self.entry result) }
        ensures value { result.now ≡ self.old.place.value }
    {
        self.place.get_mut()
    }

    /// What an open handle has. It is closed then.
    pub(crate) fn take(&mut self, alloc: Global) -> Option<Box<Kept, Global>>
        ensures taken { MatchOption result (self.old.place.full ≡ false)
            (λ kept. (self.old.place.full ≡ true) × (self.old.place.value ≡ kept.value)) }
        ensures closed { self.new.place.full ≡ false }
    {
        let Handle { mark, place } = replace(self, Handle::empty());
        if mark == OPEN {
            Some(place.into_box(alloc))
        } else {
            None
        }
    }

    /// Opens a handle for what is in the box.
    pub(crate) fn put(&mut self, kept: Box<Kept, Global>)
        ensures { (self.new.place.full ≡ true) × (self.new.place.value ≡ kept.value) }
    {
        *self = Handle {
            mark: OPEN,
            place: Place::of(kept),
        };
    }

    /// Opens a closed handle for this, where there is memory for its box.
    #[tactic(auto, unfolding(crate::specs::Handled::Filled))]
    pub(crate) fn fill(&mut self, alloc: Global, kept: Kept) -> Status
        requires { self.old.place.full ≡ false }
        ensures { Opened self.old self.new result (λ k. k ≡ kept) }
    {
        match Box::new(alloc, kept) {
            Ok(kept) => {
                self.put(kept);
                Status::Done
            }
            Err(failed) => {
                drop(failed);
                Status::NoMemory
            }
        }
    }

    /// Opens a closed handle again for what it had, unless another has that now.
    #[tactic(auto, unfolding(crate::specs::Handled::LeftBy))]
    pub(crate) fn put_left(&mut self, kept: Box<Kept, Global>, status: Status)
        requires { self.old.place.full ≡ false }
        ensures { LeftBy status kept.value self.new.place.full self.new.place.value }
    {
        match status {
            Status::Done => drop(kept),
            _ => self.put(kept),
        }
    }

    /// Closes it, and gives back all that it has, unless it is a seat that has begun a request.
    #[tactic(auto, unfolding(crate::specs::Handled::ClosedBy))]
    pub fn close(&mut self, alloc: Global) -> Status
        ensures { Closes self.old self.new result }
    {
        let Some(kept) = self.take(alloc) else {
            return Status::Closed;
        };
        if kept.has_begun() {
            self.put(kept);
            return Status::Begun;
        }
        drop(kept);
        Status::Done
    }
}

fn crosses<T: Send>(_handle: &T) {}

/// A handle may be passed to another thread.
pub fn handles_cross(handle: &Handle) {
    crosses(handle);
}
