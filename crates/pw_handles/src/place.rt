//! A box as C keeps it.
ghost use Rattle.std.specs.Prelude.{◌≡◌, Bool, true, false};
ghost use Rattle.std.specs.Borrow.{sem};
ghost use Rattle.pw_handles.specs.declared.kept.Kept.{Kept};
ghost use Rattle.pw_handles.specs.Handles.{held, kept_coded};

use crate::kept::Kept;
use crate::parts::Parts;
use std::alloc::Global;
use std::marker::Model;
use std::ptr::null_mut;

/// A pointer that is null in a closed handle, and else that of a box of this library.
#[repr(C)]
pub struct Place {
    at: *mut u8,
    pub ghost full: { Bool },
    pub ghost value: { Kept } by { kept_coded },
}

impl Model for Place {
    ghost also_owns = { λ h. held h.full h.at h.value };
}

impl Place {
    ghost use Rattle.pw_handles.specs.Lending.{LendsPlace};

    fn of_parts(parts: Parts<Kept, Global>) -> Place
        ensures { (result.full ≡ true) × (result.value ≡ parts.value) }
    {
        let Parts { ptr, alloc: _ } = parts;
        Place { at: ptr as *mut u8 }
    }

    fn into_parts(self, alloc: Global) -> Parts<Kept, Global>
        requires { self.full ≡ true }
        ensures { result.value ≡ self.value }
    {
        let Place { at } = self;
        Parts {
            ptr: at as *mut Kept,
            alloc,
        }
    }

    /// A place that owns nothing.
    pub(crate) fn empty() -> Place
        ensures { result.full ≡ false }
    {
        Place { at: null_mut() }
    }

    /// A place that owns what was in the box.
    pub(crate) fn of(kept: Box<Kept, Global>) -> Place
        ensures { (result.full ≡ true) × (result.value ≡ kept.value) }
    {
        Place::of_parts(Parts::of(kept))
    }

    /// What it owns, in its box.
    pub(crate) fn into_box(self, alloc: Global) -> Box<Kept, Global>
        requires { self.full ≡ true }
        ensures { result.value ≡ self.value }
    {
        self.into_parts(alloc).into_box()
    }

    /// What it owns, where it lies.
    pub(crate) fn get_mut(&mut self) -> &mut Kept
        requires { self.old.full ≡ true }
        ensures* writes_back { sem 𝓛 (LendsPlace self.entry result) }
        ensures value { result.now ≡ self.old.value }
    {
        unsafe { &mut *(self.at as *mut Kept) }
    }
}

/// It lets go of what it owns, which is lost.
impl Drop for Place {
    fn drop(self) {
        let Place { at: _ } = self;
    }
}

/// It owns what it points to, and nobody else reaches that.
unsafe impl Send for Place {}
