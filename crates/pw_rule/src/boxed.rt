ghost use Rattle.std.specs.Prelude.{◌≡◌, IfErr, IfOk};
ghost use Rattle.std.specs.Borrow.{Lends, sem};

use std::alloc::Global;
use std::marker::Model;

/// A value in a block of its own, that contracts see as the value: what moves is one pointer.
#[derive(Drop)]
pub struct Boxed<T> {
    inner: Box<T>,
}

impl<T> Model for Boxed<T> {
    ghost Value = { T };

    ghost coded = { T.code };

    ghost view = { λ h. h.inner.value };
}

impl<T> Boxed<T> {
    ghost use Rattle.pw_rule.specs.contracts.boxed.Boxed.{the_row};

    /// A value put into a block. Where there is no memory for it, it gives the value back.
    pub fn new(alloc: Global, value: T) -> Result<Boxed<T>, T>
        ensures held { IfOk result (λ h. h ≡ value) }
        ensures given_back { IfErr result (λ back. back ≡ value) }
    {
        match Box::new(alloc, value) {
            Ok(inner) => Ok(Boxed { inner }),
            Err(failed) => Err(failed.value),
        }
    }

    /// The value.
    pub fn get(&self) -> &T
        ensures { result.now ≡ self.now }
    {
        &self.inner
    }

    /// The value, to be changed in its block.
    pub fn get_mut(&mut self) -> &mut T
        ensures* writes_back { sem 𝓛 (Lends (the_row T.row) T.row self.entry result (λ w. w)) }
        ensures value { result.now ≡ self.old }
    {
        &mut self.inner
    }

    /// The value, out of its block.
    pub fn into_inner(self) -> T
        ensures { result ≡ self }
    {
        Box::into_inner(self.inner)
    }
}
