//! A list that only contracts see: it takes no memory, and its calls do nothing when they run.
ghost use Rattle.std.specs.Prelude.{◌≡◌, ◌++◌, ◌∷◌, [], List};
ghost use Rattle.std.specs.Borrow.{ftrue};

use std::marker::{Model, PhantomData};

/// A list of which nothing is there when it runs. Clauses read its elements as `items`.
pub struct Past<T> {
    of: PhantomData<T>,
    pub ghost items: { List T },
}

impl<T> Model for Past<T> {
    ghost also_owns = { λ _. ftrue };
}

// It owns nothing.
unsafe impl<T: Send> Send for Past<T> {}

unsafe impl<T: Sync> Sync for Past<T> {}

impl<T> Drop for Past<T> {
    fn drop(self) {
        let Self { of: _ } = self;
    }
}

impl<T> Past<T> {
    /// The empty list.
    pub fn new() -> Past<T>
        ensures { result.items ≡ [] }
    {
        Past { of: PhantomData }
    }

    /// The list with one element more.
    fn with(&self, element: &T) -> Past<T>
        ensures { result.items ≡ self.now.items ++ element.now ∷ [] }
    {
        let _ = element;
        Past { of: PhantomData }
    }

    /// Appends an element.
    pub fn push(&mut self, element: &T)
        ensures { self.new.items ≡ self.old.items ++ element.now ∷ [] }
    {
        *self = self.with(element);
    }

    /// Appends elements.
    pub fn extend(&mut self, elements: &[T])
        ensures { self.new.items ≡ self.old.items ++ elements.now }
    {
        for element in elements {
            self.push(element);
        }
    }
}
