//! A list that only contracts read.

ghost use Rattle.std.specs.Prelude.{◌≡◌, List, [], ◌∷◌, ◌++◌};
ghost use Rattle.std.specs.Borrow.{ftrue};

use std::marker::{Model, PhantomData};

/// A list that only contracts read, as `items`. It has no bytes, and its functions do nothing at
/// run time.
#[derive(Drop)]
pub struct Log<T> {
    of: PhantomData<T>,
    pub ghost items: { List T },
}

impl<T> Model for Log<T> {
    ghost also_owns = { λ _. ftrue };
}

// A log owns nothing, so it may be moved to another thread.
unsafe impl<T: Send> Send for Log<T> {}

impl<T> Log<T> {
    pub(crate) fn new() -> Log<T>
        ensures { result.items ≡ [] }
    {
        Log { of: PhantomData }
    }

    pub(crate) fn and(&self, item: &T) -> Log<T>
        ensures { result.items ≡ self.now.items ++ item.now ∷ [] }
    {
        Log { of: PhantomData }
    }
}
