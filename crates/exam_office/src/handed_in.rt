//! A value as an office was handed it.

ghost use Rattle.std.specs.Prelude.{◌≡◌};
ghost use Rattle.std.specs.Borrow.{ftrue};

use std::marker::{Model, PhantomData};

/// A value as it was handed in. Only contracts read it, as `value`; it has no bytes.
#[derive(Drop)]
pub(crate) struct HandedIn<T> {
    marker: PhantomData<T>,
    pub ghost value: { T },
}

impl<T> Model for HandedIn<T> {
    ghost also_owns = { λ _. ftrue };
}

// It owns nothing, so it may be moved to another thread.
unsafe impl<T: Send> Send for HandedIn<T> {}

impl<T> HandedIn<T> {
    pub(crate) fn of(item: &T) -> HandedIn<T>
        ensures { result.value ≡ item.now }
    {
        HandedIn {
            marker: PhantomData,
        }
    }
}
