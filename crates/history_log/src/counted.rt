//! A list of which the number is kept.

ghost use Rattle.std.specs.Prelude.{◌≡◌, ◌+◌, ◌^◌, ◌<◌, [], ◌∷◌, ◌++◌, length};

use crate::log::Log;
use std::fmt;
use std::marker::Model;

/// A list, which contracts see as such; at run time it is the number of its elements.
#[derive(Drop)]
pub struct Counted<T> {
    count: u64,
    log: Log<T>,
}

impl<T> Model for Counted<T> {
    ghost use Rattle.std.specs.Prelude.{◌≡◌, List, length};

    ghost Value = { List T };

    ghost view = { λ c. c.log.items };

    ghost invariant = { λ c. c.count ≡ length c.log.items };
}

impl<T> Counted<T> {
    /// The empty list.
    pub fn new() -> Counted<T>
        // Promise: Contracts see the values that were pushed, in order; at run time there is only
        // their number
        // - of `Counted::new`, `Counted::push`, `Counted::count`
        ensures { result ≡ [] }
    {
        Counted {
            count: 0,
            log: Log::new(),
        }
    }

    /// The number of its elements.
    pub fn count(&self) -> u64
        ensures { result ≡ length self.now }
    {
        self.count
    }

    /// Adds an element at its end, of which no memory keeps a copy.
    pub fn push(&mut self, item: &T)
        requires { length self.old + 1 < 2 ^ 64 }
        ensures { self.new ≡ self.old ++ item.now ∷ [] }
    {
        self.log = self.log.and(item);
        self.count += 1;
    }
}

impl<T> fmt::Debug for Counted<T> {
    fn fmt<W: fmt::Write>(&self, f: &mut fmt::Formatter<W>) -> fmt::Result {
        write!(f, "{} elements", self.count)
    }
}
