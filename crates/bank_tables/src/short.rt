//! A short list of numbers.

ghost use Rattle.std.specs.Prelude.{◌≡◌, ℕ, ◌+◌, ◌<◌, ◌≤◌, [], ◌∷◌, ◌++◌, length, slice_get};

use std::marker::Model;

/// A list of at most 512 numbers, in an array, so that it takes no memory and is copied freely.
#[derive(Clone, Copy, Debug, PartialEq, Eq)]
pub struct Short {
    values: [u16; 512],
    len: usize,
}

impl Model for Short {
    ghost use Rattle.std.specs.Prelude.{ℕ, List, take};
    ghost use Rattle.bank_tables.specs.ShortLaws.{IsFilled, filled_from, filled_again};

    ghost Value = { List ℕ };

    ghost view = { λ s. take s.len s.values };

    ghost invariant = { IsFilled };

    ghost inverse = { filled_from };

    ghost inverse_ok = { filled_again };
}

impl Short {
    /// No numbers.
    // Promise: A list of at most 512 numbers, and a list of values, do what the operations on lists
    // do
    // - of `Short::empty`, `Short::len`, `Short::get`, `Short::push`, `List::of`, `List::as_slice`,
    //   `List::push`
    // - by `len`, `few`
    pub fn empty() -> Short
        ensures { result ≡ [] }
    {
        Short {
            values: [0; 512],
            len: 0,
        }
    }

    /// How many there are, at most 512.
    pub fn len(&self) -> usize
        ensures len { result ≡ length self.now }
        ensures few { result ≤ 512 }
    {
        self.len
    }

    /// The number at a place, from 0 on.
    pub fn get(&self, at: usize) -> Option<u16>
        ensures { result ≡ slice_get self.now at }
    {
        if at < self.len {
            Some(self.values[at])
        } else {
            None
        }
    }

    /// Adds a number at the end.
    pub fn push(&mut self, value: u16)
        requires { length self.old < 512 }
        ensures { self.new ≡ self.old ++ value ∷ [] }
    {
        self.values[self.len] = value;
        self.len += 1;
    }
}
