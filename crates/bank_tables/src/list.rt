//! A list of values.

ghost use Rattle.std.specs.Prelude.{◌≡◌, [], ◌∷◌, ◌++◌, is_ok, if◌then◌else◌};

use std::alloc::AllocError;
use std::marker::Model;

/// A list, which contracts see as such: a thin type over `Vec` for the fields of plain types.
#[derive(Debug, Drop)]
pub struct List<T> {
    items: Vec<T>,
}

impl<T> Model for List<T> {
    ghost Value = { Rattle.std.specs.Prelude.List T };

    ghost view = { λ l. l.items.items };
}

impl<T> List<T> {
    /// The list of a vector's elements.
    pub fn of(items: Vec<T>) -> List<T>
        ensures { result ≡ items.items }
    {
        List { items }
    }

    /// Its elements.
    pub fn as_slice(&self) -> &[T]
        ensures { result.now ≡ self.now }
    {
        &self.items
    }
}

impl<T: Drop> List<T> {
    /// Adds a value at the end; without memory the list stays as it is.
    pub fn push(&mut self, value: T) -> Result<(), AllocError>
        ensures { self.new ≡ (if is_ok result then self.old ++ value ∷ [] else self.old) }
    {
        self.items.push(value)?;
        Ok(())
    }
}
