//! A vector of Lagrange multipliers over the sides of several forms.

ghost use Rattle.std.specs.Prelude.{◌≡◌, ◌↔◌, IsTrue, IsSome, IfOk, IfSome};
ghost use Rattle.series_model.specs.SeriesTrees.{Ascends};

use bank_tables::List;
use std::alloc::{AllocError, Global};
use std::marker::Model;

/// The multiplier of each side that it names: pairs of a side and a multiplier, sides strictly
/// ascending, multipliers 1 to 4,294,967,295. A side that isn't named has the multiplier 0.
#[derive(Debug, Drop)]
pub struct SeriesVector {
    pairs: List<(u16, u32)>,
}

impl Model for SeriesVector {
    ghost use Rattle.certificate_model.specs.Relaxed.{Multipliers};
    ghost use Rattle.series_model.specs.SeriesTrees.{Ascends};

    ghost Value = { Multipliers };

    ghost view = { λ v. v.pairs };

    ghost invariant = { λ v. Ascends 0 v.pairs };
}

fn is_vector(pairs: &[(u16, u32)]) -> bool
    ensures { IsTrue result ↔ Ascends 0 pairs.now }
{
    let mut from: u32 = 0;
    for pair in pairs {
        if (pair.0 as u32) < from || pair.1 == 0 {
            return false;
        }
        from = pair.0 as u32 + 1;
    }
    true
}

impl SeriesVector {
    /// The vector of these pairs.
    pub fn new(pairs: List<(u16, u32)>) -> SeriesVector
        requires { Ascends 0 pairs }
        ensures { result ≡ pairs }
    {
        SeriesVector { pairs }
    }

    /// The vector of these pairs; None exactly where the sides don't ascend strictly or a
    /// multiplier is 0.
    pub fn of(pairs: List<(u16, u32)>) -> Option<SeriesVector>
        // Promise: A list of pairs is a vector exactly where its sides ascend strictly and no
        // multiplier is 0
        // - of `SeriesVector::of`, `SeriesVector::new`, `SeriesVector::pairs`
        // - by `some`, `pairs`
        ensures some { IsSome result ↔ Ascends 0 pairs }
        ensures pairs { IfSome result (λ v. v ≡ pairs) }
    {
        if is_vector(pairs.as_slice()) {
            Some(SeriesVector { pairs })
        } else {
            None
        }
    }

    /// A copy of the vector; the only error is lack of memory.
    pub fn again(&self, alloc: Global) -> Result<SeriesVector, AllocError>
        // Promise: A vector copied is the same vector; the only error is lack of memory
        ensures { IfOk result (λ copy. copy ≡ self.now) }
    {
        let pairs = Vec::from_slice(alloc, self.pairs())?;
        Ok(SeriesVector::new(List::of(pairs)))
    }

    /// Its pairs of a side and a multiplier.
    pub fn pairs(&self) -> &[(u16, u32)]
        ensures pairs { result.now ≡ self.now }
        ensures vector { Ascends 0 self.now }
    {
        self.pairs.as_slice()
    }
}
