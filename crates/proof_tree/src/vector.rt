//! A vector of Lagrange multipliers.

ghost use Rattle.std.specs.Prelude.{◌≡◌, ◌↔◌, IsTrue, IsSome, IfOk, IfSome};
ghost use Rattle.certificate_model.specs.ProofTrees.{IsVector};

use bank_tables::List;
use bank_tables::limits::MULTIPLIER;
use std::alloc::{AllocError, Global};
use std::marker::Model;

/// The multiplier of each side of the constraints that it names: pairs of a side and a multiplier,
/// sides strictly ascending, multipliers 1 to 16,777,216. A side that isn't named has the
/// multiplier 0.
#[derive(Debug, Drop)]
pub struct Vector {
    pairs: List<(u16, u32)>,
}

impl Model for Vector {
    ghost use Rattle.certificate_model.specs.Relaxed.{Multipliers};
    ghost use Rattle.certificate_model.specs.ProofTrees.{IsVector};

    ghost Value = { Multipliers };

    ghost view = { λ v. v.pairs };

    ghost invariant = { λ v. IsVector 0 v.pairs };
}

fn is_vector(pairs: &[(u16, u32)]) -> bool
    ensures { IsTrue result ↔ IsVector 0 pairs.now }
{
    let mut from: u32 = 0;
    for pair in pairs {
        if (pair.0 as u32) < from || pair.1 == 0 || pair.1 > MULTIPLIER {
            return false;
        }
        from = pair.0 as u32 + 1;
    }
    true
}

impl Vector {
    /// The vector of these pairs.
    pub fn new(pairs: List<(u16, u32)>) -> Vector
        requires { IsVector 0 pairs }
        ensures { result ≡ pairs }
    {
        Vector { pairs }
    }

    /// The vector of these pairs; None exactly where the sides don't ascend strictly or a
    /// multiplier is out of its range.
    pub fn of(pairs: List<(u16, u32)>) -> Option<Vector>
        // Promise: A list of pairs is a vector exactly where its sides ascend strictly and its
        // multipliers are from 1 to 16,777,216
        // - of `Vector::of`, `Vector::new`, `Vector::pairs`
        // - by `some`, `pairs`
        ensures some { IsSome result ↔ IsVector 0 pairs }
        ensures pairs { IfSome result (λ v. v ≡ pairs) }
    {
        if is_vector(pairs.as_slice()) {
            Some(Vector { pairs })
        } else {
            None
        }
    }

    /// A copy of the vector; the only error is lack of memory.
    pub fn again(&self, alloc: Global) -> Result<Vector, AllocError>
        // Promise: A vector copied is the same vector; the only error is lack of memory
        ensures { IfOk result (λ copy. copy ≡ self.now) }
    {
        let pairs = Vec::from_slice(alloc, self.pairs())?;
        Ok(Vector::new(List::of(pairs)))
    }

    /// Its pairs of a side and a multiplier.
    pub fn pairs(&self) -> &[(u16, u32)]
        ensures pairs { result.now ≡ self.now }
        ensures vector { IsVector 0 self.now }
    {
        self.pairs.as_slice()
    }
}
