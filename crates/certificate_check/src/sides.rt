//! The multiplier of each side of a plan.

ghost use Rattle.std.specs.Prelude.{◌≡◌, ℕ, ◌<◌, All, slice_index};
ghost use Rattle.certificate_model.specs.ProofTrees.{IsVector};
ghost use Rattle.certificate_model.specs.Relaxed.{multiplier};
ghost use Rattle.certificate_model.specs.Ranges.{AreMultipliers};

/// The multiplier of each side; 0 where the vector doesn't name it.
pub fn sides_of(vector: &[(u16, u32)]) -> [u32; 386]
    requires vector { IsVector 0 vector.now }
    requires sides { All (λ pair. pair.0 < 386) vector.now }
    ensures value { (side : ℕ) → slice_index result side ≡ multiplier vector.now side }
    ensures high { AreMultipliers (slice_index result) }
{
    let mut sides = [0u32; 386];
    for (side, times) in vector {
        sides[*side as usize] = *times;
    }
    sides
}
