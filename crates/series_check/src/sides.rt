//! The multiplier of each side of a vector.

ghost use Rattle.std.specs.Prelude.{◌<◌, All};
ghost use Rattle.certificate_model.specs.Relaxed.{Multipliers};
ghost use Rattle.series_model.specs.SeriesBounds.{multipliers_of};
ghost use Rattle.series_model.specs.SeriesTrees.{Ascends};
ghost use Rattle.series_check.specs.Maximum.{IsSides};

/// The multiplier of each side; 0 where the vector doesn't name it.
pub fn sides_of(vector: &[(u16, u32)]) -> [u32; 2315]
    requires vector { Ascends 0 vector.now }
    requires sides { All (λ pair. pair.0 < 2315) vector.now }
    ensures { IsSides vector.now result }
{
    let mut sides = [0u32; 2315];
    for (side, times) in vector {
        sides[*side as usize] = *times;
    }
    sides
}

/// The multipliers of the rows and stimuli of a form.
pub fn form_sides(sides: &[u32; 2315], form: u8) -> [u32; 384]
    requires { form < 4 }
    ensures { (v : Multipliers) → IsSides v sides.now → IsSides (multipliers_of form v) result }
{
    let first = 768 + 384 * form as usize;
    let mut own = [0u32; 384];
    for side in 0..384 {
        own[side] = sides[first + side];
    }
    own
}
