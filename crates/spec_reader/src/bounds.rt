//! The bounds of the stimuli.

ghost use Rattle.std.specs.Prelude.{◌≡◌, IfOk, replicate};
ghost use Rattle.spec_reader.specs.Bounds.{any_bound, with_bound};

use bank_tables::List;
use form_model::StimulusBound;
use std::alloc::{AllocError, Global};

/// Bounds for so many stimuli that no line names.
pub fn any_bounds(alloc: Global, stimuli: u8) -> Result<List<StimulusBound>, AllocError>
    ensures { IfOk result (λ bounds. bounds ≡ replicate stimuli any_bound) }
{
    let mut bounds = Vec::new(alloc);
    for _ in 0..stimuli {
        bounds.push(StimulusBound { low: 1, high: 512 })?;
    }
    Ok(List::of(bounds))
}

/// The bounds with those of one stimulus set anew; a number that no stimulus has changes nothing.
pub fn with_bound(
    alloc: Global,
    bounds: &[StimulusBound],
    stimulus: u8,
    low: u32,
    high: u32,
) -> Result<List<StimulusBound>, AllocError>
    ensures { IfOk result (λ others. others
        ≡ with_bound bounds.now stimulus (record { low = low; high = high })) }
{
    let mut others = bounds.to_vec(alloc)?;
    if stimulus > 0 && stimulus as usize <= others.len() {
        others[stimulus as usize - 1] = StimulusBound { low, high };
    }
    Ok(List::of(others))
}
