//! Numbers drawn by a rule that begins with a seed, so that a search does the same each time.

/// A linear congruential generator (Knuth, The Art of Computer Programming, volume 2, 3.3.4).
#[derive(Clone, Copy)]
pub struct Draws {
    state: u64,
}

impl Draws {
    /// The draws of a seed.
    pub fn of(seed: u64) -> Draws {
        Draws { state: seed }
    }

    /// The next 31 bits.
    #[inline]
    pub fn bits(&mut self) -> u64 {
        let product = self.state.wrapping_mul(6_364_136_223_846_793_005);
        self.state = product.wrapping_add(1_442_695_040_888_963_407);
        self.state >> 33
    }

    /// A number below a bound; 0 if that is 0.
    #[inline]
    pub fn below(&mut self, bound: usize) -> usize {
        let drawn = self.bits().wrapping_mul(bound as u64) >> 31;
        usize::try_from(drawn).unwrap_or(0)
    }

    /// What a rise may be that is accepted at a temperature (Metropolis and others, Equation of
    /// State Calculations by Fast Computing Machines, 1953): the temperature times the negative
    /// logarithm to the base 2 of a number drawn between 0 and 1.
    #[inline]
    pub fn rise(&mut self, temperature: i64) -> i64 {
        let drawn = self.bits() | 1;
        let zeros = drawn.leading_zeros();
        let fraction = drawn.checked_shl(zeros).unwrap_or(0) >> 47 & 65_535;
        let bits = (zeros as i64).wrapping_sub(32);
        let logarithm = bits
            .wrapping_mul(65_536)
            .wrapping_sub(i64::try_from(fraction).unwrap_or(0));
        (temperature >> 8).wrapping_mul(logarithm.max(0)) >> 8
    }
}
