//! The rows of a problem as flat lines over its free items.

use bank_tables::limits::MULTIPLIER;

/// A multiplier on its way.
#[derive(Clone, Copy)]
pub(crate) struct Multiplier {
    /// Scaled by 256.
    pub scaled: i64,
    /// The direction of the last step, scaled by 256; the step goes against it.
    pub direction: i64,
    /// The whole number of the best bound.
    pub best: i64,
}

/// A row on items, or on the number of stimuli. Its multiplier is that of the low side where
/// positive, and of the high side where negative.
#[derive(Clone, Copy)]
pub(crate) struct Line {
    /// Whether it counts stimuli.
    pub is_on_stimuli: bool,
    /// The number of its low side; the high side is the next.
    pub side: u16,
    pub low: i64,
    pub high: i64,
    /// 65,536 divided by what its steps are measured by, the mean coefficient of the row.
    pub unit: i64,
    /// The activity of the items taken.
    pub fixed: i64,
    /// 256 times that of the items taken and of the choice.
    pub activity: i64,
    /// The whole-number multiplier, as the weights have it.
    pub price: i64,
    pub multiplier: Multiplier,
    /// Where its entries begin.
    pub start: usize,
    /// Where they end.
    pub end: usize,
}

/// The greatest multiplier.
pub(crate) const MOST: i64 = MULTIPLIER as i64;

/// The whole number next to a scaled multiplier.
#[inline]
fn rounded(scaled: i64) -> i64 {
    scaled.wrapping_add(128) >> 8
}

impl Multiplier {
    /// The multiplier of a whole number.
    pub(crate) fn of(value: i64) -> Multiplier {
        Multiplier {
            scaled: value.wrapping_mul(256),
            direction: 0,
            best: value,
        }
    }

    /// Its value after a step of a length.
    #[inline]
    fn moved(&self, length: i64, unit: i64) -> i64 {
        let way = length.wrapping_mul(self.direction) >> 16;
        let step = way.wrapping_mul(unit) >> 16;
        self.scaled
            .wrapping_sub(step)
            .clamp(-(MOST * 256), MOST * 256)
    }
}

impl Line {
    /// Moves the multiplier by a step of a length; it stops at 0 on its way from one side to the
    /// other, unless these are one.
    #[inline]
    pub(crate) fn step(&mut self, length: i64) {
        let old = self.multiplier.scaled;
        let new = self.multiplier.moved(length, self.unit);
        let crosses = old < 0 && new > 0 || old > 0 && new < 0;
        self.multiplier.scaled = if crosses && self.low != self.high {
            0
        } else {
            new
        };
    }

    /// Takes the price that its multiplier gives, and returns the change.
    #[inline]
    pub(crate) fn reprice(&mut self) -> i64 {
        let price = rounded(self.multiplier.scaled);
        let change = price.wrapping_sub(self.price);
        self.price = price;
        change
    }

    /// Notes its multiplier as that of the best bound.
    #[inline]
    pub(crate) fn note_best(&mut self) {
        self.multiplier.best = rounded(self.multiplier.scaled);
    }

    /// Goes back to the multiplier of the best bound.
    #[inline]
    pub(crate) fn return_to_best(&mut self) {
        self.multiplier.scaled = self.multiplier.best.wrapping_mul(256);
    }
}
