//! The threshold above which free items are chosen, so that in the relaxed maximum with the links
//! of items to their stimuli as many are as a form needs: the least value of a convex function of
//! one number.

use crate::constraints::MOST;
use crate::problem::Flat;
use crate::ranking::Weighed;

/// The value of the relaxed maximum's free items and stimuli at a threshold, and how many items are
/// chosen there.
#[derive(Clone, Copy)]
pub(crate) struct Point {
    pub threshold: i64,
    pub value: i64,
    count: i64,
}

/// Two neighbouring thresholds: at the lower one too many items are chosen, at the other one no
/// more than a form needs.
#[derive(Clone, Copy)]
pub(crate) struct Bracket {
    pub below: Point,
    pub above: Point,
    /// How many items a form needs.
    wanted: i64,
}

/// How far the first try of a search is from where it begins.
const FIRST_WAY: i64 = 512;

impl Bracket {
    /// The better of both.
    pub(crate) fn least(&self) -> Point {
        if self.below.value < self.above.value {
            self.below
        } else {
            self.above
        }
    }

    /// The part of the lower one's choice, at most 256, with which the other one's makes a whole
    /// form.
    pub(crate) fn part(&self) -> u16 {
        let lacking = self.wanted.wrapping_sub(self.above.count);
        let range = self.below.count.wrapping_sub(self.above.count);
        lacking
            .wrapping_mul(256)
            .checked_div(range)
            .unwrap_or(0)
            .clamp(0, 256) as u16
    }

    /// Whether the choice at the upper threshold has as many items as a form needs.
    pub(crate) fn is_whole(&self) -> bool {
        self.above.count == self.wanted
    }

    /// Where the lines on both sides meet, strictly between them.
    fn meeting(&self) -> i64 {
        let way = self.above.threshold.wrapping_sub(self.below.threshold);
        let falls = self.below.count.wrapping_sub(self.wanted);
        let rises = self.wanted.wrapping_sub(self.above.count);
        let drop = self.below.value.wrapping_sub(self.above.value);
        let over = drop.wrapping_add(rises.wrapping_mul(way));
        let share = over.checked_div(falls.wrapping_add(rises)).unwrap_or(0);
        let last = way.wrapping_sub(1).max(1);
        self.below.threshold.wrapping_add(share.clamp(1, last))
    }

    /// The middle between them.
    fn middle(&self) -> i64 {
        self.below.threshold.wrapping_add(self.above.threshold) >> 1
    }

    /// Whether no threshold is between them.
    fn is_narrow(&self) -> bool {
        self.above.threshold.wrapping_sub(self.below.threshold) <= 1
    }

    /// Takes a point between them.
    fn narrow(&mut self, point: Point) {
        if point.count > self.wanted {
            self.below = point;
        } else {
            self.above = point;
        }
    }
}

/// What items in order have above a threshold, and how many have.
#[inline]
fn above(ranked: &[Weighed], threshold: i64) -> (i64, i64) {
    let mut sum = 0i64;
    let mut count = 0i64;
    for weighed in ranked {
        let over = weighed.weight.wrapping_sub(threshold);
        if over <= 0 {
            break;
        }
        sum = sum.wrapping_add(over);
        count = count.wrapping_add(1);
    }
    (sum, count)
}

impl Flat {
    /// The value of the free items and stimuli at a threshold, where the rows on stimuli have a
    /// price.
    fn point_at(&self, price: i64, threshold: i64) -> Point {
        let (mut value, mut count) = above(&self.top, threshold);
        for stimulus in &self.stimuli {
            let pick = stimulus.pick(&self.ranked, price, threshold);
            value = value.wrapping_add(pick.sum);
            count = count.wrapping_add(pick.count);
        }
        Point {
            threshold,
            value: value.wrapping_add(threshold.wrapping_mul(self.wanted)),
            count,
        }
    }

    /// Two thresholds, with too many items at the lower one and no more than a form needs at the
    /// other.
    fn wide_bracket(&self, price: i64) -> Bracket {
        let begun = self.point_at(price, self.threshold);
        let is_below = begun.count > self.wanted;
        let mut bracket = Bracket {
            below: begun,
            above: begun,
            wanted: self.wanted,
        };
        let mut way = if is_below { FIRST_WAY } else { -FIRST_WAY };
        for _ in 0..16 {
            let threshold = self.threshold.wrapping_add(way).clamp(-MOST, MOST);
            let point = self.point_at(price, threshold);
            if is_below {
                bracket.above = point;
            } else {
                bracket.below = point;
            }
            if (point.count > self.wanted) != is_below || threshold.abs() == MOST {
                break;
            }
            if is_below {
                bracket.below = point;
            } else {
                bracket.above = point;
            }
            way = way.wrapping_mul(4);
        }
        bracket
    }

    /// The neighbouring thresholds between which the value is least.
    pub(crate) fn bracket(&self, price: i64) -> Bracket {
        let mut bracket = self.wide_bracket(price);
        for round in 1..64 {
            if bracket.is_narrow() {
                break;
            }
            let threshold = if round % 4 == 0 {
                bracket.middle()
            } else {
                bracket.meeting()
            };
            let point = self.point_at(price, threshold);
            bracket.narrow(point);
        }
        bracket
    }
}
