//! The stimuli of a problem, each with its free items by their reduced weights: what the best of
//! them weigh above a threshold.

use crate::ranking::Weighed;

/// A stimulus that is chosen or open.
#[derive(Clone, Copy)]
pub(crate) struct Stimulus {
    pub number: u16,
    /// The number of its low side; the high side is the next.
    pub side: u16,
    pub is_chosen: bool,
    /// The least number of its free items that a form with the stimulus has, and the greatest.
    pub low: i64,
    pub high: i64,
    /// Where its free items begin, the heaviest first, and where they end.
    pub start: usize,
    pub end: usize,
    /// Where those after the least number begin, and where those within the greatest number end.
    pub next: usize,
    pub last: usize,
    /// The sum of the weights of the least number of its items.
    pub base: i64,
    /// The part of it that is chosen, at most 256.
    pub part: u16,
    /// The smoothed share of steps in which it was chosen, from 0 to 4,096.
    pub share: u16,
}

/// The best items of a stimulus at a threshold.
#[derive(Clone, Copy)]
pub(crate) struct Pick {
    /// Whether the stimulus is chosen.
    pub is_chosen: bool,
    pub count: i64,
    /// What they weigh above the threshold, and what the stimulus adds for the rows that count
    /// stimuli.
    pub sum: i64,
}

/// The sum of what the members weigh above the threshold, where they do.
fn sum_above(members: &[Weighed], threshold: i64) -> i64 {
    let mut sum = 0i64;
    for weighed in members {
        sum = sum.wrapping_add(weighed.weight.wrapping_sub(threshold).max(0));
    }
    sum
}

/// The sum of what the members weigh above the threshold, less what the others lack.
fn sum_over(members: &[Weighed], threshold: i64) -> i64 {
    let mut sum = 0i64;
    for weighed in members {
        sum = sum.wrapping_add(weighed.weight.wrapping_sub(threshold));
    }
    sum
}

/// How many members there are.
fn number_of(members: &[Weighed]) -> i64 {
    i64::try_from(members.len()).unwrap_or(i64::MAX)
}

/// A number as a place; the greatest where it is none.
fn place(number: i64) -> usize {
    usize::try_from(number).unwrap_or(usize::MAX)
}

impl Stimulus {
    /// Its free items, the heaviest first.
    #[inline]
    pub(crate) fn members<'a>(&self, ranked: &'a [Weighed]) -> &'a [Weighed] {
        ranked.get(self.start..self.end).unwrap_or(&[])
    }

    /// Notes where its items end that a form has at least and at most.
    pub(crate) fn with_end(self, end: usize) -> Stimulus {
        let next = self.start.saturating_add(place(self.low));
        let last = self.start.saturating_add(place(self.high)).min(end);
        Stimulus {
            end,
            next,
            last,
            ..self
        }
    }

    /// The sum of the weights of the least number of its items.
    pub(crate) fn base_of(&self, ranked: &[Weighed]) -> i64 {
        let first = ranked.get(self.start..self.next).unwrap_or(&[]);
        sum_over(first, 0)
    }

    /// Its best items at a threshold; none where the stimulus is open and they gain nothing.
    #[inline]
    pub(crate) fn pick(&self, ranked: &[Weighed], price: i64, threshold: i64) -> Pick {
        let mut count = self.low;
        let mut sum = price
            .wrapping_add(self.base)
            .wrapping_sub(threshold.wrapping_mul(self.low));
        for weighed in ranked.get(self.next..self.last).unwrap_or(&[]) {
            let over = weighed.weight.wrapping_sub(threshold);
            if over <= 0 {
                break;
            }
            sum = sum.wrapping_add(over);
            count = count.wrapping_add(1);
        }
        if self.is_chosen || sum > 0 && self.next <= self.end {
            Pick {
                is_chosen: true,
                count,
                sum,
            }
        } else {
            Pick {
                is_chosen: false,
                count: 0,
                sum: 0,
            }
        }
    }

    /// The multiplier of its low side where it has fewer free items than it needs: with that it
    /// gains nothing.
    fn excluding(&self, members: &[Weighed], price: i64, threshold: i64) -> i64 {
        let Some(last) = members.last() else {
            return 0;
        };
        let lacking = self.low.wrapping_sub(number_of(members));
        let gain = price.wrapping_add(sum_over(members, threshold));
        let least = threshold.wrapping_sub(last.weight);
        let quotient = gain.checked_div(lacking).unwrap_or(0);
        quotient.wrapping_add(1).max(least).max(0)
    }

    /// The multipliers of its low side and of its high side with which it gains what its best items
    /// do at the threshold.
    pub(crate) fn multipliers(&self, ranked: &[Weighed], price: i64, threshold: i64) -> (i64, i64) {
        let members = self.members(ranked);
        let most = price.wrapping_add(sum_above(members, threshold));
        if !self.is_chosen && most <= 0 {
            return (0, 0);
        }
        if !self.is_chosen && number_of(members) < self.low {
            return (self.excluding(members, price, threshold), 0);
        }
        if let Some(next) = members.get(place(self.high)) {
            if next.weight > threshold {
                return (0, next.weight.wrapping_sub(threshold));
            }
        }
        match members.get(place(self.low.wrapping_sub(1))) {
            Some(last) => (threshold.wrapping_sub(last.weight).max(0), 0),
            None => (0, 0),
        }
    }
}
