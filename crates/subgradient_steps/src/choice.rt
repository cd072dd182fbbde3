//! The items and stimuli chosen at a threshold: those of the relaxed maximum, some of them in part.

use crate::problem::Flat;
use crate::selection::WHOLE;
use crate::stimuli::Stimulus;
use bank_tables::ItemSet;

/// What is chosen at two neighbouring thresholds, mixed so that it has as many items as a form
/// needs.
#[derive(Clone, Copy)]
pub(crate) struct Choice {
    /// The value at the better one.
    pub value: i64,
    /// Whether nothing is chosen in part.
    pub is_whole: bool,
    /// The lower threshold, and the part of what is chosen there.
    below: i64,
    part: u16,
    /// The upper threshold.
    above: i64,
    /// What the rows on stimuli add to the weight of each stimulus.
    price: i64,
}

impl Choice {
    /// The choice where no stimulus is chosen or open: the heaviest items.
    fn of_top(flat: &Flat) -> Choice {
        let mut value = 0i64;
        for weighed in &flat.top {
            value = value.wrapping_add(weighed.weight);
        }
        Choice {
            value,
            is_whole: true,
            below: i64::MIN,
            part: 0,
            above: i64::MIN,
            price: 0,
        }
    }

    /// The choice at the present weights, where the rows on stimuli have a price.
    pub(crate) fn of(flat: &mut Flat, price: i64) -> Choice {
        if flat.stimuli.is_empty() {
            return Choice::of_top(flat);
        }
        let bracket = flat.bracket(price);
        let least = bracket.least();
        flat.threshold = least.threshold;
        Choice {
            value: least.value,
            is_whole: bracket.is_whole(),
            below: bracket.below.threshold,
            part: bracket.part(),
            above: bracket.above.threshold,
            price,
        }
    }

    /// The part of an item of no stimulus.
    #[inline]
    fn part_of(&self, weight: i64) -> u16 {
        if weight > self.above {
            WHOLE
        } else if weight > self.below {
            self.part
        } else {
            0
        }
    }
}

impl Flat {
    /// Chooses items of no stimulus; those that are not among the heaviest are not chosen before.
    fn choose_alone(&mut self, choice: &Choice) {
        let (selection, lines) = (&mut self.selection, &mut self.lines);
        for weighed in &self.top {
            selection.choose(lines, weighed.item, choice.part_of(weighed.weight));
        }
    }

    /// Chooses items of a stimulus, and gives the part of the stimulus itself.
    fn choose_members(&mut self, choice: &Choice, stimulus: &Stimulus) -> u16 {
        let above = stimulus.pick(&self.ranked, choice.price, choice.above);
        let below = stimulus.pick(&self.ranked, choice.price, choice.below);
        if !below.is_chosen && stimulus.part == 0 {
            return 0;
        }
        let (selection, lines) = (&mut self.selection, &mut self.lines);
        let mut rank = 0i64;
        for weighed in stimulus.members(&self.ranked) {
            let part = if rank < above.count {
                WHOLE
            } else if rank < below.count {
                choice.part
            } else {
                0
            };
            rank = rank.wrapping_add(1);
            selection.choose(lines, weighed.item, part);
        }
        if above.is_chosen {
            WHOLE
        } else if below.is_chosen {
            choice.part
        } else {
            0
        }
    }

    /// Gives the rows on stimuli their activity.
    fn count_stimuli(&mut self, activity: i64) {
        for line in self.lines.iter_mut() {
            if line.is_on_stimuli {
                line.activity = activity;
            }
        }
    }

    /// Chooses items and stimuli.
    pub(crate) fn choose(&mut self, choice: &Choice) {
        self.choose_alone(choice);
        let mut activity = 0i64;
        for place in 0..self.stimuli.len() {
            if let Some(stimulus) = self.stimuli.get(place).copied() {
                let part = self.choose_members(choice, &stimulus);
                activity = activity.wrapping_add(part as i64);
                if let Some(slot) = self.stimuli.get_mut(place) {
                    slot.part = part;
                }
            }
        }
        self.count_stimuli(activity);
    }

    /// The sum of the gains of the items taken and chosen.
    pub(crate) fn gain(&self) -> i64 {
        let mut sum = self.taken;
        for (gain, part) in self.gains.iter().zip(self.selection.parts.iter()) {
            if *part == WHOLE {
                sum = sum.wrapping_add(*gain);
            }
        }
        sum
    }

    /// The items taken and those wholly chosen.
    pub(crate) fn chosen(&self, taken: ItemSet) -> ItemSet {
        let mut form = taken;
        for (item, part) in self.numbers.iter().zip(self.selection.parts.iter()) {
            if *part == WHOLE && *item < 512 {
                form = form.with(*item);
            }
        }
        form
    }

    /// Begins the shares of items and stimuli with what is chosen.
    pub(crate) fn share_first(&mut self) {
        for (share, part) in self.shares.iter_mut().zip(self.selection.parts.iter()) {
            *share = part.wrapping_mul(16);
        }
        for stimulus in self.stimuli.iter_mut() {
            stimulus.share = stimulus.part.wrapping_mul(16);
        }
    }

    /// Takes a part of 16 off the shares of items and stimuli, and adds what is chosen.
    pub(crate) fn share(&mut self) {
        for (share, part) in self.shares.iter_mut().zip(self.selection.parts.iter()) {
            *share = share.wrapping_sub(*share >> 4).wrapping_add(*part);
        }
        for stimulus in self.stimuli.iter_mut() {
            let share = stimulus.share;
            stimulus.share = share.wrapping_sub(share >> 4).wrapping_add(stimulus.part);
        }
    }
}
