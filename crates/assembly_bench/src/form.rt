//! The best form of a made problem.

ghost use Rattle.std.specs.Prelude.{◌≤◌, ◌*◌};

use crate::size::Size;
use bank_tables::ItemSet;

/// The best form: items at equal distances from item 0 on.
pub fn best_form(size: &Size) -> ItemSet {
    let mut form = ItemSet::empty();
    for i in 0..size.items {
        if size.is_best(i) {
            form = form.with(i);
        }
    }
    form
}

/// The number of items of the best form with this stimulus.
pub fn best_with(size: &Size, stimulus: u8) -> u32 {
    let mut n = 0u32;
    for i in 0..size.items {
        if size.is_best(i) && size.stimulus(i) == stimulus {
            n = n.saturating_add(1);
        }
    }
    n
}

/// The number of stimuli that the best form uses.
pub fn best_stimuli(size: &Size) -> u32 {
    let mut n = 0u32;
    for k in 0..size.stimuli {
        if best_with(size, k + 1) > 0 {
            n = n.saturating_add(1);
        }
    }
    n
}

/// The number of words of an item, the quantity of the bank.
pub fn word_count(item: u16) -> u32
    requires { item ≤ 512 }
    ensures { result ≤ 90 }
{
    1 + item as u32 * 37 % 90
}

/// The number of words of the best form.
pub fn best_words(size: &Size) -> u32 {
    let mut sum = 0u32;
    for i in 0..size.items {
        if size.is_best(i) {
            sum = sum.saturating_add(word_count(i));
        }
    }
    sum
}
