//! What the rows and the stimuli of a plan count in a set of items.

ghost use Rattle.std.specs.Prelude.{◌≡◌, ℕ, ◌<◌, ◌≤◌};
ghost use Rattle.bank_tables.specs.Items.{has};
ghost use Rattle.bank_tables.specs.Tables.{size, quantity};
ghost use Rattle.bank_tables.specs.Sums.{count_in, sum_in};
ghost use Rattle.bank_tables.specs.Validity.{HoldsItems};
ghost use Rattle.form_model.specs.Forms.{activity, items_of, size_in, used, stimuli_in, stimuli_of, lower_bound, upper_bound};
ghost use Rattle.form_model.specs.Validity.{IsRow};
ghost use Rattle.constraint_model.specs.Countable.{quantity_of};

use bank_tables::{Bank, ItemSet};
use form_model::Row;

/// The number of items of the bank in a set.
pub fn size_in(bank: &Bank, items: &ItemSet) -> u32
    // Promise: How many items of the bank a set has, how many of them have a stimulus, and which
    // stimuli have one of them
    // - of `counts::size_in`, `counts::items_of`, `counts::stimuli_used`
    // - by `size`, `few`, `most`, the clause
    ensures size { result ≡ size_in bank.now (has items.now) }
    ensures few { result ≤ size bank.now }
    ensures most { result ≤ 512 }
{
    let mut n = 0;
    for i in 0..bank.items() {
        if items.has(i) {
            n += 1;
        }
    }
    n
}

/// How many items of a set have the stimulus.
pub fn items_of(bank: &Bank, stimulus: u8, items: &ItemSet) -> u32
    ensures { result ≡ items_of bank.now stimulus (has items.now) }
{
    let mut n = 0;
    for i in 0..bank.items() {
        if items.has(i) && bank.stimulus(i) == stimulus {
            n += 1;
        }
    }
    n
}

/// The stimuli with an item in a set.
pub fn stimuli_used(bank: &Bank, items: &ItemSet) -> ItemSet
    ensures { (s : ℕ) → has result s ≡ used bank.now (has items.now) s }
{
    let mut stimuli = ItemSet::empty();
    for i in 0..bank.items() {
        let stimulus = bank.stimulus(i);
        if items.has(i) && stimulus > 0 {
            stimuli = stimuli.with(stimulus as u16);
        }
    }
    stimuli
}

/// How many items of a row's set are in the other set.
fn members_in(bank: &Bank, set: &ItemSet, items: &ItemSet) -> u32
    requires { HoldsItems bank.now (has set.now) }
    ensures { result ≡ count_in (size bank.now) (has items.now) (has set.now) }
{
    prove!(bank.items() <= 512);
    set.meet(*items).count()
}

/// The sum of a quantity over the items that are in both sets.
fn quantity_in(bank: &Bank, which: u8, set: &ItemSet, items: &ItemSet) -> u32
    requires { which < bank.now.quantities }
    ensures { result ≡
        sum_in (size bank.now) (has items.now) (quantity_of bank.now (has set.now) which) }
{
    let mut sum = 0;
    for i in 0..bank.items() {
        if items.has(i) && set.has(i) {
            sum += bank.quantity(i, which);
        }
    }
    sum
}

/// How many stimuli of the bank are in the set.
fn stimuli_in(bank: &Bank, stimuli: &ItemSet) -> u32
    ensures { result ≡ stimuli_in (stimuli_of bank.now) (has stimuli.now) }
{
    let mut n = 0;
    for k in 0..bank.stimuli() {
        if stimuli.has(k as u16 + 1) {
            n += 1;
        }
    }
    n
}

/// The activity of a row: the sum over a set of items and a set of stimuli.
pub fn activity(bank: &Bank, row: &Row, items: &ItemSet, stimuli: &ItemSet) -> u32
    requires { IsRow bank.now row.now }
    // Promise: What a row counts in a set of items and a set of stimuli, and its bounds
    // - of `counts::activity`, `counts::lower_bound`, `counts::upper_bound`
    ensures { result ≡ activity bank.now row.now (has items.now) (has stimuli.now) }
{
    match row {
        Row::Count { set, .. } => members_in(bank, set, items),
        Row::Quantity { which, set, .. } => quantity_in(bank, *which, set, items),
        Row::Enemies { set } => members_in(bank, set, items),
        Row::Stimuli { .. } => stimuli_in(bank, stimuli),
    }
}

/// The least activity that a row allows.
pub fn lower_bound(row: &Row) -> u32
    ensures { result ≡ lower_bound row.now }
{
    match row {
        Row::Count { low, .. } => *low,
        Row::Quantity { low, .. } => *low,
        Row::Enemies { .. } => 0,
        Row::Stimuli { low, .. } => *low,
    }
}

/// The most activity that a row allows.
pub fn upper_bound(row: &Row) -> u32
    ensures { result ≡ upper_bound row.now }
{
    match row {
        Row::Count { high, .. } => *high,
        Row::Quantity { high, .. } => *high,
        Row::Enemies { .. } => 1,
        Row::Stimuli { high, .. } => *high,
    }
}
