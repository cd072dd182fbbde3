//! Small banks, each with its plan.

use bank_tables::Bank;
use constraint_model::{Draft, Row, StimulusBound};
use std::alloc::{AllocError, Global};
use std::process::Abort;
use trial_cases::{bank_a, bank_q, draft_of, item, rows_of, set_of};

/// A bank and its plan.
#[derive(Clone, Copy)]
pub(crate) enum Setting {
    /// Bank A. The plan has three items, this many of items 0 and 1, and not both 2 and 5. With 1
    /// it is plan A.
    Plain(u32),
    /// Bank Q: each pair of items has 20 of the quantity, and 15 are allowed.
    Quantity,
    /// A passage that is in a form whole or not at all, and items without one; three items.
    Passage,
    /// Two stimuli: both items of the first or none, and one or both of the second; three items.
    Stimuli,
    /// The same, but a form has items of both stimuli.
    BothStimuli,
    /// The plan has two items, with this many to 3 words.
    Words(u32),
}

/// An item of one point: its stimulus, quantities, information, and the log-likelihood of each
/// response.
type Line = (u32, &'static [u32], u32, i32);

/// The passage of items 0, 1 and 2, of 9, 1 and 1, and items 3, 4 and 5, of 5, 4 and 4, which have
/// no passage.
const PASSAGE: [Line; 6] = [
    (1, &[], 9, -1),
    (1, &[], 1, -1),
    (1, &[], 1, -1),
    (0, &[], 5, -1),
    (0, &[], 4, -1),
    (0, &[], 4, -1),
];

/// Items 0 and 1 are of stimulus 1, items 2 and 3 of stimulus 2, item 4 of none.
const STIMULI: [Line; 5] = [
    (1, &[], 9, -7),
    (1, &[], 1, -7),
    (2, &[], 6, -7),
    (2, &[], 5, -7),
    (0, &[], 7, -7),
];

/// Two items of 2 words with the information 10 and 9, and two of no words with 2 and 1.
const WORDS: [Line; 4] = [
    (0, &[2], 10, -7),
    (0, &[2], 9, -7),
    (0, &[0], 2, -7),
    (0, &[0], 1, -7),
];

/// The bank of these items, with so many quantities.
fn bank_of<R: Abort>(rt: &R, alloc: Global, quantities: u32, lines: &[Line]) -> Bank {
    let mut items = Vec::new(alloc);
    for (stimulus, amounts, info, loglik) in lines {
        let made = item(alloc, *stimulus, amounts, &[*info], &[*loglik, *loglik]);
        items.push(made.expect(rt, "an item")).expect(rt, "items");
    }
    Bank::of(alloc, rows_of(1, quantities, items)).expect(rt, "a bank")
}

pub(crate) fn bank<R: Abort>(rt: &R, alloc: Global, setting: Setting) -> Bank {
    match setting {
        Setting::Plain(_) => bank_a(alloc).expect(rt, "bank A"),
        Setting::Quantity => bank_q(alloc).expect(rt, "bank Q"),
        Setting::Passage => bank_of(rt, alloc, 0, &PASSAGE),
        Setting::Stimuli | Setting::BothStimuli => bank_of(rt, alloc, 0, &STIMULI),
        Setting::Words(_) => bank_of(rt, alloc, 1, &WORDS),
    }
}

/// Three items: so many of 0 and 1, and not both 2 and 5.
fn plain(alloc: Global, count: u32) -> Result<Draft, AllocError> {
    let rows = [
        Row::Count {
            set: set_of(&[0, 1]),
            low: count,
            high: count,
        },
        Row::Enemies {
            set: set_of(&[2, 5]),
        },
    ];
    draft_of(alloc, 3, &[-10, 0, -10], &rows, &[])
}

/// Two items, with `low` to `high` of the quantity.
fn quantity(alloc: Global, low: u32, high: u32) -> Result<Draft, AllocError> {
    let rows = [Row::Quantity {
        which: 0,
        set: set_of(&[0, 1, 2, 3]),
        low,
        high,
    }];
    draft_of(alloc, 2, &[0], &rows, &[])
}

/// Three items, with these rows and these bounds on the stimuli.
fn bounded(alloc: Global, rows: &[Row], bounds: &[StimulusBound]) -> Result<Draft, AllocError> {
    draft_of(alloc, 3, &[0], rows, bounds)
}

/// The passage is in a form whole or not at all.
const WHOLE: [StimulusBound; 1] = [StimulusBound { low: 3, high: 3 }];

/// Both items of stimulus 1 or none, and one or both of stimulus 2.
const BOUNDS: [StimulusBound; 2] = [
    StimulusBound { low: 2, high: 2 },
    StimulusBound { low: 1, high: 2 },
];

/// A form has items of two stimuli.
const BOTH: [Row; 1] = [Row::Stimuli { low: 2, high: 2 }];

pub(crate) fn draft(alloc: Global, setting: Setting) -> Result<Draft, AllocError> {
    match setting {
        Setting::Plain(count) => plain(alloc, count),
        Setting::Quantity => quantity(alloc, 0, 15),
        Setting::Passage => bounded(alloc, &[], &WHOLE),
        Setting::Stimuli => bounded(alloc, &[], &BOUNDS),
        Setting::BothStimuli => bounded(alloc, &BOTH, &BOUNDS),
        Setting::Words(low) => quantity(alloc, low, 3),
    }
}
