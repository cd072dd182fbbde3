//! The worked examination over bank A: what its records are made of.

use bank_tables::ItemSet;
use exam_records::{Bands, Cause, Entry, Record, Without};
use proof_tree::{Tree, decode};
use std::alloc::Global;
use std::process::Abort;

/// A tree of one node, Open.
const OPEN: &[u8] = &[0, 7];

/// It shows that {1, 2, 3} is best at first: side 3, the high side of the enemies, at 1 gives
/// 6,143, which is 256 * 23 + 255.
pub(crate) const FIRST_BEST: &[u8] = &[1, 0, 1, 0, 3, 0, 0, 0, 1, 3, 0];

/// It shows that {1, 2, 4} is best once item 2 was answered with 1, and the estimate is the third
/// point: side 0, the low side of the count, at 1,536 gives -1,536 + 768 + 2,304 + 2,048, which is
/// 256 * 14.
const SECOND_BEST: &[u8] = &[1, 0, 1, 0, 0, 0, 0, 6, 0, 3, 0];

/// That for the best form at first, with 4,096 in place of 1: it gives 8,960, which is above 6,143.
const TOO_HIGH: &[u8] = &[1, 0, 1, 0, 3, 0, 0, 0x10, 0, 3, 0];

/// A tree of one node, Whole: there is one set of as many items as the test has.
const WHOLE: &[u8] = &[0, 6];

/// A tree of one node, Count of the length: fewer items are left than the test has.
const COUNT: &[u8] = &[0, 5, 0];

/// A tree of one node, Bound with no multipliers: the form has the best items that are left.
const PLAIN: &[u8] = &[1, 0, 0, 3, 0];

/// The tree of a record.
#[derive(Clone, Copy)]
pub(crate) enum Shape {
    NoTree,
    Open,
    FirstBest,
    SecondBest,
    TooHigh,
    Whole,
    Count,
    Plain,
}

/// Its bytes; none where there is no tree.
fn bytes_of(shape: Shape) -> &'static [u8] {
    match shape {
        Shape::NoTree => &[],
        Shape::Open => OPEN,
        Shape::FirstBest => FIRST_BEST,
        Shape::SecondBest => SECOND_BEST,
        Shape::TooHigh => TOO_HIGH,
        Shape::Whole => WHOLE,
        Shape::Count => COUNT,
        Shape::Plain => PLAIN,
    }
}

/// A record, as a test writes it. A set of items is given as bits, of which the lowest is item 0.
#[derive(Clone, Copy)]
pub(crate) enum Line {
    /// A session starts for a booking, with these eligible items in the one band.
    Started(u32, u64, u8),
    /// The same in each of two bands.
    StartedInTwo(u32, u64, [u8; 2]),
    /// The same in one band, with a list of items that the examinee must not get, and a form.
    StartedWithout(u32, u64, u8, (u8, u8)),
    /// At a step eligibility is set aside in a band, since there is no form, or with an Open tree
    /// since a budget of one node was spent.
    SetAside(u32, (u16, u8), Shape),
    /// At a step an item is served from a form, which is marked proved by a tree of one node.
    Served(u32, (u16, u16), u8, Shape),
    /// A step is answered with a response. The entry is to have no tree.
    Answered(u32, (u16, u8), Shape),
    Closed(u32),
}

/// The items of these bits.
pub(crate) fn items_of(bits: u8) -> ItemSet {
    let mut items = ItemSet::empty();
    for item in 0..8u16 {
        if bits >> item & 1 == 1 {
            items = items.with(item);
        }
    }
    items
}

/// The sets of eight bands, with these items in the first two and none in the others.
pub(crate) fn sets_of([first, second]: [u8; 2]) -> [ItemSet; 8] {
    let mut sets = [ItemSet::empty(); 8];
    sets[0] = items_of(first);
    sets[1] = items_of(second);
    sets
}

/// So many bands, with these items in the first two.
fn bands_of(count: u8, items: [u8; 2]) -> Bands {
    Bands {
        count,
        sets: sets_of(items),
    }
}

/// A start of this session, for this booking.
fn start(session: u32, booking: u64, eligible: Bands, without: Option<Without>) -> Entry {
    Entry::Started {
        session,
        booking,
        eligible,
        without,
    }
}

/// Its entry.
pub(crate) fn entry_of(line: &Line) -> Entry {
    match *line {
        Line::Started(session, booking, eligible) => {
            start(session, booking, bands_of(1, [eligible, 0]), None)
        }
        Line::StartedInTwo(session, booking, eligible) => {
            start(session, booking, bands_of(2, eligible), None)
        }
        Line::StartedWithout(session, booking, eligible, (items, form)) => {
            let list = Without {
                items: items_of(items),
                form: items_of(form),
            };
            start(session, booking, bands_of(1, [eligible, 0]), Some(list))
        }
        Line::SetAside(session, (step, band), shape) => Entry::SetAside {
            session,
            step,
            band,
            cause: match shape {
                Shape::Open => Cause::Spent,
                _ => Cause::NoForm,
            },
            nodes: 1,
        },
        Line::Served(session, (step, item), form, _) => Entry::Served {
            session,
            step,
            item,
            form: items_of(form),
            proved: true,
            nodes: 1,
        },
        Line::Answered(session, (step, response), _) => Entry::Answered {
            session,
            step,
            response,
        },
        Line::Closed(session) => Entry::Closed { session },
    }
}

/// The bytes of its tree; none where there is no tree.
pub(crate) fn tree_bytes(line: &Line) -> &'static [u8] {
    let shape = match *line {
        Line::SetAside(_, _, shape) => shape,
        Line::Served(_, _, _, shape) => shape,
        Line::Answered(_, _, shape) => shape,
        _ => Shape::NoTree,
    };
    bytes_of(shape)
}

/// The tree of these bytes, none where there are no bytes.
fn tree_of<R: Abort>(rt: &R, alloc: Global, bytes: &[u8]) -> Option<Tree> {
    if bytes.is_empty() {
        return None;
    }
    let (tree, _) = decode(alloc, bytes).expect(rt, "a tree");
    Some(tree)
}

/// The record of a line.
pub(crate) fn record<R: Abort>(rt: &R, alloc: Global, line: &Line) -> Record {
    Record {
        entry: entry_of(line),
        tree: tree_of(rt, alloc, tree_bytes(line)),
    }
}
