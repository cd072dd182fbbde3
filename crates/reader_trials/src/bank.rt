//! Banks of texts and of rows that have no fault.

use crate::equal::expect_equal;
use crate::source::{bytes_of, source_of};
use bank_reader::{ReadFault, read_bank};
use bank_tables::{Bank, Rows};
use std::alloc::Global;
use std::process::Abort;
use trial_cases::{BANK_A, item, rows_of};

/// What is found of a bank.
enum Fact {
    /// How many items, grid points, quantities and stimuli it has.
    Sizes(u16, u8, u8, u8),
    /// The stimulus of an item.
    Stimulus(u16, u8),
    /// The number of response categories of an item.
    Categories(u16, u8),
    /// A quantity of an item.
    Quantity(u16, u8, u32),
    /// The information of an item at a point.
    Info(u16, u8, u32),
    /// The log-likelihood of a response to an item at a point.
    Loglik(u16, u8, u8, i32),
}

/// The bank that these bytes are read to, or the fault. The calls of their source that have these
/// numbers fail.
pub(crate) fn read<R: Abort>(
    rt: &R,
    alloc: Global,
    bytes: Vec<u8>,
    fails: &[u64],
) -> Result<Bank, ReadFault> {
    read_bank(alloc, &mut source_of(rt, alloc, bytes, fails))
}

/// The stimulus of an item; none where the bank has no such item.
fn stimulus(bank: &Bank, item: u16) -> Option<u8> {
    if item < bank.items() {
        Some(bank.stimulus(item))
    } else {
        None
    }
}

/// The number of response categories of an item, in the same way.
fn categories(bank: &Bank, item: u16) -> Option<u8> {
    if item < bank.items() {
        Some(bank.categories(item))
    } else {
        None
    }
}

/// A quantity of an item; none where the bank has no such item or quantity.
fn quantity(bank: &Bank, item: u16, which: u8) -> Option<u32> {
    if item < bank.items() && which < bank.quantities() {
        Some(bank.quantity(item, which))
    } else {
        None
    }
}

/// The information of an item at a point; none where the bank has no such item or point.
fn info(bank: &Bank, item: u16, point: u8) -> Option<u32> {
    if item < bank.items() && point < bank.grid() {
        Some(bank.info(item, point))
    } else {
        None
    }
}

/// The log-likelihood of a response to an item at a point, in the same way.
fn loglik(bank: &Bank, item: u16, response: u8, point: u8) -> Option<i32> {
    if item < bank.items() && response < bank.categories(item) && point < bank.grid() {
        Some(bank.loglik(item, response, point))
    } else {
        None
    }
}

/// How many items, grid points, quantities and stimuli the bank has.
fn sizes(bank: &Bank) -> (u16, u8, u8, u8) {
    (bank.items(), bank.grid(), bank.quantities(), bank.stimuli())
}

fn expect_fact<R: Abort>(rt: &R, bank: &Bank, fact: &Fact) {
    match *fact {
        Fact::Sizes(items, grid, quantities, stimuli) => {
            expect_equal(rt, &sizes(bank), &(items, grid, quantities, stimuli))
        }
        Fact::Stimulus(item, expected) => expect_equal(rt, &stimulus(bank, item), &Some(expected)),
        Fact::Categories(item, expected) => expect_equal(
            rt,
            &categories(bank, item),
            &Some(expected),
        ),
        Fact::Quantity(item, which, expected) => {
            expect_equal(rt, &quantity(bank, item, which), &Some(expected))
        }
        Fact::Info(item, point, expected) => {
            expect_equal(rt, &info(bank, item, point), &Some(expected))
        }
        Fact::Loglik(item, response, point, expected) => {
            expect_equal(rt, &loglik(bank, item, response, point), &Some(expected))
        }
    }
}

fn expect_facts<R: Abort>(rt: &R, bank: &Bank, facts: &[Fact]) {
    for fact in facts {
        expect_fact(rt, bank, fact);
    }
}

/// Two items with two quantities, stimuli up to 3, and responses that one of them doesn't have.
const WIDE: &str =
    "item,stimulus,categories,q0,q1,i0,l0_0,l1_0,l2_0\n0,3,2,60,1,5,-1,-2,\n1,1,3,0,65535,1000000,-10000000,0,-3\n";

/// What is found of a bank of one item, one grid point and two responses.
const OF_ONE_ITEM: &[Fact] = &[
    Fact::Sizes(1, 1, 0, 0),
    Fact::Info(0, 0, 9),
    Fact::Loglik(0, 0, 0, -7),
];

/// Texts, each with what is found of its bank.
const TEXTS: [(&str, &[Fact]); 6] = [
    (
        BANK_A,
        &[
            Fact::Sizes(6, 3, 0, 0),
            Fact::Categories(2, 2),
            Fact::Info(2, 1, 9),
            Fact::Loglik(2, 1, 0, -30),
            Fact::Loglik(2, 1, 2, -1),
            Fact::Categories(4, 2),
            Fact::Loglik(4, 0, 0, 0),
            Fact::Loglik(4, 0, 2, -20),
        ],
    ),
    (
        WIDE,
        &[
            Fact::Sizes(2, 1, 2, 3),
            Fact::Stimulus(1, 1),
            Fact::Categories(1, 3),
            Fact::Quantity(0, 0, 60),
            Fact::Quantity(1, 1, 65_535),
            Fact::Info(1, 0, 1_000_000),
            Fact::Loglik(1, 0, 0, -10_000_000),
            Fact::Loglik(1, 2, 0, -3),
        ],
    ),
    // CSV has several texts for the same records: with quotes, CR LF, empty lines or a byte order
    // mark, or without the last line feed.
    (
        "item,stimulus,categories,i0,l0_0,l1_0\n0,0,2,9,-7,0\n",
        OF_ONE_ITEM,
    ),
    (
        "item,stimulus,categories,i0,l0_0,l1_0\r\n0,0,2,9,-7,0\r\n",
        OF_ONE_ITEM,
    ),
    (
        "item,stimulus,categories,i0,l0_0,l1_0\n\n\n0,0,2,9,-7,0",
        OF_ONE_ITEM,
    ),
    (
        "\u{feff}item,stimulus,\"categories\",i0,l0_0,l1_0\n\"0\",0,2,\"9\",-7,0\n",
        OF_ONE_ITEM,
    ),
];

/// The text is read to a bank of which this is found.
fn expect_bank<R: Abort>(rt: &R, alloc: Global, text: &str, facts: &[Fact]) {
    let bank = read(rt, alloc, bytes_of(rt, alloc, text), &[]).expect(rt, "a bank");
    expect_facts(rt, &bank, facts);
}

#[test]
fn texts_of_banks(rt: HostRuntime) {
    for (text, facts) in &TEXTS {
        expect_bank(&rt, rt.alloc(), text, facts);
    }
}

/// The stimulus of an item, its quantity, its information, and the log-likelihood of its first
/// response.
pub(crate) type ItemNumbers = (u32, u32, u32, i32);

/// The rows of one item, which has one quantity. They state so many quantities.
pub(crate) fn rows<R: Abort>(
    rt: &R,
    alloc: Global,
    quantities: u32,
    (stimulus, quantity, info, loglik): ItemNumbers,
) -> Rows {
    let mut items = Vec::new(alloc);
    let row = item(alloc, stimulus, &[quantity], &[info], &[loglik, 0]).expect(rt, "an item");
    items.push(row).expect(rt, "items");
    rows_of(1, quantities, items)
}

/// What is found of the rows with the greatest numbers.
const WIDEST: &[Fact] = &[Fact::Sizes(1, 1, 1, 64), Fact::Loglik(0, 0, 0, -10_000_000)];

#[test]
fn the_widest_bank_of_rows(rt: HostRuntime) {
    let widest = rows(&rt, rt.alloc(), 1, (64, 65_535, 1_000_000, -10_000_000));
    let bank = Bank::of(rt.alloc(), widest).expect(&rt, "a bank");
    expect_facts(&rt, &bank, WIDEST);
}
