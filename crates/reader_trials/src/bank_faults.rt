//! Texts and rows that describe no bank, each with its fault; sources that fail, and the longest
//! text.

use crate::bank::{ItemNumbers, read, rows};
use crate::equal::{expect_equal, expect_equal_at};
use crate::source::bytes_of;
use bank_reader::ReadFault;
use bank_tables::{Bank, BankFault};
use std::alloc::Global;
use std::process::Abort;
use trial_cases::BANK_A;

/// The text with the first `old` in it as `new`.
fn changed<R: Abort>(rt: &R, alloc: Global, text: &str, old: &str, new: &str) -> String {
    let at = text.find(old).expect(rt, "the old text");
    let (front, rest) = text.split_at(at);
    let (_, back) = rest.split_at(old.len());
    let mut result = String::new(alloc);
    result.push_str(front).expect(rt, "a text");
    result.push_str(new).expect(rt, "a text");
    result.push_str(back).expect(rt, "a text");
    result
}

/// The text has this fault.
fn expect_refusal<R: Abort>(rt: &R, alloc: Global, text: &str, fault: ReadFault) {
    let found = read(rt, alloc, bytes_of(rt, alloc, text), &[]).err();
    expect_equal_at(rt, text, &found, &Some(fault));
}

/// Changes of bank A's text, each with its fault.
const CHANGES: [(&str, &str, ReadFault); 17] = [
    (
        "2,0,2,4",
        "2,0,6,4",
        ReadFault::Bank(BankFault::BadCategories(2)),
    ),
    ("stimulus", "stimulos", ReadFault::Header(1)),
    ("stimulus,", "", ReadFault::Header(1)),
    ("1,0,2,7", "1,0,x,7", ReadFault::Field(2, 2)),
    ("-30,-15,-1\n", "-30,-15\n", ReadFault::Csv(3)),
    ("-30,-15,-1\n", "-30,-15,-1,\n", ReadFault::Csv(3)),
    ("0,0,2,9,5,1,-7", "0,0,2,9,5,1,-0", ReadFault::Field(1, 6)),
    (
        "0,0,2,9,5,1,-7",
        "0,0,2,9,5,1,7",
        ReadFault::Bank(BankFault::BadLogLik(0)),
    ),
    ("3,0,2,2", "4,0,2,2", ReadFault::Field(4, 0)),
    ("5,0,2,3,7", "5,0,2,3,07", ReadFault::Field(6, 4)),
    (
        "5,0,2,3,7",
        "5,65,2,3,7",
        ReadFault::Bank(BankFault::BadStimulus(5)),
    ),
    ("5,0,2,3,7", "5,0,1,3,7", ReadFault::Field(6, 9)),
    (
        "5,0,2,3,7",
        "5,0,2,3,1000001",
        ReadFault::Bank(BankFault::BadInfo(5)),
    ),
    ("5,0,2,3,7", "5,0,2,3,1000000000", ReadFault::Field(6, 4)),
    (",l1_2", "", ReadFault::Header(11)),
    (",l1_2", ",l1_2,l2_0", ReadFault::Header(13)),
    ("i0", "q0", ReadFault::Header(4)),
];

#[test]
fn changes_of_bank_a(rt: HostRuntime) {
    for (old, new, fault) in &CHANGES {
        let text = changed(&rt, rt.alloc(), BANK_A, old, new);
        expect_refusal(&rt, rt.alloc(), &text, *fault);
    }
}

/// Texts with several faults, each with its first. The text is read from its front. The bounds of
/// the numbers are tested after the whole text.
const SEVERAL: [(&str, ReadFault); 9] = [
    ("", ReadFault::Header(0)),
    ("item,stimulus\n", ReadFault::Header(2)),
    ("item,stimulus,categories\n", ReadFault::Header(3)),
    (
        "item,stimulus,categories,i0,l0_0,l1_0\n",
        ReadFault::Bank(BankFault::NoItems),
    ),
    (
        "item,stimulus,categories,i0,l0_0\n0\n",
        ReadFault::Header(5),
    ),
    (
        "item,stimulus,categories,i0,l0_0,l1_0\n0,0,9,9,-7,0\n1,0,2,x,-7,0\n",
        ReadFault::Field(2, 3),
    ),
    (
        "item,stimulus,categories,i0,l0_0,l1_0\n0,0,2,x,y,0\n1\n",
        ReadFault::Field(1, 3),
    ),
    (
        "item,stimulus,categories,i0,l0_0,l1_0\n0,0,2,x\n1,y,2,9,-7,0\n",
        ReadFault::Csv(1),
    ),
    (
        "item,stimulus,categories,i0,l0_0,l1_0\n0,99,9,9,1,0\n",
        ReadFault::Bank(BankFault::BadStimulus(0)),
    ),
];

#[test]
fn first_of_several(rt: HostRuntime) {
    for (text, fault) in &SEVERAL {
        expect_refusal(&rt, rt.alloc(), text, *fault);
    }
}

/// A header of one grid point and two responses.
const HEADER: &[u8] = b"item,stimulus,categories,i0,l0_0,l1_0\n";

/// One item of it.
const ITEM: &[u8] = b"0,0,2,9,-7,0\n";

/// A text of this length: the header and the item, 51 bytes, with empty lines between them.
fn padded<R: Abort>(rt: &R, alloc: Global, length: usize) -> Vec<u8> {
    let lines = vec![in alloc; b'\n'; length.saturating_sub(51)].expect(rt, "lines");
    let mut text = HEADER.to_vec(alloc).expect(rt, "a header");
    text.extend_from_slice(&lines).expect(rt, "lines");
    text.extend_from_slice(ITEM).expect(rt, "an item");
    text
}

/// How many items the bank has that was read, or the fault.
fn items_in(read: Result<Bank, ReadFault>) -> Result<u16, ReadFault> {
    match read {
        Ok(bank) => Ok(bank.items()),
        Err(fault) => Err(fault),
    }
}

/// Lengths of texts and calls of their sources that fail, each with how many items the bank has, or
/// the fault.
///
/// 10,000 bytes take four calls: three pieces of at most 4,096 bytes, and one that meets the end.
/// Each of these, if it fails, is a fault of the source. There is no fifth call.
const LENGTHS: [(usize, &[u64], Result<u16, ReadFault>); 7] = [
    (4_194_304, &[], Ok(1)),
    (4_194_305, &[], Err(ReadFault::TooLong)),
    (10_000, &[0], Err(ReadFault::Source)),
    (10_000, &[1], Err(ReadFault::Source)),
    (10_000, &[2], Err(ReadFault::Source)),
    (10_000, &[3], Err(ReadFault::Source)),
    (10_000, &[4], Ok(1)),
];

fn expect_padded<R: Abort>(
    rt: &R,
    alloc: Global,
    length: usize,
    fails: &[u64],
    expected: &Result<u16, ReadFault>,
) {
    let text = padded(rt, alloc, length);
    expect_equal(rt, &text.len(), &length);
    expect_equal(rt, &items_in(read(rt, alloc, text, fails)), expected);
}

#[test]
fn long_texts_and_failing_reads(rt: HostRuntime) {
    for (length, fails, expected) in &LENGTHS {
        expect_padded(&rt, rt.alloc(), *length, fails, expected);
    }
}

/// How many quantities the rows of one item state, its numbers, and the first fault.
const ROWS: [(u32, ItemNumbers, BankFault); 5] = [
    (1, (65, 65_536, 1_000_001, 1), BankFault::BadStimulus(0)),
    (1, (0, 65_536, 1_000_001, 1), BankFault::BadQuantity(0)),
    (1, (0, 0, 1_000_001, 1), BankFault::BadInfo(0)),
    (1, (0, 0, 0, 1), BankFault::BadLogLik(0)),
    (9, (0, 0, 0, 0), BankFault::BadGrid),
];

fn expect_refusal_of_rows<R: Abort>(
    rt: &R,
    alloc: Global,
    quantities: u32,
    numbers: ItemNumbers,
    fault: BankFault,
) {
    let found = Bank::of(alloc, rows(rt, alloc, quantities, numbers)).err();
    expect_equal(rt, &found, &Some(fault));
}

#[test]
fn faults_of_rows(rt: HostRuntime) {
    for (quantities, numbers, fault) in &ROWS {
        expect_refusal_of_rows(&rt, rt.alloc(), *quantities, *numbers, *fault);
    }
}
