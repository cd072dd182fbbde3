//! The ability estimate: ties, and the sums of the first worked example. What is expected was
//! worked out by hand.

ghost use Rattle.std.specs.Prelude.{◌≡◌, IsTrue};
ghost use Rattle.bank_tables.specs.Tables.{categories, size};

use crate::equal::expect_equal;
use ability_grid::Sums;
use bank_tables::Bank;
use std::process::Abort;
use trial_cases::bank_a;

/// Priors, each with the lowest point at which it is greatest.
const PRIORS: [(&[i32], u8); 5] = [
    (&[-4, -4, -4], 0),
    (&[-5, -4, -4], 1),
    (&[0, 0, 0], 0),
    (&[-9], 0),
    (&[i32::MIN, i32::MAX], 1),
];

fn expect_mode<R: Abort>(rt: &R, prior: &[i32], mode: u8) {
    if prior.is_empty() || prior.len() > 61 {
        panic!(rt; "no prior");
    }
    expect_equal(rt, &Sums::of_prior(prior).mode(), &mode);
}

#[test]
fn the_lowest_point_of_a_tie(rt: HostRuntime) {
    for (prior, mode) in &PRIORS {
        expect_mode(&rt, prior, *mode);
    }
}

/// Whether the bank has six items and three points, and items 2 and 4 have two response categories.
fn is_like_a(bank: &Bank) -> bool
    ensures { IsTrue result → (size bank.now ≡ 6) × (bank.now.grid ≡ 3)
        × (categories bank.now 2 ≡ 2) × (categories bank.now 4 ≡ 2) }
{
    bank.items() == 6 && bank.grid() == 3 && bank.categories(2) == 2 && bank.categories(4) == 2
}

/// The modes of a prior alone, with an answer to item 2, and with one to item 4 too.
///
/// The prior is -10, 0, -10. The first answer adds -30, -15, -1, which gives -40, -15, -11. The
/// second adds 0, -1, -20, which gives -40, -16, -31.
fn modes<R: Abort>(rt: &R, bank: &Bank) -> [u8; 3] {
    if !is_like_a(bank) {
        panic!(rt; "not bank A");
    }
    let mut sums = Sums::of_prior(&[-10, 0, -10]);
    let first = sums.mode();
    sums.add(bank, 2, 1);
    let second = sums.mode();
    sums.add(bank, 4, 0);
    [first, second, sums.mode()]
}

#[test]
fn answers_move_the_estimate(rt: HostRuntime) {
    let bank = bank_a(rt.alloc()).expect(&rt, "a bank");
    expect_equal(&rt, &modes(&rt, &bank), &[1, 2, 1]);
}
