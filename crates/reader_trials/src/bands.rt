//! The points at which bands of ability begin: what a plan with them is taken or refused for, how
//! it is printed, and the band of each grid point. What is expected is from the rules of a plan, or
//! was worked out by hand.

use crate::equal::expect_equal;
use crate::plan::{Worked, bank_of, printed_over_a};
use bank_tables::{Bank, List};
use constraint_model::{Draft, Rate, Spec, SpecFault};
use std::alloc::Global;
use std::process::Abort;
use trial_cases::{draft_of, item, rows_of};

/// One item on a grid of nine points.
fn wide_bank<R: Abort>(rt: &R, alloc: Global) -> Bank {
    let row = item(alloc, 0, &[], &[1; 9], &[-1; 18]).expect(rt, "an item");
    let items = vec![in alloc; row].expect(rt, "items");
    Bank::of(alloc, rows_of(9, 0, items)).expect(rt, "a bank")
}

/// The points as those of a draft.
fn points_of<R: Abort>(rt: &R, alloc: Global, points: &[u8]) -> List<u8> {
    List::of(points.to_vec(alloc).expect(rt, "points"))
}

/// A draft for the wide bank, in which bands begin at these points.
fn draft_with<R: Abort>(rt: &R, alloc: Global, points: &[u8]) -> Draft {
    let mut draft = draft_of(alloc, 1, &[0; 9], &[], &[]).expect(rt, "a draft");
    draft.bands = points_of(rt, alloc, points);
    draft
}

/// Points, and the fault of the draft that has them over the wide bank.
type Points = (&'static [u8], Option<SpecFault>);

const POINTS: [Points; 13] = [
    (&[], None),
    (&[1], None),
    (&[8], None),
    (&[1, 8], None),
    (&[2, 3, 4, 5, 6, 7, 8], None),
    // Eight points, which rise and are points of the grid.
    (&[1, 2, 3, 4, 5, 6, 7, 8], Some(SpecFault::BadBands)),
    // Falling, and equal.
    (&[4, 2], Some(SpecFault::BadBands)),
    (&[1, 5, 4], Some(SpecFault::BadBands)),
    (&[4, 4], Some(SpecFault::BadBands)),
    // The first point of the grid, and past the last.
    (&[0], Some(SpecFault::BadBands)),
    (&[0, 4], Some(SpecFault::BadBands)),
    (&[9], Some(SpecFault::BadBands)),
    (&[4, 255], Some(SpecFault::BadBands)),
];

/// The draft with these points has this fault.
fn expect_fault<R: Abort>(rt: &R, alloc: Global, (points, fault): &Points) {
    let bank = wide_bank(rt, alloc);
    let draft = draft_with(rt, alloc, points);
    expect_equal(rt, &Spec::of(alloc, &bank, draft).err(), fault);
}

#[test]
fn points_that_are_taken_and_refused(rt: HostRuntime) {
    for points in &POINTS {
        expect_fault(&rt, rt.alloc(), points);
    }
}

/// A rate and a budget, and the fault of the draft that has them and a band from point 0 on.
type Order = ((u32, u32), u32, SpecFault);

/// The bands are tested after the rate, and before the budgets.
const ORDER: [Order; 3] = [
    ((0, 1), 4, SpecFault::BadRate),
    ((1, 1), 4, SpecFault::BadBands),
    ((1, 1), 1, SpecFault::BadBands),
];

fn expect_order<R: Abort>(rt: &R, alloc: Global, ((num, den), budget, fault): Order) {
    let bank = wide_bank(rt, alloc);
    let draft = Draft {
        rate: Rate { num, den },
        budget,
        ..draft_with(rt, alloc, &[0])
    };
    expect_equal(rt, &Spec::of(alloc, &bank, draft).err(), &Some(fault));
}

#[test]
fn bands_are_tested_between_the_rate_and_the_budgets(rt: HostRuntime) {
    for order in &ORDER {
        expect_order(&rt, rt.alloc(), *order);
    }
}

/// The band of each grid point of the wide bank.
fn expect_each_band<R: Abort>(rt: &R, spec: &Spec, bands: &[u8; 9]) {
    for point in 0..9 {
        expect_equal(rt, &spec.band(point), &bands[point as usize]);
    }
}

/// The plan with these points has them, and these bands.
fn expect_bands<R: Abort>(rt: &R, alloc: Global, points: &[u8], bands: &[u8; 9]) {
    let bank = wide_bank(rt, alloc);
    let draft = draft_with(rt, alloc, points);
    let spec = Spec::of(alloc, &bank, draft).expect(rt, "a plan");
    expect_equal(rt, &spec.bands(), &points);
    expect_each_band(rt, &spec, bands);
}

#[test]
fn the_band_of_a_point(rt: HostRuntime) {
    expect_bands(&rt, rt.alloc(), &[], &[0; 9]);
    expect_bands(&rt, rt.alloc(), &[2, 5], &[0, 0, 1, 1, 1, 2, 2, 2, 2]);
    expect_bands(
        &rt,
        rt.alloc(),
        &[1, 2, 3, 4, 5, 6, 8],
        &[0, 1, 2, 3, 4, 5, 6, 6, 7],
    );
}

/// A plan of bank A with two points, as it is printed.
const PRINTED: &str =
    "length 3\nprior 0 0 0\nrate 1 1\nkey 0000000000000000000000000000000000000000000000000000000000000000\nbands 1 2\nbudget 5\nbase-budget 4095\nsessions 1000\njournal 67108864\n";

#[test]
fn bands_are_printed_after_the_key(rt: HostRuntime) {
    let found = printed_over_a(
        &rt,
        rt.alloc(),
        "bands 1 2\nbudget 5\nlength 3\nprior 0 0 0\n",
    );
    expect_equal(&rt, &found.as_slice(), &PRINTED.as_bytes());
    let again = printed_over_a(&rt, rt.alloc(), PRINTED);
    expect_equal(&rt, &again.as_slice(), &PRINTED.as_bytes());
}

/// A plan for a bank of one grid point can have no bands.
fn expect_no_bands_on_one_point<R: Abort>(rt: &R, alloc: Global, point: u8) {
    let bank = bank_of(rt, alloc, Worked::Q);
    let mut draft = draft_of(alloc, 2, &[0], &[], &[]).expect(rt, "a draft");
    draft.bands = points_of(rt, alloc, &[point]);
    let fault = Spec::of(alloc, &bank, draft).err();
    expect_equal(rt, &fault, &Some(SpecFault::BadBands));
}

#[test]
fn a_grid_of_one_point_has_no_bands(rt: HostRuntime) {
    expect_no_bands_on_one_point(&rt, rt.alloc(), 0);
    expect_no_bands_on_one_point(&rt, rt.alloc(), 1);
}
