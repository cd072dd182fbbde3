//! Sets of items. What is expected was worked out by hand.

use crate::equal::expect_equal;
use bank_tables::ItemSet;

/// The items 0, 63 and 64.
fn low() -> ItemSet {
    ItemSet::empty().with(0).with(63).with(64)
}

/// The items 64 and 511.
fn high() -> ItemSet {
    ItemSet::empty().with(64).with(511)
}

#[test]
fn members_of_sets(rt: HostRuntime) {
    assert!(rt; low().count() == 3 && low().union(high()).count() == 4);
    assert!(rt; low().minus(high()).first() == Some(0));
    assert!(rt; high().without(64).first() == Some(511));
    assert!(rt; ItemSet::empty().first() == None);
}

#[test]
fn sets_in_sets(rt: HostRuntime) {
    expect_equal(&rt, &low().meet(high()), &ItemSet::empty().with(64));
    assert!(rt; low().minus(high()).is_subset(&low()));
    assert!(rt; !low().is_subset(&high()));
    assert!(rt; low().all_below(65) && !low().all_below(64));
}
