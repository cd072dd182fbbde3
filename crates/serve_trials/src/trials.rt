//! The lists that passes in threads leave.

use crate::equal::expect_equal;
use crate::threads::{many_threads, two_threads};
use std::process::Abort;
use std::test::Fail;

// How often a number is in a list.
fn count_of(items: &[u32], number: u32) -> usize {
    let mut count = 0usize;
    for item in items {
        if *item == number {
            count = count.saturating_add(1);
        }
    }
    count
}

// The list has this length. Each number from `first` to below `last` is in it this many times.
fn expect_each<R: Abort>(
    rt: &R,
    items: &[u32],
    length: usize,
    (first, last): (u32, u32),
    times: usize,
) {
    expect_equal(rt, &items.len(), &length);
    for number in first..last {
        expect_equal(rt, &count_of(items, number), &times);
    }
}

#[test]
fn each_of_two_threads_finds_its_own(rt: HostRuntime) -> Result<(), Fail> {
    match two_threads(&rt, rt.alloc()) {
        Some(items) => Ok(expect_each(&rt, &items, 2000, (0, 2), 1000)),
        None => Err(Fail::from("out of memory")),
    }
}

#[test]
fn sixteen_threads_append_each_number(rt: HostRuntime) -> Result<(), Fail> {
    match many_threads(&rt, rt.alloc(), 16, 100) {
        Some(items) => Ok(expect_each(&rt, &items, 1600, (1, 17), 100)),
        None => Err(Fail::from("out of memory")),
    }
}
