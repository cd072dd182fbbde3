//! The workers on two doors in memory, one of which fails at its second call.

ghost use Rattle.std.specs.Prelude.{IfSome, false, ◌≡◌, ◌+◌, ◌^◌, ◌%◌};
ghost use Rattle.exam_edge.specs.MemoryDoor.{out_of};

use crate::equal::expect_equal;
use exam_edge::{Link, MemoryDoor, MemoryLink};
use exam_workers::{Service, Station, run_workers};
use std::alloc::Global;
use std::process::Abort;
use std::sync::Wait;
use std::test::Fail;

/// A service that counts its links.
struct Count;

impl<K: Link> Service<K> for Count {
    type Token = u64;

    ghost serves = { λ _ t k u l. u ≡ (t + 1) % 2 ^ 64 };

    ghost fair = { λ _ t k. Unit {0} };

    fn serve<R: Wait + Sync>(&self, _rt: &R, _alloc: Global, token: &mut u64, _link: &mut K) {
        *token = token.wrapping_add(1);
    }
}

// A door with so many links, whose second call may fail.
fn door(alloc: Global, links: u64, fails: bool) -> Option<MemoryDoor>
    ensures { IfSome result (λ d. out_of d ≡ false) }
{
    let mut all = Vec::new(alloc);
    for _ in 0..links {
        all.push(MemoryLink::of(alloc, Vec::new(alloc), Vec::new(alloc)))
            .ok()?;
    }
    let mut calls = Vec::new(alloc);
    if fails {
        calls.push(1u64).ok()?;
    }
    MemoryDoor::of(alloc, all, calls).ok()
}

fn station(door: MemoryDoor, links: u64) -> Station<MemoryDoor, u64>
    ensures { (result.door ≡ door) × (result.links ≡ links) }
{
    Station {
        door,
        token: 0,
        links,
        failed: false,
    }
}

// The station has these links, this token and whether it failed, and so many links went back.
fn expect_end<R: Abort>(
    rt: &R,
    station: &Station<MemoryDoor, u64>,
    expected: (u64, u64, bool),
    returned: usize,
) {
    expect_equal(
        rt,
        &(station.links, station.token, station.failed),
        &expected,
    );
    expect_equal(rt, &station.door.returned().len(), &returned);
}

#[test]
fn each_link_goes_back_and_a_failure_shows(rt: HostRuntime) -> Result<(), Fail> {
    let alloc = rt.alloc();
    let (Some(whole), Some(failing)) = (door(alloc, 3, false), door(alloc, 4, true)) else {
        panic!(rt; "out of memory")
    };
    let mut stations = [station(whole, 0), station(failing, u64::MAX)];
    run_workers(&rt, alloc, &mut stations, &Count);
    expect_end(&rt, &stations[0], (3, 3, false), 3);
    expect_end(&rt, &stations[1], (u64::MAX, 1, true), 1);
    Ok(())
}
