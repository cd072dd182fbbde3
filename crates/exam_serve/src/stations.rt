//! The stations of a hall: how each door gets one, and how its pass and its door come back.

ghost use Rattle.std.specs.Prelude.{◌≡◌, ◌+◌, ◌<◌, ◌≤◌, ◌++◌, ◌∷◌, [], false, ◌||◌, length, map, vec_len, vec_capacity};
ghost use Rattle.std.specs.List.{All, list_any};
ghost use mathlib.Core.List.{reverse};
ghost use Rattle.turn_lock.specs.Histories.{StartsWith};
ghost use Rattle.turn_lock.specs.Passes.{TakesIn};
ghost use Rattle.exam_hall.specs.Known.{IsOf};
ghost use Rattle.prepare_desk.specs.Posts.{IsFirstOf};
ghost use Rattle.prepare_desk.specs.Desks.{purpose_of};
ghost use Rattle.exam_serve.specs.Doors.{IsNewStation, door_of, has_failed, has_starved};
ghost use Rattle.exam_serve.specs.Joining.{AreJoined, IsSamePass};

use crate::connections::{Attendant, either};
use exam_edge::{Disk, Door, Gate};
use exam_hall::Hall;
use exam_handler::Observer;
use exam_office::Office;
use exam_workers::Station;
use prepare_desk::{Desk, Post, PreparingCaller};
use turn_lock::{Pass, Turn};

/// Makes a station of a door, with a pass of its own.
fn station_at<'h, 'a, D: Disk, G: Gate + Observer, L: Door>(
    hall: &'h Hall<'a, D>,
    gate: &'h G,
    pass: &mut Pass<Office<'a, D>>,
    desk: &'h Turn<Desk<'a>>,
    first: &mut Pass<Desk<'a>>,
    prepares: bool,
    door: L,
) -> Station<L, Attendant<'h, 'a, D, G>>
    requires of { IsOf pass.old hall.now }
    requires first { (pass.old.number ≡ 0) × (pass.old.splits < 65535) }
    requires start { pass.old.start ≡ length pass.old.seen }
    requires home { L.is_out door ≡ false }
    requires desk { IsFirstOf desk.now (purpose_of hall.now) first.old }
    requires splits { first.old.splits < 65535 }
    ensures door { result.door ≡ door }
    ensures made { IsNewStation L.is_out hall.now pass.old.seen result }
    ensures pass { pass.new ≡ record pass.old { splits = pass.old.splits + 1 } }
    ensures of { IsOf pass.new hall.now }
    ensures desk { IsFirstOf desk.now (purpose_of hall.now) first.new }
    ensures splits { first.new.splits ≡ first.old.splits + 1 }
{
    let post = Post::new(desk, first);
    let caller = PreparingCaller::new(hall, gate, hall.split(pass), post, prepares);
    Station {
        door,
        token: Attendant::new(caller),
        links: 0,
        failed: false,
    }
}

/// Makes a station of each door, the last door first. There is room for them.
pub(crate) fn make_stations<'h, 'a, D: Disk, G: Gate + Observer, L: Door>(
    hall: &'h Hall<'a, D>,
    gate: &'h G,
    pass: &mut Pass<Office<'a, D>>,
    desk: &'h Turn<Desk<'a>>,
    first: &mut Pass<Desk<'a>>,
    prepares: bool,
    doors: &mut Vec<L>,
    stations: &mut Vec<Station<L, Attendant<'h, 'a, D, G>>>,
)
    requires of { IsOf pass.old hall.now }
    requires desk { IsFirstOf desk.now (purpose_of hall.now) first.old }
    requires splits { first.old.splits + vec_len doors.old ≤ 65535 }
    requires first { (pass.old.number ≡ 0) × (pass.old.splits + vec_len doors.old ≤ 65535) }
    requires start { pass.old.start ≡ length pass.old.seen }
    requires home { All (λ d. L.is_out d ≡ false) doors.old.items }
    requires empty { stations.old.items ≡ [] }
    requires room { vec_len doors.old ≤ vec_capacity stations.old }
    ensures made { All (IsNewStation L.is_out hall.now pass.old.seen) stations.new.items }
    ensures doors { map door_of stations.new.items ≡ reverse doors.old.items }
    ensures none { doors.new.items ≡ [] }
    ensures count { vec_len stations.new ≡ vec_len doors.old }
    ensures room { vec_capacity doors.new ≡ vec_capacity doors.old }
    ensures pass { pass.new ≡ record pass.old {
      splits = pass.old.splits + vec_len doors.old;
    } }
    ensures of { IsOf pass.new hall.now }
    ensures desk { IsFirstOf desk.now (purpose_of hall.now) first.new }
{
    for _ in 0..doors.len() {
        let door = doors.pop().unwrap();
        let station = station_at(hall, gate, pass, desk, first, prepares, door);
        stations.push_reserved(station);
    }
}

/// What is told of stations that were cleared.
#[derive(Clone, Copy)]
pub(crate) struct Cleared {
    /// A door failed.
    pub failed: bool,
    /// A connection ended for lack of memory.
    pub starved: bool,
}

/// What is told of the stations of both.
fn both(first: Cleared, second: Cleared) -> Cleared
    ensures failed { result.failed ≡ (first.failed || second.failed) }
    ensures starved { result.starved ≡ (first.starved || second.starved) }
{
    Cleared {
        failed: either(first.failed, second.failed),
        starved: either(first.starved, second.starved),
    }
}

/// Joins the pass of a station, and takes its door back.
fn clear_station<'h, 'a, D: Disk, G: Gate + Observer, L: Door>(
    hall: &'h Hall<'a, D>,
    pass: &mut Pass<Office<'a, D>>,
    doors: &mut Vec<L>,
    station: Station<L, Attendant<'h, 'a, D, G>>,
) -> Cleared
    requires of { IsOf pass.old hall.now }
    requires same { station.token.caller.hall ≡ hall.now }
    requires room { vec_len doors.old < vec_capacity doors.old }
    ensures doors { doors.new.items ≡ doors.old.items ++ station.entry.door ∷ [] }
    ensures len { vec_len doors.new ≡ vec_len doors.old + 1 }
    ensures room { vec_capacity doors.new ≡ vec_capacity doors.old }
    ensures joined { TakesIn pass.old station.entry.token.caller.pass pass.new }
    ensures of { IsOf pass.new hall.now }
    ensures failed { result.failed ≡ station.entry.failed }
    ensures starved { result.starved ≡ station.entry.token.starved }
{
    let Station {
        door,
        token,
        links: _,
        failed,
    } = station;
    let (caller, starved) = token.into_parts();
    hall.join(pass, caller.into_pass());
    doors.push_reserved(door);
    Cleared { failed, starved }
}

/// Joins the passes of the stations, the last station first, and takes their doors back. There is
/// room for them.
pub(crate) fn clear_stations<'h, 'a, D: Disk, G: Gate + Observer, L: Door>(
    hall: &'h Hall<'a, D>,
    pass: &mut Pass<Office<'a, D>>,
    doors: &mut Vec<L>,
    stations: &mut Vec<Station<L, Attendant<'h, 'a, D, G>>>,
) -> Cleared
    requires of { IsOf pass.old hall.now }
    requires same { All (λ s. s.token.caller.hall ≡ hall.now) stations.old.items }
    requires new { pass.old.mine ≡ [] }
    requires empty { doors.old.items ≡ [] }
    requires room { vec_len stations.old ≤ vec_capacity doors.old }
    ensures doors { doors.new.items ≡ map door_of (reverse stations.old.items) }
    ensures joined { AreJoined pass.new (reverse stations.old.items) }
    ensures begins { StartsWith pass.new.seen pass.old.seen }
    ensures same { IsSamePass pass.old pass.new }
    ensures none { stations.new.items ≡ [] }
    ensures of { IsOf pass.new hall.now }
    ensures failed { result.failed ≡ list_any has_failed (reverse stations.old.items) }
    ensures starved { result.starved ≡ list_any has_starved (reverse stations.old.items) }
{
    let mut cleared = Cleared {
        failed: false,
        starved: false,
    };
    for _ in 0..stations.len() {
        let station = stations.pop().unwrap();
        let now = clear_station(hall, pass, doors, station);
        cleared = both(cleared, now);
    }
    cleared
}
