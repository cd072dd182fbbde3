//! Workers: the links of each door are served one after another, on that door's token, and the
//! doors in threads of their own. Upward: each link that a door gave was served once, in order, on
//! the token that the one before it left, and then came back to its door; a station has failed
//! exactly where the last call of its door did. It knows nothing of what a service does with a
//! link, and promises nothing on time.
#![tactic(auto)]

ghost use Rattle.std.specs.Prelude.{◌≡◌, true, false, All, Contains, IsTrue, MatchBool, length};
ghost use Rattle.std.specs.Thread.{IsSync};
ghost use Rattle.exam_workers.specs.Stations.{ServesLink, Serves, Ends, EachServes, IsFair};

use exam_edge::{Door, Link};
use std::alloc::Global;
use std::sync::Wait;
use std::thread;
use std::thread::Threads;

/// What is done with a link.
pub trait Service<K: Link> {
    /// What it has beside a link, from one link to the next.
    type Token: Send;

    /// What it does: of the token and the link before, and of both after.
    ghost serves: { Self → Self.Token → K → Self.Token → K → Type 0 };

    /// What it asks of a link before it serves it on a token: that all is allowed that it may
    /// write.
    ghost fair: { Self → Self.Token → K → Type 0 };

    /// Serves one link to its end. That threads may share `rt` is a clause too: a method of an impl
    /// doesn't know it by the bound.
    fn serve<R: Wait + Sync>(&self, rt: &R, alloc: Global, token: &mut Self::Token, link: &mut K)
        requires shared { IsSync R.row }
        requires fair { fair self.now token.old link.old }
        // Promise: What a service does with a link and a token is its relation
        ensures { serves self.now token.old link.old token.new link.new };
}

/// A door with the token that its links are served on.
#[derive(Drop)]
pub struct Station<L: Door, T> {
    /// Where the links come from, and go back to.
    pub door: L,
    /// What the service has from one link to the next.
    pub token: T,
    /// How many links were served; it stays at its greatest value.
    pub links: u64,
    /// Whether the last call of the door failed.
    pub failed: bool,
}

// Serves the next link, and answers whether the door gave none.
fn serve_next<L: Door, S: Service<L::Link>, R: Wait + Sync>(
    rt: &R,
    alloc: Global,
    station: &mut Station<L, S::Token>,
    service: &S,
) -> bool
    requires home { L.is_out station.old.door ≡ false }
    requires fair { (link : L.Link)
        → (IsTrue (L.tells station.old.door) → Contains (L.coming station.old.door) link)
        → S.fair service.now station.old.token link }
    ensures serves { Serves L.tells L.coming L.returned L.is_out L.faults L.identity
        (S.serves service.now) station.old station.new }
    ensures ends { MatchBool result
        (Ends L.tells L.coming L.faults station.old station.new) (Unit {0}) }
{
    let _links = station.links;
    match station.door.accept() {
        Err(_) => {
            station.failed = true;
            true
        }
        Ok(None) => {
            station.failed = false;
            true
        }
        Ok(Some(link)) => {
            serve_link(rt, alloc, station, service, link);
            false
        }
    }
}

// Serves a link that is out, hands it back to its door, and counts it.
fn serve_link<L: Door, S: Service<L::Link>, R: Wait + Sync>(
    rt: &R,
    alloc: Global,
    station: &mut Station<L, S::Token>,
    service: &S,
    link: L::Link,
)
    requires out { L.is_out station.old.door ≡ true }
    requires fair { S.fair service.now station.old.token link }
    ensures served { ServesLink L.tells L.coming L.returned L.is_out L.faults L.identity
        (S.serves service.now) station.old link station.new }
{
    let mut link = link;
    let links = station.links;
    service.serve(rt, alloc, &mut station.token, &mut link);
    station.door.back(link);
    station.links = links.saturating_add(1);
}

// Serves the links of a station until its door gives none or fails.
fn work<L: Door, S: Service<L::Link>, R: Wait + Sync>(
    rt: &R,
    alloc: Global,
    station: &mut Station<L, S::Token>,
    service: &S,
)
    requires home { L.is_out station.old.door ≡ false }
    requires fair { IsFair L.tells L.coming (S.serves service.now) (S.fair service.now)
        station.old }
    ensures serves { Serves L.tells L.coming L.returned L.is_out L.faults L.identity
        (S.serves service.now) station.old station.new }
    ensures ends { Ends L.tells L.coming L.faults station.old station.new }
{
    let _links = station.links;
    for _ in rt.forever() {
        if serve_next(rt, alloc, station, service) {
            return;
        }
    }
    unreachable!()
}

/// Serves the links of each station, the stations in threads of their own, until each door gives no
/// more or fails. No link of a station's door may be out before, and each link that it may give has
/// to be fair. Where no thread can be made, the caller does that work itself, one station after
/// another.
pub fn run_workers<L: Door + Send, S: Service<L::Link> + Sync, R: Threads + Wait + Sync>(
    rt: &R,
    alloc: Global,
    stations: &mut [Station<L, S::Token>],
    service: &S,
)
    requires home { All (λ s. L.is_out s.door ≡ false) stations.old }
    // Promise: A service serves only links that are fair to serve on the token that the links
    // before left
    // - of `run_workers`, `Service::serve`
    // - by the condition `fair` (`IsFair`)
    requires fair { All (IsFair L.tells L.coming (S.serves service.now) (S.fair service.now))
        stations.old }
    // Promise: Each link that a door gave was served once, with that door's token, in order, and
    // went back to its door. A station has failed only where a call of its door was counted as a
    // fault; the door of any other gives no more links
    // - by `length`, `each` (`EachServes`)
    ensures length { length stations.new ≡ length stations.old }
    ensures each { EachServes L.tells L.coming L.returned L.is_out L.faults L.identity
        (S.serves service.now) stations.old stations.new }
{
    let count = stations.len();
    if count == 0 {
        return;
    }
    thread::for_each_mut(
        rt,
        stations,
        count,
        &|_: usize, station: &mut Station<L, S::Token>|
            requires { (L.is_out station.now.door ≡ false)
                × IsFair L.tells L.coming (S.serves service.now) (S.fair service.now)
                station.now }
            ensures { Serves L.tells L.coming L.returned L.is_out L.faults L.identity
                (S.serves service.entry.now) station.entry.now station.exit.now
                × Ends L.tells L.coming L.faults station.entry.now station.exit.now }
        { work(rt, alloc, station, service) },
    );
}
