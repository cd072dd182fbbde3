//! The connections to a follower.

ghost use Rattle.std.specs.Prelude.{◌≡◌, ◌≤◌, [], false, true, IfOk};
ghost use Rattle.exam_edge.specs.Faults.{Rose};
ghost use Rattle.host_edge.specs.HostDoor.{out_of};
ghost use Rattle.host_stream.specs.HostFollower.{faults_of, is_out};

use exam_edge::{Door, Failed};
use host_edge::{HostDoor, HostLink, Lines};
use std::alloc::AllocError;
use std::thread;
use std::time::Duration;

/// How many seconds pass before the next connection.
const PAUSE: u64 = 1;

/// A door whose accept connects to the address of a follower, and waits for a second before, but
/// for the first time. It gives any number of links, one after another, and does not report them.
/// Standard error has a line where a connection is made, and one where none can be made any more.
#[derive(Drop)]
pub struct HostFollower {
    rt: HostRuntime,
    lines: Lines,
    address: String,
    door: HostDoor,
    is_first: bool,
    /// Whether the last line is on a connection that could not be made.
    is_away: bool,
    faults: u64,
}

impl HostFollower {
    /// The follower at this address; no call has failed yet.
    pub fn of(rt: HostRuntime, lines: Lines, address: String) -> HostFollower
        ensures faults { faults_of result ≡ 0 }
        ensures out { is_out result ≡ false }
    {
        HostFollower {
            rt,
            lines,
            address,
            door: HostDoor::to_follow(rt, None),
            is_first: true,
            is_away: false,
            faults: 0,
        }
    }

    // Counts a fault, and tells of it where that is news.
    fn fail(&mut self) -> Failed
        ensures rose { Rose (faults_of self.old) (faults_of self.new) }
        ensures grows { faults_of self.old ≤ faults_of self.new }
        ensures out { is_out self.new ≡ is_out self.old }
    {
        if !self.is_away {
            let address = self.address.as_str();
            match self.door.cause() {
                Some(cause) => {
                    self.lines
                        .tell(format_args!("follower at {address}: {cause}"))
                }
                None => self
                    .lines
                    .tell(format_args!("follower at {address}: out of memory")),
            }
        }
        self.is_away = true;
        self.faults = self.faults.saturating_add(1);
        Failed
    }

    // Waits before a connection, but for the first one.
    fn pause(&mut self)
        ensures faults { faults_of self.new ≡ faults_of self.old }
        ensures out { is_out self.new ≡ is_out self.old }
    {
        if !self.is_first {
            thread::sleep(&self.rt, Duration::from_secs(PAUSE));
        }
        self.is_first = false;
    }

    // A door that connects once.
    fn next_door(&self) -> Result<HostDoor, AllocError>
        ensures { IfOk result (λ door. out_of door ≡ false) }
    {
        let (address, lines) = (self.address.clone()?, self.lines.share()?);
        Ok(HostDoor::to_ship(self.rt, address).telling(lines))
    }

    // A door that connects once takes the place of the last one, if there is room for it.
    fn renew(&mut self) -> bool
        ensures faults { faults_of self.new ≡ faults_of self.old }
        ensures out { result ≡ true → is_out self.new ≡ false }
        ensures kept { result ≡ false → is_out self.new ≡ is_out self.old }
    {
        match self.next_door() {
            Ok(door) => {
                self.door = door;
                true
            }
            Err(_) => false,
        }
    }
}

impl Door for HostFollower {
    type Link = HostLink;

    ghost tells = { λ d. false };

    ghost coming = { λ d. [] };

    ghost returned = { λ d. [] };

    ghost is_out = { is_out };

    ghost faults = { faults_of };

    ghost identity = { λ d. 0 };

    fn accept(&mut self) -> Result<Option<HostLink>, Failed> {
        self.pause();
        if !self.renew() {
            return Err(self.fail());
        }
        match self.door.accept() {
            Ok(link) => {
                let address = self.address.as_str();
                self.lines
                    .tell(format_args!("follower at {address}: connected"));
                self.is_away = false;
                Ok(link)
            }
            Err(_) => Err(self.fail()),
        }
    }

    fn back(&mut self, link: HostLink) {
        self.door.back(link);
    }
}
