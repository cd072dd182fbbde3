//! A door of the host.

ghost use Rattle.std.specs.Prelude.{◌≡◌, ◌≤◌, ◌-◌, [], All, vec_len, Ok, Some, None, true, false, is_ok, is_some, option_map, IsErr, IsNone, IfOk, OnErr};
ghost use Rattle.exam_edge.specs.Faults.{Rose};
ghost use Rattle.host_edge.specs.FaultCount.{count_of, cause_of, IsCounted};
ghost use Rattle.host_edge.specs.HostDoor.{comes_from, listens, left_of, out_of, ended_of, faults_of, IsLinkCounted};

use crate::again::{accept_again, connect_within};
use crate::candidates::Candidates;
use crate::closing::{Closing, is_closing};
use crate::fault_count::FaultCount;
use crate::idle_streams::IdleStreams;
use crate::trouble::tell_end;
use crate::{HostLink, Lines, Patience};
use exam_edge::{Door, Failed, Memory};
use std::alloc::Global;
use std::io;
use std::io::ErrorKind;
use std::net::TcpListener;
use std::time::Duration;

/// Where the connections of a door come from.
#[derive(Drop)]
enum Origin {
    /// From nowhere: each accept fails.
    Nowhere,
    /// From a listener, which other doors may share.
    Listener(TcpListener),
    /// From an accept, which connects to this address.
    Address(String),
}

impl Origin {
    // Whether connections can come from it.
    fn is_somewhere(&self) -> bool
        ensures { result ≡ comes_from self.now }
    {
        match self {
            Origin::Nowhere => false,
            Origin::Listener(_) => true,
            Origin::Address(_) => true,
        }
    }
}

// A listener, if there is one.
fn origin_of(listener: Option<TcpListener>) -> Origin
    ensures { comes_from result ≡ is_some listener }
{
    match listener {
        Some(listener) => Origin::Listener(listener),
        None => Origin::Nowhere,
    }
}

/// What a door gives of the connections that come.
#[derive(Drop)]
enum Choice {
    /// Each connection, as it comes.
    Each,
    /// The messages of all connections, each as soon as it is there as a whole.
    Messages(IdleStreams),
    /// Of the connections that are there, the one that sends a byte first.
    First,
}

// How many bytes all doors of a server hold at most for connections that no worker serves.
const MOST_HELD: usize = 64 << 20;

/// The connections of a listener, which other doors may share, one after another, or those that it
/// makes to an address. It gives no more after a stated number of links, if there is one. If there
/// is none, the doors of a server keep the connections, and give a part of one that is a message
/// and its response, when that message is there as a whole. A door with neither a listener nor an
/// address fails at each accept. Where the journal is lost, it gives no more links from the flag on
/// that the journal's file sets. It does not report its links.
#[derive(Drop)]
pub struct HostDoor {
    rt: HostRuntime,
    lines: Lines,
    origin: Origin,
    patience: Patience,
    choice: Choice,
    left: Option<u64>,
    out: bool,
    closing: Option<Closing>,
    ended: bool,
    faults: FaultCount,
}

// The same flag for one door more.
fn share_of(closing: Option<&Closing>) -> Result<Option<Closing>, Memory> {
    match closing {
        Some(closing) => Ok(Some(closing.share()?)),
        None => Ok(None),
    }
}

// The next link of a listener; none where the server is to end.
fn link_of(
    rt: HostRuntime,
    lines: &Lines,
    listener: &TcpListener,
    choice: &mut Choice,
    patience: Patience,
    closing: Option<&Closing>,
) -> io::Result<Option<HostLink>> {
    match choice {
        Choice::Messages(idle) => match idle.next(&rt, lines, listener, closing)? {
            Some(gathered) => Ok(Some(HostLink::of_message(rt, gathered, patience))),
            None => Ok(None),
        },
        _ if is_closing(closing) => Ok(None),
        Choice::Each => {
            let stream = accept_again(&rt, lines, listener)?;
            Ok(Some(HostLink::of(rt, stream, patience)))
        }
        Choice::First => {
            let stream = accept_again(&rt, lines, listener)?;
            let own = listener.try_clone()?;
            let first = Candidates::of(rt, own, patience.first, stream)?;
            Ok(Some(HostLink::of_first(rt, first, patience)))
        }
    }
}

impl HostDoor {
    /// A door of this listener that gives so many links, or any number of them; no call has failed
    /// yet. Each link waits so long for the first byte of a message. No connection is kept aside.
    pub fn of(
        rt: HostRuntime,
        listener: Option<TcpListener>,
        limit: Duration,
        links: Option<u64>,
    ) -> HostDoor
        // Promise: A new door has its listener and its number of links, and no link is out. From
        // then on it gives no more links only after that number, and without a listener each of its
        // accepts fails
        // - by `listens`, `left`, `out` (`IsLinkCounted`)
        ensures listens { listens result ≡ is_some listener }
        ensures left { left_of result ≡ links }
        ensures out { out_of result ≡ false }
        ensures count { count_of (faults_of result) ≡ 0 }
        ensures cause { cause_of (faults_of result) ≡ None }
    {
        HostDoor::from(
            rt,
            origin_of(listener),
            Choice::Each,
            Patience::of_messages(limit),
            links,
        )
    }

    /// The door of a follower: a link is the connection of this listener that sends a byte first,
    /// after what was written to all. Others that are there meanwhile end, and one that is silent
    /// for a minute does. Each read after that byte and each write waits for at most a minute. No
    /// call has failed yet.
    pub fn to_follow(rt: HostRuntime, listener: Option<TcpListener>) -> HostDoor
        // Promise: A follower's door has its listener, and gives any number of links; a shipper's
        // has an address to connect to, and gives one. No link is out
        // - of `HostDoor::to_follow`, `HostDoor::to_ship`
        // - by `listens`, `left`, `out`
        ensures listens { listens result ≡ is_some listener }
        ensures left { left_of result ≡ None }
        ensures out { out_of result ≡ false }
        ensures count { count_of (faults_of result) ≡ 0 }
        ensures cause { cause_of (faults_of result) ≡ None }
    {
        HostDoor::from(
            rt,
            origin_of(listener),
            Choice::First,
            Patience::of_records(),
            None,
        )
    }

    /// The door of a shipper: one link, which accept makes by a connection to this address. A
    /// connection that is refused, or not made within a minute, is a fault of the door. Each read
    /// and write of it waits for at most a minute. No call has failed yet.
    pub fn to_ship(rt: HostRuntime, address: String) -> HostDoor
        ensures listens { listens result ≡ true }
        ensures left { left_of result ≡ Some 1 }
        ensures out { out_of result ≡ false }
        ensures count { count_of (faults_of result) ≡ 0 }
        ensures cause { cause_of (faults_of result) ≡ None }
    {
        HostDoor::from(
            rt,
            Origin::Address(address),
            Choice::Each,
            Patience::of_records(),
            Some(1),
        )
    }

    // A door of this origin that gives so many links, or any number of them.
    fn from(
        rt: HostRuntime,
        origin: Origin,
        choice: Choice,
        patience: Patience,
        links: Option<u64>,
    ) -> HostDoor
        ensures listens { listens result ≡ comes_from origin }
        ensures left { left_of result ≡ links }
        ensures out { out_of result ≡ false }
        ensures count { count_of (faults_of result) ≡ 0 }
        ensures cause { cause_of (faults_of result) ≡ None }
    {
        HostDoor {
            rt,
            lines: Lines::direct(rt),
            origin,
            patience,
            choice,
            left: links,
            out: false,
            closing: None,
            ended: false,
            faults: FaultCount::none(),
        }
    }

    // A door of this listener that gives any number of links, and keeps connections, for which it
    // holds so many bytes at most. It has no listener where the system cannot watch it.
    fn keeping(
        rt: HostRuntime,
        alloc: Global,
        listener: Option<TcpListener>,
        limit: Duration,
        most: usize,
        operator: Option<i32>,
    ) -> HostDoor
        ensures listens { IsNone listener → listens result ≡ false }
        ensures left { left_of result ≡ None }
        ensures out { out_of result ≡ false }
    {
        let mut door = HostDoor::of(rt, None, limit, None);
        if let Some(listener) = listener {
            if let Ok(idle) = IdleStreams::of(&rt, alloc, &listener, limit, most, operator) {
                door.origin = Origin::Listener(listener);
                door.choice = Choice::Messages(idle);
            }
        }
        door
    }

    /// The same door, of which these lines tell.
    pub fn telling(self, lines: Lines) -> HostDoor
        // Promise: A door that gets other lines keeps its listener, its number of links, and
        // whether a link is out
        // - by `listens`, `left`, `out`
        ensures listens { listens result ≡ listens self }
        ensures left { left_of result ≡ left_of self }
        ensures out { out_of result ≡ out_of self }
        ensures faults { faults_of result ≡ faults_of self }
    {
        let mut door = self;
        door.lines = lines;
        door
    }

    /// Why the last call that failed did.
    pub fn cause(&self) -> Option<io::Error>
        ensures { result ≡ cause_of (faults_of self.now) }
    {
        self.faults.cause()
    }

    // A door of those that share a listener.
    fn shared(
        rt: HostRuntime,
        alloc: Global,
        listener: Option<&TcpListener>,
        limit: Duration,
        links: Option<u64>,
        most: usize,
        operator: Option<i32>,
    ) -> HostDoor
        ensures listens { IsNone listener.entry → listens result ≡ false }
        ensures left { left_of result ≡ links }
        ensures out { out_of result ≡ false }
    {
        let own = listener.and_then(|listener| listener.try_clone().ok());
        match links {
            Some(_) => HostDoor::of(rt, own, limit, links),
            None => HostDoor::keeping(rt, alloc, own, limit, most, operator),
        }
    }

    // The same door, which ends by the flag, if there is one, and of which these lines tell.
    fn fitted(self, closing: Option<&Closing>, lines: &Lines) -> Result<HostDoor, Memory>
        ensures listens { IfOk result (λ door. listens door ≡ listens self) }
        ensures left { IfOk result (λ door. left_of door ≡ left_of self) }
        ensures out { IfOk result (λ door. out_of door ≡ out_of self) }
    {
        let mut door = self.telling(lines.share()?);
        door.closing = share_of(closing)?;
        Ok(door)
    }

    /// So many doors, which share the listener if there is one, and of which each gives so many
    /// links. A link waits so long for the first byte of a message. A door for which the system
    /// shares the listener no more has none. They end by the flag, if there is one. `Memory` where
    /// there is no room for them.
    pub fn several(
        rt: HostRuntime,
        alloc: Global,
        listener: Option<&TcpListener>,
        doors: u8,
        limit: Duration,
        links: Option<u64>,
        closing: Option<&Closing>,
        lines: &Lines,
    ) -> Result<Vec<HostDoor>, Memory>
        // Promise: Of several doors no link is out, and each gives the stated number of links
        // - by `count`, `home`, `left`, `deaf`
        ensures count { IfOk result (λ all. vec_len all ≡ doors) }
        ensures home { IfOk result (λ all. All (λ d. out_of d ≡ false) all.items) }
        ensures left { IfOk result (λ all. All (λ d. left_of d ≡ links) all.items) }
        ensures deaf { IsNone listener.entry
            → IfOk result (λ all. All (λ d. listens d ≡ false) all.items) }
    {
        // What one of the doors sets is set for all, since they share the socket.
        if let Some(listener) = listener {
            let _ = listener.set_nonblocking(links.is_none());
        }
        let most = MOST_HELD / usize::from(doors.max(1));
        let operator = closing.and_then(|closing| closing.operator());
        let mut all = Vec::new(alloc);
        for _made in 0..doors {
            let door = HostDoor::shared(rt, alloc, listener, limit, links, most, operator);
            all.push(door.fitted(closing, lines)?)?;
        }
        Ok(all)
    }

    // The next link: a connection of the listener or a message of one, or a connection that is
    // made; none where the server is to end.
    fn next_link(&mut self) -> io::Result<Option<HostLink>>
        ensures listens { listens self.new ≡ listens self.old }
        ensures left { left_of self.new ≡ left_of self.old }
        ensures out { out_of self.new ≡ out_of self.old }
        ensures ended { ended_of self.new ≡ ended_of self.old }
        ensures faults { faults_of self.new ≡ faults_of self.old }
        ensures deaf { listens self.old ≡ false → IsErr result }
    {
        let (rt, patience) = (self.rt, self.patience);
        let listener = match &self.origin {
            Origin::Listener(listener) => listener,
            Origin::Address(address) => {
                let stream = connect_within(&rt, address.as_str(), patience.first)?;
                return Ok(Some(HostLink::of(rt, stream, patience)));
            }
            Origin::Nowhere => {
                return Err(io::Error::new(ErrorKind::NotConnected, "no listener"));
            }
        };
        let given = link_of(
            rt,
            &self.lines,
            listener,
            &mut self.choice,
            patience,
            self.closing.as_ref(),
        );
        if let Err(cause) = &given {
            tell_end(&self.lines, cause);
        }
        given
    }

    // One link less is to come.
    fn count_link(&mut self)
        ensures left { left_of self.new ≡ option_map (λ n. n - 1) (left_of self.old) }
        ensures listens { listens self.new ≡ listens self.old }
        ensures out { out_of self.new ≡ true }
        ensures ended { ended_of self.new ≡ ended_of self.old }
        ensures faults { faults_of self.new ≡ faults_of self.old }
    {
        if let Some(left) = self.left {
            self.left = Some(left.saturating_sub(1));
        }
        self.out = true;
    }
}

impl Door for HostDoor {
    type Link = HostLink;

    ghost tells = { λ d. false };

    ghost coming = { λ d. [] };

    ghost returned = { λ d. [] };

    ghost is_out = { out_of };

    ghost faults = { λ d. count_of (faults_of d) };

    ghost identity = { λ d. 0 };

    fn accept(&mut self) -> Result<Option<HostLink>, Failed>
        requires { out_of self.old ≡ false }
        ensures out { IfOk result (λ link. out_of self.new ≡ is_some link) }
        ensures none { OnErr result (out_of self.new ≡ false) }
        ensures deaf { listens self.old ≡ false → IsErr result }
        ensures last { listens self.old ≡ true → left_of self.old ≡ Some 0 → result ≡ Ok None }
        ensures left { IfOk result (λ link. ended_of self.new ≡ false
            → IsLinkCounted (is_some link) (left_of self.old) (left_of self.new)) }
        ensures ended { ended_of self.new ≡ true → result ≡ Ok None }
        ensures counted { IsCounted (is_ok result) (faults_of self.old) (faults_of self.new) }
        ensures grows { count_of (faults_of self.old) ≤ count_of (faults_of self.new) }
        ensures failed { OnErr result
            (Rose (count_of (faults_of self.old)) (count_of (faults_of self.new))) }
    {
        self.ended = false;
        if self.left == Some(0) && self.origin.is_somewhere() {
            return Ok(None);
        }
        let given = self.next_link();
        let Some(link) = self.faults.answer(given)? else {
            self.ended = true;
            return Ok(None);
        };
        self.count_link();
        Ok(Some(link))
    }

    fn back(&mut self, link: HostLink)
        requires { out_of self.old ≡ true }
        ensures out { out_of self.new ≡ false }
        ensures listens { listens self.new ≡ listens self.old }
        ensures left { left_of self.new ≡ left_of self.old }
        ensures faults { faults_of self.new ≡ faults_of self.old }
    {
        if let (Some(connection), Choice::Messages(idle)) = (link.close(), &mut self.choice) {
            idle.keep(&self.rt, connection);
        }
        self.out = false;
    }
}
