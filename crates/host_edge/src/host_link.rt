//! A connection of the host.

ghost use Rattle.std.specs.Prelude.{◌≡◌, ◌≤◌, ◌<◌, [], Ok, None, true, false, is_ok, length, IsErr, IsNone, IfOk, OnErr};
ghost use Rattle.exam_edge.specs.Faults.{Rose};
ghost use Rattle.host_edge.specs.Connection.{serves};
ghost use Rattle.host_edge.specs.FaultCount.{count_of, cause_of, IsCounted};
ghost use Rattle.host_edge.specs.HostLink.{faults_of, is_over, is_at_rest, is_gathered};

use crate::again::{read_again, write_again};
use crate::candidates::Candidates;
use crate::connection::{Connection, Gathered};
use crate::fault_count::FaultCount;
use exam_edge::{Failed, Link};
use std::io;
use std::io::{ErrorKind, Read};
use std::net::{Shutdown, TcpStream};
use std::time::{Duration, Instant};

/// A TCP connection, or, if its door keeps connections, the part of one that is a message and its
/// response. It does not report its bytes. A read into an empty buffer lets it know that all bytes
/// that it gave were used: the part of a connection ends there, and the door gives the next when it
/// has another message as a whole.
#[derive(Drop)]
pub struct HostLink {
    rt: HostRuntime,
    way: Way,
    patience: Patience,
    stage: Stage,
    faults: FaultCount,
}

/// How a link gets and gives its bytes.
#[derive(Drop)]
enum Way {
    /// By a socket, whose reads and writes wait.
    Socket(TcpStream),
    /// By what its door has gathered. Nothing waits.
    Gathered(Gathered),
    /// By that of several sockets which sends a byte first.
    First(Candidates),
}

/// How long a link waits.
#[derive(Clone, Copy, Debug)]
pub struct Patience {
    /// For the first byte of a message, or for the connection.
    pub first: Duration,
    /// For the next bytes of a message that has begun, and for room for what is written.
    pub between: Duration,
    /// For a whole message, from its first byte or from the last write on: later than that no read
    /// begins.
    pub whole: Duration,
}

impl Patience {
    /// That of the messages of HTTP: so long for the first byte, then 5 seconds for the next bytes
    /// and 15 for a whole message.
    // Promise: How long a link waits is a value. Nothing is stated of time
    // - of `Patience::of_messages`, `Patience::of_records`
    // - by none
    pub fn of_messages(first: Duration) -> Patience {
        Patience {
            first,
            between: Duration::from_secs(BETWEEN),
            whole: Duration::from_secs(WHOLE),
        }
    }

    /// That of records: a minute.
    pub fn of_records() -> Patience {
        let minute = Duration::from_secs(MINUTE);
        Patience {
            first: minute,
            between: minute,
            whole: minute,
        }
    }
}

/// How far a link is.
#[derive(Clone, Copy, Debug, PartialEq, Eq, Drop)]
enum Stage {
    /// No byte of a message was read.
    Fresh,
    /// Bytes were read since this moment, and not all of them were used.
    Begun(Instant),
    /// It gives no more bytes. Its door keeps the connection.
    AtRest,
    /// A call failed. Each call from now on fails.
    Over,
}

// How many seconds a link waits for the next bytes of a message that has begun, and for room for
// its response.
pub(crate) const BETWEEN: u64 = 5;

// How many seconds a message may take from its first byte.
pub(crate) const WHOLE: u64 = 15;

// How many seconds a side of records waits for the other.
const MINUTE: u64 = 60;

// How many seconds, and in how many reads, the end of a connection waits for what its client still
// sends.
pub(crate) const LAST_WAIT: u64 = 1;

const LAST_READS: u32 = 16;

// The fault of a link that ended before this call.
fn is_over_already() -> io::Error {
    io::Error::new(ErrorKind::NotConnected, "the connection was ended")
}

// Reads what a client still sends, for a stated time.
fn read_rest(rt: &HostRuntime, stream: &mut TcpStream) -> io::Result<()> {
    let start = Instant::now(rt)?;
    let wait = Duration::from_secs(LAST_WAIT);
    stream.set_read_timeout(Some(wait))?;
    let mut rest = [0u8; 4096];
    for _ in 0..LAST_READS {
        if stream.read(&mut rest)? == 0 || wait <= start.elapsed(rt)? {
            return Ok(());
        }
    }
    Ok(())
}

// Ends a connection. Bytes that were not read make the system drop a reply on its way, so they are
// read first, for a stated time.
fn end_stream(rt: &HostRuntime, stream: TcpStream) {
    let mut stream = stream;
    if stream.shutdown(Shutdown::Write).is_ok() {
        let _ = read_rest(rt, &mut stream);
    }
}

// Reads bytes of a socket, at this stage: the stage after it, and how many there were.
fn receive_at(
    rt: &HostRuntime,
    patience: Patience,
    stage: Stage,
    stream: &mut TcpStream,
    buffer: &mut [u8],
) -> io::Result<(Stage, usize)>
    ensures { IfOk result (λ r. r.1 ≤ length buffer.old) }
{
    match stage {
        Stage::Begun(start) => {
            if patience.whole <= start.elapsed(rt)? {
                return Err(io::Error::from(ErrorKind::TimedOut));
            }
            Ok((stage, read_again(stream, buffer)?))
        }
        _ => {
            let count = read_again(stream, buffer)?;
            stream.set_read_timeout(Some(patience.between))?;
            Ok((Stage::Begun(Instant::now(rt)?), count))
        }
    }
}

impl HostLink {
    /// The link over a connection; no call has failed yet. It waits so long. A reply is sent at
    /// once, and not held back for more.
    pub fn of(rt: HostRuntime, stream: TcpStream, patience: Patience) -> HostLink
        ensures count { count_of (faults_of result) ≡ 0 }
        ensures cause { cause_of (faults_of result) ≡ None }
        // Promise: A new link has not ended. From then on it ends where a call of it fails, and
        // each later call fails too; or where its connection rests, and then it gives no bytes
        // - by `over`, `rest` (`is_over`, `is_at_rest`)
        ensures over { is_over result ≡ false }
        ensures rest { is_at_rest result ≡ false }
    {
        let _ = stream.set_nodelay(true);
        let _ = stream.set_read_timeout(Some(patience.first));
        let _ = stream.set_write_timeout(Some(patience.between));
        HostLink::by(rt, Way::Socket(stream), patience)
    }

    /// The link over a message that a door has gathered.
    pub(crate) fn of_message(rt: HostRuntime, gathered: Gathered, patience: Patience) -> HostLink
        ensures count { count_of (faults_of result) ≡ 0 }
        ensures cause { cause_of (faults_of result) ≡ None }
        ensures over { is_over result ≡ false }
        ensures rest { is_at_rest result ≡ false }
    {
        HostLink::by(rt, Way::Gathered(gathered), patience)
    }

    /// The link over the connection that sends a byte first.
    pub(crate) fn of_first(rt: HostRuntime, first: Candidates, patience: Patience) -> HostLink
        ensures count { count_of (faults_of result) ≡ 0 }
        ensures cause { cause_of (faults_of result) ≡ None }
        ensures over { is_over result ≡ false }
        ensures rest { is_at_rest result ≡ false }
    {
        HostLink::by(rt, Way::First(first), patience)
    }

    fn by(rt: HostRuntime, way: Way, patience: Patience) -> HostLink
        ensures count { count_of (faults_of result) ≡ 0 }
        ensures cause { cause_of (faults_of result) ≡ None }
        ensures over { is_over result ≡ false }
        ensures rest { is_at_rest result ≡ false }
    {
        HostLink {
            rt,
            way,
            patience,
            stage: Stage::Fresh,
            faults: FaultCount::none(),
        }
    }

    /// Ends the connection, or, if its door keeps it, gives it back: to be served further exactly
    /// if the link is at rest, else to end once its client has taken what was written.
    pub fn close(self) -> Option<Connection>
        // Promise: A connection that a door keeps is served further exactly if its link rests; any
        // other is ended
        // - by `kept`, `ended` (`serves`, `is_at_rest`, `is_gathered`)
        ensures kept { is_gathered self ≡ true → serves result ≡ is_at_rest self }
        ensures ended { is_gathered self ≡ false → IsNone result }
    {
        let (rt, stage) = (self.rt, self.stage);
        match self.way {
            Way::Socket(stream) => {
                end_stream(&rt, stream);
                None
            }
            Way::Gathered(gathered) => {
                if stage == Stage::Over {
                    return None;
                }
                Some(gathered.into_connection(stage == Stage::AtRest))
            }
            Way::First(_candidates) => None,
        }
    }

    // All bytes that it gave were used: it ends here, or the next message begins.
    fn use_up(&mut self)
        ensures { faults_of self.new ≡ faults_of self.old }
    {
        if let Stage::Begun(_) = self.stage {
            self.stage = match &self.way {
                Way::Gathered(_) => Stage::AtRest,
                Way::Socket(stream) => {
                    let _ = stream.set_read_timeout(Some(self.patience.first));
                    Stage::Fresh
                }
                Way::First(_) => Stage::Fresh,
            };
        }
    }

    // A response is being written: the time of the next message begins.
    fn begin_next(&mut self)
        ensures { faults_of self.new ≡ faults_of self.old }
    {
        if let (Stage::Begun(_), Ok(now)) = (self.stage, Instant::now(&self.rt)) {
            self.stage = Stage::Begun(now);
        }
    }

    // Reads bytes of the message in hand, or of the next.
    fn receive(&mut self, buffer: &mut [u8]) -> io::Result<usize>
        ensures count { IfOk result (λ k. k ≤ length buffer.old) }
        ensures faults { faults_of self.new ≡ faults_of self.old }
    {
        if let Way::First(candidates) = &mut self.way {
            self.way = Way::Socket(candidates.first_to_send()?);
        }
        match &mut self.way {
            Way::Socket(stream) => {
                let (stage, count) = receive_at(
                    &self.rt,
                    self.patience,
                    self.stage,
                    stream,
                    buffer,
                )?;
                self.stage = stage;
                Ok(count)
            }
            Way::Gathered(gathered) => {
                self.stage = Stage::Begun(Instant::now(&self.rt)?);
                Ok(gathered.give(buffer))
            }
            Way::First(_) => Ok(0),
        }
    }

    // Writes bytes of a response.
    fn send(&mut self, piece: &[u8]) -> io::Result<usize>
        ensures faults { faults_of self.new ≡ faults_of self.old }
    {
        match &mut self.way {
            Way::Socket(stream) => write_again(stream, piece),
            Way::Gathered(gathered) => gathered.write(piece),
            Way::First(candidates) => candidates.write(piece),
        }
    }

    // The answer of a call of which the system gave this. A fault ends the link.
    fn answer_count(
        &mut self,
        given: io::Result<usize>,
        least: usize,
        most: usize,
    ) -> Result<usize, Failed>
        ensures ended { OnErr result (is_over self.new ≡ true) }
        ensures same { IfOk result (λ k. (given ≡ Ok k) × (least ≤ k) × (k ≤ most)) }
        ensures counted { IsCounted (is_ok result) (faults_of self.old) (faults_of self.new) }
        ensures grows { count_of (faults_of self.old) ≤ count_of (faults_of self.new) }
        ensures rose { OnErr result
            (Rose (count_of (faults_of self.old)) (count_of (faults_of self.new))) }
    {
        let answer = self.faults.answer_count(given, least, most);
        if answer.is_err() {
            self.stage = Stage::Over;
        }
        answer
    }
}

impl Link for HostLink {
    ghost tells = { λ l. false };

    ghost left = { λ l. [] };

    ghost written = { λ l. [] };

    ghost allows = { λ l text. Unit {0} };

    ghost faults = { λ l. count_of (faults_of l) };

    ghost identity = { λ l. 0 };

    fn read(&mut self, buffer: &mut [u8]) -> Result<usize, Failed>
        ensures over { is_over self.old ≡ true → IsErr result }
        ensures rest { is_at_rest self.old ≡ true → result ≡ Ok 0 }
        ensures ended { OnErr result (is_over self.new ≡ true) }
        ensures count { IfOk result (λ k. k ≤ length buffer.old) }
        ensures counted { IsCounted (is_ok result) (faults_of self.old) (faults_of self.new) }
        ensures grows { count_of (faults_of self.old) ≤ count_of (faults_of self.new) }
        ensures failed { OnErr result
            (Rose (count_of (faults_of self.old)) (count_of (faults_of self.new))) }
    {
        match self.stage {
            Stage::Over => Err(self.faults.count_fault(is_over_already())),
            Stage::AtRest => Ok(0),
            _ if buffer.is_empty() => {
                self.use_up();
                Ok(0)
            }
            _ => {
                let most = buffer.len();
                let given = self.receive(buffer);
                self.answer_count(given, 0, most)
            }
        }
    }

    fn write(&mut self, piece: &[u8]) -> Result<usize, Failed>
        ensures over { is_over self.old ≡ true → IsErr result }
        ensures ended { OnErr result (is_over self.new ≡ true) }
        ensures count { IfOk result (λ k. k ≤ length piece.now) }
        ensures some { IfOk result (λ k. 0 < length piece.now → 0 < k) }
        ensures counted { IsCounted (is_ok result) (faults_of self.old) (faults_of self.new) }
        ensures grows { count_of (faults_of self.old) ≤ count_of (faults_of self.new) }
        ensures failed { OnErr result
            (Rose (count_of (faults_of self.old)) (count_of (faults_of self.new))) }
    {
        if self.stage == Stage::Over {
            return Err(self.faults.count_fault(is_over_already()));
        }
        if piece.is_empty() {
            return Ok(0);
        }
        let given = self.send(piece);
        self.begin_next();
        self.answer_count(given, 1, piece.len())
    }
}
