//! A connection that is read and written without a wait.

ghost use Rattle.std.specs.Prelude.{◌≡◌, ◌≤◌, Some, length};
ghost use Rattle.host_edge.specs.Connection.{serves};

use crate::again::{read_again, write_again};
use crate::whole::{MOST_MESSAGE, message_end};
use std::alloc::Global;
use std::io;
use std::io::ErrorKind;
use std::net::{Shutdown, TcpStream};

// How many bytes of a connection that ends are read, so that the system does not throw away a
// response on its way.
const LAST_BYTES: usize = 65_536;

/// A connection of a door, with what was read of it and not yet given to a link, and what its links
/// wrote and its client has not taken. None of its calls waits.
#[derive(Drop)]
pub struct Connection {
    stream: TcpStream,
    kept: Vec<u8>,
    unsent: Vec<u8>,
    /// Whether its client sends no more.
    is_cut: bool,
    /// Whether no more messages of it are served.
    ends: bool,
    /// How many more bytes are read of it once it ends.
    last_bytes: usize,
}

impl Connection {
    /// A new connection, of which nothing was read. An error where the system can't keep its calls
    /// from waiting.
    pub(crate) fn of(alloc: Global, stream: TcpStream) -> io::Result<Connection> {
        stream.set_nonblocking(true)?;
        let _ = stream.set_nodelay(true);
        Ok(Connection {
            stream,
            kept: Vec::new(alloc),
            unsent: Vec::new(alloc),
            is_cut: false,
            ends: false,
            last_bytes: LAST_BYTES,
        })
    }

    /// The socket.
    pub(crate) fn stream(&self) -> &TcpStream {
        &self.stream
    }

    /// How many bytes of memory are held for it.
    pub(crate) fn held(&self) -> usize {
        self.kept.capacity().saturating_add(self.unsent.capacity())
    }

    /// Whether its client has bytes of a response to take.
    pub(crate) fn has_unsent(&self) -> bool {
        !self.unsent.is_empty()
    }

    /// Whether a message of it has begun that is to be served.
    pub(crate) fn has_begun(&self) -> bool {
        !self.ends && !self.kept.is_empty()
    }

    /// Whether no more messages of it are served.
    pub(crate) fn ends(&self) -> bool {
        self.ends
    }

    /// How many of its bytes are the next message, if that can be served: it is there as a whole,
    /// and its client has taken the responses before it.
    pub(crate) fn next_message(&self) -> Option<usize> {
        if self.has_unsent() || !self.has_begun() {
            return None;
        }
        message_end(&self.kept)
    }

    /// Whether nothing more is to be done with it.
    pub(crate) fn is_over(&self) -> bool {
        if self.has_unsent() {
            return false;
        }
        if self.ends {
            self.is_cut || self.last_bytes == 0
        } else {
            self.is_cut && self.next_message().is_none()
        }
    }

    /// Sends and reads what can be sent and read now. Whether that moved it on: its client took
    /// bytes, if some were unsent, else it sent some. An error where it has failed.
    pub(crate) fn attend(&mut self) -> io::Result<bool> {
        if !self.has_unsent() {
            return self.receive();
        }
        let went = self.send()?;
        if self.ends && !self.has_unsent() {
            self.stream.shutdown(Shutdown::Write)?;
        }
        self.receive()?;
        Ok(went)
    }

    // Writes what its client takes at once, and keeps the rest. All of it counts as written.
    fn write(&mut self, piece: &[u8]) -> io::Result<usize> {
        if !self.has_unsent() {
            let mut stream = &self.stream;
            match write_again(&mut stream, piece) {
                Err(cause) if cause.kind() == ErrorKind::WouldBlock => {}
                given => return given,
            }
        }
        self.unsent.extend_from_slice(piece)?;
        Ok(piece.len())
    }

    // Sends what is unsent, as much as its client takes at once. Whether bytes went.
    fn send(&mut self) -> io::Result<bool> {
        let mut count = 0;
        for _ in 0..u64::MAX {
            let start = count.min(self.unsent.len());
            let mut stream = &self.stream;
            match write_again(&mut stream, &self.unsent[start..]) {
                Ok(0) => break,
                Ok(more) => count = start + more,
                Err(cause) if cause.kind() == ErrorKind::WouldBlock => break,
                Err(cause) => return Err(cause),
            }
        }
        cut_front(&mut self.unsent, count);
        Ok(count > 0)
    }

    // Reads what its client has sent, up to as much as a message may have. Whether bytes came.
    fn receive(&mut self) -> io::Result<bool> {
        let mut came = false;
        for _ in 0..u64::MAX {
            if self.is_cut || self.last_bytes == 0 || self.kept.len() >= MOST_MESSAGE {
                break;
            }
            match self.receive_piece() {
                Ok(0) => self.is_cut = true,
                Ok(_) => came = true,
                Err(cause) if cause.kind() == ErrorKind::WouldBlock => break,
                Err(cause) => return Err(cause),
            }
        }
        Ok(came)
    }

    // Reads once: so many bytes, none where its client sends no more. Those of a connection that
    // ends are let go.
    fn receive_piece(&mut self) -> io::Result<usize> {
        let mut piece = [0u8; 4096];
        let mut stream = &self.stream;
        let count = read_again(&mut stream, &mut piece)?;
        if self.ends {
            self.last_bytes = self.last_bytes.saturating_sub(count);
        } else {
            self.kept.extend_from_slice(&piece[..count])?;
        }
        Ok(count)
    }
}

/// A connection whose first bytes are a message, or will be refused: the part of it that a link
/// serves.
#[derive(Drop)]
pub(crate) struct Gathered {
    connection: Connection,
    /// How many bytes the message has.
    end: usize,
    /// How many of them were given.
    given: usize,
}

impl Gathered {
    /// This connection, of which so many bytes are the first message.
    pub(crate) fn of(connection: Connection, end: usize) -> Gathered {
        Gathered {
            connection,
            end,
            given: 0,
        }
    }

    /// How many bytes of memory are held for it.
    pub(crate) fn held(&self) -> usize {
        self.connection.held()
    }

    /// The next bytes of the message, none after its last.
    pub(crate) fn give(&mut self, buffer: &mut [u8]) -> usize
        ensures { result ≤ length buffer.old }
    {
        let end = self.end.min(self.connection.kept.len());
        let start = self.given.min(end);
        let rest = &self.connection.kept[start..end];
        let count = rest.len().min(buffer.len());
        buffer[..count].copy_from_slice(&rest[..count]);
        self.given = start + count;
        count
    }

    /// Writes what its client takes at once, and keeps the rest. All of it counts as written.
    pub(crate) fn write(&mut self, piece: &[u8]) -> io::Result<usize> {
        self.connection.write(piece)
    }

    /// The connection without the message, to be served further, or to end once its client has
    /// taken what was written.
    pub(crate) fn into_connection(self, goes_on: bool) -> Connection
        ensures { serves (Some result) ≡ goes_on }
    {
        let Gathered {
            mut connection,
            end,
            given: _,
        } = self;
        cut_front(&mut connection.kept, end);
        connection.ends = !goes_on;
        if !goes_on && !connection.has_unsent() {
            // Where its client has gone already, nothing is to be waited for.
            connection.is_cut |= connection.stream.shutdown(Shutdown::Write).is_err();
        }
        connection
    }
}

// Takes so many bytes from the front, or all, and gives the memory back that is not needed any
// more.
fn cut_front(bytes: &mut Vec<u8>, count: usize) {
    let (start, end) = (count.min(bytes.len()), bytes.len());
    bytes.copy_within(start..end, 0);
    bytes.truncate(end - start);
    bytes.shrink_to_fit();
}
