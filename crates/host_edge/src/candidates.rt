//! The connections of a follower of which none has sent a byte.

use crate::again::{Accepted, PAUSE, accept_once, write_again};
use libc::types::pollfd;
use std::io::ErrorKind;
use std::net::{TcpListener, TcpStream};
use std::os::fd::AsRawFd;
use std::time::{Duration, Instant};
use std::{io, thread};

// How many connections are waited for at a time. Above it, the one that came first is ended.
const MOST: usize = 256;

// How many bytes are written to each connection at most, before one has sent a byte.
const MOST_WRITTEN: usize = 4096;

// How many milliseconds pass at most before those that were silent too long are ended.
const TICK: i32 = 1000;

// The event of a descriptor that can be read.
const READABLE: i16 = 1;

/// A connection that has sent nothing.
#[derive(Drop)]
struct Candidate {
    stream: TcpStream,
    since: Instant,
}

/// The connections of a listener of which one is a leader, who answers what a follower writes
/// first. Whoever else connects may stay silent: all are waited for together, what the follower
/// writes goes to each, and the first that sends a byte is the leader.
#[derive(Drop)]
pub(crate) struct Candidates {
    rt: HostRuntime,
    listener: TcpListener,
    /// How long a connection may be silent.
    limit: Duration,
    streams: Vec<Candidate>,
    written: Vec<u8>,
}

// What is to be watched of a descriptor.
fn to_read(fd: i32) -> pollfd {
    pollfd {
        fd,
        events: READABLE,
        revents: 0,
    }
}

// Whether all of this was written to a connection, which has room for it.
fn is_written(stream: &TcpStream, bytes: &[u8]) -> bool {
    let mut stream = stream;
    match write_again(&mut stream, bytes) {
        Ok(count) => count == bytes.len(),
        Err(_) => false,
    }
}

/// What is known of a connection without a wait.
#[derive(Clone, Copy, PartialEq, Eq)]
enum Sent {
    Bytes,
    Nothing,
    /// It has ended.
    End,
}

// What a connection has sent.
fn sent_by(stream: &TcpStream) -> Sent {
    match stream.peek(&mut [0u8; 1]) {
        Ok(0) => Sent::End,
        Ok(_) => Sent::Bytes,
        Err(cause) if is_passing(cause.kind()) => Sent::Nothing,
        Err(_) => Sent::End,
    }
}

fn is_passing(kind: ErrorKind) -> bool {
    kind == ErrorKind::WouldBlock || kind == ErrorKind::Interrupted
}

// Reads and writes of a connection wait from now on, so long at most.
fn let_wait(stream: &TcpStream, limit: Duration) -> io::Result<()> {
    stream.set_nonblocking(false)?;
    stream.set_read_timeout(Some(limit))?;
    stream.set_write_timeout(Some(limit))
}

impl Candidates {
    /// This connection, and those that the listener gives from now on.
    pub(crate) fn of(
        rt: HostRuntime,
        listener: TcpListener,
        limit: Duration,
        stream: TcpStream,
    ) -> io::Result<Candidates> {
        let mut candidates = Candidates {
            rt,
            listener,
            limit,
            streams: Vec::new(rt.alloc()),
            written: Vec::new(rt.alloc()),
        };
        candidates.admit(stream)?;
        Ok(candidates)
    }

    // Takes a connection, to which all is written that was written to the others. One of which a
    // call fails is let go.
    fn admit(&mut self, stream: TcpStream) -> io::Result<()> {
        let _ = stream.set_nodelay(true);
        let since = Instant::now(&self.rt)?;
        if stream.set_nonblocking(true).is_ok() && is_written(&stream, &self.written) {
            if self.streams.len() >= MOST {
                self.end_first();
            }
            self.streams.push(Candidate { stream, since })?;
        }
        Ok(())
    }

    // Ends the connection that came first.
    fn end_first(&mut self) {
        if !self.streams.is_empty() {
            self.streams.remove(0);
        }
    }

    /// Writes to each of them.
    pub(crate) fn write(&mut self, piece: &[u8]) -> io::Result<usize> {
        if self.written.len().saturating_add(piece.len()) > MOST_WRITTEN {
            return Err(io::Error::new(ErrorKind::Other, "more than a follower writes first"));
        }
        self.written.extend_from_slice(piece)?;
        self.streams
            .retain(|candidate| is_written(&candidate.stream, piece));
        Ok(piece.len())
    }

    // What is to be watched: the listener first, then each connection.
    fn watched(&self) -> io::Result<Vec<pollfd>> {
        let mut all = Vec::new(self.rt.alloc());
        all.push(to_read(self.listener.as_raw_fd()))?;
        for candidate in self.streams.iter() {
            all.push(to_read(candidate.stream.as_raw_fd()))?;
        }
        Ok(all)
    }

    // Waits for news, and takes the next connection of the listener, if one has come.
    fn look(&mut self) -> io::Result<()> {
        let mut watched = self.watched()?;
        if libc::net::poll(&mut watched, TICK) < 0 {
            thread::sleep(&self.rt, Duration::from_millis(PAUSE));
            return Ok(());
        }
        match watched.first() {
            Some(listener) if listener.revents != 0 => self.accept(),
            _ => Ok(()),
        }
    }

    // Takes the next connection of the listener. An error that passes ends the connection that came
    // first.
    fn accept(&mut self) -> io::Result<()> {
        match accept_once(&self.listener)? {
            Accepted::Stream(stream) => self.admit(stream),
            Accepted::Nothing => Ok(()),
            Accepted::Passing(_) => {
                self.end_first();
                Ok(thread::sleep(&self.rt, Duration::from_millis(PAUSE)))
            }
        }
    }

    // The first connection that has sent a byte.
    fn take_first(&mut self) -> Option<TcpStream> {
        let sent = |candidate: &Candidate| sent_by(&candidate.stream) == Sent::Bytes;
        let place = self.streams.iter().position(sent)?;
        Some(self.streams.remove(place).stream)
    }

    // Ends the connections that were silent too long, and lets those go that have ended.
    fn end_silent(&mut self) -> io::Result<()> {
        let now = Instant::now(&self.rt)?;
        let limit = self.limit;
        self.streams.retain(|candidate| {
            now.duration_since(candidate.since) < limit && sent_by(&candidate.stream) != Sent::End
        });
        Ok(())
    }

    /// Waits for the connection that sends the first byte, however long that takes. From now on its
    /// reads and writes wait, for the limit at most. The others end.
    pub(crate) fn first_to_send(&mut self) -> io::Result<TcpStream> {
        for _ in 0..u64::MAX {
            if let Some(stream) = self.take_first() {
                let_wait(&stream, self.limit)?;
                self.streams.clear();
                return Ok(stream);
            }
            self.end_silent()?;
            self.look()?;
        }
        Err(io::Error::from(ErrorKind::TimedOut))
    }
}
