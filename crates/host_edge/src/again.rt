//! System calls that are made again while a signal interrupts them.

ghost use Rattle.std.specs.Prelude.{◌≢◌, ◌≤◌, length, IfOk, IfErr};
ghost use Rattle.std.specs.IoError.{error_kind};

use crate::Lines;
use crate::trouble::Trouble;
use std::fs::File;
use std::io::{ErrorKind, Read, Write};
use std::net::{TcpListener, TcpStream, ToSocketAddrs};
use std::os::unix::fs::FileExt;
use std::time::Duration;
use std::{io, thread};

/// How many milliseconds a listener is left alone after an error that passes.
pub const PAUSE: u64 = 50;

// So many interruptions in a row are an error of their own.
fn interrupted_on_and_on() -> io::Error
    ensures { error_kind result ≢ ErrorKind.Interrupted }
{
    io::Error::new(ErrorKind::TimedOut, "interrupted on and on")
}

/// Reads bytes of a file from a place on.
pub fn read_at_again(file: &File, at: u64, buffer: &mut [u8]) -> io::Result<usize>
    // Promise: A read of a file is made again while a signal interrupts it, and gives at most as
    // many bytes as there is room for
    // - by `count`, `retried`
    ensures count { IfOk result (λ k. k ≤ length buffer.new) }
    ensures retried { IfErr result (λ e. error_kind e ≢ ErrorKind.Interrupted) }
{
    for _ in 0..u64::MAX {
        match file.read_at(buffer, at) {
            Err(cause) if cause.kind() == ErrorKind::Interrupted => {}
            answer => return answer,
        }
    }
    Err(interrupted_on_and_on())
}

/// Reads bytes of a stream.
pub fn read_again<R: Read>(stream: &mut R, buffer: &mut [u8]) -> io::Result<usize>
    ensures count { IfOk result (λ k. k ≤ length buffer.new) }
    ensures retried { IfErr result (λ e. error_kind e ≢ ErrorKind.Interrupted) }
{
    for _ in 0..u64::MAX {
        match stream.read(buffer) {
            Err(cause) if cause.kind() == ErrorKind::Interrupted => {}
            answer => return answer,
        }
    }
    Err(interrupted_on_and_on())
}

/// Writes bytes to a stream.
pub fn write_again<W: Write>(stream: &mut W, piece: &[u8]) -> io::Result<usize>
    ensures count { IfOk result (λ k. k ≤ length piece.now) }
    ensures retried { IfErr result (λ e. error_kind e ≢ ErrorKind.Interrupted) }
{
    for _ in 0..u64::MAX {
        match stream.write(piece) {
            Err(cause) if cause.kind() == ErrorKind::Interrupted => {}
            answer => return answer,
        }
    }
    Err(interrupted_on_and_on())
}

/// Hands on what a stream holds back.
pub fn flush_again<W: Write>(stream: &mut W) -> io::Result<()>
    ensures retried { IfErr result (λ e. error_kind e ≢ ErrorKind.Interrupted) }
{
    for _ in 0..u64::MAX {
        match stream.flush() {
            Err(cause) if cause.kind() == ErrorKind::Interrupted => {}
            answer => return answer,
        }
    }
    Err(interrupted_on_and_on())
}

/// What an accept gave.
pub enum Accepted {
    /// A connection.
    Stream(TcpStream),
    /// None waits.
    Nothing,
    /// An error that passes: of a connection that ended before it was accepted, or of a system that
    /// has too many open files or too little memory.
    Passing(io::Error),
}

// The codes of Linux for a number that is no open file, and for a file that is no listening socket.
const NO_FILE: i32 = 9;

const NOT_LISTENING: i32 = 22;

const NO_SOCKET: i32 = 88;

// Whether an error of an accept is one of the listener, which stays.
fn is_of_listener(cause: &io::Error) -> bool {
    matches!(
        cause.raw_os_error(),
        Some(NO_FILE | NOT_LISTENING | NO_SOCKET)
    )
}

/// Accepts a connection once. An error of the listener is an error.
pub fn accept_once(listener: &TcpListener) -> io::Result<Accepted> {
    match listener.accept() {
        Ok((stream, _)) => Ok(Accepted::Stream(stream)),
        Err(cause) if cause.kind() == ErrorKind::WouldBlock => Ok(Accepted::Nothing),
        Err(cause) if is_of_listener(&cause) => Err(cause),
        Err(cause) => Ok(Accepted::Passing(cause)),
    }
}

/// The next connection of a listener. An error that passes is waited out, and is told once.
pub fn accept_again(
    rt: &HostRuntime,
    lines: &Lines,
    listener: &TcpListener,
) -> io::Result<TcpStream> {
    let mut trouble = Trouble::none();
    for _ in 0..u64::MAX {
        match accept_once(listener)? {
            Accepted::Stream(stream) => {
                trouble.end(lines);
                return Ok(stream);
            }
            Accepted::Nothing => thread::sleep(rt, Duration::from_millis(PAUSE)),
            Accepted::Passing(cause) => {
                trouble.begin(lines, &cause);
                thread::sleep(rt, Duration::from_millis(PAUSE));
            }
        }
    }
    Err(interrupted_on_and_on())
}

/// A connection to an address, each of whose places is tried for so long, one after another.
// Promise: A connection is made to the first place of an address that takes one in time
// - by none
pub fn connect_within(rt: &HostRuntime, address: &str, limit: Duration) -> io::Result<TcpStream> {
    let mut cause = io::Error::new(ErrorKind::InvalidInput, "no such address");
    for place in address.to_socket_addrs(rt)? {
        match TcpStream::connect_timeout(rt, &place, limit) {
            Ok(stream) => return Ok(stream),
            Err(fault) => cause = fault,
        }
    }
    Err(cause)
}
