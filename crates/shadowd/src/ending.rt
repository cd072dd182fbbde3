//! The end of a server that an operator asks for, by a connection to a socket in the file system.

use std::alloc::AllocError;
use std::fs::Permissions;
use std::io::{ErrorKind, Read};
use std::os::unix::fs::{FileTypeExt, PermissionsExt};
use std::os::unix::net::{UnixListener, UnixStream};
use std::time::Duration;
use std::{fs, io};

/// How many seconds whoever asks waits for the end.
const WAIT: u64 = 60;

// The rights of the socket: only the user of the process may connect to it.
const MODE: u32 = 0o600;

// The sockets of the system, a line each, which ends with the path of one that has a name.
const SOCKETS: &str = "/proc/net/unix";

/// What became of a request for the end.
#[derive(Clone, Copy)]
pub enum Asked {
    /// The server has ended.
    Ended,
    /// It had not ended after a minute.
    Waits,
}

// Whether a process of this system has a socket at this path. A connection would be a request for
// its end. Without the system's list nobody has it: a server that was killed has to be able to
// start again.
fn is_in_use(rt: &HostRuntime, path: &str) -> Result<bool, AllocError> {
    let Ok(sockets) = fs::read(rt, SOCKETS) else {
        return Ok(false);
    };
    let end = format!(in rt.alloc(); " {path}")?;
    Ok(
        sockets
            .split(|byte| *byte == b'\n')
            .any(|line| line.ends_with(end.as_bytes())),
    )
}

// Removes the socket that a server left which was killed. Anything else at its path is an error.
fn remove_old(rt: &HostRuntime, path: &str) -> io::Result<()> {
    let old = match fs::symlink_metadata(rt, path) {
        Ok(old) => old,
        Err(cause) if cause.kind() == ErrorKind::NotFound => return Ok(()),
        Err(cause) => return Err(cause),
    };
    if !old.file_type().is_socket() {
        return Err(io::Error::new(ErrorKind::AlreadyExists, "it is no socket"));
    }
    if is_in_use(rt, path)? {
        return Err(io::Error::new(ErrorKind::AddrInUse, "another process has it"));
    }
    fs::remove_file(rt, path)
}

/// A socket at this path, which is the owner's alone: a connection to it asks for the end. An error
/// where it can't be had, or is another server's.
pub fn socket_at(rt: &HostRuntime, path: &str) -> io::Result<UnixListener> {
    remove_old(rt, path)?;
    let socket = UnixListener::bind(rt, path)?;
    fs::set_permissions(rt, path, Permissions::from_mode(MODE))?;
    socket.set_nonblocking(true)?;
    Ok(socket)
}

/// Asks the server of the socket at this path to end, and waits for that. An error where none
/// listens there.
pub fn ask(rt: &HostRuntime, path: &str) -> io::Result<Asked> {
    let mut server = UnixStream::connect(rt, path)?;
    server.set_read_timeout(Some(Duration::from_secs(WAIT)))?;
    for _ in 0..u64::MAX {
        match server.read(&mut [0u8; 1]) {
            Err(cause) if cause.kind() == ErrorKind::Interrupted => {}
            Err(cause) if cause.kind() == ErrorKind::WouldBlock => return Ok(Asked::Waits),
            _ => return Ok(Asked::Ended),
        }
    }
    Ok(Asked::Waits)
}
