//! Lines on standard error, which nothing that writes one waits for.

ghost use Rattle.std.specs.Prelude.{◌≤◌};

use std::alloc::{AllocError, Global};
use std::fmt::{Display, InlineText};
use std::io::{ErrorKind, PipeReader, PipeWriter, Read, Write};
use std::os::fd::AsRawFd;
use std::sync::Arc;
use std::sync::atomic::{AtomicU64, Ordering};
use std::time::Duration;
use std::{io, thread};

// The bytes of a line, with its line feed. A pipe takes so many as a whole, or none of them.
const LONGEST: usize = 1024;

// The bytes of its text.
const LONGEST_TEXT: usize = LONGEST - 1;

// The bytes that are copied at a time.
const PIECE: usize = 4096;

// So often it is looked whether all lines were copied, once each pause of so many milliseconds: a
// second in all.
const LOOKS: u32 = 100;

const PAUSE: u64 = 10;

// Lines on their way to standard error, as threads share them.
#[derive(Drop)]
struct Queue {
    // The end of a pipe that takes bytes at once, or none.
    into: PipeWriter,
    // How many bytes went into the pipe, and how many of them were copied.
    queued: AtomicU64,
    copied: AtomicU64,
    // How many lines found the pipe full, and have not been told.
    dropped: AtomicU64,
}

/// Lines on standard error. They are written by the caller, who may wait for the reader of standard
/// error; or they are queued in a pipe of the system, from which a thread copies them. What finds
/// the queue full is dropped and counted, so that its caller never waits. A line has 1,024 bytes at
/// most, and is cut at the end if it would have more.
#[derive(Drop)]
pub struct Lines {
    rt: HostRuntime,
    queue: Option<Arc<Queue, Global>>,
}

/// What copies the queued lines to standard error, as the work of a thread of its own.
#[derive(Drop)]
pub struct LineCopier {
    rt: HostRuntime,
    from: PipeReader,
    queue: Arc<Queue, Global>,
}

// A line, and how many bytes of this are of it. A message that is too long ends in three dots.
fn line_of<M: Display + Drop>(message: M) -> ([u8; LONGEST], usize)
    ensures { result.1 ≤ 1024 }
{
    let text = InlineText::<{ LONGEST_TEXT }>::of(format_args!("shadowd: {message}"));
    let bytes = text.as_str().as_bytes();
    let mut line = [0u8; LONGEST];
    line[..bytes.len()].copy_from_slice(bytes);
    line[bytes.len()] = b'\n';
    (line, bytes.len() + 1)
}

impl Queue {
    // Puts a line into the pipe, or counts it as dropped.
    fn admit(&self, line: &[u8]) {
        match (&self.into).write(line) {
            Ok(count) => {
                self.queued.fetch_add(count as u64, Ordering::SeqCst);
            }
            Err(_) => {
                self.dropped.fetch_add(1, Ordering::SeqCst);
            }
        }
    }

    // Whether all that went into the pipe was copied.
    fn is_copied(&self) -> bool {
        self.queued.load(Ordering::SeqCst) <= self.copied.load(Ordering::SeqCst)
    }
}

impl Lines {
    /// Lines that their callers write.
    // Promise: Lines are written to standard error by their caller, or queued for a thread that
    // copies them. Nothing is stated of what arrives, nor of time
    // - of `Lines::direct`, `Lines::queued`, `Lines::share`, `Lines::tell`, `Lines::tell_of`,
    //   `Lines::finish`, `LineCopier::run`
    // - by none
    pub fn direct(rt: HostRuntime) -> Lines {
        Lines { rt, queue: None }
    }

    /// Lines that are queued, and what copies them.
    pub fn queued(rt: HostRuntime) -> io::Result<(Lines, LineCopier)> {
        let (from, into) = io::pipe(&rt)?;
        if os::set_nonblocking(into.as_raw_fd(), true) != 0 {
            return Err(io::Error::new(ErrorKind::Other, "a pipe that would wait"));
        }
        let queue = Queue {
            into,
            queued: AtomicU64::new(0),
            copied: AtomicU64::new(0),
            dropped: AtomicU64::new(0),
        };
        let queue = Arc::new(rt.alloc(), queue)?;
        let theirs = Arc::try_clone(&queue)?;
        let copier = LineCopier {
            rt,
            from,
            queue: theirs,
        };
        let queue = Some(queue);
        Ok((Lines { rt, queue }, copier))
    }

    /// The same lines for one owner more. An error where they have too many.
    pub fn share(&self) -> Result<Lines, AllocError> {
        let queue = match &self.queue {
            Some(queue) => Some(Arc::try_clone(queue)?),
            None => None,
        };
        Ok(Lines { rt: self.rt, queue })
    }

    /// Writes a line, after the name of the program. Nothing can be done where that fails.
    pub fn tell<M: Display + Drop>(&self, message: M) {
        match &self.queue {
            Some(queue) => {
                let (line, length) = line_of(message);
                queue.admit(&line[..length]);
            }
            None => {
                let _ = eprintln!(self.rt; "shadowd: {message}");
            }
        }
    }

    /// Writes a line on the journal of this path.
    pub fn tell_of<M: Display + Drop>(&self, path: &str, message: M) {
        self.tell(format_args!("journal {path}: {message}"));
    }

    /// Waits until all lines are copied, for a second at most.
    pub fn finish(&self) {
        if let Some(queue) = &self.queue {
            for _ in 0..LOOKS {
                if queue.is_copied() {
                    return;
                }
                thread::sleep(&self.rt, Duration::from_millis(PAUSE));
            }
        }
    }
}

// Writes bytes to standard error, and waits while it takes none. What it refuses otherwise is given
// up.
fn write_on(rt: &HostRuntime, bytes: &[u8]) {
    let mut out = rt.stderr();
    let mut rest = bytes;
    for _ in 0..u64::MAX {
        match out.write(rest) {
            Ok(0) => return,
            Ok(count) => rest = rest.get(count..).unwrap_or(&[]),
            Err(cause) if cause.kind() == ErrorKind::Interrupted => {}
            Err(cause) if cause.kind() == ErrorKind::WouldBlock => {
                thread::sleep(rt, Duration::from_millis(PAUSE));
            }
            Err(_) => return,
        }
        if rest.is_empty() {
            return;
        }
    }
}

impl LineCopier {
    // Copies a piece. Once the pipe has no more, it tells how many lines found no room behind it.
    fn copy_piece(&self, piece: &[u8]) {
        write_on(&self.rt, piece);
        let copied = self.queue.copied.load(Ordering::SeqCst);
        let copied = copied.saturating_add(piece.len() as u64);
        if self.queue.queued.load(Ordering::SeqCst) <= copied {
            self.tell_dropped();
        }
        self.queue.copied.store(copied, Ordering::SeqCst);
    }

    // Tells how many lines were dropped, if any were.
    fn tell_dropped(&self) {
        let dropped = self.queue.dropped.swap(0, Ordering::SeqCst);
        if dropped > 0 {
            let (line, length) = line_of(format_args!("{dropped} lines were dropped here"));
            write_on(&self.rt, &line[..length]);
        }
    }

    /// Copies lines as long as there are any to come. It waits for the reader of standard error,
    /// for ever if need be.
    pub fn run(self) {
        let mut piece = [0u8; PIECE];
        for _ in 0..u64::MAX {
            match (&self.from).read(&mut piece) {
                Ok(0) => return,
                Ok(count) => self.copy_piece(&piece[..count]),
                Err(cause) if cause.kind() == ErrorKind::Interrupted => {}
                Err(_) => return,
            }
        }
    }
}
