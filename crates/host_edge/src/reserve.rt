//! Room beside a journal that is given back to a disk that is full.

use crate::Lines;
use std::alloc::{AllocError, Global};
use std::fs::{File, OpenOptions};
use std::os::unix::fs::{FileExt, OpenOptionsExt};
use std::sync::Arc;
use std::sync::atomic::{AtomicBool, AtomicU64, Ordering};
use std::time::Duration;
use std::{io, thread};

// The bytes that are written, or given back, at a time.
const PIECE: usize = 65_536;

// The most pieces that are written or given back in a row: those of 1 GiB.
const MOST_PIECES: u64 = 16_384;

// The keeper looks once in so many milliseconds.
const ROUND: u64 = 1000;

// So many rounds pass without a need of the reserve before it is written again: a minute.
const CALM: u64 = 60;

// The codes of Linux for a disk without room, and for a user without any.
const NO_ROOM: i32 = 28;

const NO_QUOTA: i32 = 122;

// What the journal's file and the keeper share of a reserve.
#[derive(Drop)]
struct Shared {
    // Whether the journal is open, so that there is to be a reserve.
    is_wanted: AtomicBool,
    // How many pieces were given back.
    given: AtomicU64,
    // How many writes found no room, and nothing to give back.
    refused: AtomicU64,
}

/// A file of zeros beside a journal, the reserve. Where the disk has no room for bytes of the
/// journal, a piece of 64 KiB is cut from its end, as often as that is needed. Other programs of
/// the disk may take that room, too.
#[derive(Drop)]
pub struct Reserve {
    rt: HostRuntime,
    lines: Lines,
    path: String,
    length: u64,
    shared: Arc<Shared, Global>,
}

/// What writes a reserve, and writes it again once the disk had room for a minute, as the work of a
/// thread of its own.
#[derive(Drop)]
pub struct ReserveKeeper {
    reserve: Reserve,
    // How many bytes from the front were written and not cut since.
    written: u64,
    // How many pieces were given back before the last round, and how many rounds passed since one
    // was.
    given: u64,
    calm: u64,
    // Whether the reserve was needed since it was whole.
    is_used: bool,
}

// Whether a write failed since the disk has no room.
fn is_of_room(cause: &io::Error) -> bool {
    matches!(cause.raw_os_error(), Some(NO_ROOM | NO_QUOTA))
}

impl Reserve {
    /// The reserve of so many bytes beside the journal of this path, and what keeps it. Nothing is
    /// written yet.
    // Promise: A reserve beside the journal is written by a thread, and cut where the journal has
    // no room. Nothing is stated of the disk
    // - of `Reserve::of`, `Reserve::begin`, `Reserve::write`, `ReserveKeeper::run`
    // - by none
    pub fn of(
        rt: HostRuntime,
        lines: &Lines,
        journal: &str,
        length: u64,
    ) -> Result<(Reserve, ReserveKeeper), AllocError> {
        let shared = Shared {
            is_wanted: AtomicBool::new(false),
            given: AtomicU64::new(0),
            refused: AtomicU64::new(0),
        };
        let reserve = Reserve {
            rt,
            lines: lines.share()?,
            path: format!(in rt.alloc(); "{journal}.reserve")?,
            length,
            shared: Arc::new(rt.alloc(), shared)?,
        };
        let keeper = ReserveKeeper {
            reserve: reserve.share()?,
            written: 0,
            given: 0,
            calm: 0,
            is_used: false,
        };
        Ok((reserve, keeper))
    }

    // The same reserve for one owner more.
    fn share(&self) -> Result<Reserve, AllocError> {
        Ok(Reserve {
            rt: self.rt,
            lines: self.lines.share()?,
            path: self.path.clone()?,
            length: self.length,
            shared: Arc::try_clone(&self.shared)?,
        })
    }

    /// The journal is open: from now on there is to be a reserve.
    pub fn begin(&self) {
        self.shared.is_wanted.store(true, Ordering::SeqCst);
    }

    // Cuts a piece from the end of the file: whether there was one.
    fn cut(&self) -> io::Result<bool> {
        let path = self.path.as_str();
        let file = OpenOptions::new().write(true).open(&self.rt, path)?;
        let length = file.metadata()?.len();
        if length == 0 {
            return Ok(false);
        }
        file.set_len(length.saturating_sub(PIECE as u64))?;
        Ok(true)
    }

    // Gives a piece back to the disk, if there is one.
    fn give(&self) -> bool {
        if !self.cut().unwrap_or(false) {
            if self.shared.refused.fetch_add(1, Ordering::SeqCst) == 0 {
                let path = self.path.as_str();
                self.lines.tell(format_args!(
                    "reserve {path}: nothing is left: no answer is recorded"
                ));
            }
            return false;
        }
        if self.shared.given.fetch_add(1, Ordering::SeqCst) == 0 {
            let (path, length) = (self.path.as_str(), self.length);
            self.lines.tell(format_args!(
                "reserve {path}: the disk is full: of {length} bytes some are used"
            ));
        }
        true
    }

    /// Writes bytes of the journal at a place. Where the disk has no room for them, pieces of the
    /// reserve are given back, until it has or nothing is left.
    pub fn write(&self, journal: &File, at: u64, bytes: &[u8]) -> io::Result<()> {
        for _ in 0..MOST_PIECES {
            match journal.write_all_at(bytes, at) {
                Err(cause) if is_of_room(&cause) && self.give() => {}
                answer => return answer,
            }
        }
        journal.write_all_at(bytes, at)
    }
}

impl ReserveKeeper {
    // Whether the reserve is to be written: the journal is open, and no piece was needed for a
    // minute. After one was needed the whole file is written again, since a part of it may be
    // without room.
    fn is_due(&mut self) -> bool {
        let given = self.reserve.shared.given.load(Ordering::SeqCst);
        if given != self.given {
            self.given = given;
            self.calm = 0;
            self.written = 0;
            self.is_used = true;
        } else {
            self.calm = self.calm.saturating_add(1);
        }
        let is_wanted = self.reserve.shared.is_wanted.load(Ordering::SeqCst);
        is_wanted && (!self.is_used || CALM <= self.calm)
    }

    // The reserve's file, at most as long as it is to be. It is made for its owner alone if there
    // is none.
    fn opened(&self) -> io::Result<File> {
        let file = OpenOptions::new()
            .read(true)
            .write(true)
            .create(true)
            .mode(0o600)
            .open(&self.reserve.rt, self.reserve.path.as_str())?;
        if self.reserve.length < file.metadata()?.len() {
            file.set_len(self.reserve.length)?;
        }
        Ok(file)
    }

    // Writes zeros behind those that were written, up to a piece. Where that fails, the rest of the
    // piece is given back.
    fn write_piece(&mut self, file: &File) -> io::Result<()> {
        let zeros = [0u8; PIECE];
        let count = self
            .reserve
            .length
            .saturating_sub(self.written)
            .min(PIECE as u64);
        if let Err(cause) = file.write_all_at(&zeros[..count as usize], self.written) {
            let _ = file.set_len(self.written);
            return Err(cause);
        }
        self.written = self.written.saturating_add(count);
        Ok(())
    }

    // Writes what is missing, and syncs it.
    fn fill(&mut self) -> io::Result<()> {
        let file = self.opened()?;
        for _ in 0..MOST_PIECES {
            if self.reserve.length <= self.written {
                break;
            }
            self.write_piece(&file)?;
        }
        file.sync_all()
    }

    // The reserve is whole.
    fn tell_whole(&mut self) {
        let refused = self.reserve.shared.refused.swap(0, Ordering::SeqCst);
        self.reserve.shared.given.store(0, Ordering::SeqCst);
        self.given = 0;
        let path = self.reserve.path.as_str();
        if self.is_used {
            self.reserve.lines.tell(format_args!(
                "reserve {path}: the disk has room again; {refused} writes found none"
            ));
        }
        self.is_used = false;
    }

    // Writes a line that the reserve could not be written, unless the disk is known to be full.
    fn tell_fault(&mut self, cause: io::Error) {
        let path = self.reserve.path.as_str();
        if !self.is_used {
            self.reserve
                .lines
                .tell(format_args!("reserve {path}: it is not whole: {cause}"));
        }
        self.is_used = true;
    }

    // Looks whether the reserve is to be written, and writes it.
    fn look(&mut self) {
        if self.is_due() && self.written < self.reserve.length {
            match self.fill() {
                Ok(()) => self.tell_whole(),
                Err(cause) => self.tell_fault(cause),
            }
        }
    }

    /// Keeps the reserve, as long as the process is there.
    pub fn run(self) {
        let mut keeper = self;
        for _ in 0..u64::MAX {
            keeper.look();
            thread::sleep(&keeper.reserve.rt, Duration::from_millis(ROUND));
        }
    }
}
