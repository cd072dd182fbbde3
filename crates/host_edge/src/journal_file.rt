//! The journal's file, and what is done with it.

ghost use Rattle.std.specs.Prelude.{◌≡◌, ◌≤◌, length, IfOk};

use crate::again::read_at_again;
use crate::cut_tail::{Tail, keep_tail, tail_of};
use crate::file_watch::{FileWatch, Loss};
use crate::{Lines, Reserve};
use std::fmt::Display;
use std::fs::{File, OpenOptions, TryLockError};
use std::io::ErrorKind;
use std::os::unix::fs::{FileExt, MetadataExt, OpenOptionsExt};
use std::{fs, io};

/// What is done with the file of a journal.
#[derive(Clone, Copy, Debug, PartialEq, Eq)]
pub enum Access {
    /// It is only read.
    Read,
    /// It is read and written, if it is there.
    Write,
    /// It is read and written, if it is there and is long enough for a journal. None is made.
    WriteIfMade,
    /// It is read and written, and made if there is none.
    WriteOrMake,
}

/// A file by its path, which is opened at its first use. It is opened once, and locked as long as
/// it is open. Before each change it is compared with what is at its path, and once it is lost
/// every call fails from that cause.
#[derive(Drop)]
pub struct JournalFile {
    rt: HostRuntime,
    lines: Lines,
    reserve: Option<Reserve>,
    path: String,
    access: Access,
    file: Option<File>,
    watch: FileWatch,
}

// The length in bytes of a journal without entries. A shorter file becomes a journal where one is
// made.
const LEAST_LENGTH: u64 = 9;

// The rights of those who are not the owner of a file.
const RIGHTS_OF_OTHERS: u32 = 0o077;

// The folder of the file of this path.
fn folder_of(path: &str) -> &str {
    match path.rsplit_once('/') {
        Some((folder, _)) if folder.is_empty() => "/",
        Some((folder, _)) => folder,
        None => ".",
    }
}

/// Syncs the folder of the file of this path, so that the file is found by its name after a crash.
pub fn sync_folder(rt: &HostRuntime, path: &str) -> io::Result<()> {
    File::open(rt, folder_of(path))?.sync_all()
}

// Syncs the folder of the file of this path. Where a link leads to the file, the folder of the link
// is another one: it is synced too.
fn sync_folders(rt: &HostRuntime, path: &str) -> io::Result<()> {
    sync_folder(rt, path)?;
    let own = fs::canonicalize(rt, path)?;
    let folder = fs::canonicalize(rt, folder_of(path))?;
    if folder.as_str() == folder_of(own.as_str()) {
        Ok(())
    } else {
        sync_folder(rt, own.as_str())
    }
}

// Removes the file of this path where it is empty. A folder whose sync failed may never get the
// name of a file that was made in it, unless the file is made again.
fn remove_empty(rt: &HostRuntime, path: &str, file: &File) -> io::Result<()> {
    let found = file.metadata()?;
    if found.is_file() && found.len() == 0 {
        fs::remove_file(rt, fs::canonicalize(rt, path)?.as_str())?;
    }
    Ok(())
}

// Locks a file until it is closed. The lock is one that processes agree on: it keeps out those that
// ask for it too.
fn lock(file: &File) -> io::Result<()> {
    match file.try_lock() {
        Ok(()) => Ok(()),
        Err(TryLockError::WouldBlock) => Err(io::Error::new(
            ErrorKind::WouldBlock,
            "another process has it open",
        )),
        Err(TryLockError::Error(cause)) => Err(cause),
    }
}

// Tells where others than the owner have rights to the file. A file that was there keeps its
// rights.
fn tell_rights(lines: &Lines, path: &str, file: &File) -> io::Result<()> {
    let mode = file.metadata()?.mode() & 0o777;
    if mode & RIGHTS_OF_OTHERS != 0 {
        lines.tell_of(
            path,
            format_args!("its mode is 0{mode:o}: other users have rights to it"),
        );
    }
    Ok(())
}

// Opens and locks the file of this path to be read and written.
fn file_to_write(rt: &HostRuntime, lines: &Lines, path: &str) -> io::Result<File> {
    let file = OpenOptions::new().read(true).write(true).open(rt, path)?;
    lock(&file)?;
    tell_rights(lines, path, &file)?;
    sync_folders(rt, path)?;
    Ok(file)
}

// The same, where none is to be made. A file that is shorter than a journal without entries is
// refused: it would become one.
fn file_if_made(rt: &HostRuntime, lines: &Lines, path: &str) -> io::Result<File> {
    match file_to_write(rt, lines, path) {
        Ok(file) if file.metadata()?.len() < LEAST_LENGTH => Err(io::Error::new(
            ErrorKind::InvalidData,
            "it is too short for a journal, and SHADOWD_MAKE=no makes none",
        )),
        Err(cause) if cause.kind() == ErrorKind::NotFound => Err(io::Error::new(
            ErrorKind::NotFound,
            "there is none, and SHADOWD_MAKE=no makes none",
        )),
        given => given,
    }
}

// Tells that a journal is made in a file, if it is too short for one.
fn tell_made(lines: &Lines, path: &str, file: &File, was_there: bool) -> io::Result<()> {
    let length = file.metadata()?.len();
    if !was_there {
        lines.tell_of(path, "there was none: it is made");
    } else if length < LEAST_LENGTH {
        lines.tell_of(
            path,
            format_args!("no journal was in its {length} bytes: it is made"),
        );
    }
    Ok(())
}

// Opens and locks the file of this path, and makes it if there is none, for its owner alone. Its
// folder is synced, so that a file that was made is found after a crash.
fn file_to_make(rt: &HostRuntime, lines: &Lines, path: &str) -> io::Result<File> {
    let was_there = fs::metadata(rt, path).is_ok();
    let file = OpenOptions::new()
        .read(true)
        .write(true)
        .create(true)
        .mode(0o600)
        .open(rt, path)?;
    lock(&file)?;
    tell_rights(lines, path, &file)?;
    if let Err(cause) = sync_folders(rt, path) {
        let _ = remove_empty(rt, path, &file);
        return Err(cause);
    }
    tell_made(lines, path, &file, was_there)?;
    Ok(file)
}

// Opens and locks the file of this path to be read. The host opens a folder so too: it is refused.
fn file_to_read(rt: &HostRuntime, path: &str) -> io::Result<File> {
    let file = File::open(rt, path)?;
    if file.metadata()?.is_dir() {
        return Err(io::Error::new(ErrorKind::IsADirectory, "it is a folder"));
    }
    lock(&file)?;
    Ok(file)
}

// The file, which is opened unless it is open.
fn opened<'f>(
    rt: &HostRuntime,
    lines: &Lines,
    path: &str,
    access: Access,
    file: &'f mut Option<File>,
) -> io::Result<&'f File> {
    let kept = match (file.take(), access) {
        (Some(kept), _) => kept,
        (None, Access::Read) => file_to_read(rt, path)?,
        (None, Access::Write) => file_to_write(rt, lines, path)?,
        (None, Access::WriteIfMade) => file_if_made(rt, lines, path)?,
        (None, Access::WriteOrMake) => file_to_make(rt, lines, path)?,
    };
    Ok(file.insert(kept))
}

impl JournalFile {
    /// The file of this path, which is not opened yet.
    pub fn of(rt: HostRuntime, path: String, access: Access) -> JournalFile
        ensures path { result.path ≡ path }
        ensures access { result.access ≡ access }
    {
        JournalFile {
            rt,
            lines: Lines::direct(rt),
            reserve: None,
            path,
            access,
            file: None,
            watch: FileWatch::new(),
        }
    }

    /// The lines that tell of the file from now on.
    pub fn tell_by(&mut self, lines: Lines)
        ensures path { self.new.path ≡ self.old.path }
        ensures access { self.new.access ≡ self.old.access }
    {
        self.lines = lines;
    }

    /// A reserve that the disk gets where it has no room for the file.
    pub fn keep(&mut self, reserve: Reserve)
        ensures path { self.new.path ≡ self.old.path }
        ensures access { self.new.access ≡ self.old.access }
    {
        self.reserve = Some(reserve);
    }

    /// Writes a line on the file to standard error.
    pub fn tell<M: Display + Drop>(&self, message: M) {
        self.lines.tell_of(self.path.as_str(), message);
    }

    /// How the file was lost, if it was.
    pub fn loss(&self) -> Option<Loss> {
        self.watch.loss()
    }

    /// The length in bytes.
    pub fn len(&mut self) -> io::Result<u64> {
        self.watch.test()?;
        let path = self.path.as_str();
        let file = opened(&self.rt, &self.lines, path, self.access, &mut self.file)?;
        let length = file.metadata()?.len();
        self.watch.has(Some(length));
        if let Some(reserve) = &self.reserve {
            reserve.begin();
        }
        Ok(length)
    }

    /// Reads bytes from a place on to the front of the buffer: how many.
    pub fn read(&mut self, at: u64, buffer: &mut [u8]) -> io::Result<usize>
        ensures { IfOk result (λ k. k ≤ length buffer.new) }
    {
        self.watch.test()?;
        let path = self.path.as_str();
        let file = opened(&self.rt, &self.lines, path, self.access, &mut self.file)?;
        read_at_again(file, at, buffer)
    }

    /// Writes bytes at a place, if the file is not lost.
    pub fn write(&mut self, at: u64, bytes: &[u8]) -> io::Result<()> {
        let path = self.path.as_str();
        let file = opened(&self.rt, &self.lines, path, self.access, &mut self.file)?;
        self.watch.look(&self.rt, path, file)?;
        let given = match &self.reserve {
            Some(reserve) => reserve.write(file, at, bytes),
            None => file.write_all_at(bytes, at),
        };
        match given {
            Ok(()) => self.watch.wrote(at.saturating_add(bytes.len() as u64)),
            Err(_) => self.watch.has(length_now(file)),
        }
        given
    }

    /// Cuts the file to a length, if it is not lost.
    pub fn cut(&mut self, length: u64) -> io::Result<()> {
        let path = self.path.as_str();
        let file = opened(&self.rt, &self.lines, path, self.access, &mut self.file)?;
        self.watch.look(&self.rt, path, file)?;
        let given = file.set_len(length);
        match given {
            Ok(()) => self.watch.has(Some(length)),
            Err(_) => self.watch.has(length_now(file)),
        }
        given
    }

    /// Makes what was written safe.
    pub fn sync(&mut self) -> io::Result<()> {
        self.watch.test()?;
        let path = self.path.as_str();
        let file = opened(&self.rt, &self.lines, path, self.access, &mut self.file)?;
        file.sync_all()
    }

    /// Tells of what follows the closed gate at this place and is about to be cut, where two or
    /// more whole records are there. Unless the file is only read, it keeps those bytes in a file
    /// of their own. Records of a move to another version that did not end are not told and not
    /// kept, since they repeat those before the gate. More records than those are of a move that
    /// ended, whose gate was damaged since: they are told and kept.
    pub fn put_aside(&mut self, gate: u64) -> io::Result<()> {
        self.watch.test()?;
        let path = self.path.as_str();
        let file = opened(&self.rt, &self.lines, path, self.access, &mut self.file)?;
        let Some(tail) = tail_of(file, gate)? else {
            return Ok(());
        };
        let Tail { records, bytes } = tail;
        let found = format_args!(
            "{records} whole records, {bytes} bytes, are behind the closed gate at {gate}"
        );
        self.lines.tell_of(path, found);
        if self.access == Access::Read {
            return Ok(());
        }
        let kept = keep_tail(&self.rt, path, file, gate)?;
        let kept = kept.as_str();
        self.lines
            .tell_of(path, format_args!("they are kept in {kept} and cut"));
        Ok(())
    }
}

// The length of a file in bytes, if the system says it.
fn length_now(file: &File) -> Option<u64> {
    Some(file.metadata().ok()?.len())
}
