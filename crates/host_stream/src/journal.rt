//! The journal's file, which its server writes meanwhile.

ghost use Rattle.std.specs.Prelude.{◌≡◌, ◌≤◌, [], false, None, length, IfOk};
ghost use Rattle.exam_edge.specs.Faults.{Rose};
ghost use Rattle.host_stream.specs.HostJournal.{faults_of, none_served};

use crate::pace::{PAUSE, Pace};
use crate::server::count_entries;
use exam_edge::Failed;
use host_edge::{Lines, read_at_again};
use journal_stream::{GrowingFile, Waited};
use std::fs::File;
use std::io::ErrorKind;
use std::os::unix::fs::MetadataExt;
use std::time::{Duration, Instant};
use std::{fs, io, thread};

/// At least so many seconds pass from one line on the follower's records to the next.
const LINES: u64 = 10;

/// A journal's file by its path, which is opened at the first read after it is there, without a
/// lock, and never written; and the address of its server, which is asked for its count of entries
/// where a record is there that is not known to be settled. It does not report its content.
/// Standard error has a line at each fault, and now and then one on how many records the follower
/// has; or it is quiet, and has none of them.
#[derive(Drop)]
pub struct HostJournal {
    rt: HostRuntime,
    lines: Lines,
    path: String,
    server: String,
    is_quiet: bool,
    file: Option<File>,
    pace: Pace,
    /// How many records the follower has, and those of the last line.
    noted: u64,
    written: Option<u64>,
    line: Option<Instant>,
    /// Whether a line was written that no file is there yet.
    is_awaited: bool,
    /// Whether another file, or none, is at the path of the one that was opened.
    is_lost: bool,
    faults: u64,
}

// Opens the file of a path to be read. The host opens a folder so too: it is refused.
fn file_to_read(rt: &HostRuntime, path: &str) -> io::Result<File> {
    let file = File::open(rt, path)?;
    if file.metadata()?.is_dir() {
        return Err(io::Error::new(ErrorKind::IsADirectory, "it is a folder"));
    }
    Ok(file)
}

// Whether an open file is the one at a path.
fn is_at(rt: &HostRuntime, path: &str, file: &File) -> io::Result<bool> {
    let (own, there) = (file.metadata()?, fs::metadata(rt, path)?);
    Ok(own.dev() == there.dev() && own.ino() == there.ino())
}

impl HostJournal {
    /// The file of this path, which the server at this address writes; no call has failed yet.
    pub fn of(rt: HostRuntime, lines: Lines, path: String, server: String) -> HostJournal
        // Promise: A new object has counted no fault, and no link is out
        // - of `HostJournal::of`, `HostJournal::quiet`, `HostFollower::of`
        // - by the clause, `faults`, `out`
        ensures { faults_of result ≡ 0 }
    {
        HostJournal::over(rt, lines, path, server, false)
    }

    /// The same, and no line is written.
    pub fn quiet(rt: HostRuntime, path: String, server: String) -> HostJournal
        ensures { faults_of result ≡ 0 }
    {
        HostJournal::over(rt, Lines::direct(rt), path, server, true)
    }

    fn over(
        rt: HostRuntime,
        lines: Lines,
        path: String,
        server: String,
        is_quiet: bool,
    ) -> HostJournal
        ensures { faults_of result ≡ 0 }
    {
        HostJournal {
            rt,
            lines,
            path,
            server,
            is_quiet,
            file: None,
            pace: Pace::new(),
            noted: 0,
            written: None,
            line: None,
            is_awaited: false,
            is_lost: false,
            faults: 0,
        }
    }

    // Tells of a fault, and counts it.
    fn fail(&mut self, cause: io::Error) -> Failed
        ensures rose { Rose (faults_of self.old) (faults_of self.new) }
        ensures grows { faults_of self.old ≤ faults_of self.new }
    {
        if !self.is_quiet {
            self.lines.tell_of(self.path.as_str(), cause);
        }
        self.faults = self.faults.saturating_add(1);
        Failed
    }

    // Reads bytes from a place on, of the file at the path.
    fn read_file(&mut self, at: u64, buffer: &mut [u8]) -> io::Result<usize>
        ensures count { IfOk result (λ k. k ≤ length buffer.new) }
        ensures faults { faults_of self.new ≡ faults_of self.old }
    {
        if self.is_lost {
            return Err(io::Error::new(
                ErrorKind::NotFound,
                "another file, or none, is at its path",
            ));
        }
        if self.file.is_none() {
            self.file = self.open()?;
        }
        match &self.file {
            Some(file) => read_at_again(file, at, buffer),
            None => Ok(0),
        }
    }

    // Opens the file, if it is there. A server that has just begun makes it.
    fn open(&mut self) -> io::Result<Option<File>>
        ensures { faults_of self.new ≡ faults_of self.old }
    {
        match file_to_read(&self.rt, self.path.as_str()) {
            Ok(file) => Ok(Some(file)),
            Err(cause) if cause.kind() == ErrorKind::NotFound => {
                self.tell_awaited();
                Ok(None)
            }
            Err(cause) => Err(cause),
        }
    }

    // Writes a line that no file is there yet, once.
    fn tell_awaited(&mut self)
        ensures { faults_of self.new ≡ faults_of self.old }
    {
        if !self.is_awaited && !self.is_quiet {
            self.lines.tell_of(self.path.as_str(), "not there yet");
        }
        self.is_awaited = true;
    }

    // Looks whether the file is still the one at its path.
    fn look(&mut self)
        ensures { faults_of self.new ≡ faults_of self.old }
    {
        if let Some(file) = &self.file {
            self.is_lost = !is_at(&self.rt, self.path.as_str(), file).unwrap_or(false);
        }
    }

    // Writes a line on how many records the follower has, if no line has that number.
    fn tell(&mut self)
        ensures { faults_of self.new ≡ faults_of self.old }
    {
        if self.is_quiet || self.written == Some(self.noted) {
            return;
        }
        self.written = Some(self.noted);
        self.line = Instant::now(&self.rt).ok();
        let noted = self.noted;
        match count_entries(&self.rt, self.server.as_str()) {
            Some(entries) => {
                self.lines
                    .tell(format_args!("follower has {noted} of {entries} records"))
            }
            None => self.lines.tell(format_args!(
                "follower has {noted} records; the server does not answer"
            )),
        }
    }

    // Whether the last line was written long ago.
    fn is_line_due(&self) -> bool {
        match self.line.and_then(|line| line.elapsed(&self.rt).ok()) {
            Some(time) => LINES <= time.as_secs(),
            None => true,
        }
    }

    // The server's count of entries, where it is to be asked.
    fn ask(&mut self) -> Option<u64>
        ensures { faults_of self.new ≡ faults_of self.old }
    {
        if !self.pace.is_question_due() {
            return None;
        }
        let told = count_entries(&self.rt, self.server.as_str());
        self.pace.asked(told.is_some());
        told
    }
}

impl GrowingFile for HostJournal {
    ghost tells = { λ _. false };

    ghost moved = { λ _. None };

    ghost settled = { λ _. [] };

    ghost content = { λ _. [] };

    ghost faults = { faults_of };

    ghost served = { λ s told. none_served };

    fn read(&mut self, at: u64, buffer: &mut [u8]) -> Result<usize, Failed> {
        match self.read_file(at, buffer) {
            Ok(count) => Ok(count),
            Err(cause) => Err(self.fail(cause)),
        }
    }

    fn refuse(&mut self, at: u64) -> Failed {
        if !self.is_quiet {
            let path = self.path.as_str();
            self.lines.tell_of(
                path,
                format_args!("no journal of the second version, by its bytes at {at}"),
            );
        }
        self.faults = self.faults.saturating_add(1);
        Failed
    }

    fn note(&mut self, count: u64) {
        // While a record is waited for, the one before it may be asked for.
        if count == self.noted || count.saturating_add(1) == self.noted {
            return;
        }
        self.pace = Pace::new();
        self.noted = count;
        if self.is_line_due() {
            self.tell();
        }
    }

    fn wait(&mut self, is_unsettled: bool) -> Waited {
        thread::sleep(&self.rt, Duration::from_millis(PAUSE));
        let is_long = self.pace.count();
        if self.pace.is_look_due() {
            self.look();
            self.tell();
        }
        let told = if is_unsettled { self.ask() } else { None };
        Waited {
            told: told.unwrap_or(0),
            is_long,
        }
    }
}
