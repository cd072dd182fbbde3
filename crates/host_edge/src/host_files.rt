//! The files of the host.

ghost use Rattle.std.specs.Prelude.{◌≡◌, ◌<◌, ◌≤◌, ◌+◌, ◌^◌, [], None, false, is_ok, length, IfOk, OnErr};
ghost use Rattle.exam_edge.specs.Faults.{Rose};
ghost use Rattle.host_edge.specs.FaultCount.{count_of, cause_of, IsCounted};
ghost use Rattle.host_edge.specs.HostFiles.{faults_of};

use crate::again::read_at_again;
use crate::fault_count::FaultCount;
use exam_edge::{Failed, Files};
use std::fs::File;
use std::io;

// A file that was opened by this name.
#[derive(Drop)]
struct NamedFile {
    name: String,
    file: File,
}

/// Files by their paths. The file that was read last is kept open: a file that is read from its
/// front to its end is opened once, and is one file although another takes its name meanwhile. It
/// does not report what its files hold.
#[derive(Drop)]
pub struct HostFiles {
    rt: HostRuntime,
    opened: Option<NamedFile>,
    refused: Option<String>,
    faults: FaultCount,
}

// Bytes of a file from a place on. The file stays open.
fn read_kept(
    rt: &HostRuntime,
    opened: &mut Option<NamedFile>,
    name: &str,
    at: u64,
    buffer: &mut [u8],
) -> io::Result<usize> {
    if let Some(kept) = opened
        && kept.name.as_str() == name
    {
        return read_at_again(&kept.file, at, buffer);
    }
    let file = File::open(rt, name)?;
    let answer = read_at_again(&file, at, buffer);
    let name = String::from_str(rt.alloc(), name)?;
    *opened = Some(NamedFile { name, file });
    answer
}

impl HostFiles {
    /// The files that the runtime reaches; no call has failed yet.
    pub fn of(rt: HostRuntime) -> HostFiles
        // Promise: A call is counted as a fault exactly where it fails, and the cause of the last
        // that failed is kept
        // - of `HostFiles::of`, `HostSink::of`, `HostDisk::of`, `HostDisk::to_serve`,
        //   `HostDisk::to_read`, `HostDoor::of`, `HostDoor::to_follow`, `HostDoor::to_ship`,
        //   `HostLink::of`
        // - by `count`, `cause` (`IsCounted`)
        ensures count { count_of (faults_of result) ≡ 0 }
        ensures cause { cause_of (faults_of result) ≡ None }
    {
        HostFiles {
            rt,
            opened: None,
            refused: None,
            faults: FaultCount::none(),
        }
    }

    /// The path of the file whose read failed last, if there was memory to keep it.
    // Promise: The path of the file whose read failed last is kept. Nothing is stated of what a
    // file, an output or a socket holds
    // - by none
    pub fn refused(&self) -> Option<&str> {
        Some(self.refused.as_ref()?.as_str())
    }

    /// Why the last call that failed did.
    pub fn cause(&self) -> Option<io::Error>
        // Promise: The cause of the last call that failed can be read
        // - of `HostFiles::cause`, `HostSink::cause`, `HostDisk::cause`, `HostDoor::cause`
        // - by the clause (`cause_of`)
        ensures { result ≡ cause_of (faults_of self.now) }
    {
        self.faults.cause()
    }
}

impl Files for HostFiles {
    ghost tells = { λ f. false };

    ghost has = { λ f name. false };

    ghost content = { λ f name. [] };

    ghost faults = { λ f. count_of (faults_of f) };

    ghost identity = { λ f. 0 };

    fn read(&mut self, name: &str, at: u64, buffer: &mut [u8]) -> Result<usize, Failed>
        ensures count { IfOk result (λ k. k ≤ length buffer.old) }
        ensures place { IfOk result (λ k. at + k < 2 ^ 64) }
        ensures counted { IsCounted (is_ok result) (faults_of self.old) (faults_of self.new) }
        ensures grows { count_of (faults_of self.old) ≤ count_of (faults_of self.new) }
        ensures failed { OnErr result
            (Rose (count_of (faults_of self.old)) (count_of (faults_of self.new))) }
    {
        let most = buffer.len().min((u64::MAX - at) as usize);
        let given = read_kept(&self.rt, &mut self.opened, name, at, buffer);
        let answer = self.faults.answer_count(given, 0, most);
        if answer.is_err() {
            self.refused = String::from_str(self.rt.alloc(), name).ok();
        }
        answer
    }
}
