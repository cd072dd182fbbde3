//! The journal's file of the host, as a disk.

ghost use Rattle.std.specs.Prelude.{◌≡◌, ◌≤◌, [], Ok, None, false, is_ok, length, string_bytes, IsErr, IfOk, IfErr, OnErr, Some};
ghost use Rattle.exam_edge.specs.Faults.{Rose};
ghost use Rattle.exam_edge.specs.ImageLaws.{is_its_image};
ghost use Rattle.host_edge.specs.FaultCount.{count_of, cause_of, IsCounted};
ghost use Rattle.host_edge.specs.HostDisk.{access_of, faults_of, path_of};
ghost use Rattle.host_edge.specs.declared.journal_file.Access.TheVariants as access;

use crate::closing::Closing;
use crate::fault_count::FaultCount;
use crate::health::Health;
use crate::journal_file::{Access, JournalFile};
use crate::{Lines, Reserve};
use exam_edge::{Disk, Failed};
use std::io;

/// A file by its path, which is opened at the first call. It is opened once, and no other
/// `HostDisk` opens it meanwhile, of this process or another. It does not report its content.
///
/// Before each write and each cut the file is compared with what is at its path. Once it is
/// removed, replaced or of another length than this object left, each call fails from that cause,
/// and nothing is written anywhere.
///
/// Standard error has a line at the first call that fails, one when bytes were written and synced
/// since, one where the journal is lost, one on rights of other users, and those on what is put
/// aside.
#[derive(Drop)]
pub struct HostDisk {
    file: JournalFile,
    health: Health,
    closing: Option<Closing>,
    faults: FaultCount,
}

impl HostDisk {
    /// The file of this path, for this use; no call has failed yet.
    pub fn of(rt: HostRuntime, path: String, access: Access) -> HostDisk
        ensures count { count_of (faults_of result) ≡ 0 }
        ensures cause { cause_of (faults_of result) ≡ None }
        // Promise: The file of a journal is that of the path, and is opened to be read alone, to be
        // written, to be written if it is long enough for a journal, or to be made if there is
        // none. With other lines or a reserve it is the same file, opened in the same way
        // - of `HostDisk::of`, `HostDisk::to_serve`, `HostDisk::to_read`, `HostDisk::telling`,
        //   `HostDisk::keeping`
        // - by `file` (`path_of`, `access_of`)
        ensures file { (path_of result ≡ string_bytes path) × (access_of result ≡ access) }
    {
        HostDisk::over(JournalFile::of(rt, path, access), None)
    }

    /// The same of a server, which ends by the flag where its journal is lost.
    pub fn to_serve(rt: HostRuntime, path: String, access: Access, closing: Closing) -> HostDisk
        ensures count { count_of (faults_of result) ≡ 0 }
        ensures cause { cause_of (faults_of result) ≡ None }
        ensures file { (path_of result ≡ string_bytes path) × (access_of result ≡ access) }
    {
        HostDisk::over(JournalFile::of(rt, path, access), Some(closing))
    }

    /// The same disk, of which these lines tell.
    pub fn telling(self, lines: Lines) -> HostDisk
        // Promise: A disk or a door that gets other lines, or a reserve, keeps its faults
        // - of `HostDisk::telling`, `HostDisk::keeping`, `HostDoor::telling`
        ensures faults { faults_of result ≡ faults_of self }
        ensures file { (path_of result ≡ path_of self)
            × (access_of result ≡ access_of self) }
    {
        let mut disk = self;
        disk.file.tell_by(lines);
        disk
    }

    /// The same disk, which gets room of this reserve where it has none for the file.
    pub fn keeping(self, reserve: Reserve) -> HostDisk
        ensures faults { faults_of result ≡ faults_of self }
        ensures file { (path_of result ≡ path_of self) × (access_of result ≡ access_of self) }
    {
        let mut disk = self;
        disk.file.keep(reserve);
        disk
    }

    /// The file of this path, to be read alone. Each call fails if there is none, or a folder in
    /// its place, and so does each write or cut; no call has failed yet.
    pub fn to_read(rt: HostRuntime, path: String) -> HostDisk
        ensures count { count_of (faults_of result) ≡ 0 }
        ensures cause { cause_of (faults_of result) ≡ None }
        ensures file { (path_of result ≡ string_bytes path)
            × (access_of result ≡ access.Read) }
    {
        HostDisk::over(JournalFile::of(rt, path, Access::Read), None)
    }

    fn over(file: JournalFile, closing: Option<Closing>) -> HostDisk
        ensures count { count_of (faults_of result) ≡ 0 }
        ensures cause { cause_of (faults_of result) ≡ None }
        ensures file { result.file ≡ file }
    {
        HostDisk {
            file,
            health: Health::Works,
            closing,
            faults: FaultCount::none(),
        }
    }

    /// Why the last call that failed did.
    pub fn cause(&self) -> Option<io::Error>
        ensures { result ≡ cause_of (faults_of self.now) }
    {
        self.faults.cause()
    }

    // Tells of a call that failed, where that is news. A journal that is lost ends the server.
    fn tell_fault(&mut self, cause: io::Error)
        ensures { faults_of self.new ≡ faults_of self.old }
    {
        let is_lost = self.file.loss().is_some();
        if self.health.failed(is_lost) {
            self.file.tell(cause);
        }
        if is_lost && let Some(closing) = &self.closing {
            closing.set();
        }
    }

    // Tells of a sync that was done, where the disk works again.
    fn tell_return(&mut self)
        ensures { faults_of self.new ≡ faults_of self.old }
    {
        if self.health.synced() {
            self.file.tell("works again");
        }
    }

    // The answer of a call of which the file gave this: the same, or a fault that is told and
    // counted.
    fn answer<T: Drop>(&mut self, given: io::Result<T>) -> Result<T, Failed>
        ensures done { IfOk given (λ x. result ≡ Ok x) }
        ensures failed { IfErr given
            (λ e. IsErr result × (cause_of (faults_of self.new) ≡ Some e)) }
        ensures counted { IsCounted (is_ok result) (faults_of self.old) (faults_of self.new) }
        ensures grows { count_of (faults_of self.old) ≤ count_of (faults_of self.new) }
        ensures rose { OnErr result
            (Rose (count_of (faults_of self.old)) (count_of (faults_of self.new))) }
    {
        if let Err(cause) = &given {
            self.tell_fault(*cause);
        }
        self.faults.answer(given)
    }
}

impl Disk for HostDisk {
    ghost tells = { λ d. false };

    ghost content = { λ d. [] };

    ghost accounts = { λ d. [] };

    ghost may_become = { λ before file. Unit {0} };

    ghost aside = { λ d. [] };

    ghost faults = { λ d. count_of (faults_of d) };

    ghost identity = { λ d. 0 };

    ghost is_image = { λ d told. is_its_image [] };

    fn len(&mut self) -> Result<u64, Failed>
        ensures counted { IsCounted (is_ok result) (faults_of self.old) (faults_of self.new) }
        ensures grows { count_of (faults_of self.old) ≤ count_of (faults_of self.new) }
        ensures failed { OnErr result
            (Rose (count_of (faults_of self.old)) (count_of (faults_of self.new))) }
    {
        let given = self.file.len();
        self.answer(given)
    }

    fn read(&mut self, at: u64, buffer: &mut [u8]) -> Result<usize, Failed>
        ensures count { IfOk result (λ k. k ≤ length buffer.old) }
        ensures counted { IsCounted (is_ok result) (faults_of self.old) (faults_of self.new) }
        ensures grows { count_of (faults_of self.old) ≤ count_of (faults_of self.new) }
        ensures failed { OnErr result
            (Rose (count_of (faults_of self.old)) (count_of (faults_of self.new))) }
    {
        let most = buffer.len();
        let given = self.file.read(at, buffer);
        if let Err(cause) = &given {
            self.tell_fault(*cause);
        }
        self.faults.answer_count(given, 0, most)
    }

    fn write_at(&mut self, at: u64, bytes: &[u8]) -> Result<(), Failed>
        ensures counted { IsCounted (is_ok result) (faults_of self.old) (faults_of self.new) }
        ensures grows { count_of (faults_of self.old) ≤ count_of (faults_of self.new) }
        ensures failed { OnErr result
            (Rose (count_of (faults_of self.old)) (count_of (faults_of self.new))) }
    {
        let given = self.file.write(at, bytes);
        if given.is_ok() {
            self.health.wrote();
        }
        self.answer(given)
    }

    fn renew(&mut self, at: u64, bytes: &[u8]) -> Result<(), Failed>
        ensures counted { IsCounted (is_ok result) (faults_of self.old) (faults_of self.new) }
        ensures grows { count_of (faults_of self.old) ≤ count_of (faults_of self.new) }
        ensures failed { OnErr result
            (Rose (count_of (faults_of self.old)) (count_of (faults_of self.new))) }
    {
        let given = self.file.write(at, bytes);
        self.answer(given)
    }

    fn cut(&mut self, length: u64) -> Result<(), Failed>
        ensures counted { IsCounted (is_ok result) (faults_of self.old) (faults_of self.new) }
        ensures grows { count_of (faults_of self.old) ≤ count_of (faults_of self.new) }
        ensures failed { OnErr result
            (Rose (count_of (faults_of self.old)) (count_of (faults_of self.new))) }
    {
        let given = self.file.cut(length);
        self.answer(given)
    }

    fn sync(&mut self) -> Result<(), Failed>
        ensures counted { IsCounted (is_ok result) (faults_of self.old) (faults_of self.new) }
        ensures grows { count_of (faults_of self.old) ≤ count_of (faults_of self.new) }
        ensures failed { OnErr result
            (Rose (count_of (faults_of self.old)) (count_of (faults_of self.new))) }
    {
        let given = self.file.sync();
        if given.is_ok() {
            self.tell_return();
        }
        self.answer(given)
    }

    fn put_aside(&mut self, gate: u64) -> Result<(), Failed>
        ensures counted { IsCounted (is_ok result) (faults_of self.old) (faults_of self.new) }
        ensures grows { count_of (faults_of self.old) ≤ count_of (faults_of self.new) }
        ensures failed { OnErr result
            (Rose (count_of (faults_of self.old)) (count_of (faults_of self.new))) }
    {
        let given = self.file.put_aside(gate);
        self.answer(given)
    }
}
