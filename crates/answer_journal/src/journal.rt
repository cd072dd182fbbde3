//! A journal over a disk.

ghost use Rattle.std.specs.Prelude.{◌≡◌, ◌≢◌, ◌≤◌, ◌<◌, ◌+◌, ◌-◌, ◌↔◌, ◌⊎◌, ◌==◌, ℕ, [], ◌∷◌, ◌++◌, length, take, get_or, slice_index, map, Some, None, IsTrue, is_some, unwrap_or, IfOk, IfErr, OnOk, OnErr};
ghost use Rattle.std.specs.Option.{ForSome};
ghost use Rattle.exam_edge.specs.Faults.{Rose};
ghost use Rattle.exam_edge.specs.Lent.{IsLent, FailsOnly};
ghost use Rattle.exam_edge.specs.Images.{AllImages, Allows, AtEachMoment, IsClean, IsImage, IsSettled, latest};
ghost use Rattle.answer_journal.specs.Frames.{frame_of};
ghost use Rattle.answer_journal.specs.OpenFault.{IsOpenAnswer, IsWalkAnswer, fault_in};
ghost use Rattle.answer_journal.specs.Versions.{HoldsJust, HoldsOrOneMore, contents, counted_in, second};
ghost use Rattle.answer_journal.specs.Versions.{version_of as named_version};
ghost use Rattle.answer_journal.specs.Reading.{IsRoomFor};
ghost use Rattle.answer_journal.specs.Walk.{IsJust, first_gate};
ghost use Rattle.answer_journal.specs.Opening.{AllowsSame, PutsTailAside, tail_gates};
ghost use Rattle.answer_journal.specs.Outcome.{OnFull, OnDisk, payloads_after, size_after};
ghost use Rattle.answer_journal.specs.Payload.{bytes_of, at_of, end_of, places_of};
ghost use Rattle.answer_journal.specs.Standing.{IsAsLeft, IsBeingSwitched, IsImageOrHolds, opened_file};

use crate::appending::{resolve_record, write_record};
use crate::opening::test_file;
use crate::walk::{read_all, read_before};
use crate::{Frame, OpenFault, Payload, Walk, WalkFault};
use exam_edge::{Disk, Failed};
use std::alloc::Global;
use std::marker::Model;

/// What became of a record in doubt.
#[derive(Clone, Copy, Debug, PartialEq, Eq)]
pub enum Adopted {
    /// Its gate read open: it is one of the journal's records.
    Kept,
    /// Its gate read closed: it was cut off.
    Dropped,
}

/// Why no record was added.
#[derive(Clone, Copy, Debug, PartialEq, Eq)]
pub enum AppendFault {
    /// The journal would have this length in bytes, above its limit. Nothing was written.
    Full(u64),
    /// A call of the disk failed, and the disk has counted that. The record is in doubt.
    Disk,
}

// The length once the record in doubt was kept or dropped.
fn length_after(adopted: Adopted, size: u64, doubt: Option<u64>) -> u64
    ensures { result ≡ size_after adopted size (unwrap_or doubt size) }
{
    match adopted {
        Adopted::Kept => match doubt {
            Some(with_it) => with_it,
            None => size,
        },
        Adopted::Dropped => size,
    }
}

/// A journal over a disk that nobody else writes: payloads, each durable before it is acknowledged.
/// A record is written after the closed gate that ends the file, and is synced. It counts once that
/// gate is opened and synced again.
pub struct Journal<D: Disk> {
    pub(crate) disk: D,
    pub(crate) size: u64,
    pub(crate) limit: u64,
    pub(crate) doubt: Option<u64>,
    /// The version that the header names.
    pub(crate) version: u8,
    /// The place of the first gate whose record counts, or is to count.
    pub(crate) start: u64,
}

impl<D: Disk> Model for Journal<D> {
    ghost use Rattle.answer_journal.specs.Journal.{JournalState, AreLengths};

    ghost Value = { JournalState D };

    ghost view = { λ j. record {
      disk = j.disk;
      tells = D.tells j.disk;
      content = D.content j.disk;
      accounts = D.accounts j.disk;
      aside = D.aside j.disk;
      faults = D.faults j.disk;
      identity = D.identity j.disk;
      size = j.size;
      limit = j.limit;
      doubt = j.doubt;
      version = j.version;
      start = j.start;
    } };

    ghost invariant = { λ j. AreLengths j.size j.limit j.doubt j.start };
}

impl<D: Disk> Journal<D> {
    ghost use Rattle.answer_journal.specs.Journal.{disk_of, tells_of, content_of, accounts_of};
    ghost use Rattle.answer_journal.specs.Journal.{aside_of, faults_of, identity_of, length_of};
    ghost use Rattle.answer_journal.specs.Journal.{limit_of, doubt_of, payloads_of, version_of, start_of};
    ghost use Rattle.answer_journal.specs.Journal.{AreLengths, IsReady, IsDoubtful};

    /// Tests the frames of a file, to walk over its payloads one after another. It syncs first, and
    /// writes nothing. The disk is as a reboot or a journal left it: a record may be in doubt, or
    /// the gate that moves the journal. It takes no memory. The limit of the journal's length is in
    /// bytes, at most 536,870,912. A refusal gives the disk back.
    pub fn walk(disk: D, limit: u64) -> Result<Walk<D>, (D, OpenFault)>
        requires limit { limit ≤ 536870912 }
        requires left { IsTrue (D.tells disk) → IsAsLeft (D.accounts disk) }
        ensures limit { IfOk result (λ walk. walk.limit ≡ limit) }
        ensures start { IfOk result (λ walk. walk.given ≡ 0) }
        ensures place { IfOk result
            (λ walk. IsTrue (D.tells disk) → walk.at ≡ first_gate (D.content disk)) }

        // No rule is broken: the walk is to give the payloads that count.
        // Promise: A walk begins only over a file that is a journal within the limit; another is
        // refused with the fault that opening gives. It takes no memory
        // - by `gives`, `sound`, `why`, `cause`, `no_memory`, `start`
        ensures gives { IfOk result (λ walk. IsTrue (D.tells disk)
            → contents (D.content disk) ≡ Some (counted_in (D.content disk))) }
        // The version of the header, and that of the records that count.
        ensures versions { IfOk result (λ walk. IsTrue (D.tells disk)
            → (walk.header_version ≡ named_version (D.content disk))
            × (walk.record_version ≡ (counted_in (D.content disk)).version)) }
        // A gate that was being opened to move the journal may still be suspect.
        ensures switching { IfOk result (λ walk. IsTrue (D.tells disk)
            → IsBeingSwitched (D.accounts disk) → IsBeingSwitched (D.accounts walk.disk)) }

        // The first thing that is wrong with the file, if anything is, unless the disk failed.
        ensures sound { IfOk result (λ walk. IsTrue (D.tells disk)
            → fault_in limit (D.content disk) ≡ None) }
        ensures why { IfErr result (λ e. IsTrue (D.tells disk)
            → IsWalkAnswer limit (D.content disk) e.1) }
        ensures cause { IfErr result
            (λ e. e.1 ≡ OpenFault.Disk → Rose (D.faults disk) (D.faults e.0)) }
        ensures no_memory { IfErr result (λ e. e.1 ≢ OpenFault.Memory) }

        // The file is not changed, also if the disk failed.
        // Promise: A file that is walked over is not changed, also if the disk failed. At each
        // moment of the tests of its frames a crash leaves what it might have left before, and
        // after them the content alone, if nothing was suspect
        // - of `Journal::walk`, `Walk::next`
        // - by `untouched`, `untouched_err`, `moments`, `moments_err`, `settled`, `settled_err`,
        //   `images`, `accounts`
        ensures untouched { IfOk result (λ walk. IsTrue (D.tells disk)
            → D.content walk.disk ≡ D.content disk) }
        ensures untouched_err { IfErr result (λ e. IsTrue (D.tells disk)
            → D.content e.0 ≡ D.content disk) }

        // At each moment of the call a crash leaves what it might have left before.
        ensures moments { IfOk result (λ walk. IsTrue (D.tells disk)
            → AtEachMoment (D.accounts disk) (D.accounts walk.disk)
            (IsImage (latest (D.accounts disk)))) }
        ensures moments_err { IfErr result (λ e. IsTrue (D.tells disk)
            → AtEachMoment (D.accounts disk) (D.accounts e.0)
            (IsImage (latest (D.accounts disk)))) }
        ensures settled { IfOk result (λ walk. IsTrue (D.tells disk)
            → IsSettled (D.content disk) (D.accounts disk)
            → AtEachMoment (D.accounts disk) (D.accounts walk.disk)
            (λ file. file ≡ D.content disk)) }
        ensures settled_err { IfErr result (λ e. IsTrue (D.tells disk)
            → IsSettled (D.content disk) (D.accounts disk)
            → AtEachMoment (D.accounts disk) (D.accounts e.0) (λ file. file ≡ D.content disk)) }
        ensures images { IfOk result (λ walk. IsTrue (D.tells disk)
            → IsClean (latest (D.accounts disk))
            → AllImages (λ file. file ≡ D.content disk) (latest (D.accounts walk.disk))) }

        ensures aside { IfOk result (λ walk. IsTrue (D.tells disk)
            → D.aside walk.disk ≡ D.aside disk) }
        ensures aside_err { IfErr result (λ e. IsTrue (D.tells disk)
            → D.aside e.0 ≡ D.aside disk) }

        ensures frame { IfOk result
            (λ walk. IsLent D.tells D.identity D.faults disk walk.disk) }
        ensures frame_err { IfErr result (λ e. IsLent D.tells D.identity D.faults disk e.0) }
    {
        let mut disk = disk;
        match test_file(&mut disk, limit) {
            Ok(extent) => Ok(Walk {
                disk,
                limit,
                extent,
                at: extent.start,
                passed: extent.skipped,
                last: extent.mark_gate(),
            }),
            Err(e) => Err((disk, e)),
        }
    }

    /// Opens a file, and gives its payloads with the places of their gates: first a walk over all
    /// of them, then its `finish`. It makes a file of at most nine bytes an empty journal. In any
    /// other file it writes the gate of the mark, the last open gate and the first closed one again
    /// as they read, and cuts what follows the closed one. The limit of the journal's length is in
    /// bytes, at most 536,870,912. A refusal gives the disk back.
    pub fn open(
        alloc: Global,
        disk: D,
        limit: u64,
    ) -> Result<(Journal<D>, Vec<Payload>), (D, OpenFault)>
        requires limit { limit ≤ 536870912 }
        requires left { IsTrue (D.tells disk) → IsAsLeft (D.accounts disk) }
        requires comes { IsTrue (D.tells disk)
            → AllowsSame D.may_become contents (D.content disk) }
        ensures ready { IfOk result (λ opened. IsReady opened.0) }
        ensures limit { IfOk result (λ opened. limit_of opened.0 ≡ limit) }
        // Promise: A file is opened only where it is a journal within the limit; its payloads, with
        // the places of their gates, are those of the records before the first closed gate
        // - by `gives`, `keeps`, `places`, `sound`
        ensures gives { IfOk result (λ opened. IsTrue (D.tells disk)
            → contents (D.content disk) ≡ Some (second (map bytes_of opened.1.items))) }
        ensures keeps { IfOk result (λ opened. IsTrue (D.tells disk)
            → payloads_of opened.0 ≡ map bytes_of opened.1.items) }
        ensures version { IfOk result (λ opened. IsTrue (D.tells disk)
            → version_of opened.0 ≡ named_version (D.content disk)) }
        ensures start { IfOk result (λ opened. IsTrue (D.tells disk)
            → start_of opened.0 ≡ first_gate (D.content disk)) }
        ensures places { IfOk result (λ opened. IsTrue (D.tells disk) → map at_of opened.1.items
            ≡ places_of (first_gate (D.content disk)) (map bytes_of opened.1.items)) }
        // Promise: A file that is opened keeps its bytes up to its first closed gate, or becomes an
        // empty journal if it had at most nine
        ensures content { IfOk result (λ opened. IsTrue (D.tells disk)
            → content_of opened.0 ≡ opened_file (D.content disk) (length_of opened.0)) }

        // The first thing that is wrong with the file, if anything is, unless memory or the disk
        // failed.
        ensures sound { IfOk result (λ opened. IsTrue (D.tells disk)
            → fault_in limit (D.content disk) ≡ None) }
        // Promise: Another file is refused with its first fault: its length, its header, then frame
        // by frame a length of 0 or above 131,072, or a record that is cut, with the place of the
        // gate
        // - by `why`, `sound`
        // Promise: A journal of the first version that was not moved is not opened, and left byte
        // for byte; a file of at most nine bytes becomes one of the second
        // - by `why` (`IsOpenAnswer`), `untouched`, `content`
        ensures why { IfErr result (λ e. IsTrue (D.tells disk)
            → IsOpenAnswer limit (D.content disk) e.1) }
        // Promise: `Disk` comes only where the disk's count of faults rose in this call
        ensures cause { IfErr result (λ e. e.1 ≡ OpenFault.Disk
            → Rose (D.faults disk) (D.faults e.0)) }
        // Promise: A file that is refused for its bytes, or for lack of memory, is left byte for
        // byte
        ensures untouched { IfErr result (λ e. e.1 ≢ OpenFault.Disk → IsTrue (D.tells disk)
            → D.content e.0 ≡ D.content disk) }

        // At each moment of the call a crash leaves what it might have left before, or the same
        // payloads.
        ensures moments { IfOk result (λ opened. IsTrue (D.tells disk)
            → AtEachMoment (D.accounts disk) (accounts_of opened.0)
            (IsImageOrHolds (latest (D.accounts disk)) (D.content disk))) }
        ensures moments_err { IfErr result (λ e. IsTrue (D.tells disk)
            → AtEachMoment (D.accounts disk) (D.accounts e.0)
            (IsImageOrHolds (latest (D.accounts disk)) (D.content disk))) }
        // Promise: On a settled disk no file that a crash may leave at any moment of opening
        // differs in its payloads, whether opening succeeds or fails. On a disk that a reboot or a
        // journal left otherwise, each is one that a crash might have left before, or gives the
        // same payloads
        // - by `settled`, `settled_err`, `moments`, `moments_err`, `left` (`IsAsLeft`)
        ensures settled { IfOk result (λ opened. IsTrue (D.tells disk)
            → IsSettled (D.content disk) (D.accounts disk)
            → AtEachMoment (D.accounts disk) (accounts_of opened.0) (λ file. contents file
            ≡ contents (D.content disk))) }
        ensures settled_err { IfErr result (λ e. IsTrue (D.tells disk)
            → IsSettled (D.content disk) (D.accounts disk)
            → AtEachMoment (D.accounts disk) (D.accounts e.0) (λ file. contents file
            ≡ contents (D.content disk))) }
        // Promise: After opening each file that a crash may leave gives the payloads that were
        // found, also where the last writer ended after a sync that failed
        ensures images { IfOk result (λ opened. IsTrue (D.tells disk)
            → AllImages (λ file. contents file ≡ Some (second (map bytes_of opened.1.items)))
            (latest (accounts_of opened.0))) }

        // What is cut was put aside before, and nothing else was.
        // Promise: Opening puts aside what it cuts, from the gate at which the journal ends, and
        // nothing else; where it fails, the same was put aside, or the file was only read
        // - of `Journal::open`, `Walk::finish`
        // - by `aside`, `aside_err` (`PutsTailAside`)
        ensures aside { IfOk result (λ opened. IsTrue (D.tells disk) → aside_of opened.0
            ≡ D.aside disk ++ tail_gates (D.content disk)) }
        ensures aside_err { IfErr result (λ e. IsTrue (D.tells disk)
            → PutsTailAside (D.content disk) (D.content e.0)
            (D.accounts disk) (D.accounts e.0) (D.aside disk) (D.aside e.0)) }

        ensures grows { IfOk result (λ opened. D.faults disk ≤ faults_of opened.0) }
        ensures tells { IfOk result (λ opened. tells_of opened.0 ≡ D.tells disk) }
        ensures identity { IfOk result (λ opened. identity_of opened.0 ≡ D.identity disk) }
        ensures frame_err { IfErr result (λ e. IsLent D.tells D.identity D.faults disk e.0) }
    {
        let mut walk = match Journal::walk(disk, limit) {
            Ok(walk) => walk,
            Err(refused) => return Err(refused),
        };
        if walk.record_version() == 1 {
            return Err((walk.stop(), OpenFault::Version));
        }
        let read = match read_all(alloc, &mut walk) {
            Ok(read) => read,
            Err(fault) => return Err((walk.stop(), fault)),
        };
        match walk.finish() {
            Ok(journal) => Ok((journal, read)),
            Err(refused) => Err(refused),
        }
    }

    /// Adds a record, by four calls of the disk: write, sync, open the gate, sync. No record may be
    /// in doubt before. At `Ok` it is on the disk. `Full` exactly where the new length, 5 bytes and
    /// the payload more, exceeds the limit. At `Disk` the record is in doubt. It takes no memory.
    // Promise: `append` and `mend` take no memory, so these promises have no exception for it
    // - of `Journal::append`, `Journal::mend`
    // - by their signatures
    pub fn append(&mut self, frame: &Frame) -> Result<(), AppendFault>
        requires ready { IsReady self.old }
        // Promise: The disk has to allow what the journal writes. Of a file with the payloads
        // before it is a file with these or with the new one. In mending and opening it has the
        // same payloads, in a move the old ones or the new ones
        // - of `Journal::append`, `Journal::mend`, `Journal::open`, `Walk::finish`,
        //   `Walk::start_move`, `Moving::add`, `Moving::switch`
        // - by `comes` (`Allows`, `AllowsSame`)
        requires comes { IsTrue (tells_of self.old)
            → Allows D.may_become (HoldsJust (payloads_of self.old))
            (HoldsOrOneMore (payloads_of self.old) frame.now) }
        ensures ready { OnOk result (IsReady self.new) }
        ensures length { OnOk result (length_of self.new
            ≡ length_of self.old + 5 + length frame.now) }
        // Promise: After `Ok` each file that a crash may leave gives the payloads with the new one
        // - by `added`, `images`, `ready`
        ensures added { OnOk result (IsTrue (tells_of self.old)
            → payloads_of self.new ≡ payloads_of self.old ++ frame.now ∷ []) }
        // Promise: After `Ok` the file is header, frames and one closed gate, byte for byte
        ensures content { OnOk result (IsTrue (tells_of self.old)
            → content_of self.new ≡ take (length_of self.old - 1) (content_of self.old)
            ++ 1 ∷ frame_of frame.now) }
        ensures images { OnOk result (IsTrue (tells_of self.old)
            → AllImages (λ file. contents file
            ≡ Some (second (payloads_of self.old ++ frame.now ∷ [])))
            (latest (accounts_of self.new))) }
        // At each moment of the call a crash leaves the payloads from before it, or those with the
        // new one.
        // Promise: A record is there or not: at each moment since `append` began, each file that a
        // crash may leave gives the payloads before it, or those with the new one
        ensures moments { IsTrue (tells_of self.old)
            → AtEachMoment (accounts_of self.old) (accounts_of self.new)
            (HoldsOrOneMore (payloads_of self.old) frame.now) }

        // None of them has other bytes before the closed gate.
        // Promise: Adding and mending change no byte before the closed gate, or before that of the
        // record in doubt
        // - of `Journal::append`, `Journal::mend`
        ensures before { IsTrue (tells_of self.old)
            → AtEachMoment (accounts_of self.old) (accounts_of self.new)
            (λ file. take (length_of self.old - 1) file
            ≡ take (length_of self.old - 1) (content_of self.old)) }

        // Promise: `Full` comes exactly where the new length, 5 bytes and the payload more, exceeds
        // the limit; nothing was written then
        // - by `full`, `fits`
        ensures full { IfErr result
            (λ e. OnFull e (λ n. (n ≡ length_of self.old + 5 + length frame.now)
            × (limit_of self.old < n) × (self.new ≡ self.old))) }
        ensures fits { limit_of self.old < length_of self.old + 5 + length frame.now
            → result ≡ Err (AppendFault.Full (length_of self.old + 5 + length frame.now)) }
        ensures doubt { IfErr result
            (λ e. OnDisk e (IsDoubtful (payloads_of self.old) frame.now self.new)) }
        // Promise: `Disk` comes only where the disk's count of faults rose in this call; this
        // record, and no other, is then in doubt
        // - by `cause`, `doubt`
        ensures cause { IfErr result
            (λ e. OnDisk e (Rose (faults_of self.old) (faults_of self.new))) }
        ensures length_err { OnErr result (length_of self.new ≡ length_of self.old) }

        ensures limit { limit_of self.new ≡ limit_of self.old }
        ensures versions { (version_of self.new ≡ version_of self.old)
            × (start_of self.new ≡ start_of self.old) }
        ensures aside { IsTrue (tells_of self.old) → aside_of self.new ≡ aside_of self.old }
        ensures frame { IsLent tells_of identity_of faults_of self.old self.new }
    {
        let with_it = self.size + frame.record_bytes().len() as u64;
        if self.limit < with_it {
            return Err(AppendFault::Full(with_it));
        }
        match write_record(&mut self.disk, self.size, frame) {
            Ok(()) => {
                self.size = with_it;
                Ok(())
            }
            Err(_) => {
                self.doubt = Some(with_it);
                Err(AppendFault::Disk)
            }
        }
    }

    /// Whether a record is in doubt: a call of the disk failed while it was added, and it was not
    /// resolved since.
    pub fn in_doubt(&self) -> bool
        ensures { result ≡ is_some (doubt_of self.now) }
    {
        self.doubt.is_some()
    }

    /// Resolves the record in doubt: reads its gate, writes it again as it reads, and syncs. It
    /// keeps the record exactly where the gate reads open, and else cuts it off and syncs. At
    /// `Failed` the record stays in doubt, and the disk has counted a fault. It takes no memory.
    pub fn mend(&mut self) -> Result<Adopted, Failed>
        requires { (ps : _) × (payload : _) × IsDoubtful ps payload self.old
            × (IsTrue (tells_of self.old)
            → Allows D.may_become (HoldsJust ps) (HoldsJust ps)) }
        // Promise: After mending nothing is in doubt. Each file that a crash may leave then gives
        // the payloads with the record if it was kept, and without it if it was dropped. At each
        // moment of the call each such file gives those with or without it
        // - by `ready`, `mended`, `images`, `moments`
        ensures ready { OnOk result (IsReady self.new) }
        ensures mended { IfOk result (λ adopted. IsTrue (tells_of self.old) → (ps : _) (payload : _)
            → IsDoubtful ps payload self.old
            → payloads_of self.new ≡ payloads_after adopted ps payload) }
        ensures images { IfOk result (λ adopted. IsTrue (tells_of self.old) → (ps : _) (payload : _)
            → IsDoubtful ps payload self.old
            → AllImages (λ file. contents file ≡ Some (second (payloads_after adopted ps payload)))
            (latest (accounts_of self.new))) }
        // Promise: A record in doubt is kept exactly where its gate reads open, and else cut off
        ensures gate { IfOk result (λ adopted. IsTrue (tells_of self.old)
            → IsTrue (slice_index (content_of self.old) (length_of self.old - 1) == 1)
            ↔ (adopted ≡ Adopted.Kept)) }
        ensures length { IfOk result (λ adopted. length_of self.new
            ≡ size_after adopted (length_of self.old)
            (unwrap_or (doubt_of self.old) (length_of self.old))) }
        ensures moments { IsTrue (tells_of self.old) → (ps : _) (payload : _)
            → IsDoubtful ps payload self.old
            → AtEachMoment (accounts_of self.old) (accounts_of self.new)
            (HoldsOrOneMore ps payload) }
        // None of them has other bytes before the gate of the record.
        ensures before { IsTrue (tells_of self.old)
            → AtEachMoment (accounts_of self.old) (accounts_of self.new)
            (λ file. take (length_of self.old - 1) file
            ≡ take (length_of self.old - 1) (content_of self.old)) }

        ensures cause { FailsOnly faults_of self.old self.new result }
        ensures length_err { OnErr result (length_of self.new ≡ length_of self.old) }
        // Promise: If mending fails, the disk's count of faults has risen, and the record stays in
        // doubt
        // - by `still`, `cause`
        ensures still { OnErr result ((ps : _) (payload : _) → IsDoubtful ps payload self.old
            → IsDoubtful ps payload self.new) }

        ensures limit { limit_of self.new ≡ limit_of self.old }
        ensures versions { (version_of self.new ≡ version_of self.old)
            × (start_of self.new ≡ start_of self.old) }
        ensures aside { IsTrue (tells_of self.old) → aside_of self.new ≡ aside_of self.old }
        ensures frame { IsLent tells_of identity_of faults_of self.old self.new }
    {
        match resolve_record(&mut self.disk, self.size) {
            Ok(adopted) => {
                self.size = length_after(adopted, self.size, self.doubt);
                self.doubt = None;
                Ok(adopted)
            }
            Err(e) => Err(e),
        }
    }

    /// The length of the journal in bytes, without a record in doubt.
    pub fn length(&self) -> u64
        ensures length { result ≡ length_of self.now }
        // Promise: The journal's length, its limit and the length in doubt are within their bounds
        ensures lengths { AreLengths (length_of self.now) (limit_of self.now) (doubt_of self.now)
            (start_of self.now) }
    {
        self.size
    }

    /// The version that the header names, 1 or 2. The records that count are of the second version
    /// in either.
    pub fn version(&self) -> u8
        ensures { result ≡ version_of self.now }
    {
        self.version
    }

    /// The place in bytes of the first gate whose record counts, or is to count.
    pub fn start(&self) -> u64
        ensures start { result ≡ start_of self.now }
        ensures within { (8 ≤ result) × (result < length_of self.now) }
    {
        self.start
    }

    /// Reads the payload after the gate at a place, which is one of the gates from the first that
    /// counts to the closed one. `None` exactly at the closed gate; at any other place the answer
    /// means nothing. No record may be in doubt. The file is not changed. Only of a disk that does
    /// not report its content the record may not be there any more: then there is none.
    pub fn read_frame(&mut self, alloc: Global, at: u64) -> Result<Option<Vec<u8>>, WalkFault>
        requires ready { IsReady self.old }
        requires gate { at < length_of self.old }
        // Promise: The record after a gate is read again as it is, and none at the closed gate.
        // Nothing changes
        // - by `payload`, `end`, `ready`, `content`, `accounts`
        ensures payload { IfOk result (λ found. IsTrue (tells_of self.old) → (k : ℕ)
            → k < length (payloads_of self.old)
            → at ≡ end_of (start_of self.old) (take k (payloads_of self.old))
            → IsJust found (λ v. v.items ≡ get_or (payloads_of self.old) k [])) }
        ensures end { IfOk result (λ found. at + 1 ≡ length_of self.old → found ≡ None) }
        ensures room { IfOk result (λ found. ForSome found
            (λ v. IsRoomFor at (length_of self.old) (length v.items))) }
        ensures cause { IfErr result (λ e. e ≡ WalkFault.Disk
            → Rose (faults_of self.old) (faults_of self.new)) }
        ensures ready { IsReady self.new }
        ensures content { IsTrue (tells_of self.old) → content_of self.new ≡ content_of self.old }
        ensures accounts { IsTrue (tells_of self.old)
            → accounts_of self.new ≡ accounts_of self.old }
        ensures aside { IsTrue (tells_of self.old) → aside_of self.new ≡ aside_of self.old }
        ensures length { length_of self.new ≡ length_of self.old }
        ensures limit { limit_of self.new ≡ limit_of self.old }
        ensures versions { (version_of self.new ≡ version_of self.old)
            × (start_of self.new ≡ start_of self.old) }
        ensures frame { IsLent tells_of identity_of faults_of self.old self.new }
    {
        read_before(alloc, &mut self.disk, at, self.size - 1, self.size)
    }

    /// The disk as it is. It may be opened again, also with a record in doubt.
    pub fn into_disk(self) -> D
        ensures disk { result ≡ disk_of self }
        ensures content { D.content result ≡ content_of self }
        ensures accounts { D.accounts result ≡ accounts_of self }
        ensures aside { D.aside result ≡ aside_of self }
        ensures faults { D.faults result ≡ faults_of self }
        ensures tells { D.tells result ≡ tells_of self }
        ensures identity { D.identity result ≡ identity_of self }
        ensures left { IsTrue (tells_of self)
            → IsReady self ⊎ ((ps : _) × (payload : _) × IsDoubtful ps payload self)
            → IsAsLeft (accounts_of self) }
    {
        let Journal {
            disk,
            size: _,
            limit: _,
            doubt: _,
            version: _,
            start: _,
        } = self;
        disk
    }
}
