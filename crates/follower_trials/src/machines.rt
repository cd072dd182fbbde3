//! A leader and a follower of the worked plan, over files in memory.

ghost use Rattle.form_model.specs.Validity.{IsPlanFor};
ghost use Rattle.answer_journal.specs.Standing.{IsAsLeft};
ghost use Rattle.exam_edge.specs.MemoryDisk.{accounts_of};

use bank_tables::Bank;
use constraint_model::Spec;
use exam_edge::{MemoryDisk, MemoryLink};
use exam_follower::{Follower, OfficeLog};
use exam_office::{Alone, Office, Reply, Request};
use form_model::Draft;
use record_links::{Followed, follow_link, ship_link};
use std::alloc::Global;
use std::process::Abort;
use std::sync::Wait;
use trial_cases::{bank_a, draft_a, set_of};

/// What a run left: how the link ended, what was written to it, and the file.
#[derive(Drop)]
pub(crate) struct Left {
    pub followed: Followed,
    pub written: Vec<u8>,
    pub file: Vec<u8>,
}

/// A disk with this file, whose calls of these numbers fail.
fn disk_of<R: Abort>(rt: &R, alloc: Global, file: &[u8], fails: &[u64]) -> MemoryDisk
    ensures { IsAsLeft (accounts_of result) }
{
    let bytes = file.to_vec(alloc).expect(rt, "a file");
    let numbers = fails.to_vec(alloc).expect(rt, "numbers");
    let disk = MemoryDisk::of(alloc, bytes, numbers);
    assert!(rt; disk.room() == fails.len());
    disk
}

/// A link with these bytes to read.
fn link_of<R: Abort>(rt: &R, alloc: Global, bytes: &[u8]) -> MemoryLink {
    MemoryLink::of(
        alloc,
        bytes.to_vec(alloc).expect(rt, "bytes"),
        Vec::new(alloc),
    )
}

/// What a follower or a leader is asked to do.
#[derive(Clone, Copy)]
pub(crate) enum Work<'a> {
    /// Each request of the worked session.
    Lead,
    /// To follow a link with these bytes to read.
    Follow(&'a [u8]),
    /// To ship over a link with these bytes to read.
    Ship(&'a [u8]),
}

const REQUESTS: [Request; 4] = [
    Request::Begin(70),
    Request::Answer {
        session: 0,
        step: 0,
        response: 1,
        booking: None,
    },
    Request::Answer {
        session: 0,
        step: 1,
        response: 0,
        booking: None,
    },
    Request::Answer {
        session: 0,
        step: 2,
        response: 1,
        booking: None,
    },
];

fn lead<R: Abort>(rt: &R, alloc: Global, bank: &Bank, spec: &Spec, disk: MemoryDisk) -> Left
    requires plan { IsPlanFor bank.now spec.now }
    requires left { IsAsLeft (accounts_of disk) }
{
    let Some(base) = spec.base() else {
        panic!(rt; "no base");
    };
    match Office::open(alloc, bank, spec, base, disk) {
        Ok(office) => {
            let mut alone = Alone { office };
            for request in &REQUESTS {
                match alone.ask(alloc, request) {
                    Reply::At { .. } => {}
                    _ => panic!(rt; "a refusal"),
                }
            }
            let Alone { office } = alone;
            let disk = office.into_disk();
            Left {
                followed: Followed::Done(7),
                written: Vec::new(alloc),
                file: disk.bytes().to_vec(alloc).expect(rt, "a file"),
            }
        }
        Err(_) => panic!(rt; "no office"),
    }
}

fn follow<R: Abort + Wait>(
    rt: &R,
    alloc: Global,
    bank: &Bank,
    spec: &Spec,
    disk: MemoryDisk,
    bytes: &[u8],
) -> Left
    requires plan { IsPlanFor bank.now spec.now }
    requires left { IsAsLeft (accounts_of disk) }
{
    let Some(base) = spec.base() else {
        panic!(rt; "no base");
    };
    match Follower::open(alloc, bank, spec, base, disk) {
        Ok(follower) => {
            let mut follower = follower;
            let mut link = link_of(rt, alloc, bytes);
            let followed = follow_link(rt, alloc, &mut follower, &mut link);
            let disk = follower.promote().into_disk();
            Left {
                followed,
                written: link.bytes().to_vec(alloc).expect(rt, "bytes"),
                file: disk.bytes().to_vec(alloc).expect(rt, "a file"),
            }
        }
        Err(_) => panic!(rt; "no follower"),
    }
}

fn ship<R: Abort>(
    rt: &R,
    alloc: Global,
    bank: &Bank,
    spec: &Spec,
    disk: MemoryDisk,
    bytes: &[u8],
) -> Left
    requires plan { IsPlanFor bank.now spec.now }
    requires left { IsAsLeft (accounts_of disk) }
{
    let Some(base) = spec.base() else {
        panic!(rt; "no base");
    };
    match Office::open(alloc, bank, spec, base, disk) {
        Ok(office) => {
            let mut log = OfficeLog::new(office);
            let mut link = link_of(rt, alloc, bytes);
            let followed = ship_link(alloc, &mut log, &mut link);
            let disk = log.into_office().into_disk();
            Left {
                followed,
                written: link.bytes().to_vec(alloc).expect(rt, "bytes"),
                file: disk.bytes().to_vec(alloc).expect(rt, "a file"),
            }
        }
        Err(_) => panic!(rt; "no office"),
    }
}

// A function of its own, since one that owns a bank and a disk is dear to prove.
fn work_on<R: Abort + Wait>(
    rt: &R,
    alloc: Global,
    bank: &Bank,
    spec: &Spec,
    file: &[u8],
    fails: &[u64],
    work: Work<'_>,
) -> Left
    requires { IsPlanFor bank.now spec.now }
{
    let disk = disk_of(rt, alloc, file, fails);
    match work {
        Work::Lead => lead(rt, alloc, bank, spec, disk),
        Work::Follow(bytes) => follow(rt, alloc, bank, spec, disk, bytes),
        Work::Ship(bytes) => ship(rt, alloc, bank, spec, disk, bytes),
    }
}

fn work_by<R: Abort + Wait>(
    rt: &R,
    alloc: Global,
    bank: &Bank,
    draft: Draft,
    file: &[u8],
    fails: &[u64],
    work: Work<'_>,
) -> Left {
    match Spec::of(alloc, bank, draft) {
        Ok(spec) => work_on(rt, alloc, bank, &spec, file, fails, work),
        Err(_) => panic!(rt; "no plan"),
    }
}

/// Does the work over a disk with this file, whose calls of these numbers fail.
pub(crate) fn left_by<R: Abort + Wait>(
    rt: &R,
    alloc: Global,
    file: &[u8],
    fails: &[u64],
    work: Work<'_>,
) -> Left {
    let bank = bank_a(alloc).expect(rt, "a bank");
    let mut draft = draft_a(alloc).expect(rt, "a draft");
    draft.base = Some(set_of(&[1, 2, 3]));
    work_by(rt, alloc, &bank, draft, file, fails, work)
}
