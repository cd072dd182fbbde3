//! What comes of the work on bank A.

ghost use Rattle.std.specs.Prelude.{◌≡◌, ◌≤◌, false, vec_len, IfOk};
ghost use Rattle.std.specs.List.{All};
ghost use Rattle.answer_journal.specs.Standing.{IsAsLeft};
ghost use Rattle.exam_edge.specs.Allowing.{AllowsAll};
ghost use Rattle.exam_edge.specs.MemoryDisk.{accounts_of};
ghost use Rattle.exam_edge.specs.MemoryDoor.{out_of};
ghost use Rattle.form_model.specs.Validity.{IsPlanFor};

use crate::office::{EVEN, empty_disk, opened, planned, restarted};
use bank_tables::Bank;
use constraint_model::Spec;
use exam_edge::{Door, Gate, MemoryDisk, MemoryDoor, MemoryLink};
use exam_handler::Observer;
use exam_office::{Alone, Office, Reply, Request, Summary};
use exam_serve::{End, Served, serve_doors};
use std::alloc::Global;
use std::sync::Wait;
use std::test::Fail;
use std::thread::Threads;

/// What came of the work.
#[derive(Drop)]
pub(crate) struct Worked<L> {
    pub(crate) end: End,
    pub(crate) summary: Summary,
    pub(crate) doors: Vec<L>,
    /// The sessions that bookings 70 and 71 have in the journal, if they have any.
    pub(crate) sessions: (Option<u32>, Option<u32>),
}

fn link_of(alloc: Global, text: &str) -> Result<MemoryLink, Fail> {
    let sent = text.as_bytes().to_vec(alloc)?;
    Ok(MemoryLink::of(alloc, sent, Vec::new(alloc)))
}

// A door with one link, which gives this text.
fn door(alloc: Global, text: &str) -> Result<MemoryDoor, Fail>
    ensures { IfOk result (λ d. out_of d ≡ false) }
{
    let mut links = Vec::new(alloc);
    links.push(link_of(alloc, text)?)?;
    Ok(MemoryDoor::of(alloc, links, Vec::new(alloc))?)
}

/// One door, with one link that gives this text.
pub(crate) fn one_door(alloc: Global, text: &str) -> Result<Vec<MemoryDoor>, Fail>
    ensures few { IfOk result (λ doors. vec_len doors ≤ 1) }
    ensures home { IfOk result (λ doors. All (λ d. out_of d ≡ false) doors.items) }
{
    let mut doors = Vec::new(alloc);
    doors.push(door(alloc, text)?)?;
    Ok(doors)
}

/// A door for each of these texts.
pub(crate) fn two_doors(alloc: Global, first: &str, second: &str) -> Result<Vec<MemoryDoor>, Fail>
    ensures few { IfOk result (λ doors. vec_len doors ≤ 2) }
    ensures home { IfOk result (λ doors. All (λ d. out_of d ≡ false) doors.items) }
{
    let mut doors = Vec::new(alloc);
    doors.push(door(alloc, first)?)?;
    doors.push(door(alloc, second)?)?;
    Ok(doors)
}

// The session of a booking that was started before.
fn session_of(alloc: Global, alone: &mut Alone<MemoryDisk>, booking: u64) -> Option<u32> {
    match alone.ask(alloc, &Request::Begin(booking)) {
        Reply::At {
            session,
            place: _,
            fresh: false,
        } => Some(session),
        _ => None,
    }
}

// The sessions of bookings 70 and 71.
fn sessions_of(alloc: Global, office: Office<MemoryDisk>) -> (Option<u32>, Option<u32>) {
    let mut alone = Alone { office };
    let sessions = (
        session_of(alloc, &mut alone, 70),
        session_of(alloc, &mut alone, 71),
    );
    let Alone { office } = alone;
    let _disk = office.into_disk();
    sessions
}

// The same on a disk with a journal.
fn sessions_on(
    alloc: Global,
    bank: &Bank,
    spec: &Spec,
    disk: MemoryDisk,
) -> Result<(Option<u32>, Option<u32>), Fail>
    requires plan { IsPlanFor bank.now spec.now }
    requires left { IsAsLeft (accounts_of disk) }
{
    match opened(alloc, bank, spec, disk) {
        Ok(office) => Ok(sessions_of(alloc, office)),
        Err(fail) => Err(fail),
    }
}

fn worked_by<'a, L: Door + Drop>(
    alloc: Global,
    bank: &'a Bank,
    spec: &'a Spec,
    served: Served<'a, MemoryDisk, L>,
) -> Result<Worked<L>, Fail>
    requires { IsPlanFor bank.now spec.now }
{
    let Served { office, doors, end } = served;
    let summary = office.summary();
    let disk = restarted(alloc, &office.into_disk())?;
    match sessions_on(alloc, bank, spec, disk) {
        Ok(sessions) => Ok(Worked {
            end,
            summary,
            doors,
            sessions,
        }),
        Err(fail) => Err(fail),
    }
}

fn serve_over<'a, L: Door + Send + Drop, G: Gate + Observer + Sync, R: Threads + Wait + Sync>(
    rt: &R,
    alloc: Global,
    bank: &'a Bank,
    spec: &'a Spec,
    doors: Vec<L>,
    gate: &G,
    ahead: Option<u32>,
) -> Result<Worked<L>, Fail>
    requires plan { IsPlanFor bank.now spec.now }
    requires few { vec_len doors ≤ 65535 }
    requires home { All (λ d. L.is_out d ≡ false) doors.items }
    requires allows { AllowsAll L.Link.tells L.Link.allows }
{
    match opened(alloc, bank, spec, empty_disk(alloc)) {
        Ok(office) => worked_by(
            alloc,
            bank,
            spec,
            serve_doors(rt, alloc, office, gate, None, ahead, doors),
        ),
        Err(fail) => Err(fail),
    }
}

/// What comes of the work on bank A with these doors, with room for so many prepared forms, or for
/// none.
pub(crate) fn serve_bank_a<
    L: Door + Send + Drop,
    G: Gate + Observer + Sync,
    R: Threads + Wait + Sync,
>(rt: &R, alloc: Global, doors: Vec<L>, gate: &G, ahead: Option<u32>) -> Result<Worked<L>, Fail>
    requires few { vec_len doors ≤ 65535 }
    requires home { All (λ d. L.is_out d ≡ false) doors.items }
    requires allows { AllowsAll L.Link.tells L.Link.allows }
{
    match planned(alloc, &EVEN) {
        Ok((bank, spec)) => serve_over(rt, alloc, &bank, &spec, doors, gate, ahead),
        Err(fail) => Err(fail),
    }
}
