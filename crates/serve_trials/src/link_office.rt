//! What a client gets from an office of one thread on bank A.

ghost use Rattle.answer_journal.specs.Standing.{IsAsLeft};
ghost use Rattle.exam_edge.specs.Allowing.{AllowsAll};
ghost use Rattle.exam_edge.specs.MemoryDisk.{accounts_of};
ghost use Rattle.form_model.specs.Validity.{IsPlanFor};

use crate::answers::disk_of;
use crate::equal::expect_equal;
use crate::office::{EVEN, empty_disk, planned};
use crate::pieces::Pieces;
use bank_tables::Bank;
use constraint_model::Spec;
use exam_edge::{Link, MemoryDisk, MemoryLink};
use exam_http::{Ended, serve_connection};
use exam_office::{Alone, Office};
use rand_pcg::Pcg32;
use std::alloc::Global;
use std::process::Abort;
use std::str;
use std::sync::Wait;
use std::sync::atomic::AtomicU32;
use std::test::Fail;

// Serves one connection by this office, for a server with this token or none. One worker is busy.
fn serve_in<R: Wait + Sync, K: Link>(
    rt: &R,
    alloc: Global,
    office: Office<MemoryDisk>,
    token: Option<&[u8]>,
    link: &mut K,
) -> Ended
    requires allows { AllowsAll K.tells K.allows }
{
    let mut alone = Alone { office };
    let busy = AtomicU32::new(1);
    let ended = serve_connection(rt, alloc, &mut alone, link, token, &busy);
    let Alone { office } = alone;
    let _disk = office.into_disk();
    ended
}

// The same by an office over this disk, or none where it is not opened.
fn serve_over<R: Wait + Sync, K: Link>(
    rt: &R,
    alloc: Global,
    bank: &Bank,
    spec: &Spec,
    disk: MemoryDisk,
    token: Option<&[u8]>,
    link: &mut K,
) -> Option<Ended>
    requires plan { IsPlanFor bank.now spec.now }
    requires left { IsAsLeft (accounts_of disk) }
    requires allows { AllowsAll K.tells K.allows }
{
    let base = spec.base()?;
    match Office::open(alloc, bank, spec, base, disk) {
        Ok(office) => Some(serve_in(rt, alloc, office, token, link)),
        Err(_) => None,
    }
}

// The same on bank A.
fn serve_on<R: Wait + Sync, K: Link>(
    rt: &R,
    alloc: Global,
    disk: MemoryDisk,
    token: Option<&[u8]>,
    link: &mut K,
) -> Result<Option<Ended>, Fail>
    requires left { IsAsLeft (accounts_of disk) }
    requires allows { AllowsAll K.tells K.allows }
{
    match planned(alloc, &EVEN) {
        Ok((bank, spec)) => Ok(serve_over(rt, alloc, &bank, &spec, disk, token, link)),
        Err(fail) => Err(fail),
    }
}

// The same over an empty disk, with no token.
fn serve<R: Wait + Sync, K: Link>(rt: &R, alloc: Global, link: &mut K) -> Result<Ended, Fail>
    requires { AllowsAll K.tells K.allows }
{
    match serve_on(rt, alloc, empty_disk(alloc), None, link)? {
        Some(ended) => Ok(ended),
        None => Err(Fail::from("not opened")),
    }
}

/// In which pieces bytes go both ways: each has from 1 to `1 + spread` bytes, drawn from this seed.
#[derive(Clone, Copy)]
pub(crate) struct Cutting {
    pub(crate) spread: u16,
    pub(crate) seed: u64,
}

// The same, with the bytes cut into pieces or sent at once.
fn serve_cut<R: Wait + Sync>(
    rt: &R,
    alloc: Global,
    link: &mut MemoryLink,
    cutting: Option<Cutting>,
) -> Result<Ended, Fail> {
    match cutting {
        None => serve(rt, alloc, link),
        Some(Cutting { spread, seed }) => {
            let draws = Pcg32::new(seed, 0);
            let mut pieces = Pieces {
                link,
                spread,
                draws,
            };
            serve(rt, alloc, &mut pieces)
        }
    }
}

/// The link, which has the text that the client got, and how the connection ended.
#[derive(Drop)]
pub(crate) struct Heard {
    pub(crate) link: MemoryLink,
    pub(crate) ended: Ended,
}

// A link with these bytes to read. These of its calls fail.
fn link_of(alloc: Global, sent: &[u8], fails: &[u64]) -> Result<MemoryLink, Fail> {
    let fails = fails.to_vec(alloc)?;
    Ok(MemoryLink::of(alloc, sent.to_vec(alloc)?, fails))
}

/// What a client gets who sends these bytes, at once unless they are cut. These calls of the link
/// fail.
pub(crate) fn serve_bytes<R: Wait + Sync>(
    rt: &R,
    alloc: Global,
    sent: &str,
    cutting: Option<Cutting>,
    fails: &[u64],
) -> Result<Heard, Fail> {
    let mut link = link_of(alloc, sent.as_bytes(), fails)?;
    match serve_cut(rt, alloc, &mut link, cutting) {
        Ok(ended) => Ok(Heard { link, ended }),
        Err(fail) => Err(fail),
    }
}

/// What a client gets who sends these bytes to a server with this token or none. These calls of the
/// disk fail. None where the office is not opened then.
pub(crate) fn serve_with<R: Wait + Sync>(
    rt: &R,
    alloc: Global,
    sent: &str,
    token: Option<&[u8]>,
    fails: &[u64],
) -> Result<Option<Heard>, Fail> {
    let mut link = link_of(alloc, sent.as_bytes(), &[])?;
    let disk = disk_of(alloc, fails)?;
    match serve_on(rt, alloc, disk, token, &mut link)? {
        Some(ended) => Ok(Some(Heard { link, ended })),
        None => Ok(None),
    }
}

/// The client got this text, and the connection ended in this way.
pub(crate) fn expect_heard<R: Abort>(rt: &R, heard: &Heard, text: &str, ended: Ended) {
    expect_equal(rt, &str::from_utf8(heard.link.bytes()), &Ok(text));
    expect_equal(rt, &heard.ended, &ended);
}

/// The client who sends these bytes gets this text, and the connection ends in this way.
pub(crate) fn expect_text<R: Wait + Sync + Abort>(
    rt: &R,
    alloc: Global,
    sent: &str,
    cutting: Option<Cutting>,
    text: &str,
    ended: Ended,
) -> Result<(), Fail> {
    let heard = serve_bytes(rt, alloc, sent, cutting, &[])?;
    expect_heard(rt, &heard, text, ended);
    Ok(())
}
