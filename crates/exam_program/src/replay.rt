//! The requests of a script, over the journal.

ghost use Rattle.std.specs.Prelude.{◌≡◌, ◌≤◌, [], ◌∷◌, IsTrue, IfErr, OnOk};
ghost use Rattle.exam_edge.specs.Faults.{Rose};
ghost use Rattle.exam_edge.specs.Images.{AtEachMoment};
ghost use Rattle.exam_edge.specs.Lent.{IsLent};
ghost use Rattle.answer_journal.specs.Standing.{IsAsLeft};
ghost use Rattle.bank_tables.specs.Items.{has};
ghost use Rattle.form_model.specs.Forms.{Meets};
ghost use Rattle.form_model.specs.Validity.{IsPlanFor};
ghost use Rattle.answer_journal.specs.Journal.{tells_of, accounts_of, faults_of, identity_of};
ghost use Rattle.exam_office.specs.Asking.{IsDurable};
ghost use Rattle.exam_office.specs.Marks.{history};
ghost use Rattle.exam_office.specs.Writing.{IsSameOffice};
ghost use Rattle.replay_cli.specs.Replies.{line_of};
ghost use Rattle.exam_program.specs.Halts.{IsBeforeJournal};
ghost use Rattle.exam_program.specs.Outside.{disk_seen};
ghost use Rattle.exam_program.specs.Replays.{halt_of, IsFileOf};
ghost use Rattle.exam_program.specs.Stopping.{opening_halt, IsUnprinted, IsAnswered, IsStopped, IsServed, IsUnserved, Finishes, IsReplayed, Halted};
ghost use Rattle.exam_program.specs.Writing.{IsWritten};
ghost use Rattle.exam_office.specs.Allowing.{AllowsHistories};

use crate::halt::Halt;
use crate::output::put;
use bank_tables::{Bank, ItemSet};
use constraint_model::Spec;
use exam_edge::{Disk, Sink};
use exam_office::{Alone, Office, OpenFault, Refusal, Reply, Request};
use replay_cli::reply_line;
use std::alloc::Global;

/// Why a replay ends at a reply, if it does.
fn halt_of(spec: &Spec, reply: &Reply) -> Option<Halt>
    ensures { result ≡ halt_of spec.now reply.now }
{
    match reply {
        Reply::Refused(Refusal::SessionsFull(count)) => Some(Halt::Sessions {
            count: *count,
            most: spec.sessions(),
        }),
        Reply::Refused(Refusal::JournalFull(size)) => Some(Halt::JournalFull {
            size: *size,
            most: spec.journal(),
        }),
        Reply::Refused(Refusal::Disk) => Some(Halt::Disk),
        Reply::Refused(Refusal::Memory) => Some(Halt::Memory),
        _ => None,
    }
}

/// Prints the line of a reply.
fn print_reply<O: Sink>(alloc: Global, reply: &Reply, out: &mut O) -> Result<(), Halt>
    ensures ok { OnOk result
        (IsWritten (O.tells out.old) (O.written out.old) (O.written out.new) (line_of reply.now)) }
    ensures err { IfErr result
        (IsUnprinted (O.tells out.old) (O.written out.old) (O.written out.new)
        (line_of reply.now)) }
    ensures failed { result ≡ Err Halt.Sink → Rose (O.faults out.old) (O.faults out.new) }
    ensures grows { O.faults out.old ≤ O.faults out.new }
    ensures tells { O.tells out.new ≡ O.tells out.old }
{
    let line = match reply_line(alloc, reply) {
        Ok(line) => line,
        Err(_) => return Err(Halt::Memory),
    };
    match put(out, &line) {
        Ok(()) => Ok(()),
        Err(_) => Err(Halt::Sink),
    }
}

/// Does a request, and prints its reply after its entries are on the disk.
fn do_request<'a, O: Sink, D: Disk>(
    alloc: Global,
    alone: &mut Alone<'a, D>,
    request: &Request,
    out: &mut O,
) -> Result<(), Halt>
    requires durable { IsDurable alone.old.office.bank alone.old.office.plan alone.old.office }
    ensures ok { OnOk result
        (IsAnswered alone.old.office.bank alone.old.office.plan alone.old.office.base request.now
        alone.old.office alone.new.office (O.tells out.old) (O.written out.old)
        (O.written out.new)) }
    ensures err { IfErr result
        (IsStopped alone.old.office.bank alone.old.office.plan alone.old.office.base request.now
        alone.old.office alone.new.office (O.tells out.old) (O.written out.old)
        (O.written out.new)) }
    ensures sink { result ≡ Err Halt.Sink → Rose (O.faults out.old) (O.faults out.new) }
    ensures each { IsTrue (tells_of alone.old.office.journal)
        → AtEachMoment (accounts_of alone.old.office.journal) (accounts_of alone.new.office.journal)
        (IsFileOf alone.old.office.bank alone.old.office.plan alone.old.office.base
        (history alone.old.office.marks) (request.now ∷ [])) }
    ensures same { IsSameOffice alone.old.office alone.new.office }
    ensures disk { IsLent tells_of identity_of faults_of alone.old.office.journal
        alone.new.office.journal }
    ensures grows { O.faults out.old ≤ O.faults out.new }
    ensures tells { O.tells out.new ≡ O.tells out.old }
{
    let reply = alone.ask(alloc, request);
    match halt_of(alone.office.spec(), &reply) {
        Some(halt) => Err(halt),
        None => print_reply(alloc, &reply, out),
    }
}

/// Does requests one after another, and prints the reply to each.
fn do_requests<'a, O: Sink, D: Disk>(
    alloc: Global,
    alone: &mut Alone<'a, D>,
    requests: &[Request],
    out: &mut O,
) -> Result<(), Halt>
    requires durable { IsDurable alone.old.office.bank alone.old.office.plan alone.old.office }
    ensures ok { OnOk result
        (IsServed alone.old.office.bank alone.old.office.plan alone.old.office.base requests.now
        alone.old.office alone.new.office (O.tells out.old) (O.written out.old)
        (O.written out.new)) }
    ensures err { IfErr result
        (IsUnserved alone.old.office.bank alone.old.office.plan alone.old.office.base requests.now
        alone.old.office alone.new.office (O.tells out.old) (O.written out.old)
        (O.written out.new)) }
    ensures sink { result ≡ Err Halt.Sink → Rose (O.faults out.old) (O.faults out.new) }
    ensures same { IsSameOffice alone.old.office alone.new.office }
    ensures disk { IsLent tells_of identity_of faults_of alone.old.office.journal
        alone.new.office.journal }
    ensures grows { O.faults out.old ≤ O.faults out.new }
    ensures tells { O.tells out.new ≡ O.tells out.old }
{
    for request in requests {
        match do_request(alloc, alone, request, out) {
            Ok(()) => {}
            Err(halt) => return Err(halt),
        }
    }
    Ok(())
}

/// Why a journal that was not opened ends a replay.
pub(crate) fn halt_of_opening(fault: OpenFault) -> Halt
    ensures { result ≡ opening_halt fault }
{
    match fault {
        OpenFault::Disk => Halt::Disk,
        OpenFault::Memory => Halt::Memory,
        _ => Halt::Journal(fault),
    }
}

/// Opens the journal on a disk, does the requests of a script over it, and prints the reply to
/// each. The base form, which meets the plan, is the hint of each assembly. It gives the disk back.
pub(crate) fn replay<'a, O: Sink, D: Disk>(
    alloc: Global,
    bank: &'a Bank,
    spec: &'a Spec,
    base: &ItemSet,
    requests: &[Request],
    out: &mut O,
    disk: D,
) -> (D, Result<(), Halt>)
    requires plan { IsPlanFor bank.now spec.now }
    requires base { Meets bank.now spec.now (has base.now) }
    requires left { IsTrue (D.tells disk) → IsAsLeft (D.accounts disk) }
    requires allows { AllowsHistories bank.now spec.now D.may_become }
    ensures ok { OnOk result.1 (Finishes
        (IsReplayed bank.now spec.now base.now
        (disk_seen D.tells D.content D.accounts D.faults disk result.0) requests.now)
        (O.tells out.old) (O.written out.old) (O.written out.new)) }
    ensures err { IfErr result.1 (Halted bank.now spec.now base.now
        (disk_seen D.tells D.content D.accounts D.faults disk result.0) requests.now
        (O.tells out.old) (O.written out.old) (O.written out.new)) }
    ensures sink { result.1 ≡ Err Halt.Sink → Rose (O.faults out.old) (O.faults out.new) }
    ensures failed { result.1 ≡ Err Halt.Disk → Rose (D.faults disk) (D.faults result.0) }
    ensures opened { IfErr result.1 (λ halt. IsBeforeJournal halt → ⊥) }
    ensures grows { O.faults out.old ≤ O.faults out.new }
    ensures tells { O.tells out.new ≡ O.tells out.old }
    ensures disk { IsLent D.tells D.identity D.faults disk result.0 }
{
    let office = match Office::open(alloc, bank, spec, *base, disk) {
        Ok(office) => office,
        Err((disk, fault)) => return (disk, Err(halt_of_opening(fault))),
    };
    let mut alone = Alone { office };
    let done = do_requests(alloc, &mut alone, requests, out);
    let Alone { office } = alone;
    (office.into_disk(), done)
}
