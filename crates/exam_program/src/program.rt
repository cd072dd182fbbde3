//! The program as one call, and the same call of the commands that wait for nobody.

ghost use Rattle.std.specs.Prelude.{◌≡◌, ℕ, ◌≤◌, ◌⊎◌, All, List, false, map, None, Some, OnOk, IfErr, IsTrue, string_bytes, vec_len};
ghost use Rattle.std.specs.Option.{option_copied, option_map};
ghost use Rattle.exam_edge.specs.Allowing.{AllowsAll};
ghost use Rattle.exam_edge.specs.Faults.{Rose};
ghost use Rattle.exam_edge.specs.Lent.{IsLent};
ghost use Rattle.answer_journal.specs.Standing.{IsAsLeft};
ghost use Rattle.exam_office.specs.declared.mark.Mark.{Mark};
ghost use Rattle.exam_office.specs.Noting.{OpenedWith};
ghost use Rattle.exam_serve.specs.Allowing.{AreFairDoors, IsCallerOf};
ghost use Rattle.exam_serve.specs.Doors.{AreLent, AreServed, HasFailedDoor};
ghost use Rattle.command_line.specs.Commands.{HasJournal, IsOfJournal, IsOfLinked, UsesDoors, IsOfDoors, IsInRange, AreInRange, command_of, said};
ghost use Rattle.exam_program.specs.Allowing.{IsOpenedBy};
ghost use Rattle.exam_program.specs.Halts.{IsBeforeJournal};
ghost use Rattle.exam_program.specs.Outcomes.{Ends, EndsAs, Prints, Halts, LeavesJournal, IsStatus, IsStatusBefore, IsStatusOfRun};
ghost use Rattle.exam_program.specs.Follows.{AreFollowed, FollowEnds};
ghost use Rattle.exam_program.specs.Linked.{HasFailedFirst, IsStatusOfAny, LinkLeaves};
ghost use Rattle.exam_program.specs.Outside.{outside, disk_seen};
ghost use Rattle.exam_program.specs.Runs.{RunEnds, RunLeaves};
ghost use Rattle.exam_program.specs.Ships.{AreShipped, ShipEnds};
ghost use Rattle.exam_program.specs.AllowedFiles.{AllowsExams};

use crate::auditing::audit_journal;
use crate::drilling::drill;
use crate::following::follow;
use crate::halt::Halt;
use crate::migrating::migrate_journal;
use crate::report::{print, report};
use crate::series::series;
use crate::serving::{Left, serve};
use crate::shipping::ship;
use crate::work::{assemble, check, replay_script};
use crate::world::{Finish, Tools, World};
use command_line::{Command, command_of};
use exam_edge::{Disk, Door, Files, Gate, Sink};
use exam_handler::Observer;
use std::alloc::Global;
use std::sync::Wait;
use std::thread::Threads;

/// Does the work of a command that waits for nobody.
#[tactic(auto, using(crate::proofs::OutcomeLaws::as_it_is))]
fn work<F: Files, O: Sink, D: Disk>(
    alloc: Global,
    command: Command<'_>,
    files: &mut F,
    out: &mut O,
    disk: D,
) -> (D, Result<(), Halt>)
    requires alone { UsesDoors (said command) → ⊥ }
    requires range { IsInRange (said command) }
    requires left { IsTrue (D.tells disk) → IsAsLeft (D.accounts disk) }
    requires allows { AllowsExams (F.tells files.old) (F.has files.old) (F.content files.old)
        D.may_become }
    ensures ok { OnOk result.1 (IsTrue (F.tells files.old) → (words : List (List ℕ))
        → command_of words ≡ Some (said command.entry)
        → Prints words (outside (F.has files.old) (F.content files.old) (F.faults files.old)
        (F.faults files.new)
        (disk_seen D.tells D.content D.accounts D.faults disk result.0))
        (O.tells out.old) (O.written out.old) (O.written out.new) 0) }
    ensures err { IfErr result.1 (λ halt. IsTrue (F.tells files.old) → (words : List (List ℕ))
        → command_of words ≡ Some (said command.entry)
        → Halts words (outside (F.has files.old) (F.content files.old) (F.faults files.old)
        (F.faults files.new)
        (disk_seen D.tells D.content D.accounts D.faults disk result.0))
        (O.tells out.old) (O.written out.old) (O.written out.new) halt) }
    ensures files { result.1 ≡ Err Halt.Files → Rose (F.faults files.old) (F.faults files.new) }
    ensures sink { result.1 ≡ Err Halt.Sink → Rose (O.faults out.old) (O.faults out.new) }
    ensures failed { result.1 ≡ Err Halt.Disk → Rose (D.faults disk) (D.faults result.0) }
    ensures kept { IfErr result.1 (λ halt. IsBeforeJournal halt → result.0 ≡ disk) }
    ensures unused { (HasJournal (said command.entry) → ⊥) → result.0 ≡ disk }
    ensures files_grow { F.faults files.old ≤ F.faults files.new }
    ensures sink_grows { O.faults out.old ≤ O.faults out.new }
    ensures files_tell { F.tells files.new ≡ F.tells files.old }
    ensures sink_tells { O.tells out.new ≡ O.tells out.old }
    ensures disk { IsLent D.tells D.identity D.faults disk result.0 }
{
    match command {
        Command::Check { bank, plan } => {
            let done = check(alloc, files, out, bank, plan);
            (disk, done)
        }
        Command::Assemble { bank, plan } => {
            let done = assemble(alloc, files, out, bank, plan);
            (disk, done)
        }
        Command::Replay { bank, plan, script } => replay_script(
            alloc, files, out, disk, bank, plan, script,
        ),
        Command::Audit { bank, plan } => audit_journal(alloc, files, out, disk, bank, plan),
        Command::Migrate { bank, plan } => migrate_journal(alloc, files, out, disk, bank, plan),
        Command::Series {
            bank,
            plan,
            forms,
            weights,
        } => {
            let done = series(alloc, files, out, bank, plan, forms, weights);
            (disk, done)
        }
        Command::Drill { number, sessions } => {
            let done = drill(alloc, out, number, sessions);
            (disk, done)
        }
        Command::Serve { .. } => unreachable!(),
        Command::Follow { .. } => unreachable!(),
        Command::Ship { .. } => unreachable!(),
    }
}

/// Does what a command line asks for, if it asks for a command, and gives the disk, the status to
/// end with, and the halt if it ended by one.
fn status_of<F: Files, O: Sink, D: Disk>(
    alloc: Global,
    command: Option<Command<'_>>,
    files: &mut F,
    out: &mut O,
    disk: D,
) -> (D, u8, Option<Halt>)
    requires alone { IsOfDoors (option_map said command) → ⊥ }
    requires range { AreInRange (option_map said command) }
    requires left { IsTrue (D.tells disk) → IsAsLeft (D.accounts disk) }
    requires allows { AllowsExams (F.tells files.old) (F.has files.old) (F.content files.old)
        D.may_become }
    ensures answers { IsTrue (F.tells files.old) → (words : List (List ℕ))
        → option_map said command.entry ≡ command_of words
        → Ends words (outside (F.has files.old) (F.content files.old) (F.faults files.old)
        (F.faults files.new)
        (disk_seen D.tells D.content D.accounts D.faults disk result.0))
        (O.tells out.old) (O.written out.old) (O.written out.new) result.1 }
    ensures cause { IsTrue (F.tells files.old) → (words : List (List ℕ))
        → option_map said command.entry ≡ command_of words
        → EndsAs words (outside (F.has files.old) (F.content files.old) (F.faults files.old)
        (F.faults files.new)
        (disk_seen D.tells D.content D.accounts D.faults disk result.0)) result.2 result.1 }
    ensures faulty { option_map said command.entry ≡ None → (result.1 ≡ 2) ⊎ (result.1 ≡ 8) }
    ensures usage { result.1 ≡ 2 → option_map said command.entry ≡ None }
    ensures files { result.1 ≡ 7 → Rose (F.faults files.old) (F.faults files.new) }
    ensures sink { result.1 ≡ 8 → Rose (O.faults out.old) (O.faults out.new) }
    ensures failed { result.1 ≡ 9 → Rose (D.faults disk) (D.faults result.0) }
    ensures kept { IsStatusBefore result.1 → result.0 ≡ disk }
    ensures unused { (IsOfJournal (option_map said command.entry) → ⊥) → result.0 ≡ disk }
    ensures status { IsStatus result.1 }
    ensures files_grow { F.faults files.old ≤ F.faults files.new }
    ensures sink_grows { O.faults out.old ≤ O.faults out.new }
    ensures files_tell { F.tells files.new ≡ F.tells files.old }
    ensures sink_tells { O.tells out.new ≡ O.tells out.old }
    ensures disk { IsLent D.tells D.identity D.faults disk result.0 }
{
    let Some(command) = command else {
        let status = print(
            out,
            b"usage: shadowd check BANK PLAN | assemble BANK PLAN | replay BANK PLAN SCRIPT | serve BANK PLAN [AHEAD] | audit BANK PLAN | drill NUMBER SESSIONS | migrate BANK PLAN | series BANK PLAN K WEIGHTS | follow BANK PLAN | ship BANK PLAN\n",
            2,
        );
        return (disk, status, None);
    };
    let (disk, done) = work(alloc, command, files, out, disk);
    match done {
        Ok(()) => (disk, 0, None),
        Err(halt) => {
            let status = report(alloc, out, &halt);
            (disk, status, Some(halt))
        }
    }
}

/// Does what the words ask for, which are those after the program's name, and waits for nobody. The
/// words do not ask for a server, to follow or to ship. The journal's disk is as a reboot or a
/// journal left it. It gives the status to end with: 0 the work was done, 2 the words are not in
/// the table, 3, 4 and 5 the bank, the plan or the script is refused, 6 the journal represents no
/// history of the bank and the plan, or, in a replay, is of the first version and was not moved, 7,
/// 8 and 9 a call of the files, the sink or the disk failed, 10 out of memory, 11 no set of items
/// is a form, 12 the plan has no base and none was found within the base budget, 13 a limit of the
/// plan is met, 16 the weights of a series are not the grid's, 17 there is no series, 18 no series
/// was found within the base budget.
pub fn run_alone<F: Files, O: Sink, D: Disk>(
    alloc: Global,
    words: &[String],
    tools: Tools<F, O, D>,
) -> (u8, Tools<F, O, D>, Option<Halt>)
    requires alone { IsOfDoors (command_of (map (λ w. string_bytes w) words.now)) → ⊥ }
    requires left { IsTrue (D.tells tools.disk) → IsAsLeft (D.accounts tools.disk) }
    // The disk allows that each history goes on. So of a run that never ends: at each moment each
    // file that a crash may leave, and could not leave before, represents a history that goes on
    // from that of the file as it was read before.
    requires allows { AllowsExams (F.tells tools.files) (F.has tools.files) (F.content tools.files)
        D.may_become }
    // If the files report their content: what is printed, and with which status. If the sink
    // reports its content too: that this is written. If the disk reports its content too: what the
    // journal holds, and what a crash may leave of it.
    // Promise: All of this but what is stated of a server, a follower and a shipper holds of a call
    // that waits for nobody and takes neither doors nor a holding place. Its words must ask for
    // none of these
    // - by `answers`, `journal`, `cause`, `faulty`, `usage`, `files`, `sink`, `failed`, `kept`,
    //   `unused`, `status`, `files_grow`, `sink_grows`, `files_tell`, `sink_tells`, `disk`
    ensures answers { IsTrue (F.tells tools.files)
        → Ends (map (λ w. string_bytes w) words.now)
        (outside (F.has tools.files) (F.content tools.files) (F.faults tools.files)
        (F.faults result.1.files)
        (disk_seen D.tells D.content D.accounts D.faults tools.disk result.1.disk))
        (O.tells tools.out) (O.written tools.out) (O.written result.1.out) result.0 }
    // What is left of the journal, whatever the status.
    ensures journal { IsTrue (F.tells tools.files)
        → LeavesJournal (map (λ w. string_bytes w) words.now)
        (outside (F.has tools.files) (F.content tools.files) (F.faults tools.files)
        (F.faults result.1.files)
        (disk_seen D.tells D.content D.accounts D.faults tools.disk result.1.disk)) }
    // The halt, if the run ended by one, and what it shows: of a journal that is refused, the rule
    // that its first wrong record breaks, with the values.
    ensures cause { IsTrue (F.tells tools.files)
        → EndsAs (map (λ w. string_bytes w) words.now)
        (outside (F.has tools.files) (F.content tools.files) (F.faults tools.files)
        (F.faults result.1.files)
        (disk_seen D.tells D.content D.accounts D.faults tools.disk result.1.disk))
        result.2 result.0 }
    // The causes, whether they report their content or not. Out of memory is free.
    ensures faulty { command_of (map (λ w. string_bytes w) words.now) ≡ None
        → (result.0 ≡ 2) ⊎ ((result.0 ≡ 8) ⊎ (result.0 ≡ 10)) }
    ensures usage { result.0 ≡ 2 → command_of (map (λ w. string_bytes w) words.now) ≡ None }
    ensures files { result.0 ≡ 7 → Rose (F.faults tools.files) (F.faults result.1.files) }
    ensures sink { result.0 ≡ 8 → Rose (O.faults tools.out) (O.faults result.1.out) }
    ensures failed { result.0 ≡ 9 → Rose (D.faults tools.disk) (D.faults result.1.disk) }
    ensures kept { IsStatusBefore result.0 → result.1.disk ≡ tools.disk }
    ensures unused { (IsOfJournal (command_of (map (λ w. string_bytes w) words.now)) → ⊥)
        → result.1.disk ≡ tools.disk }
    ensures status { IsStatus result.0 }

    ensures files_grow { F.faults tools.files ≤ F.faults result.1.files }
    ensures sink_grows { O.faults tools.out ≤ O.faults result.1.out }
    ensures files_tell { F.tells result.1.files ≡ F.tells tools.files }
    ensures sink_tells { O.tells result.1.out ≡ O.tells tools.out }
    ensures disk { IsLent D.tells D.identity D.faults tools.disk result.1.disk }
{
    let Tools {
        mut files,
        mut out,
        disk,
    } = tools;
    match command_of(alloc, words) {
        Ok(command) => {
            let (disk, status, halt) = status_of(alloc, command, &mut files, &mut out, disk);
            (status, Tools { files, out, disk }, halt)
        }
        Err(_) => {
            let status = print(&mut out, b"no memory\n", 10);
            (status, Tools { files, out, disk }, None)
        }
    }
}

/// The bytes of a token, if there is one.
fn bytes_of(token: &Option<Vec<u8>>) -> Option<&[u8]>
    ensures { option_copied result ≡ option_map (λ t. t.items) token.now }
{
    match token {
        Some(token) => Some(token.as_slice()),
        None => None,
    }
}

/// Does what the words ask for, and gives the disk, the doors, the status to end with, and the halt
/// if it ended by one.
#[tactic(auto, using(crate::proofs::LinkLaws::none_served))]
fn left_of<R, F, O, D, L, G>(
    rt: &R,
    alloc: Global,
    words: &[String],
    files: &mut F,
    out: &mut O,
    disk: D,
    doors: Vec<L>,
    gate: &G,
    token: Option<&[u8]>,
) -> Left<D, L>
where
    R: Threads + Wait + Sync,
    F: Files,
    O: Sink,
    D: Disk + Send,
    L: Door + Send,
    G: Gate + Observer + Sync,
    requires few { vec_len doors ≤ 65535 }
    requires home { All (λ door. L.is_out door ≡ false) doors.items }
    requires left { IsTrue (D.tells disk) → IsAsLeft (D.accounts disk) }
    requires allows { AllowsExams (F.tells files.old) (F.has files.old) (F.content files.old)
        D.may_become }
    requires fair { (office : OpenedWith) (opened : List Mark)
        → IsOpenedBy (map (λ w. string_bytes w) words.now) (F.tells files.old) (F.has files.old)
        (F.content files.old) (D.tells disk) (D.identity disk) (D.content disk) office opened
        → AreFairDoors (option_copied token)
        L.Link.tells L.Link.left L.Link.written L.Link.allows L.tells L.coming
        (IsCallerOf office opened) doors.items }
    requires allowed { IsOfLinked (command_of (map (λ w. string_bytes w) words.now))
        → AllowsAll L.Link.tells L.Link.allows }
    ensures answers { IsTrue (F.tells files.old)
        → RunEnds (λ opened closed end. AreServed (option_copied token.entry)
        L.tells L.coming L.returned L.is_out L.faults L.identity L.Link.tells L.Link.left L.Link.written L.Link.faults L.Link.identity
        opened closed doors.items result.doors.items end) (result.doors ≡ doors)
        (map (λ w. string_bytes w) words.now)
        (outside (F.has files.old) (F.content files.old) (F.faults files.old) (F.faults files.new)
        (disk_seen D.tells D.content D.accounts D.faults disk result.disk))
        (O.tells out.old) (O.written out.old) (O.written out.new) result.status
        ⊎ (FollowEnds (AreFollowed
        L.tells L.coming L.returned L.is_out L.faults L.identity L.Link.tells L.Link.left L.Link.written L.Link.faults L.Link.identity
        doors.items result.doors.items)
        (map (λ w. string_bytes w) words.now)
        (outside (F.has files.old) (F.content files.old) (F.faults files.old) (F.faults files.new)
        (disk_seen D.tells D.content D.accounts D.faults disk result.disk))
        (O.tells out.old) (O.written out.old) (O.written out.new) result.status
        ⊎ ShipEnds (AreShipped
        L.tells L.coming L.returned L.is_out L.faults L.identity L.Link.tells L.Link.left L.Link.written L.Link.faults L.Link.identity
        doors.items result.doors.items)
        (map (λ w. string_bytes w) words.now)
        (outside (F.has files.old) (F.content files.old) (F.faults files.old) (F.faults files.new)
        (disk_seen D.tells D.content D.accounts D.faults disk result.disk))
        (O.tells out.old) (O.written out.old) (O.written out.new) result.status) }
    ensures cause { IsTrue (F.tells files.old)
        → EndsAs (map (λ w. string_bytes w) words.now)
        (outside (F.has files.old) (F.content files.old) (F.faults files.old) (F.faults files.new)
        (disk_seen D.tells D.content D.accounts D.faults disk result.disk))
        result.halt result.status }
    ensures faulty { command_of (map (λ w. string_bytes w) words.now) ≡ None
        → (result.status ≡ 2) ⊎ ((result.status ≡ 8) ⊎ (result.status ≡ 10)) }
    ensures usage { result.status ≡ 2 → command_of (map (λ w. string_bytes w) words.now) ≡ None }
    ensures files { result.status ≡ 7 → Rose (F.faults files.old) (F.faults files.new) }
    ensures sink { result.status ≡ 8 → Rose (O.faults out.old) (O.faults out.new) }
    ensures failed { result.status ≡ 9 → Rose (D.faults disk) (D.faults result.disk) }
    ensures door { result.status ≡ 14 → HasFailedDoor L.faults doors.items result.doors.items }
    ensures link { result.status ≡ 19 → HasFailedFirst L.tells L.coming L.returned L.is_out
        L.faults L.identity L.Link.faults doors.items result.doors.items }
    ensures kept { IsStatusBefore result.status → result.disk ≡ disk }
    ensures unused { (IsOfJournal (command_of (map (λ w. string_bytes w) words.now)) → ⊥)
        → result.disk ≡ disk }
    ensures idle { (IsOfDoors (command_of (map (λ w. string_bytes w) words.now)) → ⊥)
        → result.doors ≡ doors }
    ensures status { IsStatusOfAny result.status }
    ensures unlinked { (IsOfLinked (command_of (map (λ w. string_bytes w) words.now)) → ⊥)
        → IsStatusOfRun result.status }
    ensures files_grow { F.faults files.old ≤ F.faults files.new }
    ensures sink_grows { O.faults out.old ≤ O.faults out.new }
    ensures files_tell { F.tells files.new ≡ F.tells files.old }
    ensures sink_tells { O.tells out.new ≡ O.tells out.old }
    ensures disk { IsLent D.tells D.identity D.faults disk result.disk }
    ensures doors { AreLent L.tells L.identity L.faults L.is_out doors.items result.doors.items }
{
    match command_of(alloc, words) {
        Ok(Some(Command::Serve { bank, plan, ahead })) => serve(
            rt, alloc, files, out, disk, doors, gate, token, bank, plan, ahead,
        ),
        Ok(Some(Command::Follow { bank, plan })) => {
            follow(rt, alloc, files, out, disk, doors, bank, plan)
        }
        Ok(Some(Command::Ship { bank, plan })) => ship(alloc, files, out, disk, doors, bank, plan),
        Ok(command) => {
            let (disk, status, halt) = status_of(alloc, command, files, out, disk);
            Left {
                disk,
                doors,
                status,
                halt,
            }
        }
        Err(_) => Left {
            disk,
            doors,
            status: print(out, b"no memory\n", 10),
            halt: None,
        },
    }
}

/// Does what the words ask for, which are those after the program's name. At most 65,535 doors are
/// given, and no link of theirs is out. Only a server uses all doors, the gate and the token; it
/// may wait, and ends where each door ends. A follower and a shipper use the first door; a follower
/// may wait, and ends where the door ends or at the first fault. Where there is a token, a message
/// that does not bear it does nothing, but for a look at the health. The gate is the observer, too:
/// a server tells it how the examination is once the journal was opened, after each response, and
/// at the end. The journal's disk is as a reboot or a journal left it. It gives the status to end
/// with: 0 the work was done, 2 the words are not in the table, 3, 4 and 5 the bank, the plan or
/// the script is refused, 6 the journal represents no history of the bank and the plan, or, in a
/// replay, a server, a follower and a shipper, is of the first version and was not moved, 7, 8 and
/// 9 a call of the files, the sink or the disk failed, 10 out of memory, 11 no set of items is a
/// form, 12 the plan has no base and none was found within the base budget, 13 a limit of the plan
/// is met in a replay, a drill, a migration or a follower, 14 a door failed; of a series, 16 the
/// weights are not the grid's, 17 there is none, 18 none was found within the base budget; of a
/// follower and a shipper, 19 a link failed, 20 the other side of it sent what no peer may send, 21
/// the record that it offered may not follow, 22 there was no link to ship over.
pub fn run<
    R: Threads + Wait + Sync,
    F: Files,
    O: Sink,
    D: Disk + Send,
    L: Door + Send,
    G: Gate + Observer + Sync,
>(rt: &R, alloc: Global, words: &[String], world: World<F, O, D, L, G>) -> Finish<F, O, D, L>
    requires few { vec_len world.doors ≤ 65535 }
    requires home { All (λ door. L.is_out door ≡ false) world.doors.items }
    requires left { IsTrue (D.tells world.disk) → IsAsLeft (D.accounts world.disk) }
    // The disk allows that each history goes on. So of a run that never ends: at each moment each
    // file that a crash may leave, and could not leave before, represents a history that goes on
    // from that of the file as it was read before.
    // Promise: This is of each moment, also of a run that never ends. Each file that a crash may
    // leave, and could not leave before, may come of what a read gave. The disk is asked to allow
    // only that a history goes on, by the bank and the plan that the files have
    // - of `run`, `run_alone`
    // - by `allows` (`AllowsExams`)
    requires allows { AllowsExams (F.tells world.files) (F.has world.files) (F.content world.files)
        D.may_become }
    // What a server asks of its links, and so what it promises of each byte that a client got at
    // any moment, also of a run that never ends: it is of the responses to the client's messages,
    // in order, each right for marks that a pass of this office's hall has seen, which begin with
    // the history that was found. A link need allow nothing else.
    // Promise: At each moment of a server, also of one that never ends, what was written to a link
    // is responses to its messages, in order, and a beginning of the next
    // - by the condition `fair` (`AreFairDoors`, `IsCallerOf`)
    // Promise: These responses are right for an office with the bank, the plan and the base form of
    // the files, over a disk of the identity of the one that was handed in. When its hall was made,
    // its marks were the history of the file that was found, and its opening
    // - by the condition `fair` (`IsOpenedBy`, `AreFirstMarks`, `IsCallerOf`)
    requires fair { (office : OpenedWith) (opened : List Mark)
        → IsOpenedBy (map (λ w. string_bytes w) words.now)
        (F.tells world.files) (F.has world.files) (F.content world.files)
        (D.tells world.disk) (D.identity world.disk) (D.content world.disk) office opened
        → AreFairDoors (option_map (λ t. t.items) world.token)
        L.Link.tells L.Link.left L.Link.written L.Link.allows L.tells L.coming
        (IsCallerOf office opened) world.doors.items }
    // A follower and a shipper ask that each text is allowed.
    requires allowed { IsOfLinked (command_of (map (λ w. string_bytes w) words.now))
        → AllowsAll L.Link.tells L.Link.allows }
    // If the files report their content: what is printed, and with which status; and what became of
    // the doors. If the sink reports its content too: that this is written. If the disk reports its
    // content too: what the journal holds, and what a crash may leave of it. Of a door that reports
    // its links: that each was served, and what was written to it.
    // Promise: Each line of a replay is the reply to one request of the script, in order, and by
    // the definition of what a request does. Each entry is legal. An item is served by the serving
    // rule from a form that no exchange of one item betters. Where the line has `proved`, no set of
    // items is a better form
    // - by `answers` (`Outcome`, `IsUnderWay`, `AreDone`, `Does`)
    // Promise: No line is printed for what the journal lacks. Where a replay printed a line, the
    // file that is left represents the history that the first requests of the script lead to, or
    // that with the first entries of the next request. Each request whose reply was printed is one
    // of the first. Each file that a crash may leave at the end represents such a history too
    // - by `answers` (`IsUnderWay`, `IsFileOf`)
    // Promise: At each moment since the journal of a replay was opened, each file that a crash may
    // leave represents a history on the way of the script, by records of the second version. Its
    // first requests are done, and of the next one none, some or all entries are there
    // - by `answers` (`IsUnderWay`, `AreMomentsOfReplay`, `IsFileOnTheWay`, `IsReached`)
    // Promise: While the journal of a replay is opened, also if the disk fails then, each file that
    // a crash may leave represents the history that was found, or is one that a crash might have
    // left before
    // - by `answers` (`AreOpeningMoments`, `IsOpeningFailed`, `KeepsHistory`)
    // Promise: A run goes on from the history that the file represents
    // - by `answers` (`IsUnderWay`)
    // Promise: Each form that a run serves is no worse than the base form and the form before,
    // where these are forms of the problem. Eligibility is set aside by a spent budget only where
    // neither the base nor the form before is a form
    // - by `answers` (`AreGood`)
    // Promise: A refused request prints its refusal, and the run goes on, unless it is refused for
    // the plan's limit of sessions
    // - by `answers` (`AreDone`)
    // Promise: Status 0 of a replay comes only after each request of the script is done
    // - by `answers` (`Outcome`)
    // Promise: Status 6 comes only for a file that represents no history of the bank and the plan,
    // or is too long, or, unless it is audited or moved, is of the first version and was not moved.
    // It comes with the first fault of the file, which is left as it was. Over a disk that does not
    // report its content it may also come where a shipper lost a record
    // - by `answers` (`IsJournalRefused`)
    // Promise: Status 13 of a replay comes only at a request that would start one session too many,
    // or whose next entry, with a record that can be spelled and may follow, would make the journal
    // longer than its limit. Its line has the two numbers
    // - by `answers` (`Outcome`, `IsFullAt`, `IsLeftAt`)
    // Promise: `assemble` prints a form of the plan that no exchange of one item improves, its
    // objective, and a proof tree. The check of the tree with this form gives Optimal if the line
    // has `proved`, else Partial, and then the tree spends the base budget
    // - by `answers` (`FindsForm`)
    // Promise: `no form T` is printed only where no set of items meets the plan. The check of the
    // tree T without a form gives NoForm
    // - by `answers` (`ShowsNoForm`)
    // Promise: `no base form in N nodes T` is printed only where the plan has no base and N is the
    // base budget. The check of T without a form gives Partial, and T spends that budget
    // - by `answers` (`ShowsNoBase`)
    // Promise: `check` prints what was understood: the bank's counts of items, points, quantities
    // and stimuli, and the plan's canonical text. The plan is valid for the bank
    // - by `answers` (`Outcome`)
    // Promise: Each refusal of a bank, a plan or a script names the first fault of its text
    // - by `answers` (`Outcome`)
    // Promise: `serve` opens the journal, and serves the connections of each door on one pass of a
    // hall over it. The marks of its office at the close have the history of the file that was
    // found, and the entries that were added; this history is a legal run
    // - by `answers` (`RunEnds`, `AreServed`, `IsExamined`)
    // Promise: Each connection that a door gave was served in order and went back to it. Each reply
    // is right for what the door's pass had seen (`Sees`). What was written is the responses to the
    // messages, in order, up to the one at which the connection ended
    // - by `answers` (`AreServed`, `IsWorked`, `IsConnection`)
    // Promise: Each mark that a server added to its office is the own of a pass on which the
    // connections of a door were served: the history has no entry that no request brought
    // - by `answers` (`AreServed`, `IsOwnPlace`)
    // Promise: A connection that ends for lack of memory is kept: then the status of the server is
    // not 0
    // - by `answers` (`AreServed`, `IsConnection`, `end_of`, `IsLast`)
    // Promise: Whatever the status of a server, the file that is left, and each that a crash may
    // leave, represents the history of the marks at the close, or that with the one entry in doubt
    // - by `answers`, `journal` (`IsExamined`, `RunLeaves`)
    // Promise: At each moment since the journal of a server was opened, each file that a crash may
    // leave represents the history of the office's marks so far, or that with the one entry in
    // hand. That entry is written, or the disk put it in doubt. The moments and the marks go side
    // by side: one entry after another is in hand
    // - by `answers`, `journal` (`IsExamined`, `AreMoments`, `IsInHand`)
    // Promise: While the journal of a server is opened, also where it could not be, each file that
    // a crash may leave represents the history that was found, or is one that a crash might have
    // left before
    // - by `answers`, `journal` (`AreOpeningMoments`, `IsOpeningFailed`, `IsUntouched`)
    // Promise: Status 0 of a server comes only after each door that reports its links has none
    // left, and its line has the numbers of the history at the close. Status 14 comes only where a
    // door's count of faults rose, and status 9, also at the end, only where the disk's did
    // - by `answers` (`RunEnds`, `AreServed`, `IsServedBy`), `door`, `failed`
    // Promise: What a server prints, what it leaves of the journal and what its doors gave are of
    // one office: its marks at the opening and at the close
    // - by `answers`, `journal` (`RunEnds`, `RunLeaves`, `WorkSeen`)
    // Promise: `audit` prints the numbers of the history that the file represents, and its exposure
    // counts. For a plan of more than one band it prints those of each band after them, for a plan
    // of one band nothing more. Each record is judged with its tree. The file is as it was, and so
    // is each file that a crash may leave, at each moment
    // - by `answers` (`Outcome`, `IsAuditOf`, `IsAudit`, `audit_text`, `IsUntouched`)
    // Promise: `migrate` prints how many records it wrote and the length of the journal, which is
    // then within the plan's limit. The journal represents, by records of the second version, the
    // history that it represented. One of the first version is exactly the moved one, any other is
    // as it was. With nothing suspect before, a crash leaves nothing but that file
    // - by `answers` (`Outcome`, `IsMigrationOf`, `IsMigrationDone`)
    // Promise: Whatever the status of a migration, a journal that represented a history represents
    // it afterwards, or is a file that a crash might have left before. So it is of each file that a
    // crash may leave, at each moment. Only a journal that represents a history by records of the
    // first version is changed. One that is refused, or would be too long, is as it was
    // - by `answers`, `journal` (`KeepsHistory`, `IsMigrationCutOff`, `IsReadingRefused`,
    //   `IsMigrationFull`)
    // Promise: A replay, a server, a follower and a shipper refuse a journal of the first version
    // that was not moved, and leave it as it was
    // - by `answers` (`IsJournalRefused`, `IsOpenAnswer`, `IsUnderWay`, `IsExamined`)
    // Promise: At status 0 of `follow` each link that the first door gave was followed to its end
    // and went back to it, and the door gave no other, as a missing door does. The file stands for
    // the history H that has the records taken. The count and the numbers that are printed are
    // those of H
    // - by `answers` (`FollowEnds`, `AreFollowed`, `IsFollowedBy`, `IsLastOfFollow`)
    // Promise: The records of a follower go from those of the file to those of H by the offers of
    // its links, in their order. Each that was taken may follow those before it by the rules of
    // examinations
    // - by `answers` (`AreFollowed`, `IsFollowing`, `AreSpelled`)
    // Promise: At status 0 of `ship` its one link ended with the follower having all C records, C
    // is printed, and the file stands for the same history as at the start
    // - by `answers` (`ShipEnds`, `AreShipped`, `IsShippedBy`, `IsLastOfShip`)
    // Promise: The file that a follower or a shipper leaves of a journal that was opened, and each
    // that a crash may leave, represents the history of the marks at the close, or that with the
    // one record in doubt. So it is whatever the status
    // - by `answers`, `journal` (`LinkLeaves`, `IsExamined`)
    // Promise: So it is at each moment since that journal was opened, with the marks so far. While
    // it is opened, each such file represents the history that was found, or is one that a crash
    // might have left before
    // - by `answers`, `journal` (`AreMoments`, `AreOpeningMoments`)
    // Promise: `drill` prints the numbers of the history to which the requests of the made script
    // lead from the empty one, by the bank and the plan of the made texts. What it prints depends
    // on no file, and it leaves the journal alone. It ends with 0, or with 10
    // - of `run`, `laws::drill_is_complete`
    // - by `answers` (`Outcome`, `IsSummaryOfDrill`), `unused`, `DrillIsComplete`
    // Promise: `series` prints forms that each meet the plan, with no item in two of them, in
    // ascending order of their lowest item, and their least weighted information as the value
    // - by `answers` (`IsSeriesOf`, `AnswersSeries`)
    // Promise: Where a line of `series` has `proved`, no such forms have a greater value, and the
    // check of the tree with these forms gives Optimal. Else it gives Partial, and the tree spends
    // the base budget. After `at most U` no such forms have a value above U
    // - by `answers` (`AnswersSeries`, `FindsSeries`)
    // Promise: `no series T` is printed only where no forms of that number meet the plan without
    // common items. `no series in N nodes T` is printed only where the tree T without forms gives
    // Partial and spends the base budget N. `series: weights` is printed exactly where the weights
    // are another number than the grid's points, or all are 0
    // - by `answers` (`AnswersSeries`, `ShowsNoSeries`, `ShowsNoneFound`, `AreWeightsFor`)
    // Promise: A bank, plan or script is read or refused only if its file is there. For a name that
    // no file has, only `files failed` with a counted fault or `no memory` is printed, or a prefix
    // of one where the output failed
    // - by `answers` (`Reads`, `ReadsAll`, `Outcome`)
    ensures answers { IsTrue (F.tells world.files)
        → RunEnds (λ opened closed end. AreServed (option_map (λ t. t.items) world.token)
        L.tells L.coming L.returned L.is_out L.faults L.identity L.Link.tells L.Link.left L.Link.written L.Link.faults L.Link.identity
        opened closed world.doors.items result.doors.items end) (result.doors ≡ world.doors)
        (map (λ w. string_bytes w) words.now)
        (outside (F.has world.files) (F.content world.files) (F.faults world.files)
        (F.faults result.files)
        (disk_seen D.tells D.content D.accounts D.faults world.disk result.disk))
        (O.tells world.out) (O.written world.out) (O.written result.out) result.status
        ⊎ (FollowEnds (AreFollowed
        L.tells L.coming L.returned L.is_out L.faults L.identity L.Link.tells L.Link.left L.Link.written L.Link.faults L.Link.identity
        world.doors.items result.doors.items)
        (map (λ w. string_bytes w) words.now)
        (outside (F.has world.files) (F.content world.files) (F.faults world.files)
        (F.faults result.files)
        (disk_seen D.tells D.content D.accounts D.faults world.disk result.disk))
        (O.tells world.out) (O.written world.out) (O.written result.out) result.status
        ⊎ ShipEnds (AreShipped
        L.tells L.coming L.returned L.is_out L.faults L.identity L.Link.tells L.Link.left L.Link.written L.Link.faults L.Link.identity
        world.doors.items result.doors.items)
        (map (λ w. string_bytes w) words.now)
        (outside (F.has world.files) (F.content world.files) (F.faults world.files)
        (F.faults result.files)
        (disk_seen D.tells D.content D.accounts D.faults world.disk result.disk))
        (O.tells world.out) (O.written world.out) (O.written result.out) result.status) }
    // What is left of the journal, whatever the status.
    // Promise: Whatever the status of a replay, one of the next three rows holds of its journal
    // - by `journal` (`LeavesJournal`)
    // Promise: First: the file is left as it was found, and a crash leaves no file that it might
    // not have left before
    // - by `journal` (`IsUntouched`)
    // Promise: Second: the file that is left, and each that a crash may leave, represents the
    // history that the first requests of the script lead to, or that with the first entries of the
    // next
    // - by `journal` (`IsUnderWay`)
    // Promise: Third: the disk failed while the journal was opened. Then each of these files
    // represents the history that was found, if one was, or is a file that a crash might have left
    // before
    // - by `journal` (`IsOpeningFailed`, `KeepsHistory`)
    ensures journal { IsTrue (F.tells world.files)
        → RunLeaves (λ opened closed end. AreServed (option_map (λ t. t.items) world.token)
        L.tells L.coming L.returned L.is_out L.faults L.identity L.Link.tells L.Link.left L.Link.written L.Link.faults L.Link.identity
        opened closed world.doors.items result.doors.items end) (result.doors ≡ world.doors)
        (map (λ w. string_bytes w) words.now)
        (outside (F.has world.files) (F.content world.files) (F.faults world.files)
        (F.faults result.files)
        (disk_seen D.tells D.content D.accounts D.faults world.disk result.disk))
        ⊎ LinkLeaves (map (λ w. string_bytes w) words.now)
        (outside (F.has world.files) (F.content world.files) (F.faults world.files)
        (F.faults result.files)
        (disk_seen D.tells D.content D.accounts D.faults world.disk result.disk)) }
    // The halt, if the run ended by one, and what it shows: of a journal that is refused, the rule
    // that its first wrong record breaks, with the values. Without one no text was refused, and
    // status 6 comes of a follower or a shipper alone.
    // Promise: A halt that a run hands back is of its status, or the output failed (status 8). A
    // halt of a refused journal is the first fault of the file by the bank and the plan that were
    // read. Of one wrong record it has the place and the rule that the record breaks. Of a tree
    // that the checker refuses it has the place alone. Without a halt no text was refused. Status 6
    // without a halt comes only of `follow` and `ship`
    // - of `run`, `run_alone`
    // - by `cause` (`EndsAs`, `Shows`, `IsRefused`, `IsOpenAnswer`, `IsReadAnswer`, `IsIllegal`)
    // Promise: A halt without a form, or without a series, has the tree that shows it for the bank
    // and the plan that were read, or that spends the base budget
    // - of `run`, `run_alone`
    // - by `cause` (`Shows`, `ShowsNoForm`, `ShowsNoBase`, `ShowsNoSeries`, `ShowsNoneFound`)
    ensures cause { IsTrue (F.tells world.files)
        → EndsAs (map (λ w. string_bytes w) words.now)
        (outside (F.has world.files) (F.content world.files) (F.faults world.files)
        (F.faults result.files)
        (disk_seen D.tells D.content D.accounts D.faults world.disk result.disk))
        result.halt result.status }
    // The causes, whether they report their content or not. Out of memory is free.
    // Promise: Status 2 comes exactly where the words are not in the table of commands, or 8 where
    // its line cannot be written, or 10
    // - by `faulty`, `usage`
    ensures faulty { command_of (map (λ w. string_bytes w) words.now) ≡ None
        → (result.status ≡ 2) ⊎ ((result.status ≡ 8) ⊎ (result.status ≡ 10)) }
    ensures usage { result.status ≡ 2 → command_of (map (λ w. string_bytes w) words.now) ≡ None }
    // Promise: Statuses 7, 8 and 9 come only where the count of faults of the files, the output or
    // the disk rose (or is at its last value). At status 8 what was written is a proper prefix of
    // what one of the other outcomes prints
    // - by `files`, `sink`, `failed`, `answers` (`PrintsPart`)
    ensures files { result.status ≡ 7 → Rose (F.faults world.files) (F.faults result.files) }
    ensures sink { result.status ≡ 8 → Rose (O.faults world.out) (O.faults result.out) }
    ensures failed { result.status ≡ 9 → Rose (D.faults world.disk) (D.faults result.disk) }
    ensures door { result.status ≡ 14
        → HasFailedDoor L.faults world.doors.items result.doors.items }
    // Promise: Status 19 comes only where the count of faults of the last link of the first door
    // rose. Statuses 19 to 22 come only of `follow` and `ship`: 20 where the other side sent what
    // no peer may send, 21 where the offered record may not follow, 22 where a shipper had no link
    // - by `link` (`HasFailedFirst`), `unlinked`, `answers` (`IsLastOfLink`)
    ensures link { result.status ≡ 19 → HasFailedFirst L.tells L.coming L.returned L.is_out
        L.faults L.identity L.Link.faults world.doors.items result.doors.items }
    // Promise: The disk is handed back as it was, unless the command is a replay, a server, an
    // audit, a migration, a follower or a shipper. So it is at each status of a run that ends
    // before the journal is opened: 2, 3, 4, 5, 7, 11 and 12
    // - by `kept`, `unused`
    ensures kept { IsStatusBefore result.status → result.disk ≡ world.disk }
    ensures unused { (IsOfJournal (command_of (map (λ w. string_bytes w) words.now)) → ⊥)
        → result.disk ≡ world.disk }
    // Promise: Only a server uses all doors, and a follower and a shipper the first one. They come
    // back in their order, each the same object with no link out, and their counts of faults never
    // fall
    // - by `idle`, `doors` (`AreLent`)
    ensures idle { (IsOfDoors (command_of (map (λ w. string_bytes w) words.now)) → ⊥)
        → result.doors ≡ world.doors }
    // Promise: No other status comes than those of [the table](COMMANDS.md#statuses)
    ensures status { IsStatusOfAny result.status }
    ensures unlinked { (IsOfLinked (command_of (map (λ w. string_bytes w) words.now)) → ⊥)
        → IsStatusOfRun result.status }

    // Promise: The counts of faults never fall, and files, output and disk report their content
    // afterwards if they did before
    // - by `files_grow`, `sink_grows`, `files_tell`, `sink_tells`, `disk`
    ensures files_grow { F.faults world.files ≤ F.faults result.files }
    ensures sink_grows { O.faults world.out ≤ O.faults result.out }
    ensures files_tell { F.tells result.files ≡ F.tells world.files }
    ensures sink_tells { O.tells result.out ≡ O.tells world.out }
    ensures disk { IsLent D.tells D.identity D.faults world.disk result.disk }
    ensures doors { AreLent L.tells L.identity L.faults L.is_out world.doors.items
        result.doors.items }
{
    let World {
        mut files,
        mut out,
        disk,
        doors,
        gate,
        token,
    } = world;
    let token = bytes_of(&token);
    let left = left_of(
        rt, alloc, words, &mut files, &mut out, disk, doors, &gate, token,
    );
    let Left {
        disk,
        doors,
        status,
        halt,
    } = left;
    Finish {
        status,
        halt,
        files,
        out,
        disk,
        doors,
    }
}
