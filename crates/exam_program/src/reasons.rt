//! Why a command ended before its work was done, in words for an operator. Standard output has one
//! short line by a fixed format; these words are for standard error. They name the rule that is
//! broken, with its values. Left out are the place of a record, which `place_of` gives, whether the
//! form of an item that waits is proved best, and what is wrong with a proof tree that does not
//! show what its record has.

ghost use Rattle.std.specs.Prelude.{◌≡◌, ◌++◌, IfOk, codes, string_bytes};
ghost use Rattle.std.specs.Option.{option_map};
ghost use Rattle.exam_program.specs.Reasons.{place_words, breach_words, illegal_words, tree_words, record_words, file_words, fault_words, place_of, halt_words};

use crate::halt::Halt;
use answer_journal::OpenFault as FileFault;
use exam_office::OpenFault;
use exam_records::RecordFault;
use form_model::Breach;
use history_model::{Illegal, Place};
use proof_tree::TreeFault;
use std::alloc::{AllocError, Global};

/// The place of a session.
#[tactic(auto, unfolding(crate::specs::Reasons::place_words))]
fn place_words(alloc: Global, place: Place) -> Result<String, AllocError>
    ensures { IfOk result (λ words. string_bytes words ≡ place_words place) }
{
    match place {
        Place::Pending(step) => format!(in alloc; "an item is to be served at step {step}"),
        Place::Waiting { step, item, .. } => format!(in alloc;
            "item {item} waits for its answer at step {step}"
        ),
        Place::Complete => String::from_str(alloc, "the session is complete"),
        Place::Closed => String::from_str(alloc, "the session is closed"),
    }
}

/// Why a set of items is no form. The words are of its items.
#[tactic(auto, unfolding(crate::specs::Reasons::breach_words))]
fn breach_words(alloc: Global, breach: Breach) -> Result<String, AllocError>
    ensures { IfOk result (λ words. string_bytes words ≡ breach_words breach) }
{
    match breach {
        Breach::Length(items) => format!(in alloc;
            "the number of items is {items}, and the test has another number or the bank lacks one of them"
        ),
        Breach::Row(row, activity) => format!(in alloc;
            "row {row} of the plan does not hold, and the activity on it is {activity}"
        ),
        Breach::Stimulus(stimulus, items) => format!(in alloc;
            "the number of items of stimulus {stimulus} is {items}, out of its bounds"
        ),
        Breach::Given(item) => format!(in alloc; "item {item} was given, and is not among them"),
        Breach::Barred(item) => format!(in alloc; "item {item} is barred, and is among them"),
    }
}

/// Some words, and the place of a session after them.
#[tactic(auto, unfolding(crate::specs::Reasons::place_words))]
fn with_place(alloc: Global, words: &str, place: Place) -> Result<String, AllocError>
    ensures { IfOk result
        (λ text. string_bytes text ≡ words.now ++ (codes ": " ++ place_words place)) }
{
    let place = place_words(alloc, place)?;
    format!(in alloc; "{words}: {place}")
}

/// Some words, and why a set of items is no form after them.
#[tactic(auto, unfolding(crate::specs::Reasons::breach_words))]
fn with_breach(alloc: Global, words: &str, breach: Breach) -> Result<String, AllocError>
    ensures { IfOk result
        (λ text. string_bytes text ≡ words.now ++ (codes ": " ++ breach_words breach)) }
{
    let breach = breach_words(alloc, breach)?;
    format!(in alloc; "{words}: {breach}")
}

/// Why a record may not follow those before it.
#[tactic(auto, unfolding(crate::specs::Reasons::illegal_words))]
fn illegal_words(alloc: Global, reason: Illegal) -> Result<String, AllocError>
    ensures { IfOk result (λ words. string_bytes words ≡ illegal_words reason) }
{
    match reason {
        Illegal::NotNumber(count) => format!(in alloc;
            "the next session is {count}, if the plan allows it"
        ),
        Illegal::Booked(session) => format!(in alloc; "the booking has session {session}"),
        Illegal::NotDrawn(item) => format!(in alloc;
            "its eligible items are not those drawn, first at item {item}"
        ),
        Illegal::NoItem(count) => format!(in alloc;
            "its list is empty, or has an item that is not one of the bank's {count}"
        ),
        Illegal::NotWithout(why) => with_breach(
            alloc,
            "its items are no form without those of the list",
            why,
        ),
        Illegal::NoSession(count) => format!(in alloc;
            "there is no such session: the number of sessions is {count}"
        ),
        Illegal::NotPending(at) => with_place(alloc, "no item is to be served at this step", at),
        Illegal::IsAside => String::from_str(
            alloc,
            "eligibility was set aside before in the band of the estimate",
        ),
        Illegal::NotStep(step) => format!(in alloc; "the session is at step {step}"),
        Illegal::NotBand(band) => format!(in alloc; "the estimate is in band {band}"),
        Illegal::NotForm(why) => with_breach(alloc, "its items are no form", why),
        Illegal::NotItem(item) => format!(in alloc; "the next item of the form is {item}"),
        // Of a file the next two come as a tree at fault, without their values.
        Illegal::NotSpent(nodes) => format!(in alloc;
            "its proof tree is missing, not needed, not spent, or not of {nodes} nodes"
        ),
        Illegal::Tree(_) => String::from_str(
            alloc,
            "its proof tree does not show what the record has",
        ),
        Illegal::NotWaiting(at) => with_place(alloc, "no answer is awaited at this step", at),
        Illegal::BadResponse(categories) => format!(in alloc;
            "its response is not one of the item's {categories} categories"
        ),
        Illegal::Ended(at) => with_place(alloc, "the session ended before", at),
    }
}

/// Why the bytes of a tree are none.
#[tactic(auto, unfolding(crate::specs::Reasons::tree_words))]
fn tree_words(alloc: Global, fault: TreeFault) -> Result<String, AllocError>
    ensures { IfOk result (λ words. string_bytes words ≡ tree_words fault) }
{
    match fault {
        TreeFault::Short => String::from_str(alloc, "its tree ends within a field"),
        TreeFault::BadKind(at) => format!(in alloc;
            "the node at byte {at} of its tree is of no kind, or has a number out of range"
        ),
        TreeFault::BadVector(at) => format!(in alloc;
            "its tree breaks a rule of vectors at byte {at}"
        ),
        TreeFault::Unfinished(at) => format!(in alloc;
            "its tree ends at byte {at}, and is not whole"
        ),
        TreeFault::TooLong(at) => format!(in alloc;
            "its tree has too many nodes: one more begins at byte {at}"
        ),
        TreeFault::Memory => String::from_str(alloc, "no memory"),
    }
}

/// Why a payload is no record.
#[tactic(auto, unfolding(crate::specs::Reasons::record_words))]
fn record_words(alloc: Global, fault: RecordFault) -> Result<String, AllocError>
    ensures { IfOk result (λ words. string_bytes words ≡ record_words fault) }
{
    match fault {
        RecordFault::Short => String::from_str(
            alloc,
            "its bytes are no record: they end within a field",
        ),
        RecordFault::Kind(at) => format!(in alloc;
            "its bytes are no record: byte {at} has the number of no kind"
        ),
        RecordFault::Field(at) => format!(in alloc;
            "its bytes are no record: the field at byte {at} has a value that is not allowed"
        ),
        RecordFault::Tree(why) => {
            let why = tree_words(alloc, why)?;
            format!(in alloc; "its bytes are no record: {why}")
        }
        RecordFault::Extra(at) => format!(in alloc;
            "its bytes are no record: a record ends before byte {at}, and more bytes follow"
        ),
        RecordFault::Memory => String::from_str(alloc, "no memory"),
    }
}

/// Why a file is no journal.
#[tactic(auto, unfolding(crate::specs::Reasons::file_words))]
fn file_words(alloc: Global, fault: FileFault) -> Result<String, AllocError>
    ensures { IfOk result (λ words. string_bytes words ≡ file_words fault) }
{
    match fault {
        FileFault::Disk => String::from_str(alloc, "the disk failed"),
        FileFault::TooLong(size) => format!(in alloc;
            "it has {size} bytes, and the plan's line journal allows fewer"
        ),
        FileFault::Header => String::from_str(alloc, "its first bytes are not those of a journal"),
        FileFault::Length(at) => format!(in alloc;
            "no record has the length that is after byte {at}"
        ),
        FileFault::Cut(at) => format!(in alloc; "the record at byte {at} is cut off"),
        FileFault::Version => String::from_str(
            alloc,
            "it is of the first version: if it was never migrated, shadowd migrate BANK PLAN moves it",
        ),
        FileFault::Memory => String::from_str(alloc, "no memory"),
    }
}

/// Why a journal is refused.
#[tactic(auto, unfolding(crate::specs::Reasons::fault_words))]
fn fault_words(alloc: Global, fault: OpenFault) -> Result<String, AllocError>
    ensures { IfOk result (λ words. string_bytes words ≡ fault_words fault) }
{
    match fault {
        OpenFault::Journal(why) => file_words(alloc, why),
        OpenFault::Version => file_words(alloc, FileFault::Version),
        OpenFault::BadRecord(_, why) => record_words(alloc, why),
        OpenFault::BadTree(_) => String::from_str(
            alloc,
            "its proof tree does not show what the record has, or does not spend the plan's budget",
        ),
        OpenFault::Illegal(_, why) => illegal_words(alloc, why),
        OpenFault::Disk => file_words(alloc, FileFault::Disk),
        OpenFault::Memory => file_words(alloc, FileFault::Memory),
    }
}

/// The place of the record for which a journal is refused, if it is one: that of its gate in the
/// file, in bytes.
pub fn place_of(halt: &Halt) -> Option<u64>
    // Promise: The place of the record for which a journal is refused is that of the halt
    // - by the clause (`place_of`)
    ensures { result ≡ place_of halt.now }
{
    match halt {
        Halt::Journal(OpenFault::BadRecord(at, _)) => Some(*at),
        Halt::Journal(OpenFault::BadTree(at)) => Some(*at),
        Halt::Journal(OpenFault::Illegal(at, _)) => Some(*at),
        _ => None,
    }
}

/// What an operator reads of a halt on standard error: why a journal is refused, by the rule that
/// its record breaks and the values that the rule has, and for a plan without a form the command
/// that explains it. Nothing, if the line on standard output has all.
#[tactic(auto, unfolding(crate::specs::Reasons::halt_words))]
pub fn halt_words(alloc: Global, halt: &Halt) -> Result<Option<String>, AllocError>
    // Promise: The words for standard error are a function of the halt. Some faults share their
    // words, and of a tree that is refused they have neither the rule nor a value
    // - by the clause (`halt_words`, `fault_words`, `illegal_words`)
    ensures { IfOk result
        (λ words. option_map (λ w. string_bytes w) words ≡ halt_words halt.now) }
{
    let words = match halt {
        Halt::Journal(why) => fault_words(alloc, *why)?,
        Halt::NoForm(_) => String::from_str(
            alloc,
            "there is no form: tools/explain.py BANK PLAN names the rules that allow none",
        )?,
        Halt::NoBaseForm { .. } => String::from_str(
            alloc,
            "no base form was found: raise base-budget or name a base form in the plan, or loosen rules",
        )?,
        Halt::NoSeries(_) => String::from_str(
            alloc,
            "there is no series: tools/explain.py BANK PLAN --series K names the rules that allow none",
        )?,
        Halt::NoSeriesFound { .. } => String::from_str(
            alloc,
            "no series was found: raise base-budget in the plan, or loosen rules",
        )?,
        _ => return Ok(None),
    };
    Ok(Some(words))
}
