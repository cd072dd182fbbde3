//! Writing a record.

ghost use Rattle.std.specs.Prelude.{◌≡◌, ℕ, ◌+◌, ◌≤◌, ◌<◌, ◌∷◌, ◌++◌, length, Option, OnOk, IfOk};
ghost use Rattle.std.specs.Int.{w16, w32, w64, to_be_bytes};
ghost use Rattle.std.specs.Option.{option_copied};
ghost use Rattle.certificate_model.specs.ProofTrees.{ProofTree};
ghost use Rattle.history_model.specs.declared.entry.Entry.TheVariants.{Started};
ghost use Rattle.exam_records.specs.Shape.{GoesWith, HasBands, HasNoList, IsRecord};
ghost use Rattle.exam_records.specs.Spelling.{cause_byte, served_bytes, answered_bytes, tree_bytes, sets_bytes, list_bytes, entry_bytes, payload_of, old_entry_bytes, old_payload_of, more_bytes};

use crate::record::Record;
use crate::sets::{push_set, set_in};
use crate::spellable::is_record;
use bank_tables::ItemSet;
use history_model::{Bands, Cause, Entry, Without};
use proof_tree::{Memory, Tree};
use std::alloc::{AllocError, Global};

fn cause_byte(cause: &Cause) -> u8
    ensures { result ≡ cause_byte cause.now }
{
    match cause {
        Cause::NoForm => 0,
        Cause::Spent => 1,
    }
}

/// The kind and the session, with which each entry begins.
fn push_front(out: &mut Vec<u8>, kind: u8, session: u32) -> Result<(), AllocError>
    ensures { OnOk result (out.new.items ≡ out.old.items ++ kind ∷ to_be_bytes w32 session) }
{
    out.push(kind)?;
    out.extend_from_slice(&session.to_be_bytes())
}

/// The bytes of the entry of a serving.
fn push_served(
    out: &mut Vec<u8>,
    session: u32,
    step: u16,
    item: u16,
    form: &ItemSet,
    proved: bool,
    nodes: u16,
) -> Result<(), AllocError>
    ensures { OnOk result (out.new.items
        ≡ out.old.items ++ served_bytes session step item form.now proved nodes) }
{
    push_front(out, 3, session)?;
    out.extend_from_slice(&step.to_be_bytes())?;
    out.extend_from_slice(&item.to_be_bytes())?;
    push_set(out, form)?;
    out.push(u8::from(proved))?;
    out.extend_from_slice(&nodes.to_be_bytes())
}

/// The bytes of the entry of an answer.
fn push_answered(out: &mut Vec<u8>, session: u32, step: u16, response: u8) -> Result<(), AllocError>
    ensures { OnOk result (out.new.items ≡ out.old.items ++ answered_bytes session step response) }
{
    push_front(out, 4, session)?;
    out.extend_from_slice(&step.to_be_bytes())?;
    out.extend_from_slice(&[response])
}

/// The set of each band that counts.
#[tactic(auto, unfolding(crate::specs::Spelling::sets_bytes))]
fn push_sets(out: &mut Vec<u8>, eligible: &Bands) -> Result<(), AllocError>
    requires { eligible.now.count ≤ 8 }
    ensures { OnOk result (out.new.items
        ≡ out.old.items ++ sets_bytes eligible.now.count eligible.now.sets) }
{
    for band in 0..eligible.count {
        push_set(out, &set_in(&eligible.sets, band))?;
    }
    Ok(())
}

/// The bytes of the entry of a start of a kind, up to its eligible sets.
fn push_started(
    out: &mut Vec<u8>,
    kind: u8,
    session: u32,
    booking: u64,
    eligible: &Bands,
) -> Result<(), AllocError>
    requires { eligible.now.count ≤ 8 }
    ensures { OnOk result (out.new.items ≡ out.old.items ++ kind ∷ (to_be_bytes w32 session
        ++ (to_be_bytes w64 booking
        ++ eligible.now.count ∷ sets_bytes eligible.now.count eligible.now.sets))) }
{
    push_front(out, kind, session)?;
    out.extend_from_slice(&booking.to_be_bytes())?;
    out.push(eligible.count)?;
    push_sets(out, eligible)
}

/// The items that the examinee must not get, and the form without them.
#[tactic(auto, unfolding(crate::specs::Spelling::list_bytes))]
fn push_list(out: &mut Vec<u8>, list: &Without) -> Result<(), AllocError>
    ensures { OnOk result (out.new.items ≡ out.old.items ++ list_bytes list.now) }
{
    push_set(out, &list.items)?;
    push_set(out, &list.form)
}

/// The bytes of the entry of a start with a list.
fn push_started_with_list(
    out: &mut Vec<u8>,
    session: u32,
    booking: u64,
    eligible: &Bands,
    list: &Without,
) -> Result<(), AllocError>
    requires { eligible.now.count ≤ 8 }
    ensures { OnOk result (out.new.items ≡ out.old.items ++ 9 ∷ (to_be_bytes w32 session
        ++ (to_be_bytes w64 booking ++ eligible.now.count
        ∷ (sets_bytes eligible.now.count eligible.now.sets ++ list_bytes list.now)))) }
{
    push_started(out, 9, session, booking, eligible)?;
    push_list(out, list)
}

/// The bytes of the entry of a start, with a list or without one.
#[tactic(auto, unfolding(crate::specs::Spelling::entry_bytes))]
fn push_start(
    out: &mut Vec<u8>,
    session: u32,
    booking: u64,
    eligible: &Bands,
    without: &Option<Without>,
) -> Result<(), AllocError>
    requires { eligible.now.count ≤ 8 }
    ensures { OnOk result (out.new.items
        ≡ out.old.items ++ entry_bytes (Started session booking eligible.now without.now)) }
{
    match without {
        Some(list) => push_started_with_list(out, session, booking, eligible, list),
        None => push_started(out, 6, session, booking, eligible),
    }
}

/// The bytes of the entry of a setting aside.
fn push_set_aside(
    out: &mut Vec<u8>,
    session: u32,
    step: u16,
    band: u8,
    cause: &Cause,
    nodes: u16,
) -> Result<(), AllocError>
    ensures { OnOk result (out.new.items ≡ out.old.items ++ 7 ∷ (to_be_bytes w32 session
        ++ (to_be_bytes w16 step ++ band ∷ cause_byte cause.now ∷ to_be_bytes w16 nodes))) }
{
    push_front(out, 7, session)?;
    out.extend_from_slice(&step.to_be_bytes())?;
    out.extend_from_slice(&[band, cause_byte(cause)])?;
    out.extend_from_slice(&nodes.to_be_bytes())
}

#[tactic(auto, unfolding(crate::specs::Spelling::entry_bytes))]
fn push_entry(out: &mut Vec<u8>, entry: &Entry) -> Result<(), AllocError>
    requires { HasBands entry.now }
    ensures { OnOk result (out.new.items ≡ out.old.items ++ entry_bytes entry.now) }
{
    match entry {
        Entry::Started {
            session,
            booking,
            eligible,
            without,
        } => push_start(out, *session, *booking, eligible, without),
        Entry::SetAside {
            session,
            step,
            band,
            cause,
            nodes,
        } => push_set_aside(out, *session, *step, *band, cause, *nodes),
        Entry::Served {
            session,
            step,
            item,
            form,
            proved,
            nodes,
        } => push_served(out, *session, *step, *item, form, *proved, *nodes),
        Entry::Answered {
            session,
            step,
            response,
        } => push_answered(out, *session, *step, *response),
        Entry::Closed { session } => push_front(out, 5, *session),
    }
}

#[tactic(auto, unfolding(crate::specs::Spelling::old_entry_bytes))]
fn push_old_entry(out: &mut Vec<u8>, first: u8, entry: &Entry) -> Result<(), AllocError>
    requires { first < 8 }
    ensures { OnOk result (out.new.items ≡ out.old.items ++ old_entry_bytes first entry.now) }
{
    match entry {
        Entry::Started {
            session,
            booking,
            eligible,
            ..
        } => {
            push_front(out, 1, *session)?;
            out.extend_from_slice(&booking.to_be_bytes())?;
            push_set(out, &set_in(&eligible.sets, first))
        }
        Entry::SetAside {
            session,
            cause,
            nodes,
            ..
        } => {
            push_front(out, 2, *session)?;
            out.push(cause_byte(cause))?;
            out.extend_from_slice(&nodes.to_be_bytes())
        }
        Entry::Served {
            session,
            step,
            item,
            form,
            proved,
            nodes,
        } => push_served(out, *session, *step, *item, form, *proved, *nodes),
        Entry::Answered {
            session,
            step,
            response,
        } => push_answered(out, *session, *step, *response),
        Entry::Closed { session } => push_front(out, 5, *session),
    }
}

fn push_tree(alloc: Global, out: &mut Vec<u8>, tree: Option<&Tree>) -> Result<(), Memory>
    ensures { OnOk result (out.new.items ≡ out.old.items ++ tree_bytes (option_copied tree.entry)) }
{
    if let Some(tree) = tree {
        let bytes = proof_tree::encode(alloc, tree)?;
        out.extend_from_slice(&bytes)?;
    }
    Ok(())
}

/// Writes the spelling of the record of an entry and its tree in the second version of the journal,
/// at most 98,885 bytes, after what was written before. The conditions are that there is a tree
/// exactly where the entry is SetAside or Served, that the entry's number of nodes is the tree's,
/// that a start has 1 to 8 bands that count and no items in the others, that its list, if there is
/// one, isn't empty, and that the band of a setting aside is below 8. Fails only where it is out of
/// memory, and then it isn't known what of the spelling was written.
#[tactic(auto, unfolding(crate::specs::Spelling::payload_of))]
pub fn push_record(
    alloc: Global,
    out: &mut Vec<u8>,
    entry: &Entry,
    tree: Option<&Tree>,
) -> Result<(), Memory>
    requires tree { GoesWith entry.now (option_copied tree) }
    requires bands { HasBands entry.now }
    // Promise: The bytes written in the second version are the record's one encoding, of a bounded
    // length
    // - of `push_record`, `encode`, `encode_parts`
    // - by `spelling`, `is_record`, `some`, `few`
    ensures spelling { OnOk result (out.new.items ≡ out.old.items
        ++ payload_of (record { entry = entry.now; tree = option_copied tree.entry })) }
    // The entry and its tree are a record.
    ensures is_record { IsRecord (record { entry = entry.now; tree = option_copied tree.entry }) }
    ensures some { 0 < length
        (payload_of (record { entry = entry.now; tree = option_copied tree.entry })) }
    ensures few { length (payload_of
        (record { entry = entry.now; tree = option_copied tree.entry })) ≤ 98885 }
{
    is_record(entry, tree);
    push_entry(out, entry)?;
    push_tree(alloc, out, tree)
}

/// The spelling that `push_record` writes, under the same conditions. Fails only where it is out of
/// memory.
pub fn encode_parts(alloc: Global, entry: &Entry, tree: Option<&Tree>) -> Result<Vec<u8>, Memory>
    requires tree { GoesWith entry.now (option_copied tree) }
    requires bands { HasBands entry.now }
    ensures spelling { IfOk result (λ bytes. bytes.items
        ≡ payload_of (record { entry = entry.now; tree = option_copied tree.entry })) }
    // The entry and its tree are a record.
    ensures is_record { IsRecord (record { entry = entry.now; tree = option_copied tree.entry }) }
    ensures some { IfOk result (λ bytes. 0 < length bytes.items) }
    ensures few { IfOk result (λ bytes. length bytes.items ≤ 98885) }
{
    let mut out = Vec::new(alloc);
    push_record(alloc, &mut out, entry, tree)?;
    Ok(out)
}

/// The spelling of the record in the second version of the journal, as that of its entry and its
/// tree.
pub fn encode(alloc: Global, rec: &Record) -> Result<Vec<u8>, Memory>
    requires tree { GoesWith rec.now.entry rec.now.tree }
    requires bands { HasBands rec.now.entry }
    ensures spelling { IfOk result (λ bytes. bytes.items ≡ payload_of rec.now) }
    ensures is_record { IsRecord rec.now }
    ensures some { IfOk result (λ bytes. 0 < length bytes.items) }
    ensures few { IfOk result (λ bytes. length bytes.items ≤ 98885) }
{
    encode_parts(alloc, &rec.entry, rec.tree.as_ref())
}

/// Writes the spelling of the record of an entry and its tree in the first version of the journal,
/// at most 98,885 bytes, after what was written before. Of a start it keeps the set of one band,
/// `first`, which is to be the band where each session begins, and no list; of a setting aside it
/// keeps neither the step nor the band. The conditions are that there is such a band, that there is
/// a tree exactly where the entry is SetAside or Served, and that the entry's number of nodes is
/// the tree's. Fails only where it is out of memory, and then it isn't known what of the spelling
/// was written.
#[tactic(auto, unfolding(crate::specs::Spelling::old_payload_of))]
pub fn push_old_record(
    alloc: Global,
    out: &mut Vec<u8>,
    first: u8,
    entry: &Entry,
    tree: Option<&Tree>,
) -> Result<(), Memory>
    requires first { first < 8 }
    requires tree { GoesWith entry.now (option_copied tree) }
    // Promise: The bytes written are the record's one encoding in the first version, of a bounded
    // length; a tree that is only lent is encoded the same. Of a start they have the set of one
    // band, and of a setting aside neither step nor band
    // - of `push_old_record`, `encode_old`, `encode_old_parts`
    // - by `spelling`, `is_record`, `some`, `few`
    ensures spelling { OnOk result (out.new.items ≡ out.old.items ++ old_payload_of first
        (record { entry = entry.now; tree = option_copied tree.entry })) }
    // The entry and its tree are a record, if the entry has at most eight bands.
    ensures is_record { HasBands entry.now
        → IsRecord (record { entry = entry.now; tree = option_copied tree.entry }) }
    ensures some { 0 < length
        (old_payload_of first (record { entry = entry.now; tree = option_copied tree.entry })) }
    ensures few { length (old_payload_of first
        (record { entry = entry.now; tree = option_copied tree.entry })) ≤ 98885 }
{
    is_record(entry, tree);
    push_old_entry(out, first, entry)?;
    push_tree(alloc, out, tree)
}

/// The spelling that `push_old_record` writes, under the same conditions. Fails only where it is
/// out of memory.
pub fn encode_old_parts(
    alloc: Global,
    first: u8,
    entry: &Entry,
    tree: Option<&Tree>,
) -> Result<Vec<u8>, Memory>
    requires first { first < 8 }
    requires tree { GoesWith entry.now (option_copied tree) }
    ensures spelling { IfOk result (λ bytes. bytes.items
        ≡ old_payload_of first (record { entry = entry.now; tree = option_copied tree.entry })) }
    // The entry and its tree are a record, if the entry has at most eight bands.
    ensures is_record { HasBands entry.now
        → IsRecord (record { entry = entry.now; tree = option_copied tree.entry }) }
    ensures some { IfOk result (λ bytes. 0 < length bytes.items) }
    ensures few { IfOk result (λ bytes. length bytes.items ≤ 98885) }
{
    let mut out = Vec::new(alloc);
    push_old_record(alloc, &mut out, first, entry, tree)?;
    Ok(out)
}

/// The spelling of the record in the first version of the journal, as that of its entry and its
/// tree.
pub fn encode_old(alloc: Global, first: u8, rec: &Record) -> Result<Vec<u8>, Memory>
    requires first { first < 8 }
    requires tree { GoesWith rec.now.entry rec.now.tree }
    ensures spelling { IfOk result (λ bytes. bytes.items ≡ old_payload_of first rec.now) }
    ensures is_record { HasBands rec.now.entry → IsRecord rec.now }
    ensures some { IfOk result (λ bytes. 0 < length bytes.items) }
    ensures few { IfOk result (λ bytes. length bytes.items ≤ 98885) }
{
    encode_old_parts(alloc, first, &rec.entry, rec.tree.as_ref())
}

/// By how many bytes the spelling of a record of the entry is longer in the second version than in
/// the first: 1 and 64 for each band but one that counts, for a start; 3 for a setting aside; else
/// none. The conditions are that of `push_record` on bands, and that a start has no list. So the
/// length of a record in the second version is known from its payload in the first.
pub fn growth(entry: &Entry) -> u64
    requires bands { HasBands entry.now }
    requires unlisted { HasNoList entry.now }
    // Promise: By how much it is longer is known from its entry, if that has no list, and nothing
    // is written for it; so its length in the second version is known from its payload in the first
    // - by `more`, `longer`, `few`
    ensures more { result ≡ more_bytes entry.now }
    ensures longer { (first : ℕ) (tree : Option ProofTree)
        → length (payload_of (record { entry = entry.now; tree = tree }))
        ≡ length (old_payload_of first (record { entry = entry.now; tree = tree })) + result }
    ensures few { result ≤ 449 }
{
    match entry {
        Entry::Started { eligible, .. } => 64 * u64::from(eligible.count) - 63,
        Entry::SetAside { .. } => 3,
        Entry::Served { .. } | Entry::Answered { .. } | Entry::Closed { .. } => 0,
    }
}
