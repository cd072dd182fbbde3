//! Reading a record.

ghost use Rattle.std.specs.Prelude.{◌≡◌, ◌+◌, ◌*◌, ◌≤◌, ◌<◌, ◌==◌, nat_lt, length, IfOk, OnOk, Ok};
ghost use Rattle.std.specs.Int.{w16, w32, w64};
ghost use Rattle.exam_text.specs.First.{unless, fault_where, Gives};
ghost use Rattle.proof_tree.specs.Reading.{number_at, byte_at};
ghost use Rattle.exam_records.specs.declared.fault.RecordFault.TheVariants.{Extra, Memory};
ghost use Rattle.history_model.specs.Judging.{Record};
ghost use Rattle.exam_records.specs.Shape.{IsRecord};
ghost use Rattle.exam_records.specs.Old.{one_band, IsOldRecord};
ghost use Rattle.exam_records.specs.Spelling.{payload_of, old_payload_of};
ghost use Rattle.exam_records.specs.Reading.{field, flag_at, count_at, band_at, bands_at, some_set_at, list_at, cause_of, tree_at, served, answered, closed, shared_of_kind, started, started_with_list, set_aside, record_of_kind, record_of, old_started, old_set_aside, old_record_of_kind, old_record_of};

use crate::fault::RecordFault;
use crate::record::Record;
use crate::sets::{has_items, no_items, set_of};
use bank_tables::ItemSet;
use history_model::{Bands, Cause, Entry, Without};
use proof_tree::{Tree, TreeFault};
use std::alloc::Global;

fn byte_of(bytes: &[u8], at: usize) -> Result<u8, RecordFault>
    ensures byte { result ≡ field (byte_at bytes.now at) }
    ensures there { OnOk result (at + 1 ≤ length bytes.now) }
{
    if at < bytes.len() {
        Ok(bytes[at])
    } else {
        Err(RecordFault::Short)
    }
}

fn u16_of(bytes: &[u8], at: usize) -> Result<u16, RecordFault>
    requires { at ≤ length bytes.now }
    ensures number { result ≡ field (number_at w16 bytes.now at) }
    ensures there { OnOk result (at + 2 ≤ length bytes.now) }
{
    let (_, rest) = bytes.split_at(at);
    if rest.len() < 2 {
        return Err(RecordFault::Short);
    }
    let (front, _) = rest.split_at(2);
    Ok(u16::from_be_bytes([front[0], front[1]]))
}

fn u32_of(bytes: &[u8], at: usize) -> Result<u32, RecordFault>
    requires { at ≤ length bytes.now }
    ensures number { result ≡ field (number_at w32 bytes.now at) }
    ensures there { OnOk result (at + 4 ≤ length bytes.now) }
{
    let (_, rest) = bytes.split_at(at);
    if rest.len() < 4 {
        return Err(RecordFault::Short);
    }
    let (front, _) = rest.split_at(4);
    Ok(u32::from_be_bytes([front[0], front[1], front[2], front[3]]))
}

fn u64_of(bytes: &[u8], at: usize) -> Result<u64, RecordFault>
    requires { at ≤ length bytes.now }
    ensures number { result ≡ field (number_at w64 bytes.now at) }
    ensures there { OnOk result (at + 8 ≤ length bytes.now) }
{
    let (_, rest) = bytes.split_at(at);
    if rest.len() < 8 {
        return Err(RecordFault::Short);
    }
    let (front, _) = rest.split_at(8);
    Ok(u64::from_be_bytes([
        front[0], front[1], front[2], front[3], front[4], front[5], front[6], front[7],
    ]))
}

#[tactic(auto, unfolding(crate::specs::Reading::flag_at))]
fn flag_of(bytes: &[u8], at: usize) -> Result<bool, RecordFault>
    ensures flag { result ≡ flag_at bytes.now at }
    ensures there { OnOk result (at + 1 ≤ length bytes.now) }
{
    let byte = byte_of(bytes, at)?;
    if 1 < byte {
        return Err(RecordFault::Field(at as u64));
    }
    Ok(byte == 1)
}

/// A number of bands.
#[tactic(auto, unfolding(crate::specs::Reading::count_at))]
fn count_of(bytes: &[u8], at: usize) -> Result<u8, RecordFault>
    ensures count { result ≡ count_at bytes.now at }
    ensures few { IfOk result (λ count. count ≤ 8) }
    ensures there { OnOk result (at + 1 ≤ length bytes.now) }
{
    let count = byte_of(bytes, at)?;
    if count == 0 || 8 < count {
        return Err(RecordFault::Field(at as u64));
    }
    Ok(count)
}

#[tactic(auto, unfolding(crate::specs::Reading::band_at))]
fn band_of(bytes: &[u8], at: usize) -> Result<u8, RecordFault>
    ensures band { result ≡ band_at bytes.now at }
    ensures there { OnOk result (at + 1 ≤ length bytes.now) }
{
    let band = byte_of(bytes, at)?;
    if 7 < band {
        return Err(RecordFault::Field(at as u64));
    }
    Ok(band)
}

/// The number of bands, and the set of each.
#[tactic(auto, unfolding(crate::specs::Reading::bands_at))]
fn bands_of(bytes: &[u8], at: usize) -> Result<Bands, RecordFault>
    ensures bands { result ≡ bands_at bytes.now at }
    ensures there { IfOk result (λ bands. at + 1 + 64 * bands.count ≤ length bytes.now) }
{
    let count = count_of(bytes, at)?;
    let mut sets = [no_items(); 8];
    for band in 0..count {
        sets[band as usize] = set_of(bytes, at + 1 + 64 * band as usize)?;
    }
    Ok(Bands { count, sets })
}

/// A set that isn't empty.
#[tactic(auto, unfolding(crate::specs::Reading::some_set_at))]
fn some_set_of(bytes: &[u8], at: usize) -> Result<ItemSet, RecordFault>
    requires { at ≤ length bytes.now }
    ensures set { result ≡ some_set_at bytes.now at }
    ensures there { OnOk result (at + 64 ≤ length bytes.now) }
{
    let set = set_of(bytes, at)?;
    if !has_items(&set) {
        return Err(RecordFault::Field(at as u64));
    }
    Ok(set)
}

/// The items that the examinee must not get, and the form without them.
#[tactic(auto, unfolding(crate::specs::Reading::list_at))]
fn list_of(bytes: &[u8], at: usize) -> Result<Without, RecordFault>
    requires { at ≤ length bytes.now }
    ensures { result ≡ list_at bytes.now at }
{
    let items = some_set_of(bytes, at)?;
    let form = set_of(bytes, at + 64)?;
    Ok(Without { items, form })
}

fn cause(spent: bool) -> Cause
    ensures { result ≡ cause_of spent }
{
    if spent { Cause::Spent } else { Cause::NoForm }
}

/// The tree, which has so many nodes, and the place after it.
#[tactic(auto, unfolding(crate::specs::Reading::tree_at))]
fn tree_of(alloc: Global, nodes: u16, bytes: &[u8], at: usize) -> Result<(Tree, usize), RecordFault>
    requires behind { 2 ≤ at }
    requires there { at ≤ length bytes.now }
    ensures { Gives Memory (λ x. x) result (tree_at nodes bytes.now at) }
{
    let (_, rest) = bytes.split_at(at);
    let (tree, used) = match proof_tree::decode(alloc, rest) {
        Ok(found) => found,
        Err(TreeFault::Memory) => return Err(RecordFault::Memory),
        Err(fault) => return Err(RecordFault::Tree(fault)),
    };
    if nodes as usize != tree.nodes().len() {
        return Err(RecordFault::Field((at - 2) as u64));
    }
    Ok((tree, at + used))
}

#[tactic(auto, unfolding(crate::specs::Reading::served))]
fn served(alloc: Global, bytes: &[u8]) -> Result<(Record, usize), RecordFault>
    requires { 1 ≤ length bytes.now }
    ensures { Gives Memory (λ x. x) result (served bytes.now) }
{
    let session = u32_of(bytes, 1)?;
    let step = u16_of(bytes, 5)?;
    let item = u16_of(bytes, 7)?;
    let form = set_of(bytes, 9)?;
    let proved = flag_of(bytes, 73)?;
    let nodes = u16_of(bytes, 74)?;
    let (tree, next) = tree_of(alloc, nodes, bytes, 76)?;
    let entry = Entry::Served {
        session,
        step,
        item,
        form,
        proved,
        nodes,
    };
    Ok((
        Record {
            entry,
            tree: Some(tree),
        },
        next,
    ))
}

#[tactic(auto, unfolding(crate::specs::Reading::answered))]
fn answered(bytes: &[u8]) -> Result<(Record, usize), RecordFault>
    requires { 1 ≤ length bytes.now }
    ensures { result ≡ answered bytes.now }
{
    let session = u32_of(bytes, 1)?;
    let step = u16_of(bytes, 5)?;
    let response = byte_of(bytes, 7)?;
    let entry = Entry::Answered {
        session,
        step,
        response,
    };
    Ok((Record { entry, tree: None }, 8))
}

#[tactic(auto, unfolding(crate::specs::Reading::closed))]
fn closed(bytes: &[u8]) -> Result<(Record, usize), RecordFault>
    requires { 1 ≤ length bytes.now }
    ensures { result ≡ closed bytes.now }
{
    let session = u32_of(bytes, 1)?;
    let entry = Entry::Closed { session };
    Ok((Record { entry, tree: None }, 5))
}

/// The kinds that are the same in both versions of the journal.
#[tactic(auto, unfolding(crate::specs::Reading::shared_of_kind))]
fn shared_of_kind(alloc: Global, kind: u8, bytes: &[u8]) -> Result<(Record, usize), RecordFault>
    requires { 1 ≤ length bytes.now }
    ensures { Gives Memory (λ x. x) result (shared_of_kind kind bytes.now) }
{
    match kind {
        3 => served(alloc, bytes),
        4 => answered(bytes),
        5 => closed(bytes),
        _ => Err(RecordFault::Kind(0)),
    }
}

/// The record that ends at a place, where the payload is to end.
fn whole(rec: Record, next: usize, payload: &[u8]) -> Result<Record, RecordFault>
    ensures { result
        ≡ unless (fault_where (nat_lt next (length payload.now)) (Extra next)) (Ok rec) }
{
    if next < payload.len() {
        return Err(RecordFault::Extra(next as u64));
    }
    Ok(rec)
}

#[tactic(auto, unfolding(crate::specs::Reading::started))]
fn started(bytes: &[u8]) -> Result<(Record, usize), RecordFault>
    requires { 1 ≤ length bytes.now }
    ensures { result ≡ started bytes.now }
{
    let session = u32_of(bytes, 1)?;
    let booking = u64_of(bytes, 5)?;
    let eligible = bands_of(bytes, 13)?;
    let next = 14 + 64 * eligible.count as usize;
    let entry = Entry::Started {
        session,
        booking,
        eligible,
        without: None,
    };
    Ok((Record { entry, tree: None }, next))
}

#[tactic(auto, unfolding(crate::specs::Reading::started_with_list))]
fn started_with_list(bytes: &[u8]) -> Result<(Record, usize), RecordFault>
    requires { 1 ≤ length bytes.now }
    ensures { result ≡ started_with_list bytes.now }
{
    let session = u32_of(bytes, 1)?;
    let booking = u64_of(bytes, 5)?;
    let eligible = bands_of(bytes, 13)?;
    let at = 14 + 64 * eligible.count as usize;
    let list = list_of(bytes, at)?;
    let entry = Entry::Started {
        session,
        booking,
        eligible,
        without: Some(list),
    };
    Ok((Record { entry, tree: None }, at + 128))
}

#[tactic(auto, unfolding(crate::specs::Reading::set_aside))]
fn set_aside(alloc: Global, bytes: &[u8]) -> Result<(Record, usize), RecordFault>
    requires { 1 ≤ length bytes.now }
    ensures { Gives Memory (λ x. x) result (set_aside bytes.now) }
{
    let session = u32_of(bytes, 1)?;
    let step = u16_of(bytes, 5)?;
    let band = band_of(bytes, 7)?;
    let spent = flag_of(bytes, 8)?;
    let nodes = u16_of(bytes, 9)?;
    let (tree, next) = tree_of(alloc, nodes, bytes, 11)?;
    let entry = Entry::SetAside {
        session,
        step,
        band,
        cause: cause(spent),
        nodes,
    };
    Ok((
        Record {
            entry,
            tree: Some(tree),
        },
        next,
    ))
}

#[tactic(auto, unfolding(crate::specs::Reading::record_of_kind))]
fn record_of_kind(alloc: Global, kind: u8, bytes: &[u8]) -> Result<(Record, usize), RecordFault>
    requires { 1 ≤ length bytes.now }
    ensures { Gives Memory (λ x. x) result (record_of_kind kind bytes.now) }
{
    match kind {
        6 => started(bytes),
        7 => set_aside(alloc, bytes),
        9 => started_with_list(bytes),
        _ => shared_of_kind(alloc, kind, bytes),
    }
}

#[tactic(auto, unfolding(crate::specs::Reading::record_of, crate::specs::Reading::record_by))]
fn record_of(alloc: Global, payload: &[u8]) -> Result<Record, RecordFault>
    ensures { Gives Memory (λ x. x) result (record_of payload.now) }
{
    let kind = byte_of(payload, 0)?;
    let (rec, next) = record_of_kind(alloc, kind, payload)?;
    whole(rec, next, payload)
}

/// The record that the payload spells, all of its bytes, in the second version of the journal. The
/// payload is the bytes of one record: the kind in a byte, the fields of the entry, and the tree
/// where there is one; numbers are big-endian (docs/FORMATS.md has the table). Fails with the first
/// fault in the order of reading, or out of memory.
pub fn decode(alloc: Global, payload: &[u8]) -> Result<Record, RecordFault>
    // What is read is a record, and the payload its one spelling.
    // Promise: A payload of the second version that is read is the one encoding of the record that
    // is given, a start with a set for each band and its list, and a setting aside with its step
    // and band. What is encoded is read, and each fault comes where reading meets it
    // - by `found`, `only`, `exact`
    ensures found { IfOk result (λ rec. IsRecord rec × (payload.now ≡ payload_of rec)) }
    // What is spelled so is read, unless memory runs out.
    ensures only { (r : Record) → IsRecord r → payload.now ≡ payload_of r
        → Gives Memory (λ x. x) result (Ok r) }
    // Which fault it is, and where.
    ensures exact { Gives Memory (λ x. x) result (record_of payload.now) }
{
    record_of(alloc, payload)
}

/// One eligible set.
fn one_band(eligible: ItemSet) -> Bands
    ensures { result ≡ one_band eligible }
{
    let mut sets = [no_items(); 8];
    sets[0] = eligible;
    Bands { count: 1, sets }
}

#[tactic(auto, unfolding(crate::specs::Reading::old_started))]
fn old_started(bytes: &[u8]) -> Result<(Record, usize), RecordFault>
    requires { 1 ≤ length bytes.now }
    ensures { result ≡ old_started bytes.now }
{
    let session = u32_of(bytes, 1)?;
    let booking = u64_of(bytes, 5)?;
    let eligible = one_band(set_of(bytes, 13)?);
    let entry = Entry::Started {
        session,
        booking,
        eligible,
        without: None,
    };
    Ok((Record { entry, tree: None }, 77))
}

#[tactic(auto, unfolding(crate::specs::Reading::old_set_aside))]
fn old_set_aside(alloc: Global, bytes: &[u8]) -> Result<(Record, usize), RecordFault>
    requires { 1 ≤ length bytes.now }
    ensures { Gives Memory (λ x. x) result (old_set_aside bytes.now) }
{
    let session = u32_of(bytes, 1)?;
    let spent = flag_of(bytes, 5)?;
    let nodes = u16_of(bytes, 6)?;
    let (tree, next) = tree_of(alloc, nodes, bytes, 8)?;
    let entry = Entry::SetAside {
        session,
        step: 0,
        band: 0,
        cause: cause(spent),
        nodes,
    };
    Ok((
        Record {
            entry,
            tree: Some(tree),
        },
        next,
    ))
}

#[tactic(auto, unfolding(crate::specs::Reading::old_record_of_kind))]
fn old_record_of_kind(alloc: Global, kind: u8, bytes: &[u8]) -> Result<(Record, usize), RecordFault>
    requires { 1 ≤ length bytes.now }
    ensures { Gives Memory (λ x. x) result (old_record_of_kind kind bytes.now) }
{
    match kind {
        1 => old_started(bytes),
        2 => old_set_aside(alloc, bytes),
        _ => shared_of_kind(alloc, kind, bytes),
    }
}

#[tactic(auto, unfolding(crate::specs::Reading::old_record_of, crate::specs::Reading::record_by))]
fn old_record_of(alloc: Global, payload: &[u8]) -> Result<Record, RecordFault>
    ensures { Gives Memory (λ x. x) result (old_record_of payload.now) }
{
    let kind = byte_of(payload, 0)?;
    let (rec, next) = old_record_of_kind(alloc, kind, payload)?;
    whole(rec, next, payload)
}

/// The record that the payload spells, all of its bytes, in the first version of the journal: a
/// start has one eligible set, and a setting aside has step 0 and band 0. The payload is the bytes
/// of one record: the kind in a byte, the fields of the entry, and the tree where there is one;
/// numbers are big-endian (docs/FORMATS.md has the table). Fails with the first fault in the order
/// of reading, or out of memory.
pub fn decode_old(alloc: Global, payload: &[u8]) -> Result<Record, RecordFault>
    // What is read is a record of the first version, and the payload its one spelling.
    // Promise: A payload of the first version that is read is the one encoding of the record that
    // is given. The record has an entry. It has a proof tree, with the number of its nodes, exactly
    // where an item was served or eligibility was set aside
    ensures found { IfOk result (λ rec. IsOldRecord rec × (payload.now ≡ old_payload_of 0 rec)) }
    // What is spelled so is read, unless memory runs out.
    // Promise: What is encoded is read, unless memory runs out
    ensures only { (r : Record) → IsOldRecord r → payload.now ≡ old_payload_of 0 r
        → Gives Memory (λ x. x) result (Ok r) }
    // Which fault it is, and where.
    // Promise: Each fault of a payload comes exactly where reading from left to right meets it,
    // with the place of the field, or the tree's own fault
    ensures exact { Gives Memory (λ x. x) result (old_record_of payload.now) }
{
    old_record_of(alloc, payload)
}
