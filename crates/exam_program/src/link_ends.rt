//! How the work of a follower and of a shipper at a door ends: what is printed last, and the
//! status.

ghost use Rattle.std.specs.Prelude.{◌≡◌, ◌≢◌, ℕ, ◌≤◌, IfOk, string_bytes};
ghost use Rattle.exam_edge.specs.Faults.{Rose};
ghost use Rattle.exam_lines.specs.Texts.{summary_text};
ghost use Rattle.exam_program.specs.Links.{following_text, IsLastOfFollow, IsLastOfLink, IsLastOfShip, offer_refused, record_lost, shipped_text};
ghost use Rattle.exam_program.specs.Runs.{EndsWith};
ghost use Rattle.record_doors.specs.declared.door_end.DoorEnd.TheVariants.{Ended};
ghost use Rattle.record_links.specs.declared.followed.Followed.TheVariants.{Done};

use crate::lines::journal_limit;
use crate::report::{print, print_text};
use exam_edge::Sink;
use exam_lines::summary_line;
use history_model::Summary;
use record_doors::DoorEnd;
use record_links::Followed;
use std::alloc::{AllocError, Global};

/// The record of this number was offered, and may not follow.
#[tactic(auto, unfolding(crate::specs::Links::offer_refused))]
fn offer_refused(alloc: Global, number: u64) -> Result<String, AllocError>
    ensures { IfOk result (λ line. string_bytes line ≡ offer_refused number) }
{
    format!(in alloc; "offer {number} refused\n")
}

/// The record of this number is not in the journal any more.
#[tactic(auto, unfolding(crate::specs::Links::record_lost))]
fn record_lost(alloc: Global, number: u64) -> Result<String, AllocError>
    ensures { IfOk result (λ line. string_bytes line ≡ record_lost number) }
{
    format!(in alloc; "journal: record {number} lost\n")
}

/// The number of records that were shipped.
#[tactic(auto, unfolding(crate::specs::Links::shipped_text))]
fn shipped_line(alloc: Global, count: u64) -> Result<String, AllocError>
    ensures { IfOk result (λ line. string_bytes line ≡ shipped_text count) }
{
    format!(in alloc; "shipped {count}\n")
}

/// The number of records that a follower has, and the numbers of its history.
#[tactic(auto, unfolding(crate::specs::Links::following_text))]
fn following_lines(alloc: Global, count: u64, summary: &Summary) -> Result<String, AllocError>
    ensures { IfOk result
        (λ line. string_bytes line ≡ following_text count (summary_text summary.now)) }
{
    let mut lines = format!(in alloc; "following {count}\n")?;
    lines.push_str(summary_line(alloc, summary)?.as_str())?;
    Ok(lines)
}

/// Prints how a link ended that did not end well, and gives the status to end with. The journal has
/// at most so many bytes.
#[tactic(auto, unfolding(crate::specs::Links::link_failed, crate::specs::Links::peer_message, crate::specs::Texts::disk_failed, exam_text::specs::Texts::no_memory))]
fn print_link_end<O: Sink>(alloc: Global, out: &mut O, most: u64, followed: Followed) -> u8
    requires { (count : ℕ) → followed ≢ Done count }
    ensures printed { EndsWith (IsLastOfLink most followed) (O.tells out.old) (O.written out.old)
        (O.written out.new) result }
    ensures sink { result ≡ 8 → Rose (O.faults out.old) (O.faults out.new) }
    ensures grows { O.faults out.old ≤ O.faults out.new }
    ensures tells { O.tells out.new ≡ O.tells out.old }
{
    match followed {
        Followed::Done(_) => unreachable!(),
        Followed::Link => print(out, b"link failed\n", 19),
        Followed::Peer(_) => print(out, b"peer message\n", 20),
        Followed::Offer(number) => print_text(out, offer_refused(alloc, number), 21),
        Followed::Full(size) => print_text(out, journal_limit(alloc, size, most), 13),
        Followed::Lost(number) => print_text(out, record_lost(alloc, number), 6),
        Followed::Disk => print(out, b"disk failed\n", 9),
        Followed::Memory => print(out, b"no memory\n", 10),
    }
}

/// Prints how the work of a follower at its door ended, and gives the status to end with: the
/// number of its records and the numbers of the history, if each link ended well.
#[tactic(auto, unfolding(crate::specs::Texts::door_failed))]
pub(crate) fn end_following<O: Sink>(
    alloc: Global,
    out: &mut O,
    most: u64,
    end: DoorEnd,
    count: u64,
    summary: &Summary,
) -> u8
    requires { (n : ℕ) → end ≢ Ended (Done n) }
    ensures printed { EndsWith (IsLastOfFollow most count summary.now end) (O.tells out.old)
        (O.written out.old) (O.written out.new) result }
    ensures sink { result ≡ 8 → Rose (O.faults out.old) (O.faults out.new) }
    ensures grows { O.faults out.old ≤ O.faults out.new }
    ensures tells { O.tells out.new ≡ O.tells out.old }
{
    match end {
        DoorEnd::NoLink => print_text(out, following_lines(alloc, count, summary), 0),
        DoorEnd::DoorFailed => print(out, b"door failed\n", 14),
        DoorEnd::Ended(followed) => print_link_end(alloc, out, most, followed),
    }
}

/// Prints how the work of a shipper at its door ended, and gives the status to end with: the number
/// of records, if the follower has all of them.
#[tactic(auto, unfolding(crate::specs::Texts::door_failed, crate::specs::Links::no_link))]
pub(crate) fn end_shipping<O: Sink>(alloc: Global, out: &mut O, most: u64, end: DoorEnd) -> u8
    ensures printed { EndsWith (IsLastOfShip most end) (O.tells out.old) (O.written out.old)
        (O.written out.new) result }
    ensures sink { result ≡ 8 → Rose (O.faults out.old) (O.faults out.new) }
    ensures grows { O.faults out.old ≤ O.faults out.new }
    ensures tells { O.tells out.new ≡ O.tells out.old }
{
    match end {
        DoorEnd::NoLink => print(out, b"no link\n", 22),
        DoorEnd::DoorFailed => print(out, b"door failed\n", 14),
        DoorEnd::Ended(Followed::Done(count)) => print_text(out, shipped_line(alloc, count), 0),
        DoorEnd::Ended(other) => print_link_end(alloc, out, most, other),
    }
}
