//! The words for refusals.

ghost use Rattle.std.specs.Prelude.{◌≡◌};
ghost use Rattle.history_model.specs.Words.{refusal_word};

use crate::refusal::Refusal;

/// The word for a refusal, in replies of each kind: lowercase letters and dashes. A reply has the
/// value of the refusal beside it.
pub fn refusal_word(refusal: Refusal) -> &'static str
    // Promise: A refusal has one word in replies of each kind
    // - by the clause (`refusal_word`)
    ensures { result.now ≡ refusal_word refusal }
{
    match refusal {
        Refusal::NoSession(_) => "no-session",
        Refusal::OtherBooking => "other-booking",
        Refusal::WrongStep(_) => "wrong-step",
        Refusal::Other(_) => "other",
        Refusal::BadResponse(_) => "bad-response",
        Refusal::IsClosed(_) => "is-closed",
        Refusal::Stale(_, _) => "stale",
        Refusal::OtherList(_) => "other-list",
        Refusal::NoItem(_) => "no-item",
        Refusal::SessionsFull(_) => "sessions-full",
        Refusal::NoForm => "no-form",
        Refusal::NoneFound => "none-found",
        Refusal::JournalFull(_) => "journal-full",
        Refusal::Disk => "disk",
        Refusal::Memory => "memory",
    }
}
