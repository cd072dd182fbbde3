//! The statuses of responses, and the names of errors.
ghost use Rattle.std.specs.Prelude.{◌≡◌};
ghost use Rattle.http.specs.StatusCode.{IsStatusCode};
ghost use Rattle.exam_http.specs.Replies.{refusal_status, reply_status, fault_status, fault_name};

use crate::MessageFault;
use history_model::{Refusal, Reply};

fn refusal_status(refusal: Refusal) -> u16
    ensures value { result ≡ refusal_status refusal }
    ensures valid { IsStatusCode result }
{
    match refusal {
        Refusal::NoSession(_) => 404,
        Refusal::WrongStep(_) | Refusal::Other(_) | Refusal::IsClosed(_) | Refusal::Stale(_, _) =>
            409,
        Refusal::OtherList(_) | Refusal::OtherBooking => 409,
        Refusal::BadResponse(_) | Refusal::NoItem(_) | Refusal::NoForm | Refusal::NoneFound => 422,
        Refusal::SessionsFull(_) | Refusal::JournalFull(_) => 507,
        Refusal::Disk => 503,
        Refusal::Memory => 500,
    }
}

/// The status of a reply.
pub(crate) fn reply_status(reply: &Reply) -> u16
    ensures value { result ≡ reply_status reply.now }
    ensures valid { IsStatusCode result }
{
    match reply {
        Reply::At { fresh: true, .. } => 201,
        Reply::At { fresh: false, .. } => 200,
        Reply::Exposure(_) => 200,
        Reply::Refused(refusal) => refusal_status(*refusal),
    }
}

/// The status of the response to a message that asks for nothing.
pub(crate) fn fault_status(fault: MessageFault) -> u16
    ensures value { result ≡ fault_status fault }
    ensures valid { IsStatusCode result }
{
    match fault {
        MessageFault::NoRoute => 404,
        MessageFault::NoMethod => 405,
        MessageFault::BadJson => 400,
        MessageFault::BadBody => 422,
        MessageFault::Unauthorized => 401,
    }
}

/// The name of its error.
pub(crate) fn fault_name(fault: MessageFault) -> &'static str
    ensures { result.now ≡ fault_name fault }
{
    match fault {
        MessageFault::NoRoute => "no-route",
        MessageFault::NoMethod => "no-method",
        MessageFault::BadJson => "bad-json",
        MessageFault::BadBody => "bad-body",
        MessageFault::Unauthorized => "unauthorized",
    }
}
