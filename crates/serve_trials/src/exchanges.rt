//! Messages and the responses to them.

use crate::responses::{
    ANSWERED, BAD_BODY, BAD_JSON, BAD_RESPONSE, CLOSED, CREATED, FOUND, IS_CLOSED, LAST_CLOSED,
    LISTED, LISTED_FOUND, NO_COUNTS, NO_FORM, NO_ITEM, NO_LENGTH, NO_METHOD, NO_SESSION,
    OTHER_BOOKING, OTHER_LIST, TOO_LONG,
};
use exam_http::Ended;
use std::alloc::Global;
use std::test::Fail;
use wire_http::WireFault;

/// The start of a session.
pub(crate) const START: &str =
    "POST /sessions HTTP/1.1\r\nContent-Length: 14\r\n\r\n{\"booking\":70}";

/// A message that ends the connection, since its version is 1.0.
pub(crate) const LAST: &str = "GET /exposure HTTP/1.0\r\n\r\n";

/// The messages of one connection, and how the connection ends. A row is a message, the number of
/// spaces after it, and its response, which is empty if it gets none.
pub(crate) struct Exchange {
    messages: &'static [(&'static str, usize, &'static str)],
    ended: Ended,
}

/// The first message starts a session. The next two find it, the second of them with the longest
/// body. Four messages are refused. The last has no length, and ends the connection.
pub(crate) const EIGHT_MESSAGES: Exchange = Exchange {
    messages: &[
        (START, 0, CREATED),
        (START, 0, FOUND),
        (
            "POST /sessions HTTP/1.1\r\nContent-Length: 4096\r\n\r\n{\"booking\":70}",
            4082,
            FOUND,
        ),
        ("GET /sessions/9 HTTP/1.1\r\n\r\n", 0, NO_SESSION),
        ("DELETE /sessions/0 HTTP/1.1\r\n\r\n", 0, NO_METHOD),
        (
            "POST /sessions/0/answers HTTP/1.1\r\n\
            Content-Length: 23\r\n\r\n{\"step\":0,\"response\":2}",
            0,
            BAD_RESPONSE,
        ),
        (
            "POST /sessions HTTP/1.1\r\nContent-Length: 1\r\n\r\n{",
            0,
            BAD_JSON,
        ),
        ("POST /sessions HTTP/1.1\r\n\r\n", 0, NO_LENGTH),
    ],
    ended: Ended::BadInput(WireFault::NoLength),
};

/// A body of 4,097 bytes.
pub(crate) const A_BODY_TOO_LONG: Exchange = Exchange {
    messages: &[
        (START, 0, CREATED),
        (
            "POST /sessions HTTP/1.1\r\nContent-Length: 4097\r\n\r\n{\"booking\":70}",
            4083,
            TOO_LONG,
        ),
    ],
    ended: Ended::BadInput(WireFault::BodyTooLong),
};

/// A head that is cut off gets no response.
pub(crate) const A_HEAD_CUT_OFF: Exchange = Exchange {
    messages: &[(START, 0, CREATED), ("GET /exposure HTTP/1.1\r\n", 0, "")],
    ended: Ended::BadInput(WireFault::Cut),
};

/// A message of version 1.0 is answered, and what follows it is not read.
pub(crate) const A_MESSAGE_OF_VERSION_1_0: Exchange = Exchange {
    messages: &[
        (LAST, 0, NO_COUNTS),
        ("GET /exposure HTTP/1.1\r\n\r\n", 0, ""),
    ],
    ended: Ended::Done,
};

/// A session with a list, the ways to ask for it again, each refusal of a list but one, and bodies
/// that have no list: of two members the last counts, and a misspelt one is ignored.
pub(crate) const LISTS: Exchange = Exchange {
    messages: &[
        (START, 0, CREATED),
        (
            "POST /sessions HTTP/1.1\r\nContent-Length: 28\r\n\r\n{\"booking\":71,\"without\":[2]}",
            0,
            LISTED,
        ),
        (
            "POST /sessions HTTP/1.1\r\nContent-Length: 30\r\n\r\n{\"without\":[2,2],\"booking\":71}",
            0,
            LISTED_FOUND,
        ),
        (
            "POST /sessions HTTP/1.1\r\nContent-Length: 28\r\n\r\n{\"booking\":71,\"without\":[1]}",
            0,
            OTHER_LIST,
        ),
        (
            "POST /sessions HTTP/1.1\r\nContent-Length: 27\r\n\r\n{\"booking\":71,\"without\":[]}",
            0,
            LISTED_FOUND,
        ),
        (
            "POST /sessions HTTP/1.1\r\nContent-Length: 43\r\n\r\n{\"booking\":71,\"without\":null,\"without\":[2]}",
            0,
            LISTED_FOUND,
        ),
        (
            "POST /sessions HTTP/1.1\r\nContent-Length: 30\r\n\r\n{\"booking\":72,\"without\":[1,0]}",
            0,
            NO_FORM,
        ),
        (
            "POST /sessions HTTP/1.1\r\nContent-Length: 30\r\n\r\n{\"booking\":72,\"without\":[0,6]}",
            0,
            NO_ITEM,
        ),
        (
            "POST /sessions HTTP/1.1\r\nContent-Length: 43\r\n\r\n{\"booking\":72,\"without\":[2],\"without\":null}",
            0,
            BAD_BODY,
        ),
        (
            "POST /sessions HTTP/1.1\r\nContent-Length: 30\r\n\r\n{\"booking\":72,\"without\":[2.0]}",
            0,
            BAD_BODY,
        ),
        (
            "POST /sessions HTTP/1.1\r\nContent-Length: 30\r\n\r\n{\"booking\":72,\"without\":[512]}",
            0,
            BAD_BODY,
        ),
        (
            "POST /sessions HTTP/1.1\r\nContent-Length: 28\r\n\r\n{\"booking\":70,\"Without\":[2]}",
            0,
            FOUND,
        ),
        (LAST, 0, NO_COUNTS),
    ],
    ended: Ended::Done,
};

/// Answers and closings that name a booking. A faulty booking is refused, and so is another one,
/// before the step and the response are looked at; neither does anything. The right one is as none.
/// A body that is no JSON, or no object, closes without a booking.
pub(crate) const BOOKINGS: Exchange = Exchange {
    messages: &[
        (START, 0, CREATED),
        (
            "POST /sessions/0/answers HTTP/1.1\r\nContent-Length: 38\r\n\r\n{\"step\":0,\"response\":1,\"booking\":null}",
            0,
            BAD_BODY,
        ),
        (
            "POST /sessions/0/answers HTTP/1.1\r\nContent-Length: 37\r\n\r\n{\"step\":0,\"response\":1,\"booking\":1.0}",
            0,
            BAD_BODY,
        ),
        (
            "POST /sessions/0/answers HTTP/1.1\r\nContent-Length: 38\r\n\r\n{\"step\":0,\"response\":1,\"booking\":\"70\"}",
            0,
            BAD_BODY,
        ),
        (
            "POST /sessions/0/answers HTTP/1.1\r\nContent-Length: 36\r\n\r\n{\"step\":0,\"response\":1,\"booking\":-1}",
            0,
            BAD_BODY,
        ),
        (
            "POST /sessions/0/answers HTTP/1.1\r\nContent-Length: 54\r\n\r\n{\"step\":0,\"response\":1,\"booking\":18446744073709551616}",
            0,
            BAD_BODY,
        ),
        (
            "POST /sessions/0/close HTTP/1.1\r\nContent-Length: 16\r\n\r\n{\"booking\":null}",
            0,
            BAD_BODY,
        ),
        (
            "POST /sessions/0/close HTTP/1.1\r\nContent-Length: 16\r\n\r\n{\"booking\":[70]}",
            0,
            BAD_BODY,
        ),
        (
            "POST /sessions/0/answers HTTP/1.1\r\nContent-Length: 36\r\n\r\n{\"step\":0,\"response\":1,\"booking\":71}",
            0,
            OTHER_BOOKING,
        ),
        (
            "POST /sessions/0/answers HTTP/1.1\r\nContent-Length: 36\r\n\r\n{\"step\":9,\"response\":9,\"booking\":71}",
            0,
            OTHER_BOOKING,
        ),
        (
            "POST /sessions/0/answers HTTP/1.1\r\nContent-Length: 54\r\n\r\n{\"step\":0,\"response\":1,\"booking\":18446744073709551615}",
            0,
            OTHER_BOOKING,
        ),
        (
            "POST /sessions/0/close HTTP/1.1\r\nContent-Length: 14\r\n\r\n{\"booking\":71}",
            0,
            OTHER_BOOKING,
        ),
        (
            "POST /sessions/9/answers HTTP/1.1\r\nContent-Length: 36\r\n\r\n{\"step\":0,\"response\":1,\"booking\":71}",
            0,
            NO_SESSION,
        ),
        (
            "POST /sessions/9/close HTTP/1.1\r\nContent-Length: 14\r\n\r\n{\"booking\":71}",
            0,
            NO_SESSION,
        ),
        ("GET /sessions/0 HTTP/1.1\r\n\r\n", 0, FOUND),
        (
            "POST /sessions/0/answers HTTP/1.1\r\nContent-Length: 49\r\n\r\n{\"booking\":71,\"step\":0,\"booking\":70,\"response\":1}",
            0,
            ANSWERED,
        ),
        (
            "POST /sessions/0/answers HTTP/1.1\r\nContent-Length: 36\r\n\r\n{\"step\":0,\"response\":0,\"booking\":71}",
            0,
            OTHER_BOOKING,
        ),
        (
            "POST /sessions/0/answers HTTP/1.1\r\nContent-Length: 36\r\n\r\n{\"step\":0,\"response\":1,\"booking\":70}",
            0,
            ANSWERED,
        ),
        (
            "POST /sessions/0/answers HTTP/1.1\r\nContent-Length: 23\r\n\r\n{\"step\":0,\"response\":1}",
            0,
            ANSWERED,
        ),
        (
            "POST /sessions/0/close HTTP/1.1\r\nContent-Length: 14\r\n\r\n{\"booking\":70}",
            0,
            CLOSED,
        ),
        (
            "POST /sessions/0/close HTTP/1.1\r\nContent-Length: 14\r\n\r\n{\"booking\":71}",
            0,
            OTHER_BOOKING,
        ),
        (
            "POST /sessions/0/close HTTP/1.1\r\nContent-Length: 14\r\n\r\n{\"booking\":70}",
            0,
            IS_CLOSED,
        ),
        (
            "POST /sessions/0/close HTTP/1.1\r\nContent-Length: 13\r\n\r\n{\"booking\":71",
            0,
            IS_CLOSED,
        ),
        (
            "POST /sessions/0/close HTTP/1.1\r\nContent-Length: 4\r\n\r\n[71]",
            0,
            IS_CLOSED,
        ),
        ("GET /sessions/0 HTTP/1.0\r\n\r\n", 0, LAST_CLOSED),
    ],
    ended: Ended::Done,
};

/// What is sent on one connection, what its client gets, and how it ends.
#[derive(Drop)]
pub(crate) struct Whole {
    pub(crate) sent: String,
    pub(crate) text: String,
    pub(crate) ended: Ended,
}

fn push_message(sent: &mut String, message: &str, spaces: usize) -> Result<(), Fail> {
    sent.push_str(message)?;
    for _ in 0..spaces {
        sent.push_str(" ")?;
    }
    Ok(())
}

// The messages, one after another.
fn sent_in(alloc: Global, exchange: &Exchange) -> Result<String, Fail> {
    let mut sent = String::new(alloc);
    for (message, spaces, _) in exchange.messages {
        push_message(&mut sent, message, *spaces)?;
    }
    Ok(sent)
}

// The responses, one after another.
fn text_of(alloc: Global, exchange: &Exchange) -> Result<String, Fail> {
    let mut text = String::new(alloc);
    for (_, _, response) in exchange.messages {
        text.push_str(response)?;
    }
    Ok(text)
}

/// What is sent, the text of all responses, and how the connection ends.
pub(crate) fn whole_of(alloc: Global, exchange: &Exchange) -> Result<Whole, Fail> {
    let sent = sent_in(alloc, exchange)?;
    Ok(Whole {
        text: text_of(alloc, exchange)?,
        sent,
        ended: exchange.ended,
    })
}
