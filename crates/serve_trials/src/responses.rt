//! Responses, which are written out from the rules.

/// Session 0 is started, and waits for the answer to its first item.
pub(crate) const CREATED: &str = "HTTP/1.1 201 Created\r\n\
    Content-Type: application/json\r\nContent-Length: 63\r\n\r\n\
    {\"item\":2,\"proved\":true,\"session\":0,\"state\":\"waiting\",\"step\":0}";

/// The same response for session 1.
pub(crate) const SECOND_CREATED: &str = "HTTP/1.1 201 Created\r\n\
    Content-Type: application/json\r\nContent-Length: 63\r\n\r\n\
    {\"item\":2,\"proved\":true,\"session\":1,\"state\":\"waiting\",\"step\":0}";

/// Session 0 was started before.
pub(crate) const FOUND: &str = "HTTP/1.1 200 OK\r\n\
    Content-Type: application/json\r\nContent-Length: 63\r\n\r\n\
    {\"item\":2,\"proved\":true,\"session\":0,\"state\":\"waiting\",\"step\":0}";

/// The answer to the first item of session 0 is recorded, and it waits for that to its second.
pub(crate) const ANSWERED: &str = "HTTP/1.1 200 OK\r\n\
    Content-Type: application/json\r\nContent-Length: 63\r\n\r\n\
    {\"item\":4,\"proved\":true,\"session\":0,\"state\":\"waiting\",\"step\":1}";

/// Session 0 is closed.
pub(crate) const CLOSED: &str = "HTTP/1.1 200 OK\r\n\
    Content-Type: application/json\r\nContent-Length: 30\r\n\r\n\
    {\"session\":0,\"state\":\"closed\"}";

/// Session 1 is started without item 2: the best form is then {1, 3, 5}, and item 1 its best item.
pub(crate) const LISTED: &str = "HTTP/1.1 201 Created\r\n\
    Content-Type: application/json\r\nContent-Length: 63\r\n\r\n\
    {\"item\":1,\"proved\":true,\"session\":1,\"state\":\"waiting\",\"step\":0}";

/// It was started before.
pub(crate) const LISTED_FOUND: &str = "HTTP/1.1 200 OK\r\n\
    Content-Type: application/json\r\nContent-Length: 63\r\n\r\n\
    {\"item\":1,\"proved\":true,\"session\":1,\"state\":\"waiting\",\"step\":0}";

/// Session 1 has another list.
pub(crate) const OTHER_LIST: &str = "HTTP/1.1 409 Conflict\r\n\
    Content-Type: application/json\r\nContent-Length: 32\r\n\r\n\
    {\"error\":\"other-list\",\"value\":1}";

/// The session is of another booking.
pub(crate) const OTHER_BOOKING: &str = "HTTP/1.1 409 Conflict\r\n\
    Content-Type: application/json\r\nContent-Length: 25\r\n\r\n\
    {\"error\":\"other-booking\"}";

/// The session was closed before.
pub(crate) const IS_CLOSED: &str = "HTTP/1.1 409 Conflict\r\n\
    Content-Type: application/json\r\nContent-Length: 38\r\n\r\n\
    {\"error\":\"is-closed\",\"value\":\"closed\"}";

/// The bank has six items.
pub(crate) const NO_ITEM: &str = "HTTP/1.1 422 Unprocessable Entity\r\n\
    Content-Type: application/json\r\nContent-Length: 29\r\n\r\n\
    {\"error\":\"no-item\",\"value\":6}";

/// Each form has the item 0 or the item 1.
pub(crate) const NO_FORM: &str = "HTTP/1.1 422 Unprocessable Entity\r\n\
    Content-Type: application/json\r\nContent-Length: 19\r\n\r\n\
    {\"error\":\"no-form\"}";

/// The session does not exist. The office has one session.
pub(crate) const NO_SESSION: &str = "HTTP/1.1 404 Not Found\r\n\
    Content-Type: application/json\r\nContent-Length: 32\r\n\r\n\
    {\"error\":\"no-session\",\"value\":1}";

pub(crate) const NO_ROUTE: &str = "HTTP/1.1 404 Not Found\r\n\
    Content-Type: application/json\r\nContent-Length: 20\r\n\r\n\
    {\"error\":\"no-route\"}";

pub(crate) const NO_METHOD: &str = "HTTP/1.1 405 Method Not Allowed\r\n\
    Content-Type: application/json\r\nContent-Length: 21\r\n\r\n\
    {\"error\":\"no-method\"}";

/// The message does not bear the token.
pub(crate) const UNAUTHORIZED: &str = "HTTP/1.1 401 Unauthorized\r\n\
    WWW-Authenticate: Bearer\r\n\
    Content-Type: application/json\r\nContent-Length: 24\r\n\r\n\
    {\"error\":\"unauthorized\"}";

/// One worker serves this connection, and the journal is a header of eight bytes and a gate: its
/// limit leaves 67,108,864 - 9 bytes.
pub(crate) const HEALTHY: &str = "HTTP/1.1 200 OK\r\n\
    Content-Type: application/json\r\nContent-Length: 47\r\n\r\n\
    {\"busy\":1,\"entries\":0,\"open\":0,\"room\":67108855}";

/// A call of the disk failed.
pub(crate) const DISK: &str = "HTTP/1.1 503 Service Unavailable\r\n\
    Content-Type: application/json\r\nContent-Length: 16\r\n\r\n\
    {\"error\":\"disk\"}";

/// The item has two responses.
pub(crate) const BAD_RESPONSE: &str = "HTTP/1.1 422 Unprocessable Entity\r\n\
    Content-Type: application/json\r\nContent-Length: 34\r\n\r\n\
    {\"error\":\"bad-response\",\"value\":2}";

pub(crate) const BAD_BODY: &str = "HTTP/1.1 422 Unprocessable Entity\r\n\
    Content-Type: application/json\r\nContent-Length: 20\r\n\r\n\
    {\"error\":\"bad-body\"}";

pub(crate) const BAD_JSON: &str = "HTTP/1.1 400 Bad Request\r\n\
    Content-Type: application/json\r\nContent-Length: 20\r\n\r\n\
    {\"error\":\"bad-json\"}";

/// The connection ends after this response and after each one below.
pub(crate) const BAD_HEAD: &str = "HTTP/1.1 400 Bad Request\r\n\
    Content-Type: application/json\r\nContent-Length: 20\r\nConnection: close\r\n\r\n\
    {\"error\":\"bad-head\"}";

pub(crate) const NO_LENGTH: &str = "HTTP/1.1 411 Length Required\r\n\
    Content-Type: application/json\r\nContent-Length: 21\r\nConnection: close\r\n\r\n\
    {\"error\":\"no-length\"}";

pub(crate) const TOO_LONG: &str = "HTTP/1.1 413 Payload Too Large\r\n\
    Content-Type: application/json\r\nContent-Length: 20\r\nConnection: close\r\n\r\n\
    {\"error\":\"too-long\"}";

/// Session 0 is closed.
pub(crate) const LAST_CLOSED: &str = "HTTP/1.1 200 OK\r\n\
    Content-Type: application/json\r\nContent-Length: 30\r\nConnection: close\r\n\r\n\
    {\"session\":0,\"state\":\"closed\"}";

/// The counts of bank A before a session is finished.
pub(crate) const NO_COUNTS: &str = "HTTP/1.1 200 OK\r\n\
    Content-Type: application/json\r\nContent-Length: 59\r\nConnection: close\r\n\r\n\
    {\"finished\":0,\"rows\":[[0,0],[0,0],[0,0],[0,0],[0,0],[0,0]]}";
