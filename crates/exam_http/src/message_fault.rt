//! Why a message asks for nothing.

/// Why a message asks for nothing that the examination does.
#[derive(Clone, Copy, Debug, PartialEq, Eq)]
pub enum MessageFault {
    /// Its path is no route.
    NoRoute,
    /// The route has another method.
    NoMethod,
    /// Its body is no JSON.
    BadJson,
    /// A number of the body is missing, isn't written in digits alone, or is out of range; or its
    /// list of items is no array of such numbers.
    BadBody,
    /// The server has a token, and the message does not bear it.
    Unauthorized,
}
