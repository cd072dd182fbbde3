//! What ends a server, as its objects share it.

use std::alloc::{AllocError, Global};
use std::os::fd::AsRawFd;
use std::os::unix::net::UnixListener;
use std::sync::Arc;
use std::sync::atomic::{AtomicBool, Ordering};

/// Whether the server is to end. The journal's file sets it where the journal is lost, and each
/// door that sees it gives no more links. And whether an operator asks for the end, by a connection
/// to a socket, which is never accepted: each door that sees it gives the links of the messages in
/// hand, and no more. Once set, each stays so.
#[derive(Drop)]
pub struct Closing {
    flag: Arc<AtomicBool, Global>,
    asked: Arc<AtomicBool, Global>,
    /// Where an operator asks, if that is possible.
    operator: Option<Arc<UnixListener, Global>>,
}

impl Closing {
    /// Nothing that ends a server has happened. It is asked to end at this socket, if there is one.
    /// An error where there is no room for it.
    // Promise: What ends a server is shared by the journal's file and the doors. Nothing is stated
    // of its values, since another thread may set them
    // - of `Closing::new`, `Closing::share`, `Closing::set`, `Closing::is_set`,
    //   `Closing::has_operator`
    // - by none
    pub fn new(alloc: Global, operator: Option<UnixListener>) -> Result<Closing, AllocError> {
        Ok(Closing {
            flag: Arc::new(alloc, AtomicBool::new(false))?,
            asked: Arc::new(alloc, AtomicBool::new(false))?,
            operator: match operator {
                Some(operator) => Some(Arc::new(alloc, operator)?),
                None => None,
            },
        })
    }

    /// The same for one object more. An error where it has too many owners.
    pub fn share(&self) -> Result<Closing, AllocError> {
        Ok(Closing {
            flag: Arc::try_clone(&self.flag)?,
            asked: Arc::try_clone(&self.asked)?,
            operator: match &self.operator {
                Some(operator) => Some(Arc::try_clone(operator)?),
                None => None,
            },
        })
    }

    /// The journal is lost.
    pub fn set(&self) {
        self.flag.store(true, Ordering::SeqCst);
    }

    /// Whether the journal is lost.
    pub fn is_set(&self) -> bool {
        self.flag.load(Ordering::SeqCst)
    }

    /// Whether an operator can ask for the end.
    pub fn has_operator(&self) -> bool {
        self.operator.is_some()
    }

    /// The number of the socket's file by which an operator asks for the end, if there is one.
    pub(crate) fn operator(&self) -> Option<i32> {
        self.operator.as_ref().map(|operator| operator.as_raw_fd())
    }

    /// An operator asks for the end. Whether nobody did before.
    pub(crate) fn ask(&self) -> bool {
        !self.asked.swap(true, Ordering::SeqCst)
    }

    /// Whether an operator asks for the end.
    pub(crate) fn is_asked(&self) -> bool {
        self.asked.load(Ordering::SeqCst)
    }
}

/// Whether there is a flag, and the journal is lost.
pub(crate) fn is_closing(closing: Option<&Closing>) -> bool {
    closing.is_some_and(|closing| closing.is_set())
}

/// Whether there is a flag, and an operator asks for the end.
pub(crate) fn is_asked(closing: Option<&Closing>) -> bool {
    closing.is_some_and(|closing| closing.is_asked())
}
