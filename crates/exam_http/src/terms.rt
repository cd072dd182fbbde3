//! By what a server answers messages.

use crate::route::RouteKind;
use matchit::Router;
use std::sync::atomic::AtomicU32;

/// By what a server answers messages.
#[derive(Drop)]
pub struct Terms<'s> {
    /// Its routes.
    pub router: Router<RouteKind>,
    /// The token that messages have to bear, if it has one.
    pub token: Option<&'s [u8]>,
    /// How many of its workers serve a connection.
    pub busy: &'s AtomicU32,
}
