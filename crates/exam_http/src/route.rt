//! Routes.
ghost use Rattle.std.specs.Prelude.{◌≡◌, ◌≢◌, ◌≤◌, ◌++◌, ℕ, [], IfOk, OnOk, IfSome, IfNone, codes, decimal};
ghost use Rattle.exam_http.specs.Paths.{Names, IsRoute, path_of, method_of};
ghost use Rattle.exam_http.specs.Table.{table, kind_of};

use exam_text::number;
use matchit::{InsertError, Router};
use std::alloc::Global;

/// What a path names. A number is that of a session.
#[derive(Clone, Copy, Debug, PartialEq, Eq)]
pub enum Route {
    Sessions,
    Session(u32),
    Answers(u32),
    Close(u32),
    Exposure,
    Health,
}

/// A route without its session's number: what the router finds.
#[derive(Clone, Copy, Debug, PartialEq, Eq)]
pub enum RouteKind {
    Sessions,
    Session,
    Answers,
    Close,
    Exposure,
    Health,
}

/// Adds the six routes to a router that has none.
fn add_routes(router: &mut Router<RouteKind>) -> Result<(), InsertError>
    requires { router.old ≡ [] }
    ensures { OnOk result (router.new ≡ table) }
{
    router.insert("/sessions", RouteKind::Sessions)?;
    router.insert("/sessions/{id}", RouteKind::Session)?;
    router.insert("/sessions/{id}/answers", RouteKind::Answers)?;
    router.insert("/sessions/{id}/close", RouteKind::Close)?;
    router.insert("/exposure", RouteKind::Exposure)?;
    router.insert("/health", RouteKind::Health)?;
    Ok(())
}

/// The router of the six routes.
pub(crate) fn router(alloc: Global) -> Result<Router<RouteKind>, InsertError>
    ensures { IfOk result (λ router. router ≡ table) }
{
    let mut router = Router::new(alloc);
    add_routes(&mut router)?;
    Ok(router)
}

fn session_number(text: &[u8]) -> Option<u32>
    ensures some { IfSome result (λ s. (s ≤ 4294967295) × (text.now ≡ decimal s)) }
    ensures none { IfNone result ((s : ℕ) → s ≤ 4294967295 → text.now ≢ decimal s) }
{
    match number(text, 4_294_967_295) {
        Some(n) => Some(n as u32),
        None => None,
    }
}

// The session's number in a path with this tail.
fn session_in(path: &[u8], tail: &[u8]) -> Option<u32>
    ensures some { IfSome result (λ s. (s ≤ 4294967295)
        × (path.now ≡ codes "/sessions/" ++ decimal s ++ tail.now)) }
    ensures none { IfNone result ((s : ℕ) → s ≤ 4294967295
        → path.now ≢ codes "/sessions/" ++ decimal s ++ tail.now) }
{
    match path.strip_prefix(b"/sessions/".as_slice()) {
        None => None,
        Some(rest) => match rest.strip_suffix(tail) {
            None => None,
            Some(text) => session_number(text),
        },
    }
}

// The route of this kind that a path names.
fn route_of_kind(kind: RouteKind, path: &[u8]) -> Option<Route>
    ensures some { IfSome result (λ r. IsRoute r × (path.now ≡ path_of r)) }
    ensures none { IfNone result ((r : Route) → IsRoute r → kind_of r ≡ kind
        → path.now ≢ path_of r) }
{
    match kind {
        RouteKind::Sessions => {
            if path == b"/sessions".as_slice() {
                Some(Route::Sessions)
            } else {
                None
            }
        }
        RouteKind::Session => match session_in(path, b"") {
            Some(session) => Some(Route::Session(session)),
            None => None,
        },
        RouteKind::Answers => match session_in(path, b"/answers") {
            Some(session) => Some(Route::Answers(session)),
            None => None,
        },
        RouteKind::Close => match session_in(path, b"/close") {
            Some(session) => Some(Route::Close(session)),
            None => None,
        },
        RouteKind::Exposure => {
            if path == b"/exposure".as_slice() {
                Some(Route::Exposure)
            } else {
                None
            }
        }
        RouteKind::Health => {
            if path == b"/health".as_slice() {
                Some(Route::Health)
            } else {
                None
            }
        }
    }
}

/// The route that a path names, or none.
pub(crate) fn route_of(router: &Router<RouteKind>, path: &[u8]) -> Option<Route>
    requires { router.now ≡ table }
    ensures { Names path.now result }
{
    match std::str::from_utf8(path) {
        Err(_) => None,
        Ok(text) => match router.at(text) {
            Err(_) => None,
            Ok(found) => route_of_kind(*found.value, text.as_bytes()),
        },
    }
}

/// The method of a route.
pub(crate) fn method_of(route: Route) -> &'static [u8]
    ensures { result.now ≡ method_of route }
{
    match route {
        Route::Sessions | Route::Answers(_) | Route::Close(_) => b"POST",
        Route::Session(_) | Route::Exposure | Route::Health => b"GET",
    }
}
