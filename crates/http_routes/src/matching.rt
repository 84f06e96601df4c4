//! Which route a target finds.
ghost use Rattle.std.specs.Prelude.{◌≡◌, [], IfOk, OnOk, IfSome, option_map};
ghost use Rattle.http_routes.specs.Finding.{asked_by, number_at, finds};
ghost use Rattle.http_routes.specs.Paths.{path_of};
ghost use Rattle.http_routes.specs.Patterns.{IsRead};
ghost use Rattle.http_routes.specs.Routing.{routes, route_of};

use crate::paths::{path_of, segment};
use crate::table::Route;
use matchit::{InsertError, Router};
use std::alloc::{AllocError, Global};
use std::str;

/// What a request's target asks for.
#[derive(Clone, Copy, Debug)]
pub struct Destination<'a> {
    /// What is asked.
    pub route: Route,
    /// The name of the service of which it is asked: one segment of the path, not empty. None where all
    /// services are listed, and only there.
    pub service: Option<&'a str>,
    /// For the journal: the segment that stands for the number of an entry, not empty.
    pub number: Option<&'a str>,
}

/// The segment of a path that stands for the number of an entry, where its route has one: the other routes' paths are
/// shorter, and needn't be read to their end once more.
fn number_at(route: Route, path: &str) -> Option<&str>
    ensures { option_map (λ number. number.now) result ≡ number_at route path.now }
{
    match route {
        Route::Journal => segment(path, 5),
        _ => None,
    }
}

/// Adds all routes to a router that has none. No two of them conflict, so the error is want of memory.
fn add_routes(router: &mut Router<Route>) -> Result<(), InsertError>
    requires { router.old ≡ [] }
    ensures { OnOk result (router.new ≡ routes) }
{
    router.insert("/v1/services/{service}/acquire", Route::Acquire)?;
    router.insert("/v1/services/{service}/cut", Route::Cut)?;
    router.insert("/v1/services/{service}/journal/{from}", Route::Journal)?;
    router.insert("/v1/services/{service}/program", Route::Program)?;
    router.insert("/v1/services/{service}/release", Route::Release)?;
    router.insert("/v1/services/{service}/report", Route::Report)?;
    router.insert("/v1/services/{service}/reset", Route::Reset)?;
    router.insert("/v1/services/{service}/roll", Route::Roll)?;
    router.insert("/v1/services/{service}/state", Route::State)?;
    router.insert("/v1/services/{service}/transition", Route::Transition)?;
    router.insert("/v1/services", Route::Services)?;
    Ok(())
}

/// The router of all routes. The error is want of memory.
fn all_routes(alloc: Global) -> Result<Router<Route>, InsertError>
    ensures { IfOk result (λ router. router ≡ routes) }
{
    let mut router = Router::new(alloc);
    add_routes(&mut router)?;
    Ok(router)
}

/// The eleven routes, made once and asked for each request.
#[derive(Drop)]
pub struct Routes {
    router: Router<Route>,
    ghost are_all: { router ≡ routes },
}

impl Routes {
    ghost use Rattle.std.specs.Prelude.{◌≡◌};
    ghost use Rattle.http_routes.specs.Routing.{routes};

    /// The eleven routes. The error is want of memory.
    pub fn new(alloc: Global) -> Result<Routes, AllocError> {
        match all_routes(alloc) {
            Ok(router) => Ok(Routes { router }),
            Err(_) => Err(AllocError),
        }
    }

    /// The route of a path.
    fn route_of(&self, path: &str) -> Option<Route>
        ensures { result ≡ route_of path.now }
    {
        match self.router.at(path) {
            Ok(found) => Some(*found.value),
            Err(_) => None,
        }
    }

    /// What a request's target asks for (RFC 9112, section 3.2.1), by its path alone; what the query behind a
    /// `?` means is for the caller to say (`query_of`). None where the path fits no route: the refusal `NoRoute`.
    pub fn find<'a>(&self, target: &'a [u8]) -> Option<Destination<'a>>
        // What the router's search finds, with the segments of the path.
        ensures found { option_map asked_by result ≡ finds target.now }
        // It is the reading of the path by its segments.
        ensures read { IfSome result (λ found. IsRead (path_of target.now) (asked_by found)) }
    {
        let Ok(path) = str::from_utf8(path_of(target)) else {
            return None;
        };
        let route = self.route_of(path)?;
        let service = segment(path, 3);
        let number = number_at(route, path);
        Some(Destination {
            route,
            service,
            number,
        })
    }
}
