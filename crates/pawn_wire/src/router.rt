//! The service's routes.
ghost use Rattle.pawn_wire.specs.Common.{IsAscii, walk};
ghost use Rattle.pawn_wire.specs.Route.{with_routes, plain};
ghost use Rattle.std.specs.Prelude.{◌≡◌, Some, None, OnOk, map, option_copied, slice_get};

use crate::route::{Endpoint, ROUTES};
use matchit::{InsertError, Params, Router as Matcher};
use std::alloc::{AllocError, Global};
use std::marker::Model;

/// An endpoint, and the parts of a target that name its book and its pledge or day.
#[derive(Clone, Copy, Drop)]
pub(crate) struct Asked<'p> {
    pub endpoint: Endpoint,
    pub book: Option<&'p str>,
    pub item: Option<&'p str>,
}

/// The service's routes. It is made once and used for each request. In contracts a router is its rows, which are always
/// those of the service's table.
#[derive(Drop)]
pub struct Router {
    routes: Matcher<Endpoint>,
}

impl Model for Router {
    ghost use Rattle.pawn_wire.specs.Route.{Rows, table_rows};
    ghost use Rattle.std.specs.Prelude.{◌≡◌};

    ghost Value = { Rows };

    ghost view = { λ r. r.routes };

    ghost invariant = { λ r. r.routes ≡ table_rows };
}

impl Router {
    ghost use Rattle.pawn_wire.specs.Asked.{endpoint_and_texts};
    ghost use Rattle.pawn_wire.specs.Route.{table_rows, route_of};
    ghost use Rattle.std.specs.Prelude.{◌≡◌, IfOk, option_map};

    /// Makes the routes of the service's table. Fails only if memory runs out.
    pub fn new(alloc: Global) -> Result<Router, AllocError>
        ensures table { IfOk result (λ r. r ≡ table_rows) }
    {
        let mut routes = Matcher::new(alloc);
        match add_all(&mut routes, &ROUTES) {
            Ok(()) => Ok(Router { routes }),
            Err(_) => Err(AllocError),
        }
    }

    /// Returns the endpoint of a target, with the parts of the target that name its book and its pledge or day. `None`
    /// if no route matches.
    pub(crate) fn find<'p>(&self, target: &'p str) -> Option<Asked<'p>>
        requires ascii { IsAscii target.now }
        ensures value { option_map endpoint_and_texts result ≡ route_of target.now }
    {
        match self.routes.at(target) {
            Ok(found) => {
                let (book, item) = first_two(&found.params);
                Some(Asked {
                    endpoint: *found.value,
                    book,
                    item,
                })
            }
            Err(_) => None,
        }
    }
}

/// Returns the texts that match the first two names in braces.
fn first_two<'v>(params: &Params<'_, 'v>) -> (Option<&'v str>, Option<&'v str>)
    requires ascii { IsAscii params.now.path.now }
    ensures first { option_copied result.0 ≡ slice_get
        (map (λ p. p.1) (walk params.now.pattern.now params.now.text.now params.now.path.now params.now.names.now 0 0)) 0 }
    ensures second { option_copied result.1 ≡ slice_get
        (map (λ p. p.1) (walk params.now.pattern.now params.now.text.now params.now.path.now params.now.names.now 0 0)) 1 }
{
    let mut parts = params.iter();
    let Some((_, first)) = parts.next() else {
        return (None, None);
    };
    let Some((_, second)) = parts.next() else {
        return (Some(first), None);
    };
    (Some(first), Some(second))
}

/// Adds the routes of a table, in order.
fn add_all(routes: &mut Matcher<Endpoint>, table: &[(&str, Endpoint)]) -> Result<(), InsertError>
    ensures rows { OnOk result (routes.new ≡ with_routes (map plain table.now) routes.old) }
{
    for (text, endpoint) in table {
        routes.insert(text, *endpoint)?;
    }
    Ok(())
}
