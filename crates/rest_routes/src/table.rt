//! The table of paths.
ghost use Rattle.std.specs.Prelude.{◌≡◌, true, IfOk, map, []};
ghost use Rattle.matchit.specs.declared.error.InsertError.TheVariants.{OutOfMemory};
ghost use Rattle.rest_routes.specs.Endpoints.{line_with, are_taken, rows_after, rows, line_of};
ghost use Rattle.rest_routes.specs.Endpoints.{empty_rows, empty_line_of};

use crate::endpoints::{EMPTY_LISTS, Endpoint, Line, Methods, ROUTES};
use matchit::InsertError;
use size_values::NoMemory;
use std::alloc::Global;
use std::marker::Model;

/// Knows the paths of the REST API, and those of lists that are always empty here. Contracts see the rows of the router
/// that finds the first.
#[derive(Drop)]
pub struct PathTable {
    router: matchit::Router<Line>,
    empty: matchit::Router<Line>,
}

impl Model for PathTable {
    ghost use Rattle.rest_routes.specs.Endpoints.{PathRows};

    ghost Value = { PathRows };

    ghost use Rattle.std.specs.Prelude.{◌≡◌};
    ghost use Rattle.rest_routes.specs.Endpoints.{empty_rows, rows};

    ghost view = { λ t. t.router };

    ghost invariant = { λ t. (t.router ≡ rows) × (t.empty ≡ empty_rows) };
}

/// The only failure of an insertion into a table whose paths can all be taken.
fn out_of_memory(error: InsertError) -> NoMemory
    requires { error ≡ OutOfMemory }
{
    match error {
        InsertError::OutOfMemory => NoMemory,
        InsertError::Conflict { .. }
        | InsertError::InvalidParamSegment
        | InsertError::InvalidParam
        | InsertError::InvalidCatchAll => unreachable!(),
    }
}

/// A router that knows these paths, none of which is malformed or conflicts with one before it.
#[tactic(auto, using(crate::proofs::Rows::inserted, crate::proofs::Rows::only_memory, crate::proofs::Rows::later_taken))]
fn router_of(
    alloc: Global,
    routes: &[(&str, Endpoint, Methods)],
) -> Result<matchit::Router<Line>, NoMemory>
    requires { are_taken (map (λ r. (r.0.now, line_with r.1 r.2)) routes.now) [] ≡ true }
    ensures { IfOk result (λ r. r ≡ rows_after (map (λ r. (r.0.now, line_with r.1 r.2)) routes.now) []) }
{
    let mut router = matchit::Router::new(alloc);
    for route in routes {
        let line = Line {
            endpoint: route.1,
            offers: route.2,
        };
        if let Err(error) = router.insert(route.0, line) {
            return Err(out_of_memory(error));
        }
    }
    Ok(router)
}

#[tactic(auto, unfolding(crate::specs::Endpoints::rows, crate::specs::Endpoints::routes))]
fn full_router(alloc: Global) -> Result<matchit::Router<Line>, NoMemory>
    ensures { IfOk result (λ r. r ≡ rows) }
{
    router_of(alloc, ROUTES)
}

#[tactic(auto, unfolding(crate::specs::Endpoints::empty_rows, crate::specs::Endpoints::empty_lists))]
fn empty_router(alloc: Global) -> Result<matchit::Router<Line>, NoMemory>
    ensures { IfOk result (λ r. r ≡ empty_rows) }
{
    router_of(alloc, EMPTY_LISTS)
}

impl PathTable {
    /// The table of the paths of the REST API.
    pub fn new(alloc: Global) -> Result<PathTable, NoMemory>
        ensures { IfOk result (λ t. t ≡ rows) }
    {
        let router = full_router(alloc)?;
        let empty = empty_router(alloc)?;
        Ok(PathTable { router, empty })
    }

    /// The line of the table that a path belongs to, if it is listed.
    #[tactic(auto, unfolding(crate::specs::Endpoints::line_of))]
    pub fn line_of(&self, path: &str) -> Option<Line>
        ensures { result ≡ line_of path.now }
    {
        match self.router.at(path) {
            Ok(found) => Some(*found.value),
            Err(_) => None,
        }
    }

    /// The line of a list that is always empty here, if the path is that of one.
    #[tactic(auto, unfolding(crate::specs::Endpoints::empty_line_of))]
    pub(crate) fn empty_line_of(&self, path: &str) -> Option<Line>
        ensures { result ≡ empty_line_of path.now }
    {
        match self.empty.at(path) {
            Ok(found) => Some(*found.value),
            Err(_) => None,
        }
    }
}
