ghost use Rattle.std.specs.Prelude.{◌≡◌, IfOk, IsTrue};
ghost use Rattle.records.specs.Forms.{is_formed};
ghost use Rattle.rest_routes.specs.Answers.{Reads};
ghost use Rattle.rest_routes.specs.Endpoints.{rows};
ghost use Rattle.rest_routes.specs.Commands.{command_of};

use crate::commands::command_of;
use crate::table::PathTable;
use http_heads::Request;
use records::{Command, Reply};
use rest_json::Terms;
use size_values::NoMemory;
use std::alloc::Global;
use std::marker::Model;

/// Knows the paths of the REST API, and reads requests. Contracts see the rows of its table.
#[derive(Drop)]
pub struct Router {
    table: PathTable,
}

impl Model for Router {
    ghost use Rattle.rest_routes.specs.Endpoints.{PathRows};

    ghost Value = { PathRows };

    ghost view = { λ r. r.table };
}

impl Router {
    /// A router for the paths of the REST API.
    pub fn new(alloc: Global) -> Result<Router, NoMemory>
        ensures { IfOk result (λ r. r ≡ rows) }
    {
        let table = PathTable::new(alloc)?;
        Ok(Router { table })
    }

    /// What a request asks for: a command, or a reply that needs none, as the refusal by the first rule of its form
    /// that it breaks. Where memory is refused, the reply says so.
    pub fn route(&self, alloc: Global, request: &Request, terms: Terms) -> Result<Command, Reply>
        ensures reads { Reads result (command_of request.now terms) }
        ensures formed { IfOk result (λ c. IsTrue (is_formed c)) }
    {
        command_of(alloc, &self.table, request, terms)
    }
}
