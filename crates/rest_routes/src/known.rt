//! A request whose reply depends on no row.
ghost use Rattle.std.specs.Prelude.{◌≡◌, IsTrue, Ok};
ghost use Rattle.rest_json.specs.declared.terms.Terms.{Terms};
ghost use Rattle.rest_routes.specs.Commands.{command_of};
ghost use Rattle.rest_routes.specs.Known.{is_server_asked, server_asked};

use http_heads::Request;

/// Whether a request is GET `/1.0`, without a query and without an If-Match header.
fn is_server_asked(request: &Request) -> bool
    ensures { result ≡ is_server_asked request.now }
{
    request.method.view() == "GET" && request.target.view() == "/1.0" && request.if_match.is_none()
}

/// Whether a request asks for the server, by GET `/1.0` without a query and without an If-Match header. It is told by
/// comparisons alone, since most requests of those who only look whether the server is there are such.
pub fn asks_for_server(request: &Request) -> bool
    ensures asked { result ≡ is_server_asked request.now }
    ensures command { IsTrue result → (terms : Terms) → command_of request.now terms ≡ Ok server_asked }
{
    is_server_asked(request)
}
