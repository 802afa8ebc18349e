//! Replies that depend on nothing but the dialect: they are sent as they stand here, and not made anew.
ghost use Rattle.std.specs.Prelude.{◌≡◌, false, IfSome, is_some};
ghost use Rattle.http_front.specs.Replies.{reply_text};
ghost use Rattle.records.specs.declared.replies.Reply.TheVariants as reply;
ghost use Rattle.records.specs.declared.replies.View.TheVariants as view;
ghost use Rattle.rest_replies.specs.Replies.{printed_of, is_server, stands_ready};

use records::{Reply, View};
use rest_json::{Dialect, Terms};

/// The reply to a command that was carried out and tells nothing, in the plain dialect.
const EMPTY: &[u8] =
    b"HTTP/1.1 200 OK\r\nContent-Type: application/json\r\nContent-Length: 66\r\n\r\n{\"metadata\":{},\"status\":\"Success\",\"status_code\":200,\"type\":\"sync\"}";

/// The same in the client's dialect.
const CLIENT_EMPTY: &[u8] =
    b"HTTP/1.1 200 OK\r\nContent-Type: application/json\r\nContent-Length: 83\r\n\r\n{\"metadata\":{\"status_code\":200},\"status\":\"Success\",\"status_code\":200,\"type\":\"sync\"}";

/// The reply that tells of the server, in the plain dialect.
const SERVER: &[u8] =
    b"HTTP/1.1 200 OK\r\nContent-Type: application/json\r\nContent-Length: 159\r\n\r\n{\"metadata\":{\"api_extensions\":[],\"api_status\":\"stable\",\"api_version\":\"1.0\",\"auth\":\"trusted\",\"public\":false},\"status\":\"Success\",\"status_code\":200,\"type\":\"sync\"}";

/// The same in the client's dialect.
const CLIENT_SERVER: &[u8] =
    b"HTTP/1.1 200 OK\r\nContent-Type: application/json\r\nContent-Length: 400\r\n\r\n{\"metadata\":{\"api_extensions\":[\"api_filtering\",\"container_full\",\"instance_nic_network\",\"network\",\"network_acl\",\"network_dns\",\"network_forward\",\"project_usage\",\"projects\",\"storage\",\"storage_api_local_volume_handling\",\"storage_api_volume_rename\",\"storage_buckets\",\"warnings\"],\"api_status\":\"stable\",\"api_version\":\"1.0\",\"auth\":\"trusted\",\"public\":false},\"status\":\"Success\",\"status_code\":200,\"type\":\"sync\"}";

/// Whether the server is shown.
fn is_server(shown: &View) -> bool
    ensures { result ≡ is_server shown.now }
{
    match shown {
        View::Server => true,
        _ => false,
    }
}

/// The whole text of the reply that tells of the server, where the connection stays open after it.
pub fn server_text(terms: Terms) -> &'static [u8]
    ensures { result.now ≡ reply_text (printed_of (reply.One view.Server) terms false) }
{
    match terms.dialect {
        Dialect::Plain => SERVER,
        Dialect::Client => CLIENT_SERVER,
    }
}

/// The whole text of the reply that tells nothing, where the connection stays open after it.
fn empty_text(terms: Terms) -> &'static [u8]
    ensures { result.now ≡ reply_text (printed_of reply.Empty terms false) }
{
    match terms.dialect {
        Dialect::Plain => EMPTY,
        Dialect::Client => CLIENT_EMPTY,
    }
}

/// The whole text of a reply that depends on nothing but the dialect, where the connection stays open after it.
pub fn known_reply(reply: &Reply, terms: Terms, last: bool) -> Option<&'static [u8]>
    ensures text { IfSome result (λ text. text.now ≡ reply_text (printed_of reply.now terms last)) }
    ensures when { is_some result ≡ stands_ready reply.now last }
{
    if last {
        return None;
    }
    match reply {
        Reply::Empty => Some(empty_text(terms)),
        Reply::One(shown) => {
            if is_server(shown) {
                Some(server_text(terms))
            } else {
                None
            }
        }
        _ => None,
    }
}
