//! The request that opens a handshake.
ghost use Rattle.std.specs.Prelude.{◌≡◌, IfOk};
ghost use Rattle.client_events.specs.Opening.{handshake_for};

use size_values::{NoMemory, Text};
use std::alloc::Global;

/// The handshake (RFC 6455, section 4.1) that asks for the events of a project, whose name needs no escapes: the bytes of
/// `GET /1.0/events?project=PROJECT`. Its key is always the same: it is there to tell a server that speaks WebSocket from
/// one that does not, and no secret.
pub fn handshake_for(alloc: Global, project: &str) -> Result<Text, NoMemory>
    ensures { IfOk result (λ text. text ≡ handshake_for project.now) }
{
    let mut text = String::from_str(alloc, "GET /1.0/events?project=")?;
    text.push_str(project)?;
    text.push_str(
        " HTTP/1.1\r\nHost: localhost\r\nConnection: Upgrade\r\nUpgrade: websocket\r\nSec-WebSocket-Version: 13\r\nSec-WebSocket-Key: dGhlIHNhbXBsZSBub25jZQ==\r\n\r\n",
    )?;
    Ok(Text::from_string(text))
}
