//! The answer to a WebSocket handshake.
ghost use Rattle.std.specs.Prelude.{◌≡◌, IfOk};
ghost use Rattle.serve_loop.specs.Accepting.{accept_text};

use base64::engine::general_purpose::STANDARD;
use sha1::Sha1;
use size_values::{NoMemory, Text};
use std::alloc::Global;

/// What each server puts after the key of a handshake (RFC 6455, section 1.3).
const IDENTIFIER: &str = "258EAFA5-E914-47DA-95CA-C5AB0DC85B11";

/// The text that accepts a handshake of this key, the value of Sec-WebSocket-Accept.
#[tactic(auto, unfolding(crate::specs::Accepting::accept_text))]
pub fn accept_text(alloc: Global, key: &str) -> Result<Text, NoMemory>
    ensures { IfOk result (λ t. t ≡ accept_text key.now) }
{
    let mut hasher = Sha1::new();
    hasher.update(key.as_bytes());
    hasher.update(IDENTIFIER.as_bytes());
    let digest = hasher.finalize();
    Ok(Text::from_string(STANDARD.encode(alloc, &digest)?))
}
