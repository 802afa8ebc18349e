ghost use Rattle.std.specs.Prelude.{◌≡◌, length, map, All, IfSome, IsUtf8};
ghost use Rattle.std.specs.List.{list_all};
ghost use Rattle.std.specs.Option.{option_map};
ghost use Rattle.httparse.specs.Spans.{IsHeaderWithin, header_bytes};
ghost use Rattle.http_heads.specs.Fields.{values_of};
ghost use Rattle.http_heads.specs.Upgrades.{is_base64, is_key, only, is_text, asks_websocket, key_of, key_in};

use crate::fields::{single_value, some_lists};
use httparse::spans::HeaderSpan;

/// The key of a head with this method, version and headers, if it asks for the WebSocket protocol.
#[tactic(auto, unfolding(crate::specs::Upgrades::key_in))]
pub(crate) fn key_in<'a>(
    method: &[u8],
    minor: u8,
    bytes: &'a [u8],
    headers: &[HeaderSpan],
) -> Option<&'a [u8]>
    requires { All (IsHeaderWithin (length bytes.now)) headers.now }
    ensures key { option_map (λ key. key.now) result
        ≡ key_in method.now minor (map (header_bytes bytes.now) headers.now) }
    ensures utf8 { IfSome result (λ key. IsUtf8 key.now) }
{
    if method == b"GET".as_slice() && minor == 1 && asks_websocket(bytes, headers) {
        key_of(only_value(bytes, headers, b"sec-websocket-key"))
    } else {
        None
    }
}

/// Whether the headers ask for the WebSocket protocol of version 13.
#[tactic(auto, unfolding(crate::specs::Upgrades::asks_websocket))]
fn asks_websocket(bytes: &[u8], headers: &[HeaderSpan]) -> bool
    requires { All (IsHeaderWithin (length bytes.now)) headers.now }
    ensures { result ≡ asks_websocket (map (header_bytes bytes.now) headers.now) }
{
    some_lists(bytes, headers, b"upgrade", b"websocket")
        && some_lists(bytes, headers, b"connection", b"upgrade")
        && is_text(only_value(bytes, headers, b"sec-websocket-version"), b"13")
}

fn is_text(value: Option<&[u8]>, text: &[u8]) -> bool
    ensures { result ≡ is_text text.now (option_map (λ v. v.now) value.entry) }
{
    match value {
        Some(value) => value == text,
        None => false,
    }
}

/// The value of the header of this name, where there is one and no other.
fn only_value<'a>(bytes: &'a [u8], headers: &[HeaderSpan], name: &[u8]) -> Option<&'a [u8]>
    requires { All (IsHeaderWithin (length bytes.now)) headers.now }
    ensures { option_map (λ v. v.now) result ≡ only (values_of name.now (map (header_bytes bytes.now) headers.now)) }
{
    match single_value(bytes, headers, name) {
        Ok(found) => found,
        Err(_) => None,
    }
}

/// The value, where it is a key.
#[tactic(auto, unfolding(crate::specs::Upgrades::key_of))]
fn key_of(value: Option<&[u8]>) -> Option<&[u8]>
    ensures key { option_map (λ key. key.now) result ≡ key_of (option_map (λ v. v.now) value.entry) }
    ensures utf8 { IfSome result (λ key. IsUtf8 key.now) }
{
    match value {
        Some(value) => { if is_key(value) { Some(value) } else { None } }
        None => None,
    }
}

/// Whether a text is the base64 spelling of 16 bytes.
#[tactic(auto, unfolding(crate::specs::Upgrades::is_key))]
fn is_key(text: &[u8]) -> bool
    ensures { result ≡ is_key text.now }
{
    text.len() == 24 && is_all_base64(&text[..22]) && &text[22..] == b"==".as_slice()
}

fn is_all_base64(text: &[u8]) -> bool
    ensures { result ≡ list_all is_base64 text.now }
{
    text.iter().all(|byte| is_base64(*byte))
}

fn is_base64(byte: u8) -> bool
    ensures { result ≡ is_base64 byte }
{
    byte.is_ascii_alphanumeric() || byte == b'+' || byte == b'/'
}
