ghost use Rattle.std.specs.Prelude.{◌≡◌};
ghost use Rattle.http_heads.specs.Limits.{max_head, max_body, max_fields};

use size_values::{Seq, Text};

/// The most bytes that a head has, with the CR and LF bytes before it.
pub const MAX_HEAD: usize = 16_384;

/// The most bytes that a body has.
pub const MAX_BODY: usize = 1_048_576;

/// The most headers that a head has.
pub const MAX_FIELDS: usize = 64;

/// The constants are the numbers that definitions speak of.
pub fn limits_are_those_of_the_definitions()
    ensures head { MAX_HEAD ≡ max_head }
    ensures body { MAX_BODY ≡ max_body }
    ensures fields { MAX_FIELDS ≡ max_fields }
{}

/// One request: the method and the target of its request line (RFC 9112, section 3), and its body of
/// Content-Length bytes. `last` says that the connection ends after its reply: it is of HTTP/1.0, or a
/// Connection header lists `close`. `expects` says that its client waits for leave before it sends the body: it
/// has one, is of HTTP/1.1, and an Expect header lists `100-continue` (RFC 9110, section 10.1.1). `upgrade` is the
/// key of the WebSocket handshake that it asks for, if it asks for one (RFC 6455, section 4.2.1). `origin` says that a
/// header is named `Origin`, as in what a web page has its browser send (RFC 6454, section 7). `if_match` is the value
/// of the first If-Match header (RFC 9110, section 13.1.1), if there is one; empty where it has a byte that is not
/// ASCII.
#[derive(Drop)]
pub struct Request {
    pub method: Text,
    pub target: Text,
    pub body: Seq<u8>,
    pub last: bool,
    pub expects: bool,
    pub upgrade: Option<Text>,
    pub origin: bool,
    pub if_match: Option<Text>,
}

/// What is wrong with the bytes in a request's place.
#[derive(Clone, Copy, PartialEq, Eq)]
pub enum HeadFault {
    /// The bytes up to the first empty line are no head of at most 64 headers.
    H1,
    /// 16,384 bytes have no empty line that ends a head.
    H2,
    /// There is a Transfer-Encoding header, more than one Content-Length, or one that is not 1 to 19 digits.
    H3,
    /// The Content-Length is above 1,048,576.
    H4,
    /// The request has an Origin header, and its door takes none. No bytes have this fault by themselves.
    H5,
}
