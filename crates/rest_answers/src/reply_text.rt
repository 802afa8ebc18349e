//! The text of a reply, which stands ready or was made.
ghost use Rattle.std.specs.Prelude.{◌≡◌};

use size_values::Seq;
use std::marker::Model;

/// Where the bytes of a reply are.
#[derive(Drop)]
pub(crate) enum Bytes {
    /// In the program itself.
    Ready(&'static [u8]),
    /// In memory of their own.
    Made(Seq<u8>),
}

/// The bytes of a reply. Those that stand ready are lent, since a copy of them would take memory.
/// Contracts see the bytes.
#[derive(Drop)]
pub struct ReplyText {
    bytes: Bytes,
}

impl Model for ReplyText {
    ghost use Rattle.std.specs.Prelude.{ℕ, List};
    ghost use Rattle.rest_answers.specs.Bytes.{bytes_at};

    ghost Value = { List ℕ };

    ghost view = { λ text. bytes_at text.bytes };
}

impl ReplyText {
    /// Bytes that stand ready. It takes no memory.
    pub(crate) fn ready(bytes: &'static [u8]) -> ReplyText
        ensures { result ≡ bytes.now }
    {
        ReplyText {
            bytes: Bytes::Ready(bytes),
        }
    }

    /// Bytes that were made.
    pub(crate) fn made(bytes: Seq<u8>) -> ReplyText
        ensures { result ≡ bytes }
    {
        ReplyText {
            bytes: Bytes::Made(bytes),
        }
    }

    /// The bytes as a slice.
    pub fn view(&self) -> &[u8]
        ensures { result.now ≡ self.now }
    {
        match &self.bytes {
            Bytes::Ready(bytes) => bytes,
            Bytes::Made(bytes) => bytes.view(),
        }
    }
}
