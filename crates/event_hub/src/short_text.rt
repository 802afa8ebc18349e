ghost use Rattle.std.specs.Prelude.{◌≡◌, ◌≤◌, length, IfOk};
ghost use Rattle.std.specs.Str.{IsUtf8, bytes_eq};
ghost use Rattle.event_hub.specs.Short.{most_bytes};

use size_values::{NoMemory, Text};
use std::alloc::Global;
use std::marker::Model;

/// The most bytes of a name of an object.
const MOST_BYTES: usize = 63;

/// A text no longer than a name, kept in place, so that no memory is taken for it. Contracts see it
/// as its UTF-8 bytes.
#[derive(Drop)]
pub(crate) struct ShortText {
    bytes: [u8; MOST_BYTES],
    len: usize,
}

impl Model for ShortText {
    ghost use Rattle.std.specs.Prelude.{List, ℕ};

    ghost Value = { List ℕ };

    ghost use Rattle.event_hub.specs.ShortTexts.{bytes_in, IsShortText};

    ghost view = { bytes_in };

    ghost invariant = { IsShortText };
}

impl ShortText {
    /// The same text. It takes no memory.
    pub(crate) fn of(text: &str) -> ShortText
        requires { length text.now ≤ most_bytes }
        ensures { result ≡ text.now }
    {
        let len = text.len();
        let mut bytes = [0; MOST_BYTES];
        bytes[..len].copy_from_slice(text.as_bytes());
        ShortText { bytes, len }
    }

    /// The text as a `str`.
    pub(crate) fn view(&self) -> &str
        ensures { result.now ≡ self.now }
    {
        match std::str::from_utf8(&self.bytes[..self.len]) {
            Ok(text) => text,
            Err(_) => unreachable!(),
        }
    }

    /// A text of its own.
    pub(crate) fn text(&self, alloc: Global) -> Result<Text, NoMemory>
        ensures { IfOk result (λ t. t ≡ self.now) }
    {
        Text::from_text(alloc, self.view())
    }

    /// Whether both have the same bytes.
    pub(crate) fn is(&self, other: &Text) -> bool
        ensures { result ≡ bytes_eq self.now other.now }
    {
        self.view() == other.view()
    }
}
