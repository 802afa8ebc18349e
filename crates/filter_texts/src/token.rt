ghost use Rattle.std.specs.Prelude.{◌≡◌, ◌<◌, length, drop, slice_index, IsUtf8};
ghost use Rattle.std.specs.Option.{option_map};
ghost use Rattle.std.specs.List.{prefix_len};
ghost use Rattle.filter_texts.specs.Tokens.{front, quoted_front, is_word_byte};
ghost use Rattle.filter_texts.specs.Views.{token_of};

/// A token of a filter's text.
#[derive(Clone, Copy)]
pub(crate) enum Token<'a> {
    Opening,
    Closing,
    /// The bytes between two quotes.
    Quoted(&'a str),
    Word(&'a str),
    /// A quote with no other behind it.
    Unclosed,
}

/// The token that begins at the front of a text, if no space stands there, and what is behind.
pub(crate) fn front(text: &str) -> (Option<Token<'_>>, &str)
    requires { 0 < length text.now }
    ensures token { option_map token_of result.0 ≡ (front (slice_index text.now 0) (drop 1 text.now)).0 }
    ensures rest { result.1.now ≡ drop (front (slice_index text.now 0) (drop 1 text.now)).1 (drop 1 text.now) }
    ensures utf8 { IsUtf8 result.1.now }
{
    match text.as_bytes()[0] {
        b' ' => (None, behind_first(text)),
        b'(' => (Some(Token::Opening), behind_first(text)),
        b')' => (Some(Token::Closing), behind_first(text)),
        b'"' => quoted_front(behind_first(text)),
        _ => {
            let (word, rest) = text.split_at(word_len(text.as_bytes()));
            (Some(Token::Word(word)), rest)
        }
    }
}

/// A quoted value behind its first quote, and what is behind it.
fn quoted_front(text: &str) -> (Option<Token<'_>>, &str)
    ensures token { option_map token_of result.0 ≡ (quoted_front text.now).0 }
    ensures rest { result.1.now ≡ drop (quoted_front text.now).1 text.now }
{
    match text.split_once('"') {
        Some((value, rest)) => (Some(Token::Quoted(value)), rest),
        None => (Some(Token::Unclosed), ""),
    }
}

/// A text without its first byte, which is an ASCII character.
fn behind_first(text: &str) -> &str
    requires there { 0 < length text.now }
    requires ascii { slice_index text.now 0 < 128 }
    ensures { result.now ≡ drop 1 text.now }
{
    &text[1..]
}

/// How many bytes at the front of a text are of one word.
fn word_len(text: &[u8]) -> usize
    ensures { result ≡ prefix_len is_word_byte text.now }
{
    for (place, byte) in text.iter().enumerate() {
        if !is_word_byte(*byte) {
            return place;
        }
    }
    text.len()
}

/// Whether a byte may stand in a word: any but space, quote and parenthesis.
fn is_word_byte(byte: u8) -> bool
    ensures { result ≡ is_word_byte byte }
{
    byte != b' ' && byte != b'"' && byte != b'(' && byte != b')'
}
