//! Words of the client. Each word stands behind a `|`.
use client_words::{Asks, ClientWords, Door, Format, read_words};
use size_values::Text;
use std::alloc::Global;

/// The words of a text, as they are read.
pub(crate) fn words_in(alloc: Global, text: &str) -> Option<ClientWords> {
    let mut owned = Vec::new(alloc);
    let mut words = text.split('|');
    let _ = words.next();
    for word in words {
        owned.push(String::from_str(alloc, word).ok()?).ok()?;
    }
    let said = read_words(alloc, &owned);
    drop(owned);
    match said {
        Ok(said) => said,
        Err(_) => None,
    }
}

/// Lists of words that are not read.
const NOT_READ: &[&str] = &[
    "",
    "|list",
    "|list|--port=0",
    "|list|--port=1|--socket=s",
    "|list|--port=1|--format=yaml",
    "|--port=1|list",
    "|launch|--port=1",
    "|launch|-a|--port=1",
    "|start|a b|--port=1",
    "|wait|a|--port=1",
    "|cancel|00000000-0001-8000-8000-00000000000A|--port=1",
    "|limits|--port=1|--project=a/b",
    "|top|--port=1",
];

#[test]
fn other_words_are_not_read(rt: HostRuntime) {
    for words in NOT_READ {
        assert!(rt; words_in(rt.alloc(), words).is_none(), "{words}");
    }
}

/// Whether a filter is this text, or there is none.
fn is_filter(filter: &Option<Text>, want: Option<&str>) -> bool {
    match (filter, want) {
        (Some(filter), Some(want)) => filter.view() == want,
        (None, None) => true,
        _ => false,
    }
}

/// Whether the words ask for a list with this filter, at a socket file, as a table.
fn is_list(words: &ClientWords, filter: Option<&str>) -> bool {
    match (&words.asks, &words.door) {
        (Asks::List { filter: found }, Door::Socket(path)) => {
            is_filter(found, filter)
                && words.project.view() == "lab"
                && words.format == Format::Table
                && path.view() == "s"
        }
        _ => false,
    }
}

fn lists(alloc: Global, words: &str, filter: Option<&str>) -> bool {
    match words_in(alloc, words) {
        Some(words) => {
            let is = is_list(&words, filter);
            drop(words);
            is
        }
        None => false,
    }
}

#[test]
fn words_say_what_to_do(rt: HostRuntime) {
    let alloc = rt.alloc();
    assert!(rt; lists(alloc, "|list|--socket=s|--project=lab|--format=table", None));
    assert!(rt;
        lists(
            alloc,
            "|list||--format=table|--project|lab|--socket=s",
            Some("")
        )
    );
}
