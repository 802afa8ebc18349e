//! Rows of each kind, read from entries and written as entries: bodies are written out byte by byte.
use crate::given::text_of;
use records::Row;
use row_codec::{
    Damaged, decode, encode, instance_size, key_of, kind_of, profile_size, project_size,
};
use size_values::{Entry, NoMemory, Or, Seq};
use std::alloc::Global;

// The pieces of which bodies are made: each is one byte, number, text or count.
const VERSION: &[u8] = b"\x01";

const NONE: &[u8] = b"\x00\x00\x00\x00";

const ONE: &[u8] = b"\x00\x00\x00\x01";

const TWO: &[u8] = b"\x00\x00\x00\x02";

const FIRST_SECOND: &[u8] = b"\x00\x00\x00\x00\x00\x00\x00\x00";

const LATER: &[u8] = b"\x00\x00\x00\x00\x65\x53\xf1\x00";

const LAST_SECOND: &[u8] = b"\x00\x00\x00\x3a\xff\xf4\x41\x7f";

const CAFE: &[u8] = b"\x00\x00\x00\x05caf\xc3\xa9";

const KEY: &[u8] = b"\x00\x00\x00\x06user.a";

const NEXT_KEY: &[u8] = b"\x00\x00\x00\x06user.b";

const VALUE: &[u8] = b"\x00\x00\x00\x011";

const ETH0: &[u8] = b"\x00\x00\x00\x04eth0";

const ROOT: &[u8] = b"\x00\x00\x00\x04root";

/// A kind and a key, and the pieces of a body.
type Line = (u8, &'static str, &'static [&'static [u8]]);

/// Rows of each kind, with all parts filled and with all parts empty.
const SPELLINGS: &[Line] = &[
    (1, "lab", &[VERSION, NONE, ONE, KEY, VALUE]),
    (1, "lab", &[VERSION, CAFE, TWO, KEY, VALUE, NEXT_KEY, CAFE]),
    (
        2,
        "lab/web",
        &[
            VERSION, CAFE, ONE, KEY, VALUE, TWO, ETH0, ONE, KEY, VALUE, ROOT, TWO, KEY, VALUE,
            NEXT_KEY, VALUE,
        ],
    ),
    (
        3,
        "lab/br0",
        &[VERSION, CAFE, TWO, KEY, VALUE, NEXT_KEY, CAFE],
    ),
    (
        4,
        "p0",
        &[VERSION, b"\x03", CAFE, TWO, KEY, VALUE, NEXT_KEY, CAFE],
    ),
    (
        5,
        "lab/p0/v",
        &[VERSION, CAFE, ONE, KEY, VALUE, LAST_SECOND],
    ),
    (
        6,
        "lab/c1",
        &[
            VERSION, b"\x01", b"\x01", CAFE, CAFE, LATER, TWO, ROOT, ETH0, ONE, KEY, VALUE, ONE,
            ROOT, ONE, KEY, VALUE,
        ],
    ),
    (
        7,
        "lab/c1/s0",
        &[
            VERSION,
            LATER,
            LAST_SECOND,
            ONE,
            CAFE,
            ONE,
            KEY,
            VALUE,
            ONE,
            ROOT,
            ONE,
            KEY,
            VALUE,
        ],
    ),
    (1, "0", &[VERSION, NONE, NONE]),
    (2, "0/0", &[VERSION, NONE, NONE, NONE]),
    (2, "0/1", &[VERSION, NONE, NONE, ONE, NONE, NONE]),
    (3, "0/00", &[VERSION, NONE, NONE]),
    (4, "0", &[VERSION, b"\x00", NONE, NONE]),
    (5, "0/0/0", &[VERSION, NONE, NONE, FIRST_SECOND]),
    (
        6,
        "0/a",
        &[
            VERSION,
            b"\x00",
            b"\x00",
            NONE,
            NONE,
            FIRST_SECOND,
            NONE,
            NONE,
            NONE,
        ],
    ),
    (
        7,
        "0/a/0",
        &[VERSION, FIRST_SECOND, FIRST_SECOND, NONE, NONE, NONE],
    ),
];

fn entry_of(alloc: Global, kind: u8, key: &str, pieces: &[&[u8]]) -> Entry {
    let mut body = Vec::new(alloc);
    for piece in pieces {
        let _ = body.extend_from_slice(piece);
    }
    Entry {
        kind,
        key: text_of(alloc, key),
        body: Seq::from_vec(body),
    }
}

fn are_same(again: &Entry, entry: &Entry) -> bool {
    again.kind == entry.kind && again.key.is(&entry.key) && again.body.view() == entry.body.view()
}

/// Whether the size of a row is that of its body, where it is asked for.
fn is_sized(row: &Row, entry: &Entry) -> bool {
    let size = match row {
        Row::Project(row) => project_size(row),
        Row::Profile(row) => profile_size(row),
        Row::Instance(row) => instance_size(row),
        _ => return true,
    };
    size == entry.body.len() as u64
}

/// Whether the row is written as the entry, has its key and its kind, and is copied.
fn is_row_of(alloc: Global, row: &Row, written: Result<Entry, NoMemory>, entry: &Entry) -> bool {
    let key = key_of(alloc, row);
    let copy = row.copy(alloc);
    let is_written = match &written {
        Ok(again) => are_same(again, entry),
        Err(_) => false,
    };
    let is_keyed = match &key {
        Ok(key) => key.is(&entry.key),
        Err(_) => false,
    };
    let is_right = is_written && is_keyed && copy.is_ok() && kind_of(row) == entry.kind;
    let is = is_right && is_sized(row, entry);
    drop(copy);
    drop(key);
    drop(written);
    is
}

/// The entry is read as a row, which is written as the same entry.
fn is_written_again(alloc: Global, entry: &Entry) -> bool {
    match decode(alloc, entry) {
        Ok(row) => {
            let is = is_row_of(alloc, &row, encode(alloc, &row), entry);
            drop(row);
            is
        }
        Err(_) => false,
    }
}

/// Whether the entry of this kind, this key and these pieces is read as a row, which is written as the entry.
fn is_spelling(alloc: Global, kind: u8, key: &str, pieces: &[&[u8]]) -> bool {
    let entry = entry_of(alloc, kind, key, pieces);
    let is = is_written_again(alloc, &entry);
    drop(entry);
    is
}

#[test]
fn rows_of_each_kind(rt: HostRuntime) {
    for (kind, key, pieces) in SPELLINGS {
        assert!(rt; is_spelling(rt.alloc(), *kind, key, pieces), "{key}");
    }
}

/// Entries of no row: a kind, a key, and what is damaged. Their bodies are empty.
const DAMAGED: &[(u8, &str, Damaged)] = &[
    (9, "lab", Damaged::Kind),
    (2, "lab", Damaged::Key),
    (1, "lab", Damaged::Body(0)),
];

/// Whether the damage is told, and not that memory was refused.
fn is_damaged(alloc: Global, kind: u8, key: &str, damaged: Damaged) -> bool {
    let entry = entry_of(alloc, kind, key, &[]);
    let read = decode(alloc, &entry);
    drop(entry);
    match read {
        Ok(row) => {
            drop(row);
            false
        }
        Err(why) => why == Or::Why(damaged),
    }
}

#[test]
fn damage_is_told(rt: HostRuntime) {
    for (kind, key, damaged) in DAMAGED {
        assert!(rt; is_damaged(rt.alloc(), *kind, key, *damaged), "{kind}");
    }
}
