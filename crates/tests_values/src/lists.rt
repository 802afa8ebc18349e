//! Lists and texts that own what they hold.
use crate::given::{bytes_of, text_of};
use plain_lists::push_reserved;
use size_values::{Boxed, Entry, EntryChange, NoMemory, Seq, Text};
use std::alloc::Global;
use std::cmp::Ordering;

/// A text that is made of a string.
fn of_string(alloc: Global, bytes: &str) -> Text {
    match String::from_str(alloc, bytes) {
        Ok(string) => Text::from_string(string),
        Err(_) => Text::new(alloc),
    }
}

/// Whether a copy of the text has these bytes, and is the text.
fn is_copied(alloc: Global, text: &Text, bytes: &str) -> bool {
    let Ok(copy) = text.copy(alloc) else {
        return false;
    };
    let is = copy.view() == bytes && copy.is(text) && copy.is_empty() == bytes.is_empty();
    drop(copy);
    is
}

/// Whether a text that becomes another one has its bytes.
fn is_set(mut text: Text, bytes: &str) -> bool {
    let is = text.set(bytes).is_ok() && text.view() == bytes;
    drop(text);
    is
}

/// Whether a text has the bytes that it is made of, is its copy, and lies below a later text.
fn is_text(alloc: Global) -> bool {
    let text = text_of(alloc, "lab");
    let other = of_string(alloc, "lac");
    let is = is_copied(alloc, &text, "lab")
        && text.compare(&other) == Ordering::Less
        && !text.is(&other);
    drop(other);
    drop(text);
    is && is_set(of_string(alloc, "x"), "lab") && is_set(text_of(alloc, "longer than those"), "lab")
}

/// Whether items that are put into a vector with room stand there in their order.
fn is_pushed_in_order(alloc: Global) -> bool {
    let mut items: Vec<u8> = Vec::new(alloc);
    for item in &[7_u8, 3, 9] {
        if items.reserve(1).is_ok() {
            push_reserved(&mut items, *item);
        }
    }
    let is = items.as_slice() == [7, 3, 9].as_slice();
    drop(items);
    is
}

/// Whether a list of 7 gains 9 at its end, and then gives its first item away.
fn is_first_in_first_out(alloc: Global) -> bool {
    let mut list = bytes_of(alloc, &[7]);
    let is = list.push(9).is_ok()
        && list.len() == 2
        && *list.at(1) == 9
        && list.view() == [7, 9].as_slice()
        && list.take_first() == Some(7)
        && list.view() == [9].as_slice()
        && !list.is_empty();
    drop(list);
    is
}

fn are_new_ones_empty(alloc: Global) -> bool {
    let list = Seq::<Text>::new(alloc);
    let text = Text::new(alloc);
    let are = list.is_empty() && text.is_empty();
    drop(text);
    drop(list);
    are
}

fn is_lab(entry: &Entry) -> bool {
    entry.kind == 1 && entry.key.view() == "lab" && entry.body.view() == b"{}".as_slice()
}

/// Whether the copy of an entry of kind 1, with the key `lab` and the body `{}`, has these parts.
fn is_lab_copied(alloc: Global, copy: Result<Entry, NoMemory>) -> bool {
    let Ok(copy) = Boxed::of(alloc, copy) else {
        return false;
    };
    let change = EntryChange::Put(copy);
    let is = match &change {
        EntryChange::Put(copy) => is_lab(copy),
        EntryChange::Remove { .. } => false,
    };
    drop(change);
    is
}

fn is_entry_copied(alloc: Global) -> bool {
    let entry = Entry {
        kind: 1,
        key: text_of(alloc, "lab"),
        body: bytes_of(alloc, b"{}"),
    };
    let is = is_lab(&entry) && is_lab_copied(alloc, entry.copy(alloc));
    is && is_taken_out(alloc, entry)
}

/// Whether an entry in memory of its own is the same, and is taken out whole.
fn is_taken_out(alloc: Global, entry: Entry) -> bool {
    let Ok(boxed) = Boxed::new(alloc, entry) else {
        return false;
    };
    let is = is_lab(&boxed);
    let entry = boxed.into_inner();
    let is = is && is_lab(&entry);
    drop(entry);
    is
}

fn are_kept(alloc: Global) -> bool {
    is_text(alloc)
        && is_pushed_in_order(alloc)
        && is_first_in_first_out(alloc)
        && are_new_ones_empty(alloc)
        && is_entry_copied(alloc)
}

#[test]
fn lists_texts_and_entries_keep_what_they_hold(rt: HostRuntime) {
    assert!(rt; are_kept(rt.alloc()));
}
