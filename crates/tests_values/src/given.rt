//! Texts and lists that are made of what a test gives. Where memory is refused they are empty, and not what it gives.
use size_values::{Seq, Text};
use std::alloc::Global;

pub fn text_of(alloc: Global, text: &str) -> Text {
    match Text::from_text(alloc, text) {
        Ok(text) => text,
        Err(_) => Text::new(alloc),
    }
}

pub fn bytes_of(alloc: Global, bytes: &[u8]) -> Seq<u8> {
    match Seq::of_bytes(alloc, bytes) {
        Ok(bytes) => bytes,
        Err(_) => Seq::new(alloc),
    }
}

pub fn numbers_of(alloc: Global, numbers: &[u64]) -> Seq<u64> {
    match Vec::from_slice(alloc, numbers) {
        Ok(numbers) => Seq::from_vec(numbers),
        Err(_) => Seq::new(alloc),
    }
}
