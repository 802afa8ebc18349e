//! Words from one text, and where they say that rows are kept.
use command_words::RowsPath;
use size_values::NoMemory;
use std::alloc::Global;

/// Where rows are kept: in memory, or in a file of this path.
#[derive(Clone, Copy)]
pub(crate) enum Kept {
    Memory,
    Database(&'static str),
    Journal(&'static str),
}

/// Whether rows are kept there.
pub(crate) fn is_at(rows: &RowsPath, kept: Kept) -> bool {
    match (rows, kept) {
        (RowsPath::Memory, Kept::Memory) => true,
        (RowsPath::Database(path), Kept::Database(due)) => path.view() == due,
        (RowsPath::Journal(path), Kept::Journal(due)) => path.view() == due,
        _ => false,
    }
}

/// The words of a text, each of which stands behind a `|`.
pub(crate) fn owned(alloc: Global, text: &str) -> Result<Vec<String>, NoMemory> {
    let mut owned = Vec::new(alloc);
    let mut words = text.split('|');
    let _ = words.next();
    for word in words {
        owned.push(String::from_str(alloc, word)?)?;
    }
    Ok(owned)
}
