use crate::metadata::Metadata;
use size_values::Text;

/// What a reply tells, in the three forms of the REST API (the Incus documentation, "Main API", "Return values").
#[derive(Drop)]
pub enum Answer {
    /// The request was carried out.
    Sync {
        metadata: Metadata,
    },
    /// An operation was begun. It has the path `/1.0/operations/UUID`.
    Async {
        operation: Text,
        metadata: Metadata,
    },
    /// The request was refused: what went wrong, for a person, and the HTTP status code.
    Error {
        text: Text,
        code: u16,
        metadata: Option<Metadata>,
    },
}
