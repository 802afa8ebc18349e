/// What a journal keeper knows of the gate behind its last commit.
#[derive(Clone, Copy)]
pub enum Gate {
    /// No load has succeeded yet.
    Unread,
    /// It stands closed at this place.
    Closed(u64),
    /// It stands at this place, and may be open or closed.
    Unsure(u64),
}
