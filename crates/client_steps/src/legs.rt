//! The requests of each command, in their order.
ghost use Rattle.std.specs.Prelude.{◌≡◌};
ghost use Rattle.client_steps.specs.Legs.{legs_of};

use client_words::Asks;

/// A request of a command, with its reply.
#[derive(Clone, Copy, PartialEq, Eq)]
pub enum Leg {
    /// The instances of the project.
    List,
    /// An instance is made.
    Create,
    Start,
    Stop,
    Delete,
    /// The end of the operation that the last reply began.
    Await,
    /// The end of the operation that the words name.
    Wait,
    Cancel,
    /// What the project uses, and its limits.
    Limits,
}

/// The legs of a command.
pub(crate) fn legs_of(asks: &Asks) -> &'static [Leg]
    ensures { result.now ≡ legs_of asks.now }
{
    match asks {
        Asks::List { .. } => &[Leg::List],
        Asks::Launch { .. } => &[Leg::Create, Leg::Await, Leg::Start, Leg::Await],
        Asks::Start { .. } => &[Leg::Start, Leg::Await],
        Asks::Stop { .. } => &[Leg::Stop, Leg::Await],
        Asks::Delete { .. } => &[Leg::Delete, Leg::Await],
        Asks::Wait { .. } => &[Leg::Wait],
        Asks::Cancel { .. } => &[Leg::Cancel],
        Asks::Limits => &[Leg::Limits],
    }
}
