//! What is done for a command, by what it asks for.
ghost use Rattle.std.specs.Prelude.{◌≡◌};
ghost use Rattle.core_instances.specs.Ways.{way_of};

use records::What;

/// What is done for a command that breaks no rule on names and on what stands in the way.
#[derive(Clone, Copy)]
pub(crate) enum Way {
    /// It is answered by what it reads.
    Read,
    /// The operation of this number is cancelled.
    Cancel(u64),
    /// A row is changed at once.
    Change,
    /// An operation begins in the background.
    Begin,
}

/// What is done for a command.
pub(crate) fn way_of(asked: &What) -> Way
    ensures { result ≡ way_of asked.now }
{
    match asked {
        What::Root
        | What::Server
        | What::List { .. }
        | What::Get { .. }
        | What::State { .. }
        | What::GetOp { .. }
        | What::Wait { .. } => Way::Read,
        What::Cancel { op } => Way::Cancel(*op),
        What::Patch { .. } => Way::Change,
        What::Create { .. }
        | What::Put { .. }
        | What::Move { .. }
        | What::Delete { .. }
        | What::Act { .. }
        | What::Restore { .. } => Way::Begin,
    }
}
