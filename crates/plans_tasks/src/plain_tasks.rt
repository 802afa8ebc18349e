//! Operations, put together of their parts.
ghost use Rattle.std.specs.Prelude.{◌≡◌, IfOk, Some};
ghost use Rattle.records.specs.declared.rows.Row.TheVariants as row_of;
ghost use Rattle.row_machine.specs.machine.Tasks.{plain_task};

use crate::pairs::both;
use host_model::HostCall;
use records::{Instance, Row, Target};
use row_machine::Task;
use size_values::{Boxed, Deed, NoMemory, Seq, Text};
use std::alloc::Global;

/// What an operation is about: its project and its object.
pub(crate) fn project_and_target(
    alloc: Global,
    project: &Text,
    of: &Target,
) -> Result<(Text, Target), NoMemory>
    ensures { IfOk result (λ a. a ≡ (project.now, of.now)) }
{
    both(project.copy(alloc), of.copy(alloc))
}

/// An operation that claims nothing.
pub(crate) fn plain_task(deed: Deed, about: (Text, Target), calls: Seq<HostCall>) -> Task
    ensures { result ≡ plain_task deed about.0 about.1 calls }
{
    Task {
        deed,
        project: about.0,
        target: about.1,
        claim: None,
        replaces: None,
        source: None,
        calls,
        undo: None,
        done: 0,
    }
}

/// What an operation is about that replaces an instance, and the project and name of that instance.
pub(crate) fn target_and_replaced(
    alloc: Global,
    project: &Text,
    of: &Target,
) -> Result<((Text, Target), (Text, Text)), NoMemory>
    ensures { IfOk result (λ r. r ≡ ((project.now, of.now), (project.now, of.now.name))) }
{
    let name = both(project.copy(alloc), of.name.copy(alloc));
    both(project_and_target(alloc, project, of), name)
}

/// An operation whose claimed row replaces an instance.
pub(crate) fn replacing_task(
    deed: Deed,
    replaced: ((Text, Target), (Text, Text)),
    row: Boxed<Instance>,
    calls: Seq<HostCall>,
) -> Task
    ensures { result
        ≡ record (plain_task deed replaced.0.0 replaced.0.1 calls) {
          claim = Some (row_of.Instance row);
          replaces = Some replaced.1;
        } }
{
    let about = replaced.0;
    Task {
        deed,
        project: about.0,
        target: about.1,
        claim: Some(Row::Instance(row)),
        replaces: Some(replaced.1),
        source: None,
        calls,
        undo: None,
        done: 0,
    }
}
