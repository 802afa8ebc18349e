//! Background operations as they are shown, singly and by their status.
ghost use Rattle.std.specs.Prelude.{◌≡◌, ◌++◌, IfOk, OnOk, map, filter, length, unwrap_or, nat_lt};
ghost use Rattle.std.specs.List.{filter_map, position};
ghost use Rattle.std.specs.Option.{option_to_list};
ghost use Rattle.object_views.specs.Statuses.{has_status};
ghost use Rattle.operations.specs.OperationTable.{by_number};
ghost use Rattle.plain_lists.specs.Edits.{inserted};
ghost use Rattle.row_machine.specs.shown.Notices.{view_of};
ghost use Rattle.row_machine.specs.shown.Views.{by_status, if_any, one};
ghost use Rattle.row_machine.specs.shown.Views.{operation_view, operations_reply, status_number};

use crate::operation_ref::OperationRef;
use object_links::view_of;
use operations::{Operation, Status};
use records::{OpView, Reply, View};
use row_machine::Task;
use row_readings::{StateRef, kept_at};
use size_values::{NoMemory, Seq};
use std::alloc::Global;

// ---- single operations

/// The operation of a number, if it is kept.
pub fn operation_reply(alloc: Global, view: &StateRef<'_>, number: u64) -> Result<Reply, NoMemory>
    ensures { IfOk result (λ r. r ≡ one (operation_view view.now number)) }
{
    match kept_at(view, number) {
        Some(operation) => Ok(Reply::One(View::Op(view_of(alloc, operation)?))),
        None => Ok(Reply::Empty),
    }
}

// ---- the kept operations in the order of their numbers

fn add_operations<'x>(
    operations: &'x [Operation<Task>],
    all: &mut Vec<OperationRef<'x>>,
) -> Result<(), NoMemory>
    ensures { OnOk result (all.new.items ≡ all.old.items ++ operations.now) }
{
    for operation in operations {
        all.push(OperationRef { operation })?;
    }
    Ok(())
}

/// All kept operations, those that live first.
fn kept_operations<'x>(
    alloc: Global,
    view: &StateRef<'x>,
) -> Result<Vec<OperationRef<'x>>, NoMemory>
    ensures { IfOk result (λ all. all.items ≡ view.now.operations.live ++ view.now.operations.ended) }
{
    let mut all = Vec::new(alloc);
    add_operations(view.live, &mut all)?;
    add_operations(view.ended, &mut all)?;
    Ok(all)
}

/// The place of the first operation of a higher number.
fn first_higher(operations: &[OperationRef<'_>], number: u64) -> Option<usize>
    ensures { result ≡ position (λ o. nat_lt number o.number) operations.now }
{
    operations
        .iter()
        .position(|other| number < other.operation.number)
}

/// The place that an operation takes: in front of the first of a higher number, or after all.
fn gap(operations: &[OperationRef<'_>], number: u64) -> usize
    ensures { result ≡ unwrap_or (position (λ o. nat_lt number o.number) operations.now) (length operations.now) }
{
    match first_higher(operations, number) {
        Some(place) => place,
        None => operations.len(),
    }
}

fn insert_operation<'x>(
    all: &mut Vec<OperationRef<'x>>,
    operation: &'x Operation<Task>,
) -> Result<(), NoMemory>
    ensures { OnOk result (all.new.items
        ≡ inserted (λ o. nat_lt operation.now.number o.number) operation.now all.old.items) }
{
    let place = gap(all, operation.number);
    all.insert(place, OperationRef { operation })?;
    Ok(())
}

/// Operations in the order of their numbers.
fn by_number<'x>(
    alloc: Global,
    operations: &[OperationRef<'x>],
) -> Result<Vec<OperationRef<'x>>, NoMemory>
    ensures { IfOk result (λ all. all.items ≡ by_number operations.now) }
{
    let mut all = Vec::new(alloc);
    let mut place = operations.len();
    while place > 0 {
        place -= 1;
        let row = &operations[place];
        insert_operation(&mut all, row.operation)?;
    }
    Ok(all)
}

/// The kept operations in the order of their numbers.
fn numbered<'x>(alloc: Global, view: &StateRef<'x>) -> Result<Vec<OperationRef<'x>>, NoMemory>
    ensures { IfOk result (λ all. all.items ≡ by_number (view.now.operations.live ++ view.now.operations.ended)) }
{
    let all = kept_operations(alloc, view)?;
    by_number(alloc, &all)
}

// ---- the operations of a project by their status

/// The statuses, in the order in which they are shown.
const STATUSES: [Status; 6] = [
    Status::Pending,
    Status::Running,
    Status::Cancelling,
    Status::Success,
    Status::Failure,
    Status::Cancelled,
];

fn status_number(status: Status) -> u8
    ensures { result ≡ status_number status }
{
    match status {
        Status::Pending => 0,
        Status::Running => 1,
        Status::Cancelling => 2,
        Status::Success => 3,
        Status::Failure => 4,
        Status::Cancelled => 5,
    }
}

/// The operations of a project that have a status.
fn with_status<'x>(
    alloc: Global,
    operations: &[OperationRef<'x>],
    project: &str,
    status: Status,
) -> Result<Vec<OperationRef<'x>>, NoMemory>
    ensures { IfOk result (λ all. all.items ≡ filter (has_status project.now status) operations.now) }
{
    let mut all = Vec::new(alloc);
    for row in operations {
        if has_status(row.operation, project, status) {
            all.push(OperationRef {
                operation: row.operation,
            })?;
        }
    }
    Ok(all)
}

fn has_status(operation: &Operation<Task>, project: &str, status: Status) -> bool
    ensures { result ≡ has_status project.now status operation.now }
{
    operation.work.project.view() == project
        && status_number(operation.status) == status_number(status)
}

fn numbers(alloc: Global, operations: &[OperationRef<'_>]) -> Result<Seq<u64>, NoMemory>
    ensures { IfOk result (λ numbers. numbers ≡ map (λ o. o.number) operations.now) }
{
    let mut numbers = Seq::new(alloc);
    for row in operations {
        numbers.push(row.operation.number)?;
    }
    Ok(numbers)
}

fn views(alloc: Global, operations: &[OperationRef<'_>]) -> Result<Seq<OpView>, NoMemory>
    ensures { IfOk result (λ views. views ≡ map view_of operations.now) }
{
    let mut views = Seq::new(alloc);
    for row in operations {
        views.push(view_of(alloc, row.operation)?)?;
    }
    Ok(views)
}

/// Adds a status with the numbers of its operations, where there are any.
fn add_numbers(
    alloc: Global,
    operations: &[OperationRef<'_>],
    project: &str,
    status: Status,
    groups: &mut Seq<(Status, Seq<u64>)>,
) -> Result<(), NoMemory>
    ensures { OnOk result (groups.new ≡ groups.old
        ++ option_to_list (if_any (λ o. o.number) status (filter (has_status project.now status) operations.now))) }
{
    let chosen = with_status(alloc, operations, project, status)?;
    if chosen.is_empty() {
        return Ok(());
    }
    let numbers = numbers(alloc, &chosen)?;
    groups.push((status, numbers))
}

/// Adds a status with the views of its operations, where there are any.
fn add_views(
    alloc: Global,
    operations: &[OperationRef<'_>],
    project: &str,
    status: Status,
    groups: &mut Seq<(Status, Seq<OpView>)>,
) -> Result<(), NoMemory>
    ensures { OnOk result (groups.new ≡ groups.old
        ++ option_to_list (if_any view_of status (filter (has_status project.now status) operations.now))) }
{
    let chosen = with_status(alloc, operations, project, status)?;
    if chosen.is_empty() {
        return Ok(());
    }
    let views = views(alloc, &chosen)?;
    groups.push((status, views))
}

fn numbers_by_status(
    alloc: Global,
    operations: &[OperationRef<'_>],
    project: &str,
    statuses: &[Status],
) -> Result<Seq<(Status, Seq<u64>)>, NoMemory>
    ensures { IfOk result (λ groups. groups
        ≡ filter_map (λ status. if_any (λ o. o.number) status
        (filter (has_status project.now status) operations.now)) statuses.now) }
{
    let mut groups = Seq::new(alloc);
    for status in statuses {
        add_numbers(alloc, operations, project, *status, &mut groups)?;
    }
    Ok(groups)
}

fn views_by_status(
    alloc: Global,
    operations: &[OperationRef<'_>],
    project: &str,
    statuses: &[Status],
) -> Result<Seq<(Status, Seq<OpView>)>, NoMemory>
    ensures { IfOk result (λ groups. groups
        ≡ filter_map (λ status. if_any view_of status
        (filter (has_status project.now status) operations.now)) statuses.now) }
{
    let mut groups = Seq::new(alloc);
    for status in statuses {
        add_views(alloc, operations, project, *status, &mut groups)?;
    }
    Ok(groups)
}

/// The kept operations of a project by each status, with their numbers.
fn all_numbers(
    alloc: Global,
    view: &StateRef<'_>,
    project: &str,
) -> Result<Seq<(Status, Seq<u64>)>, NoMemory>
    ensures { IfOk result (λ groups. groups ≡ by_status (λ o. o.number) view.now project.now) }
{
    let operations = numbered(alloc, view)?;
    numbers_by_status(alloc, &operations, project, &STATUSES)
}

/// The kept operations of a project by each status, whole.
fn all_views(
    alloc: Global,
    view: &StateRef<'_>,
    project: &str,
) -> Result<Seq<(Status, Seq<OpView>)>, NoMemory>
    ensures { IfOk result (λ groups. groups ≡ by_status view_of view.now project.now) }
{
    let operations = numbered(alloc, view)?;
    views_by_status(alloc, &operations, project, &STATUSES)
}

/// The kept operations of a project by their status, with numbers or whole.
pub fn operations_reply(
    alloc: Global,
    view: &StateRef<'_>,
    project: &str,
    recursion: bool,
) -> Result<Reply, NoMemory>
    ensures { IfOk result (λ r. r ≡ operations_reply view.now project.now recursion) }
{
    if recursion {
        Ok(Reply::OpMany(all_views(alloc, view, project)?))
    } else {
        Ok(Reply::OpLinks(all_numbers(alloc, view, project)?))
    }
}
