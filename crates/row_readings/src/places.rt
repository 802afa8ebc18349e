//! Places of rows in lists that rise by their names.
ghost use Rattle.std.specs.Prelude.{◌≡◌, ◌≤◌, true, false, filter, find, length};
ghost use Rattle.std.specs.Bool.{Decides};
ghost use Rattle.std.specs.List.Sorted.{IsPartitionPoint, IsSearchInRange};
ghost use Rattle.std.specs.Option.{option_copied};
ghost use Rattle.row_machine.specs.facts.Whole.{Rise};
ghost use Rattle.row_machine.specs.machine.Rows.{same_names};
ghost use Rattle.row_readings.specs.Rising.{begins_with, comes_before, names_in, rows_at_home, FindsPlace};

use crate::named::{Named, Names};
use size_values::Boxed;

/// Whether rows rise by their names.
pub fn rises<T: Named>(rows: &[T]) -> bool
    ensures { Decides result (Rise T.names rows.now) }
{
    rows.is_sorted_by(|row, next| row.lent_names().compare(next.lent_names()).is_lt())
}

/// The place of the row of these names, or the one at which it would stand, by binary search.
pub fn place_named<T: Named>(rows: &[T], names: Names<'_>) -> Result<usize, usize>
    requires { Rise T.names rows.now }
    ensures bound { IsSearchInRange result (length rows.now) }
    ensures place { FindsPlace T.names (names_in names.entry) rows.now result }
{
    rows.binary_search_by(|row| row.lent_names().compare(names))
}

/// The rows of a project, which follow one another, by binary search.
pub fn rows_of<'x, T: Named>(rows: &'x [T], project: &str) -> &'x [T]
    requires { Rise T.names rows.now }
    ensures { result.now ≡ filter (λ row. begins_with project.now (T.names row)) rows.now }
{
    let from = &rows[first_at_or_after(rows, project)..];
    let count = from.partition_point(|row| row.lent_names().is_of(project));
    &from[..count]
}

/// The rows of those projects that may have this home: of all where it is `default`, which projects share, and else of
/// the project of this name.
pub fn rows_at_home<'x, T: Named>(rows: &'x [T], home: &str) -> &'x [T]
    requires { Rise T.names rows.now }
    ensures { result.now ≡ rows_at_home T.names home.now rows.now }
{
    if home == "default" {
        rows
    } else {
        rows_of(rows, home)
    }
}

/// The place of the first row that the name of a project does not go after, or the number of rows.
fn first_at_or_after<T: Named>(rows: &[T], project: &str) -> usize
    requires { Rise T.names rows.now }
    ensures parts { IsPartitionPoint (λ row. comes_before project.now (T.names row) ≡ true)
        (λ row. comes_before project.now (T.names row) ≡ false) rows.now result }
    ensures bound { result ≤ length rows.now }
{
    rows.partition_point(|row| row.lent_names().is_before(project))
}

/// The row of these names, among rows that stand each in memory of its own.
pub(crate) fn boxed_row_named<'x, T: Named>(rows: &'x [Boxed<T>], names: Names<'_>) -> Option<&'x T>
    requires { Rise T.names rows.now }
    ensures { option_copied result ≡ find (λ row. same_names (T.names row) (names_in names.entry)) rows.now }
{
    match row_named(rows, names) {
        Some(row) => Some(row),
        None => None,
    }
}

/// The row of these names.
pub(crate) fn row_named<'x, T: Named>(rows: &'x [T], names: Names<'_>) -> Option<&'x T>
    requires { Rise T.names rows.now }
    ensures { option_copied result ≡ find (λ row. same_names (T.names row) (names_in names.entry)) rows.now }
{
    match place_named(rows, names) {
        Ok(place) => Some(&rows[place]),
        Err(_) => None,
    }
}
