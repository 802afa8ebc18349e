//! Rows put and removed in the order of their names, without taking memory, with what takes it back.
ghost use Rattle.std.specs.Prelude.{◌≡◌, ◌<◌, ◌≤◌, ◌+◌, ◌-◌, length, set, if◌then◌else◌, vec_len, vec_capacity};
ghost use Rattle.std.specs.List.{position, insert, list_any};
ghost use Rattle.std.specs.List.Sorted.{IsSearchInRange};
ghost use Rattle.plain_lists.specs.Edits.{dropped};
ghost use Rattle.row_machine.specs.facts.Whole.{Rise};
ghost use Rattle.row_machine.specs.machine.Rows.{same_names, put_by};
ghost use Rattle.row_readings.specs.Rising.{FindsPlace};
ghost use Rattle.core_drafts.specs.Steps.{before_step, FitsStep};

use crate::placed::Placed;
use row_readings::place_named;
use std::mem;

/// What a change did to one list: nothing; or a row took the place of this one; or a row was put in at a place; or this
/// one was taken out of a place.
#[derive(Drop)]
pub(crate) enum Step<T> {
    Kept,
    Replaced(usize, T),
    TakenIn(usize),
    TakenOut(usize, T),
}

/// The place of the row with the names of this one, or the one at which this one would stand.
fn index_of<T: Placed>(rows: &[T], row: &T) -> Result<usize, usize>
    requires { Rise T.names rows.now }
    ensures bound { IsSearchInRange result (length rows.now) }
    ensures place { FindsPlace T.names (T.names row.now) rows.now result }
{
    place_named(rows, row.lent_names())
}

/// The place of the row of a key, by binary search where the key tells the names of the row, and else from the front.
fn place_keyed<T: Placed>(rows: &[T], key: &str) -> Option<usize>
    requires { Rise T.names rows.now }
    ensures { result ≡ position (T.keyed key.now) rows.now }
{
    match T::names_of_key(key) {
        Some(names) => place_named(rows, names).ok(),
        None => rows.iter().position(|row| row.has_key(key)),
    }
}

/// Puts an item at a place of a vector that has room for it. It takes no memory.
fn insert_reserved<T: Drop>(items: &mut Vec<T>, place: usize, item: T)
    requires place { place ≤ length items.old.items }
    requires room { vec_len items.old < vec_capacity items.old }
    ensures items { items.new.items ≡ insert items.old.items place item }
    ensures capacity { vec_capacity items.old ≤ vec_capacity items.new }
{
    if items.insert(place, item).is_err() {
        unreachable!();
    }
}

/// Puts an item in place of the one that stands there, and gives that back.
fn replace_at<T: Drop>(items: &mut Vec<T>, place: usize, item: T) -> T
    requires place { place < length items.old.items }
    ensures items { items.new.items ≡ set items.old.items place item }
    ensures back { set items.new.items place result ≡ items.old.items }
    ensures capacity { vec_capacity items.old ≤ vec_capacity items.new }
{
    mem::replace(&mut items[place], item)
}

/// A row in place of the one of its names, or at its place in the order. It takes no memory.
pub(crate) fn put<T: Placed + Drop>(rows: &mut Vec<T>, row: T) -> Step<T>
    requires rises { Rise T.names rows.old.items }
    requires room { vec_len rows.old < vec_capacity rows.old }
    ensures rows { rows.new.items ≡ put_by T.names row rows.old.items }
    ensures back { before_step result rows.new.items ≡ rows.old.items }
    ensures fits { FitsStep result rows.new.items }
    ensures room { vec_capacity rows.old - vec_len rows.old ≤ (vec_capacity rows.new - vec_len rows.new) + 1 }
{
    match index_of(rows, &row) {
        Ok(place) => Step::Replaced(place, replace_at(rows, place, row)),
        Err(place) => {
            insert_reserved(rows, place, row);
            Step::TakenIn(place)
        }
    }
}

/// A row at its place in the order, unless one of its names is there. It takes no memory.
pub(crate) fn put_new<T: Placed + Drop>(rows: &mut Vec<T>, row: T) -> Step<T>
    requires rises { Rise T.names rows.old.items }
    requires room { vec_len rows.old < vec_capacity rows.old }
    ensures rows { rows.new.items
        ≡ (if list_any (λ other. same_names (T.names other) (T.names row)) rows.old.items
        then rows.old.items else put_by T.names row rows.old.items) }
    ensures back { before_step result rows.new.items ≡ rows.old.items }
    ensures fits { FitsStep result rows.new.items }
    ensures room { vec_capacity rows.old - vec_len rows.old ≤ (vec_capacity rows.new - vec_len rows.new) + 1 }
{
    match index_of(rows, &row) {
        Ok(_) => Step::Kept,
        Err(place) => {
            insert_reserved(rows, place, row);
            Step::TakenIn(place)
        }
    }
}

/// Without the row of this key.
pub(crate) fn remove<T: Placed + Drop>(rows: &mut Vec<T>, key: &str) -> Step<T>
    requires rises { Rise T.names rows.old.items }
    ensures rows { rows.new.items ≡ dropped (T.keyed key.now) rows.old.items }
    ensures back { before_step result rows.new.items ≡ rows.old.items }
    ensures fits { FitsStep result rows.new.items }
    ensures room { vec_capacity rows.old - vec_len rows.old ≤ (vec_capacity rows.new - vec_len rows.new) + 1 }
{
    match place_keyed(rows, key) {
        Some(place) => Step::TakenOut(place, rows.remove(place)),
        None => Step::Kept,
    }
}

/// As it was before the step. It takes no memory.
pub(crate) fn undo_step<T: Drop>(rows: &mut Vec<T>, step: Step<T>)
    requires fits { FitsStep step rows.old.items }
    requires room { vec_len rows.old < vec_capacity rows.old }
    ensures rows { rows.new.items ≡ before_step step rows.old.items }
    ensures room { vec_capacity rows.old - vec_len rows.old ≤ (vec_capacity rows.new - vec_len rows.new) + 1 }
{
    match step {
        Step::Kept => {}
        Step::Replaced(place, old) => rows[place] = old,
        Step::TakenIn(place) => {
            rows.remove(place);
        }
        Step::TakenOut(place, old) => insert_reserved(rows, place, old),
    }
}
