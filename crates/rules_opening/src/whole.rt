//! The first rule that kept rows break.
ghost use Rattle.std.specs.Prelude.{◌≡◌, ◌==◌, [], filter, option_map, slice_get};
ghost use Rattle.std.specs.Option.{option_copied};
ghost use Rattle.plain_lists.specs.Firsts.{first_of};
ghost use Rattle.size_values.specs.Causes.{Says};
ghost use Rattle.records.specs.declared.refusals.Rule.TheVariants as rule_of;
ghost use Rattle.row_codec.specs.Spelling.{kind_of};
ghost use Rattle.row_machine.specs.machine.Kinds.{kind_number, cap_of};
ghost use Rattle.row_machine.specs.machine.LimitRules.{limits_broken};
ghost use Rattle.row_machine.specs.machine.TableRules.{row_kinds, too_large};
ghost use Rattle.row_machine.specs.opening.Opening.{broken_at, default_missing, limit_breaks, past_cap, size_breaks};
ghost use Rattle.row_machine.specs.opening.Opening.{rows_break};
ghost use Rattle.rules_opening.specs.Rules.{breach_of};

use crate::breach::{Breach, broken_at, broken_in};
use crate::rules::rows_break_rules;
use records::{Row, Rule};
use row_codec::{kind_of, row_size};
use row_readings::StateRef;
use rows_made::{LARGEST_ROW, cap_of};
use rules_limits::standing_limits_broken;
use size_values::{ObjectKind, Or};
use std::alloc::Global;

/// The kinds of rows.
const ROW_KINDS: [ObjectKind; 7] = [
    ObjectKind::Project,
    ObjectKind::Profile,
    ObjectKind::Network,
    ObjectKind::Pool,
    ObjectKind::Volume,
    ObjectKind::Instance,
    ObjectKind::Snapshot,
];

/// The project `default` is missing.
fn default_missing(alloc: Global, view: &StateRef<'_>) -> Result<(), Or<Breach>>
    ensures { Says result (default_missing view.now) }
{
    if view.project_named("default").is_some() {
        return Ok(());
    }
    Err(Or::Why(broken_in(alloc, "default", Rule::N1)?))
}

// ---- the limits of projects

/// The first limit that a project's usage is above, told at the project.
fn limit_breach(alloc: Global, view: &StateRef<'_>) -> Result<(), Or<Breach>>
    ensures { Says result (option_map breach_of (limits_broken view.now view.now)) }
{
    match standing_limits_broken(alloc, view) {
        Ok(()) => Ok(()),
        Err(Or::NoMemory) => Err(Or::NoMemory),
        Err(Or::Why(refusal)) => {
            let told = broken_in(alloc, refusal.details.project.view(), refusal.rule);
            drop(refusal);
            Err(Or::Why(told?))
        }
    }
}

/// A project's usage is above a limit of its own.
fn limit_breaks(alloc: Global, view: &StateRef<'_>) -> Result<(), Or<Breach>>
    ensures { Says result (limit_breaks view.now []) }
{
    limit_breach(alloc, view)
}

// ---- the number of rows

/// How kept entries number a kind.
fn kind_number(kind: ObjectKind) -> u8
    ensures { result ≡ kind_number kind }
{
    match kind {
        ObjectKind::Project => 1,
        ObjectKind::Profile => 2,
        ObjectKind::Network => 3,
        ObjectKind::Pool => 4,
        ObjectKind::Volume => 5,
        ObjectKind::Instance => 6,
        ObjectKind::Snapshot => 7,
        ObjectKind::Operation => 0,
    }
}

/// The row of a kind after this many others.
fn row_after(rows: &[Row], kind: u8, before: u64) -> Option<&Row>
    ensures { option_copied result ≡ slice_get (filter (λ r. kind_of r == kind) rows.now) before }
{
    let mut left = before;
    for row in rows {
        if kind_of(row) == kind {
            if left == 0 {
                return Some(row);
            }
            left -= 1;
        }
    }
    None
}

/// The first row of a kind after the last one that there may be.
fn past_cap(alloc: Global, rows: &[Row], kind: ObjectKind) -> Result<(), Or<Breach>>
    ensures { Says result (past_cap rows.now kind) }
{
    match row_after(rows, kind_number(kind), cap_of(kind)) {
        Some(row) => Err(Or::Why(broken_at(alloc, row, Rule::C1)?)),
        None => Ok(()),
    }
}

/// The first kind of which there are too many rows.
fn caps_break(alloc: Global, rows: &[Row]) -> Result<(), Or<Breach>>
    ensures { Says result (first_of (past_cap rows.now) row_kinds) }
{
    for kind in ROW_KINDS {
        if let Err(why) = past_cap(alloc, rows, kind) {
            return Err(why);
        }
    }
    Ok(())
}

// ---- the size of rows

fn row_too_large(alloc: Global, row: &Row) -> Result<(), Or<Breach>>
    ensures { Says result (option_map (λ why. broken_at row.now rule_of.C2) (too_large row.now)) }
{
    if row_size(row) <= LARGEST_ROW {
        return Ok(());
    }
    Err(Or::Why(broken_at(alloc, row, Rule::C2)?))
}

/// The first row that is too large.
fn size_breaks(alloc: Global, rows: &[Row]) -> Result<(), Or<Breach>>
    ensures { Says result (size_breaks rows.now) }
{
    for row in rows {
        if let Err(why) = row_too_large(alloc, row) {
            return Err(why);
        }
    }
    Ok(())
}

/// The first rule that kept rows break, and the row at which they do. The view is that of the rows.
#[tactic(auto, unfolding(row_machine::specs::opening::Opening::rows_break))]
pub fn rows_break(alloc: Global, view: &StateRef<'_>, rows: &[Row]) -> Result<(), Or<Breach>>
    ensures { Says result (rows_break view.now rows.now) }
{
    default_missing(alloc, view)?;
    rows_break_rules(alloc, view, rows)?;
    limit_breaks(alloc, view)?;
    caps_break(alloc, rows)?;
    size_breaks(alloc, rows)
}
