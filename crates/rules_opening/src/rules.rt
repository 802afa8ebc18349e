//! The rules on rows, each asked of one row after another.
ghost use Rattle.std.specs.Prelude.{◌≡◌, IfOk, option_map};
ghost use Rattle.plain_lists.specs.Firsts.{first_of};
ghost use Rattle.size_values.specs.Causes.{Says};
ghost use Rattle.row_machine.specs.opening.Opening.{broken_at, row_breaks, row_rules};
ghost use Rattle.rules_opening.specs.Rules.{row_rule};

use crate::breach::{Breach, broken_at};
use crate::counting::row_lacks_amount;
use crate::places::{defaults_missing, home_missing, parent_row_missing, profiles_malformed};
use crate::policies::forbidden;
use crate::references::{named_row_missing, root_disk_missing};
use crate::settings::{devices_invalid, settings_invalid};
use records::{Row, Rule};
use row_readings::StateRef;
use size_values::{NoMemory, Or};
use std::alloc::Global;

/// A rule on one row.
#[derive(Clone, Copy)]
pub(crate) enum RowRule {
    HomeMissing,
    ParentRowMissing,
    ProfilesMalformed,
    DefaultsMissing,
    SettingsInvalid,
    DevicesInvalid,
    RootDiskMissing,
    NamedRowMissing,
    /// The rule on policy of this number.
    Forbidden(u8),
    RowLacksAmount,
}

/// The rules in their order.
const ROW_RULES: [RowRule; 16] = [
    RowRule::HomeMissing,
    RowRule::ParentRowMissing,
    RowRule::ProfilesMalformed,
    RowRule::DefaultsMissing,
    RowRule::SettingsInvalid,
    RowRule::DevicesInvalid,
    RowRule::RootDiskMissing,
    RowRule::NamedRowMissing,
    RowRule::Forbidden(1),
    RowRule::Forbidden(2),
    RowRule::Forbidden(3),
    RowRule::Forbidden(4),
    RowRule::Forbidden(5),
    RowRule::Forbidden(6),
    RowRule::Forbidden(7),
    RowRule::RowLacksAmount,
];

/// The rule, where a row breaks it.
fn broken_rule(
    alloc: Global,
    view: &StateRef<'_>,
    rule: RowRule,
    row: &Row,
) -> Result<Option<Rule>, NoMemory>
    ensures { IfOk result (λ found. found ≡ row_rule rule view.now row.now) }
{
    match rule {
        RowRule::HomeMissing => Ok(home_missing(view, row)),
        RowRule::ParentRowMissing => Ok(parent_row_missing(view, row)),
        RowRule::ProfilesMalformed => Ok(profiles_malformed(row)),
        RowRule::DefaultsMissing => Ok(defaults_missing(view, row)),
        RowRule::SettingsInvalid => Ok(settings_invalid(row)),
        RowRule::DevicesInvalid => Ok(devices_invalid(row)),
        RowRule::RootDiskMissing => root_disk_missing(alloc, view, row),
        RowRule::NamedRowMissing => named_row_missing(alloc, view, row),
        RowRule::Forbidden(number) => forbidden(alloc, view, number, row),
        RowRule::RowLacksAmount => row_lacks_amount(alloc, view, row),
    }
}

fn row_breaks(
    alloc: Global,
    view: &StateRef<'_>,
    rule: RowRule,
    row: &Row,
) -> Result<(), Or<Breach>>
    ensures { Says result (option_map (broken_at row.now) (row_rule rule view.now row.now)) }
{
    match broken_rule(alloc, view, rule, row)? {
        Some(rule) => Err(Or::Why(broken_at(alloc, row, rule)?)),
        None => Ok(()),
    }
}

/// The first row that breaks a rule.
fn rows_break_rule(
    alloc: Global,
    view: &StateRef<'_>,
    rule: RowRule,
    rows: &[Row],
) -> Result<(), Or<Breach>>
    ensures { Says result (row_breaks view.now rows.now (row_rule rule)) }
{
    for row in rows {
        if let Err(why) = row_breaks(alloc, view, rule, row) {
            return Err(why);
        }
    }
    Ok(())
}

/// The first of some rules that is broken, and the first row that breaks it.
fn rows_break_some(
    alloc: Global,
    view: &StateRef<'_>,
    rules: &[RowRule],
    rows: &[Row],
) -> Result<(), Or<Breach>>
    ensures { Says result (first_of (λ rule. row_breaks view.now rows.now (row_rule rule)) rules.now) }
{
    for rule in rules {
        if let Err(why) = rows_break_rule(alloc, view, *rule, rows) {
            return Err(why);
        }
    }
    Ok(())
}

/// The first rule on rows that is broken, and the first row that breaks it.
pub(crate) fn rows_break_rules(
    alloc: Global,
    view: &StateRef<'_>,
    rows: &[Row],
) -> Result<(), Or<Breach>>
    ensures { Says result (first_of (row_breaks view.now rows.now) row_rules) }
{
    rows_break_some(alloc, view, &ROW_RULES, rows)
}
