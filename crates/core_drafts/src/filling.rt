//! Rows put in one after the other, from nothing.
ghost use Rattle.std.specs.Prelude.{◌≡◌, [], IfOk, OnOk, fold};
ghost use Rattle.records.specs.declared.rows.Row.TheVariants as row_of;
ghost use Rattle.row_machine.specs.facts.Whole.{Rise};
ghost use Rattle.row_machine.specs.machine.Changes.{with_row, powers_with};
ghost use Rattle.row_machine.specs.machine.Rows.{put_by, power_names};
ghost use Rattle.row_machine.specs.opening.Opening.{with_rows};
ghost use Rattle.row_readings.specs.Rising.{AreRising};

use crate::draft::{Draft, stopped};
use crate::edits::{put, put_new};
use crate::lists::Lists;
use crate::placed::Placed;
use records::{Instance, Row};
use row_readings::InstancePower;
use size_values::{Boxed, NoMemory};
use std::alloc::Global;

// ---- one list

/// Puts a row in place of the one of its names, or at its place in the order.
fn fill<T: Placed + Drop>(rows: &mut Vec<T>, row: T) -> Result<(), NoMemory>
    requires { Rise T.names rows.old.items }
    ensures { OnOk result (rows.new.items ≡ put_by T.names row rows.old.items) }
{
    rows.reserve(1)?;
    drop(put(rows, row));
    Ok(())
}

/// The status of a new instance: one that has a status keeps it.
fn fill_power(
    alloc: Global,
    powers: &mut Vec<InstancePower>,
    row: &Instance,
) -> Result<(), NoMemory>
    requires { Rise power_names powers.old.items }
    ensures { OnOk result (powers.new.items ≡ powers_with row.now powers.old.items) }
{
    powers.reserve(1)?;
    let power = stopped(alloc, row)?;
    drop(put_new(powers, power));
    Ok(())
}

// ---- all lists

impl Lists {
    fn fill_instance(&mut self, alloc: Global, row: Boxed<Instance>) -> Result<(), NoMemory>
        requires rises { AreRising self.old.state }
        ensures state { OnOk result (self.new.state ≡ with_row (row_of.Instance row) self.old.state) }
        ensures backing { self.new.backing ≡ self.old.backing }
    {
        match fill_power(alloc, &mut self.powers, &row) {
            Ok(()) => fill(&mut self.instances, row),
            Err(why) => {
                drop(row);
                Err(why)
            }
        }
    }

    /// Puts a row.
    fn fill_row(&mut self, alloc: Global, row: Row) -> Result<(), NoMemory>
        requires rises { AreRising self.old.state }
        ensures state { OnOk result (self.new.state ≡ with_row row self.old.state) }
        ensures backing { self.new.backing ≡ self.old.backing }
    {
        match row {
            Row::Project(row) => fill(&mut self.projects, row),
            Row::Profile(row) => fill(&mut self.profiles, row),
            Row::Network(row) => fill(&mut self.networks, row),
            Row::Pool(row) => fill(&mut self.pools, row),
            Row::Volume(row) => fill(&mut self.volumes, row),
            Row::Instance(row) => self.fill_instance(alloc, row),
            Row::Snapshot(row) => fill(&mut self.snapshots, row),
        }
    }

    /// Puts copies of rows, one after the other.
    fn fill_rows(&mut self, alloc: Global, rows: &[Row]) -> Result<(), NoMemory>
        requires rises { AreRising self.old.state }
        ensures state { OnOk result (self.new.state ≡ fold (λ s r. with_row r s) self.old.state rows.now) }
        ensures rises { OnOk result (AreRising self.new.state) }
        ensures backing { self.new.backing ≡ self.old.backing }
    {
        for row in rows {
            self.fill_row(alloc, row.copy(alloc)?)?;
        }
        Ok(())
    }

    /// Copies of rows, put in one after the other.
    pub(crate) fn of_rows(alloc: Global, rows: &[Row]) -> Result<Lists, NoMemory>
        ensures state { IfOk result (λ l. l.state ≡ with_rows rows.now) }
        ensures rises { IfOk result (λ l. AreRising l.state) }
        ensures greatest { IfOk result (λ l. l.backing.greatest ≡ 0) }
    {
        let mut lists = Lists::new(alloc)?;
        match lists.fill_rows(alloc, rows) {
            Ok(()) => Ok(lists),
            Err(why) => {
                drop(lists);
                Err(why)
            }
        }
    }
}

impl Draft {
    /// A draft of copies of these rows, put in one after the other: every instance is stopped, there is no operation,
    /// and nothing can be taken back. The place of each row is found by binary search; rows that come in the order of
    /// their names are put at the end, so that none is moved.
    pub fn of_rows(alloc: Global, rows: &[Row]) -> Result<Draft, NoMemory>
        ensures state { IfOk result (λ d. d.state ≡ with_rows rows.now) }
        ensures log { IfOk result (λ d. d.log ≡ []) }
        ensures greatest { IfOk result (λ d. d.backing.greatest ≡ 0) }
    {
        let lists = Lists::of_rows(alloc, rows)?;
        Ok(Draft {
            lists,
            log: Vec::new(alloc),
            spares: Vec::new(alloc),
        })
    }
}
