//! What each kind of row is named by, and the order of names.
ghost use Rattle.std.specs.Prelude.{◌≡◌, ℕ, List};
ghost use Rattle.std.specs.Cmp.Lexicographic.{slice_cmp};
ghost use Rattle.std.specs.Ordering.{nat_cmp};
ghost use Rattle.row_machine.specs.machine.Rows.{project_names, profile_names, network_names, pool_names, volume_names};
ghost use Rattle.row_machine.specs.machine.Rows.{instance_names, snapshot_names, power_names};
ghost use Rattle.row_readings.specs.Rising.{begins_with, comes_before, names_in};

use crate::state_ref::InstancePower;
use records::{Instance, Network, Pool, Profile, Project, Snapshot, Volume};
use size_values::Boxed;
use std::cmp::Ordering;

/// The names of a row, from that of its project on, lent.
#[derive(Clone, Copy)]
pub enum Names<'x> {
    One(&'x str),
    Two(&'x str, &'x str),
    Three(&'x str, &'x str, &'x str),
}

impl Names<'_> {
    /// Whether the first of these names is that of a project.
    pub fn is_of(self, project: &str) -> bool
        ensures { result ≡ begins_with project.now (names_in self.entry) }
    {
        match self {
            Names::One(first) => first == project,
            Names::Two(first, _) => first == project,
            Names::Three(first, _, _) => first == project,
        }
    }

    /// Whether the first of these names comes before that of a project.
    pub(crate) fn is_before(self, project: &str) -> bool
        ensures { result ≡ comes_before project.now (names_in self.entry) }
    {
        match self {
            Names::One(first) => first < project,
            Names::Two(first, _) => first < project,
            Names::Three(first, _, _) => first < project,
        }
    }

    /// The order of names, text by text: the first that differ decide, and else that there are no more of them.
    pub fn compare(self, others: Names<'_>) -> Ordering
        ensures { result ≡ slice_cmp (slice_cmp nat_cmp) (names_in self.entry) (names_in others.entry) }
    {
        match (self, others) {
            (Names::One(a), Names::One(x)) => a.cmp(x),
            (Names::One(a), Names::Two(x, _)) => a.cmp(x).then(Ordering::Less),
            (Names::One(a), Names::Three(x, _, _)) => a.cmp(x).then(Ordering::Less),
            (Names::Two(a, _), Names::One(x)) => a.cmp(x).then(Ordering::Greater),
            (Names::Two(a, b), Names::Two(x, y)) => a.cmp(x).then(b.cmp(y)),
            (Names::Two(a, b), Names::Three(x, y, _)) => {
                a.cmp(x).then(b.cmp(y)).then(Ordering::Less)
            }
            (Names::Three(a, _, _), Names::One(x)) => a.cmp(x).then(Ordering::Greater),
            (Names::Three(a, b, _), Names::Two(x, y)) => {
                a.cmp(x).then(b.cmp(y)).then(Ordering::Greater)
            }
            (Names::Three(a, b, c), Names::Three(x, y, z)) => {
                a.cmp(x).then(b.cmp(y)).then(c.cmp(z))
            }
        }
    }
}

/// A row that stands in the order of its names.
pub trait Named {
    /// The names of a row.
    ghost names: { Self → List (List ℕ) };

    /// The names, lent.
    fn lent_names(&self) -> Names<'_>
        ensures { names_in result ≡ names self.now };
}

impl<T: Named> Named for Boxed<T> {
    ghost names = { T.names };

    fn lent_names(&self) -> Names<'_> {
        T::lent_names(self)
    }
}

impl Named for Project {
    ghost names = { project_names };

    fn lent_names(&self) -> Names<'_> {
        Names::One(self.name.view())
    }
}

impl Named for Profile {
    ghost names = { profile_names };

    fn lent_names(&self) -> Names<'_> {
        Names::Two(self.project.view(), self.name.view())
    }
}

impl Named for Network {
    ghost names = { network_names };

    fn lent_names(&self) -> Names<'_> {
        Names::Two(self.project.view(), self.name.view())
    }
}

impl Named for Pool {
    ghost names = { pool_names };

    fn lent_names(&self) -> Names<'_> {
        Names::One(self.name.view())
    }
}

impl Named for Volume {
    ghost names = { volume_names };

    fn lent_names(&self) -> Names<'_> {
        Names::Three(self.project.view(), self.pool.view(), self.name.view())
    }
}

impl Named for Instance {
    ghost names = { instance_names };

    fn lent_names(&self) -> Names<'_> {
        Names::Two(self.project.view(), self.name.view())
    }
}

impl Named for Snapshot {
    ghost names = { snapshot_names };

    fn lent_names(&self) -> Names<'_> {
        Names::Three(self.project.view(), self.instance.view(), self.name.view())
    }
}

impl Named for InstancePower {
    ghost names = { power_names };

    fn lent_names(&self) -> Names<'_> {
        Names::Two(self.project.view(), self.name.view())
    }
}
