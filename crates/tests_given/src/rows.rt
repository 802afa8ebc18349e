//! Rows of a server for tests, and what is put into them.
ghost use Rattle.std.specs.Prelude.{◌≡◌, IfOk};
ghost use Rattle.row_machine.specs.facts.Whole.{Rise};

use config_lists::{Config, Devices};
use operations::Operation;
use records::{Instance, Network, Pool, Profile, Project, Snapshot, Volume};
use reservations::{Books, Hold};
use row_machine::Task;
use row_readings::{InstancePower, Named, StateRef, rises};
use size_values::{Amounts, Boxed, NoMemory, Text};
use std::alloc::Global;

/// Both values, where there was memory for both. Neither is then alive where the other one is missing.
pub fn both<A: Drop, B: Drop>(
    first: Result<A, NoMemory>,
    second: Result<B, NoMemory>,
) -> Result<(A, B), NoMemory>
    ensures { IfOk result (λ pair. (first ≡ Ok pair.0) × (second ≡ Ok pair.1)) }
{
    let first = first?;
    let second = second?;
    Ok((first, second))
}

/// Rows that rise by their names, and otherwise none.
pub fn in_order<T: Named>(rows: &[T]) -> &[T]
    ensures { Rise T.names result.now }
{
    if rises(rows) { rows } else { &[] }
}

fn no_books() -> Books {
    Books {
        granted: Amounts::zero(),
        converted: Amounts::zero(),
        returned: Amounts::zero(),
        pool_granted: 0,
        pool_converted: 0,
        pool_returned: 0,
    }
}

/// The rows and operations of a server, which lend a view.
#[derive(Drop)]
pub struct Rows {
    pub projects: Vec<Project>,
    pub profiles: Vec<Boxed<Profile>>,
    pub networks: Vec<Network>,
    pub pools: Vec<Pool>,
    pub volumes: Vec<Boxed<Volume>>,
    pub instances: Vec<Boxed<Instance>>,
    pub snapshots: Vec<Boxed<Snapshot>>,
    pub powers: Vec<InstancePower>,
    pub live: Vec<Operation<Task>>,
    pub ended: Vec<Operation<Task>>,
    pub next: u64,
    pub held: Vec<Hold>,
    pub books: Books,
}

impl Rows {
    /// Rows of none of the kinds, and no operations.
    pub fn empty(alloc: Global) -> Rows {
        Rows {
            projects: Vec::new(alloc),
            profiles: Vec::new(alloc),
            networks: Vec::new(alloc),
            pools: Vec::new(alloc),
            volumes: Vec::new(alloc),
            instances: Vec::new(alloc),
            snapshots: Vec::new(alloc),
            powers: Vec::new(alloc),
            live: Vec::new(alloc),
            ended: Vec::new(alloc),
            next: 2,
            held: Vec::new(alloc),
            books: no_books(),
        }
    }

    /// The rows, lent; of a kind whose rows do not rise by their names, none.
    pub fn view(&self) -> StateRef<'_> {
        StateRef {
            projects: in_order(&self.projects),
            profiles: in_order(&self.profiles),
            networks: in_order(&self.networks),
            pools: in_order(&self.pools),
            volumes: in_order(&self.volumes),
            instances: in_order(&self.instances),
            snapshots: in_order(&self.snapshots),
            powers: in_order(&self.powers),
            live: &self.live,
            ended: &self.ended,
            next: self.next,
            held: &self.held,
            books: self.books,
            closed: false,
        }
    }

    /// The same, before the last operation was entered.
    pub fn before_last(&self) -> StateRef<'_> {
        let mut view = self.view();
        if let Some((_, front)) = self.live.split_last() {
            view.live = front;
        }
        view
    }
}

/// Settings: those of the list, without the ones that have no value.
pub fn config(alloc: Global, settings: &[(&str, &str)]) -> Result<Config, NoMemory> {
    let mut config = Config::new(alloc);
    for (key, value) in settings {
        if !key.is_empty() && !value.is_empty() {
            config.set(key, value)?;
        }
    }
    Ok(config)
}

/// One device with these settings.
pub fn device(alloc: Global, name: &str, settings: &[(&str, &str)]) -> Result<Devices, NoMemory> {
    let device = config(alloc, settings)?;
    let mut devices = Devices::new(alloc);
    devices.put(name, device)?;
    Ok(devices)
}

/// Two texts.
pub fn texts(alloc: Global, first: &str, second: &str) -> Result<(Text, Text), NoMemory> {
    both(
        Text::from_text(alloc, first),
        Text::from_text(alloc, second),
    )
}
