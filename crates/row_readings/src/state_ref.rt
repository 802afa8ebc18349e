use operations::Operation;
use records::{Instance, Network, Pool, Profile, Project, Snapshot, Volume};
use reservations::{Books, Hold};
use row_machine::Task;
use size_values::{Boxed, Power, Text};
use std::marker::Model;

/// The status of the instance of a project and name.
#[derive(Drop)]
pub struct InstancePower {
    pub project: Text,
    pub name: Text,
    pub power: Power,
}

impl Model for InstancePower {
    ghost use Rattle.row_machine.specs.machine.State.{InstancePower};

    ghost Value = { InstancePower };

    ghost view = { λ p. record { project = p.project; name = p.name; power = p.power } };
}

/// The rows of each kind, in the order of project, pool or instance, and name, the status of each instance, and the
/// kept operations: those that live in the order of their numbers, those that ended in the order of their ends, and the
/// number of the next one; the shares that live operations hold, and the books; and whether the server was told to
/// close. The lists are lent, and those of rows and statuses rise by their names. Contracts see the state of the row
/// machine with all of it, in which nothing was told yet.
#[derive(Drop)]
pub struct StateRef<'a> {
    pub projects: &'a [Project],
    pub profiles: &'a [Boxed<Profile>],
    pub networks: &'a [Network],
    pub pools: &'a [Pool],
    pub volumes: &'a [Boxed<Volume>],
    pub instances: &'a [Boxed<Instance>],
    pub snapshots: &'a [Boxed<Snapshot>],
    pub powers: &'a [InstancePower],
    pub live: &'a [Operation<Task>],
    pub ended: &'a [Operation<Task>],
    pub next: u64,
    pub held: &'a [Hold],
    pub books: Books,
    pub closed: bool,
}

impl<'a> Model for StateRef<'a> {
    ghost use Rattle.row_machine.specs.machine.State.{State};
    ghost use Rattle.row_readings.specs.Lent.{state_in, IsLent};

    ghost Value = { State };

    ghost view = { state_in };

    ghost invariant = { IsLent };
}
