ghost use Rattle.std.specs.Prelude.{◌≡◌, ◌+◌, ◌-◌, ◌^◌, ◌<◌, ◌≤◌, ◌∷◌, [], true, Some, IsSome, length, take, drop};
ghost use Rattle.std.specs.Prelude.{find, if◌then◌else◌, OnOk, IfOk};
ghost use Rattle.std.specs.List.{list_any};
ghost use Rattle.host_model.specs.declared.call.HostCall.{HostCall as HostCallValue};
ghost use Rattle.operations.specs.OperationTable.{live_at};
ghost use Rattle.operations.specs.declared.operation.Operation.{Operation as OperationValue};
ghost use Rattle.plain_lists.specs.Edits.{changed_first};
ghost use Rattle.records.specs.declared.rows.Row.TheVariants as row_of;
ghost use Rattle.row_machine.specs.declared.changes.RowChange.TheVariants as change_of;
ghost use Rattle.row_machine.specs.facts.Whole.{Rise};
ghost use Rattle.row_machine.specs.machine.Rows.{is_power_of, power_names, with_instance_power};
ghost use Rattle.row_machine.specs.machine.Changes.{with_row, without_row, changed};
ghost use Rattle.row_machine.specs.machine.State.{InstancePower as InstancePowerValue, empty_state};
ghost use Rattle.row_machine.specs.machine.Task.{Task as TaskValue};
ghost use Rattle.row_machine.specs.machine.Operations.{claiming, moved, with_task};
ghost use Rattle.row_machine.specs.machine.Operations.{with_power, ended, is_held_by, converted};
ghost use Rattle.row_machine.specs.machine.Operations.{returned};
ghost use Rattle.core_drafts.specs.Background.{holding, handed_at, HasCountAt};
ghost use Rattle.core_drafts.specs.declared.lists.Undone.TheVariants as undone_of;
ghost use Rattle.row_readings.specs.Rising.{AreRising};
ghost use Rattle.size_values.specs.Amounts.{part};
ghost use Rattle.size_values.specs.declared.amounts.Part.{Part};
ghost use Rattle.core_drafts.specs.Drafted.{spares_for, stopped};
ghost use Rattle.core_drafts.specs.Steps.{before_change, before_step, FitsChange, FitsStep};

use crate::background::Background;
use crate::calls::Handing;
use crate::edits::{Step, put, put_new, remove, undo_step};
use host_model::HostCall;
use operations::{OpFault, Status};
use records::{Instance, Network, Pool, Profile, Project, Row, Snapshot, Volume};
use row_machine::{RowChange, Task};
use row_readings::{InstancePower, Names, StateRef, place_named};
use size_values::{Amounts, Boxed, NoMemory, ObjectKind, PoolPart, Power, Text};
use std::alloc::Global;
use std::marker::Model;

/// What takes one change back: what it did to the list of its kind, and for an instance to the statuses too; or that an
/// operation was entered.
#[derive(Drop)]
pub(crate) enum Undone {
    Project(Step<Project>),
    Profile(Step<Boxed<Profile>>),
    Network(Step<Network>),
    Pool(Step<Pool>),
    Volume(Step<Boxed<Volume>>),
    Instance(Step<Boxed<Instance>>, Step<InstancePower>),
    Snapshot(Step<Boxed<Snapshot>>),
    Claimed,
    Nothing,
}

/// The rows of each kind in the order of their names, the status of each instance, the kept operations, and whether the
/// server was told to close. Contracts see the state with them, and how many rows of each kind can be put in without
/// taking memory.
#[derive(Drop)]
pub(crate) struct Lists {
    pub(crate) projects: Vec<Project>,
    pub(crate) profiles: Vec<Boxed<Profile>>,
    pub(crate) networks: Vec<Network>,
    pub(crate) pools: Vec<Pool>,
    pub(crate) volumes: Vec<Boxed<Volume>>,
    pub(crate) instances: Vec<Boxed<Instance>>,
    pub(crate) snapshots: Vec<Boxed<Snapshot>>,
    pub(crate) powers: Vec<InstancePower>,
    background: Background,
    closed: bool,
}

impl Model for Lists {
    ghost use Rattle.core_drafts.specs.Drafted.{Listed};

    ghost Value = { Listed };

    ghost use Rattle.core_drafts.specs.Inside.{listed};

    ghost view = { listed };
}

impl Lists {
    /// No rows and no operations.
    pub(crate) fn new(alloc: Global) -> Result<Lists, NoMemory>
        ensures state { IfOk result (λ l. l.state ≡ empty_state) }
        ensures greatest { IfOk result (λ l. l.backing.greatest ≡ 0) }
    {
        let background = Background::new(alloc)?;
        Ok(Lists {
            projects: Vec::new(alloc),
            profiles: Vec::new(alloc),
            networks: Vec::new(alloc),
            pools: Vec::new(alloc),
            volumes: Vec::new(alloc),
            instances: Vec::new(alloc),
            snapshots: Vec::new(alloc),
            powers: Vec::new(alloc),
            background,
            closed: false,
        })
    }

    /// All of it, to be read.
    pub(crate) fn view(&self) -> StateRef<'_>
        requires { AreRising self.now.state }
        ensures { result ≡ self.now.state }
    {
        StateRef {
            projects: &self.projects,
            profiles: &self.profiles,
            networks: &self.networks,
            pools: &self.pools,
            volumes: &self.volumes,
            instances: &self.instances,
            snapshots: &self.snapshots,
            powers: &self.powers,
            live: self.background.live(),
            ended: self.background.ended(),
            next: self.background.next(),
            held: self.background.holds(),
            books: self.background.books(),
            closed: self.closed,
        }
    }

    /// The server is told to close.
    pub(crate) fn close(&mut self)
        ensures state { self.new.state ≡ record self.old.state { closed = true } }
        ensures backing { self.new.backing ≡ self.old.backing }
    {
        self.closed = true;
    }

    /// Takes memory for so many more rows of each kind.
    pub(crate) fn reserve(&mut self, count: usize) -> Result<(), NoMemory>
        ensures room { OnOk result (count ≤ self.new.room) }
        ensures state { self.new.state ≡ self.old.state }
        ensures backing { self.new.backing ≡ self.old.backing }
    {
        self.projects.reserve(count)?;
        self.profiles.reserve(count)?;
        self.networks.reserve(count)?;
        self.pools.reserve(count)?;
        self.volumes.reserve(count)?;
        self.instances.reserve(count)?;
        self.snapshots.reserve(count)?;
        self.powers.reserve(count)?;
        Ok(())
    }

    fn put_instance(&mut self, row: Boxed<Instance>, power: InstancePower) -> Undone
        requires rises { AreRising self.old.state }
        requires power { power ≡ stopped row }
        requires room { 1 ≤ self.old.room }
        ensures state { self.new.state ≡ with_row (row_of.Instance row) self.old.state }
        ensures room { self.old.room ≤ self.new.room + 1 }
        ensures back { before_change result self.new.state ≡ self.old.state }
        ensures fits { FitsChange result self.new.state }
        ensures backing { self.new.backing ≡ self.old.backing }
    {
        let power = put_new(&mut self.powers, power);
        let row = put(&mut self.instances, row);
        Undone::Instance(row, power)
    }

    /// Puts a row, with the status that stands ready for it where it is an instance. It takes no memory.
    pub(crate) fn put(&mut self, row: Row, spares: &mut Vec<InstancePower>) -> Undone
        requires rises { AreRising self.old.state }
        requires room { 1 ≤ self.old.room }
        requires spares { take (length (spares_for (change_of.Put row))) spares.old.items
            ≡ spares_for (change_of.Put row) }
        ensures state { self.new.state ≡ with_row row self.old.state }
        ensures room { self.old.room ≤ self.new.room + 1 }
        ensures spares { spares.new.items ≡ drop (length (spares_for (change_of.Put row))) spares.old.items }
        ensures back { before_change result self.new.state ≡ self.old.state }
        ensures fits { FitsChange result self.new.state }
        ensures backing { self.new.backing ≡ self.old.backing }
    {
        match row {
            Row::Project(row) => Undone::Project(put(&mut self.projects, row)),
            Row::Profile(row) => Undone::Profile(put(&mut self.profiles, row)),
            Row::Network(row) => Undone::Network(put(&mut self.networks, row)),
            Row::Pool(row) => Undone::Pool(put(&mut self.pools, row)),
            Row::Volume(row) => Undone::Volume(put(&mut self.volumes, row)),
            Row::Instance(row) => self.put_instance(row, spares.remove(0)),
            Row::Snapshot(row) => Undone::Snapshot(put(&mut self.snapshots, row)),
        }
    }

    /// Removes the row of a kind and key.
    pub(crate) fn remove(&mut self, kind: ObjectKind, key: &str) -> Undone
        requires rises { AreRising self.old.state }
        ensures state { self.new.state ≡ without_row kind key.now self.old.state }
        ensures room { self.old.room ≤ self.new.room + 1 }
        ensures back { before_change result self.new.state ≡ self.old.state }
        ensures fits { FitsChange result self.new.state }
        ensures backing { self.new.backing ≡ self.old.backing }
    {
        match kind {
            ObjectKind::Project => Undone::Project(remove(&mut self.projects, key)),
            ObjectKind::Profile => Undone::Profile(remove(&mut self.profiles, key)),
            ObjectKind::Network => Undone::Network(remove(&mut self.networks, key)),
            ObjectKind::Pool => Undone::Pool(remove(&mut self.pools, key)),
            ObjectKind::Volume => Undone::Volume(remove(&mut self.volumes, key)),
            ObjectKind::Instance => {
                let row = remove(&mut self.instances, key);
                let power = remove(&mut self.powers, key);
                Undone::Instance(row, power)
            }
            ObjectKind::Snapshot => Undone::Snapshot(remove(&mut self.snapshots, key)),
            ObjectKind::Operation => Undone::Nothing,
        }
    }

    /// Makes a change. It takes no memory.
    pub(crate) fn change(&mut self, change: RowChange, spares: &mut Vec<InstancePower>) -> Undone
        requires rises { AreRising self.old.state }
        requires room { 1 ≤ self.old.room }
        requires spares { take (length (spares_for change)) spares.old.items ≡ spares_for change }
        ensures state { self.new.state ≡ changed self.old.state change }
        ensures room { self.old.room ≤ self.new.room + 1 }
        ensures spares { spares.new.items ≡ drop (length (spares_for change)) spares.old.items }
        ensures back { before_change result self.new.state ≡ self.old.state }
        ensures fits { FitsChange result self.new.state }
        ensures backing { self.new.backing ≡ self.old.backing }
    {
        match change {
            RowChange::Put(row) => self.put(row, spares),
            RowChange::Remove(kind, key) => self.remove(kind, key.view()),
        }
    }

    /// Undoes one change. It takes no memory.
    pub(crate) fn undo_change(&mut self, undone: Undone)
        requires room { 1 ≤ self.old.room }
        requires fits { FitsChange undone self.old.state }
        ensures state { self.new.state ≡ before_change undone self.old.state }
        ensures room { self.old.room ≤ self.new.room + 1 }
        ensures greatest { self.new.backing.greatest ≡ self.old.backing.greatest }
    {
        match undone {
            Undone::Project(step) => undo_step(&mut self.projects, step),
            Undone::Profile(step) => undo_step(&mut self.profiles, step),
            Undone::Network(step) => undo_step(&mut self.networks, step),
            Undone::Pool(step) => undo_step(&mut self.pools, step),
            Undone::Volume(step) => undo_step(&mut self.volumes, step),
            Undone::Instance(step, power) => {
                undo_step(&mut self.instances, step);
                undo_step(&mut self.powers, power);
            }
            Undone::Snapshot(step) => undo_step(&mut self.snapshots, step),
            Undone::Claimed => self.background.take_claim_back(),
            Undone::Nothing => {}
        }
    }

    /// Takes memory for one more operation, its share, and for taking it back.
    pub(crate) fn reserve_operation(&mut self) -> Result<(), NoMemory>
        ensures room { OnOk result (1 ≤ self.new.room) }
        ensures claim_room { OnOk result (1 ≤ self.new.backing.claim_room) }
        ensures hold_room { OnOk result (1 ≤ self.new.backing.hold_room) }
        ensures state { self.new.state ≡ self.old.state }
        ensures greatest { self.new.backing.greatest ≡ self.old.backing.greatest }
    {
        self.reserve(1)?;
        self.background.reserve()
    }

    /// Enters an operation. It takes no memory.
    pub(crate) fn claim(&mut self, work: Task, moment: u64) -> u64
        requires room { 1 ≤ self.old.backing.claim_room }
        requires number { self.old.state.operations.next ≤ 2 ^ 40 }
        ensures state { self.new.state ≡ claiming self.old.state work moment }
        ensures back { before_change undone_of.Claimed self.new.state ≡ self.old.state }
        ensures number { result ≡ self.old.state.operations.next }
        ensures room { self.new.room ≡ self.old.room }
        ensures hold_room { self.new.backing.hold_room ≡ self.old.backing.hold_room }
        ensures greatest { self.new.backing.greatest ≡ self.old.backing.greatest }
    {
        self.background.claim(work, moment)
    }

    /// The operation that was entered last holds a share from now on. It takes no memory.
    pub(crate) fn hold(&mut self, project: Text, share: Amounts, on: PoolPart)
        requires room { 1 ≤ self.old.backing.hold_room }
        requires limit { self.old.state.operations.next - 1 < 2 ^ 40 }
        requires above { self.old.backing.greatest < self.old.state.operations.next - 1 }
        requires small { (k : Part) → part k share < 2 ^ 80 }
        requires small_part { on.disk < 2 ^ 80 }
        ensures state { self.new.state ≡ holding project share on self.old.state }
        ensures room { self.new.room ≡ self.old.room }
        ensures greatest { self.new.backing.greatest ≡ self.old.state.operations.next - 1 }
    {
        self.background.hold(project, share, on);
    }

    /// A live operation takes another status.
    pub(crate) fn set_status(&mut self, number: u64, status: Status, moment: u64)
        requires { IsSome (live_at self.old.state.operations number) }
        ensures state { self.new.state ≡ moved number status moment self.old.state }
        ensures greatest { self.new.backing.greatest ≡ self.old.backing.greatest }
    {
        self.background.set_status(number, status, moment);
    }

    /// A live operation hands out a call, which it has.
    pub(crate) fn hand_out(&mut self, number: u64, which: Handing) -> HostCall
        requires call { IsSome (handed_at which self.old.state.operations number) }
        requires count { HasCountAt which self.old.state.operations number }
        ensures state { (call : HostCallValue) (task : TaskValue)
            → handed_at which self.old.state.operations number ≡ Some (call, task) →
            (result ≡ call) × (self.new.state ≡ with_task number task self.old.state) }
        ensures rises { AreRising self.old.state → AreRising self.new.state }
        ensures greatest { self.new.backing.greatest ≡ self.old.backing.greatest }
    {
        self.background.hand_out(number, which)
    }

    /// The instance that a live operation is about has this status from now on.
    pub(crate) fn set_power_of(&mut self, number: u64, power: Power)
        requires rises { AreRising self.old.state }
        requires live { IsSome (live_at self.old.state.operations number) }
        ensures state { (o : OperationValue TaskValue) → live_at self.old.state.operations number ≡ Some o →
            self.new.state ≡ with_power self.old.state o.work.project o.work.target.name power }
        ensures rises { AreRising self.new.state }
        ensures greatest { self.new.backing.greatest ≡ self.old.backing.greatest }
    {
        let work = &self.background.at(number).work;
        set_power(&mut self.powers, &work.project, &work.target.name, power);
    }

    /// A live operation ends.
    pub(crate) fn end(&mut self, number: u64, status: Status, fault: OpFault, moment: u64)
        requires { IsSome (live_at self.old.state.operations number) }
        ensures state { self.new.state ≡ ended number status fault moment self.old.state }
        ensures greatest { self.new.backing.greatest ≡ self.old.backing.greatest }
    {
        self.background.end(number, status, fault, moment);
    }

    /// The share of an operation becomes its object's.
    pub(crate) fn convert(&mut self, number: u64)
        requires { IsSome (find (is_held_by number) self.old.state.held) }
        ensures state { self.new.state ≡ converted number self.old.state }
        ensures greatest { self.new.backing.greatest ≡ self.old.backing.greatest }
    {
        self.background.convert(number);
    }

    /// The share of an operation goes back whole.
    pub(crate) fn give_back(&mut self, number: u64)
        requires { IsSome (find (is_held_by number) self.old.state.held) }
        ensures state { self.new.state ≡ returned number self.old.state }
        ensures greatest { self.new.backing.greatest ≡ self.old.backing.greatest }
    {
        self.background.give_back(number);
    }
}

/// The instance of a project and name has this status from now on, where it has one.
fn set_power(powers: &mut Vec<InstancePower>, project: &Text, name: &Text, power: Power)
    requires { Rise power_names powers.old.items }
    ensures { powers.new.items ≡
        changed_first (is_power_of project.now name.now)
        (λ (p : InstancePowerValue). record p { power = power }) powers.old.items }
{
    match place_named(powers, Names::Two(project.view(), name.view())) {
        Ok(place) => powers[place].power = power,
        Err(_) => {}
    }
}
