ghost use Rattle.std.specs.Prelude.{◌≡◌, ◌∷◌, ◌++◌, [], IfOk, unwrap_or};
ghost use Rattle.std.specs.Option.{option_copied};
ghost use Rattle.host_model.specs.Roots.{no_spec, new_root, others, snapshot_of, content_in};

use crate::place::Place;
use config_lists::{Config, Devices};
use size_values::{NoMemory, Power, Seq, Text};
use std::alloc::Global;

/// What an instance is started with: its expanded settings and devices.
#[derive(Drop)]
pub struct Spec {
    pub config: Config,
    pub devices: Devices,
}

/// One root on the host: what it is made of, in which state it is, what was applied to it last, and its
/// snapshots, each a name and a content.
#[derive(Drop)]
pub struct HostRoot {
    pub place: Place,
    pub power: Power,
    pub content: Text,
    pub applied: Spec,
    pub snapshots: Seq<(Text, Text)>,
}

impl Spec {
    /// Nothing at all. It takes no memory.
    pub fn new(alloc: Global) -> Spec
        ensures { result ≡ no_spec }
    {
        Spec {
            config: Config::new(alloc),
            devices: Devices::new(alloc),
        }
    }

    /// A specification of its own with the same settings and devices.
    pub fn copy(&self) -> Result<Spec, NoMemory>
        ensures { IfOk result (λ s. s ≡ self.now) }
    {
        Ok(Spec {
            config: self.config.copy()?,
            devices: self.devices.copy()?,
        })
    }
}

impl HostRoot {
    /// A stopped root with this content, nothing applied and no snapshots.
    pub(crate) fn new_root(alloc: Global, at: &Place, content: Text) -> Result<HostRoot, NoMemory>
        ensures { IfOk result (λ r. r ≡ new_root at.now content) }
    {
        Ok(HostRoot {
            place: at.copy(alloc)?,
            power: Power::Stopped,
            content,
            applied: Spec::new(alloc),
            snapshots: Seq::new(alloc),
        })
    }

    /// A root of its own with the same parts.
    pub(crate) fn copy(&self, alloc: Global) -> Result<HostRoot, NoMemory>
        ensures { IfOk result (λ r. r ≡ self.now) }
    {
        let (place, content) = zip_or_drop(self.place.copy(alloc), self.content.copy(alloc))?;
        let snapshots = copy_snapshots(alloc, self.snapshots.view());
        let (applied, snapshots) = zip_or_drop(self.applied.copy(), snapshots)?;
        Ok(HostRoot {
            place,
            power: self.power,
            content,
            applied,
            snapshots,
        })
    }

    /// The content of the snapshot of this name.
    pub(crate) fn snapshot(&self, name: &Text) -> Option<&Text>
        ensures { option_copied result ≡ snapshot_of name.now self.now }
    {
        let found = self.snapshots.view().iter().find(|s| s.0.is(name));
        found.map(|s| &s.1)
    }

    /// A copy of the content, or of that of the named snapshot, which is empty where there is none.
    pub(crate) fn content_in(&self, alloc: Global, snapshot: &Text) -> Result<Text, NoMemory>
        ensures { IfOk result (λ t. t ≡ content_in snapshot.now self.now) }
    {
        if snapshot.is_empty() {
            return self.content.copy(alloc);
        }
        match self.snapshot(snapshot) {
            Some(content) => content.copy(alloc),
            None => Ok(Text::new(alloc)),
        }
    }

    /// A copy of the content of the snapshot of this name, or of the root's own where there is none.
    pub(crate) fn restored_content(&self, alloc: Global, name: &Text) -> Result<Text, NoMemory>
        ensures { IfOk result (λ t. t ≡ unwrap_or (snapshot_of name.now self.now) self.now.content) }
    {
        match self.snapshot(name) {
            Some(content) => content.copy(alloc),
            None => self.content.copy(alloc),
        }
    }

    /// Copies of the snapshots, with one of the root's content under this name, in place of an earlier one.
    pub(crate) fn more_snapshots(
        &self,
        alloc: Global,
        name: &Text,
    ) -> Result<Seq<(Text, Text)>, NoMemory>
        ensures { IfOk result (λ s. s ≡ others name.now self.now.snapshots ++ (name.now, self.now.content) ∷ []) }
    {
        let added = zip_or_drop(name.copy(alloc), self.content.copy(alloc))?;
        let mut snapshots = other_snapshots(alloc, self.snapshots.view(), name)?;
        snapshots.push(added)?;
        Ok(Seq::from_vec(snapshots))
    }

    /// Copies of the snapshots of other names.
    pub(crate) fn fewer_snapshots(
        &self,
        alloc: Global,
        name: &Text,
    ) -> Result<Seq<(Text, Text)>, NoMemory>
        ensures { IfOk result (λ s. s ≡ others name.now self.now.snapshots) }
    {
        let snapshots = other_snapshots(alloc, self.snapshots.view(), name)?;
        Ok(Seq::from_vec(snapshots))
    }

    /// The root at another place.
    pub(crate) fn at_place(mut self, place: Place) -> HostRoot
        ensures { result ≡ record self { place = place } }
    {
        self.place = place;
        self
    }

    /// The root with other content.
    pub(crate) fn with_content(mut self, content: Text) -> HostRoot
        ensures { result ≡ record self { content = content } }
    {
        self.content = content;
        self
    }

    /// The root with this applied to it.
    pub(crate) fn with_applied(mut self, applied: Spec) -> HostRoot
        ensures { result ≡ record self { applied = applied } }
    {
        self.applied = applied;
        self
    }

    /// The root with these snapshots.
    pub(crate) fn with_snapshots(mut self, snapshots: Seq<(Text, Text)>) -> HostRoot
        ensures { result ≡ record self { snapshots = snapshots } }
    {
        self.snapshots = snapshots;
        self
    }
}

/// Both, where memory was enough for each.
fn zip_or_drop<A: Drop, B: Drop>(
    first: Result<A, NoMemory>,
    second: Result<B, NoMemory>,
) -> Result<(A, B), NoMemory>
    ensures { IfOk result (λ x. (first ≡ Ok x.0) × (second ≡ Ok x.1)) }
{
    let first = first?;
    let second = second?;
    Ok((first, second))
}

fn copy_snapshots(alloc: Global, snapshots: &[(Text, Text)]) -> Result<Seq<(Text, Text)>, NoMemory>
    ensures { IfOk result (λ s. s ≡ snapshots.now) }
{
    let mut copies = Vec::with_capacity(alloc, snapshots.len())?;
    for snapshot in snapshots {
        copies.push(copy_snapshot(alloc, snapshot)?)?;
    }
    Ok(Seq::from_vec(copies))
}

fn other_snapshots(
    alloc: Global,
    snapshots: &[(Text, Text)],
    name: &Text,
) -> Result<Vec<(Text, Text)>, NoMemory>
    ensures { IfOk result (λ v. v.items ≡ others name.now snapshots.now) }
{
    let mut copies = Vec::with_capacity(alloc, snapshots.len())?;
    for snapshot in snapshots {
        if !snapshot.0.is(name) {
            copies.push(copy_snapshot(alloc, snapshot)?)?;
        }
    }
    Ok(copies)
}

fn copy_snapshot(alloc: Global, snapshot: &(Text, Text)) -> Result<(Text, Text), NoMemory>
    ensures { IfOk result (λ s. s ≡ snapshot.now) }
{
    zip_or_drop(snapshot.0.copy(alloc), snapshot.1.copy(alloc))
}
