ghost use Rattle.std.specs.Prelude.{◌≡◌, [], IfOk};
ghost use Rattle.row_machine.specs.opening.Opening.{first_rows, default_project};
ghost use Rattle.row_machine.specs.machine.Plans.{put_all};
ghost use Rattle.machine_laws.specs.Entries.{entry_changes};
ghost use Rattle.plain_lists.specs.Members.{Each};
ghost use Rattle.machine_laws.specs.Openings.{HasBytes};
ghost use Rattle.core_rows.specs.Opening.{Opens, Begins, Commits, GoesOn, Loads, first_state};

use crate::estate::Estate;
use crate::kept_rows::{have_bytes, open_entries};
use config_lists::Config;
use core_drafts::Draft;
use core_judging::{default_profile, entry_changes};
use record_keeper::Keeper;
use records::{Project, Row, Rule};
use row_machine::RowChange;
use size_values::{Boxed, Entry, EntryChange, NoMemory, Or, Seq, Text};
use std::alloc::Global;

/// Why the rows could not be opened. A row is told by the number of its kind and its key, as its entry has them.
#[derive(Drop)]
pub enum OpenFault {
    /// The keeper failed at the load, or at the commit of the first rows.
    KeeperFailed,
    /// An entry spells no row.
    Damaged { kind: u8, key: Text },
    /// The rows break a rule.
    Broken { rule: Rule, kind: u8, key: Text },
    NoMemory,
}

/// The settings of the project `default`: all features.
#[tactic(auto, unfolding(config_lists::specs::Entries::put))]
fn all_features(alloc: Global) -> Result<Config, NoMemory>
    ensures { IfOk result (λ c. c ≡ default_project.config) }
{
    let mut config = Config::new(alloc);
    config.set("features.images", "true")?;
    config.set("features.networks", "true")?;
    config.set("features.profiles", "true")?;
    config.set("features.storage.buckets", "true")?;
    config.set("features.storage.volumes", "true")?;
    Ok(config)
}

/// The project `default` as it is made.
fn default_project(alloc: Global) -> Result<Project, NoMemory>
    ensures { IfOk result (λ p. p ≡ default_project) }
{
    let name = Text::from_text(alloc, "default")?;
    let config = all_features(alloc)?;
    Ok(Project {
        name,
        description: Text::new(alloc),
        config,
    })
}

/// The rows of a server without entries: the project `default`, and its profile `default`.
fn first_changes(alloc: Global) -> Result<Seq<RowChange>, NoMemory>
    ensures { IfOk result (λ cs. cs ≡ put_all first_rows) }
{
    let project = default_project(alloc)?;
    let profile = default_profile(alloc, &project.name)?;
    let mut changes = Seq::new(alloc);
    changes.push(RowChange::Put(Row::Project(project)))?;
    changes.push(RowChange::Put(Row::Profile(Boxed::new(alloc, profile)?)))?;
    Ok(changes)
}

/// The entries of the first rows.
fn first_entries(alloc: Global, changes: &Seq<RowChange>) -> Result<Seq<EntryChange>, NoMemory>
    requires { changes.now ≡ put_all first_rows }
    ensures { IfOk result (λ es. es ≡ entry_changes (put_all first_rows)) }
{
    entry_changes(alloc, changes)
}

/// The estate of the first rows.
fn first_estate(alloc: Global, changes: Seq<RowChange>) -> Result<Estate, NoMemory>
    requires { changes ≡ put_all first_rows }
    ensures state { IfOk result (λ e. e.state ≡ first_state) }
    ensures untold { IfOk result (λ e. e.untold ≡ []) }
{
    let mut draft = Draft::new(alloc)?;
    draft.reserve_for(alloc, &changes)?;
    draft.apply(changes);
    draft.keep_changes();
    Estate::of(alloc, draft)
}

/// The estate of the first rows with their entries, which are not committed yet.
fn first_of_all(alloc: Global) -> Result<(Estate, Seq<EntryChange>), NoMemory>
    ensures state { IfOk result (λ p. p.0.state ≡ first_state) }
    ensures untold { IfOk result (λ p. p.0.untold ≡ []) }
    ensures entries { IfOk result (λ p. p.1 ≡ entry_changes (put_all first_rows)) }
{
    let changes = first_changes(alloc)?;
    let entries = first_entries(alloc, &changes)?;
    let estate = first_estate(alloc, changes)?;
    Ok((estate, entries))
}

/// The kept entries.
fn load<R: Keeper>(keeper: &mut R) -> Result<Seq<Entry>, OpenFault>
    ensures { Loads result (R.store keeper.old) (R.store keeper.new) }
{
    match keeper.load() {
        Ok(entries) => {
            have_bytes(entries.view());
            Ok(entries)
        }
        Err(Or::NoMemory) => Err(OpenFault::NoMemory),
        Err(Or::Why(_)) => Err(OpenFault::KeeperFailed),
    }
}

/// Commits changes of entries.
fn commit<R: Keeper>(keeper: &mut R, changes: &Seq<EntryChange>) -> Result<(), OpenFault>
    ensures { Commits result changes.now (R.store keeper.old) (R.store keeper.new) }
{
    match keeper.commit(changes) {
        Ok(()) => Ok(()),
        Err(Or::NoMemory) => Err(OpenFault::NoMemory),
        Err(Or::Why(_)) => Err(OpenFault::KeeperFailed),
    }
}

/// Commits the first rows, and then has them.
fn begin<R: Keeper>(alloc: Global, keeper: &mut R) -> Result<Estate, OpenFault>
    ensures { Begins result (R.store keeper.old) (R.store keeper.new) }
{
    let Ok((estate, entries)) = first_of_all(alloc) else {
        return Err(OpenFault::NoMemory);
    };
    match commit(keeper, &entries) {
        Ok(()) => Ok(estate),
        Err(fault) => Err(fault),
    }
}

/// Opens entries that were loaded.
fn open<R: Keeper>(alloc: Global, keeper: &mut R, entries: Seq<Entry>) -> Result<Estate, OpenFault>
    requires { Each HasBytes entries }
    ensures { GoesOn result entries (R.store keeper.old) (R.store keeper.new) }
{
    if entries.is_empty() {
        drop(entries);
        return begin(alloc, keeper);
    }
    let opened = open_entries(alloc, entries.view());
    drop(entries);
    opened
}

/// The rows that a keeper has entries of. All of them are read and judged first: the first entry that is none is told,
/// and then the first rule that the rows break, with the row. All instances are stopped, and there are no operations. A
/// keeper without entries gets the project `default` with all features and its profile `default`, in one commit.
pub fn load_rows<R: Keeper>(alloc: Global, keeper: &mut R) -> Result<Estate, OpenFault>
    ensures { Opens result (R.store keeper.old) (R.store keeper.new) }
{
    match load(keeper) {
        Ok(entries) => open(alloc, keeper, entries),
        Err(fault) => Err(fault),
    }
}
