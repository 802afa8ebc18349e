//! How rows are opened over a keeper, and read, changed and told after that.
ghost use Rattle.std.specs.Prelude.{◌≡◌, [], true, IfOk};
ghost use Rattle.serial_run.specs.core_objects.specs.Commands.{is_object_command};
ghost use Rattle.records.specs.Forms.{is_formed};

use core_drafts::Draft;
use record_keeper::MapKeeper;
use records::{Body, Command, Origin, Reply, Row, Target, What};
use row_machine::RowChange;
use serial_run::{Estate, OpenFault, default_profile, do_object, entry_changes, load_rows};
use size_values::{Boxed, NoMemory, ObjectKind, Seq, Text};
use std::alloc::Global;

/// How many projects and profiles an opening gives, or why it was refused.
type Opened = Result<(usize, usize), Fault>;

/// The same without the row that is at fault.
#[derive(Clone, Copy, PartialEq, Eq)]
enum Fault {
    KeeperFailed,
    Rows,
    NoMemory,
}

/// Which calls of a keeper fail, and what a first and a second opening of it come to.
const OPENINGS: [(&[u64], Opened, Opened); 4] = [
    (&[], Ok((1, 1)), Ok((1, 1))),
    (&[1], Err(Fault::KeeperFailed), Ok((1, 1))),
    (&[2], Err(Fault::KeeperFailed), Ok((1, 1))),
    (&[3], Ok((1, 1)), Err(Fault::KeeperFailed)),
];

/// How many projects and profiles there are.
fn count_rows(estate: &Estate) -> (usize, usize) {
    let view = estate.view();
    (view.projects.len(), view.profiles.len())
}

fn fault_of(fault: &OpenFault) -> Fault {
    match fault {
        OpenFault::KeeperFailed => Fault::KeeperFailed,
        OpenFault::Damaged { .. } => Fault::Rows,
        OpenFault::Broken { .. } => Fault::Rows,
        OpenFault::NoMemory => Fault::NoMemory,
    }
}

fn counted(alloc: Global, keeper: &mut MapKeeper) -> Opened {
    match load_rows(alloc, keeper) {
        Ok(estate) => {
            let counts = count_rows(&estate);
            drop(estate);
            Ok(counts)
        }
        Err(fault) => {
            let kind = fault_of(&fault);
            drop(fault);
            Err(kind)
        }
    }
}

/// A keeper without entries, whose listed calls fail.
fn failing(alloc: Global, fails: &[u64]) -> Result<MapKeeper, NoMemory> {
    Ok(MapKeeper::new(alloc, Seq::from_vec(Vec::from_slice(alloc, fails)?)))
}

/// Whether a first and a second opening of a keeper whose listed calls fail come to this.
fn opens(alloc: Global, fails: &[u64], first: Opened, second: Opened) -> bool {
    let Ok(mut keeper) = failing(alloc, fails) else {
        return false;
    };
    let once = counted(alloc, &mut keeper);
    let again = counted(alloc, &mut keeper);
    drop(keeper);
    once == first && again == second
}

#[test]
fn rows_are_opened_again(rt: HostRuntime) {
    let alloc = rt.alloc();
    for (fails, first, second) in OPENINGS {
        assert!(rt; opens(alloc, fails, first, second));
    }
}

/// A PATCH of the profile `default` that changes nothing.
fn patch(alloc: Global) -> Result<Command, NoMemory>
    ensures formed { IfOk result (λ c. is_formed c ≡ true) }
    ensures command { IfOk result (λ c. is_object_command c.what ≡ true) }
{
    let project = Text::from_text(alloc, "default")?;
    let name = Text::from_text(alloc, "default")?;
    let of = Target {
        kind: ObjectKind::Profile,
        pool: Text::new(alloc),
        instance: Text::new(alloc),
        name,
    };
    let body = Body {
        description: None,
        config: None,
        devices: None,
        profiles: None,
        kind: None,
        ephemeral: None,
        driver: None,
        origin: Origin::None,
    };
    Ok(Command {
        project,
        what: What::Patch { of, body },
        expects: None,
    })
}

/// Whether the first rows are read back by their names.
fn is_first(estate: &Estate) -> bool {
    let view = estate.view();
    view.profile_home("default") == "default"
        && view.project_named("default").is_some()
        && view.project_named("lab").is_none()
        && view.profile_named("default", "default").is_some()
        && view.profile_named("default", "lab").is_none()
}

/// Whether no changes have no entries, and leave a draft as it is.
fn stays(alloc: Global, draft: &mut Draft) -> bool
    requires { draft.old.log ≡ [] }
{
    let changes = Seq::new(alloc);
    if draft.reserve_for(alloc, &changes).is_err() {
        return false;
    }
    let Ok(entries) = entry_changes(alloc, &changes) else {
        return false;
    };
    let none = entries.is_empty();
    drop(entries);
    draft.apply(changes);
    draft.keep_changes();
    none && draft.view().profiles.is_empty()
}

/// A profile `default` that is put.
fn one_put(alloc: Global) -> Result<Seq<RowChange>, NoMemory> {
    let project = Text::from_text(alloc, "lab")?;
    let profile = default_profile(alloc, &project)?;
    let mut changes = Seq::new(alloc);
    changes.push(RowChange::Put(Row::Profile(Boxed::new(alloc, profile)?)))?;
    Ok(changes)
}

/// Whether a row that is put is there, and is gone once it is taken back.
fn is_taken_back(alloc: Global, draft: &mut Draft) -> bool
    requires { draft.old.log ≡ [] }
{
    let Ok(changes) = one_put(alloc) else {
        return false;
    };
    if draft.reserve_for(alloc, &changes).is_err() {
        return false;
    }
    draft.apply(changes);
    let put = draft.view().profiles.len() == 1;
    draft.undo_changes();
    put && draft.view().profiles.is_empty()
}

/// Whether a change of rows leaves a notice, which is handed out once.
fn tells_once(alloc: Global, estate: &mut Estate, keeper: &mut MapKeeper, command: &Command) -> bool
    requires quiet { estate.old.untold ≡ [] }
    requires formed { is_formed command.now ≡ true }
    requires command { is_object_command command.now.what ≡ true }
{
    let reply = do_object(alloc, estate, keeper, command, 0);
    let done = matches!(&reply, Reply::Empty);
    drop(reply);
    let told = is_told(alloc, estate);
    let more = is_told(alloc, estate);
    done && told && !more
}

/// Whether rows tell a notice of a PATCH once, and are the first ones still.
fn tells_patch(alloc: Global, estate: &mut Estate, keeper: &mut MapKeeper) -> bool
    requires quiet { estate.old.untold ≡ [] }
{
    let Ok(command) = patch(alloc) else {
        return false;
    };
    let told = tells_once(alloc, estate, keeper, &command);
    drop(command);
    told && is_first(estate)
}

/// Whether a notice waits, which is taken.
fn is_told(alloc: Global, estate: &mut Estate) -> bool {
    match estate.take_event(alloc) {
        Ok(taken) => {
            let told = taken.is_some();
            drop(taken);
            told
        }
        Err(NoMemory) => false,
    }
}

/// Whether the first rows are opened, tell a notice of a change once, and stay where nothing is changed.
fn tells(alloc: Global) -> bool {
    let mut keeper = MapKeeper::new(alloc, Seq::new(alloc));
    let told = match load_rows(alloc, &mut keeper) {
        Ok(mut estate) => {
            let told = tells_patch(alloc, &mut estate, &mut keeper);
            drop(estate);
            told
        }
        Err(fault) => {
            drop(fault);
            false
        }
    };
    drop(keeper);
    told
}

/// Whether a draft stays where nothing is changed, and where a change is taken back.
fn drafts(alloc: Global) -> bool {
    let Ok(mut draft) = Draft::new(alloc) else {
        return false;
    };
    let same = stays(alloc, &mut draft);
    drop(draft);
    same && takes_back(alloc)
}

fn takes_back(alloc: Global) -> bool {
    let Ok(mut draft) = Draft::new(alloc) else {
        return false;
    };
    let back = is_taken_back(alloc, &mut draft);
    drop(draft);
    back
}

/// Whether the profile `default` of a project is made without devices.
fn is_default_made(alloc: Global) -> bool {
    let Ok(lab) = Text::from_text(alloc, "lab") else {
        return false;
    };
    match default_profile(alloc, &lab) {
        Ok(profile) => {
            let made = profile.project.view() == "lab" && profile.devices.len() == 0;
            drop(profile);
            made
        }
        Err(NoMemory) => false,
    }
}

#[test]
fn rows_are_read_and_told(rt: HostRuntime) {
    let alloc = rt.alloc();
    assert!(rt; tells(alloc));
    assert!(rt; drafts(alloc));
    assert!(rt; is_default_made(alloc));
}
