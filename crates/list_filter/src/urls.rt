//! The URLs of objects that are shown.
ghost use Rattle.std.specs.Prelude.{◌≡◌, [], IfOk};
ghost use Rattle.records.specs.declared.rows.Row.TheVariants as kept;
ghost use Rattle.row_machine.specs.shown.Urls.{url_of};
ghost use Rattle.row_machine.specs.shown.Views.{row_url};
ghost use Rattle.list_filter.specs.Urls.{view_url};

use object_links::{snapshot_target, target_named, url_of, volume_target};
use records::{Snapshot, View, Volume};
use size_values::{NoMemory, ObjectKind, Text};
use std::alloc::Global;

/// The URL of an object that stands in no pool and in no instance.
fn named_url(alloc: Global, kind: ObjectKind, project: &str, name: &Text) -> Result<Text, NoMemory>
    ensures { IfOk result (λ url.
        url ≡ url_of project.now (record { kind = kind; pool = []; instance = []; name = name.now })) }
{
    let target = target_named(alloc, kind, name)?;
    let url = url_of(alloc, project, &target);
    drop(target);
    url
}

fn volume_url(alloc: Global, row: &Volume) -> Result<Text, NoMemory>
    ensures { IfOk result (λ url. url ≡ row_url (kept.Volume row.now)) }
{
    let target = volume_target(alloc, row)?;
    let url = url_of(alloc, row.project.view(), &target);
    drop(target);
    url
}

fn snapshot_url(alloc: Global, row: &Snapshot) -> Result<Text, NoMemory>
    ensures { IfOk result (λ url. url ≡ row_url (kept.Snapshot row.now)) }
{
    let target = snapshot_target(alloc, row)?;
    let url = url_of(alloc, row.project.view(), &target);
    drop(target);
    url
}

/// The URL of the row that is shown, as a list without recursion tells it. The server, an operation and the states of
/// an instance and of a project are no rows: theirs is empty.
pub fn url_of_view(alloc: Global, shown: &View) -> Result<Text, NoMemory>
    ensures { IfOk result (λ url. url ≡ view_url shown.now) }
{
    match shown {
        View::Project(row, _) => named_url(alloc, ObjectKind::Project, "", &row.name),
        View::Profile(row, _) => {
            named_url(alloc, ObjectKind::Profile, row.project.view(), &row.name)
        }
        View::Network(row, _) => {
            named_url(alloc, ObjectKind::Network, row.project.view(), &row.name)
        }
        View::Pool(row, _) => named_url(alloc, ObjectKind::Pool, "", &row.name),
        View::Volume(row, _) => volume_url(alloc, row),
        View::Instance { row, .. } => {
            named_url(alloc, ObjectKind::Instance, row.project.view(), &row.name)
        }
        View::Snapshot(row) => snapshot_url(alloc, row),
        View::Server | View::Power(_) | View::Usage(_) | View::Op(_) => Ok(Text::new(alloc)),
    }
}
