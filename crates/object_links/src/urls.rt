//! URLs of objects: the path of an object, and its project where it belongs to one other than `default`.
ghost use Rattle.std.specs.Prelude.{◌≡◌, ◌++◌, IfOk, string_bytes};
ghost use Rattle.row_machine.specs.shown.Urls.{project_query, path_of, url_of};

use records::Target;
use size_values::{NoMemory, ObjectKind, Text};
use std::alloc::Global;

/// A path of two parts.
fn join_path(alloc: Global, list: &str, name: &str) -> Result<String, NoMemory>
    ensures { IfOk result (λ s. string_bytes s ≡ list.now ++ name.now) }
{
    let mut path = String::from_str(alloc, list)?;
    path.push_str(name)?;
    Ok(path)
}

/// A path of four parts.
fn joined_inside(
    alloc: Global,
    list: &str,
    outer: &str,
    between: &str,
    name: &str,
) -> Result<String, NoMemory>
    ensures { IfOk result (λ s. string_bytes s ≡ list.now ++ outer.now ++ between.now ++ name.now) }
{
    let mut path = String::from_str(alloc, list)?;
    path.push_str(outer)?;
    path.push_str(between)?;
    path.push_str(name)?;
    Ok(path)
}

/// The path of an object, by its kind, the pool or instance that it stands in, and its name.
fn path_text(alloc: Global, of: &Target) -> Result<String, NoMemory>
    ensures { IfOk result (λ s. string_bytes s ≡ path_of of.now) }
{
    let name = of.name.view();
    match of.kind {
        ObjectKind::Project => join_path(alloc, "/1.0/projects/", name),
        ObjectKind::Profile => join_path(alloc, "/1.0/profiles/", name),
        ObjectKind::Network => join_path(alloc, "/1.0/networks/", name),
        ObjectKind::Pool => join_path(alloc, "/1.0/storage-pools/", name),
        ObjectKind::Volume => joined_inside(
            alloc,
            "/1.0/storage-pools/",
            of.pool.view(),
            "/volumes/custom/",
            name,
        ),
        ObjectKind::Instance => join_path(alloc, "/1.0/instances/", name),
        ObjectKind::Snapshot => joined_inside(
            alloc,
            "/1.0/instances/",
            of.instance.view(),
            "/snapshots/",
            name,
        ),
        ObjectKind::Operation => join_path(alloc, "/1.0/operations/", name),
    }
}

/// A path with the query that names a project; `default` needs none.
fn with_query(path: String, project: &str) -> Result<Text, NoMemory>
    ensures { IfOk result (λ t. t ≡ string_bytes path ++ project_query project.now) }
{
    if project == "default" {
        return Ok(Text::from_string(path));
    }
    let mut url = path;
    url.push_str("?project=")?;
    url.push_str(project)?;
    Ok(Text::from_string(url))
}

/// The URL of an object, with its project where it belongs to one. Those of projects, pools and operations name none.
pub fn url_of(alloc: Global, project: &str, of: &Target) -> Result<Text, NoMemory>
    ensures { IfOk result (λ t. t ≡ url_of project.now of.now) }
{
    let path = path_text(alloc, of)?;
    match of.kind {
        ObjectKind::Project | ObjectKind::Pool | ObjectKind::Operation => {
            Ok(Text::from_string(path))
        }
        ObjectKind::Profile
        | ObjectKind::Network
        | ObjectKind::Volume
        | ObjectKind::Instance
        | ObjectKind::Snapshot => with_query(path, project),
    }
}
