ghost use Rattle.std.specs.Prelude.{◌≡◌};
ghost use Rattle.std.specs.List.{before_first};
ghost use Rattle.rest_routes.specs.Paths.{is_question_mark, before_slash, after_slash, after_three_slashes, path_in};
ghost use Rattle.rest_routes.specs.Paths.{path_of, query_of, name_of, pool_of, instance_of};

use crate::absolute::absolute_path;
use size_values::ObjectKind;

/// What stands before the first slash, or all where there is none.
#[tactic(auto, unfolding(crate::specs::Paths::before_slash))]
fn before_slash(text: &str) -> &str
    ensures { result.now ≡ before_slash text.now }
{
    match text.split_once('/') {
        Some((before, _)) => before,
        None => text,
    }
}

/// What stands after the first slash, or nothing where there is none.
#[tactic(auto, unfolding(crate::specs::Paths::after_slash))]
fn after_slash(text: &str) -> &str
    ensures { result.now ≡ after_slash text.now }
{
    match text.split_once('/') {
        Some((_, after)) => after,
        None => "",
    }
}

/// What stands before the first question mark of a target, and what stands after it (RFC 3986, section 3.4).
#[tactic(auto, unfolding(crate::specs::Paths::query_of))]
fn split_query(target: &str) -> (&str, &str)
    ensures front { result.0.now ≡ before_first is_question_mark target.now }
    ensures query { result.1.now ≡ query_of target.now }
{
    match target.split_once('?') {
        Some(parts) => parts,
        None => (target, ""),
    }
}

/// The path that a target without its query has.
fn path_in(text: &str) -> &str
    ensures { result.now ≡ path_in text.now }
{
    match absolute_path(text) {
        Some(path) => path,
        None => text,
    }
}

/// The path and the query of a target, neither of them decoded. The path is all before the first question mark, and of
/// a target in absolute form, as `http://localhost/1.0`, what stands there behind the host (RFC 9112, section 3.2).
#[tactic(auto, unfolding(crate::specs::Paths::path_of))]
pub fn split_target(target: &str) -> (&str, &str)
    ensures path { result.0.now ≡ path_of target.now }
    ensures query { result.1.now ≡ query_of target.now }
{
    let (front, query) = split_query(target);
    (path_in(front), query)
}

/// The path of a target: all before the first question mark, and in absolute form what stands there behind the host.
pub fn path_of(target: &str) -> &str
    ensures { result.now ≡ path_of target.now }
{
    split_target(target).0
}

/// The query of a target: all after the first question mark.
pub fn query_of(target: &str) -> &str
    ensures { result.now ≡ query_of target.now }
{
    split_target(target).1
}

/// What stands after the first three slashes.
#[tactic(auto, unfolding(crate::specs::Paths::after_three_slashes))]
fn after_three_slashes(path: &str) -> &str
    ensures { result.now ≡ after_three_slashes path.now }
{
    after_slash(after_slash(after_slash(path)))
}

/// The names in the path of one object: its own, and that of the pool of a volume or of the instance of a snapshot.
#[derive(Clone, Copy)]
pub struct PathNames<'a> {
    pub pool: &'a str,
    pub instance: &'a str,
    pub name: &'a str,
}

/// The names in the path of one object, each found once.
pub fn path_names(kind: ObjectKind, path: &str) -> PathNames<'_>
    ensures pool { result.pool.now ≡ pool_of kind path.now }
    ensures instance { result.instance.now ≡ instance_of kind path.now }
    ensures name { result.name.now ≡ name_of kind path.now }
{
    let rest = after_three_slashes(path);
    let first = before_slash(rest);
    match kind {
        ObjectKind::Volume => PathNames {
            pool: first,
            instance: "",
            name: before_slash(after_three_slashes(rest)),
        },
        ObjectKind::Snapshot => PathNames {
            pool: "",
            instance: first,
            name: before_slash(after_slash(after_slash(rest))),
        },
        _ => PathNames {
            pool: "",
            instance: "",
            name: first,
        },
    }
}

/// The name of the object in a path `/1.0/profiles/NAME`, for volumes
/// `/1.0/storage-pools/POOL/volumes/custom/NAME`, and for snapshots
/// `/1.0/instances/INSTANCE/snapshots/NAME`.
pub fn name_of(kind: ObjectKind, path: &str) -> &str
    ensures { result.now ≡ name_of kind path.now }
{
    path_names(kind, path).name
}

/// The pool in a path of volumes, `/1.0/storage-pools/POOL/volumes`. Other objects stand in none.
pub fn pool_of(kind: ObjectKind, path: &str) -> &str
    ensures { result.now ≡ pool_of kind path.now }
{
    match kind {
        ObjectKind::Volume => before_slash(after_three_slashes(path)),
        _ => "",
    }
}

/// The instance in a path of snapshots, `/1.0/instances/INSTANCE/snapshots`. Other objects stand in none.
pub fn instance_of(kind: ObjectKind, path: &str) -> &str
    ensures { result.now ≡ instance_of kind path.now }
{
    match kind {
        ObjectKind::Snapshot => before_slash(after_three_slashes(path)),
        _ => "",
    }
}
