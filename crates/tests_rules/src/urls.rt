use object_links::url_of;
use records::Target;
use size_values::{NoMemory, ObjectKind, Text};
use std::alloc::Global;

/// The URLs of objects of the name `x`: the kind, the pool or instance that it stands in, the project, and the URL.
const URLS: &[(ObjectKind, &str, &str, &str)] = &[
    (ObjectKind::Project, "", "p", "/1.0/projects/x"),
    (ObjectKind::Operation, "", "p", "/1.0/operations/x"),
    (ObjectKind::Profile, "", "default", "/1.0/profiles/x"),
    (ObjectKind::Profile, "", "p", "/1.0/profiles/x?project=p"),
    (
        ObjectKind::Volume,
        "o",
        "p",
        "/1.0/storage-pools/o/volumes/custom/x?project=p",
    ),
    (
        ObjectKind::Snapshot,
        "o",
        "default",
        "/1.0/instances/o/snapshots/x",
    ),
];

fn target(alloc: Global, kind: ObjectKind, outer: &str) -> Result<Target, NoMemory> {
    let pool = Text::from_text(alloc, outer)?;
    let instance = Text::from_text(alloc, outer)?;
    let name = Text::from_text(alloc, "x")?;
    Ok(Target {
        kind,
        pool,
        instance,
        name,
    })
}

fn is_url(alloc: Global, project: &str, of: &Target, url: &str) -> bool {
    match url_of(alloc, project, of) {
        Ok(text) => text.view() == url,
        Err(_) => false,
    }
}

/// Whether the object has this URL.
fn has_url(alloc: Global, kind: ObjectKind, outer: &str, project: &str, url: &str) -> bool {
    match target(alloc, kind, outer) {
        Ok(of) => {
            let same = is_url(alloc, project, &of, url);
            drop(of);
            same
        }
        Err(_) => false,
    }
}

#[test]
fn urls_name_the_project_where_it_matters(rt: HostRuntime) {
    for (kind, outer, project, url) in URLS {
        assert!(rt; has_url(rt.alloc(), *kind, outer, project, url), "{url}");
    }
}
