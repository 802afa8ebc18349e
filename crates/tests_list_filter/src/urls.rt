//! The URLs of objects that are shown.
use crate::shown::{What, view_of};
use list_filter::url_of_view;
use records::View;
use std::alloc::Global;

/// An object, and its URL.
const URLS: &[(What, &str)] = &[
    (What::Server, ""),
    (What::Project, "/1.0/projects/p"),
    (What::Profile, "/1.0/profiles/f?project=p"),
    (What::Network, "/1.0/networks/n?project=p"),
    (What::Pool, "/1.0/storage-pools/o"),
    (
        What::Volume,
        "/1.0/storage-pools/o/volumes/custom/v?project=p",
    ),
    (What::Container, "/1.0/instances/i?project=p"),
    (What::Snapshot, "/1.0/instances/i/snapshots/s?project=p"),
    (What::Power, ""),
    (What::Usage, ""),
    (What::Operation, ""),
];

fn is_url(alloc: Global, shown: &View, wanted: &str) -> bool {
    match url_of_view(alloc, shown) {
        Ok(url) => url.view() == wanted,
        Err(_) => false,
    }
}

/// Whether an object has this URL.
fn has_url(alloc: Global, what: What, wanted: &str) -> bool {
    match view_of(alloc, what) {
        Ok(shown) => {
            let same = is_url(alloc, &shown, wanted);
            drop(shown);
            same
        }
        Err(_) => false,
    }
}

#[test]
fn objects_have_the_urls_of_their_rows(rt: HostRuntime) {
    for (what, url) in URLS {
        assert!(rt; has_url(rt.alloc(), *what, url), "{url}");
    }
}
