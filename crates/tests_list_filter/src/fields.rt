//! Each member of each kind of object as a field.
use crate::shown::{What, terms, view_of};
use list_filter::value_of;
use records::View;
use rest_json::Dialect;
use size_values::Text;
use std::alloc::Global;

/// An object, a field, and its value, if it has one.
const FIELDS: &[(What, &str, Option<&str>)] = &[
    (What::Server, "api_extensions", None),
    (What::Server, "api_status", Some("stable")),
    (What::Server, "api_version", Some("1.0")),
    (What::Server, "auth", Some("trusted")),
    (What::Server, "public", Some("false")),
    (What::Server, "config.user.x", None),
    (What::Project, "config", None),
    (What::Project, "config.user.x", Some("1")),
    (What::Project, "description", Some("a project")),
    (What::Project, "name", Some("p")),
    (What::Project, "used_by", None),
    (What::Project, "project", None),
    (What::Profile, "config.user.x", Some("1")),
    (What::Profile, "description", Some("a profile")),
    (What::Profile, "devices", None),
    (What::Profile, "name", Some("f")),
    (What::Profile, "project", Some("p")),
    (What::Profile, "used_by", None),
    (What::Network, "config.user.x", Some("1")),
    (What::Network, "description", Some("")),
    (What::Network, "managed", Some("true")),
    (What::Network, "name", Some("n")),
    (What::Network, "project", Some("p")),
    (What::Network, "type", Some("bridge")),
    (What::Network, "used_by", None),
    (What::Pool, "config.user.x", Some("1")),
    (What::Pool, "description", Some("a pool")),
    (What::Pool, "driver", Some("zfs")),
    (What::Pool, "name", Some("o")),
    (What::Pool, "used_by", None),
    (What::Volume, "config.user.x", Some("1")),
    (What::Volume, "created_at", Some("2024-01-31T00:00:00Z")),
    (What::Volume, "description", Some("a volume")),
    (What::Volume, "name", Some("v")),
    (What::Volume, "pool", Some("o")),
    (What::Volume, "project", Some("p")),
    (What::Volume, "type", Some("custom")),
    (What::Volume, "used_by", None),
    (What::Container, "config", None),
    (What::Container, "config.", None),
    (What::Container, "config.user", None),
    (What::Container, "config.user.x", Some("1")),
    (What::Container, "config.user.x.y", Some("2")),
    (What::Container, "config.user.z", None),
    (What::Container, "config.USER.X", None),
    (What::Container, "created_at", Some("2024-01-31T00:00:00Z")),
    (What::Container, "description", Some("an instance")),
    (What::Container, "devices", None),
    (What::Container, "devices.root", None),
    (What::Container, "ephemeral", Some("true")),
    (What::Container, "expanded_config", None),
    (What::Container, "expanded_config.", None),
    (What::Container, "expanded_config.user.x", Some("1")),
    (What::Container, "expanded_config.user.x.y", None),
    (What::Container, "expanded_config.user.z", Some("3")),
    (What::Container, "expanded_devices", None),
    (What::Container, "name", Some("i")),
    (What::Container, "Name", None),
    (What::Container, "origin", None),
    (What::Container, "profiles", None),
    (What::Container, "project", Some("p")),
    (What::Container, "stateful", Some("false")),
    (What::Container, "status", Some("Running")),
    (What::Container, "status_code", Some("103")),
    (What::Container, "type", Some("container")),
    (What::Container, "", None),
    (What::Machine, "status", Some("Stopped")),
    (What::Machine, "status_code", Some("102")),
    (What::Machine, "type", Some("virtual-machine")),
    (What::Snapshot, "config.user.x", Some("1")),
    (What::Snapshot, "created_at", Some("2024-01-31T00:00:00Z")),
    (What::Snapshot, "devices", None),
    (What::Snapshot, "expires_at", Some("0001-01-01T00:00:00Z")),
    (
        What::KeptSnapshot,
        "expires_at",
        Some("2024-01-31T00:00:00Z"),
    ),
    (What::Snapshot, "name", Some("s")),
    (What::Snapshot, "profiles", None),
    (What::Snapshot, "project", None),
    (What::Snapshot, "stateful", Some("false")),
    (What::Power, "status", Some("Frozen")),
    (What::Power, "status_code", Some("110")),
    (What::Usage, "resources", None),
    (What::Operation, "class", Some("task")),
    (What::Operation, "created_at", Some("2024-01-31T00:00:00Z")),
    (What::Operation, "err", Some("")),
    (
        What::Operation,
        "id",
        Some("00000000-0000-8000-8000-000000000001"),
    ),
    (What::Operation, "may_cancel", Some("true")),
    (What::Operation, "metadata", None),
    (What::Operation, "resources", None),
    (What::Operation, "status", Some("Running")),
    (What::Operation, "status_code", Some("103")),
    (What::Operation, "updated_at", Some("2024-01-31T00:00:01Z")),
    (What::Operation, "config.user.x", None),
];

/// Whether a value is this one.
fn is(value: &Option<Text>, wanted: Option<&str>) -> bool {
    match (value, wanted) {
        (Some(value), Some(wanted)) => value.view() == wanted,
        (None, None) => true,
        _ => false,
    }
}

fn is_value(alloc: Global, shown: &View, field: &str, wanted: Option<&str>) -> bool {
    match value_of(alloc, terms(Dialect::Plain), shown, field) {
        Ok(value) => {
            let same = is(&value, wanted);
            drop(value);
            same
        }
        Err(_) => false,
    }
}

/// Whether the field of an object has this value.
fn has(alloc: Global, what: What, field: &str, wanted: Option<&str>) -> bool {
    match view_of(alloc, what) {
        Ok(shown) => {
            let same = is_value(alloc, &shown, field, wanted);
            drop(shown);
            same
        }
        Err(_) => false,
    }
}

#[test]
fn fields_have_the_values_of_members(rt: HostRuntime) {
    for (what, field, wanted) in FIELDS {
        assert!(rt; has(rt.alloc(), *what, field, *wanted), "{field}");
    }
}
