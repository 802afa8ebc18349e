ghost use Rattle.std.specs.Prelude.{◌≡◌};
ghost use Rattle.serde_json.specs.View.{view};
ghost use Rattle.rest_bodies.specs.Drivers.{driver_of, driver_in, driver_at};

use crate::keys::Key;
use crate::sent::SentBody;
use records::Driver;
use serde_json::Value;

#[tactic(auto, unfolding(crate::specs::Drivers::driver_of))]
fn driver_of(name: &str) -> Option<Driver>
    ensures { result ≡ driver_of name.now }
{
    if name == "dir" {
        return Some(Driver::Dir);
    }
    if name == "btrfs" {
        return Some(Driver::Btrfs);
    }
    if name == "lvm" {
        return Some(Driver::Lvm);
    }
    if name == "zfs" {
        return Some(Driver::Zfs);
    }
    None
}

/// The driver of a pool that a value names.
#[tactic(auto, unfolding(crate::specs::Drivers::driver_in))]
pub(crate) fn driver_in(value: &Value) -> Option<Driver>
    ensures { result ≡ driver_in (view value.now) }
{
    match value.as_str() {
        Some(name) => driver_of(name),
        None => None,
    }
}

/// The driver in a body, if one is given.
#[tactic(auto, unfolding(crate::specs::Drivers::driver_at))]
pub(crate) fn driver_at(body: &SentBody) -> Option<Driver>
    ensures { result ≡ driver_at (view body.now) }
{
    match body.field(Key::Driver) {
        Some(value) => driver_in(value),
        None => None,
    }
}
