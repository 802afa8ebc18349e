ghost use Rattle.std.specs.Prelude.{◌≡◌};
ghost use Rattle.rest_bodies.specs.Keys.{word_of, place_of, key_named};

/// The keys that have a meaning in bodies, and in the sources that they name.
#[derive(Clone, Copy)]
pub(crate) enum Key {
    Action,
    Alias,
    Config,
    Description,
    Devices,
    Driver,
    Ephemeral,
    Fingerprint,
    Migration,
    Name,
    Pool,
    Profiles,
    Project,
    Restore,
    Source,
    Start,
    Stateful,
    Type,
}

/// A key as bodies spell it.
pub(crate) fn word_of(key: Key) -> &'static str
    ensures { result.now ≡ word_of key }
{
    match key {
        Key::Action => "action",
        Key::Alias => "alias",
        Key::Config => "config",
        Key::Description => "description",
        Key::Devices => "devices",
        Key::Driver => "driver",
        Key::Ephemeral => "ephemeral",
        Key::Fingerprint => "fingerprint",
        Key::Migration => "migration",
        Key::Name => "name",
        Key::Pool => "pool",
        Key::Profiles => "profiles",
        Key::Project => "project",
        Key::Restore => "restore",
        Key::Source => "source",
        Key::Start => "start",
        Key::Stateful => "stateful",
        Key::Type => "type",
    }
}

pub(crate) fn place_of(key: Key) -> usize
    ensures { result ≡ place_of key }
{
    key as usize
}

/// The key of this spelling.
#[tactic(auto, unfolding(crate::specs::Keys::key_named))]
pub(crate) fn key_named(text: &str) -> Option<Key>
    ensures { result ≡ key_named text.now }
{
    match text {
        "action" => Some(Key::Action),
        "alias" => Some(Key::Alias),
        "config" => Some(Key::Config),
        "description" => Some(Key::Description),
        "devices" => Some(Key::Devices),
        "driver" => Some(Key::Driver),
        "ephemeral" => Some(Key::Ephemeral),
        "fingerprint" => Some(Key::Fingerprint),
        "migration" => Some(Key::Migration),
        "name" => Some(Key::Name),
        "pool" => Some(Key::Pool),
        "profiles" => Some(Key::Profiles),
        "project" => Some(Key::Project),
        "restore" => Some(Key::Restore),
        "source" => Some(Key::Source),
        "start" => Some(Key::Start),
        "stateful" => Some(Key::Stateful),
        "type" => Some(Key::Type),
        _ => None,
    }
}
