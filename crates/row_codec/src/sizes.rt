//! The sizes of bodies of version 1, part by part. A sum stops at the greatest number of eight bytes.
ghost use Rattle.std.specs.Prelude.{◌≡◌, ◌+◌, ℕ, length};
ghost use Rattle.records.specs.AnyRows.{row_in};
ghost use Rattle.row_codec.specs.Spelling.{text_bytes, texts_bytes, settings_bytes, devices_bytes, body_of};
ghost use Rattle.row_codec.specs.Spelling.{project_bytes, profile_bytes, network_bytes, pool_bytes, volume_bytes};
ghost use Rattle.row_codec.specs.Spelling.{instance_bytes, snapshot_bytes};
ghost use Rattle.row_codec.specs.Sizes.{capped};

use config_lists::{Config, Devices};
use records::{AnyRow, Instance, Network, Pool, Profile, Project, Row, Snapshot, Volume};
use size_values::Text;

/// The sum of both, or the greatest number.
fn add_capped(a: u64, b: u64) -> u64
    ensures { (m n : ℕ) → a ≡ capped m → b ≡ capped n → result ≡ capped (m + n) }
{
    if a > u64::MAX - b { u64::MAX } else { a + b }
}

/// A text with its length before it.
fn text_size(text: &str) -> u64
    ensures { result ≡ capped (length (text_bytes text.now)) }
{
    add_capped(4, text.len() as u64)
}

/// A list of texts with its count before it.
fn texts_size(texts: &[Text]) -> u64
    ensures { result ≡ capped (length (texts_bytes texts.now)) }
{
    let mut size = 4;
    for text in texts {
        size = add_capped(size, text_size(text.view()));
    }
    size
}

/// Settings with their count before them.
fn settings_size(config: &Config) -> u64
    ensures { result ≡ capped (length (settings_bytes config.now)) }
{
    let mut size = 4;
    for place in 0..config.len() {
        let setting = add_capped(
            text_size(config.key_at(place)),
            text_size(config.value_at(place)),
        );
        size = add_capped(size, setting);
    }
    size
}

/// Devices with their count before them.
fn devices_size(devices: &Devices) -> u64
    ensures { result ≡ capped (length (devices_bytes devices.now)) }
{
    let mut size = 4;
    for place in 0..devices.len() {
        let device = add_capped(
            text_size(devices.name_at(place)),
            settings_size(devices.device_at(place)),
        );
        size = add_capped(size, device);
    }
    size
}

/// How many bytes the body of a project has, or the greatest number where there are more.
pub fn project_size(row: &Project) -> u64
    ensures { result ≡ capped (length (project_bytes row.now)) }
{
    let parts = add_capped(
        text_size(row.description.view()),
        settings_size(&row.config),
    );
    add_capped(1, parts)
}

/// How many bytes the body of a profile has, or the greatest number where there are more.
pub fn profile_size(row: &Profile) -> u64
    ensures { result ≡ capped (length (profile_bytes row.now)) }
{
    let lists = add_capped(settings_size(&row.config), devices_size(&row.devices));
    let parts = add_capped(text_size(row.description.view()), lists);
    add_capped(1, parts)
}

/// How many bytes the body of a network has, or the greatest number where there are more.
pub fn network_size(row: &Network) -> u64
    ensures { result ≡ capped (length (network_bytes row.now)) }
{
    let parts = add_capped(
        text_size(row.description.view()),
        settings_size(&row.config),
    );
    add_capped(1, parts)
}

/// How many bytes the body of a storage pool has, or the greatest number where there are more.
pub fn pool_size(row: &Pool) -> u64
    ensures { result ≡ capped (length (pool_bytes row.now)) }
{
    let parts = add_capped(
        text_size(row.description.view()),
        settings_size(&row.config),
    );
    add_capped(2, parts)
}

/// How many bytes the body of a storage volume has, or the greatest number where there are more.
pub fn volume_size(row: &Volume) -> u64
    ensures { result ≡ capped (length (volume_bytes row.now)) }
{
    let parts = add_capped(
        text_size(row.description.view()),
        settings_size(&row.config),
    );
    add_capped(9, parts)
}

/// How many bytes the body of an instance has, or the greatest number where there are more.
pub fn instance_size(row: &Instance) -> u64
    ensures { result ≡ capped (length (instance_bytes row.now)) }
{
    let texts = add_capped(
        text_size(row.description.view()),
        text_size(row.origin.view()),
    );
    let lists = add_capped(
        texts_size(row.profiles.view()),
        add_capped(settings_size(&row.config), devices_size(&row.devices)),
    );
    add_capped(11, add_capped(texts, lists))
}

/// How many bytes the body of a snapshot has, or the greatest number where there are more.
pub fn snapshot_size(row: &Snapshot) -> u64
    ensures { result ≡ capped (length (snapshot_bytes row.now)) }
{
    let lists = add_capped(
        texts_size(row.profiles.view()),
        add_capped(settings_size(&row.config), devices_size(&row.devices)),
    );
    add_capped(17, lists)
}

/// How many bytes the body of a row has, or the greatest number where there are more.
pub fn row_size(row: &Row) -> u64
    ensures { result ≡ capped (length (body_of row.now)) }
{
    size_of(row.lent())
}

/// The same of a row that is lent.
pub(crate) fn size_of(row: AnyRow<'_>) -> u64
    ensures { result ≡ capped (length (body_of (row_in row.entry))) }
{
    match row {
        AnyRow::Project(row) => project_size(row),
        AnyRow::Profile(row) => profile_size(row),
        AnyRow::Network(row) => network_size(row),
        AnyRow::Pool(row) => pool_size(row),
        AnyRow::Volume(row) => volume_size(row),
        AnyRow::Instance(row) => instance_size(row),
        AnyRow::Snapshot(row) => snapshot_size(row),
    }
}
