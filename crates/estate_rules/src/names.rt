ghost use Rattle.std.specs.Prelude.{◌≡◌, ◌==◌, not};
ghost use Rattle.estate_rules.specs.Names.{good_name_of, is_instance_byte, is_instance_name, is_object_byte};
ghost use Rattle.estate_rules.specs.Names.{is_object_name, is_project_byte, is_project_name, is_word_of, begins_by};
ghost use Rattle.estate_rules.specs.Names.{ends_by};
ghost use Rattle.std.specs.Char.{is_ascii_alphanumeric, is_ascii_alphabetic};
ghost use Rattle.std.specs.List.{list_all};

use size_values::ObjectKind;

/// Whether an object of this kind may get this name. An instance's name has 1 to 63 letters, digits and dashes,
/// begins with a letter and does not end with a dash, as the page on instances says of host names. A project's
/// has 1 to 63 letters, digits, dashes and dots; a network's 2 to 15 and that of a profile, pool, volume or
/// snapshot 1 to 63 letters, digits, dashes, dots and underscores; these begin with a letter or a digit.
/// An operation gets no name.
pub fn good_name(kind: ObjectKind, name: &str) -> bool
    ensures { result ≡ good_name_of kind name.now }
{
    let name = name.as_bytes();
    match kind {
        ObjectKind::Project => is_project_name(name),
        ObjectKind::Network => is_object_name(name, 2, 15),
        ObjectKind::Instance => is_instance_name(name),
        ObjectKind::Profile | ObjectKind::Pool | ObjectKind::Volume | ObjectKind::Snapshot =>
            is_object_name(name, 1, 63),
        ObjectKind::Operation => false,
    }
}

fn is_instance_byte(byte: u8) -> bool
    ensures { result ≡ is_instance_byte byte }
{
    byte.is_ascii_alphanumeric() || byte == b'-'
}

fn is_project_byte(byte: u8) -> bool
    ensures { result ≡ is_project_byte byte }
{
    is_instance_byte(byte) || byte == b'.'
}

fn is_object_byte(byte: u8) -> bool
    ensures { result ≡ is_object_byte byte }
{
    is_project_byte(byte) || byte == b'_'
}

fn begins_alphanumeric(name: &[u8]) -> bool
    ensures { result ≡ begins_by is_ascii_alphanumeric name.now }
{
    name.first()
        .is_some_and(|first| first.is_ascii_alphanumeric())
}

fn begins_alphabetic(name: &[u8]) -> bool
    ensures { result ≡ begins_by is_ascii_alphabetic name.now }
{
    name.first()
        .is_some_and(|first| first.is_ascii_alphabetic())
}

fn ends_without_dash(name: &[u8]) -> bool
    ensures { result ≡ ends_by (λ c. not (c == 45)) name.now }
{
    name.last().is_some_and(|last| *last != b'-')
}

fn has_instance_bytes(name: &[u8]) -> bool
    ensures { result ≡ list_all is_instance_byte name.now }
{
    name.iter().all(|byte| is_instance_byte(*byte))
}

fn has_project_bytes(name: &[u8]) -> bool
    ensures { result ≡ list_all is_project_byte name.now }
{
    name.iter().all(|byte| is_project_byte(*byte))
}

fn has_object_bytes(name: &[u8]) -> bool
    ensures { result ≡ list_all is_object_byte name.now }
{
    name.iter().all(|byte| is_object_byte(*byte))
}

#[tactic(auto, unfolding(crate::specs::Names::is_instance_name))]
fn is_instance_name(name: &[u8]) -> bool
    ensures { result ≡ is_instance_name name.now }
{
    name.len() >= 1
        && name.len() <= 63
        && has_instance_bytes(name)
        && begins_alphabetic(name)
        && ends_without_dash(name)
}

#[tactic(auto, unfolding(crate::specs::Names::is_project_name))]
fn is_project_name(name: &[u8]) -> bool
    ensures { result ≡ is_project_name name.now }
{
    name.len() >= 1 && name.len() <= 63 && has_project_bytes(name) && begins_alphanumeric(name)
}

#[tactic(auto, unfolding(crate::specs::Names::is_object_name))]
fn is_object_name(name: &[u8], least: usize, most: usize) -> bool
    ensures { result ≡ is_object_name least most name.now }
{
    name.len() >= least && name.len() <= most && has_object_bytes(name) && begins_alphanumeric(name)
}
