ghost use Rattle.std.specs.Prelude.{◌≡◌, ◌≤◌, length};
ghost use Rattle.std.specs.List.{list_all, prefix_len};
ghost use Rattle.option_tables.specs.Names.{is_name_byte, is_device_byte, is_device_name, is_network_name};
ghost use Rattle.option_tables.specs.Names.{are_network_names, is_pattern, may_begin, is_numbered};

/// Whether a text is the name of a device: 1 to 64 bytes of letters, digits, `-`, `_`, `.`, `:` and `/`.
pub fn is_device_name(name: &str) -> bool
    ensures { result ≡ is_device_name name.now }
{
    !name.is_empty() && name.len() <= 64 && are_device_bytes(name.as_bytes())
}

/// Whether each part between commas is the name of a network.
pub fn are_network_names(text: &str) -> bool
    ensures { result ≡ are_network_names text.now }
{
    text.split(',').all(|name| is_network_name(name))
}

/// Whether a text is the name of a network: 2 to 15 bytes of letters, digits, `-`, `_` and `.`, the first a
/// letter or a digit.
fn is_network_name(name: &str) -> bool
    ensures { result ≡ is_network_name name.now }
{
    let [first, ..] = name.as_bytes() else {
        return false;
    };
    name.len() >= 2
        && name.len() <= 15
        && first.is_ascii_alphanumeric()
        && are_name_bytes(name.as_bytes())
}

/// Whether a text is a pattern of names: 3 to 50 bytes with one `%d`, the others letters, digits, `-`, `_` and
/// `.`, and the first a letter or a digit unless `%d` comes first.
pub fn is_pattern(text: &str) -> bool
    ensures { result ≡ is_pattern text.now }
{
    let bytes = text.as_bytes();
    bytes.len() >= 3
        && bytes.len() <= 50
        && may_begin(bytes[0])
        && is_numbered(&bytes[name_len(bytes)..])
}

fn may_begin(first: u8) -> bool
    ensures { result ≡ may_begin first }
{
    first.is_ascii_alphanumeric() || first == b'%'
}

/// Whether `%d` comes first, and bytes of names after it.
fn is_numbered(bytes: &[u8]) -> bool
    ensures { result ≡ is_numbered bytes.now }
{
    match bytes {
        [b'%', b'd', back @ ..] => are_name_bytes(back),
        _ => false,
    }
}

/// How many bytes of names there are at the front.
fn name_len(bytes: &[u8]) -> usize
    ensures len { result ≡ prefix_len is_name_byte bytes.now }
    ensures within { result ≤ length bytes.now }
{
    bytes.iter().take_while(|b| is_name_byte(**b)).count()
}

fn are_name_bytes(bytes: &[u8]) -> bool
    ensures { result ≡ list_all is_name_byte bytes.now }
{
    bytes.iter().all(|b| is_name_byte(*b))
}

fn are_device_bytes(bytes: &[u8]) -> bool
    ensures { result ≡ list_all is_device_byte bytes.now }
{
    bytes.iter().all(|b| is_device_byte(*b))
}

fn is_name_byte(b: u8) -> bool
    ensures { result ≡ is_name_byte b }
{
    b.is_ascii_alphanumeric() || b == b'-' || b == b'_' || b == b'.'
}

fn is_device_byte(b: u8) -> bool
    ensures { result ≡ is_device_byte b }
{
    is_name_byte(b) || b == b':' || b == b'/'
}
