//! Targets in absolute form, which name a server before the path (RFC 9112, section 3.2.2).
ghost use Rattle.std.specs.Prelude.{◌≡◌, ◌++◌, codes};
ghost use Rattle.std.specs.List.{list_all};
ghost use Rattle.std.specs.Option.{option_map};
ghost use Rattle.rest_routes.specs.Paths.{before_slash, after_slash, before_colon, after_colon, is_http, behind_slash};
ghost use Rattle.rest_routes.specs.Paths.{is_of_authority, names_host, path_behind_host, absolute_path};

/// What stands before the first colon, or all where there is none, and what stands after it.
#[tactic(auto, unfolding(crate::specs::Paths::before_colon, crate::specs::Paths::after_colon))]
fn split_at_colon(text: &str) -> (&str, &str)
    ensures before { result.0.now ≡ before_colon text.now }
    ensures after { result.1.now ≡ after_colon text.now }
{
    match text.split_once(':') {
        Some(parts) => parts,
        None => (text, ""),
    }
}

/// Whether a scheme is one of HTTP, in any case of its letters (RFC 9110, section 4.2).
#[tactic(auto, unfolding(crate::specs::Paths::is_http))]
fn is_http(scheme: &str) -> bool
    ensures { result ≡ is_http scheme.now }
{
    let scheme = scheme.as_bytes();
    scheme.eq_ignore_ascii_case(b"http") || scheme.eq_ignore_ascii_case(b"https")
}

/// What stands behind a slash, if the text begins with one.
fn behind_slash(text: &str) -> Option<&str>
    ensures { option_map (λ rest. rest.now) result ≡ behind_slash text.now }
{
    text.strip_prefix('/')
}

/// Whether the byte may stand in an authority without a user and without a fragment.
fn is_of_authority(byte: u8) -> bool
    ensures { result ≡ is_of_authority byte }
{
    !(byte == b'@' || byte == b'#')
}

fn is_authority(text: &[u8]) -> bool
    ensures { result ≡ list_all is_of_authority text.now }
{
    text.iter().all(|byte| is_of_authority(*byte))
}

/// Whether the text names a host, with a port or without one (RFC 9110, section 4.2.1), and no user (section 4.2.4).
#[tactic(auto, unfolding(crate::specs::Paths::names_host))]
fn names_host(text: &str) -> bool
    ensures { result ≡ names_host text.now }
{
    !split_at_colon(text).0.is_empty() && is_authority(text.as_bytes())
}

/// The host at the front of a text, and the path behind it: from the first slash on, and `/` where there is none
/// (RFC 9110, section 4.2.3).
fn split_host(text: &str) -> (&str, &str)
    ensures host { result.0.now ≡ before_slash text.now }
    ensures path { result.1.now ≡ codes "/" ++ after_slash text.now }
{
    match text.find('/') {
        Some(at) => text.split_at(at),
        None => (text, "/"),
    }
}

/// The path of a text that begins with a host.
#[tactic(auto, unfolding(crate::specs::Paths::path_behind_host))]
fn path_behind_host(text: &str) -> Option<&str>
    ensures { option_map (λ path. path.now) result ≡ path_behind_host text.now }
{
    let (host, path) = split_host(text);
    if names_host(host) { Some(path) } else { None }
}

/// The path of a target in absolute form, of which the query is cut off: a scheme of HTTP, `://`, a host, and the path.
#[tactic(auto, unfolding(crate::specs::Paths::absolute_path))]
pub(crate) fn absolute_path(text: &str) -> Option<&str>
    ensures { option_map (λ path. path.now) result ≡ absolute_path text.now }
{
    let (scheme, rest) = split_at_colon(text);
    if !is_http(scheme) {
        return None;
    }
    path_behind_host(behind_slash(behind_slash(rest)?)?)
}
