//! The first bytes of the file of a journal, and what a file is by them.
ghost use Rattle.std.specs.Prelude.{◌≡◌};
ghost use Rattle.file_disk.specs.Headers.{fresh_file, is_begun, is_newer, judged, names_newer};

use crate::refusal::FileRefused;

/// The first bytes of the file of a journal: its name and version.
pub(crate) const HEADER: &[u8] = b"incus journal 1\n";

/// Whether the two bytes behind the name are a version above 1: a digit and a line feed, or two digits.
fn is_newer(version: &[u8]) -> bool
    ensures { result ≡ is_newer version.now }
{
    match version {
        [digit, b'\n'] => digit.is_ascii_digit() && *digit > b'1',
        [digit, next] => digit.is_ascii_digit() && *digit > b'0' && next.is_ascii_digit(),
        _ => false,
    }
}

/// Whether the first 16 bytes of a file name a newer version.
fn names_newer(header: &[u8]) -> bool
    ensures { result ≡ names_newer header.now }
{
    header.len() == 16 && &header[..14] == b"incus journal ".as_slice() && is_newer(&header[14..])
}

/// What a file is by its first 16 bytes.
pub(crate) fn judge(header: &[u8]) -> Result<(), FileRefused>
    ensures { result ≡ judged header.now }
{
    if header == b"incus journal 1\n".as_slice() {
        return Ok(());
    }
    if names_newer(header) {
        Err(FileRefused::NewerVersion)
    } else {
        Err(FileRefused::NotAJournal)
    }
}

/// Whether a file is what is left of a journal that was being made: the beginning of a fresh one, of which any bytes may
/// still be zero.
pub(crate) fn is_begun(bytes: &[u8]) -> bool
    ensures { result ≡ is_begun fresh_file bytes.now }
{
    let mut left = bytes;
    let mut fresh = b"incus journal 1\n\0".as_slice();
    while let [byte, more @ ..] = left {
        let [due, then @ ..] = fresh else {
            return false;
        };
        if *byte != 0 && byte != due {
            return false;
        }
        left = more;
        fresh = then;
    }
    true
}
