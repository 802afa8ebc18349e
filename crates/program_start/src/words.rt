ghost use Rattle.std.specs.Prelude.{◌≢◌};
ghost use Rattle.start_faults.specs.declared.fault.StartFault.TheVariants as fault;

use start_faults::StartFault;
use std::io::ErrorKind;
use std::{env, io};

/// The words after the program's own name.
pub fn words_of(rt: &HostRuntime) -> io::Result<Vec<String>> {
    let mut words = Vec::new(rt.alloc());
    for word in env::args(rt)?.skip(1) {
        words.push(word)?;
    }
    Ok(words)
}

/// Why the words could not be taken: one is no UTF-8, which is not read, or there was no memory for
/// them.
pub fn fault_of(error: &io::Error) -> StartFault
    ensures unopened { result ≢ fault.Unopened }
    ensures failed { result ≢ fault.KeeperFailed }
{
    match error.kind() {
        ErrorKind::InvalidData => StartFault::Words,
        _ => StartFault::NoMemory,
    }
}
