//! What standard error tells a person.
use http_front::{Sink, WriterSink};

/// Writes a text on standard error, if there is one.
pub(crate) fn tell(rt: HostRuntime, text: &str) {
    let mut errors = WriterSink::new(rt.stderr());
    let _told = errors.write(text.as_bytes());
}

/// Says why a command went on no further, where no reply says it.
pub(crate) fn tell_status(rt: HostRuntime, status: u8) {
    match status {
        3 => tell(rt, "incusctl: the server sent no reply that is read\n"),
        4 => tell(rt, "incusctl: the server can't be reached\n"),
        5 => tell(rt, "incusctl: standard output can't be written\n"),
        9 => tell(rt, "incusctl: out of memory\n"),
        _ => {}
    }
}
