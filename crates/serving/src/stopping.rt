//! The end of an input as the sign to stop.
use crate::stop::Stop;
use std::io::{ErrorKind, Read};
use std::thread;
use std::thread::Threads;
use std::time::{Clock, Duration};

/// Starts a thread that reads an input to its end, and then lets the server stop; so long after that it lets it wait for
/// nobody any more. Nobody joins the thread. It says whether there was a thread for it.
pub fn stop_at_end<
    T: Threads + Clock + Copy + Drop + Send + 'static,
    I: Read + Drop + Send + 'static,
>(system: T, input: I, grace: Duration, stop: Stop) -> bool {
    let mut input = input;
    match thread::spawn(&system, move || {
        read_to_end(&mut input);
        stop.set();
        thread::sleep(&system, grace);
        stop.end();
    }) {
        Ok(watch) => {
            drop(watch);
            true
        }
        Err(_) => false,
    }
}

/// Reads what comes until there is no more, or a read fails.
fn read_to_end<I: Read>(input: &mut I) {
    let mut piece = [0u8; 256];
    for _ in 0..u64::MAX {
        match input.read(&mut piece) {
            Ok(0) => return,
            Ok(_) => {}
            Err(error) if error.kind() == ErrorKind::Interrupted => {}
            Err(_) => return,
        }
    }
}
