use crate::counts::Counts;
use std::cell::Cell;

/// How many requests are answered between two lines.
const STRIDE: u64 = 1000;

/// How far a drill has come, as its watched clock and its watched host have seen it. Standard error tells it after each
/// 1,000 requests, where it is to be told.
#[derive(Drop)]
pub struct Progress<'a, T> {
    rt: T,
    program: &'a str,
    /// How many requests there are in all. Without it nothing is told.
    total: Option<u64>,
    counts: Cell<Counts>,
    /// How many requests are answered when the next line is told.
    next: Cell<u64>,
}

impl<'a, T: Eprint> Progress<'a, T> {
    /// The progress of a program of this name, which is to answer so many requests, and has answered none.
    pub fn new(rt: T, program: &'a str, total: Option<u64>) -> Progress<'a, T> {
        Progress {
            rt,
            program,
            total,
            counts: Cell::new(Counts::new()),
            next: Cell::new(STRIDE),
        }
    }

    /// The clock is about to be read.
    pub(crate) fn see_reading(&self) {
        let counts = self.counts.get().after_reading();
        self.counts.set(counts);
        if counts.answered >= self.next.get() {
            self.next.set(counts.answered.saturating_add(STRIDE));
            self.tell(counts.answered);
        }
    }

    /// The host is about to be called.
    pub(crate) fn see_call(&self) {
        self.counts.set(self.counts.get().after_call());
    }

    /// Tells how many requests are answered. Whether standard error takes the line makes no difference.
    fn tell(&self, answered: u64) {
        if let Some(total) = self.total {
            let program = self.program;
            let _told = eprintln!(self.rt; "{program}: {answered} of {total} requests");
        }
    }
}
