use size_values::NoMemory;
use std::alloc::Global;
use std::sync::Arc;
use std::sync::atomic::{AtomicU64, Ordering};

/// How far a server is in stopping. All handles of it tell the same, and it never goes back.
#[derive(Drop)]
pub struct Stop {
    /// 0 until the server stops, 1 from then on, and 2 once it waits for nobody any more.
    word: Arc<AtomicU64, Global>,
}

impl Stop {
    /// The first handle, of a server that does not stop yet.
    pub fn new(alloc: Global) -> Result<Stop, NoMemory> {
        Ok(Stop {
            word: Arc::new(alloc, AtomicU64::new(0))?,
        })
    }

    /// One more handle of the same server.
    pub fn share(&self) -> Result<Stop, NoMemory> {
        Ok(Stop {
            word: Arc::try_clone(&self.word)?,
        })
    }

    /// Lets the server stop: no link is accepted any more, and those that there are end once they have nothing to do.
    pub fn set(&self) {
        self.word.fetch_max(1, Ordering::SeqCst);
    }

    /// Lets it stop, and wait for nobody any more: a link ends at its next read, or where the other end takes nothing.
    pub fn end(&self) {
        self.word.fetch_max(2, Ordering::SeqCst);
    }

    /// Whether the server stops. Other threads may set it at any moment.
    pub fn is_set(&self) -> bool {
        self.word.load(Ordering::SeqCst) != 0
    }

    /// Whether the server waits for nobody any more.
    pub fn is_over(&self) -> bool {
        self.word.load(Ordering::SeqCst) == 2
    }
}
