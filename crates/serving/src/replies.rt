use size_values::NoMemory;
use std::alloc::Global;
use std::sync::Arc;
use std::sync::atomic::{AtomicU64, Ordering};

/// How many replies were written to a connection. Both ends of it tell the same, so that the one from which requests come
/// sees that a request was answered.
#[derive(Drop)]
pub struct Replies {
    count: Arc<AtomicU64, Global>,
}

impl Replies {
    /// The first handle, of a connection to which nothing was written.
    pub fn new(alloc: Global) -> Result<Replies, NoMemory> {
        Ok(Replies {
            count: Arc::new(alloc, AtomicU64::new(0))?,
        })
    }

    /// One more handle of the same connection.
    pub fn share(&self) -> Result<Replies, NoMemory> {
        Ok(Replies {
            count: Arc::try_clone(&self.count)?,
        })
    }

    /// Counts one more.
    pub(crate) fn add(&self) {
        self.count.fetch_add(1, Ordering::SeqCst);
    }

    /// How many there were.
    pub(crate) fn count(&self) -> u64 {
        self.count.load(Ordering::SeqCst)
    }
}
