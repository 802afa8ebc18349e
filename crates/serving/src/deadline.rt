//! How long a whole request is waited for.
use crate::replies::Replies;
use std::time::{Clock, Duration, Instant};

/// When the next request of a connection has to have come whole: so long after the reply before it, or after its begin.
#[derive(Drop)]
pub(crate) struct Deadline<N> {
    clock: N,
    replies: Replies,
    time: Duration,
    /// How many replies there were when the wait for this request began.
    told: u64,
    /// When it began, once it did and the clock told it.
    since: Option<Instant>,
}

impl<N: Clock> Deadline<N> {
    /// The deadline of a connection whose requests are not waited for yet.
    pub(crate) fn new(clock: N, time: Duration, replies: Replies) -> Deadline<N> {
        Deadline {
            clock,
            replies,
            time,
            told: 0,
            since: None,
        }
    }

    /// A request is waited for: the first one, the one after a reply, or the same one as before.
    pub(crate) fn wait(&mut self) {
        if self.since.is_none() || self.told != self.replies.count() {
            self.begin();
        }
    }

    /// The wait begins at this moment.
    pub(crate) fn begin(&mut self) {
        self.told = self.replies.count();
        self.since = Instant::now(&self.clock).ok();
    }

    /// Whether the time is over. It isn't, where the clock can't tell.
    pub(crate) fn is_over(&self) -> bool {
        match (self.since, Instant::now(&self.clock)) {
            (Some(since), Ok(now)) => now.duration_since(since) >= self.time,
            _ => false,
        }
    }
}
