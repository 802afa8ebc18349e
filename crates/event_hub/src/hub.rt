ghost use Rattle.std.specs.Prelude.{◌≡◌, filter, IfOk};
ghost use Rattle.event_hub.specs.Contents.{content_of};
ghost use Rattle.event_hub.specs.Recent.{as_state, is_wanted, no_notices, oldest_in, pushed};
ghost use Rattle.event_hub.specs.Telling.{IsShort, told_about};
ghost use Rattle.row_machine.specs.shown.Notices.{since};

use crate::progress::{About, Progress};
use crate::short_target::ShortTarget;
use crate::short_text::ShortText;
use crate::slot::{Content, Slot};
use circular_buffer::HeapCircularBuffer;
use records::{Filter, Notice, Untold};
use row_machine::Fetched;
use size_values::{NoMemory, Seq};
use std::alloc::Global;
use std::marker::Model;

/// How many notices are kept.
const KEPT: usize = 1024;

/// The last notices of the server, with the number of the next one. Its memory is taken when it is
/// made.
#[derive(Drop)]
pub struct Hub {
    ring: HeapCircularBuffer<Slot>,
    next: u64,
}

impl Model for Hub {
    ghost use Rattle.event_hub.specs.Recent.{Recent};

    ghost Value = { Recent };

    ghost use Rattle.event_hub.specs.Hubs.{recent_in, IsHub};

    ghost view = { recent_in };

    ghost invariant = { IsHub };
}

impl Hub {
    /// No notices yet, and the room for all that will be kept. The first one gets number 1.
    pub fn new(alloc: Global) -> Result<Hub, NoMemory>
        ensures { IfOk result (λ h. h ≡ no_notices) }
    {
        let ring = HeapCircularBuffer::with_capacity(alloc, KEPT)?;
        Ok(Hub { ring, next: 1 })
    }

    /// Keeps what is told under the next number. The oldest notice goes where there are more than
    /// 1,024; where the numbers have come to their end it is dropped.
    fn keep(&mut self, content: Content)
        ensures { self.new ≡ pushed (content_of content) self.old }
    {
        if self.next == u64::MAX {
            drop(content);
            return;
        }
        drop(self.ring.push_back(Slot::of(self.next, content)));
        self.next += 1;
    }

    /// Keeps a notice under the next number, and the last 1,024 of all. Where the numbers have come
    /// to their end it is dropped. It takes no memory.
    pub fn push(&mut self, notice: Untold)
        ensures { self.new ≡ pushed notice self.old }
    {
        self.keep(Content::Whole(notice));
    }

    /// Keeps the notice of an operation, as `push` does. It takes no memory.
    pub fn push_operation(&mut self, at: Progress, about: About<'_>)
        requires short { IsShort about }
        ensures { self.new ≡ pushed (told_about at about.entry) self.old }
    {
        let project = ShortText::of(about.project);
        let target = ShortTarget::of(about);
        self.keep(Content::Operation(at, project, target));
    }

    /// The number of the oldest notice that is kept, or the next one where none is.
    fn oldest(&self) -> u64
        ensures { result ≡ oldest_in self.now }
    {
        match self.ring.front() {
            Some(slot) => slot.number(),
            None => self.next,
        }
    }

    /// The notices from a number on that a listener takes.
    fn wanted(&self, alloc: Global, cursor: u64, listener: &Filter) -> Result<Seq<Notice>, NoMemory>
        ensures { IfOk result (λ ns. ns ≡ filter (is_wanted cursor listener.now) self.now.notices) }
    {
        let mut wanted = Vec::new(alloc);
        for slot in self.ring.iter() {
            if slot.is_wanted(cursor, listener) {
                wanted.push(slot.notice(alloc)?)?;
            }
        }
        Ok(Seq::from_vec(wanted))
    }

    /// The notices from a number on that a listener takes, and the next number. Number 0 asks for
    /// the next number alone; one below the oldest kept number has lagged.
    pub fn since(&self, alloc: Global, cursor: u64, filter: &Filter) -> Result<Fetched, NoMemory>
        ensures { IfOk result (λ f. f ≡ since (as_state self.now) cursor filter.now) }
    {
        if cursor == 0 {
            return Ok(Fetched::Notices(Seq::new(alloc), self.next));
        }
        let oldest = self.oldest();
        if cursor < oldest {
            return Ok(Fetched::Lagged { cursor, oldest });
        }
        let notices = self.wanted(alloc, cursor, filter)?;
        Ok(Fetched::Notices(notices, self.next))
    }
}
