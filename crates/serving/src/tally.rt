ghost use Rattle.std.specs.Prelude.{◌≡◌, ◌≤◌, if◌then◌else◌};
ghost use Rattle.serving.specs.Counts.{AreSmall, begun, declined, none_begun, with_task, without_ended, without_task};

use std::marker::Model;

/// Counts the jobs of a spawner that were begun or declined and the tasks that are out, and tells whether a job was begun
/// after a task was waited for.
#[derive(Drop)]
pub(crate) struct Tally {
    links: u64,
    others: u64,
    declined: u64,
    out: u64,
    waited: bool,
    late: bool,
}

impl Model for Tally {
    ghost use Rattle.serving.specs.Counts.{Counts};

    ghost Value = { Counts };

    ghost view = { λ t. record { links = t.links; others = t.others; declined = t.declined; out = t.out; waited = t.waited; late = t.late } };
}

impl Tally {
    pub(crate) fn new() -> Tally
        ensures { result ≡ none_begun }
    {
        Tally {
            links: 0,
            others: 0,
            declined: 0,
            out: 0,
            waited: false,
            late: false,
        }
    }

    /// One more job was begun.
    pub(crate) fn begin(&mut self, link: bool)
        requires { AreSmall self.old }
        ensures { self.new ≡ begun link self.old }
    {
        if link {
            self.links += 1;
        } else {
            self.others += 1;
        }
        self.late = self.late || self.waited;
    }

    /// One more job was begun, and its task is out.
    pub(crate) fn start(&mut self, link: bool)
        requires { AreSmall self.old }
        ensures { self.new ≡ with_task (begun link self.old) }
    {
        self.begin(link);
        self.out += 1;
    }

    /// One more job was declined.
    pub(crate) fn decline(&mut self)
        requires { AreSmall self.old }
        ensures { self.new ≡ declined self.old }
    {
        self.declined += 1;
    }

    /// A task was taken in, whose job had ended.
    pub(crate) fn take_ended(&mut self)
        requires { 1 ≤ self.old.out }
        ensures { self.new ≡ without_ended self.old }
    {
        self.out -= 1;
    }

    /// A task was waited for and taken in.
    pub(crate) fn take(&mut self)
        requires { 1 ≤ self.old.out }
        ensures { self.new ≡ without_task self.old }
    {
        self.out -= 1;
        self.waited = true;
    }

    pub(crate) fn begun(&self, links: bool) -> u64
        ensures { result ≡ (if links then self.now.links else self.now.others) }
    {
        if links { self.links } else { self.others }
    }

    pub(crate) fn out(&self) -> u64
        ensures { result ≡ self.now.out }
    {
        self.out
    }
}
