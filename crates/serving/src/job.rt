ghost use Rattle.std.specs.Prelude.{◌≡◌, Bool};

/// Work that is done once, from its beginning to its end: a link that is served, or the background work.
pub trait Job {
    /// What is left of the job at its end.
    type Out: Drop;

    // Whether it serves a link.
    ghost link: { Self → Bool };

    fn is_link(&self) -> bool
        ensures { result ≡ link self.now };

    /// Does the work. It may wait for others.
    fn run(self) -> Self::Out;

    /// Gives the work up before it begins: a link is told that the server is busy. It waits for nobody.
    fn decline(self) -> Self::Out;
}
