use serving::Stop;
use size_values::NoMemory;
use std::alloc::Global;

/// By it a server ends whose rows are lost: the server stops, and its exit status says why. All that share it tell the
/// same.
#[derive(Drop)]
pub(crate) struct Alarm {
    stop: Stop,
    lost: Stop,
}

impl Alarm {
    /// One that is not raised, of a server that doesn't stop yet.
    pub(crate) fn new(alloc: Global) -> Result<Alarm, NoMemory> {
        let stop = Stop::new(alloc)?;
        let lost = Stop::new(alloc)?;
        Ok(Alarm { stop, lost })
    }

    /// One more of the same server.
    pub(crate) fn share(&self) -> Result<Alarm, NoMemory> {
        let stop = self.stop.share()?;
        let lost = self.lost.share()?;
        Ok(Alarm { stop, lost })
    }

    /// A handle by which the same server stops.
    pub(crate) fn stop(&self) -> Result<Stop, NoMemory> {
        self.stop.share()
    }

    /// Tells that the rows are lost, and lets the server stop.
    pub(crate) fn raise(&self) {
        self.lost.set();
        self.stop.set();
    }

    /// Whether the rows are lost.
    pub(crate) fn is_raised(&self) -> bool {
        self.lost.is_set()
    }
}
