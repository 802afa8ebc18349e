ghost use Rattle.std.specs.Prelude.{◌≡◌, IfOk};

use size_values::{NoMemory, Text};
use std::alloc::Global;

/// Where a root stands: an instance's by its project and name, with an empty pool, a volume's by its project,
/// pool and name.
#[derive(Drop)]
pub struct Place {
    pub volume: bool,
    pub project: Text,
    pub pool: Text,
    pub name: Text,
}

impl Place {
    ghost use Rattle.host_model.specs.Roots.{same_place};

    /// Whether both are the same place.
    pub fn is(&self, other: &Place) -> bool
        ensures { result ≡ same_place self.now other.now }
    {
        self.volume == other.volume
            && self.project.is(&other.project)
            && self.pool.is(&other.pool)
            && self.name.is(&other.name)
    }

    /// A place of its own with the same parts.
    pub fn copy(&self, alloc: Global) -> Result<Place, NoMemory>
        ensures { IfOk result (λ p. p ≡ self.now) }
    {
        Ok(Place {
            volume: self.volume,
            project: self.project.copy(alloc)?,
            pool: self.pool.copy(alloc)?,
            name: self.name.copy(alloc)?,
        })
    }
}
