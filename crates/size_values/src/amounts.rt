ghost use Rattle.std.specs.Prelude.{◌≡◌, ◌+◌, ◌<◌, ◌^◌, ◌≤◌};
ghost use Rattle.size_values.specs.declared.amounts.Part.{Part};
ghost use Rattle.size_values.specs.Amounts.{nothing, part, plus_of, minus_of, excess_of, fits_in};

/// What a project has or is asked for, part by part: numbers of instances, containers and virtual machines,
/// processors, bytes of memory, processes, and bytes of disk.
#[derive(Clone, Copy, PartialEq, Eq)]
pub struct Amounts {
    pub instances: u128,
    pub containers: u128,
    pub machines: u128,
    pub cpu: u128,
    pub memory: u128,
    pub processes: u128,
    pub disk: u128,
}

/// The parts of `Amounts`, in the order in which limits are judged.
#[derive(Clone, Copy, PartialEq, Eq)]
pub enum Part {
    Instances,
    Containers,
    Machines,
    Cpu,
    Memory,
    Processes,
    Disk,
}

impl Amounts {
    /// No amount of anything.
    pub fn zero() -> Amounts
        ensures { result ≡ nothing }
    {
        Amounts {
            instances: 0,
            containers: 0,
            machines: 0,
            cpu: 0,
            memory: 0,
            processes: 0,
            disk: 0,
        }
    }

    /// Both together, part by part.
    #[tactic(auto, unfolding(crate::specs::Amounts::plus_of))]
    pub fn plus(&self, other: &Amounts) -> Amounts
        requires { (k : Part) → part k self.now + part k other.now < 2 ^ 128 }
        ensures { result ≡ plus_of self.now other.now }
    {
        Amounts {
            instances: self.instances + other.instances,
            containers: self.containers + other.containers,
            machines: self.machines + other.machines,
            cpu: self.cpu + other.cpu,
            memory: self.memory + other.memory,
            processes: self.processes + other.processes,
            disk: self.disk + other.disk,
        }
    }

    /// What is left without the other, part by part.
    #[tactic(auto, unfolding(crate::specs::Amounts::minus_of))]
    pub fn minus(&self, other: &Amounts) -> Amounts
        requires { (k : Part) → part k other.now ≤ part k self.now }
        ensures { result ≡ minus_of self.now other.now }
    {
        Amounts {
            instances: self.instances - other.instances,
            containers: self.containers - other.containers,
            machines: self.machines - other.machines,
            cpu: self.cpu - other.cpu,
            memory: self.memory - other.memory,
            processes: self.processes - other.processes,
            disk: self.disk - other.disk,
        }
    }

    /// By how much each part is above that of the other, and 0 where it is not.
    #[tactic(auto, unfolding(crate::specs::Amounts::excess_of))]
    pub fn excess(&self, above: &Amounts) -> Amounts
        ensures { result ≡ excess_of self.now above.now }
    {
        Amounts {
            instances: self.instances.saturating_sub(above.instances),
            containers: self.containers.saturating_sub(above.containers),
            machines: self.machines.saturating_sub(above.machines),
            cpu: self.cpu.saturating_sub(above.cpu),
            memory: self.memory.saturating_sub(above.memory),
            processes: self.processes.saturating_sub(above.processes),
            disk: self.disk.saturating_sub(above.disk),
        }
    }

    /// Whether no part is greater than that of `most`.
    #[tactic(auto, unfolding(crate::specs::Amounts::fits_in))]
    pub fn fits(&self, most: &Amounts) -> bool
        ensures { result ≡ fits_in self.now most.now }
    {
        self.instances <= most.instances
            && self.containers <= most.containers
            && self.machines <= most.machines
            && self.cpu <= most.cpu
            && self.memory <= most.memory
            && self.processes <= most.processes
            && self.disk <= most.disk
    }
}
