// What a port counts of its calls.
ghost use Rattle.std.specs.Prelude.{◌≡◌};
ghost use Rattle.fault_ports.specs.Causes.{no_faults, with_fault, without_fault};

/// A port's call failed. The port counted it.
#[derive(Clone, Copy, Debug, PartialEq, Eq)]
pub struct Failed;

/// How often a port's calls failed, in 64 bits (the last value stays), and whether its last call did.
#[derive(Clone, Copy, Debug, PartialEq, Eq)]
pub struct Faults {
    pub count: u64,
    pub failed: bool,
}

impl Faults {
    /// The faults of a port that was never called.
    pub fn none() -> Faults
        ensures { result ≡ no_faults }
    {
        Faults {
            count: 0,
            failed: false,
        }
    }

    /// Counts a call that fails.
    pub(crate) fn fail(&mut self) -> Failed
        ensures { self.new ≡ with_fault self.old }
    {
        self.count = self.count.saturating_add(1);
        self.failed = true;
        Failed
    }

    /// Notes a call that doesn't fail.
    pub(crate) fn pass(&mut self)
        ensures { self.new ≡ without_fault self.old }
    {
        self.failed = false;
    }
}
