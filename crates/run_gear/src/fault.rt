use sim_base::{OutOfMemory, Time};

/// A write of a line failed. All times below `upto` are done, and the line that failed is one of the last of them.
#[derive(Clone, Copy, Debug, PartialEq, Eq)]
pub struct TraceFault {
    pub upto: Time,
}

/// Why a run of a plan left no verdict.
#[derive(Clone, Copy, Debug, PartialEq, Eq)]
pub enum RunFault {
    /// A write of a line failed.
    Trace(TraceFault),
    OutOfMemory,
}

impl From<OutOfMemory> for RunFault {
    ghost use Rattle.std.specs.Prelude.{◌≡◌};
    ghost use Rattle.run_gear.specs.declared.fault.RunFault.TheVariants.{OutOfMemory};

    ghost from_gives = { λ _ fault. fault ≡ OutOfMemory };

    fn from(_fault: OutOfMemory) -> Self {
        RunFault::OutOfMemory
    }
}
