ghost use Rattle.std.specs.Prelude.{◌≡◌};
ghost use Rattle.rv_core.specs.Core.{phase_of, cause_of, is_halted};

use crate::access::Access;
use crate::phase::CorePhase;
use port_msg::Cause;
use sim_base::PortNo;

/// The phase of a core with what it is about.
#[derive(Clone, Copy, Debug, PartialEq, Eq)]
pub enum Stage {
    Fetch,
    WaitInst,
    /// A load or a store is to be sent to the port `to`.
    Mem { to: PortNo, access: Access },
    WaitData { access: Access },
    /// The cache at this place of the list is to be asked.
    Flush { cache: usize },
    WaitFlush { cache: usize },
    Halted { cause: Cause },
}

impl Stage {
    /// The phase alone.
    pub fn phase(self) -> CorePhase
        ensures { result ≡ phase_of self }
    {
        match self {
            Stage::Fetch => CorePhase::Fetch,
            Stage::WaitInst => CorePhase::WaitInst,
            Stage::Mem { .. } => CorePhase::Mem,
            Stage::WaitData { .. } => CorePhase::WaitData,
            Stage::Flush { .. } => CorePhase::Flush,
            Stage::WaitFlush { .. } => CorePhase::WaitFlush,
            Stage::Halted { .. } => CorePhase::Halted,
        }
    }

    /// Why the core halted, or None while it runs.
    pub fn cause(self) -> Option<Cause>
        ensures { result ≡ cause_of self }
    {
        match self {
            Stage::Halted { cause } => Some(cause),
            _ => None,
        }
    }

    /// Whether the core has halted.
    pub fn is_halted(self) -> bool
        ensures { result ≡ is_halted self }
    {
        matches!(self, Stage::Halted { .. })
    }
}
