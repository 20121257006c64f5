ghost use Rattle.std.specs.Prelude.{◌≡◌};
ghost use Rattle.plan_rules.specs.declared.fault.PlanFault.TheVariants.{OutOfMemory};

use crate::rule::PlanRule;
use sim_base::OutOfMemory;
use sim_config::TableNo;
use std::alloc::{AllocError, AllocFailed};
use thiserror::Error;

/// Why a configuration is no plan.
#[derive(Clone, Copy, Debug, PartialEq, Eq, Error)]
pub enum PlanFault {
    /// The first rule that is broken, and the first table that breaks it.
    #[error("{rule} {table}")]
    Broken { rule: PlanRule, table: TableNo },
    /// A byte of a program's segment has no port: the program, and the byte place of the segment's address in its file.
    #[error("segment-unmapped {program} at {at}")]
    Unmapped { program: u32, at: u32 },
    /// No memory was found.
    #[error("no memory")]
    OutOfMemory,
}

impl From<OutOfMemory> for PlanFault {
    ghost from_gives = { λ _ fault. fault ≡ OutOfMemory };

    fn from(_error: OutOfMemory) -> PlanFault {
        PlanFault::OutOfMemory
    }
}
