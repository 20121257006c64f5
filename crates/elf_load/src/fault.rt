use crate::ElfRule;
use sim_base::OutOfMemory;
use thiserror::Error;

/// Why a file was not loaded: `Broken` has the first rule that the file breaks, and the byte place where it does;
/// `OutOfMemory` says that no memory was found for the list of segments, of a file that breaks no rule.
#[derive(Clone, Copy, Debug, PartialEq, Eq, Error)]
pub enum ElfFault {
    #[error("{rule} at {at}")]
    Broken { rule: ElfRule, at: u32 },
    #[error("no memory")]
    OutOfMemory,
}

impl From<OutOfMemory> for ElfFault {
    ghost use Rattle.std.specs.Prelude.{◌≡◌};
    ghost use Rattle.elf_load.specs.declared.fault.ElfFault.TheVariants.{OutOfMemory};

    ghost from_gives = { λ _ e. e ≡ OutOfMemory };

    fn from(_error: OutOfMemory) -> ElfFault {
        ElfFault::OutOfMemory
    }
}
