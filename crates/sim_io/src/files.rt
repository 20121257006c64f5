ghost use Rattle.std.specs.Prelude.{◌≡◌, ℕ, ◌<◌, ◌≤◌, ◌↔◌, List, length, Option, IfOk, IfSome, vec_len};
ghost use Rattle.sim_io.specs.Sink.{Rose};

use std::alloc::{AllocError, AllocFailed, Global};

/// Why a file was not read.
#[derive(Clone, Copy, Debug, PartialEq, Eq, thiserror::Error)]
pub enum FileFault {
    #[error("the reading failed")]
    Failed,
    #[error("the file is too long")]
    TooLong,
    #[error("no memory")]
    OutOfMemory,
}

impl From<AllocError> for FileFault {
    ghost use Rattle.std.specs.Prelude.{◌≡◌};
    ghost use Rattle.sim_io.specs.declared.files.FileFault.TheVariants.{OutOfMemory};

    ghost from_gives = { λ _ fault. fault ≡ OutOfMemory };

    fn from(_error: AllocError) -> Self {
        FileFault::OutOfMemory
    }
}

impl<T: Drop> From<AllocFailed<T>> for FileFault {
    ghost use Rattle.std.specs.Prelude.{◌≡◌};
    ghost use Rattle.sim_io.specs.declared.files.FileFault.TheVariants.{OutOfMemory};

    ghost from_gives = { λ _ fault. fault ≡ OutOfMemory };

    fn from(_failed: AllocFailed<T>) -> Self {
        FileFault::OutOfMemory
    }
}

/// Files by name. For each name it counts its faults, from 0; one count may stand for several names. It tells how many bytes came
/// in its last reading.
pub trait Files {
    ghost contents: { Self → List ℕ → Option (List ℕ) };

    ghost faults: { Self → List ℕ → ℕ };

    ghost came: { Self → ℕ };

    /// All bytes of the file of this name. It is too long exactly where it has more than `limit` bytes.
    fn read_file(&mut self, alloc: Global, name: &str, limit: usize) -> Result<Vec<u8>, FileFault>
        ensures all { IfOk result (λ bytes. IfSome (contents self.old name.now) (λ told. bytes.items ≡ told)) }
        ensures whole { IfOk result (λ bytes. vec_len bytes ≡ came self.new) }
        ensures within { IfOk result (λ bytes. vec_len bytes ≤ limit) }
        ensures too_long { (result ≡ Err FileFault.TooLong) ↔ (limit < came self.new) }
        ensures told_too_long { result ≡ Err FileFault.TooLong → IfSome (contents self.old name.now) (λ told. limit < length told) }
        ensures failed { result ≡ Err FileFault.Failed → Rose (faults self.old name.now) (faults self.new name.now) }

        ensures never_falls { (other : List ℕ) → faults self.old other ≤ faults self.new other }
        ensures contents_stay { (other : List ℕ) → contents self.new other ≡ contents self.old other };
}
