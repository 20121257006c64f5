ghost use Rattle.std.specs.Prelude.{◌≡◌, ◌<◌, None, IsOk};
ghost use Rattle.sim_io.specs.Sink.{one_more};

use sim_io::{Sink, SinkFault};

/// A sink that takes every piece and shows none. It counts its writes, and never fails.
#[derive(Drop)]
pub struct Nowhere {
    writes: u64,
}

impl Nowhere {
    pub fn new() -> Self {
        Nowhere { writes: 0 }
    }
}

impl Sink for Nowhere {
    ghost writes = { λ s. s.writes };

    ghost faults = { λ _. 0 };

    ghost told = { λ _. None };

    fn write(&mut self, _piece: &[u8]) -> Result<(), SinkFault> {
        self.writes = self.writes.saturating_add(1);
        Ok(())
    }
}
