ghost use Rattle.std.specs.Prelude.{◌≡◌, ℕ, ◌<◌, ◌≤◌, List, length, Option, is_some, OnOk, OnErr};
ghost use Rattle.sim_io.specs.Sink.{Rose, Got, GotPrefix, one_more};

/// A write failed.
#[derive(Clone, Copy, Debug, PartialEq, Eq, thiserror::Error)]
#[error("a write failed")]
pub struct SinkFault;

/// What text is written to. It counts its writes and its faults, from 0.
pub trait Sink {
    ghost writes: { Self → ℕ };

    ghost faults: { Self → ℕ };

    ghost told: { Self → Option (List ℕ) };

    /// Appends the piece, which is not empty. After a fault a prefix of it was appended.
    fn write(&mut self, piece: &[u8]) -> Result<(), SinkFault>
        requires some { 0 < length piece.now }

        ensures ok { OnOk result (Got (told self.old) (told self.new) piece.now) }
        ensures prefix { OnErr result (GotPrefix (told self.old) (told self.new) piece.now) }
        ensures fault { OnErr result (Rose (faults self.old) (faults self.new)) }

        ensures counted { writes self.new ≡ one_more (writes self.old) }
        ensures never_falls { faults self.old ≤ faults self.new }
        ensures telling { is_some (told self.new) ≡ is_some (told self.old) };
}
