ghost use Rattle.std.specs.Prelude.{◌≡◌, ℕ, ◌<◌, ◌≤◌, length, take, is_ok, true, unwrap_or, OnOk, OnErr, if◌then◌else◌};
ghost use Rattle.std.specs.Io.KnownBytes.{Appends};
ghost use Rattle.sim_io.specs.Sink.{Rose, one_more};

use crate::sink::{Sink, SinkFault};
use std::io::{ErrorKind, Write};

/// A sink over a writer, as standard output. It tells nothing, and hands each piece on at once.
#[derive(Drop)]
pub struct Stream<W> {
    pub writer: W,
    pub writes: u64,
    pub faults: u64,
}

/// How many of these bytes the writer took: none where it was interrupted, and None where it failed.
fn taken_by<W: Write>(writer: &mut W, rest: &[u8]) -> Option<usize>
    ensures within { unwrap_or result 0 ≤ length rest.now }
    ensures bytes { Appends (W.contents writer.old) (W.contents writer.new) (take (unwrap_or result 0) rest.now) }
{
    match writer.write(rest) {
        Ok(0) => None,
        Ok(taken) => Some(taken),
        Err(error) if error.kind() == ErrorKind::Interrupted => Some(0),
        Err(_) => None,
    }
}

#[tactic(auto, using(crate::proofs::Writing::writing))]
/// Writes the piece from its front on, as often as the writer takes less than it is given, and answers whether all was written.
fn write_whole<W: Write>(writer: &mut W, piece: &[u8]) -> bool
    requires some { 0 < length piece.now }

    ensures all { result ≡ true → Appends (W.contents writer.old) (W.contents writer.new) piece.now }
    ensures prefix { (k : ℕ) × Appends (W.contents writer.old) (W.contents writer.new) (take k piece.now) }
{
    let mut rest = piece;
    for _turn in 0..u64::MAX {
        let Some(taken) = taken_by(writer, rest) else {
            return false;
        };
        rest = &rest[taken..];
        if rest.is_empty() {
            return true;
        }
    }
    false
}

impl<W: Write> Stream<W> {
    /// A sink over this writer, whose counts are 0.
    pub fn of(writer: W) -> Self
        ensures { result ≡ record { writer = writer; writes = 0; faults = 0 } }
    {
        Stream {
            writer,
            writes: 0,
            faults: 0,
        }
    }
}

impl<W: Write> Sink for Stream<W> {
    ghost use Rattle.std.specs.Prelude.{None};

    ghost writes = { λ s. s.writes };

    ghost faults = { λ s. s.faults };

    ghost told = { λ _. None };

    /// A writer that takes no byte, or answers an error other than an interruption, has failed.
    fn write(&mut self, piece: &[u8]) -> Result<(), SinkFault>
        requires some { 0 < length piece.now }

        ensures fault { OnErr result (Rose self.old.faults self.new.faults) }

        ensures counted { self.new.writes ≡ one_more self.old.writes }
        ensures never_falls { self.old.faults ≤ self.new.faults }

        ensures written { OnOk result (Appends (W.contents self.old.writer) (W.contents self.new.writer) piece.now) }
        ensures begun { OnErr result ((k : ℕ) × Appends (W.contents self.old.writer) (W.contents self.new.writer) (take k piece.now)) }
        ensures faults { self.new.faults
            ≡ (if is_ok result then self.old.faults else one_more self.old.faults) }
    {
        self.writes = self.writes.saturating_add(1);
        if write_whole(&mut self.writer, piece) {
            return Ok(());
        }
        self.faults = self.faults.saturating_add(1);
        Err(SinkFault)
    }
}
