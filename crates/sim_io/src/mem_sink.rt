ghost use Rattle.std.specs.Prelude.{◌≡◌, ◌<◌, ◌≤◌, ◌++◌, length, is_ok, is_some, IsErr, OnOk, OnErr, Contains, Some, if◌then◌else◌};
ghost use Rattle.sim_io.specs.Sink.{Rose, Got, GotPrefix, one_more};
ghost use Rattle.sim_io.specs.MemSink.{sink_view};

use crate::sink::{Sink, SinkFault};
use std::marker::Model;

/// A sink in memory, which tells its bytes. Its calls are numbered from 1, and those that are listed fail.
#[derive(Drop)]
pub struct MemSink {
    bytes: Vec<u8>,
    fails: Vec<u64>,
    calls: u64,
    faults: u64,
}

impl Model for MemSink {
    ghost use Rattle.sim_io.specs.MemSink.{SinkView, sink_view};

    ghost Value = { SinkView };

    ghost view = { λ s. sink_view s.bytes.items s.fails.items s.calls s.faults };
}

impl MemSink {
    /// A sink that holds these bytes, with the numbers of the calls that are to fail. It takes no memory.
    pub fn of(bytes: Vec<u8>, fails: Vec<u64>) -> Self
        ensures { result ≡ sink_view bytes.items fails.items 0 0 }
    {
        MemSink {
            bytes,
            fails,
            calls: 0,
            faults: 0,
        }
    }

    /// The bytes that it was made with, and all that was written since.
    pub fn bytes(&self) -> &[u8]
        ensures { result.now ≡ self.now.bytes }
    {
        &self.bytes
    }
}

impl Sink for MemSink {
    ghost writes = { λ s. s.calls };

    ghost faults = { λ s. s.faults };

    ghost told = { λ s. Some s.bytes };

    /// A call that is not listed fails only where no memory is found. A failed call appends nothing.
    fn write(&mut self, piece: &[u8]) -> Result<(), SinkFault>
        requires some { 0 < length piece.now }

        ensures ok { OnOk result (Got (Some self.old.bytes) (Some self.new.bytes) piece.now) }
        ensures prefix { OnErr result
            (GotPrefix (Some self.old.bytes) (Some self.new.bytes) piece.now) }
        ensures fault { OnErr result (Rose self.old.faults self.new.faults) }

        ensures counted { self.new.calls ≡ one_more self.old.calls }
        ensures never_falls { self.old.faults ≤ self.new.faults }
        ensures telling { is_some (Some self.new.bytes) ≡ is_some (Some self.old.bytes) }

        ensures listed { Contains self.old.fails self.new.calls → IsErr result }
        ensures bytes { self.new.bytes
            ≡ (if is_ok result then self.old.bytes ++ piece.now else self.old.bytes) }
        ensures faults { self.new.faults
            ≡ (if is_ok result then self.old.faults else one_more self.old.faults) }
        ensures fails { self.new.fails ≡ self.old.fails }
    {
        self.calls = self.calls.saturating_add(1);
        let listed = self.fails.contains(&self.calls);
        if listed || self.bytes.extend_from_slice(piece).is_err() {
            self.faults = self.faults.saturating_add(1);
            return Err(SinkFault);
        }
        Ok(())
    }
}
