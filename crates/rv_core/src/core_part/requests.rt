ghost use Rattle.std.specs.Prelude.{◌≡◌, ◌++◌, replicate};
ghost use Rattle.std.specs.Int.{w32, to_le_bytes};
ghost use Rattle.rv_core.specs.Core.{read_request, write_request, flush_request, access_request};

use super::Core;
use crate::access::{Access, Deed};
use port_msg::{DATA_BYTES, Msg, MsgId, MsgKind};
use sim_base::PortNo;

/// The bytes of a word, the lowest first, and zeros behind them.
fn word_bytes(value: u32) -> [u8; DATA_BYTES]
    ensures { result ≡ to_le_bytes w32 value ++ replicate 60 0 }
{
    let mut bytes = [0; DATA_BYTES];
    bytes[..4].copy_from_slice(&value.to_le_bytes());
    bytes
}

/// The requests that a core makes.
impl Core {
    /// The id of its next request: its number is how many it has sent before.
    pub(crate) fn id(&self) -> MsgId
        ensures { result ≡ record { part = self.now.part; seq = self.now.requests } }
    {
        MsgId {
            part: self.part,
            seq: self.requests,
        }
    }

    /// A request to read bytes.
    #[tactic(auto, unfolding(crate::specs::Core::read_request))]
    pub(crate) fn read_request(&self, src: PortNo, dst: PortNo, addr: u32, bytes: u8) -> Msg
        ensures { result ≡ read_request self.now src dst addr bytes }
    {
        Msg {
            id: self.id(),
            src,
            dst,
            kind: MsgKind::Read,
            addr,
            len: bytes,
            bytes: [0; DATA_BYTES],
        }
    }

    /// A request to write the low bytes of a value, the lowest first.
    #[tactic(auto, unfolding(crate::specs::Core::write_request))]
    pub(crate) fn write_request(&self, dst: PortNo, addr: u32, bytes: u8, value: u32) -> Msg
        ensures { result ≡ write_request self.now dst addr bytes value }
    {
        Msg {
            id: self.id(),
            src: self.data_port,
            dst,
            kind: MsgKind::Write,
            addr,
            len: bytes,
            bytes: word_bytes(value),
        }
    }

    /// A request to a cache to write its lines down.
    #[tactic(auto, unfolding(crate::specs::Core::flush_request))]
    pub(crate) fn flush_request(&self, dst: PortNo) -> Msg
        ensures { result ≡ flush_request self.now dst }
    {
        Msg {
            id: self.id(),
            src: self.data_port,
            dst,
            kind: MsgKind::Flush,
            addr: 0,
            len: 0,
            bytes: [0; DATA_BYTES],
        }
    }

    /// The request of a load or a store.
    pub(crate) fn access_request(&self, dst: PortNo, access: Access) -> Msg
        ensures { result ≡ access_request self.now dst access }
    {
        let Access { addr, bytes, deed } = access;
        match deed {
            Deed::Load { .. } => self.read_request(self.data_port, dst, addr, bytes),
            Deed::Store { value } => self.write_request(dst, addr, bytes, value),
        }
    }
}
