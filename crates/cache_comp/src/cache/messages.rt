ghost use Rattle.std.specs.Prelude.{◌≡◌, ◌<◌};
ghost use Rattle.cache_comp.specs.Lines.{LiesInLine, places};
ghost use Rattle.cache_comp.specs.Cache.{is_read_answer, is_write_answer, is_flush_answer, is_flush, next_id, write_request, read_request, flush_request, read_answer, write_answer, flush_answer, answer, line_of};

use super::Cache;
use port_msg::{DATA_BYTES, Msg, MsgId, MsgKind};
use sim_base::PortNo;

/// Whether a message is the answer to a read of so many bytes.
pub(crate) fn is_read_answer(bytes: u32, kind: MsgKind, len: u8) -> bool
    ensures { result ≡ is_read_answer bytes kind len }
{
    match kind {
        MsgKind::ReadRsp => u32::from(len) == bytes,
        _ => false,
    }
}

/// Whether a message is the answer to a write.
pub(crate) fn is_write_answer(kind: MsgKind, len: u8) -> bool
    ensures { result ≡ is_write_answer kind len }
{
    match kind {
        MsgKind::WriteRsp => len == 0,
        _ => false,
    }
}

/// Whether a message is the answer to a flush.
pub(crate) fn is_flush_answer(kind: MsgKind, len: u8) -> bool
    ensures { result ≡ is_flush_answer kind len }
{
    match kind {
        MsgKind::FlushRsp => len == 0,
        _ => false,
    }
}

/// Whether a message tells a cache to write its lines down.
pub(crate) fn is_flush(kind: MsgKind) -> bool
    ensures { result ≡ is_flush kind }
{
    matches!(kind, MsgKind::Flush)
}

/// The messages that a cache makes.
impl Cache {
    /// The id of its next request: its number is how many it has sent before.
    pub(crate) fn next_id(&self) -> MsgId
        ensures { result ≡ next_id self.now }
    {
        MsgId {
            part: self.part,
            seq: self.requests,
        }
    }

    /// The address of the line of a request.
    pub(crate) fn line_of(&self, request: &Msg) -> u32
        ensures { result ≡ line_of self.now request.now }
    {
        self.lines.line_address(request.addr)
    }

    /// A request to write a line down.
    #[tactic(auto, unfolding(crate::specs::Cache::write_request))]
    pub(crate) fn write_request(&self, addr: u32, bytes: [u8; DATA_BYTES], dst: PortNo) -> Msg
        ensures { result ≡ write_request self.now addr bytes dst }
    {
        Msg {
            id: self.next_id(),
            src: self.bottom,
            dst,
            kind: MsgKind::Write,
            addr,
            len: self.lines.line() as u8,
            bytes,
        }
    }

    /// A request to read a line.
    #[tactic(auto, unfolding(crate::specs::Cache::read_request))]
    pub(crate) fn read_request(&self, addr: u32, dst: PortNo) -> Msg
        ensures { result ≡ read_request self.now addr dst }
    {
        Msg {
            id: self.next_id(),
            src: self.bottom,
            dst,
            kind: MsgKind::Read,
            addr,
            len: self.lines.line() as u8,
            bytes: [0; DATA_BYTES],
        }
    }

    /// A request to a cache below to write its lines down.
    #[tactic(auto, unfolding(crate::specs::Cache::flush_request))]
    pub(crate) fn flush_request(&self, dst: PortNo) -> Msg
        ensures { result ≡ flush_request self.now dst }
    {
        Msg {
            id: self.next_id(),
            src: self.bottom,
            dst,
            kind: MsgKind::Flush,
            addr: 0,
            len: 0,
            bytes: [0; DATA_BYTES],
        }
    }

    /// The answer to a read has the bytes of the line at a place.
    #[tactic(auto, unfolding(crate::specs::Cache::read_answer))]
    fn read_answer(&self, place: usize, request: &Msg) -> Msg
        requires within { place < places self.now.lines }
        requires lies { LiesInLine self.now.lines.line request.now }

        ensures { result ≡ read_answer self.now.top self.now.lines place request.now }
    {
        Msg {
            id: request.id,
            src: self.top,
            dst: request.src,
            kind: MsgKind::ReadRsp,
            addr: request.addr,
            len: request.len,
            bytes: self.lines.read(place, request),
        }
    }

    /// The answer to a write has no bytes.
    #[tactic(auto, unfolding(crate::specs::Cache::write_answer))]
    fn write_answer(&self, request: &Msg) -> Msg
        ensures { result ≡ write_answer self.now.top request.now }
    {
        Msg {
            id: request.id,
            src: self.top,
            dst: request.src,
            kind: MsgKind::WriteRsp,
            addr: request.addr,
            len: 0,
            bytes: [0; DATA_BYTES],
        }
    }

    /// The answer to a flush.
    #[tactic(auto, unfolding(crate::specs::Cache::flush_answer))]
    pub(crate) fn flush_answer(&self, request: &Msg) -> Msg
        ensures { result ≡ flush_answer self.now.top request.now }
    {
        Msg {
            id: request.id,
            src: self.top,
            dst: request.src,
            kind: MsgKind::FlushRsp,
            addr: 0,
            len: 0,
            bytes: [0; DATA_BYTES],
        }
    }

    /// The answer to an access of the line at a place: it has the request's id and address, and goes to where the
    /// request came from.
    pub(crate) fn answer(&self, place: usize, request: &Msg) -> Msg
        requires within { place < places self.now.lines }
        requires lies { LiesInLine self.now.lines.line request.now }

        ensures { result ≡ answer self.now.top self.now.lines place request.now }
    {
        match request.kind {
            MsgKind::Write => self.write_answer(request),
            _ => self.read_answer(place, request),
        }
    }
}
