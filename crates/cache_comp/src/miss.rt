ghost use Rattle.std.specs.Prelude.{◌≡◌, ◌<◌};
ghost use Rattle.cache_comp.specs.Cache.{same_id, waits_evict, waits_fill, is_to_send, concerns_line, has_victim_in};

use port_msg::{DATA_BYTES, Msg, MsgId};

/// A miss that is under way in a cache of several.
#[derive(Clone, Copy)]
pub struct Miss {
    /// What waits for the line.
    pub request: Msg,
    /// The place that is reserved for it.
    pub place: usize,
    /// What it does next.
    pub phase: MissPhase,
}

/// What a miss does next.
#[derive(Clone, Copy)]
pub enum MissPhase {
    /// It asks for its victim to be written down: the victim's address and bytes.
    Evict { addr: u32, bytes: [u8; DATA_BYTES] },
    /// It waits for the answer of this id.
    WaitEvict { addr: u32, id: MsgId },
    /// It asks for its line.
    Fill,
    /// It waits for the line in the answer of this id.
    WaitFill { id: MsgId },
}

/// Whether two ids are one.
fn is_same_id(a: MsgId, b: MsgId) -> bool
    ensures { result ≡ same_id a b }
{
    a.part.0 == b.part.0 && a.seq == b.seq
}

impl MissPhase {
    /// Whether this line is a victim that is not written yet.
    fn has_victim(&self, line: u32) -> bool
        ensures { result ≡ has_victim_in line self.now }
    {
        match self {
            MissPhase::Evict { addr, .. } | MissPhase::WaitEvict { addr, .. } => *addr == line,
            _ => false,
        }
    }
}

impl Miss {
    /// Whether it waits for the answer of this id to the write of its victim.
    pub fn waits_evict(&self, id: MsgId) -> bool
        ensures { result ≡ waits_evict id self.now }
    {
        match self.phase {
            MissPhase::WaitEvict { id: asked, .. } => is_same_id(asked, id),
            _ => false,
        }
    }

    /// Whether it waits for its line in the answer of this id.
    pub fn waits_fill(&self, id: MsgId) -> bool
        ensures { result ≡ waits_fill id self.now }
    {
        match self.phase {
            MissPhase::WaitFill { id: asked } => is_same_id(asked, id),
            _ => false,
        }
    }

    /// Whether the write of its victim or the read of its line is to be sent.
    pub fn is_to_send(&self) -> bool
        ensures { result ≡ is_to_send self.now }
    {
        matches!(self.phase, MissPhase::Evict { .. } | MissPhase::Fill)
    }

    /// Whether it has this line, of so many bytes, as its own or as a victim that is not written yet.
    pub fn concerns(&self, size: u32, line: u32) -> bool
        requires { 0 < size }
        ensures { result ≡ concerns_line size line self.now }
    {
        let addr = self.request.addr;
        addr - addr % size == line || self.phase.has_victim(line)
    }
}
