ghost use Rattle.std.specs.Prelude.{◌≡◌};
ghost use Rattle.cache_comp.specs.Cache.{phase_of, pending_in, is_done};

use crate::phase::CachePhase;
use port_msg::Msg;

/// The phase of a cache with what it is about.
#[derive(Clone, Copy)]
pub enum Stage {
    Idle,
    /// The line at this place gives way to that of the request.
    Evict { request: Msg, place: usize },
    WaitEvict { request: Msg, place: usize },
    /// The line of the request is put at this place.
    Fill { request: Msg, place: usize },
    WaitFill { request: Msg, place: usize },
    Reply { answer: Msg },
    Flush { request: Msg },
    WaitFlush { request: Msg },
    /// The cache at this place of the list is to be asked.
    Down { request: Msg, cache: usize },
    WaitDown { request: Msg, cache: usize },
    Run,
}

impl Stage {
    /// The phase alone.
    pub fn phase(&self) -> CachePhase
        ensures { result ≡ phase_of self.now }
    {
        match self {
            Stage::Idle => CachePhase::Idle,
            Stage::Evict { .. } => CachePhase::Evict,
            Stage::WaitEvict { .. } => CachePhase::WaitEvict,
            Stage::Fill { .. } => CachePhase::Fill,
            Stage::WaitFill { .. } => CachePhase::WaitFill,
            Stage::Reply { .. } => CachePhase::Reply,
            Stage::Flush { .. } => CachePhase::Flush,
            Stage::WaitFlush { .. } => CachePhase::WaitFlush,
            Stage::Down { .. } => CachePhase::Down,
            Stage::WaitDown { .. } => CachePhase::WaitDown,
            Stage::Run => CachePhase::Run,
        }
    }

    /// How many misses are under way, where the table has so many.
    pub fn pending(&self, entries: u32) -> u32
        ensures { result ≡ pending_in self.now entries }
    {
        match self {
            Stage::Evict { .. }
            | Stage::WaitEvict { .. }
            | Stage::Fill { .. }
            | Stage::WaitFill { .. } => 1,
            _ => entries,
        }
    }

    /// Whether nothing is left to do, where the table and the answers are empty or not.
    pub fn is_done(&self, empty: bool) -> bool
        ensures { result ≡ is_done self.now empty }
    {
        match self {
            Stage::Idle => true,
            Stage::Run => empty,
            _ => false,
        }
    }
}
