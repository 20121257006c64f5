ghost use Rattle.std.specs.Prelude.{◌≡◌, ◌+◌, ◌*◌, ◌<◌, ◌≤◌, All, AllPairs, IfOk, length};
ghost use Rattle.sim_base.specs.declared.time.TheConstants.{LONGEST_PERIOD};
ghost use Rattle.addr_map.specs.Range.{IsRange, Apart};
ghost use Rattle.cache_comp.specs.Lines.{byte_at};
ghost use Rattle.cache_comp.specs.Cache.{IsCache, opening, phase_of, pending, is_empty, cache};

use crate::lines::Lines;
use crate::miss::Miss;
use crate::phase::CachePhase;
use crate::stage::Stage;
use addr_map::{AddrMap, Ranges};
use circular_buffer::HeapCircularBuffer;
use port_msg::{Msg, RecList};
use port_row::Ports;
use sim_base::{ActorNo, LONGEST_PERIOD, OutOfMemory, PartNo, PortList, PortNo, Steps};
use std::alloc::Global;
use std::marker::Model;
use std::sync::ledger::Ledger;
use tick_law::Actor;

mod contents;
mod messages;
mod phases;
mod several;

/// The most misses that a cache has under way at once.
pub const MOST_MISSES: u32 = 8;

/// What a cache is opened with.
#[derive(Drop)]
pub struct CacheText {
    /// Its own number.
    pub actor: ActorNo,
    /// In picoseconds, 1 to 1,000,000,000.
    pub period: u64,
    /// The port that it answers by.
    pub top: PortNo,
    /// The port that it asks for lines by.
    pub bottom: PortNo,
    /// Where it finds lines.
    pub map: Ranges,
    /// The ports of the caches among the targets of its map, which a flush goes on to in order.
    pub caches: PortList,
    /// How many bytes a line has, 1 to 64.
    pub line: u32,
    /// How many sets it has, 1 to 1024.
    pub sets: u32,
    /// How many lines a set has, 1 to 16.
    pub ways: u32,
    /// How many misses can be under way at once, 1 to 8.
    pub misses: u32,
}

/// A part that holds lines of a memory, reads and writes them for others, and writes them back when it needs their
/// place or is told to.
#[derive(Drop)]
pub struct Cache {
    part: PartNo,
    top: PortNo,
    bottom: PortNo,
    period: u64,
    below: AddrMap,
    caches: Vec<PortNo>,
    miss_room: u32,
    lines: Lines,
    hits: u64,
    misses: u64,
    requests: u64,
    stage: Stage,
    table: Vec<Miss>,
    ready: HeapCircularBuffer<Msg>,
}

impl Model for Cache {
    ghost use Rattle.std.specs.Prelude.{vec_capacity};
    ghost use Rattle.cache_comp.specs.Cache.{CacheState, IsHeld};

    ghost Value = { CacheState };

    ghost view = { λ c. record { part = c.part; top = c.top; bottom = c.bottom; period = c.period; below = c.below; caches = c.caches.items; miss_room = c.miss_room; lines = c.lines; hits = c.hits; misses = c.misses; requests = c.requests; stage = c.stage; table = c.table.items; ready = c.ready.items } };

    ghost invariant = { λ c. IsHeld (record { part = c.part; top = c.top; bottom = c.bottom; period = c.period; below = c.below; caches = c.caches.items; miss_room = c.miss_room; lines = c.lines; hits = c.hits; misses = c.misses; requests = c.requests; stage = c.stage; table = c.table.items; ready = c.ready.items }) (vec_capacity c.table) c.ready.capacity };
}

impl Cache {
    /// A cache without a line, in which nothing is under way.
    pub fn open(alloc: Global, text: &CacheText) -> Result<Cache, OutOfMemory>
        requires some { 1 ≤ text.now.period }
        requires short { text.now.period ≤ LONGEST_PERIOD }
        requires shape { All IsRange text.now.map }
        requires apart { AllPairs Apart text.now.map }
        requires line_some { 1 ≤ text.now.line }
        requires line_most { text.now.line ≤ 64 }
        requires sets_some { 1 ≤ text.now.sets }
        requires sets_most { text.now.sets ≤ 1024 }
        requires ways_some { 1 ≤ text.now.ways }
        requires ways_most { text.now.ways ≤ 16 }
        requires misses { text.now.misses ≤ MOST_MISSES }

        ensures { IfOk result (λ cache. cache ≡ opening text.now) }
    {
        let below = AddrMap::open(alloc, text.map.items())?;
        let caches = Vec::from_slice(alloc, text.caches.items())?;
        let lines = Lines::open(alloc, text.line, text.sets, text.ways)?;
        let table = Vec::with_capacity(alloc, text.misses as usize)?;
        let ready = HeapCircularBuffer::with_capacity(alloc, text.misses as usize)?;
        let mut cache = Cache {
            part: PartNo(text.actor.0),
            top: text.top,
            bottom: text.bottom,
            period: text.period,
            below,
            caches,
            miss_room: text.misses,
            lines,
            hits: 0,
            misses: 0,
            requests: 0,
            stage: Stage::Run,
            table,
            ready,
        };
        cache.settle();
        Ok(cache)
    }

    /// How many requests found their line. The count stays at its greatest number.
    pub fn hits(&self) -> u64
        ensures { result ≡ self.now.hits }
    {
        self.hits
    }

    /// How many requests did not. The count stays at its greatest number.
    pub fn misses(&self) -> u64
        ensures { result ≡ self.now.misses }
    {
        self.misses
    }

    /// How many misses are under way.
    pub fn pending(&self) -> u32
        ensures { result ≡ pending self.now }
    {
        self.stage.pending(self.table.len() as u32)
    }

    /// What it does next.
    pub fn phase(&self) -> CachePhase
        ensures { result ≡ phase_of self.now.stage }
    {
        self.stage.phase()
    }

    /// How many misses can be under way at once.
    pub fn miss_room(&self) -> u32
        ensures { result ≡ self.now.miss_room }
    {
        self.miss_room
    }

    /// The byte of an address, or None where no valid line holds it.
    pub fn byte(&self, addr: u32) -> Option<u8>
        ensures { result ≡ byte_at self.now.lines addr }
    {
        self.lines.byte(addr)
    }

    /// Where it finds lines.
    pub fn map(&self) -> &AddrMap
        ensures { result.now ≡ self.now.below }
    {
        &self.below
    }
}

impl Actor for Cache {
    ghost use Rattle.cache_comp.specs.CacheLaws.{cache_framed, cache_stays, cache_quiet};

    ghost machine = { cache };

    ghost valid = { IsCache };

    fn tick<L: Ledger>(
        &mut self,
        ports: &mut Ports,
        _cycle: u64,
        recs: &mut RecList,
        steps: &mut Steps<L>,
    ) -> bool {
        steps.charge();
        match self.stage {
            Stage::Idle => self.idle(ports, recs),
            Stage::Evict { request, place } => self.evict(ports, request, place, recs),
            Stage::WaitEvict { request, place } => self.wait_evict(ports, request, place, recs),
            Stage::Fill { request, place } => self.fill(ports, request, place, recs),
            Stage::WaitFill { request, place } => self.wait_fill(ports, request, place, recs),
            Stage::Reply { answer } => self.reply(ports, answer, recs),
            Stage::Flush { request } => self.flush(ports, request, recs),
            Stage::WaitFlush { request } => self.wait_flush(ports, request, recs),
            Stage::Down { request, cache } => self.down(ports, request, cache, recs),
            Stage::WaitDown { request, cache } => self.wait_down(ports, request, cache, recs),
            Stage::Run => self.run(ports, recs),
        }
    }

    fn due(&self, _cycle: u64) -> Option<u64> {
        None
    }

    fn period(&self) -> u64 {
        self.period
    }

    fn done(&self) -> bool {
        self.stage.is_done(self.is_empty())
    }

    fn known(&self) {
        let _period = &self.period;
    }

    ghost framed = { cache_framed };

    ghost stays = { cache_stays };

    ghost quiet = { cache_quiet };

    ghost due_later = { λ s n t v e. Prim.cc };

    ghost due_steady = { λ s n k v l h. Prim.cc };

    ghost period_within = { λ s v. (v.period_some, v.period_short) };
}
