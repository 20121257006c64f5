ghost use Rattle.std.specs.Prelude.{◌≡◌, ◌+◌, ◌<◌, ◌++◌, [], ◌∷◌, length, drop, remove, IfSome, slice_get, slice_set};
ghost use Rattle.cache_comp.specs.Lines.{LiesInLine, places, access, invalidate, invalidate_all, reserve, clean, put_line};
ghost use Rattle.cache_comp.specs.Cache.{IsAccess, IsMiss, rest};

use super::Cache;
use crate::miss::Miss;
use crate::stage::Stage;
use port_msg::{DATA_BYTES, Msg};
use sim_base::PortNo;

/// What a cache holds: its lines, its misses and its answers. Each call changes one of them alone.
impl Cache {
    /// The cache at a place of the list, or None behind its end.
    pub(crate) fn cache_at(&self, cache: usize) -> Option<PortNo>
        ensures port { result ≡ slice_get self.now.caches cache }
        ensures within { IfSome result (λ _. cache < length self.now.caches) }
    {
        self.caches.get(cache).copied()
    }

    /// Nothing is in hand: a cache of one miss is idle, and one of several runs.
    pub(crate) fn settle(&mut self)
        ensures { self.new ≡ record self.old { stage = rest self.old.miss_room } }
    {
        if self.miss_room == 1 {
            self.stage = Stage::Idle;
        } else {
            self.stage = Stage::Run;
        }
    }

    /// Reads or writes the line at a place, which is used.
    pub(crate) fn access_line(&mut self, place: usize, request: &Msg)
        requires { IsAccess self.old.lines.line (places self.old.lines) request.now place }
        ensures { self.new ≡ record self.old { lines = access place request.now self.old.lines } }
    {
        self.lines.access(place, request);
    }

    /// The line at a place becomes invalid.
    pub(crate) fn invalidate_line(&mut self, place: usize)
        requires { place < places self.old.lines }
        ensures { self.new ≡ record self.old { lines = invalidate place self.old.lines } }
    {
        self.lines.invalidate(place);
    }

    /// All lines become invalid.
    pub(crate) fn invalidate_lines(&mut self)
        ensures { self.new ≡ record self.old { lines = invalidate_all self.old.lines } }
    {
        self.lines.invalidate_all();
    }

    /// The line at a place becomes invalid, and its place is reserved.
    pub(crate) fn reserve_line(&mut self, place: usize)
        requires { place < places self.old.lines }
        ensures { self.new ≡ record self.old { lines = reserve place self.old.lines } }
    {
        self.lines.reserve(place);
    }

    /// The line at a place becomes clean.
    pub(crate) fn clean_line(&mut self, place: usize)
        requires { place < places self.old.lines }
        ensures { self.new ≡ record self.old { lines = clean place self.old.lines } }
    {
        self.lines.clean(place);
    }

    /// The line of this address is put at a place, with these bytes.
    pub(crate) fn put_line(&mut self, place: usize, addr: u32, bytes: &[u8; DATA_BYTES])
        requires { place < places self.old.lines }
        ensures { self.new
            ≡ record self.old { lines = put_line place addr bytes.now self.old.lines } }
    {
        self.lines.put_line(place, addr, bytes);
    }

    /// A miss of the table.
    pub(crate) fn miss_at(&self, k: usize) -> Miss
        requires { k < length self.now.table }
        ensures here { slice_get self.now.table k ≡ Some result }
        ensures held { IsMiss self.now.lines.line (places self.now.lines) result }
    {
        self.table[k]
    }

    /// A miss leaves the table.
    pub(crate) fn leave_table(&mut self, k: usize)
        requires { k < length self.old.table }
        ensures left { self.new ≡ record self.old { table = remove self.old.table k } }
        ensures room { length self.new.table + length self.new.ready < self.new.miss_room }
    {
        let _ = self.table.remove(k);
    }

    /// A miss of the table is this one now.
    pub(crate) fn set_miss(&mut self, k: usize, miss: Miss)
        requires within { k < length self.old.table }
        requires held { IsMiss self.old.lines.line (places self.old.lines) miss }
        ensures { self.new ≡ record self.old { table = slice_set self.old.table k miss } }
    {
        self.table[k] = miss;
    }

    /// A miss joins the table, which has room for it.
    pub(crate) fn join_table(&mut self, miss: Miss)
        requires room { length self.old.table + length self.old.ready < self.old.miss_room }
        requires held { IsMiss self.old.lines.line (places self.old.lines) miss }
        ensures { self.new ≡ record self.old { table = self.old.table ++ miss ∷ [] } }
    {
        let made = self.table.push(miss);
        prove!(made.is_ok());
    }

    /// An answer is ready, for which there is room.
    pub(crate) fn push_ready(&mut self, answer: Msg)
        requires { length self.old.table + length self.old.ready < self.old.miss_room }
        ensures { self.new ≡ record self.old { ready = self.old.ready ++ answer ∷ [] } }
    {
        let made = self.ready.try_push_back(answer);
        prove!(made.is_ok());
    }

    /// The first answer is gone.
    pub(crate) fn pop_ready(&mut self)
        ensures { self.new ≡ record self.old { ready = drop 1 self.old.ready } }
    {
        let _ = self.ready.pop_front();
    }
}
