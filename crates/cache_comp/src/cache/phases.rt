ghost use Rattle.std.specs.Prelude.{◌≡◌, ◌<◌, ◌≤◌, length};
ghost use Rattle.std.specs.Bool.{OnFalse};
ghost use Rattle.port_msg.specs.RecView.{appended_all};
ghost use Rattle.cache_comp.specs.TwoPorts.{first_of, second_of, with_port};
ghost use Rattle.cache_comp.specs.Lines.{places};
ghost use Rattle.cache_comp.specs.Cache.{IsAccess, IsStage, requested, some_where, send, perform, hit, miss, begin, idle, evict, wait_evict, fill, wait_fill, reply, flush, wait_flush, down, wait_down};

use super::Cache;
use super::messages::{is_flush, is_flush_answer, is_read_answer, is_write_answer};
use crate::stage::Stage;
use port_msg::{Msg, RecList, What};
use port_row::Ports;

/// The place of the port `top` among a cache's ports.
pub(crate) const TOP: usize = 0;

/// The place of the port `bottom`.
pub(crate) const BOTTOM: usize = 1;

/// The phases of a cache, of which one acts in a step: those of one miss, and those that both kinds have.
impl Cache {
    /// With room at the port `bottom`, a request is sent, whose answer is waited for in this phase.
    fn ask(&mut self, ports: &mut Ports, msg: Msg, stage: Stage, recs: &mut RecList) -> bool
        requires port { 1 < length ports.old.ports }
        requires room { length recs.old.items < recs.old.room }
        requires stage { IsStage self.old.lines.line (places self.old.lines) (length self.old.caches) stage }

        ensures state { self.new
            ≡ (send msg (requested stage self.old) self.old (second_of ports.old)).state }
        ensures port { ports.new ≡ with_port ports.old 1
            (send msg (requested stage self.old) self.old (second_of ports.old)).port }
        ensures records { recs.new ≡ appended_all recs.old
            (send msg (requested stage self.old) self.old (second_of ports.old)).records }
        ensures flag { result
            ≡ (send msg (requested stage self.old) self.old (second_of ports.old)).flag }
    {
        if ports.send(BOTTOM, msg).is_err() {
            return false;
        }
        recs.push(What::Send(msg));
        self.requests = self.requests.saturating_add(1);
        self.stage = stage;
        true
    }

    /// An access of the line at a place, whose answer is to be sent.
    fn perform(&mut self, place: usize, request: &Msg)
        requires held { IsAccess self.old.lines.line (places self.old.lines) request.now place }
        ensures { self.new ≡ perform place request.now self.old }
    {
        let answer = self.answer(place, request);
        self.stage = Stage::Reply { answer };
        self.access_line(place, request);
    }

    /// A hit counts, and the access is done.
    fn hit(&mut self, place: usize, request: &Msg)
        requires held { IsAccess self.old.lines.line (places self.old.lines) request.now place }
        ensures { self.new ≡ hit place request.now self.old }
    {
        self.hits = self.hits.saturating_add(1);
        self.perform(place, request);
    }

    /// A miss counts; the victim is to be written down where it is valid and dirty, else the line is to be read.
    fn miss(&mut self, place: usize, request: &Msg)
        requires held { IsAccess self.old.lines.line (places self.old.lines) request.now place }
        ensures { self.new ≡ miss place request.now self.old }
    {
        self.misses = self.misses.saturating_add(1);
        let request = *request;
        if self.lines.tag(place).is_dirty() {
            self.stage = Stage::Evict { request, place };
        } else {
            self.stage = Stage::Fill { request, place };
        }
    }

    /// What a request begins: a flush, or a read or a write that is a hit or a miss. It says whether it began.
    fn begin(&mut self, msg: &Msg) -> bool
        ensures begun { begin self.old msg.now ≡ some_where result self.new }
        ensures kept { OnFalse result (self.new ≡ self.old) }
    {
        if is_flush(msg.kind) {
            self.stage = Stage::Flush { request: *msg };
            return true;
        }
        if !self.lines.accepts(msg) {
            return false;
        }
        if let Some(place) = self.lines.hit_place(msg.addr) {
            self.hit(place, msg);
            return true;
        }
        let Some(place) = self.lines.victim_place(msg.addr) else {
            return false;
        };
        self.miss(place, msg);
        true
    }

    /// With a request at the head of the port `top`, it takes it.
    pub(crate) fn idle(&mut self, ports: &mut Ports, recs: &mut RecList) -> bool
        requires port { 0 < length ports.old.ports }
        requires room { length recs.old.items < recs.old.room }

        ensures state { self.new ≡ (idle self.old (first_of ports.old)).state }
        ensures port { ports.new ≡ with_port ports.old 0 (idle self.old (first_of ports.old)).port }
        ensures records { recs.new ≡ appended_all recs.old
            (idle self.old (first_of ports.old)).records }
        ensures flag { result ≡ (idle self.old (first_of ports.old)).flag }
    {
        let Some(msg) = ports.in_head(TOP) else {
            return false;
        };
        if !self.begin(&msg) {
            return false;
        }
        let _ = ports.in_take(TOP);
        recs.push(What::Take(msg));
        true
    }

    /// With room below, it sends a write of the victim.
    pub(crate) fn evict(
        &mut self,
        ports: &mut Ports,
        request: Msg,
        place: usize,
        recs: &mut RecList,
    ) -> bool
        requires port { 1 < length ports.old.ports }
        requires room { length recs.old.items < recs.old.room }
        requires held { IsAccess self.old.lines.line (places self.old.lines) request place }

        ensures state { self.new ≡ (evict request place self.old (second_of ports.old)).state }
        ensures port { ports.new ≡ with_port ports.old 1
            (evict request place self.old (second_of ports.old)).port }
        ensures records { recs.new ≡ appended_all recs.old
            (evict request place self.old (second_of ports.old)).records }
        ensures flag { result ≡ (evict request place self.old (second_of ports.old)).flag }
    {
        let addr = self.lines.tag(place).tag;
        let Some(to) = self.below.find(addr) else {
            return false;
        };
        let message = self.write_request(addr, self.lines.line_bytes(place), to);
        self.ask(ports, message, Stage::WaitEvict { request, place }, recs)
    }

    /// With the answer to that write at the head, it takes it, and the victim is invalid.
    pub(crate) fn wait_evict(
        &mut self,
        ports: &mut Ports,
        request: Msg,
        place: usize,
        recs: &mut RecList,
    ) -> bool
        requires port { 1 < length ports.old.ports }
        requires room { length recs.old.items < recs.old.room }
        requires held { IsAccess self.old.lines.line (places self.old.lines) request place }

        ensures state { self.new ≡ (wait_evict request place self.old (second_of ports.old)).state }
        ensures port { ports.new ≡ with_port ports.old 1
            (wait_evict request place self.old (second_of ports.old)).port }
        ensures records { recs.new ≡ appended_all recs.old
            (wait_evict request place self.old (second_of ports.old)).records }
        ensures flag { result ≡ (wait_evict request place self.old (second_of ports.old)).flag }
    {
        let Some(msg) = ports.in_head(BOTTOM) else {
            return false;
        };
        if !is_write_answer(msg.kind, msg.len) {
            return false;
        }
        let _ = ports.in_take(BOTTOM);
        recs.push(What::Take(msg));
        self.stage = Stage::Fill { request, place };
        self.invalidate_line(place);
        true
    }

    /// With room below, it sends a read of the line.
    pub(crate) fn fill(
        &mut self,
        ports: &mut Ports,
        request: Msg,
        place: usize,
        recs: &mut RecList,
    ) -> bool
        requires port { 1 < length ports.old.ports }
        requires room { length recs.old.items < recs.old.room }
        requires held { IsAccess self.old.lines.line (places self.old.lines) request place }

        ensures state { self.new ≡ (fill request place self.old (second_of ports.old)).state }
        ensures port { ports.new ≡ with_port ports.old 1
            (fill request place self.old (second_of ports.old)).port }
        ensures records { recs.new ≡ appended_all recs.old
            (fill request place self.old (second_of ports.old)).records }
        ensures flag { result ≡ (fill request place self.old (second_of ports.old)).flag }
    {
        let addr = self.line_of(&request);
        let Some(to) = self.below.find(addr) else {
            return false;
        };
        let message = self.read_request(addr, to);
        self.ask(ports, message, Stage::WaitFill { request, place }, recs)
    }

    /// With the line at the head, it takes it, puts it in place, and does the access without counting.
    pub(crate) fn wait_fill(
        &mut self,
        ports: &mut Ports,
        request: Msg,
        place: usize,
        recs: &mut RecList,
    ) -> bool
        requires port { 1 < length ports.old.ports }
        requires room { length recs.old.items < recs.old.room }
        requires held { IsAccess self.old.lines.line (places self.old.lines) request place }

        ensures state { self.new ≡ (wait_fill request place self.old (second_of ports.old)).state }
        ensures port { ports.new ≡ with_port ports.old 1
            (wait_fill request place self.old (second_of ports.old)).port }
        ensures records { recs.new ≡ appended_all recs.old
            (wait_fill request place self.old (second_of ports.old)).records }
        ensures flag { result ≡ (wait_fill request place self.old (second_of ports.old)).flag }
    {
        let Some(msg) = ports.in_head(BOTTOM) else {
            return false;
        };
        if !is_read_answer(self.lines.line(), msg.kind, msg.len) {
            return false;
        }
        let _ = ports.in_take(BOTTOM);
        recs.push(What::Take(msg));
        let line = self.line_of(&request);
        self.put_line(place, line, &msg.bytes);
        self.perform(place, &request);
        true
    }

    /// With room above, it sends the answer.
    pub(crate) fn reply(&mut self, ports: &mut Ports, answer: Msg, recs: &mut RecList) -> bool
        requires port { 0 < length ports.old.ports }
        requires room { length recs.old.items < recs.old.room }

        ensures state { self.new ≡ (reply answer self.old (first_of ports.old)).state }
        ensures port { ports.new ≡ with_port ports.old 0
            (reply answer self.old (first_of ports.old)).port }
        ensures records { recs.new ≡ appended_all recs.old
            (reply answer self.old (first_of ports.old)).records }
        ensures flag { result ≡ (reply answer self.old (first_of ports.old)).flag }
    {
        if ports.send(TOP, answer).is_err() {
            return false;
        }
        recs.push(What::Send(answer));
        self.settle();
        true
    }

    /// The first line that is valid and dirty is written down, with room below, and becomes clean; where there is none, all
    /// lines become invalid.
    pub(crate) fn flush(&mut self, ports: &mut Ports, request: Msg, recs: &mut RecList) -> bool
        requires port { 1 < length ports.old.ports }
        requires room { length recs.old.items < recs.old.room }

        ensures state { self.new ≡ (flush request self.old (second_of ports.old)).state }
        ensures port { ports.new ≡ with_port ports.old 1
            (flush request self.old (second_of ports.old)).port }
        ensures records { recs.new ≡ appended_all recs.old
            (flush request self.old (second_of ports.old)).records }
        ensures flag { result ≡ (flush request self.old (second_of ports.old)).flag }
    {
        let Some(place) = self.lines.first_dirty() else {
            self.stage = Stage::Down { request, cache: 0 };
            self.invalidate_lines();
            return true;
        };
        let addr = self.lines.tag(place).tag;
        let Some(to) = self.below.find(addr) else {
            return false;
        };
        let message = self.write_request(addr, self.lines.line_bytes(place), to);
        if ports.send(BOTTOM, message).is_err() {
            return false;
        }
        recs.push(What::Send(message));
        self.requests = self.requests.saturating_add(1);
        self.stage = Stage::WaitFlush { request };
        self.clean_line(place);
        true
    }

    /// With the answer to that write at the head, it takes it and looks for the next line.
    pub(crate) fn wait_flush(&mut self, ports: &mut Ports, request: Msg, recs: &mut RecList) -> bool
        requires port { 1 < length ports.old.ports }
        requires room { length recs.old.items < recs.old.room }

        ensures state { self.new ≡ (wait_flush request self.old (second_of ports.old)).state }
        ensures port { ports.new ≡ with_port ports.old 1
            (wait_flush request self.old (second_of ports.old)).port }
        ensures records { recs.new ≡ appended_all recs.old
            (wait_flush request self.old (second_of ports.old)).records }
        ensures flag { result ≡ (wait_flush request self.old (second_of ports.old)).flag }
    {
        let Some(msg) = ports.in_head(BOTTOM) else {
            return false;
        };
        if !is_write_answer(msg.kind, msg.len) {
            return false;
        }
        let _ = ports.in_take(BOTTOM);
        recs.push(What::Take(msg));
        self.stage = Stage::Flush { request };
        true
    }

    /// With room below, it sends a flush to the cache at a place of its list; where there is none, the flush is to be
    /// answered.
    pub(crate) fn down(
        &mut self,
        ports: &mut Ports,
        request: Msg,
        cache: usize,
        recs: &mut RecList,
    ) -> bool
        requires port { 1 < length ports.old.ports }
        requires room { length recs.old.items < recs.old.room }
        requires within { cache ≤ length self.old.caches }

        ensures state { self.new ≡ (down request cache self.old (second_of ports.old)).state }
        ensures port { ports.new ≡ with_port ports.old 1
            (down request cache self.old (second_of ports.old)).port }
        ensures records { recs.new ≡ appended_all recs.old
            (down request cache self.old (second_of ports.old)).records }
        ensures flag { result ≡ (down request cache self.old (second_of ports.old)).flag }
    {
        let Some(to) = self.cache_at(cache) else {
            let answer = self.flush_answer(&request);
            self.stage = Stage::Reply { answer };
            return true;
        };
        let message = self.flush_request(to);
        self.ask(ports, message, Stage::WaitDown { request, cache }, recs)
    }

    /// With the answer to that flush at the head, it takes it and goes on to the next cache.
    pub(crate) fn wait_down(
        &mut self,
        ports: &mut Ports,
        request: Msg,
        cache: usize,
        recs: &mut RecList,
    ) -> bool
        requires port { 1 < length ports.old.ports }
        requires room { length recs.old.items < recs.old.room }
        requires within { cache < length self.old.caches }

        ensures state { self.new ≡ (wait_down request cache self.old (second_of ports.old)).state }
        ensures port { ports.new ≡ with_port ports.old 1
            (wait_down request cache self.old (second_of ports.old)).port }
        ensures records { recs.new ≡ appended_all recs.old
            (wait_down request cache self.old (second_of ports.old)).records }
        ensures flag { result ≡ (wait_down request cache self.old (second_of ports.old)).flag }
    {
        let Some(msg) = ports.in_head(BOTTOM) else {
            return false;
        };
        if !is_flush_answer(msg.kind, msg.len) {
            return false;
        }
        let _ = ports.in_take(BOTTOM);
        recs.push(What::Take(msg));
        let caches = self.caches.len();
        prove!(cache < caches);
        self.stage = Stage::Down {
            request,
            cache: cache + 1,
        };
        true
    }
}
