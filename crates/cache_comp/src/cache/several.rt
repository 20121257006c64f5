ghost use Rattle.std.specs.Prelude.{◌≡◌, ◌+◌, ◌<◌, ◌≤◌, length, position, slice_get, IfSome, IsTrue};
ghost use Rattle.std.specs.Bool.{OnFalse};
ghost use Rattle.std.specs.List.{list_any};
ghost use Rattle.port_msg.specs.RecView.{appended_all};
ghost use Rattle.tick_law.specs.Machine.{recorded, stepped};
ghost use Rattle.cache_comp.specs.TwoPorts.{first_of, second_of, with_port};
ghost use Rattle.cache_comp.specs.Lines.{places, accepts, victim_place};
ghost use Rattle.cache_comp.specs.Cache.{IsAccess, IsMiss, some_where, is_empty, has_place, waits_evict, waits_fill, is_to_send, concerns_line, concerns, first_phase, perform_ready, complete, join, asked, send, send_ready, evict_answered, fill_answered, answered, take_answer, send_miss, enter, take_request, begin_flush, take_flush, serve_bottom, serve_top, line_of, run};

use super::Cache;
use super::messages::{is_flush, is_read_answer, is_write_answer};
use super::phases::{BOTTOM, TOP};
use crate::miss::{Miss, MissPhase};
use crate::stage::Stage;
use port_msg::{DATA_BYTES, Msg, MsgId, RecList, What};
use port_row::Ports;

/// The first miss that waits for the answer of this id to the write of its victim.
fn evict_of(table: &[Miss], id: MsgId) -> Option<usize>
    ensures place { result ≡ position (waits_evict id) table.now }
    ensures within { IfSome result (λ k. k < length table.now) }
{
    table.iter().position(|miss| miss.waits_evict(id))
}

/// The first miss that waits for its line in the answer of this id.
fn fill_of(table: &[Miss], id: MsgId) -> Option<usize>
    ensures place { result ≡ position (waits_fill id) table.now }
    ensures within { IfSome result (λ k. k < length table.now) }
{
    table.iter().position(|miss| miss.waits_fill(id))
}

/// The first miss that is to be sent.
fn to_send(table: &[Miss]) -> Option<usize>
    ensures place { result ≡ position is_to_send table.now }
    ensures within { IfSome result (λ k. k < length table.now) }
{
    table.iter().position(|miss| miss.is_to_send())
}

/// Whether one of these misses has this line, of so many bytes, as its own or as a victim that is not written yet.
fn any_concerns(table: &[Miss], size: u32, line: u32) -> bool
    requires { 0 < size }
    ensures { result ≡ list_any (concerns_line size line) table.now }
{
    table.iter().any(|miss| miss.concerns(size, line))
}

/// The rules of a cache of several misses, of which each acts at most once in a step.
impl Cache {
    /// Whether neither a miss nor an answer is under way.
    pub(crate) fn is_empty(&self) -> bool
        ensures { result ≡ is_empty self.now }
    {
        self.table.is_empty() && self.ready.is_empty()
    }

    /// Whether fewer misses and answers are under way than there is room for.
    fn has_place(&self) -> bool
        ensures test { result ≡ has_place self.now }
        ensures room { IsTrue result → length self.now.table + length self.now.ready
            < self.now.miss_room }
    {
        self.table.len() + self.ready.len() < self.miss_room as usize
    }

    /// Whether a miss that is under way has this line as its own or as a victim that is not written yet.
    fn concerns(&self, line: u32) -> bool
        ensures { result ≡ list_any (concerns self.now line) self.now.table }
    {
        any_concerns(&self.table, self.lines.line(), line)
    }

    /// An access of the line at a place, whose answer is ready.
    fn perform_ready(&mut self, place: usize, request: &Msg)
        requires held { IsAccess self.old.lines.line (places self.old.lines) request.now place }
        requires room { length self.old.table + length self.old.ready < self.old.miss_room }
        ensures { self.new ≡ perform_ready place request.now self.old }
    {
        let answer = self.answer(place, request);
        self.access_line(place, request);
        self.push_ready(answer);
    }

    /// The line of a miss came: it is put in place, the access is done, and the miss leaves the table.
    fn complete(&mut self, k: usize, miss: &Miss, bytes: &[u8; DATA_BYTES])
        requires here { slice_get self.old.table k ≡ Some miss.now }
        requires within { k < length self.old.table }
        requires held { IsMiss self.old.lines.line (places self.old.lines) miss.now }
        ensures { self.new ≡ complete k miss.now bytes.now self.old }
    {
        let line = self.line_of(&miss.request);
        self.leave_table(k);
        self.put_line(miss.place, line, bytes);
        self.perform_ready(miss.place, &miss.request);
    }

    /// The answer of this id to the write of a victim: the first miss that waits for it is to be filled. It says
    /// whether one waits.
    fn evict_answered(&mut self, id: MsgId) -> bool
        ensures begun { evict_answered (position (waits_evict id) self.old.table) self.old
            ≡ some_where result self.new }
        ensures kept { OnFalse result (self.new ≡ self.old) }
    {
        let Some(k) = evict_of(&self.table, id) else {
            return false;
        };
        let miss = self.miss_at(k);
        let phase = MissPhase::Fill;
        self.set_miss(k, Miss { phase, ..miss });
        true
    }

    /// The answer of this id has the line of the first miss that waits for it. It says whether one waits.
    fn fill_answered(&mut self, msg: &Msg) -> bool
        ensures begun { fill_answered (position (waits_fill msg.now.id) self.old.table) msg.now self.old
            ≡ some_where result self.new }
        ensures kept { OnFalse result (self.new ≡ self.old) }
    {
        let Some(k) = fill_of(&self.table, msg.id) else {
            return false;
        };
        let miss = self.miss_at(k);
        self.complete(k, &miss, &msg.bytes);
        true
    }

    /// What an answer that a miss waits for does: the first such miss is to be filled, or its line came. It says
    /// whether one waits.
    fn answered(&mut self, msg: &Msg) -> bool
        ensures begun { answered self.old msg.now ≡ some_where result self.new }
        ensures kept { OnFalse result (self.new ≡ self.old) }
    {
        if is_write_answer(msg.kind, msg.len) {
            return self.evict_answered(msg.id);
        }
        if !is_read_answer(self.lines.line(), msg.kind, msg.len) {
            return false;
        }
        self.fill_answered(msg)
    }

    /// What a miss begins with: its victim is to be written down where it is valid and dirty, else its line is to be
    /// read.
    fn first_phase(&self, place: usize) -> MissPhase
        requires { place < places self.now.lines }
        ensures { result ≡ first_phase self.now place }
    {
        let tag = self.lines.tag(place);
        if tag.is_dirty() {
            MissPhase::Evict {
                addr: tag.tag,
                bytes: self.lines.line_bytes(place),
            }
        } else {
            MissPhase::Fill
        }
    }

    /// A miss counts and joins the table, and its way becomes invalid and is reserved.
    fn join(&mut self, place: usize, request: &Msg)
        requires held { IsAccess self.old.lines.line (places self.old.lines) request.now place }
        requires room { length self.old.table + length self.old.ready < self.old.miss_room }
        ensures { self.new ≡ join place request.now self.old }
    {
        let phase = self.first_phase(place);
        self.misses = self.misses.saturating_add(1);
        self.reserve_line(place);
        self.join_table(Miss {
            request: *request,
            place,
            phase,
        });
    }

    /// What a read or a write begins: a hit is done, and a miss joins the table where no other concerns its line and
    /// its set has a free way. It says whether it began.
    fn enter(&mut self, msg: &Msg) -> bool
        ensures begun { enter self.old msg.now ≡ some_where result self.new }
        ensures kept { OnFalse result (self.new ≡ self.old) }
    {
        if !self.lines.accepts(msg) || !self.has_place() {
            return false;
        }
        if let Some(place) = self.lines.hit_place(msg.addr) {
            self.hits = self.hits.saturating_add(1);
            self.perform_ready(place, msg);
            return true;
        }
        let Some(place) = self.lines.victim_place(msg.addr) else {
            return false;
        };
        if self.concerns(self.line_of(msg)) {
            return false;
        }
        self.join(place, msg);
        true
    }

    /// With room above, the first answer is sent.
    pub(crate) fn send_ready(&mut self, ports: &mut Ports, recs: &mut RecList) -> bool
        requires port { 0 < length ports.old.ports }
        requires room { length recs.old.items < recs.old.room }

        ensures state { self.new ≡ (send_ready self.old (first_of ports.old)).state }
        ensures port { ports.new ≡ with_port ports.old 0
            (send_ready self.old (first_of ports.old)).port }
        ensures records { recs.new ≡ appended_all recs.old
            (send_ready self.old (first_of ports.old)).records }
        ensures flag { result ≡ (send_ready self.old (first_of ports.old)).flag }
    {
        let Some(answer) = self.ready.front().copied() else {
            return false;
        };
        if ports.send(TOP, answer).is_err() {
            return false;
        }
        recs.push(What::Send(answer));
        self.pop_ready();
        true
    }

    /// With an answer that a miss waits for at the head, it takes it.
    pub(crate) fn take_answer(&mut self, ports: &mut Ports, recs: &mut RecList) -> bool
        requires port { 1 < length ports.old.ports }
        requires room { length recs.old.items < recs.old.room }

        ensures state { self.new ≡ (take_answer self.old (second_of ports.old)).state }
        ensures port { ports.new ≡ with_port ports.old 1
            (take_answer self.old (second_of ports.old)).port }
        ensures records { recs.new ≡ appended_all recs.old
            (take_answer self.old (second_of ports.old)).records }
        ensures flag { result ≡ (take_answer self.old (second_of ports.old)).flag }
    {
        let Some(msg) = ports.in_head(BOTTOM) else {
            return false;
        };
        if !self.answered(&msg) {
            return false;
        }
        let _ = ports.in_take(BOTTOM);
        recs.push(What::Take(msg));
        true
    }

    /// With room below, a request of a miss is sent, and its entry is this one then.
    fn ask_for(
        &mut self,
        ports: &mut Ports,
        k: usize,
        miss: Miss,
        msg: Msg,
        recs: &mut RecList,
    ) -> bool
        requires port { 1 < length ports.old.ports }
        requires room { length recs.old.items < recs.old.room }
        requires within { k < length self.old.table }
        requires held { IsMiss self.old.lines.line (places self.old.lines) miss }

        ensures state { self.new
            ≡ (send msg (asked k miss self.old) self.old (second_of ports.old)).state }
        ensures port { ports.new ≡ with_port ports.old 1
            (send msg (asked k miss self.old) self.old (second_of ports.old)).port }
        ensures records { recs.new ≡ appended_all recs.old
            (send msg (asked k miss self.old) self.old (second_of ports.old)).records }
        ensures flag { result
            ≡ (send msg (asked k miss self.old) self.old (second_of ports.old)).flag }
    {
        if ports.send(BOTTOM, msg).is_err() {
            return false;
        }
        recs.push(What::Send(msg));
        self.requests = self.requests.saturating_add(1);
        self.set_miss(k, miss);
        true
    }

    /// With room below, the first miss that is to be sent sends the write of its victim or the read of its line.
    pub(crate) fn send_miss(&mut self, ports: &mut Ports, recs: &mut RecList) -> bool
        requires port { 1 < length ports.old.ports }
        requires room { length recs.old.items < recs.old.room }

        ensures state { self.new ≡ (send_miss self.old (second_of ports.old)).state }
        ensures port { ports.new ≡ with_port ports.old 1
            (send_miss self.old (second_of ports.old)).port }
        ensures records { recs.new ≡ appended_all recs.old
            (send_miss self.old (second_of ports.old)).records }
        ensures flag { result ≡ (send_miss self.old (second_of ports.old)).flag }
    {
        let Some(k) = to_send(&self.table) else {
            return false;
        };
        let miss = self.miss_at(k);
        let id = self.next_id();
        match miss.phase {
            MissPhase::Evict { addr, bytes } => {
                let Some(to) = self.below.find(addr) else {
                    return false;
                };
                let message = self.write_request(addr, bytes, to);
                let phase = MissPhase::WaitEvict { addr, id };
                self.ask_for(ports, k, Miss { phase, ..miss }, message, recs)
            }
            MissPhase::Fill => {
                let addr = self.line_of(&miss.request);
                let Some(to) = self.below.find(addr) else {
                    return false;
                };
                let message = self.read_request(addr, to);
                let phase = MissPhase::WaitFill { id };
                self.ask_for(ports, k, Miss { phase, ..miss }, message, recs)
            }
            _ => false,
        }
    }

    /// With a read or a write at the head of the port `top` and a place for it, it takes it.
    pub(crate) fn take_request(&mut self, ports: &mut Ports, recs: &mut RecList) -> bool
        requires port { 0 < length ports.old.ports }
        requires room { length recs.old.items < recs.old.room }

        ensures state { self.new ≡ (take_request self.old (first_of ports.old)).state }
        ensures port { ports.new ≡ with_port ports.old 0
            (take_request self.old (first_of ports.old)).port }
        ensures records { recs.new ≡ appended_all recs.old
            (take_request self.old (first_of ports.old)).records }
        ensures flag { result ≡ (take_request self.old (first_of ports.old)).flag }
    {
        let Some(msg) = ports.in_head(TOP) else {
            return false;
        };
        if !self.enter(&msg) {
            return false;
        }
        let _ = ports.in_take(TOP);
        recs.push(What::Take(msg));
        true
    }

    /// With a flush at the head of the port `top` and nothing under way, it takes it.
    pub(crate) fn take_flush(&mut self, ports: &mut Ports, recs: &mut RecList) -> bool
        requires port { 0 < length ports.old.ports }
        requires room { length recs.old.items < recs.old.room }

        ensures state { self.new ≡ (take_flush self.old (first_of ports.old)).state }
        ensures port { ports.new ≡ with_port ports.old 0
            (take_flush self.old (first_of ports.old)).port }
        ensures records { recs.new ≡ appended_all recs.old
            (take_flush self.old (first_of ports.old)).records }
        ensures flag { result ≡ (take_flush self.old (first_of ports.old)).flag }
    {
        let Some(msg) = ports.in_head(TOP) else {
            return false;
        };
        if !is_flush(msg.kind) || !self.is_empty() {
            return false;
        }
        let _ = ports.in_take(TOP);
        recs.push(What::Take(msg));
        self.stage = Stage::Flush { request: msg };
        true
    }

    /// The rules at the port `bottom`.
    #[tactic(auto, unfolding(crate::specs::Cache::serve_bottom))]
    pub(crate) fn serve_bottom(&mut self, ports: &mut Ports, recs: &mut RecList) -> bool
        requires port { 1 < length ports.old.ports }
        requires room { length recs.old.items + 2 ≤ recs.old.room }

        ensures state { self.new ≡ (serve_bottom self.old (second_of ports.old)).state }
        ensures port { ports.new ≡ with_port ports.old 1
            (serve_bottom self.old (second_of ports.old)).port }
        ensures records { recs.new ≡ appended_all recs.old
            (serve_bottom self.old (second_of ports.old)).records }
        ensures flag { result ≡ (serve_bottom self.old (second_of ports.old)).flag }
    {
        let took = self.take_answer(ports, recs);
        let sent = self.send_miss(ports, recs);
        took || sent
    }

    /// The rules at the port `top` but for the first.
    #[tactic(auto, unfolding(crate::specs::Cache::serve_top))]
    pub(crate) fn serve_top(&mut self, ports: &mut Ports, recs: &mut RecList) -> bool
        requires port { 0 < length ports.old.ports }
        requires room { length recs.old.items + 2 ≤ recs.old.room }

        ensures state { self.new ≡ (serve_top self.old (first_of ports.old)).state }
        ensures port { ports.new ≡ with_port ports.old 0
            (serve_top self.old (first_of ports.old)).port }
        ensures records { recs.new ≡ appended_all recs.old
            (serve_top self.old (first_of ports.old)).records }
        ensures flag { result ≡ (serve_top self.old (first_of ports.old)).flag }
    {
        let took = self.take_request(ports, recs);
        let flushed = self.take_flush(ports, recs);
        took || flushed
    }

    /// The step of a cache of several misses that runs: an answer is sent, then the rules at the bottom, then those at
    /// the top.
    pub(crate) fn run(&mut self, ports: &mut Ports, recs: &mut RecList) -> bool
        requires ports { length ports.old.ports ≡ 2 }
        requires room { length recs.old.items + 5 ≤ recs.old.room }

        ensures state { self.new ≡ (run self.old ports.old.ports).state }
        ensures port { ports.new ≡ stepped ports.old (run self.old ports.old.ports) }
        ensures records { recs.new ≡ recorded recs.old (run self.old ports.old.ports) }
        ensures flag { result ≡ (run self.old ports.old.ports).flag }
        ensures long { length ports.new.ports ≡ length ports.old.ports }
    {
        let sent = self.send_ready(ports, recs);
        let below = self.serve_bottom(ports, recs);
        let above = self.serve_top(ports, recs);
        sent || below || above
    }
}
