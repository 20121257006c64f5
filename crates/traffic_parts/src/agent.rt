ghost use Rattle.std.specs.Prelude.{◌≡◌, ◌+◌, ◌*◌, ◌^◌, ◌<◌, ◌≤◌, ◌++◌, length, replicate, IfOk, All, AllPairs};
ghost use Rattle.std.specs.Int.{w32, to_le_bytes};
ghost use Rattle.tick_law.specs.OnePort.{lone, ports_after, recs_after};
ghost use Rattle.addr_map.specs.Range.{IsRange, Apart};
ghost use Rattle.traffic_parts.specs.Agent.{IsAgent, agent_opening, is_answer, total_after, take_answer, write_request, read_request, request, is_open, is_ready, drawn, target, send_request, agent, request_noted};

use crate::draw::{address_of, value_after, writes};
use addr_map::{AddrMap, Ranges};
use port_msg::{DATA_BYTES, Msg, MsgId, MsgKind, RecList, What};
use port_row::Ports;
use sim_base::{ActorNo, LATEST_TICK, LONGEST_PERIOD, Mode, OutOfMemory, PartNo, PortNo, Steps};
use std::alloc::Global;
use std::marker::Model;
use std::sync::ledger::Ledger;
use tick_law::Actor;

/// The most requests that an agent makes.
pub const MOST_REQUESTS: u32 = 1_000_000;

/// The longest time between two requests of an agent, in cycles.
pub const LONGEST_GAP: u32 = 1_000_000;

/// The latest cycle at which an agent begins.
pub const LATEST_START: u32 = 1_000_000;

/// What an agent is opened with.
#[derive(Drop)]
pub struct AgentText {
    /// Its own number.
    pub actor: ActorNo,
    /// In picoseconds, 1 to 1,000,000,000.
    pub period: u64,
    /// Its port.
    pub io: PortNo,
    /// Where its requests go.
    pub map: Ranges,
    /// The first address that it asks for.
    pub base: u32,
    /// How many bytes from there on it asks for.
    pub span: u64,
    /// How many requests it makes.
    pub count: u32,
    /// How many of its requests can wait for their answers.
    pub window: u32,
    /// How many cycles lie between two requests at least.
    pub gap: u32,
    /// The first cycle at which it makes a request.
    pub start: u32,
    /// Whether it reads or writes.
    pub mode: Mode,
    /// The value that the first one is drawn after.
    pub draw: u32,
}

/// A part that sends reads and writes of words at addresses that it draws.
#[derive(Drop)]
pub struct Agent {
    part: PartNo,
    io: PortNo,
    period: u64,
    map: AddrMap,
    base: u32,
    span: u64,
    count: u32,
    window: u32,
    gap: u32,
    mode: Mode,
    issued: u32,
    answered: u32,
    total: u32,
    next: u64,
    value: u32,
}

impl Model for Agent {
    ghost use Rattle.traffic_parts.specs.Agent.{AgentState, IsAgent};

    ghost Value = { AgentState };

    ghost view = { λ a. record { part = a.part; io = a.io; period = a.period; ranges = a.map; base = a.base; span = a.span; count = a.count; window = a.window; gap = a.gap; mode = a.mode; issued = a.issued; answered = a.answered; total = a.total; next = a.next; value = a.value } };

    ghost invariant = { λ a. IsAgent (record { part = a.part; io = a.io; period = a.period; ranges = a.map; base = a.base; span = a.span; count = a.count; window = a.window; gap = a.gap; mode = a.mode; issued = a.issued; answered = a.answered; total = a.total; next = a.next; value = a.value }) };
}

/// The bytes of a word in little-endian order, and zeros behind them.
fn word_bytes(value: u32) -> [u8; DATA_BYTES]
    ensures { result ≡ to_le_bytes w32 value ++ replicate 60 0 }
{
    let mut bytes = [0; DATA_BYTES];
    bytes[..4].copy_from_slice(&value.to_le_bytes());
    bytes
}

/// Whether a message is the answer to a read of 4 bytes, or to a write.
fn is_answer(kind: MsgKind, len: u8) -> bool
    ensures { result ≡ is_answer kind len }
{
    match kind {
        MsgKind::ReadRsp => len == 4,
        MsgKind::WriteRsp => len == 0,
        _ => false,
    }
}

/// The sum after an answer: the word of the answer to a read is added, modulo 2^32.
fn total_after(total: u32, msg: &Msg) -> u32
    ensures { result ≡ total_after total msg.now.kind msg.now.bytes }
{
    match msg.kind {
        MsgKind::ReadRsp => {
            let [first, second, third, fourth, ..] = msg.bytes;
            total.wrapping_add(u32::from_le_bytes([first, second, third, fourth]))
        }
        _ => total,
    }
}

impl Agent {
    /// An agent that has made no requests.
    pub fn open(alloc: Global, text: &AgentText) -> Result<Agent, OutOfMemory>
        requires some { 1 ≤ text.now.period }
        requires short { text.now.period ≤ LONGEST_PERIOD }
        requires shape { All IsRange text.now.map }
        requires apart { AllPairs Apart text.now.map }
        requires span { 4 ≤ text.now.span }
        requires within { text.now.base + text.now.span ≤ 2 ^ 32 }
        requires count { text.now.count ≤ MOST_REQUESTS }
        requires gap { text.now.gap ≤ LONGEST_GAP }
        requires start { text.now.start ≤ LATEST_START }

        ensures { IfOk result (λ agent. agent ≡ agent_opening text.now) }
    {
        let map = AddrMap::open(alloc, text.map.items())?;
        Ok(Agent {
            part: PartNo(text.actor.0),
            io: text.io,
            period: text.period,
            map,
            base: text.base,
            span: text.span,
            count: text.count,
            window: text.window,
            gap: text.gap,
            mode: text.mode,
            issued: 0,
            answered: 0,
            total: 0,
            next: u64::from(text.start),
            value: text.draw,
        })
    }

    /// How many requests it has made.
    pub fn issued(&self) -> u32
        ensures { result ≡ self.now.issued }
    {
        self.issued
    }

    /// How many answers it has taken.
    pub fn answered(&self) -> u32
        ensures { result ≡ self.now.answered }
    {
        self.answered
    }

    /// The sum of the words that it has read, modulo 2^32.
    pub fn sum(&self) -> u32
        ensures { result ≡ self.now.total }
    {
        self.total
    }

    /// The first cycle at which it may make its next request.
    pub fn next(&self) -> u64
        ensures { result ≡ self.now.next }
    {
        self.next
    }

    /// How many requests it makes in all.
    pub fn count(&self) -> u32
        ensures { result ≡ self.now.count }
    {
        self.count
    }

    /// The value that the next request is drawn by.
    #[tactic(auto, unfolding(crate::specs::Agent::drawn))]
    fn drawn(&self) -> u32
        ensures { result ≡ drawn self.now }
    {
        value_after(self.value)
    }

    /// The port that its map gives for the drawn address, or None where there is none.
    #[tactic(auto, unfolding(crate::specs::Agent::target))]
    fn target(&self) -> Option<PortNo>
        ensures { result ≡ target self.now }
    {
        let value = value_after(self.value);
        self.map.find(address_of(self.base, self.span, value))
    }

    /// Whether fewer were issued than its count, and fewer wait for their answers than its window.
    fn is_open(&self) -> bool
        ensures { result ≡ is_open self.now }
    {
        self.issued < self.count && self.issued - self.answered < self.window
    }

    /// Whether it is open, and its next cycle has come.
    fn is_ready(&self, cycle: u64) -> bool
        ensures { result ≡ is_ready self.now cycle }
    {
        self.is_open() && self.next <= cycle
    }

    /// A request to write a word.
    #[tactic(auto, unfolding(crate::specs::Agent::write_request))]
    fn write_request(&self, value: u32, dst: PortNo) -> Msg
        ensures { result ≡ write_request self.now value dst }
    {
        Msg {
            id: MsgId {
                part: self.part,
                seq: u64::from(self.issued),
            },
            src: self.io,
            dst,
            kind: MsgKind::Write,
            addr: address_of(self.base, self.span, value),
            len: 4,
            bytes: word_bytes(value),
        }
    }

    /// A request to read a word.
    #[tactic(auto, unfolding(crate::specs::Agent::read_request))]
    fn read_request(&self, value: u32, dst: PortNo) -> Msg
        ensures { result ≡ read_request self.now value dst }
    {
        Msg {
            id: MsgId {
                part: self.part,
                seq: u64::from(self.issued),
            },
            src: self.io,
            dst,
            kind: MsgKind::Read,
            addr: address_of(self.base, self.span, value),
            len: 4,
            bytes: [0; DATA_BYTES],
        }
    }

    /// The request that a drawn value says. Its number is how many were issued before.
    fn request(&self, value: u32, dst: PortNo) -> Msg
        ensures { result ≡ request self.now value dst }
    {
        if writes(self.mode, value) {
            self.write_request(value, dst)
        } else {
            self.read_request(value, dst)
        }
    }

    /// Where fewer are answered than issued and an answer is at the head, it is taken.
    fn take_answer(&mut self, ports: &mut Ports, recs: &mut RecList) -> bool
        requires port { 0 < length ports.old.ports }
        requires room { length recs.old.items < recs.old.room }

        ensures state { self.new ≡ (take_answer self.old (lone ports.old)).state }
        ensures port { ports.new ≡ ports_after ports.old (take_answer self.old (lone ports.old)) }
        ensures records { recs.new ≡ recs_after recs.old (take_answer self.old (lone ports.old)) }
        ensures flag { result ≡ (take_answer self.old (lone ports.old)).flag }
    {
        let Some(msg) = ports.in_head(0) else {
            return false;
        };
        if self.answered >= self.issued || !is_answer(msg.kind, msg.len) {
            return false;
        }
        let _ = ports.in_take(0);
        recs.push(What::Take(msg));
        self.answered += 1;
        self.total = total_after(self.total, &msg);
        true
    }

    /// A request was sent at a cycle: it counts, its value was drawn, and the next one comes the gap later.
    fn note_request(&mut self, cycle: u64, value: u32)
        requires few { self.old.issued < self.old.count }
        requires time { cycle * self.old.period ≤ LATEST_TICK }

        ensures { self.new ≡ request_noted self.old cycle value }
    {
        self.issued += 1;
        self.next = cycle + u64::from(self.gap);
        self.value = value;
    }

    /// Where it is ready, its map has a port for the drawn address and there is room, it sends a request there.
    #[tactic(auto, using(crate::specs::AgentLaws::ready_issued))]
    fn send_request(&mut self, ports: &mut Ports, cycle: u64, recs: &mut RecList) -> bool
        requires port { 0 < length ports.old.ports }
        requires room { length recs.old.items < recs.old.room }
        requires time { cycle * self.old.period ≤ LATEST_TICK }

        ensures state { self.new ≡ (send_request cycle self.old (lone ports.old)).state }
        ensures port { ports.new ≡ ports_after ports.old (send_request cycle self.old (lone ports.old)) }
        ensures records { recs.new ≡ recs_after recs.old (send_request cycle self.old (lone ports.old)) }
        ensures flag { result ≡ (send_request cycle self.old (lone ports.old)).flag }
    {
        if !self.is_ready(cycle) {
            return false;
        }
        let Some(dst) = self.target() else {
            return false;
        };
        let value = self.drawn();
        let request = self.request(value, dst);
        if ports.send(0, request).is_err() {
            return false;
        }
        recs.push(What::Send(request));
        self.note_request(cycle, value);
        true
    }
}

impl Actor for Agent {
    ghost use Rattle.traffic_parts.specs.AgentLaws.{agent_framed, agent_stays, agent_quiet, agent_due_later, agent_due_steady, agent_period_within};

    ghost machine = { agent };

    ghost valid = { IsAgent };

    fn tick<L: Ledger>(
        &mut self,
        ports: &mut Ports,
        cycle: u64,
        recs: &mut RecList,
        steps: &mut Steps<L>,
    ) -> bool {
        steps.charge();
        let took = self.take_answer(ports, recs);
        let sent = self.send_request(ports, cycle, recs);
        took || sent
    }

    fn due(&self, cycle: u64) -> Option<u64> {
        if self.is_open() && self.next > cycle {
            Some(self.next)
        } else {
            None
        }
    }

    fn period(&self) -> u64 {
        self.period
    }

    fn done(&self) -> bool {
        self.answered == self.count
    }

    fn known(&self) {
        let _period = &self.period;
    }

    ghost framed = { agent_framed };

    ghost stays = { agent_stays };

    ghost quiet = { agent_quiet };

    ghost due_later = { agent_due_later };

    ghost due_steady = { agent_due_steady };

    ghost period_within = { agent_period_within };
}
