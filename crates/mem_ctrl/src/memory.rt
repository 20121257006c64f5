ghost use Rattle.std.specs.Prelude.{◌≡◌, ◌+◌, ◌*◌, ◌^◌, ◌<◌, ◌≤◌, length, IfOk, IsTrue};
ghost use Rattle.tick_law.specs.OnePort.{lone, ports_after, recs_after};
ghost use Rattle.mem_ctrl.specs.Memory.{IsMemory, opening, byte_at, accepts, filled, read, read_answer, write_answer, answer, stored, serve, take_request, memory};

use crate::waiting::Waiting;
use circular_buffer::HeapCircularBuffer;
use port_msg::{DATA_BYTES, Msg, MsgKind, RecList, What};
use port_row::Ports;
use sim_base::{ActorNo, Body, LATEST_TICK, LONGEST_PERIOD, OutOfMemory, PortNo, Steps};
use std::alloc::Global;
use std::marker::Model;
use std::sync::ledger::Ledger;
use tick_law::Actor;

/// The longest latency of a memory, in cycles.
pub const LONGEST_LATENCY: u32 = 1_000_000;

/// The most bytes of a memory.
pub const MOST_BYTES: u32 = 268_435_456;

/// The most requests that wait in a memory.
pub const MOST_WAITING: u32 = 64;

/// What a memory is opened with: its number, its period in picoseconds, its port `top`, the address of its first byte,
/// how many bytes it has, its latency in cycles, 1 to 1,000,000, how many requests can wait, 1 to 64, and its bytes.
#[derive(Drop)]
pub struct MemoryText {
    pub actor: ActorNo,
    pub period: u64,
    pub top: PortNo,
    pub base: u32,
    pub size: u32,
    pub latency: u32,
    pub depth: u32,
    pub bytes: Body,
}

/// A part that holds bytes, and answers reads and writes of them in the order in which it took them.
#[derive(Drop)]
pub struct Memory {
    top: PortNo,
    period: u64,
    base: u32,
    latency: u32,
    bytes: Vec<u8>,
    queue: HeapCircularBuffer<Waiting>,
    served: u64,
}

impl Model for Memory {
    ghost use Rattle.mem_ctrl.specs.Memory.{MemoryState, IsMemory};

    ghost Value = { MemoryState };

    ghost view = { λ m. record { top = m.top; period = m.period; base = m.base; latency = m.latency; depth = m.queue.capacity; bytes = m.bytes.items; queue = m.queue.items; served = m.served } };

    ghost invariant = { λ m. IsMemory (record { top = m.top; period = m.period; base = m.base; latency = m.latency; depth = m.queue.capacity; bytes = m.bytes.items; queue = m.queue.items; served = m.served }) };
}

/// These bytes with zeros behind them.
#[tactic(auto, using(crate::specs::MemoryLaws::filled_from))]
fn filled(bytes: &[u8]) -> [u8; DATA_BYTES]
    requires { length bytes.now ≤ 64 }
    ensures { result ≡ filled bytes.now }
{
    let mut all = [0; DATA_BYTES];
    all[..bytes.len()].copy_from_slice(bytes);
    all
}

impl Memory {
    /// A memory with the bytes that it starts with, in which no request waits.
    pub fn open(alloc: Global, text: &MemoryText) -> Result<Memory, OutOfMemory>
        requires some { 1 ≤ text.now.period }
        requires short { text.now.period ≤ LONGEST_PERIOD }
        requires latency { text.now.latency ≤ LONGEST_LATENCY }
        requires depth { text.now.depth ≤ MOST_WAITING }
        requires size { text.now.size ≤ MOST_BYTES }
        requires bytes { length text.now.bytes ≡ text.now.size }
        requires within { text.now.base + text.now.size ≤ 2 ^ 32 }

        ensures { IfOk result (λ memory. memory ≡ opening text.now) }
    {
        let bytes = Vec::from_slice(alloc, text.bytes.items())?;
        let queue = HeapCircularBuffer::with_capacity(alloc, text.depth as usize)?;
        Ok(Memory {
            top: text.top,
            period: text.period,
            base: text.base,
            latency: text.latency,
            bytes,
            queue,
            served: 0,
        })
    }

    /// How many requests wait in it.
    pub fn queue(&self) -> u32
        ensures { result ≡ length self.now.queue }
    {
        self.queue.len() as u32
    }

    /// How many requests it has answered. The count stays at its greatest number.
    pub fn served(&self) -> u64
        ensures { result ≡ self.now.served }
    {
        self.served
    }

    /// The address of its first byte.
    pub fn base(&self) -> u32
        ensures { result ≡ self.now.base }
    {
        self.base
    }

    /// How many bytes it has.
    pub fn size(&self) -> u32
        ensures { result ≡ length self.now.bytes }
    {
        self.bytes.len() as u32
    }

    /// All its bytes, from the first address on.
    pub fn bytes(&self) -> &[u8]
        ensures { result.now ≡ self.now.bytes }
    {
        &self.bytes
    }

    /// The byte at an address, or None where that is outside the memory.
    pub fn byte(&self, addr: u32) -> Option<u8>
        ensures { result ≡ byte_at self.now addr }
    {
        let place = addr.checked_sub(self.base)?;
        self.bytes.get(place as usize).copied()
    }

    /// Whether a message is a read or a write of 1 to 64 bytes that all lie in the memory.
    fn accepts(&self, msg: &Msg) -> bool
        ensures { result ≡ accepts self.now.base (length self.now.bytes) msg.now }
    {
        matches!(msg.kind, MsgKind::Read | MsgKind::Write)
            && msg.len > 0
            && msg.len <= 64
            && msg.addr >= self.base
            && u64::from(msg.addr) + u64::from(msg.len)
                <= u64::from(self.base) + (self.bytes.len() as u64)
    }

    /// The bytes that a message is about, and zeros behind them.
    fn read(&self, request: &Msg) -> [u8; DATA_BYTES]
        requires { IsTrue (accepts self.now.base (length self.now.bytes) request.now) }
        ensures { result ≡ filled (read self.now request.now) }
    {
        let place = (request.addr - self.base) as usize;
        filled(&self.bytes[place..place + request.len as usize])
    }

    /// The answer to a read has the bytes as they are now.
    #[tactic(auto, unfolding(crate::specs::Memory::read_answer))]
    fn read_answer(&self, request: &Msg) -> Msg
        requires { IsTrue (accepts self.now.base (length self.now.bytes) request.now) }
        ensures { result ≡ read_answer self.now request.now }
    {
        Msg {
            id: request.id,
            src: self.top,
            dst: request.src,
            kind: MsgKind::ReadRsp,
            addr: request.addr,
            len: request.len,
            bytes: self.read(request),
        }
    }

    /// The answer to a write has no bytes.
    #[tactic(auto, unfolding(crate::specs::Memory::write_answer))]
    fn write_answer(&self, request: &Msg) -> Msg
        ensures { result ≡ write_answer self.now request.now }
    {
        Msg {
            id: request.id,
            src: self.top,
            dst: request.src,
            kind: MsgKind::WriteRsp,
            addr: request.addr,
            len: 0,
            bytes: [0; DATA_BYTES],
        }
    }

    /// The answer to a request: it has the request's id and address, and goes to where the request came from.
    fn answer(&self, request: &Msg) -> Msg
        requires { IsTrue (accepts self.now.base (length self.now.bytes) request.now) }
        ensures { result ≡ answer self.now request.now }
    {
        match request.kind {
            MsgKind::Write => self.write_answer(request),
            _ => self.read_answer(request),
        }
    }

    /// Stores the bytes of a write.
    fn store(&mut self, request: &Msg)
        requires { IsTrue (accepts self.old.base (length self.old.bytes) request.now) }
        ensures { self.new ≡ record self.old { bytes = stored self.old request.now } }
    {
        if let MsgKind::Write = request.kind {
            let place = (request.addr - self.base) as usize;
            let len = request.len as usize;
            self.bytes[place..place + len].copy_from_slice(&request.bytes[..len]);
        }
    }

    /// Where the deadline of the queue's head is not above the cycle and there is room, it is served.
    fn serve(&mut self, ports: &mut Ports, cycle: u64, recs: &mut RecList) -> bool
        requires port { 0 < length ports.old.ports }
        requires room { length recs.old.items < recs.old.room }

        ensures state { self.new ≡ (serve self.old (lone ports.old) cycle).state }
        ensures port { ports.new ≡ ports_after ports.old (serve self.old (lone ports.old) cycle) }
        ensures records { recs.new ≡ recs_after recs.old (serve self.old (lone ports.old) cycle) }
        ensures flag { result ≡ (serve self.old (lone ports.old) cycle).flag }
    {
        let Some(first) = self.queue.front().copied() else {
            return false;
        };
        if first.deadline > cycle {
            return false;
        }
        let answer = self.answer(&first.request);
        if ports.send(0, answer).is_err() {
            return false;
        }
        recs.push(What::Send(answer));
        self.store(&first.request);
        let _ = self.queue.pop_front();
        self.served = self.served.saturating_add(1);
        true
    }

    /// Where the queue is shorter than its depth and a request that it takes is at the head, it is taken and queued.
    fn take_request(&mut self, ports: &mut Ports, cycle: u64, recs: &mut RecList) -> bool
        requires port { 0 < length ports.old.ports }
        requires room { length recs.old.items < recs.old.room }
        requires time { cycle * self.old.period ≤ LATEST_TICK }

        ensures state { self.new ≡ (take_request cycle self.old (lone ports.old)).state }
        ensures port { ports.new ≡ ports_after ports.old (take_request cycle self.old (lone ports.old)) }
        ensures records { recs.new ≡ recs_after recs.old (take_request cycle self.old (lone ports.old)) }
        ensures flag { result ≡ (take_request cycle self.old (lone ports.old)).flag }
    {
        let Some(request) = ports.in_head(0) else {
            return false;
        };
        if !self.accepts(&request) {
            return false;
        }
        let deadline = cycle + u64::from(self.latency);
        let waiting = Waiting { request, deadline };
        if self.queue.try_push_back(waiting).is_err() {
            return false;
        }
        let _ = ports.in_take(0);
        recs.push(What::Take(request));
        true
    }
}

impl Actor for Memory {
    ghost use Rattle.mem_ctrl.specs.MemoryLaws.{memory_framed, memory_stays, memory_quiet, memory_due_later, memory_due_steady, memory_period_within};

    ghost machine = { memory };

    ghost valid = { IsMemory };

    fn tick<L: Ledger>(
        &mut self,
        ports: &mut Ports,
        cycle: u64,
        recs: &mut RecList,
        steps: &mut Steps<L>,
    ) -> bool {
        steps.charge();
        let answered = self.serve(ports, cycle, recs);
        let took = self.take_request(ports, cycle, recs);
        answered || took
    }

    fn due(&self, cycle: u64) -> Option<u64> {
        let deadline = self.queue.front()?.deadline;
        if deadline > cycle {
            Some(deadline)
        } else {
            None
        }
    }

    fn period(&self) -> u64 {
        self.period
    }

    fn done(&self) -> bool {
        self.queue.is_empty()
    }

    fn known(&self) {
        let _period = &self.period;
    }

    ghost framed = { memory_framed };

    ghost stays = { memory_stays };

    ghost quiet = { memory_quiet };

    ghost due_later = { memory_due_later };

    ghost due_steady = { memory_due_steady };

    ghost period_within = { memory_period_within };
}
