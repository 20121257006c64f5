ghost use Rattle.std.specs.Prelude.{◌≡◌, ◌*◌, ◌<◌, ◌≤◌, [], ◌∷◌, length, IfOk};
ghost use Rattle.addr_map.specs.Range.{range_of};

use addr_map::{Range, Ranges, Targets};
use mem_ctrl::{Memory, MemoryText};
use port_msg::{DATA_BYTES, Msg, MsgId, MsgKind, Port, RecList, What};
use port_row::Ports;
use sim_base::{
    ActorNo, Body, LATEST_TICK, LONGEST_PERIOD, Mode, OutOfMemory, PartNo, PortNo, Steps,
};
use std::alloc::Global;
use std::marker::Brand;
use std::sync::ledger::{Blank, Ledger};
use tick_law::Actor;
use traffic_parts::{Agent, AgentText};

/// The addresses from 0 to 511, at one port.
fn ranges_to(alloc: Global, to: PortNo) -> Result<Ranges, OutOfMemory>
    ensures { IfOk result (λ ranges. ranges ≡ range_of 0 512 64 (to ∷ []) ∷ []) }
{
    let mut targets = Vec::new(alloc);
    targets.push(to)?;
    let mut ranges = Vec::new(alloc);
    ranges.push(Range {
        base: 0,
        size: 512,
        granule: 64,
        to: Targets::of(targets),
    })?;
    Ok(Ranges::of(ranges))
}

/// An agent at port 0 that asks for 64 bytes at port 1.
fn open_agent(alloc: Global, period: u64, count: u32, mode: Mode) -> Result<Agent, OutOfMemory>
    requires some { 1 ≤ period }
    requires short { period ≤ LONGEST_PERIOD }
    requires count { count ≤ 1000000 }
{
    let text = AgentText {
        actor: ActorNo(0),
        period,
        io: PortNo(0),
        map: ranges_to(alloc, PortNo(1))?,
        base: 0,
        span: 64,
        count,
        window: 3,
        gap: 1,
        start: 0,
        mode,
        draw: 1,
    };
    Agent::open(alloc, &text)
}

/// A memory of 512 bytes at port 1, all of them 7, in which one request can wait.
fn open_memory(alloc: Global, period: u64, base: u32, latency: u32) -> Result<Memory, OutOfMemory>
    requires some { 1 ≤ period }
    requires short { period ≤ LONGEST_PERIOD }
    requires base { base ≤ 1000000 }
    requires latency { latency ≤ 1000000 }
{
    let bytes: Vec<u8> = vec![in alloc; 7; 512]?;
    let text = MemoryText {
        actor: ActorNo(1),
        period,
        top: PortNo(1),
        base,
        size: 512,
        latency,
        depth: 1,
        bytes: Body::of(bytes),
    };
    Memory::open(alloc, &text)
}

/// A row of one port with room for one message.
fn open_row(alloc: Global) -> Result<Ports, OutOfMemory>
    ensures { IfOk result (λ row. length row.ports ≡ 1) }
{
    let mut ports = Vec::new(alloc);
    ports.push(Port::open(alloc, 1)?)?;
    Ports::open(alloc, ports)
}

/// The first thing that an actor with one port does in a step at a cycle, or None where it has no edge.
fn first_done<A: Actor, L: Ledger>(
    alloc: Global,
    actor: &mut A,
    ports: &mut Ports,
    cycle: Option<u64>,
    steps: &mut Steps<L>,
) -> Result<Option<What>, OutOfMemory>
    requires own { A.machine.own actor.old ≡ 1 }
    requires one { length ports.old.ports ≡ 1 }
    ensures { length ports.new.ports ≡ 1 }
{
    let Some(cycle) = cycle else {
        return Ok(None);
    };
    if cycle.saturating_mul(actor.period()) > LATEST_TICK {
        return Ok(None);
    }
    let mut recs = RecList::open(alloc, 64)?;
    let _ = actor.tick(ports, cycle, &mut recs, steps);
    match recs.items() {
        [first, ..] => Ok(Some(first.what)),
        [] => Ok(None),
    }
}

/// Moves a message from one port to another, where there is one and room.
fn carry(from: &mut Ports, to: &mut Ports)
    requires from { length from.old.ports ≡ 1 }
    requires to { length to.old.ports ≡ 1 }
    ensures from { length from.new.ports ≡ 1 }
    ensures to { length to.new.ports ≡ 1 }
{
    if let Some(msg) = from.out_head(0) {
        if to.deliver(0, msg).is_ok() {
            let _ = from.out_take(0);
        }
    }
}

/// The times at which an actor sent and took.
#[derive(Drop)]
struct Times {
    sent: Vec<u64>,
    taken: Vec<u64>,
}

impl Times {
    fn note(&mut self, time: u64, done: Option<What>) -> Result<(), OutOfMemory> {
        match done {
            Some(What::Send(_)) => self.sent.push(time)?,
            Some(What::Take(_)) => self.taken.push(time)?,
            _ => {}
        }
        Ok(())
    }
}

/// An agent and a memory, each with its port, and their times.
#[derive(Drop)]
struct Pair {
    agent: Agent,
    io: Ports,
    agent_times: Times,
    memory: Memory,
    top: Ports,
    memory_times: Times,
}

fn no_times(alloc: Global) -> Times {
    Times {
        sent: Vec::new(alloc),
        taken: Vec::new(alloc),
    }
}

/// The cycle of a clock that has an edge at each of so many times, or None between its edges.
fn cycle_at(time: u64, every: u64) -> Option<u64>
    requires { 0 < every }
{
    if time % every == 0 {
        Some(time / every)
    } else {
        None
    }
}

impl Pair {
    fn open(alloc: Global, agent: Agent, memory: Memory) -> Result<Pair, OutOfMemory>
        ensures io { IfOk result (λ pair. length pair.io.ports ≡ 1) }
        ensures top { IfOk result (λ pair. length pair.top.ports ≡ 1) }
    {
        let io = open_row(alloc)?;
        let top = open_row(alloc)?;
        Ok(Pair {
            agent,
            io,
            agent_times: no_times(alloc),
            memory,
            top,
            memory_times: no_times(alloc),
        })
    }

    fn step_agent<L: Ledger>(
        &mut self,
        alloc: Global,
        time: u64,
        steps: &mut Steps<L>,
    ) -> Result<(), OutOfMemory>
        requires { length self.old.io.ports ≡ 1 }
        ensures io { length self.new.io.ports ≡ 1 }
        ensures top { self.new.top ≡ self.old.top }
    {
        let done = first_done(alloc, &mut self.agent, &mut self.io, Some(time), steps)?;
        self.agent_times.note(time, done)
    }

    fn step_memory<L: Ledger>(
        &mut self,
        alloc: Global,
        time: u64,
        every: u64,
        steps: &mut Steps<L>,
    ) -> Result<(), OutOfMemory>
        requires top { length self.old.top.ports ≡ 1 }
        requires every { 0 < every }
        ensures top { length self.new.top.ports ≡ 1 }
        ensures io { self.new.io ≡ self.old.io }
    {
        let cycle = cycle_at(time, every);
        let done = first_done(alloc, &mut self.memory, &mut self.top, cycle, steps)?;
        self.memory_times.note(time, done)
    }

    /// Carries a message from each port to the other.
    fn carry_both(&mut self)
        requires io { length self.old.io.ports ≡ 1 }
        requires top { length self.old.top.ports ≡ 1 }
        ensures io { length self.new.io.ports ≡ 1 }
        ensures top { length self.new.top.ports ≡ 1 }
    {
        carry(&mut self.io, &mut self.top);
        carry(&mut self.top, &mut self.io);
    }
}

/// Steps an agent at each time and a memory at each tenth or each, and carries messages after both.
fn run_both<L: Ledger>(
    alloc: Global,
    blank: Blank,
    pair: &mut Pair,
    every: u64,
    end: u64,
) -> Result<(), OutOfMemory>
    requires name { blank.name ≡ L.name }
    requires parts { blank.parts ≡ L.parts }
    requires some { 0 < blank.parts }
    requires every { 0 < every }
    requires io { length pair.old.io.ports ≡ 1 }
    requires top { length pair.old.top.ports ≡ 1 }
{
    let mut steps = Steps::<L>::open(blank);
    for time in 0..end {
        pair.step_agent(alloc, time, &mut steps)?;
        pair.step_memory(alloc, time, every, &mut steps)?;
        pair.carry_both();
    }
    Ok(())
}

#[test]
fn an_agent_waits_for_room_in_a_slow_memory(rt: HostRuntime) -> Result<(), OutOfMemory> {
    let alloc = rt.alloc();
    let agent = open_agent(alloc, 1, 3, Mode::Read)?;
    let memory = open_memory(alloc, 10, 0, 1)?;
    let mut pair = Pair::open(alloc, agent, memory)?;
    run_both::<Brand>(alloc, Blank::new(1), &mut pair, 10, 50)?;
    let (agent, memory) = (&pair.agent, &pair.memory);
    assert_eq!(rt; pair.agent_times.sent.as_slice(), [0, 1, 11].as_slice());
    assert_eq!(rt; pair.agent_times.taken.as_slice(), [21, 31, 41].as_slice());
    assert_eq!(rt; agent.issued(), 3);
    assert_eq!(rt; agent.answered(), agent.count());
    assert_eq!(rt; agent.sum(), 3 * 0x0707_0707);
    assert_eq!(rt; agent.next(), 12);
    assert_eq!(rt; memory.served(), 3);
    assert_eq!(rt; memory.queue(), 0);
    assert!(rt; agent.done() && memory.done());
    Ok(())
}

#[test]
fn a_request_is_served_the_latency_after_it_was_taken(rt: HostRuntime) -> Result<(), OutOfMemory> {
    let alloc = rt.alloc();
    let agent = open_agent(alloc, 1000, 1, Mode::Read)?;
    let memory = open_memory(alloc, 1000, 0, 1000)?;
    let mut pair = Pair::open(alloc, agent, memory)?;
    run_both::<Brand>(alloc, Blank::new(1), &mut pair, 1, 1003)?;
    assert_eq!(rt; pair.agent_times.sent.as_slice(), [0].as_slice());
    assert_eq!(rt; pair.memory_times.taken.as_slice(), [1].as_slice());
    assert_eq!(rt; pair.memory_times.sent.as_slice(), [1001].as_slice());
    assert_eq!(rt; pair.agent_times.taken.as_slice(), [1002].as_slice());
    Ok(())
}

/// The first thing that an agent does at cycle 0.
fn first_request<L: Ledger>(
    alloc: Global,
    blank: Blank,
    agent: &mut Agent,
) -> Result<Option<What>, OutOfMemory>
    requires name { blank.name ≡ L.name }
    requires parts { blank.parts ≡ L.parts }
    requires some { 0 < blank.parts }
{
    let mut steps = Steps::<L>::open(blank);
    let mut io = open_row(alloc)?;
    first_done(alloc, agent, &mut io, Some(0), &mut steps)
}

#[test]
fn the_first_write_has_the_drawn_word(rt: HostRuntime) -> Result<(), OutOfMemory> {
    let alloc = rt.alloc();
    let mut agent = open_agent(alloc, 1, 1, Mode::Write)?;
    let done = first_request::<Brand>(alloc, Blank::new(1), &mut agent)?;
    let mut bytes = [0; DATA_BYTES];
    bytes[0] = 0x6c;
    bytes[1] = 0x59;
    bytes[2] = 0x88;
    bytes[3] = 0x3c;
    let request = Msg {
        id: MsgId {
            part: PartNo(0),
            seq: 0,
        },
        src: PortNo(0),
        dst: PortNo(1),
        kind: MsgKind::Write,
        addr: 0x24,
        len: 4,
        bytes,
    };
    assert!(rt; done == Some(What::Send(request)));
    Ok(())
}

/// The answer of a memory to a message, or None where it stays at the head.
fn answer_to<L: Ledger>(
    alloc: Global,
    blank: Blank,
    memory: &mut Memory,
    msg: Msg,
) -> Result<Option<Msg>, OutOfMemory>
    requires name { blank.name ≡ L.name }
    requires parts { blank.parts ≡ L.parts }
    requires some { 0 < blank.parts }
{
    let mut steps = Steps::<L>::open(blank);
    let mut top = open_row(alloc)?;
    let _ = top.deliver(0, msg);
    let _ = first_done(alloc, memory, &mut top, Some(0), &mut steps)?;
    let _ = first_done(alloc, memory, &mut top, Some(1), &mut steps)?;
    Ok(top.out_head(0))
}

fn message(kind: MsgKind, addr: u32, len: u8) -> Msg {
    Msg {
        id: MsgId {
            part: PartNo(3),
            seq: 5,
        },
        src: PortNo(0),
        dst: PortNo(1),
        kind,
        addr,
        len,
        bytes: [9; DATA_BYTES],
    }
}

#[test]
fn only_reads_and_writes_of_its_bytes_are_answered(rt: HostRuntime) -> Result<(), OutOfMemory> {
    let alloc = rt.alloc();
    let rows = [
        (MsgKind::Read, 64, 4, Some((MsgKind::ReadRsp, 4))),
        (MsgKind::Read, 572, 4, Some((MsgKind::ReadRsp, 4))),
        (MsgKind::Read, 512, 64, Some((MsgKind::ReadRsp, 64))),
        (MsgKind::Write, 64, 1, Some((MsgKind::WriteRsp, 0))),
        (MsgKind::Read, 573, 4, None),
        (MsgKind::Read, 63, 4, None),
        (MsgKind::Read, 64, 0, None),
        (MsgKind::Read, 64, 65, None),
        (MsgKind::Write, 4_294_967_295, 4, None),
        (MsgKind::ReadRsp, 64, 4, None),
        (MsgKind::Flush, 64, 4, None),
        (MsgKind::Token, 64, 4, None),
    ];
    for (kind, addr, len, expected) in rows {
        let mut memory = open_memory(alloc, 1, 64, 1)?;
        let answer = answer_to::<Brand>(
            alloc,
            Blank::new(1),
            &mut memory,
            message(kind, addr, len),
        )?;
        assert!(rt; answer.map(|msg| (msg.kind, msg.len)) == expected);
    }
    Ok(())
}

#[test]
fn a_write_changes_its_bytes_alone(rt: HostRuntime) -> Result<(), OutOfMemory> {
    let alloc = rt.alloc();
    let mut memory = open_memory(alloc, 1, 64, 1)?;
    let write = message(MsgKind::Write, 100, 2);
    let _ = answer_to::<Brand>(alloc, Blank::new(1), &mut memory, write)?;
    let rows = [
        (63, None),
        (64, Some(7)),
        (99, Some(7)),
        (100, Some(9)),
        (101, Some(9)),
        (102, Some(7)),
        (575, Some(7)),
        (576, None),
    ];
    for (addr, byte) in rows {
        assert_eq!(rt; memory.byte(addr), byte);
    }
    assert_eq!(rt; memory.base(), 64);
    assert_eq!(rt; memory.size(), 512);
    Ok(())
}
