ghost use Rattle.std.specs.Prelude.{◌≡◌, ◌<◌, ◌≤◌, [], ◌∷◌, IfOk};
ghost use Rattle.sim_base.specs.declared.time.TheConstants.{LATEST_TIME, LONGEST_PERIOD};
ghost use Rattle.part_kind.specs.Part.{part};
ghost use Rattle.part_kind.specs.LinkKind.{link};
ghost use Rattle.tick_law.specs.PlanView.{opening};

use addr_map::{Range, Ranges, Targets};
use direct_link::{Direct, DirectText};
use engine_rows::{Counted, counted_plan, pair_plan};
use mem_ctrl::{Memory, MemoryText};
use part_kind::{LinkKind, Part};
use phase_engine::{Engine, RunFault, run_plan};
use port_rows::World;
use ring_plan::ring_plan;
use run_gear::{Ending, Kept};
use sim_base::{ActorNo, Body, LinkNo, Mode, Name, OutOfMemory, PortList, PortNo, Steps, Time};
use sim_io::MemSink;
use std::alloc::Global;
use std::marker::Brand;
use std::sync::Arc;
use std::sync::atomic::{AtomicU64, Ordering};
use std::sync::ledger::{Blank, Ledger};
use tick_law::{Charter, Plan, Verdict};
use traffic_parts::{Agent, AgentText};

/// How a run ended, and how many ticks its actors had made by then.
#[derive(Drop)]
struct Ran {
    ending: Ending<Counted<Part>, Counted<LinkKind>>,
    ticks: u64,
}

fn run_counted<L: Ledger>(
    alloc: Global,
    blank: Blank,
    plan: Plan<Part, LinkKind>,
) -> Result<Ran, RunFault>
    requires name { blank.name ≡ L.name }
    requires parts { blank.parts ≡ L.parts }
    requires some { 0 < blank.parts }
{
    let ticks = Arc::new(alloc, AtomicU64::new(0)).map_err(|_| RunFault::OutOfMemory)?;
    let plan = counted_plan(alloc, plan, &ticks)?;
    let mut steps = Steps::<L>::open(blank);
    let mut sink = MemSink::of(Vec::new(alloc), Vec::new(alloc));
    let kept = Kept {
        all: false,
        stats: None,
    };
    let ending = run_plan(alloc, plan, kept, &mut sink, &mut steps)?;
    Ok(Ran {
        ending,
        ticks: ticks.load(Ordering::SeqCst),
    })
}

fn run(alloc: Global, plan: Plan<Part, LinkKind>) -> Result<Ran, RunFault> {
    run_counted::<Brand>(alloc, Blank::new(1), plan)
}

/// How many messages the first link has moved, or 0 where there is no link in its place.
fn moved(world: &World<Counted<Part>, Counted<LinkKind>>) -> u64 {
    match world.link(LinkNo(0)).map(|link| link.inner()) {
        Some(LinkKind::Direct(link)) => link.moved(),
        None => 0,
    }
}

#[test]
fn only_those_who_are_awake_tick_in_a_ring(rt: HostRuntime) -> Result<(), RunFault> {
    let alloc = rt.alloc();
    let rows = [
        (3, 20000, Verdict::Finished, 11000, 33),
        (1, 0, Verdict::Cut, 0, 2),
    ];
    for (relays, until, verdict, end, ticks) in rows {
        assert!(rt; relays >= 1 && relays <= 256 && until <= 20000);
        let ran = run(alloc, ring_plan(alloc, relays, Time(until))?)?;
        assert_eq!(rt; ran.ticks, ticks, "{relays} relays");
        assert_eq!(rt; ran.ending.verdict, verdict, "{relays} relays");
        assert_eq!(rt; ran.ending.end, Time(end), "{relays} relays");
    }
    Ok(())
}

/// The addresses from 0 to 63, at one port.
fn ranges_to(alloc: Global, to: PortNo) -> Result<Ranges, OutOfMemory>
    ensures { IfOk result (λ ranges. ranges ≡ (record { base = 0; size = 64; granule = 64; to = to ∷ [] }) ∷ []) }
{
    let mut targets = Vec::new(alloc);
    targets.push(to)?;
    let mut ranges = Vec::new(alloc);
    ranges.push(Range {
        base: 0,
        size: 64,
        granule: 64,
        to: Targets::of(targets),
    })?;
    Ok(Ranges::of(ranges))
}

/// What an agent of a row asks for, besides the addresses from 0 to 63.
#[derive(Clone, Copy)]
struct Asks {
    period: u64,
    count: u32,
    window: u32,
    gap: u32,
    mode: Mode,
    draw: u32,
}

/// One read, from cycle 0 of a clock of 1000 ps.
const ONE_READ: Asks = Asks {
    period: 1000,
    count: 1,
    window: 1,
    gap: 1,
    mode: Mode::Read,
    draw: 0,
};

/// The agent at the port of its number, which asks at another port.
fn open_agent(alloc: Global, no: u32, to: u32, asks: Asks) -> Result<Part, OutOfMemory>
    requires some { 1 ≤ asks.period }
    requires short { asks.period ≤ LONGEST_PERIOD }
    requires count { asks.count ≤ 1000000 }
    requires gap { asks.gap ≤ 1000000 }
    ensures { IfOk result (λ agent. part.own agent ≡ 1) }
{
    let text = AgentText {
        actor: ActorNo(no),
        period: asks.period,
        io: PortNo(no),
        map: ranges_to(alloc, PortNo(to))?,
        base: 0,
        span: 64,
        count: asks.count,
        window: asks.window,
        gap: asks.gap,
        start: 0,
        mode: asks.mode,
        draw: asks.draw,
    };
    Ok(Part::Agent(Agent::open(alloc, &text)?))
}

/// The memory of 64 bytes at port 1, in which four requests can wait.
fn open_memory(alloc: Global, period: u64, latency: u32) -> Result<Part, OutOfMemory>
    requires some { 1 ≤ period }
    requires short { period ≤ LONGEST_PERIOD }
    requires latency { latency ≤ 1000000 }
    ensures { IfOk result (λ memory. part.own memory ≡ 1) }
{
    let bytes: Vec<u8> = vec![in alloc; 0; 64]?;
    let text = MemoryText {
        actor: ActorNo(1),
        period,
        top: PortNo(1),
        base: 0,
        size: 64,
        latency,
        depth: 4,
        bytes: Body::of(bytes),
    };
    Ok(Part::Memory(Memory::open(alloc, &text)?))
}

/// The link of ports 0 and 1, with a period of 1000 ps.
fn open_link(alloc: Global) -> Result<LinkKind, OutOfMemory>
    ensures { IfOk result (λ l. link.own l ≡ 2) }
{
    let mut ports = Vec::new(alloc);
    ports.push(PortNo(0))?;
    ports.push(PortNo(1))?;
    let text = DirectText {
        actor: ActorNo(2),
        period: 1000,
        ports: PortList::of(ports),
    };
    Ok(LinkKind::Direct(Direct::open(alloc, &text)?))
}

/// The agent that asks, a memory of this period and latency, and the link between them.
fn agent_and_memory(
    alloc: Global,
    asks: Asks,
    period: u64,
    latency: u32,
    until: u64,
) -> Result<Plan<Part, LinkKind>, OutOfMemory>
    requires asks_some { 1 ≤ asks.period }
    requires asks_short { asks.period ≤ LONGEST_PERIOD }
    requires count { asks.count ≤ 1000000 }
    requires gap { asks.gap ≤ 1000000 }
    requires some { 1 ≤ period }
    requires short { period ≤ LONGEST_PERIOD }
    requires latency { latency ≤ 1000000 }
    requires until { until ≤ LATEST_TIME }
{
    let agent = open_agent(alloc, 0, 1, asks)?;
    let memory = open_memory(alloc, period, latency)?;
    let link = open_link(alloc)?;
    let name = Name::read(b"x").ok_or(OutOfMemory)?;
    pair_plan(alloc, agent, memory, link, name, Time(until))
}

#[test]
fn an_agent_sleeps_while_its_request_is_served(rt: HostRuntime) -> Result<(), RunFault> {
    let alloc = rt.alloc();
    let slow = run(
        alloc,
        agent_and_memory(alloc, ONE_READ, 1000, 1000, 2_000_000)?,
    )?;
    assert_eq!(rt; slow.ending.verdict, Verdict::Finished);
    assert_eq!(rt; slow.ending.end, Time(1_002_000));
    assert_eq!(rt; slow.ticks, 13);

    let write = Asks {
        mode: Mode::Write,
        draw: 1,
        ..ONE_READ
    };
    let write = run(alloc, agent_and_memory(alloc, write, 1000, 1, 10_000)?)?;
    assert_eq!(rt; write.ticks, 12);

    let rare = run(alloc, agent_and_memory(alloc, ONE_READ, 5000, 1, 20_000)?)?;
    assert_eq!(rt; rare.ending.verdict, Verdict::Finished);
    assert_eq!(rt; rare.ending.end, Time(11_000));
    assert_eq!(rt; rare.ticks, 12);
    assert_eq!(rt; moved(&rare.ending.world), 2);
    Ok(())
}

/// An agent that asks another one, which answers nothing.
fn agent_and_agent(alloc: Global) -> Result<Plan<Part, LinkKind>, OutOfMemory> {
    let asking = Asks {
        count: 2,
        window: 2,
        gap: 11,
        ..ONE_READ
    };
    let silent = Asks {
        period: 10_000,
        count: 0,
        ..ONE_READ
    };
    let first = open_agent(alloc, 0, 1, asking)?;
    let second = open_agent(alloc, 1, 0, silent)?;
    let link = open_link(alloc)?;
    let name = Name::read(b"x").ok_or(OutOfMemory)?;
    pair_plan(alloc, first, second, link, name, Time(15_000))
}

#[test]
fn an_agent_that_nobody_answers_is_stuck(rt: HostRuntime) -> Result<(), RunFault> {
    let alloc = rt.alloc();
    let ran = run(alloc, agent_and_agent(alloc)?)?;
    assert_eq!(rt; ran.ending.verdict, Verdict::Stuck);
    assert_eq!(rt; ran.ticks, 10);
    Ok(())
}

/// What an engine shows where it stops: its ending time, and how many messages its link has moved.
#[derive(Clone, Copy, Debug, PartialEq, Eq)]
struct Stop {
    end: Time,
    moved: u64,
}

/// What the engine of a plan shows behind one time, and then behind a later one.
fn two_stops<C: Charter<Counted<Part>, Counted<LinkKind>>, L: Ledger>(
    alloc: Global,
    blank: Blank,
    plan: Plan<Counted<Part>, Counted<LinkKind>>,
    first: Time,
    second: Time,
) -> Result<(Stop, Stop), OutOfMemory>
    requires plan { plan ≡ C.plan }
    requires start { C.start ≡ opening C.plan }
    requires order { first.0 ≤ second.0 }
    requires within { second.0 ≤ plan.until }
    requires name { blank.name ≡ L.name }
    requires parts { blank.parts ≡ L.parts }
    requires some { 0 < blank.parts }
{
    let mut steps = Steps::<L>::open(blank);
    let mut engine = Engine::<Counted<Part>, Counted<LinkKind>, C>::open(alloc, plan)?;
    engine.advance_to(first, &mut steps);
    let early = Stop {
        end: engine.end_time(),
        moved: moved(engine.world()),
    };
    engine.advance_to(second, &mut steps);
    let late = Stop {
        end: engine.end_time(),
        moved: moved(engine.world()),
    };
    Ok((early, late))
}

#[test]
fn an_engine_goes_on_from_where_it_stopped(rt: HostRuntime) -> Result<(), OutOfMemory> {
    let alloc = rt.alloc();
    let ticks = Arc::new(alloc, AtomicU64::new(0))?;
    let plan = counted_plan(alloc, ring_plan(alloc, 3, Time(20000))?, &ticks)?;
    let (early, late) = two_stops::<Brand, Brand>(
        alloc,
        Blank::new(1),
        plan,
        Time(5000),
        Time(20000),
    )?;
    let at_5000 = Stop {
        end: Time(5000),
        moved: 3,
    };
    let at_20000 = Stop {
        end: Time(11000),
        moved: 6,
    };
    assert_eq!(rt; early, at_5000);
    assert_eq!(rt; late, at_20000);
    assert_eq!(rt; ticks.load(Ordering::SeqCst), 33);
    Ok(())
}
