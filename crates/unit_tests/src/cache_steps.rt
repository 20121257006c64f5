ghost use Rattle.std.specs.Prelude.{◌+◌, ◌*◌};
ghost use Rattle.cache_comp.specs.Cache.{cache};
ghost use Rattle.std.specs.Prelude.{◌≡◌, ◌<◌, ◌≤◌, [], ◌∷◌, length, IfOk, All, AllPairs};
ghost use Rattle.addr_map.specs.Range.{IsRange, Apart};

use addr_map::{Range, Ranges, Targets};
use cache_comp::{Cache, CacheText};
use port_msg::{DATA_BYTES, Msg, MsgId, MsgKind, Port, RecList};
use port_row::Ports;
use sim_base::{ActorNo, OutOfMemory, PartNo, PortList, PortNo, Steps};
use std::alloc::Global;
use std::marker::Brand;
use std::sync::ledger::{Blank, Ledger};
use tick_law::Actor;

/// The port of the memory, which has the addresses 0 to 511.
const MEMORY: PortNo = PortNo(2);

/// How many bytes it has.
const SIZE: usize = 512;

/// The addresses of the memory.
fn memory_range(alloc: Global) -> Result<Range, OutOfMemory>
    ensures { IfOk result (λ range. range ≡ record
        { base = 0; size = 512; granule = 64; to = MEMORY ∷ [] }) }
{
    let to = Targets::of(Vec::from_slice(alloc, &[MEMORY])?);
    Ok(Range {
        base: 0,
        size: 512,
        granule: 64,
        to,
    })
}

/// The map of the memory.
fn memory_map(alloc: Global) -> Result<Ranges, OutOfMemory>
    ensures shape { IfOk result (λ ranges. All IsRange ranges) }
    ensures apart { IfOk result (λ ranges. AllPairs Apart ranges) }
{
    let range = memory_range(alloc)?;
    let mut ranges = Vec::new(alloc);
    ranges.push(range)?;
    Ok(Ranges::of(ranges))
}

/// A cache of one line of 64 bytes.
fn open_cache(alloc: Global, misses: u32) -> Result<Cache, OutOfMemory>
    requires { misses ≤ 8 }
{
    let text = CacheText {
        actor: ActorNo(0),
        period: 1000,
        top: PortNo(0),
        bottom: PortNo(1),
        map: memory_map(alloc)?,
        caches: PortList::of(Vec::new(alloc)),
        line: 64,
        sets: 1,
        ways: 1,
        misses,
    };
    Cache::open(alloc, &text)
}

/// A row of two ports with room for four messages each way.
fn open_row(alloc: Global) -> Result<Ports, OutOfMemory>
    ensures { IfOk result (λ row. length row.ports ≡ 2) }
{
    let mut ports = Vec::new(alloc);
    ports.push(Port::open(alloc, 4)?)?;
    ports.push(Port::open(alloc, 4)?)?;
    Ports::open(alloc, ports)
}

/// A request from above, whose 4 bytes are this number.
fn request(kind: MsgKind, addr: u32, len: u8, value: u32) -> Msg {
    let mut bytes = [0; DATA_BYTES];
    bytes[..4].copy_from_slice(&value.to_le_bytes());
    Msg {
        id: MsgId {
            part: PartNo(9),
            seq: 0,
        },
        src: PortNo(7),
        dst: PortNo(0),
        kind,
        addr,
        len,
        bytes,
    }
}

/// Brings requests to the port `top`, as many as it has room for.
fn deliver_all(ports: &mut Ports, requests: &[Msg]) {
    for message in requests {
        if ports.len() == 2 {
            let _ = ports.deliver(0, *message);
        }
    }
}

/// The answer of the memory.
fn answer(request: &Msg, memory: &mut [u8]) -> Msg {
    let (kind, len) = match request.kind {
        MsgKind::Read => (MsgKind::ReadRsp, request.len),
        _ => (MsgKind::WriteRsp, 0),
    };
    let mut bytes = [0; DATA_BYTES];
    for k in 0..usize::from(request.len) {
        let place = request.addr as usize + k;
        if place < memory.len() && k < DATA_BYTES {
            if len == 0 {
                memory[place] = request.bytes[k];
            } else {
                bytes[k] = memory[place];
            }
        }
    }
    Msg {
        id: request.id,
        src: request.dst,
        dst: request.src,
        kind,
        addr: request.addr,
        len,
        bytes,
    }
}

/// What a cache has sent: the kinds and addresses of its requests, and the kinds and first bytes of its answers.
#[derive(Drop)]
struct Sent {
    below: Vec<(MsgKind, u32)>,
    above: Vec<(MsgKind, u8)>,
}

/// What a cache has done: what it sent, its counts of hits and misses, and the memory's bytes at 256 and 320.
#[derive(Drop)]
struct After {
    sent: Sent,
    hits: u64,
    misses: u64,
    bytes: [u8; 2],
}

/// One step of the cache. What it sent is noted, and the memory answers a request.
fn turn<L: Ledger>(
    alloc: Global,
    cache: &mut Cache,
    ports: &mut Ports,
    memory: &mut [u8],
    sent: &mut Sent,
    steps: &mut Steps<L>,
) -> Result<(), OutOfMemory> {
    if ports.len() != 2 {
        return Ok(());
    }
    let mut recs = RecList::open(alloc, 128)?;
    let _ = cache.tick(ports, 0, &mut recs, steps);
    if let Some(request) = ports.out_take(1) {
        sent.below.push((request.kind, request.addr))?;
        let _ = ports.deliver(1, answer(&request, memory));
    }
    if let Some(answer) = ports.out_take(0) {
        sent.above.push((answer.kind, answer.bytes[0]))?;
    }
    Ok(())
}

/// A cache of one line that has room for so many misses answers these requests in 64 steps.
fn run_counted<L: Ledger>(
    alloc: Global,
    blank: Blank,
    misses: u32,
    requests: &[Msg],
) -> Result<After, OutOfMemory>
    requires name { blank.name ≡ L.name }
    requires parts { blank.parts ≡ L.parts }
    requires some { 0 < blank.parts }
    requires misses { misses ≤ 8 }
{
    let mut steps = Steps::<L>::open(blank);
    let mut memory = [0; SIZE];
    let mut cache = open_cache(alloc, misses)?;
    let mut ports = open_row(alloc)?;
    let mut sent = Sent {
        below: Vec::new(alloc),
        above: Vec::new(alloc),
    };
    deliver_all(&mut ports, requests);
    for _ in 0..64 {
        turn(
            alloc,
            &mut cache,
            &mut ports,
            &mut memory,
            &mut sent,
            &mut steps,
        )?;
    }
    Ok(After {
        sent,
        hits: cache.hits(),
        misses: cache.misses(),
        bytes: [memory[256], memory[320]],
    })
}

/// The same with a counter of its own.
fn run(alloc: Global, misses: u32, requests: &[Msg]) -> Result<After, OutOfMemory>
    requires { misses ≤ 8 }
{
    run_counted::<Brand>(alloc, Blank::new(1), misses, requests)
}

/// Two lines share one place: the first goes down before the second comes, and a flush writes the second down.
#[test]
fn a_written_line_goes_down_before_another_takes_its_place(
    rt: HostRuntime,
) -> Result<(), OutOfMemory> {
    let alloc = rt.alloc();
    let requests = [
        request(MsgKind::Write, 256, 4, 7),
        request(MsgKind::Write, 320, 4, 9),
        request(MsgKind::Read, 320, 1, 0),
        request(MsgKind::Flush, 0, 0, 0),
    ];
    let below = [
        (MsgKind::Read, 256),
        (MsgKind::Write, 256),
        (MsgKind::Read, 320),
        (MsgKind::Write, 320),
    ];
    let above = [
        (MsgKind::WriteRsp, 0),
        (MsgKind::WriteRsp, 0),
        (MsgKind::ReadRsp, 9),
        (MsgKind::FlushRsp, 0),
    ];
    for after in [run(alloc, 1, &requests)?, run(alloc, 2, &requests)?] {
        assert!(rt; after.sent.below.as_slice() == below.as_slice());
        assert!(rt; after.sent.above.as_slice() == above.as_slice());
        assert_eq!(rt; (after.hits, after.misses), (1, 2));
        assert_eq!(rt; after.bytes, [7, 9]);
    }
    Ok(())
}
