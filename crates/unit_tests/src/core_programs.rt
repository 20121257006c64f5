ghost use Rattle.rv_core.specs.Core.{core};
ghost use Rattle.std.specs.Prelude.{◌≡◌, ◌<◌, ◌≤◌, [], ◌∷◌, length, IfOk, All, AllPairs};
ghost use Rattle.addr_map.specs.Range.{IsRange, Apart};

use addr_map::{Range, Ranges, Targets};
use port_msg::{Cause, DATA_BYTES, Msg, MsgKind, Port, RecList, What};
use port_row::Ports;
use rv_core::{Core, CoreText};
use sim_base::{ActorNo, OutOfMemory, PortList, PortNo, Steps};
use std::alloc::Global;
use std::marker::Brand;
use std::sync::ledger::{Blank, Ledger};
use tick_law::Actor;

/// The port of the memory, which has the addresses 0 to 511.
const MEMORY: PortNo = PortNo(2);

/// How many bytes it has.
const SIZE: usize = 512;

/// What a program leaves: why the core halted and where, how many instructions retired, x10, the byte that was written
/// last, the word at 256, and how many requests were answered.
#[derive(Clone, Copy, Debug, PartialEq, Eq)]
struct After {
    cause: Option<Cause>,
    pc: u32,
    retired: u64,
    x10: u32,
    out: Option<u8>,
    word: [u8; 4],
    served: u32,
}

/// The addresses of the memory.
fn memory_range(alloc: Global) -> Result<Range, OutOfMemory>
    ensures { IfOk result (λ range. range ≡ record { base = 0; size = 512; granule = 64; to = MEMORY ∷ [] }) }
{
    let to = Targets::of(Vec::from_slice(alloc, &[MEMORY])?);
    Ok(Range {
        base: 0,
        size: 512,
        granule: 64,
        to,
    })
}

/// The map of the memory.
fn memory_map(alloc: Global) -> Result<Ranges, OutOfMemory>
    ensures shape { IfOk result (λ ranges. All IsRange ranges) }
    ensures apart { IfOk result (λ ranges. AllPairs Apart ranges) }
{
    let range = memory_range(alloc)?;
    let mut ranges = Vec::new(alloc);
    ranges.push(range)?;
    Ok(Ranges::of(ranges))
}

fn open_core(alloc: Global, caches: &[PortNo]) -> Result<Core, OutOfMemory> {
    let text = CoreText {
        actor: ActorNo(0),
        period: 1000,
        inst_port: PortNo(0),
        data_port: PortNo(1),
        inst_map: memory_map(alloc)?,
        data_map: memory_map(alloc)?,
        caches: PortList::of(Vec::from_slice(alloc, caches)?),
        pc: 0,
    };
    Core::open(alloc, &text)
}

/// A row of two ports with room for one message each way.
fn open_row(alloc: Global) -> Result<Ports, OutOfMemory>
    ensures { IfOk result (λ row. length row.ports ≡ 2) }
{
    let mut ports = Vec::new(alloc);
    ports.push(Port::open(alloc, 1)?)?;
    ports.push(Port::open(alloc, 1)?)?;
    Ports::open(alloc, ports)
}

/// The answer of the memory, or of a cache that has nothing to write down.
fn answer(request: &Msg, memory: &mut [u8]) -> Msg {
    let (kind, len) = match request.kind {
        MsgKind::Read => (MsgKind::ReadRsp, request.len),
        MsgKind::Write => (MsgKind::WriteRsp, 0),
        _ => (MsgKind::FlushRsp, 0),
    };
    let mut bytes = [0; DATA_BYTES];
    for k in 0..usize::from(request.len) {
        let place = request.addr as usize + k;
        if place < memory.len() && k < DATA_BYTES {
            if len == 0 {
                memory[place] = request.bytes[k];
            } else {
                bytes[k] = memory[place];
            }
        }
    }
    Msg {
        id: request.id,
        src: request.dst,
        dst: request.src,
        kind,
        addr: request.addr,
        len,
        bytes,
    }
}

/// Answers what was sent by one port, and tells how many requests that were.
fn serve(ports: &mut Ports, place: usize, memory: &mut [u8]) -> u32
    requires { place < length ports.old.ports }
    ensures long { length ports.new.ports ≡ length ports.old.ports }
    ensures few { result ≤ 1 }
{
    let Some(request) = ports.out_take(place) else {
        return 0;
    };
    let _ = ports.deliver(place, answer(&request, memory));
    1
}

/// The byte that was written in a step.
fn written(recs: &RecList) -> Option<u8> {
    for record in recs.items() {
        if let What::Out(byte) = record.what {
            return Some(byte);
        }
    }
    None
}

/// One step of the core, and the answers to what it sent: the byte that was written, and how many answers there were.
fn turn<L: Ledger>(
    alloc: Global,
    core: &mut Core,
    ports: &mut Ports,
    memory: &mut [u8],
    steps: &mut Steps<L>,
) -> Result<(Option<u8>, u32), OutOfMemory> {
    if ports.len() != 2 {
        return Ok((None, 0));
    }
    let mut recs = RecList::open(alloc, 128)?;
    let _ = core.tick(ports, 0, &mut recs, steps);
    let fetched = serve(ports, 0, memory);
    let served = fetched + serve(ports, 1, memory);
    Ok((written(&recs), served))
}

/// The memory with these words from address 0 on.
fn memory_of(words: &[u32]) -> [u8; SIZE] {
    let mut memory = [0; SIZE];
    for (k, word) in words.iter().enumerate() {
        if k < 64 {
            memory[4 * k..4 * k + 4].copy_from_slice(&word.to_le_bytes());
        }
    }
    memory
}

/// Runs a program from address 0 on, for at most 64 steps.
fn run_counted<L: Ledger>(
    alloc: Global,
    blank: Blank,
    words: &[u32],
    caches: &[PortNo],
) -> Result<After, OutOfMemory>
    requires name { blank.name ≡ L.name }
    requires parts { blank.parts ≡ L.parts }
    requires some { 0 < blank.parts }
{
    let mut steps = Steps::<L>::open(blank);
    let mut memory = memory_of(words);
    let mut core = open_core(alloc, caches)?;
    let mut ports = open_row(alloc)?;
    let mut out = None;
    let mut served: u32 = 0;
    for _ in 0..64 {
        let (byte, answers) = turn(alloc, &mut core, &mut ports, &mut memory, &mut steps)?;
        out = byte.or(out);
        served = served.wrapping_add(answers);
    }
    Ok(After {
        cause: core.cause(),
        pc: core.pc(),
        retired: core.retired(),
        x10: core.reg(10),
        out,
        word: [memory[256], memory[257], memory[258], memory[259]],
        served,
    })
}

/// The same with a counter of its own.
fn run(alloc: Global, words: &[u32], caches: &[PortNo]) -> Result<After, OutOfMemory> {
    run_counted::<Brand>(alloc, Blank::new(1), words, caches)
}

#[test]
fn a_program_reads_and_writes_and_ends(rt: HostRuntime) -> Result<(), OutOfMemory> {
    let words = [
        0xff80_0293,
        0x4012_d313,
        0xfff2_b393,
        0x00a3_0513,
        0x0075_0533,
        0x1040_0113,
        0xfea1_2e23,
        0xffc1_2503,
        0x05d0_0893,
        0x02d0_0093,
        0x0000_8067,
        0x0000_0073,
    ];
    let after = run(rt.alloc(), &words, &[])?;
    let expected = After {
        cause: Some(Cause::Exit(7)),
        pc: 0x2c,
        retired: 12,
        x10: 7,
        out: None,
        word: [7, 0, 0, 0],
        served: 14,
    };
    assert_eq!(rt; after, expected);
    Ok(())
}

/// What each program leaves: its words, why it halted and where, how many instructions retired, and how many requests
/// were answered.
#[test]
fn a_halt_keeps_pc_at_its_instruction(rt: HostRuntime) -> Result<(), OutOfMemory> {
    let alloc = rt.alloc();
    let rows = [
        (
            [0x0020_0093, 0x0000_a103, 0],
            Cause::MisalignedLoad,
            4,
            1,
            2,
        ),
        ([0x8000_00b7, 0x0000_a023, 0], Cause::UnmappedStore, 4, 1, 2),
        ([0x0000_0001, 0, 0], Cause::Illegal, 0, 0, 1),
        (
            [0x0010_0093, 0x0000_9023, 0],
            Cause::MisalignedStore,
            4,
            1,
            2,
        ),
        ([0x8000_00b7, 0x0000_a103, 0], Cause::UnmappedLoad, 4, 1, 2),
        ([0x0010_0073, 0, 0], Cause::Break, 0, 0, 1),
        ([0x0020_0893, 0x0000_0073, 0], Cause::BadCall, 4, 1, 2),
        (
            [0x0060_0093, 0x0000_8067, 0],
            Cause::MisalignedJump,
            4,
            1,
            2,
        ),
        (
            [0x4000_0093, 0x0000_8067, 0],
            Cause::UnmappedFetch,
            0x400,
            2,
            2,
        ),
    ];
    for (words, cause, pc, retired, served) in rows {
        let after = run(alloc, &words, &[])?;
        assert_eq!(rt; after.cause, Some(cause));
        assert_eq!(rt; after.pc, pc, "{cause:?}");
        assert_eq!(rt; after.retired, retired, "{cause:?}");
        assert_eq!(rt; after.served, served, "{cause:?}");
    }
    Ok(())
}

/// The byte is the low one of x10, and the call retires.
#[test]
fn a_byte_is_written(rt: HostRuntime) -> Result<(), OutOfMemory> {
    let words = [0x0410_0513, 0x0010_0893, 0x73, 0x05d0_0893, 0x73];
    let after = run(rt.alloc(), &words, &[])?;
    assert_eq!(rt; after.out, Some(0x41));
    assert_eq!(rt; after.cause, Some(Cause::Exit(65)));
    assert_eq!(rt; (after.pc, after.retired, after.served), (0x10, 5, 5));
    Ok(())
}

/// A FENCE asks each cache once, or goes on where there is none.
#[test]
fn a_fence_flushes_the_caches(rt: HostRuntime) -> Result<(), OutOfMemory> {
    let alloc = rt.alloc();
    let words = [
        0x1000_0313,
        0x0063_2023,
        0x0463_2023,
        0x0ff0_000f,
        0x05d0_0893,
        0x0000_0073,
    ];
    let two = [PortNo(7), PortNo(5)];
    for (caches, served) in [(&two[..0], 8), (&two[..1], 9), (&two[..], 10)] {
        let after = run(alloc, &words, caches)?;
        assert_eq!(rt; after.cause, Some(Cause::Exit(0)));
        assert_eq!(rt; (after.pc, after.retired, after.served), (0x14, 6, served));
    }
    Ok(())
}
