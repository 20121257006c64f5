ghost use Rattle.std.specs.Prelude.{◌≡◌, IfOk};
ghost use Rattle.addr_map.specs.Range.{range_of};

use addr_map::{AddrMap, Range, Targets};
use sim_base::{OutOfMemory, PortNo};
use std::alloc::Global;

fn range(
    alloc: Global,
    base: u32,
    size: u64,
    granule: u32,
    to: &[PortNo],
) -> Result<Range, OutOfMemory>
    ensures { IfOk result (λ range. range ≡ range_of base size granule to.now) }
{
    let to = Targets::of(Vec::from_slice(alloc, to)?);
    Ok(Range {
        base,
        size,
        granule,
        to,
    })
}

#[test]
fn addresses_go_to_the_targets_in_turn(rt: HostRuntime) -> Result<(), OutOfMemory> {
    let alloc = rt.alloc();
    let four = [PortNo(5), PortNo(2), PortNo(9), PortNo(7)];
    let one = [PortNo(1)];
    let mut ranges = Vec::new(alloc);
    ranges.push(range(alloc, 4096, 128, 4096, &one)?)?;
    ranges.push(range(alloc, 192, 640, 64, &four)?)?;
    let map = AddrMap::open(alloc, &ranges)?;
    let rows = [
        (0, None),
        (191, None),
        (192, Some(5)),
        (255, Some(5)),
        (256, Some(2)),
        (383, Some(9)),
        (384, Some(7)),
        (448, Some(5)),
        (831, Some(2)),
        (832, None),
        (4095, None),
        (4096, Some(1)),
        (4223, Some(1)),
        (4224, None),
        (4_294_967_295, None),
    ];
    for (addr, port) in rows {
        assert_eq!(rt; map.find(addr), port.map(PortNo));
    }
    Ok(())
}
