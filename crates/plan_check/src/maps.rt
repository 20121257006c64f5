ghost use Rattle.std.specs.Prelude.{◌≡◌, None, map, slice_get, Some, IfOk, All, AllPairs};
ghost use Rattle.sim_config.specs.Tables.{RangeTable};
ghost use Rattle.addr_map.specs.Range.{IsRange, Apart};
ghost use Rattle.plan_rules.specs.First.{first_broken};
ghost use Rattle.plan_rules.specs.Text.{range_targets, ranges_at};
ghost use Rattle.plan_check.specs.Maps.{port_to, map_of, range_of};
ghost use Rattle.plan_check.specs.Plan.{second_port};

use addr_map::{AddrMap, Range, Ranges, Targets};
use plan_rules::Numbered;
use sim_base::{Name, OutOfMemory, PortNo};
use sim_config::RangeText;
use std::alloc::Global;

/// The port at which what is sent to a part comes in, 0 where there is no such part.
pub(crate) fn port_to(plan: &Numbered, part: Option<usize>) -> PortNo
    ensures { result ≡ port_to plan.now part }
{
    match part {
        Some(part) => PortNo(plan.first_port(part)),
        None => PortNo(0),
    }
}

/// The second port of a part.
pub(crate) fn second_port(plan: &Numbered, part: usize) -> PortNo
    ensures { result ≡ second_port plan.now part }
{
    PortNo(plan.first_port(part) + 1)
}

fn ports_to(
    alloc: Global,
    plan: &Numbered,
    parts: &[Option<usize>],
) -> Result<Vec<PortNo>, OutOfMemory>
    ensures { IfOk result (λ v. v.items ≡ map (port_to plan.now) parts.now) }
{
    let mut ports = Vec::new(alloc);
    for part in parts {
        ports.push(port_to(plan, *part))?;
    }
    Ok(ports)
}

fn range_of(
    alloc: Global,
    plan: &Numbered,
    range: &RangeText,
    targets: &[Option<usize>],
) -> Result<Range, OutOfMemory>
    requires { targets.now ≡ range_targets plan.now range.now }

    ensures range { IfOk result (λ r. r ≡ range_of plan.now range.now) }
    ensures shape { IfOk result IsRange }
{
    let to = Targets::of(ports_to(alloc, plan, targets)?);
    Ok(Range {
        base: range.base,
        size: range.size,
        granule: range.granule,
        to,
    })
}

fn ranges_of(alloc: Global, plan: &Numbered, no: usize) -> Result<Vec<Range>, OutOfMemory>
    ensures ranges { IfOk result (λ v. v.items ≡ map (range_of plan.now) (ranges_at plan.now no)) }
    ensures shape { IfOk result (λ v. All IsRange v.items) }
{
    let mut ranges = Vec::new(alloc);
    for (place, range) in plan.ranges(no).iter().enumerate() {
        ranges.push(range_of(alloc, plan, range, plan.targets(no, place))?)?;
    }
    Ok(ranges)
}

/// The ranges of the map of a name.
pub(crate) fn map_of(alloc: Global, plan: &Numbered, name: &Name) -> Result<Ranges, OutOfMemory>
    requires { first_broken plan.now ≡ None }

    ensures map { IfOk result (λ ranges. ranges ≡ map_of plan.now name.now) }
    ensures shape { IfOk result (λ ranges. All IsRange ranges) }
    ensures apart { IfOk result (λ ranges. AllPairs Apart ranges) }
{
    match plan.map_no(name) {
        Some(no) => Ok(Ranges::of(ranges_of(alloc, plan, no)?)),
        None => Ok(Ranges::of(Vec::new(alloc))),
    }
}

/// The map of a name, which finds the port of an address.
pub(crate) fn addr_map(alloc: Global, plan: &Numbered, name: &Name) -> Result<AddrMap, OutOfMemory>
    requires { first_broken plan.now ≡ None }
    ensures { IfOk result (λ map. map ≡ map_of plan.now name.now) }
{
    let ranges = map_of(alloc, plan, name)?;
    AddrMap::open(alloc, ranges.items())
}
