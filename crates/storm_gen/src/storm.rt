ghost use Rattle.std.specs.Prelude.{◌≡◌, ◌≤◌, [], ◌∷◌, ◌++◌, IfOk};
ghost use Rattle.storm_gen.specs.Storm.{each, storm_agent, storm_memory, storm_range, storm_map, storm_link, storm_plan};

use crate::names::{add_agent_ports, add_memory_ports, known_name, memory_names};
use crate::parts::{MOST_AGENTS, add_agents, add_memories};
use sim_base::{OutOfMemory, Time};
use sim_config::{LinkKeys, LinkText, ListOf, MapText, PartText, PlanText, RangeText};
use std::alloc::{AllocError, Global};

/// How many memories there are.
const MEMORIES: u32 = 4;

/// The greatest time that runs, in picoseconds.
const UNTIL: u64 = 1_000_000_000;

fn list_of_one<T: Drop>(alloc: Global, item: T) -> Result<ListOf<T>, AllocError>
    ensures { IfOk result (λ list. list ≡ item ∷ []) }
{
    let mut items = Vec::with_capacity(alloc, 1)?;
    items.push(item)?;
    Ok(ListOf::of(items))
}

fn storm_range(alloc: Global) -> Result<RangeText, OutOfMemory>
    ensures { IfOk result (λ range. range ≡ storm_range) }
{
    let to = memory_names(alloc, MEMORIES)?;
    Ok(RangeText {
        base: 0,
        size: 65536,
        to: ListOf::of(to),
        granule: 64,
    })
}

fn storm_map(alloc: Global) -> Result<MapText, OutOfMemory>
    ensures { IfOk result (λ map. map ≡ storm_map) }
{
    let range = storm_range(alloc)?;
    Ok(MapText {
        name: known_name(b"all")?,
        ranges: list_of_one(alloc, range)?,
    })
}

fn storm_link(alloc: Global, agents: u32) -> Result<LinkText, OutOfMemory>
    requires { agents ≤ MOST_AGENTS }
    ensures { IfOk result (λ link. link ≡ storm_link agents) }
{
    let mut ports = Vec::new(alloc);
    add_agent_ports(alloc, &mut ports, agents)?;
    add_memory_ports(alloc, &mut ports, MEMORIES)?;
    Ok(LinkText {
        name: known_name(b"net")?,
        period: 700,
        ports: ListOf::of(ports),
        kind: LinkKeys::Direct,
    })
}

fn storm_parts(alloc: Global, agents: u32) -> Result<Vec<PartText>, OutOfMemory>
    requires { agents ≤ MOST_AGENTS }
    ensures { IfOk result (λ v. v.items ≡ each storm_agent agents ++ each storm_memory 4) }
{
    let mut parts = Vec::new(alloc);
    add_agents(alloc, &mut parts, agents)?;
    add_memories(alloc, &mut parts, MEMORIES)?;
    Ok(parts)
}

/// The machine of a storm of 1 to 252 agents, which read and write four memories over one link, up to 1,000,000,000 ps.
pub fn storm_plan(alloc: Global, agents: u32) -> Result<PlanText, OutOfMemory>
    requires some { 1 ≤ agents }
    requires few { agents ≤ MOST_AGENTS }

    ensures { IfOk result (λ text. text ≡ storm_plan agents) }
{
    let map = storm_map(alloc)?;
    let link = storm_link(alloc, agents)?;
    Ok(PlanText {
        until: Time(UNTIL),
        maps: list_of_one(alloc, map)?,
        parts: ListOf::of(storm_parts(alloc, agents)?),
        links: list_of_one(alloc, link)?,
        programs: ListOf::of(Vec::new(alloc)),
    })
}
