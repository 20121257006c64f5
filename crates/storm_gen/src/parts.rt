ghost use Rattle.std.specs.Prelude.{◌≡◌, ◌<◌, ◌≤◌, ◌++◌, IfOk, OnOk};
ghost use Rattle.storm_gen.specs.Storm.{each, storm_agent, storm_memory};

use crate::names::{agent_name, known_name, memory_name};
use sim_base::{Mode, OutOfMemory};
use sim_config::{ListOf, PartKeys, PartText};
use std::alloc::Global;

/// The most agents of a storm.
pub const MOST_AGENTS: u32 = 252;

fn storm_agent(alloc: Global, no: u32) -> Result<PartText, OutOfMemory>
    requires { no < MOST_AGENTS }
    ensures { IfOk result (λ part. part ≡ storm_agent no) }
{
    Ok(PartText {
        name: agent_name(alloc, no)?,
        period: 1000 + 10 * u64::from(no),
        buffer: 4,
        kind: PartKeys::Agent {
            map: known_name(b"all")?,
            base: 0,
            span: 65536,
            count: 256,
            window: 4,
            gap: 1 + no % 4,
            start: no,
            mode: Mode::Mixed,
            draw: no + 1,
        },
    })
}

fn storm_memory(alloc: Global, no: u32) -> Result<PartText, OutOfMemory>
    ensures { IfOk result (λ part. part ≡ storm_memory no) }
{
    Ok(PartText {
        name: memory_name(alloc, no)?,
        period: 1500,
        buffer: 4,
        kind: PartKeys::Memory {
            base: 0,
            size: 65536,
            latency: 20,
            depth: 8,
            words: ListOf::of(Vec::new(alloc)),
        },
    })
}

/// Appends so many agents.
pub fn add_agents(alloc: Global, parts: &mut Vec<PartText>, count: u32) -> Result<(), OutOfMemory>
    requires { count ≤ MOST_AGENTS }
    ensures { OnOk result (parts.new.items ≡ parts.old.items ++ each storm_agent count) }
{
    for no in 0..count {
        parts.push(storm_agent(alloc, no)?)?;
    }
    Ok(())
}

/// Appends so many memories.
pub fn add_memories(alloc: Global, parts: &mut Vec<PartText>, count: u32) -> Result<(), OutOfMemory>
    ensures { OnOk result (parts.new.items ≡ parts.old.items ++ each storm_memory count) }
{
    for no in 0..count {
        parts.push(storm_memory(alloc, no)?)?;
    }
    Ok(())
}
