ghost use Rattle.std.specs.Prelude.{◌≡◌, ◌++◌, IfOk, OnOk};
ghost use Rattle.storm_gen.specs.Storm.{each, agent_name, memory_name, agent_port, memory_port};

use sim_base::{Name, OutOfMemory};
use sim_config::PortRef;
use std::alloc::Global;

/// A name that is known to be one, or want of memory, which does not come for another reason.
pub fn known_name(text: &[u8]) -> Result<Name, OutOfMemory>
    ensures { IfOk result (λ name. name ≡ text.now) }
{
    Name::read(text).ok_or(OutOfMemory)
}

/// `a` and the number of an agent.
pub fn agent_name(alloc: Global, no: u32) -> Result<Name, OutOfMemory>
    ensures { IfOk result (λ name. name ≡ agent_name no) }
{
    let text = format!(in alloc; "a{no}")?;
    known_name(text.as_bytes())
}

/// `m` and the number of a memory.
pub fn memory_name(alloc: Global, no: u32) -> Result<Name, OutOfMemory>
    ensures { IfOk result (λ name. name ≡ memory_name no) }
{
    let text = format!(in alloc; "m{no}")?;
    known_name(text.as_bytes())
}

/// The names of so many memories.
pub fn memory_names(alloc: Global, count: u32) -> Result<Vec<Name>, OutOfMemory>
    ensures { IfOk result (λ v. v.items ≡ each memory_name count) }
{
    let mut names = Vec::with_capacity(alloc, count as usize)?;
    for no in 0..count {
        names.push(memory_name(alloc, no)?)?;
    }
    Ok(names)
}

fn agent_port(alloc: Global, no: u32) -> Result<PortRef, OutOfMemory>
    ensures { IfOk result (λ port. port ≡ agent_port no) }
{
    Ok(PortRef {
        part: agent_name(alloc, no)?,
        word: known_name(b"io")?,
    })
}

fn memory_port(alloc: Global, no: u32) -> Result<PortRef, OutOfMemory>
    ensures { IfOk result (λ port. port ≡ memory_port no) }
{
    Ok(PortRef {
        part: memory_name(alloc, no)?,
        word: known_name(b"top")?,
    })
}

/// Appends the ports of so many agents.
pub fn add_agent_ports(
    alloc: Global,
    ports: &mut Vec<PortRef>,
    count: u32,
) -> Result<(), OutOfMemory>
    ensures { OnOk result (ports.new.items ≡ ports.old.items ++ each agent_port count) }
{
    for no in 0..count {
        ports.push(agent_port(alloc, no)?)?;
    }
    Ok(())
}

/// Appends the ports of so many memories.
pub fn add_memory_ports(
    alloc: Global,
    ports: &mut Vec<PortRef>,
    count: u32,
) -> Result<(), OutOfMemory>
    ensures { OnOk result (ports.new.items ≡ ports.old.items ++ each memory_port count) }
{
    for no in 0..count {
        ports.push(memory_port(alloc, no)?)?;
    }
    Ok(())
}
