//! A plan as lines, one for each part, link and port, and one for the own ports of each.
use cache_comp::{Cache, CachePhase};
use mem_ctrl::Memory;
use part_kind::{LinkKind, Part};
use sim_base::Name;
use std::io;
use tick_law::{Actor, Plan};

fn text(name: &Name) -> &str {
    std::str::from_utf8(name.text()).unwrap_or("?")
}

fn kind(part: &Part) -> &'static str {
    match part {
        Part::Relay(_) => "relay",
        Part::Agent(_) => "agent",
        Part::Memory(_) => "memory",
        Part::Core(_) => "core",
        Part::Cache(_) => "cache",
    }
}

fn parts(rt: &impl Print, plan: &Plan<Part, LinkKind>) -> io::Result<()> {
    for ((part, name), fields) in plan.parts.iter().zip(&plan.part_names).zip(&plan.fields) {
        print!(rt; "part {} {} {}", text(name), kind(part), part.period())?;
        for field in fields {
            print!(rt; " {}", text(field))?;
        }
        println!(rt; "")?;
    }
    Ok(())
}

/// Prints each byte of a memory that is not zero.
fn bytes(rt: &impl Print, name: &Name, memory: &Memory) -> io::Result<()> {
    for no in 0..memory.size() {
        let addr = memory.base().saturating_add(no);
        let byte = memory.byte(addr).unwrap_or(0);
        if byte != 0 {
            println!(rt; "byte {} {addr} {byte}", text(name))?;
        }
    }
    Ok(())
}

/// Prints how many misses a cache takes at once, what it does first, and the ports to which it leads the first 8 blocks of 64 bytes.
fn cache(rt: &impl Print, name: &Name, cache: &Cache) -> io::Result<()> {
    let phase = match cache.phase() {
        CachePhase::Idle => "idle",
        CachePhase::Run => "run",
        _ => "?",
    };
    print!(rt;
        "cache {} misses {} {phase} to",
        text(name),
        cache.miss_room()
    )?;
    for block in 0..8 {
        match cache.map().find(block * 64) {
            Some(port) => print!(rt; " {}", port.0)?,
            None => print!(rt; " -")?,
        }
    }
    println!(rt; "")
}

/// Prints where each core begins, the bytes of each memory, and how each cache is set up.
fn states(rt: &impl Print, plan: &Plan<Part, LinkKind>) -> io::Result<()> {
    for (part, name) in plan.parts.iter().zip(&plan.part_names) {
        match part {
            Part::Core(core) => println!(rt; "pc {} {}", text(name), core.pc())?,
            Part::Memory(memory) => bytes(rt, name, memory)?,
            Part::Cache(part) => cache(rt, name, part)?,
            Part::Relay(_) | Part::Agent(_) => {}
        }
    }
    Ok(())
}

fn links(rt: &impl Print, plan: &Plan<Part, LinkKind>) -> io::Result<()> {
    for (link, name) in plan.links.iter().zip(&plan.link_names) {
        println!(rt; "link {} {}", text(name), link.period())?;
    }
    Ok(())
}

/// Prints the last time, and then each part, where cores begin, what memories hold and how caches are set up, each link and port, and
/// the own ports of each part and link.
pub fn plan(rt: &impl Print, plan: &Plan<Part, LinkKind>) -> io::Result<()> {
    println!(rt; "until {}", plan.until.0)?;
    parts(rt, plan)?;
    states(rt, plan)?;
    links(rt, plan)?;
    for port in &plan.ports {
        println!(rt;
            "port {} {} {} {}",
            port.part.0,
            port.link.0,
            text(&port.word),
            port.cap
        )?;
    }
    for own in &plan.own {
        print!(rt; "own")?;
        for port in own {
            print!(rt; " {}", port.0)?;
        }
        println!(rt; "")?;
    }
    Ok(())
}
