//! A plan as lines, one for each table.
use sim_base::{Mode, Name};
use sim_config::{LinkText, MapText, PartKeys, PartText, PlanText, ProgramText};
use std::io;

fn text(bytes: &[u8]) -> &str {
    std::str::from_utf8(bytes).unwrap_or("?")
}

fn word(name: &Name) -> &str {
    text(name.text())
}

fn map(rt: &impl Print, map: &MapText) -> io::Result<()> {
    println!(rt; "map {}", word(&map.name))?;
    for range in map.ranges.items() {
        print!(rt; "range {} {} {}", range.base, range.size, range.granule)?;
        for target in range.to.items() {
            print!(rt; " {}", word(target))?;
        }
        println!(rt; "")?;
    }
    Ok(())
}

fn mode(mode: Mode) -> &'static str {
    match mode {
        Mode::Read => "read",
        Mode::Write => "write",
        Mode::Mixed => "mixed",
    }
}

fn keys(rt: &impl Print, keys: &PartKeys) -> io::Result<()> {
    match keys {
        PartKeys::Relay { to, start } => {
            println!(rt; "relay {} {}", word(to), start.unwrap_or(0))
        }
        PartKeys::Agent {
            map,
            base,
            span,
            count,
            window,
            gap,
            start,
            mode: requests,
            draw,
        } => {
            print!(rt; "agent {} {base} {span} {count} {window} ", word(map))?;
            println!(rt; "{gap} {start} {} {draw}", mode(*requests))
        }
        PartKeys::Memory {
            base,
            size,
            latency,
            depth,
            words,
        } => {
            print!(rt; "memory {base} {size} {latency} {depth}")?;
            for word in words.items() {
                print!(rt; " {word}")?;
            }
            println!(rt; "")
        }
        PartKeys::Cache {
            map,
            line,
            sets,
            ways,
            misses,
        } => println!(rt; "cache {} {line} {sets} {ways} {misses}", word(map)),
        PartKeys::Core {
            inst_map,
            data_map,
            pc,
        } => println!(rt; "core {} {} {pc}", word(inst_map), word(data_map)),
    }
}

fn part(rt: &impl Print, part: &PartText) -> io::Result<()> {
    print!(rt;
        "part {} {} {} ",
        word(&part.name),
        part.period,
        part.buffer
    )?;
    keys(rt, &part.kind)
}

fn link(rt: &impl Print, link: &LinkText) -> io::Result<()> {
    print!(rt; "link {} {}", word(&link.name), link.period)?;
    for port in link.ports.items() {
        print!(rt; " {}.{}", word(&port.part), word(&port.word))?;
    }
    println!(rt; "")
}

fn program(rt: &impl Print, program: &ProgramText) -> io::Result<()> {
    println!(rt;
        "program {} {}",
        word(&program.core),
        text(program.file.items())
    )
}

/// Prints the last time, and then each map with its ranges, each part, each link and each program.
pub fn plan(rt: &impl Print, plan: &PlanText) -> io::Result<()> {
    println!(rt; "until {}", plan.until.0)?;
    for one in plan.maps.items() {
        map(rt, one)?;
    }
    for one in plan.parts.items() {
        part(rt, one)?;
    }
    for one in plan.links.items() {
        link(rt, one)?;
    }
    for one in plan.programs.items() {
        program(rt, one)?;
    }
    Ok(())
}
