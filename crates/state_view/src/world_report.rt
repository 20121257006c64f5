ghost use Rattle.std.specs.Prelude.{◌≡◌, ◌≤◌, ◌++◌, length, option_map, IfOk, IfSome, OnOk};
ghost use Rattle.port_rows.specs.World.{state_of};
ghost use Rattle.state_view.specs.Report.{lines_of, part_line, link_line, counted_lines, bytes_of, regs_of, dump_lines, report_of};

use crate::lines::{put_head, put_link, put_part};
use crate::memory_rows::put_memory_rows;
use crate::regs_line::put_regs;
use crate::run_end::RunEnd;
use crate::task_lines::put_tasks;
use crate::text::Text;
use part_kind::{LinkKind, Part};
use port_rows::World;
use sim_base::{Body, Name, OutOfMemory};
use std::alloc::Global;
use task_stats::Stats;
use trace_out::Names;

fn put_parts(text: &mut Text, names: &[Name], parts: &[Part]) -> Result<(), OutOfMemory>
    requires { length names.now ≡ length parts.now }
    ensures { OnOk result (text.new ≡ text.old ++ lines_of part_line names.now parts.now) }
{
    for no in 0..parts.len() {
        put_part(text, &names[no], &parts[no])?;
    }
    Ok(())
}

fn put_links(text: &mut Text, names: &[Name], links: &[LinkKind]) -> Result<(), OutOfMemory>
    requires { length names.now ≡ length links.now }
    ensures { OnOk result (text.new ≡ text.old ++ lines_of link_line names.now links.now) }
{
    for no in 0..links.len() {
        put_link(text, &names[no], &links[no])?;
    }
    Ok(())
}

/// The lines of tasks, where they were counted.
fn put_counted(
    text: &mut Text,
    names: &[Name],
    parts: &[Part],
    stats: Option<&Stats>,
) -> Result<(), OutOfMemory>
    requires few { length parts.now ≤ 256 }
    requires names { length names.now ≡ length parts.now }
    requires counts { IfSome stats (λ s. length s.now ≡ length parts.now) }

    ensures { OnOk result (text.new ≡ text.old ++ counted_lines names.now parts.now (option_map (λ s. s.now) stats.entry)) }
{
    match stats {
        Some(stats) => put_tasks(text, names, parts, stats),
        None => Ok(()),
    }
}

/// The bytes of a part, if it is a memory.
fn put_bytes(text: &mut Text, name: &Name, part: &Part) -> Result<(), OutOfMemory>
    ensures { OnOk result (text.new ≡ text.old ++ bytes_of name.now part.now) }
{
    match part {
        Part::Memory(memory) => put_memory_rows(text, name, memory),
        Part::Relay(_) | Part::Agent(_) | Part::Core(_) | Part::Cache(_) => Ok(()),
    }
}

fn put_memories(text: &mut Text, names: &[Name], parts: &[Part]) -> Result<(), OutOfMemory>
    requires { length names.now ≡ length parts.now }
    ensures { OnOk result (text.new ≡ text.old ++ lines_of bytes_of names.now parts.now) }
{
    for no in 0..parts.len() {
        put_bytes(text, &names[no], &parts[no])?;
    }
    Ok(())
}

/// The registers of a part, if it is a core.
fn put_regs_of(text: &mut Text, name: &Name, part: &Part) -> Result<(), OutOfMemory>
    ensures { OnOk result (text.new ≡ text.old ++ regs_of name.now part.now) }
{
    match part {
        Part::Core(core) => put_regs(text, name, core),
        Part::Relay(_) | Part::Agent(_) | Part::Memory(_) | Part::Cache(_) => Ok(()),
    }
}

fn put_registers(text: &mut Text, names: &[Name], parts: &[Part]) -> Result<(), OutOfMemory>
    requires { length names.now ≡ length parts.now }
    ensures { OnOk result (text.new ≡ text.old ++ lines_of regs_of names.now parts.now) }
{
    for no in 0..parts.len() {
        put_regs_of(text, &names[no], &parts[no])?;
    }
    Ok(())
}

/// The registers of all cores and then the bytes of all memories, where they are asked for.
fn put_dump(text: &mut Text, names: &[Name], parts: &[Part], dump: bool) -> Result<(), OutOfMemory>
    requires { length names.now ≡ length parts.now }
    ensures { OnOk result (text.new ≡ text.old ++ dump_lines names.now parts.now dump) }
{
    if dump {
        put_registers(text, names, parts)?;
        return put_memories(text, names, parts);
    }
    Ok(())
}

/// The report of a run: its verdict, its ending time and budget in picoseconds, a line for each part, and one for each link. With
/// counts of tasks, then a line for each part that sends requests; with `dump`, then the registers of each core and the bytes
/// of each memory that are not zero, 16 to a line.
pub fn report(
    alloc: Global,
    names: &Names,
    world: &World<Part, LinkKind>,
    run: RunEnd,
    stats: Option<&Stats>,
    dump: bool,
) -> Result<Body, OutOfMemory>
    requires parts { length names.now.parts ≡ length (state_of world.now).parts }
    requires links { length names.now.links ≡ length (state_of world.now).links }
    requires few { length (state_of world.now).parts ≤ 256 }
    requires counts { IfSome stats (λ s. length s.now ≡ length (state_of world.now).parts) }

    ensures { IfOk result (λ body. body
        ≡ report_of names.now (state_of world.now) run (option_map (λ s. s.now) stats.entry) dump) }
{
    let mut text = Text::new(alloc);
    put_head(&mut text, run)?;
    put_parts(&mut text, names.part_names(), &world.parts)?;
    put_links(&mut text, names.link_names(), &world.links)?;
    put_counted(&mut text, names.part_names(), &world.parts, stats)?;
    put_dump(&mut text, names.part_names(), &world.parts, dump)?;
    Ok(text.into_body())
}
