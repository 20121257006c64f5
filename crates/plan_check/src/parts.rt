ghost use Rattle.std.specs.Prelude.{◌≡◌, None, map, length, IfOk};
ghost use Rattle.sim_config.specs.Tables.{PartTable};
ghost use Rattle.part_kind.specs.Part.{part_own};
ghost use Rattle.plan_rules.specs.First.{first_broken};
ghost use Rattle.plan_rules.specs.Kinds.{port_count};
ghost use Rattle.plan_check.specs.Caches.{all_caches};
ghost use Rattle.plan_check.specs.Programs.{data_map};
ghost use Rattle.plan_check.specs.Plan.{part_of, parts_to};

use crate::caches::tops_of;
use crate::maps::{map_of, port_to, second_port};
use crate::placing::opening_bytes;
use crate::programs::{Programs, first_pc};
use cache_comp::{Cache, CacheText};
use mem_ctrl::{Memory, MemoryText};
use part_kind::Part;
use plan_rules::Numbered;
use rv_core::{Core, CoreText};
use sim_base::{ActorNo, OutOfMemory};
use sim_config::{PartKeys, PartText};
use std::alloc::Global;
use traffic_parts::{Agent, AgentText, Relay, RelayText};

/// The part of a number as its kind opens it.
#[tactic(auto, unfolding(crate::specs::Plan::part_of))]
fn part_of(
    alloc: Global,
    plan: &Numbered,
    programs: &Programs,
    no: u32,
    part: &PartText,
) -> Result<Part, OutOfMemory>
    requires kept { first_broken plan.now ≡ None }
    requires caches { programs.now.caches.now ≡ all_caches plan.now }
    requires maps { programs.now.maps.now ≡ map (data_map plan.now) plan.now.programs }
    requires count { length programs.now.images.now ≡ length programs.now.maps.now }

    ensures part { IfOk result (λ p. p ≡ part_of plan.now programs.now.images.now no part.now) }
    ensures own { IfOk result (λ p. part_own p ≡ port_count part.now.kind) }
{
    let actor = ActorNo(no);
    let period = part.period;
    let port = port_to(plan, Some(no as usize));
    match &part.kind {
        PartKeys::Relay { to, start } => {
            let text = RelayText {
                actor,
                period,
                io: port,
                to: port_to(plan, plan.part_no(to)),
                start: *start,
            };
            Ok(Part::Relay(Relay::open(alloc, &text)?))
        }
        PartKeys::Agent {
            map,
            base,
            span,
            count,
            window,
            gap,
            start,
            mode,
            draw,
        } => {
            let text = AgentText {
                actor,
                period,
                io: port,
                map: map_of(alloc, plan, map)?,
                base: *base,
                span: *span,
                count: *count,
                window: *window,
                gap: *gap,
                start: *start,
                mode: *mode,
                draw: *draw,
            };
            Ok(Part::Agent(Agent::open(alloc, &text)?))
        }
        PartKeys::Memory {
            base,
            size,
            latency,
            depth,
            words,
        } => {
            let text = MemoryText {
                actor,
                period,
                top: port,
                base: *base,
                size: *size,
                latency: *latency,
                depth: *depth,
                bytes: opening_bytes(alloc, programs, port, *base, *size, words.items())?,
            };
            Ok(Part::Memory(Memory::open(alloc, &text)?))
        }
        PartKeys::Cache {
            map,
            line,
            sets,
            ways,
            misses,
        } => {
            let map = map_of(alloc, plan, map)?;
            let text = CacheText {
                actor,
                period,
                top: port,
                bottom: second_port(plan, no as usize),
                caches: tops_of(alloc, programs.caches, map.items())?,
                map,
                line: *line,
                sets: *sets,
                ways: *ways,
                misses: *misses,
            };
            Ok(Part::Cache(Cache::open(alloc, &text)?))
        }
        PartKeys::Core {
            inst_map,
            data_map,
            pc,
        } => {
            let data_map = map_of(alloc, plan, data_map)?;
            let text = CoreText {
                actor,
                period,
                inst_port: port,
                data_port: second_port(plan, no as usize),
                inst_map: map_of(alloc, plan, inst_map)?,
                caches: tops_of(alloc, programs.caches, data_map.items())?,
                data_map,
                pc: first_pc(plan, programs.images, &part.name, *pc),
            };
            Ok(Part::Core(Core::open(alloc, &text)?))
        }
    }
}

/// All parts.
pub(crate) fn all_parts(
    alloc: Global,
    plan: &Numbered,
    programs: &Programs,
) -> Result<Vec<Part>, OutOfMemory>
    requires kept { first_broken plan.now ≡ None }
    requires caches { programs.now.caches.now ≡ all_caches plan.now }
    requires maps { programs.now.maps.now ≡ map (data_map plan.now) plan.now.programs }
    requires count { length programs.now.images.now ≡ length programs.now.maps.now }

    ensures parts { IfOk result (λ v. v.items ≡ parts_to plan.now programs.now.images.now (length plan.now.parts)) }
    ensures own { IfOk result (λ v. map part_own v.items ≡ map (λ (p : PartTable). port_count p.kind) plan.now.parts) }
{
    let text = plan.text();
    let tables = text.parts.items();
    let mut parts = Vec::new(alloc);
    for no in 0..tables.len() as u32 {
        parts.push(part_of(alloc, plan, programs, no, &tables[no as usize])?)?;
    }
    Ok(parts)
}
