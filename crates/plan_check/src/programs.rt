ghost use Rattle.std.specs.Prelude.{◌≡◌, None, map, IfOk};
ghost use Rattle.plan_rules.specs.First.{first_broken};
ghost use Rattle.plan_check.specs.Programs as spec;

use crate::caches::CacheMap;
use crate::maps::addr_map;
use addr_map::AddrMap;
use elf_load::Image;
use plan_rules::Numbered;
use sim_base::{Name, OutOfMemory};
use sim_config::{PartKeys, ProgramText};
use std::alloc::Global;

/// The programs of a plan: the map by which the core of each finds data, and the program itself, in order; and the caches through
/// which such a map may lead, in the order of the file.
#[derive(Drop)]
pub(crate) struct Programs<'a> {
    pub caches: &'a [CacheMap],
    pub maps: &'a [AddrMap],
    pub images: &'a [Image],
}

/// The map by which the core of a program finds data.
fn data_map(alloc: Global, plan: &Numbered, program: &ProgramText) -> Result<AddrMap, OutOfMemory>
    requires { first_broken plan.now ≡ None }
    ensures { IfOk result (λ m. m ≡ spec.data_map plan.now program.now) }
{
    match plan.keys_of(plan.part_no(&program.core)) {
        Some(PartKeys::Core { data_map, .. }) => addr_map(alloc, plan, data_map),
        _ => AddrMap::open(alloc, &[]),
    }
}

/// The maps by which the cores of all programs find data.
pub(crate) fn data_maps(alloc: Global, plan: &Numbered) -> Result<Vec<AddrMap>, OutOfMemory>
    requires { first_broken plan.now ≡ None }
    ensures { IfOk result (λ v. v.items ≡ map (spec.data_map plan.now) plan.now.programs) }
{
    let text = plan.text();
    let mut maps = Vec::new(alloc);
    for program in text.programs.items() {
        maps.push(data_map(alloc, plan, program)?)?;
    }
    Ok(maps)
}

/// The address of the first instruction of a core: where its program begins, or else its key.
pub(crate) fn first_pc(plan: &Numbered, images: &[Image], core: &Name, pc: u32) -> u32
    ensures { result ≡ spec.first_pc plan.now images.now core.now pc }
{
    match plan.program_no(core) {
        Some(no) => match images.get(no) {
            Some(image) => image.entry,
            None => pc,
        },
        None => pc,
    }
}
