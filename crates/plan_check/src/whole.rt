ghost use Rattle.std.specs.Prelude.{◌≡◌, ℕ, Some, None, map, length, IfOk, OnOk, IsErrOf};
ghost use Rattle.sim_config.specs.Tables.{PartTable};
ghost use Rattle.part_kind.specs.Part.{part_own};
ghost use Rattle.plan_rules.specs.Kinds.{port_count};
ghost use Rattle.sim_config.specs.declared.fault.TableNo.{TableNo};
ghost use Rattle.plan_rules.specs.declared.rule.PlanRule.{PlanRule};
ghost use Rattle.plan_rules.specs.First.{first_broken};
ghost use Rattle.plan_check.specs.Programs.{first_unmapped};
ghost use Rattle.plan_check.specs.Plan.{parts_to, plan_of};

use crate::caches::cache_maps;
use crate::fields::all_fields;
use crate::links::all_links;
use crate::names::{link_names, part_names};
use crate::parts::all_parts;
use crate::ports::{all_own, all_ports};
use crate::programs::{Programs, data_maps};
use crate::unmapped::{Unmapped, first_unmapped};
use elf_load::Image;
use part_kind::{LinkKind, Part};
use plan_rules::{Numbered, PlanFault, check};
use sim_base::OutOfMemory;
use sim_config::PlanText;
use std::alloc::Global;
use tick_law::Plan;

/// All parts, with the bytes of programs in their places.
fn loaded_parts(
    alloc: Global,
    numbered: &Numbered,
    images: &[Image],
) -> Result<Vec<Part>, OutOfMemory>
    requires kept { first_broken numbered.now ≡ None }
    requires count { length images.now ≡ length numbered.now.programs }

    ensures parts { IfOk result (λ v. v.items ≡ parts_to numbered.now images.now (length numbered.now.parts)) }
    ensures own { IfOk result (λ v. map part_own v.items ≡ map (λ (p : PartTable). port_count p.kind) numbered.now.parts) }
{
    let caches = cache_maps(alloc, numbered)?;
    let maps = data_maps(alloc, numbered)?;
    let programs = Programs {
        caches: &caches,
        maps: &maps,
        images,
    };
    all_parts(alloc, numbered, &programs)
}

/// The plan of a text that breaks no rule, with these programs.
fn plan_of(
    alloc: Global,
    numbered: &Numbered,
    images: &[Image],
) -> Result<Plan<Part, LinkKind>, OutOfMemory>
    requires kept { first_broken numbered.now ≡ None }
    requires count { length images.now ≡ length numbered.now.programs }

    ensures { IfOk result (λ plan. plan ≡ plan_of numbered.now images.now) }
{
    let text = numbered.text();
    let parts = loaded_parts(alloc, numbered, images)?;
    let links = all_links(alloc, numbered)?;
    let part_names = part_names(alloc, text.parts.items())?;
    let link_names = link_names(alloc, text.links.items())?;
    let fields = all_fields(alloc, text.parts.items())?;
    let ports = all_ports(alloc, numbered)?;
    let own = all_own(alloc, numbered)?;
    Ok(Plan {
        parts,
        links,
        part_names,
        link_names,
        fields,
        ports,
        own,
        until: text.until,
    })
}

/// The plan that a configuration means with its programs, or the first rule of plans that it or one of them breaks. `images` has
/// the program of each program table in order.
pub fn build(
    alloc: Global,
    text: &PlanText,
    images: &[Image],
) -> Result<Plan<Part, LinkKind>, PlanFault>
    requires count { length images.now ≡ length text.now.programs }

    ensures plan { IfOk result (λ plan. plan ≡ plan_of text.now images.now) }

    // A plan comes exactly where no rule is broken, and else the first broken rule with its first table; where only the rule on
    // segments is, the first segment that breaks it.
    ensures accepted { OnOk result (first_broken text.now ≡ None) }
    ensures mapped { OnOk result (first_unmapped text.now images.now ≡ None) }
    ensures broken { (rule : PlanRule) (table : TableNo) → IsErrOf result (PlanFault.Broken rule table)
        → first_broken text.now ≡ Some (record { rule = rule; table = table }) }
    ensures unbroken { (program at : ℕ) → IsErrOf result (PlanFault.Unmapped program at) → first_broken text.now ≡ None }
    ensures unmapped { (program at : ℕ) → IsErrOf result (PlanFault.Unmapped program at)
        → first_unmapped text.now images.now ≡ Some (record { program = program; at = at }) }
{
    let numbered = check(alloc, text)?;
    if let Some(Unmapped { program, at }) = first_unmapped(&numbered, images) {
        return Err(PlanFault::Unmapped { program, at });
    }
    Ok(plan_of(alloc, &numbered, images)?)
}
