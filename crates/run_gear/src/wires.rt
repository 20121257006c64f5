ghost use Rattle.std.specs.Prelude.{◌≡◌, map, IfOk};
ghost use Rattle.sim_base.specs.declared.numbers.PortNo.{PortNo};
ghost use Rattle.tick_law.specs.PlanView.{part_wires, link_wires};

use sim_base::{OutOfMemory, PortNo};
use std::alloc::Global;
use tick_law::{Actor, Plan, Wiring};

fn numbers(alloc: Global, own: &[PortNo]) -> Result<Vec<u32>, OutOfMemory>
    ensures { IfOk result (λ v. v.items ≡ map (λ (q : PortNo). q.0) own.now) }
{
    let numbers = own.iter().map(|q| q.0).collect(alloc)?;
    Ok(numbers)
}

/// The same lists, of plain numbers.
fn own_lists(alloc: Global, own: &[Vec<PortNo>]) -> Result<Vec<Vec<u32>>, OutOfMemory>
    ensures { IfOk result (λ v. map (λ l. l.items) v.items
        ≡ map (λ l. map (λ (q : PortNo). q.0) l.items) own.now) }
{
    let mut lists = Vec::with_capacity(alloc, own.len())?;
    for list in own {
        let list = numbers(alloc, list)?;
        lists.push(list)?;
    }
    Ok(lists)
}

/// Which part has which ports.
pub fn part_wiring<P: Actor + Drop, N: Actor + Drop>(
    alloc: Global,
    plan: &Plan<P, N>,
) -> Result<Wiring, OutOfMemory>
    ensures { IfOk result (λ w. w ≡ part_wires plan.now) }
{
    let owner = plan.ports.iter().map(|p| p.part.0).collect(alloc)?;
    let (own, _) = plan.own.split_at(plan.parts.len());
    let own = own_lists(alloc, own)?;
    Ok(Wiring::of(own, owner))
}

/// Which link has which ports.
pub fn link_wiring<P: Actor + Drop, N: Actor + Drop>(
    alloc: Global,
    plan: &Plan<P, N>,
) -> Result<Wiring, OutOfMemory>
    ensures { IfOk result (λ w. w ≡ link_wires plan.now) }
{
    let owner = plan.ports.iter().map(|p| p.link.0).collect(alloc)?;
    let (_, own) = plan.own.split_at(plan.parts.len());
    let own = own_lists(alloc, own)?;
    Ok(Wiring::of(own, owner))
}
