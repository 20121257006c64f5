ghost use Rattle.std.specs.Prelude.{◌≡◌, ◌≤◌, [], ◌∷◌, map, true, false, IfOk};
ghost use Rattle.sim_base.specs.declared.time.TheConstants.{LATEST_TIME};
ghost use Rattle.sim_base.specs.declared.numbers.PortNo.{PortNo};

use sim_base::{LinkNo, Name, OutOfMemory, PartNo, PortNo, Time};
use std::alloc::Global;
use tick_law::{Actor, Plan, PortPlan};

fn one<T: Drop>(alloc: Global, item: T) -> Result<Vec<T>, OutOfMemory>
    ensures { IfOk result (λ v. v.items ≡ item ∷ []) }
{
    let mut items = Vec::new(alloc);
    items.push(item)?;
    Ok(items)
}

fn two<T: Drop>(alloc: Global, first: T, second: T) -> Result<Vec<T>, OutOfMemory>
    ensures { IfOk result (λ v. v.items ≡ first ∷ second ∷ []) }
{
    let mut items = one(alloc, first)?;
    items.push(second)?;
    Ok(items)
}

/// The ports of the two parts, and those of the link.
fn own_ports(alloc: Global) -> Result<Vec<Vec<PortNo>>, OutOfMemory>
    ensures { IfOk result (λ own. map (λ v. map (λ (q : PortNo). q.0) v.items) own.items ≡ (0 ∷ []) ∷ (1 ∷ []) ∷ (0 ∷ 1 ∷ []) ∷ []) }
{
    let first = one(alloc, PortNo(0))?;
    let second = one(alloc, PortNo(1))?;
    let of_link = two(alloc, PortNo(0), PortNo(1))?;
    let mut own = two(alloc, first, second)?;
    own.push(of_link)?;
    Ok(own)
}

/// The plan of two parts with one port each, for 4 messages each way, on one link, up to a time. All its names are `name`.
pub fn pair_plan<P: Actor + Drop, N: Actor + Drop>(
    alloc: Global,
    first: P,
    second: P,
    link: N,
    name: Name,
    until: Time,
) -> Result<Plan<P, N>, OutOfMemory>
    requires parts { P.machine.is_part ≡ true }
    requires links { N.machine.is_part ≡ false }
    requires first { P.machine.own first ≡ 1 }
    requires second { P.machine.own second ≡ 1 }
    requires link { N.machine.own link ≡ 2 }
    requires early { until.0 ≤ LATEST_TIME }

    ensures parts { IfOk result (λ plan. plan.parts ≡ first ∷ second ∷ []) }
    ensures links { IfOk result (λ plan. plan.links ≡ link ∷ []) }
    ensures own { IfOk result (λ plan. plan.own ≡ (0 ∷ []) ∷ (1 ∷ []) ∷ (0 ∷ 1 ∷ []) ∷ []) }
    ensures until { IfOk result (λ plan. plan.until ≡ until.0) }
{
    let parts = two(alloc, first, second)?;
    let links = one(alloc, link)?;
    let part_names = two(alloc, name, name)?;
    let link_names = one(alloc, name)?;
    let fields = two(alloc, Vec::new(alloc), Vec::new(alloc))?;
    let port_0 = PortPlan {
        cap: 4,
        part: PartNo(0),
        link: LinkNo(0),
        word: name,
    };
    let port_1 = PortPlan {
        cap: 4,
        part: PartNo(1),
        link: LinkNo(0),
        word: name,
    };
    let ports = two(alloc, port_0, port_1)?;
    let own = own_ports(alloc)?;
    Ok(Plan {
        parts,
        links,
        part_names,
        link_names,
        fields,
        ports,
        own,
        until,
    })
}
