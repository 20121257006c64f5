ghost use Rattle.std.specs.Prelude.{◌≡◌, ◌≤◌, ◌<◌, map, length, slice_get, Some, unwrap_or, IfOk};
ghost use Rattle.sim_base.specs.declared.numbers.PortNo.{PortNo};
ghost use Rattle.part_kind.specs.LinkKind.{link_own};
ghost use Rattle.sim_config.specs.Tables.{LinkTable};
ghost use Rattle.plan_check.specs.Plan.{link_with, links_to, own_of_link};

use direct_link::{Direct, DirectText};
use part_kind::LinkKind;
use plan_rules::Numbered;
use sim_base::{ActorNo, OutOfMemory, PortList, PortNo};
use sim_config::{LinkKeys, LinkText};
use std::alloc::Global;

/// The numbers of ports.
pub(crate) fn port_list(alloc: Global, ports: &[Option<u32>]) -> Result<Vec<PortNo>, OutOfMemory>
    ensures ports { IfOk result (λ v. v.items ≡ map (λ port. record { 0 = unwrap_or port 0 }) ports.now) }
    ensures numbers { IfOk result (λ v. map (λ (q : PortNo). q.0) v.items ≡ own_of_link ports.now) }
{
    let mut list = Vec::new(alloc);
    for port in ports {
        list.push(PortNo(port.unwrap_or(0)))?;
    }
    Ok(list)
}

/// The link of a number as its kind opens it.
fn link_of(
    alloc: Global,
    plan: &Numbered,
    no: u32,
    link: &LinkText,
) -> Result<LinkKind, OutOfMemory>
    requires here { slice_get plan.now.links no ≡ Some link.now }
    requires few { no < 64 }

    ensures link { IfOk result (λ l. l ≡ link_with plan.now no link.now) }
    ensures own { IfOk result (λ l. link_own l ≡ length link.now.ports) }
{
    let parts = plan.text().parts.items().len() as u32;
    let ports = port_list(alloc, plan.ports(no as usize))?;
    let text = DirectText {
        actor: ActorNo(parts + no),
        period: link.period,
        ports: PortList::of(ports),
    };
    match link.kind {
        LinkKeys::Direct => Ok(LinkKind::Direct(Direct::open(alloc, &text)?)),
    }
}

/// All links.
pub(crate) fn all_links(alloc: Global, plan: &Numbered) -> Result<Vec<LinkKind>, OutOfMemory>
    ensures links { IfOk result (λ v. v.items ≡ links_to plan.now (length plan.now.links)) }
    ensures own { IfOk result (λ v. map link_own v.items ≡ map (λ (l : LinkTable). length l.ports) plan.now.links) }
{
    let text = plan.text();
    let tables = text.links.items();
    let mut links = Vec::new(alloc);
    for no in 0..tables.len() as u32 {
        links.push(link_of(alloc, plan, no, &tables[no as usize])?)?;
    }
    Ok(links)
}
