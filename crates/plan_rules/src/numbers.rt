//! The numbers that the names of a text stand for.
ghost use Rattle.std.specs.Prelude.{◌≡◌, map, IfOk};
ghost use Rattle.plan_rules.specs.Text as spec;
ghost use Rattle.plan_rules.specs.Numbers.{IsFew, AreFirstPorts};

use crate::kinds::{place_of, port_count};
use crate::named::part_no;
use sim_base::OutOfMemory;
use sim_config::{LinkText, MapText, PlanText, PortRef, RangeText};
use std::alloc::Global;

/// The number of each part's first port, and behind them the number of all ports.
#[tactic(auto, unfolding(crate::specs::Text::first_port))]
pub(crate) fn first_ports(alloc: Global, text: &PlanText) -> Result<Vec<u32>, OutOfMemory>
    requires { IsFew text.now }

    ensures { IfOk result (λ v. AreFirstPorts text.now v.items) }
{
    let mut first_ports = Vec::new(alloc);
    let mut next: u32 = 0;
    for part in text.parts.items() {
        first_ports.push(next)?;
        next += port_count(&part.kind) as u32;
    }
    first_ports.push(next)?;
    Ok(first_ports)
}

/// The number of a port by its part's name and its own word.
#[tactic(auto, using(crate::proofs::Few::first_port_le), unfolding(crate::specs::Text::port_no))]
fn port_no(text: &PlanText, first_ports: &[u32], port: &PortRef) -> Option<u32>
    requires few { IsFew text.now }
    requires firsts { AreFirstPorts text.now first_ports.now }

    ensures { result ≡ spec.port_no text.now port.now }
{
    let no = part_no(text, &port.part)?;
    let part = &text.parts.items()[no];
    let place = place_of(&part.kind, &port.word)?;
    Some(first_ports[no] + place as u32)
}

fn port_numbers(
    alloc: Global,
    text: &PlanText,
    first_ports: &[u32],
    link: &LinkText,
) -> Result<Vec<Option<u32>>, OutOfMemory>
    requires few { IsFew text.now }
    requires firsts { AreFirstPorts text.now first_ports.now }

    ensures { IfOk result (λ v. v.items ≡ spec.port_numbers text.now link.now) }
{
    let mut ports = Vec::new(alloc);
    for port in link.ports.items() {
        ports.push(port_no(text, first_ports, port))?;
    }
    Ok(ports)
}

/// The ports of each link.
pub(crate) fn link_ports(
    alloc: Global,
    text: &PlanText,
    first_ports: &[u32],
) -> Result<Vec<Vec<Option<u32>>>, OutOfMemory>
    requires few { IsFew text.now }
    requires firsts { AreFirstPorts text.now first_ports.now }

    ensures { IfOk result (λ v. map (λ w. w.items) v.items ≡ spec.link_ports text.now) }
{
    let mut ports = Vec::new(alloc);
    for link in text.links.items() {
        ports.push(port_numbers(alloc, text, first_ports, link)?)?;
    }
    Ok(ports)
}

fn range_targets(
    alloc: Global,
    text: &PlanText,
    range: &RangeText,
) -> Result<Vec<Option<usize>>, OutOfMemory>
    ensures { IfOk result (λ v. v.items ≡ spec.range_targets text.now range.now) }
{
    let mut targets = Vec::new(alloc);
    for name in range.to.items() {
        targets.push(part_no(text, name))?;
    }
    Ok(targets)
}

fn map_targets(
    alloc: Global,
    text: &PlanText,
    table: &MapText,
) -> Result<Vec<Vec<Option<usize>>>, OutOfMemory>
    ensures { IfOk result (λ v. map (λ w. w.items) v.items ≡ spec.map_targets text.now table.now) }
{
    let mut targets = Vec::new(alloc);
    for range in table.ranges.items() {
        targets.push(range_targets(alloc, text, range)?)?;
    }
    Ok(targets)
}

/// The parts that each range of each map leads to.
pub(crate) fn all_targets(
    alloc: Global,
    text: &PlanText,
) -> Result<Vec<Vec<Vec<Option<usize>>>>, OutOfMemory>
    ensures { IfOk result (λ v. map (λ w. map (λ x. x.items) w.items) v.items ≡ spec.all_targets text.now) }
{
    let mut targets = Vec::new(alloc);
    for table in text.maps.items() {
        targets.push(map_targets(alloc, text, table)?)?;
    }
    Ok(targets)
}
