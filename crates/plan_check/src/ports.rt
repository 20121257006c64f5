ghost use Rattle.std.specs.Prelude.{◌≡◌, ◌++◌, ◌<◌, ◌≤◌, map, length, unwrap_or, Some, IfOk, OnOk, All};
ghost use Rattle.sim_base.specs.declared.numbers.PortNo.{PortNo};
ghost use Rattle.plan_rules.specs.Rules as rules;
ghost use Rattle.plan_rules.specs.Text.{link_ports};
ghost use Rattle.plan_check.specs.Plan as spec;

use crate::links::port_list;
use crate::names::known_name;
use plan_rules::{Numbered, PortWord, port_count, port_words};
use sim_base::{LinkNo, OutOfMemory, PartNo, PortNo};
use sim_config::PartText;
use std::alloc::Global;
use tick_law::PortPlan;

/// The first link that names a port, 0 where none does.
fn link_no(plan: &Numbered, port: u32) -> u32
    ensures { result ≡ unwrap_or (rules.link_of plan.now port) 0 }
{
    let _text = plan.text();
    match plan.link_of(port) {
        Some(link) => link as u32,
        None => 0,
    }
}

/// The port of a part that has a place among its ports.
fn port_plan(
    plan: &Numbered,
    no: u32,
    buffer: u32,
    place: u32,
    word: PortWord,
) -> Result<PortPlan, OutOfMemory>
    requires { place < 2 }
    ensures { IfOk result (λ p. p ≡ spec.port_plan plan.now no buffer place word) }
{
    let port = plan.first_port(no as usize) + place;
    Ok(PortPlan {
        cap: buffer,
        part: PartNo(no),
        link: LinkNo(link_no(plan, port)),
        word: known_name(word.text())?,
    })
}

/// Adds the ports of a part.
fn add_ports(
    ports: &mut Vec<PortPlan>,
    plan: &Numbered,
    no: u32,
    part: &PartText,
) -> Result<(), OutOfMemory>
    requires { All spec.HasCapacity ports.old.items }

    ensures ports { OnOk result (ports.new.items ≡ ports.old.items ++ spec.ports_of_part plan.now no (Some part.now)) }
    ensures capacities { OnOk result (All spec.HasCapacity ports.new.items) }
{
    let buffer = part.buffer;
    for (place, word) in port_words(&part.kind).iter().enumerate() {
        ports.push(port_plan(plan, no, buffer, place as u32, *word)?)?;
    }
    Ok(())
}

/// The ports of all parts.
pub(crate) fn all_ports(alloc: Global, plan: &Numbered) -> Result<Vec<PortPlan>, OutOfMemory>
    ensures ports { IfOk result (λ v. v.items ≡ spec.ports_to plan.now (length plan.now.parts)) }
    ensures capacities { IfOk result (λ v. All spec.HasCapacity v.items) }
{
    let text = plan.text();
    let parts = text.parts.items();
    let mut ports = Vec::new(alloc);
    for no in 0..parts.len() as u32 {
        add_ports(&mut ports, plan, no, &parts[no as usize])?;
    }
    Ok(ports)
}

/// So many numbers from the first on.
fn numbers_from(alloc: Global, first: u32, count: u32) -> Result<Vec<PortNo>, OutOfMemory>
    requires first { first ≤ 1024 }
    requires count { count ≤ 2 }

    ensures { IfOk result (λ v. map (λ (q : PortNo). q.0) v.items ≡ spec.numbers_from first count) }
{
    let mut numbers = Vec::new(alloc);
    for place in 0..count {
        numbers.push(PortNo(first + place))?;
    }
    Ok(numbers)
}

/// The own ports of all parts.
fn own_of_parts(alloc: Global, plan: &Numbered) -> Result<Vec<Vec<PortNo>>, OutOfMemory>
    ensures { IfOk result (λ v. map (λ w. map (λ (q : PortNo). q.0) w.items) v.items ≡ spec.own_to plan.now (length plan.now.parts)) }
{
    let text = plan.text();
    let parts = text.parts.items();
    let mut own = Vec::new(alloc);
    for no in 0..parts.len() as u32 {
        let part = &parts[no as usize];
        let count = port_count(&part.kind) as u32;
        own.push(numbers_from(alloc, plan.first_port(no as usize), count)?)?;
    }
    Ok(own)
}

/// The own ports of all parts, and behind them those of all links.
pub(crate) fn all_own(alloc: Global, plan: &Numbered) -> Result<Vec<Vec<PortNo>>, OutOfMemory>
    ensures { IfOk result (λ v. map (λ w. map (λ (q : PortNo). q.0) w.items) v.items
        ≡ spec.own_to plan.now (length plan.now.parts) ++ map spec.own_of_link (link_ports plan.now)) }
{
    let mut own = own_of_parts(alloc, plan)?;
    for ports in plan.link_ports() {
        own.push(port_list(alloc, ports)?)?;
    }
    Ok(own)
}
