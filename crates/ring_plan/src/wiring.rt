ghost use Rattle.std.specs.Prelude.{◌≡◌, [], ◌∷◌, ◌++◌, IfOk, map};
ghost use Rattle.sim_base.specs.declared.numbers.PortNo.{PortNo};
ghost use Rattle.ring_plan.specs.Ring.{up_to, port_no, ring_port};

use crate::names::port_word;
use sim_base::{LinkNo, OutOfMemory, PartNo, PortNo};
use std::alloc::Global;
use tick_law::PortPlan;

/// The numbers of so many ports.
pub fn port_numbers(alloc: Global, count: u32) -> Result<Vec<PortNo>, OutOfMemory>
    ensures { IfOk result (λ v. v.items ≡ map port_no (up_to count)) }
{
    let mut ports = Vec::with_capacity(alloc, count as usize)?;
    for no in 0..count {
        ports.push(PortNo(no))?;
    }
    Ok(ports)
}

fn one_port(alloc: Global, no: u32) -> Result<Vec<PortNo>, OutOfMemory>
    ensures { IfOk result (λ v. v.items ≡ port_no no ∷ []) }
{
    let mut ports = Vec::with_capacity(alloc, 1)?;
    ports.push(PortNo(no))?;
    Ok(ports)
}

fn relay_ports(alloc: Global, count: u32) -> Result<Vec<Vec<PortNo>>, OutOfMemory>
    ensures { IfOk result (λ v. map (λ l. l.items) v.items ≡ map (λ i. port_no i ∷ []) (up_to count)) }
{
    let mut own = Vec::with_capacity(alloc, count as usize)?;
    for no in 0..count {
        own.push(one_port(alloc, no)?)?;
    }
    Ok(own)
}

/// Each relay has the port of its number, and the link has them all.
pub fn own_ports(alloc: Global, count: u32) -> Result<Vec<Vec<PortNo>>, OutOfMemory>
    ensures { IfOk result (λ v. map (λ l. l.items) v.items ≡ map (λ i. port_no i ∷ []) (up_to count) ++ map port_no (up_to count) ∷ []) }
{
    let mut own = relay_ports(alloc, count)?;
    own.push(port_numbers(alloc, count)?)?;
    Ok(own)
}

fn ring_port(no: u32) -> Result<PortPlan, OutOfMemory>
    ensures { IfOk result (λ p. p ≡ ring_port no) }
{
    let word = port_word()?;
    Ok(PortPlan {
        cap: 4,
        part: PartNo(no),
        link: LinkNo(0),
        word,
    })
}

/// The ports of so many relays.
pub fn ring_ports(alloc: Global, count: u32) -> Result<Vec<PortPlan>, OutOfMemory>
    ensures { IfOk result (λ v. v.items ≡ map ring_port (up_to count)) }
{
    let mut ports = Vec::with_capacity(alloc, count as usize)?;
    for no in 0..count {
        ports.push(ring_port(no)?)?;
    }
    Ok(ports)
}
