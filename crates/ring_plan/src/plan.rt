ghost use Rattle.std.specs.Prelude.{◌≡◌, ◌<◌, ◌≤◌, [], ◌∷◌, IfOk, map};
ghost use Rattle.ring_plan.specs.Ring.{up_to, ring_relay, ring_link, ring_plan};

use crate::names::{link_names, relay_fields, relay_names};
use crate::wiring::{own_ports, port_numbers, ring_ports};
use direct_link::{Direct, DirectText};
use part_kind::{LinkKind, Part};
use sim_base::{ActorNo, OutOfMemory, PortList, PortNo, Time};
use std::alloc::Global;
use tick_law::Plan;
use traffic_parts::{Relay, RelayText};

/// The most relays of a ring.
pub const MOST_RELAYS: u32 = 256;

fn ring_relay(alloc: Global, count: u32, no: u32) -> Result<Relay, OutOfMemory>
    requires here { no < count }
    requires few { count ≤ MOST_RELAYS }
    ensures { IfOk result (λ r. r ≡ ring_relay count no) }
{
    let start = if no == 0 { Some(2 * count) } else { None };
    Relay::open(
        alloc,
        &RelayText {
            actor: ActorNo(no),
            period: 1000,
            io: PortNo(no),
            to: PortNo((no + 1) % count),
            start,
        },
    )
}

fn ring_parts(alloc: Global, count: u32) -> Result<Vec<Part>, OutOfMemory>
    requires { count ≤ MOST_RELAYS }
    ensures { IfOk result (λ v. v.items ≡ map (λ i. Part.Relay (ring_relay count i)) (up_to count)) }
{
    let mut parts = Vec::with_capacity(alloc, count as usize)?;
    for no in 0..count {
        parts.push(Part::Relay(ring_relay(alloc, count, no)?))?;
    }
    Ok(parts)
}

fn ring_links(alloc: Global, count: u32) -> Result<Vec<LinkKind>, OutOfMemory>
    requires { count ≤ MOST_RELAYS }
    ensures { IfOk result (λ v. v.items ≡ LinkKind.Direct (ring_link count) ∷ []) }
{
    let ports = port_numbers(alloc, count)?;
    let link = Direct::open(
        alloc,
        &DirectText {
            actor: ActorNo(count),
            period: 1000,
            ports: PortList::of(ports),
        },
    )?;
    let mut links = Vec::with_capacity(alloc, 1)?;
    links.push(LinkKind::Direct(link))?;
    Ok(links)
}

/// The plan of a ring of 1 to 256 relays, up to a time of at most 500,000,000,000 ps.
pub fn ring_plan(
    alloc: Global,
    count: u32,
    until: Time,
) -> Result<Plan<Part, LinkKind>, OutOfMemory>
    requires some { 1 ≤ count }
    requires few { count ≤ MOST_RELAYS }
    requires early { until.0 ≤ 500000000000 }

    ensures { IfOk result (λ plan. plan ≡ ring_plan count until.0) }
{
    let parts = ring_parts(alloc, count)?;
    let links = ring_links(alloc, count)?;
    let part_names = relay_names(alloc, count)?;
    let link_names = link_names(alloc)?;
    let fields = relay_fields(alloc, count)?;
    let ports = ring_ports(alloc, count)?;
    let own = own_ports(alloc, count)?;
    Ok(Plan {
        parts,
        links,
        part_names,
        link_names,
        fields,
        ports,
        own,
        until,
    })
}
