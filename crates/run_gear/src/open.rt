ghost use Rattle.std.specs.Prelude.{◌≡◌, ◌*◌, ◌≤◌, [], length, map, IfOk};
ghost use Rattle.tick_law.specs.PlanView.{part_wires, link_wires, opening};
ghost use Rattle.run_gear.specs.IsGear.{IsGear};
ghost use Rattle.run_gear.specs.IsOpened.{IsOpened};

use crate::gear::Gear;
use crate::names::plan_names;
use crate::opened::Opened;
use crate::ports::open_ports;
use crate::tables::{all_known, first_beat, periods};
use crate::wires::{link_wiring, part_wiring};
use actor_turn::side::SideGear;
use port_msg::RecList;
use port_rows::{World, open_hands};
use sim_base::OutOfMemory;
use std::alloc::Global;
use tick_law::{Actor, Plan};

/// The most records of a step, for each port of its actor.
const RECORDS_OF_A_PORT: u32 = 64;

/// The most records of one time of so many ports, which have a part and a link each.
fn most_records(ports: u32) -> u32
    requires few { ports ≤ 1024 }
    ensures { result ≡ 128 * ports }
{
    2 * RECORDS_OF_A_PORT * ports
}

/// The side of a plan's parts.
fn part_side<P: Actor + Drop, N: Actor + Drop>(
    alloc: Global,
    plan: &Plan<P, N>,
) -> Result<SideGear, OutOfMemory>
    ensures wires { IfOk result (λ side. side.wiring ≡ part_wires plan.now) }
    ensures periods { IfOk result
        (λ side. side.periods.items ≡ map P.machine.period plan.now.parts) }
    ensures first { IfOk result (λ side. side.first ≡ 0) }
{
    let wiring = part_wiring(alloc, plan)?;
    let periods = periods(alloc, &plan.parts)?;
    Ok(SideGear {
        wiring,
        periods,
        first: 0,
        beat: first_beat(&plan.parts),
    })
}

/// The side of a plan's links, which stand behind its parts.
fn link_side<P: Actor + Drop, N: Actor + Drop>(
    alloc: Global,
    plan: &Plan<P, N>,
) -> Result<SideGear, OutOfMemory>
    ensures wires { IfOk result (λ side. side.wiring ≡ link_wires plan.now) }
    ensures periods { IfOk result
        (λ side. side.periods.items ≡ map N.machine.period plan.now.links) }
    ensures first { IfOk result (λ side. side.first ≡ length plan.now.parts) }
{
    let wiring = link_wiring(alloc, plan)?;
    let periods = periods(alloc, &plan.links)?;
    Ok(SideGear {
        wiring,
        periods,
        first: plan.parts.len() as u32,
        beat: first_beat(&plan.links),
    })
}

/// The gear of a run of this plan, at its beginning.
fn open_gear<P: Actor + Drop, N: Actor + Drop>(
    alloc: Global,
    plan: &Plan<P, N>,
) -> Result<Gear, OutOfMemory>
    ensures gear { IfOk result
        (IsGear P.machine N.machine P.valid N.valid plan.now (opening plan.now)) }
    ensures none { IfOk result (λ gear. gear.recs.items ≡ []) }
{
    all_known(&plan.parts);
    all_known(&plan.links);
    let parts = part_side(alloc, plan)?;
    let links = link_side(alloc, plan)?;
    let hands = open_hands(alloc, &parts.wiring)?;
    let recs = RecList::open(alloc, most_records(plan.ports.len() as u32))?;
    Ok(Gear {
        parts,
        links,
        hands,
        recs,
    })
}

/// A run of a plan at its beginning.
pub fn open_run<P: Actor + Drop, N: Actor + Drop>(
    alloc: Global,
    plan: Plan<P, N>,
) -> Result<Opened<P, N>, OutOfMemory>
    ensures { IfOk result (IsOpened P.machine N.machine P.valid N.valid plan) }
{
    let gear = open_gear(alloc, &plan)?;
    let names = plan_names(alloc, &plan)?;
    let ports = open_ports(alloc, &plan.ports)?;
    let wiring = link_wiring(alloc, &plan)?;
    let until = plan.until;
    let Plan {
        parts,
        links,
        part_names: _,
        link_names: _,
        fields: _,
        ports: _,
        own: _,
        until: _,
    } = plan;
    let world = World::open(alloc, parts, links, ports, wiring)?;
    Ok(Opened {
        world,
        gear,
        names,
        until,
    })
}
