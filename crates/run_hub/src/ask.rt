//! A tick of a part that is asked for.
ghost use Rattle.std.specs.Prelude.{◌≡◌, ◌<◌, ◌≤◌, length};
ghost use Rattle.sim_base.specs.Edge.{IsEdge};
ghost use Rattle.sim_base.specs.declared.time.TheConstants.{LONGEST_PERIOD, LATEST_EDGE};
ghost use Rattle.tick_law.specs.PlanView.{system_from};
ghost use Rattle.hub_laws.specs.Events.{asked_edge};
ghost use Rattle.hub_floor.specs.Floor.{hub_state};
ghost use Rattle.run_hub.specs.Stands.{Stands, WentOn};
ghost use Rattle.run_hub.specs.Asks.{first_asked, is_noted_at, part_asked, edge_told};

use hub_floor::Floor;
use hub_laws::Stage;
use sim_base::{
    ActorNo, LATEST_EDGE, LONGEST_PERIOD, Steps, Time, first_edge_after, first_edge_from,
};
use std::sync::ledger::{Blank, Ledger};
use tick_law::{Actor, Charter};

/// The edge at which a part of this period that is asked now steps, in picoseconds: its first from the boundary on, or its first
/// after the time whose pass is open.
fn asked_edge(stage: Stage, period: u64, at: u64) -> u64
    requires some { 1 ≤ period }
    requires short { period ≤ LONGEST_PERIOD }
    requires early { at < LATEST_EDGE }

    ensures value { result ≡ asked_edge stage period at }
    ensures edge { IsEdge period result }
    ensures from { first_asked stage at ≤ result }
{
    match stage {
        Stage::Boundary => first_edge_from(Time(at), period).0,
        Stage::Primary => first_edge_after(Time(at), period).0,
        Stage::Secondary => first_edge_after(Time(at), period).0,
        Stage::Over => first_edge_from(Time(at), period).0,
    }
}

/// Whether an asked edge is noted: the run is not over, and the edge is not above `until`, in picoseconds.
fn is_noted(stage: Stage, until: u64, edge: u64) -> bool
    ensures { result ≡ is_noted_at stage until edge }
{
    let over = matches!(stage, Stage::Over);
    !over && edge <= until
}

/// Part `no` is asked to step. The ask is counted, and the answer is the edge at which the part then steps, or None where there is
/// none: the run is over, or that edge is above `until` (picoseconds).
pub(crate) fn ask_part<P: Actor + Drop, N: Actor + Drop, C: Charter<P, N>, M: Ledger>(
    floor: &mut Floor<P, N>,
    until: u64,
    no: u32,
    looks: &mut Steps<M>,
) -> Option<Time>
    requires stands { Stands (system_from P.machine N.machine C.plan C.start)
        P.valid N.valid C.plan.until floor.old }
    requires until { until ≡ C.plan.until }
    requires part { no < length C.start.world.parts }

    ensures stands { Stands (system_from P.machine N.machine C.plan C.start)
        P.valid N.valid C.plan.until floor.new }
    ensures event { hub_state floor.new
        ≡ part_asked (system_from P.machine N.machine C.plan C.start)
        C.plan.until (hub_state floor.old) no }
    ensures edge { result ≡ edge_told (system_from P.machine N.machine C.plan C.start)
        C.plan.until (hub_state floor.old) no }
    ensures on { WentOn (system_from P.machine N.machine C.plan C.start) floor.old floor.new }
{
    let period = floor.part_side.periods[no as usize];
    let edge = asked_edge(floor.stage, period, floor.at);
    floor.asks = floor.asks.saturating_add(1);
    if !is_noted(floor.stage, until, edge) {
        return None;
    }
    floor.asked.set(ActorNo(no), Time(edge), looks);
    Some(Time(edge))
}

/// The same, where looks at the asked edges are counted by a counter that is made of `blank`.
pub(crate) fn ask_with<P: Actor + Drop, N: Actor + Drop, C: Charter<P, N>, M: Ledger>(
    floor: &mut Floor<P, N>,
    until: u64,
    no: u32,
    blank: Blank,
) -> Option<Time>
    requires name { blank.name ≡ M.name }
    requires parts { blank.parts ≡ M.parts }
    requires some { 0 < blank.parts }
    requires stands { Stands (system_from P.machine N.machine C.plan C.start)
        P.valid N.valid C.plan.until floor.old }
    requires until { until ≡ C.plan.until }
    requires part { no < length C.start.world.parts }

    ensures stands { Stands (system_from P.machine N.machine C.plan C.start)
        P.valid N.valid C.plan.until floor.new }
    ensures event { hub_state floor.new
        ≡ part_asked (system_from P.machine N.machine C.plan C.start)
        C.plan.until (hub_state floor.old) no }
    ensures edge { result ≡ edge_told (system_from P.machine N.machine C.plan C.start)
        C.plan.until (hub_state floor.old) no }
    ensures on { WentOn (system_from P.machine N.machine C.plan C.start) floor.old floor.new }
{
    let mut looks = Steps::<M>::open(blank);
    ask_part::<P, N, C, M>(floor, until, no, &mut looks)
}
