//! The passes of a time open: who is due waits.
ghost use Rattle.std.specs.Prelude.{◌≡◌, ◌≤◌};
ghost use Rattle.sim_base.specs.declared.time.TheConstants.{LATEST_TICK};
ghost use Rattle.tick_law.specs.PlanView.{system_from};
ghost use Rattle.away_rows.specs.Marks.{IsQuiet};
ghost use Rattle.hub_laws.specs.Events.{IsLeastTime, parts_opened, flipped};
ghost use Rattle.hub_floor.specs.Floor.{hub_state, RestsOf, PartsOf, LinksOf};

use crate::asked::wait_asked;
use crate::floor::Floor;
use actor_turn::side::SideGear;
use hub_laws::Stage;
use sim_base::{ActorNo, Steps, Time};
use std::sync::ledger::Ledger;
use tick_law::{Actor, Charter};

/// The side knows an edge near `t` (picoseconds).
fn move_near(side: &mut SideGear, t: u64)
    requires { t ≤ LATEST_TICK }
    ensures { side.new ≡ side.old }
{
    side.beat.move_to(t);
}

/// The pass of the parts opens at `t` (picoseconds), the least of all next times and asked edges: the parts that have it wait.
pub fn open_parts<P: Actor + Drop, N: Actor + Drop, C: Charter<P, N>, M: Ledger>(
    floor: &mut Floor<P, N>,
    t: u64,
    looks: &mut Steps<M>,
)
    requires floor { RestsOf (system_from P.machine N.machine C.plan C.start)
        P.valid N.valid C.plan.until floor.old }
    requires least { IsLeastTime (hub_state floor.old) t }
    requires within { t ≤ C.plan.until }

    ensures floor { PartsOf (system_from P.machine N.machine C.plan C.start)
        P.valid N.valid C.plan.until floor.new }
    ensures event { hub_state floor.new ≡ parts_opened (hub_state floor.old) t }
{
    move_near(&mut floor.part_side, t);
    move_near(&mut floor.link_side, t);
    let parts = floor.parts.len() as u32;
    floor.next.mark_due(
        Time(t),
        ActorNo(0),
        ActorNo(parts),
        &mut floor.part_marks.waiting,
        looks,
    );
    let alone = wait_asked(
        &mut floor.asked,
        &mut floor.part_marks.waiting,
        parts,
        t,
        looks,
    );
    floor.extra = floor.extra.saturating_add(alone);
    floor.at = t;
    floor.stage = Stage::Primary;
}

/// The pass of the links opens, where all parts are back: the links whose next time is now wait.
pub fn open_links<P: Actor + Drop, N: Actor + Drop, C: Charter<P, N>, M: Ledger>(
    floor: &mut Floor<P, N>,
    looks: &mut Steps<M>,
)
    requires floor { PartsOf (system_from P.machine N.machine C.plan C.start)
        P.valid N.valid C.plan.until floor.old }
    requires quiet { IsQuiet floor.old.part_marks }

    ensures floor { LinksOf (system_from P.machine N.machine C.plan C.start)
        P.valid N.valid C.plan.until floor.new }
    ensures event { hub_state floor.new ≡ flipped (hub_state floor.old) }
{
    let first = floor.link_side.first;
    let end = first + floor.links.len() as u32;
    floor.next.mark_due(
        Time(floor.at),
        ActorNo(first),
        ActorNo(end),
        &mut floor.link_marks.waiting,
        looks,
    );
    floor.stage = Stage::Secondary;
}
