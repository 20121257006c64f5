//! The step of an actor that is out.
ghost use Rattle.std.specs.Prelude.{◌≡◌, ◌+◌, length, false, true};
ghost use Rattle.tick_law.specs.PlanView.{system_from};
ghost use Rattle.tick_law.specs.Course.{part_course, link_course};
ghost use Rattle.away_rows.specs.SidePass.{IsAfter};
ghost use Rattle.hub_floor.specs.Passing.{IsTask};

use away_rows::Body;
use sim_base::{ActorNo, Steps};
use std::sync::ledger::Ledger;
use tick_law::{Actor, Charter};

/// Part `no` makes its step at `t` (picoseconds), away from its seat. One step is charged. The answer says whether it made
/// progress.
pub fn part_steps<P: Actor + Drop, N: Actor, C: Charter<P, N>, L: Ledger>(
    body: &mut Body<P>,
    no: u32,
    t: u64,
    steps: &mut Steps<L>,
) -> bool
    requires task { IsTask (part_course (system_from P.machine N.machine C.plan C.start))
        t no true body.old }
    ensures done { IsAfter (part_course (system_from P.machine N.machine C.plan C.start))
        0 t no true body.new result }
    ensures steps { steps.new ≡ steps.old + 1 }
{
    Body::step(body, ActorNo(no), t, steps)
}

/// Link `no`, which is actor `who` of all, makes its step at `t` (picoseconds), away from its seat. One step is charged. The
/// answer says whether it made progress.
pub fn link_steps<P: Actor, N: Actor + Drop, C: Charter<P, N>, L: Ledger>(
    body: &mut Body<N>,
    no: u32,
    who: ActorNo,
    t: u64,
    steps: &mut Steps<L>,
) -> bool
    requires task { IsTask (link_course (system_from P.machine N.machine C.plan C.start))
        t no false body.old }
    requires who { who.0 ≡ length C.start.world.parts + no }
    ensures done { IsAfter (link_course (system_from P.machine N.machine C.plan C.start))
        (length C.start.world.parts) t no false body.new result }
    ensures steps { steps.new ≡ steps.old + 1 }
{
    Body::step(body, who, t, steps)
}
