//! An actor that waits goes out for its step.
ghost use Rattle.std.specs.Prelude.{◌≡◌, false, true};
ghost use Rattle.bit_set.specs.Bits.{is_in};
ghost use Rattle.tick_law.specs.PlanView.{system_from};
ghost use Rattle.tick_law.specs.Course.{part_course, link_course};
ghost use Rattle.hub_laws.specs.Events.{part_claimed, link_claimed};
ghost use Rattle.hub_floor.specs.Passing.{IsTask};
ghost use Rattle.hub_floor.specs.Floor.{hub_state, PartsOf, LinksOf};

use crate::floor::Floor;
use away_rows::{Body, Marks, link_leaves, part_leaves};
use tick_law::{Actor, Charter};

/// Part `no`, which waits in the pass of the parts, goes out with its ports.
pub fn part_out<P: Actor + Drop, N: Actor + Drop, C: Charter<P, N>>(
    floor: &mut Floor<P, N>,
    no: u32,
) -> Box<Body<P>>
    requires floor { PartsOf (system_from P.machine N.machine C.plan C.start)
        P.valid N.valid C.plan.until floor.old }
    requires waits { is_in floor.old.part_marks.waiting no ≡ true }

    ensures floor { PartsOf (system_from P.machine N.machine C.plan C.start)
        P.valid N.valid C.plan.until floor.new }
    ensures task { IsTask (part_course (system_from P.machine N.machine C.plan C.start))
        floor.old.at no true result.value }
    ensures event { hub_state floor.new ≡ part_claimed (hub_state floor.old) no }
{
    let own = floor.part_side.wiring.own(no);
    let body = part_leaves(&mut floor.parts, &mut floor.rows, own, no);
    Marks::claim(&mut floor.part_marks, no);
    body
}

/// Link `no`, which waits in the pass of the links, goes out with its row.
pub fn link_out<P: Actor + Drop, N: Actor + Drop, C: Charter<P, N>>(
    floor: &mut Floor<P, N>,
    no: u32,
) -> Box<Body<N>>
    requires floor { LinksOf (system_from P.machine N.machine C.plan C.start)
        P.valid N.valid C.plan.until floor.old }
    requires waits { is_in floor.old.link_marks.waiting no ≡ true }

    ensures floor { LinksOf (system_from P.machine N.machine C.plan C.start)
        P.valid N.valid C.plan.until floor.new }
    ensures task { IsTask (link_course (system_from P.machine N.machine C.plan C.start))
        floor.old.at no false result.value }
    ensures event { hub_state floor.new ≡ link_claimed (hub_state floor.old) no }
{
    let body = link_leaves(&mut floor.links, &mut floor.rows, no);
    Marks::claim(&mut floor.link_marks, no);
    body
}
