//! An actor that was out is back from its step.
ghost use Rattle.std.specs.Prelude.{◌≡◌, length, false, true};
ghost use Rattle.bit_set.specs.Bits.{is_in};
ghost use Rattle.tick_law.specs.PlanView.{system_from};
ghost use Rattle.tick_law.specs.Course.{part_course, link_course};
ghost use Rattle.away_rows.specs.SidePass.{IsAfter};
ghost use Rattle.hub_laws.specs.Events.{part_finished, link_finished};
ghost use Rattle.hub_floor.specs.Floor.{hub_state, PartsOf, LinksOf};

use crate::floor::Floor;
use actor_turn::next::either;
use actor_turn::side::TurnAt;
use actor_turn::wake::{wake_links, wake_parts};
use away_rows::{Body, Marks, link_returns, part_returns};
use sim_base::Steps;
use std::sync::ledger::Ledger;
use tick_law::{Actor, Charter};

/// Part `no` is back from its step, which made progress or not. Its next time is noted, and the links to which its ports show
/// something else are woken.
pub fn part_back<P: Actor + Drop, N: Actor + Drop, C: Charter<P, N>, M: Ledger>(
    floor: &mut Floor<P, N>,
    no: u32,
    body: Box<Body<P>>,
    flag: bool,
    looks: &mut Steps<M>,
)
    requires floor { PartsOf (system_from P.machine N.machine C.plan C.start)
        P.valid N.valid C.plan.until floor.old }
    requires out { is_in floor.old.part_marks.out no ≡ true }
    requires done { IsAfter (part_course (system_from P.machine N.machine C.plan C.start))
        0 floor.old.at no true body.value flag }

    ensures floor { PartsOf (system_from P.machine N.machine C.plan C.start)
        P.valid N.valid C.plan.until floor.new }
    ensures event { hub_state floor.new
        ≡ part_finished (system_from P.machine N.machine C.plan C.start)
        (hub_state floor.old) no }
{
    let t = floor.at;
    let beat = floor.part_side.beat.near(t, body.actor.period());
    let turn = TurnAt { no, t, beat };
    floor
        .part_side
        .note_next(&body.actor, &turn, flag, &mut floor.next, looks);
    let own = floor.part_side.wiring.own(no);
    part_returns(&mut floor.parts, &mut floor.rows, own, no, body);
    wake_links(
        &mut floor.rows,
        own,
        &floor.link_side,
        t,
        &mut floor.next,
        looks,
    );
    Marks::finish(&mut floor.part_marks, no);
    floor.stirred = either(floor.stirred, flag);
}

/// Link `no` is back from its step, which made progress or not. Its next time is noted, and the parts to which its ports show
/// something else are woken at an edge behind this time.
pub fn link_back<P: Actor + Drop, N: Actor + Drop, C: Charter<P, N>, M: Ledger>(
    floor: &mut Floor<P, N>,
    no: u32,
    body: Box<Body<N>>,
    flag: bool,
    looks: &mut Steps<M>,
)
    requires floor { LinksOf (system_from P.machine N.machine C.plan C.start)
        P.valid N.valid C.plan.until floor.old }
    requires out { is_in floor.old.link_marks.out no ≡ true }
    requires done { IsAfter (link_course (system_from P.machine N.machine C.plan C.start))
        (length C.start.world.parts) floor.old.at no false body.value flag }

    ensures floor { LinksOf (system_from P.machine N.machine C.plan C.start)
        P.valid N.valid C.plan.until floor.new }
    ensures event { hub_state floor.new
        ≡ link_finished (system_from P.machine N.machine C.plan C.start)
        (hub_state floor.old) no }
{
    let t = floor.at;
    let beat = floor.link_side.beat.near(t, body.actor.period());
    let turn = TurnAt { no, t, beat };
    floor
        .link_side
        .note_next(&body.actor, &turn, flag, &mut floor.next, looks);
    link_returns(&mut floor.links, &mut floor.rows, no, body);
    wake_parts(
        &mut floor.rows,
        no,
        &floor.part_side,
        t + 1,
        &mut floor.next,
        looks,
    );
    Marks::finish(&mut floor.link_marks, no);
    floor.stirred = either(floor.stirred, flag);
}
