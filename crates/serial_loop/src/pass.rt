//! A pass over everybody of one side.
ghost use Rattle.std.specs.Prelude.{◌≡◌, ◌<◌, ◌≤◌, length, slice_get, slice_set};
ghost use Rattle.sim_base.specs.declared.time.TheConstants.{LATEST_TICK};
ghost use Rattle.model_laws.specs.NextTable.{next_at_place};
ghost use Rattle.port_rows.specs.Opening.{AreHands};
ghost use Rattle.actor_turn.specs.Act.{parts_acting, links_acting};
ghost use Rattle.actor_turn.specs.Next.{next_seat_of};
ghost use Rattle.serial_loop.specs.Pass.{CanPass, HasPassed, GearStays};

use crate::table::NextTable;
use actor_turn::next::either;
use actor_turn::side::{SideGear, TurnAt};
use port_rows::World;
use run_gear::Gear;
use sim_base::Steps;
use std::sync::ledger::Ledger;
use tick_law::Actor;

/// Notes the next time of actor `no` after its step at `t` (picoseconds).
fn note_next<S: Actor>(
    side: &SideGear,
    actors: &[S],
    next: &mut NextTable,
    no: u32,
    t: u64,
    flag: bool,
)
    requires here { no < length actors.now }
    requires there { no < length next.old }
    requires time { t ≤ LATEST_TICK }
    ensures { next.new ≡ slice_set next.old no
        (next_seat_of S.machine t flag (next_at_place next.old no) (slice_get actors.now no)) }
{
    let left = side.next_of(&actors[no as usize], t, flag, next.get(no));
    next.set(no, left);
}

/// Each part with an edge at `t` (picoseconds) steps, in the order of their numbers, with its ports in hand. The answer
/// says whether one made progress.
pub fn pass_parts<P: Actor + Drop, N: Drop, L: Ledger>(
    world: &mut World<P, N>,
    gear: &mut Gear,
    next: &mut NextTable,
    t: u64,
    steps: &mut Steps<L>,
) -> bool
    requires can { CanPass P.machine P.valid gear.old.parts t
        (parts_acting world.old gear.old.recs steps.old) next.old }
    requires hands { AreHands gear.old.hands.items gear.old.parts.wiring
        (length world.old.parts.items) }

    ensures passed { HasPassed P.machine gear.old.parts t
        (parts_acting world.old gear.old.recs steps.old) next.old
        (parts_acting world.new gear.new.recs steps.new) next.new result }
    ensures links { world.new.links ≡ world.old.links }
    ensures stays { GearStays gear.old gear.new }
{
    let count = world.parts.len() as u32;
    let mut stirred = false;
    for no in 0..count {
        let beat = gear.parts.beat.near(t, world.parts[no as usize].period());
        let turn = TurnAt { no, t, beat };
        let ports = gear.parts.wiring.own(no).len();
        let hand = &mut gear.hands[ports];
        let flag = gear
            .parts
            .act_part(world, hand, &turn, &mut gear.recs, steps);
        note_next(&gear.parts, &world.parts, next, no, t, flag);
        stirred = either(stirred, flag);
    }
    stirred
}

/// Each link with an edge at `t` (picoseconds) steps, in the order of their numbers. The answer says whether one made progress.
pub fn pass_links<P: Drop, N: Actor + Drop, L: Ledger>(
    world: &mut World<P, N>,
    gear: &mut Gear,
    next: &mut NextTable,
    t: u64,
    steps: &mut Steps<L>,
) -> bool
    requires can { CanPass N.machine N.valid gear.old.links t
        (links_acting world.old gear.old.recs steps.old) next.old }
    requires wires { gear.old.links.wiring ≡ world.old.rows.wires }

    ensures passed { HasPassed N.machine gear.old.links t
        (links_acting world.old gear.old.recs steps.old) next.old
        (links_acting world.new gear.new.recs steps.new) next.new result }
    ensures parts { world.new.parts ≡ world.old.parts }
    ensures stays { GearStays gear.old gear.new }
{
    let count = world.links.len() as u32;
    let mut stirred = false;
    for no in 0..count {
        let beat = gear.links.beat.near(t, world.links[no as usize].period());
        let turn = TurnAt { no, t, beat };
        let flag = gear.links.act_link(world, &turn, &mut gear.recs, steps);
        note_next(&gear.links, &world.links, next, no, t, flag);
        stirred = either(stirred, flag);
    }
    stirred
}
