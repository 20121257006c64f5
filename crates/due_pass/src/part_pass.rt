//! A pass over the parts whose next time is now, in the order of their numbers.
ghost use Rattle.std.specs.Prelude.{◌≡◌, length, false};
ghost use Rattle.port_rows.specs.Opening.{AreHands};
ghost use Rattle.actor_turn.specs.Turn.{GearStays, parts_in};
ghost use Rattle.due_pass.specs.Pass.{AreMarked, CanPass, HasPassed};

use actor_turn::gear::RowGear;
use actor_turn::next::either;
use actor_turn::turn::part_turn;
use port_rows::World;
use sim_base::{ActorNo, Steps, Time};
use std::sync::ledger::Ledger;
use tick_law::Actor;

/// Each part of the set of those that are due has its turn at `t` (picoseconds), with its ports in hand. The answer says
/// whether one made progress.
pub fn pass_marked_parts<P: Actor + Drop, N: Drop, L: Ledger, M: Ledger>(
    world: &mut World<P, N>,
    gear: &mut RowGear,
    t: u64,
    steps: &mut Steps<L>,
    looks: &mut Steps<M>,
) -> bool
    requires can { CanPass P.machine P.valid gear.old.parts gear.old.links t
        (parts_in world.old gear.old steps.old) }
    requires hands { AreHands gear.old.hands.items gear.old.parts.wiring
        (length world.old.parts.items) }
    requires due { length gear.old.part_due ≡ length world.old.parts.items }
    requires marked { AreMarked gear.old.part_due gear.old.parts t
        (parts_in world.old gear.old steps.old) }

    ensures passed { HasPassed P.machine false gear.old.parts gear.old.links t
        (parts_in world.old gear.old steps.old) (parts_in world.new gear.new steps.new) result }
    ensures links { world.new.links ≡ world.old.links }
    ensures stays { GearStays gear.old gear.new }
{
    let mut stirred = false;
    let mut at = 0;
    while let Some(no) = gear.part_due.next(at) {
        let flag = part_turn(world, gear, no as u32, t, steps, looks);
        stirred = either(stirred, flag);
        at = no + 1;
    }
    stirred
}

/// Each part whose next time is `t` (picoseconds) has its turn, with its ports in hand. The heap is asked once for all of
/// them. The answer says whether one made progress.
pub fn pass_due_parts<P: Actor + Drop, N: Drop, L: Ledger, M: Ledger>(
    world: &mut World<P, N>,
    gear: &mut RowGear,
    t: u64,
    steps: &mut Steps<L>,
    looks: &mut Steps<M>,
) -> bool
    requires can { CanPass P.machine P.valid gear.old.parts gear.old.links t
        (parts_in world.old gear.old steps.old) }
    requires hands { AreHands gear.old.hands.items gear.old.parts.wiring
        (length world.old.parts.items) }
    requires due { length gear.old.part_due ≡ length world.old.parts.items }

    ensures passed { HasPassed P.machine false gear.old.parts gear.old.links t
        (parts_in world.old gear.old steps.old) (parts_in world.new gear.new steps.new) result }
    ensures links { world.new.links ≡ world.old.links }
    ensures due { length gear.new.part_due ≡ length gear.old.part_due }
    ensures stays { GearStays gear.old (record gear.new { part_due = gear.old.part_due }) }
{
    let first = gear.parts.first;
    let end = first + world.parts.len() as u32;
    gear.next.mark_due(
        Time(t),
        ActorNo(first),
        ActorNo(end),
        &mut gear.part_due,
        looks,
    );
    pass_marked_parts(world, gear, t, steps, looks)
}
