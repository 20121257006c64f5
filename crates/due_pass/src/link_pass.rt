//! A pass over the links whose next time is now, in the order of their numbers.
ghost use Rattle.std.specs.Prelude.{◌≡◌, length, true};
ghost use Rattle.actor_turn.specs.Turn.{GearStays, links_in};
ghost use Rattle.due_pass.specs.Pass.{AreMarked, CanPass, HasPassed};

use actor_turn::gear::RowGear;
use actor_turn::next::either;
use actor_turn::turn::link_turn;
use port_rows::World;
use sim_base::{ActorNo, Steps, Time};
use std::sync::ledger::Ledger;
use tick_law::Actor;

/// Each link of the set of those that are due has its turn at `t` (picoseconds). The answer says whether one made progress.
pub fn pass_marked_links<P: Drop, N: Actor + Drop, L: Ledger, M: Ledger>(
    world: &mut World<P, N>,
    gear: &mut RowGear,
    t: u64,
    steps: &mut Steps<L>,
    looks: &mut Steps<M>,
) -> bool
    requires can { CanPass N.machine N.valid gear.old.links gear.old.parts t
        (links_in world.old gear.old steps.old) }
    requires wires { gear.old.links.wiring ≡ world.old.rows.wires }
    requires due { length gear.old.link_due ≡ length world.old.links.items }
    requires marked { AreMarked gear.old.link_due gear.old.links t
        (links_in world.old gear.old steps.old) }

    ensures passed { HasPassed N.machine true gear.old.links gear.old.parts t
        (links_in world.old gear.old steps.old) (links_in world.new gear.new steps.new) result }
    ensures parts { world.new.parts ≡ world.old.parts }
    ensures stays { GearStays gear.old gear.new }
{
    let mut stirred = false;
    let mut at = 0;
    while let Some(no) = gear.link_due.next(at) {
        let flag = link_turn(world, gear, no as u32, t, steps, looks);
        stirred = either(stirred, flag);
        at = no + 1;
    }
    stirred
}

/// Each link whose next time is `t` (picoseconds) has its turn. The heap is asked once for all of them. The answer says whether
/// one made progress.
pub fn pass_due_links<P: Drop, N: Actor + Drop, L: Ledger, M: Ledger>(
    world: &mut World<P, N>,
    gear: &mut RowGear,
    t: u64,
    steps: &mut Steps<L>,
    looks: &mut Steps<M>,
) -> bool
    requires can { CanPass N.machine N.valid gear.old.links gear.old.parts t
        (links_in world.old gear.old steps.old) }
    requires wires { gear.old.links.wiring ≡ world.old.rows.wires }
    requires due { length gear.old.link_due ≡ length world.old.links.items }

    ensures passed { HasPassed N.machine true gear.old.links gear.old.parts t
        (links_in world.old gear.old steps.old) (links_in world.new gear.new steps.new) result }
    ensures parts { world.new.parts ≡ world.old.parts }
    ensures due { length gear.new.link_due ≡ length gear.old.link_due }
    ensures stays { GearStays gear.old (record gear.new { link_due = gear.old.link_due }) }
{
    let first = gear.links.first;
    let end = first + world.links.len() as u32;
    gear.next.mark_due(
        Time(t),
        ActorNo(first),
        ActorNo(end),
        &mut gear.link_due,
        looks,
    );
    pass_marked_links(world, gear, t, steps, looks)
}
