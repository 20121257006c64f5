//! One actor's turn: it steps, its next time is noted, and the owners to which its ports show something else are woken.
ghost use Rattle.std.specs.Prelude.{◌≡◌, ℕ, ◌<◌, length, true, false};
ghost use Rattle.tick_law.specs.Wires.{own_of};
ghost use Rattle.actor_turn.specs.Turn.{CanTurn, HasTurned, GearStays, hand_at, links_in, parts_in};

use crate::gear::RowGear;
use crate::side::TurnAt;
use crate::wake::{pass_over, wake_links, wake_parts};
use port_rows::World;
use sim_base::Steps;
use std::sync::ledger::Ledger;
use tick_law::Actor;

/// Link `no` has its turn at `t` (picoseconds). Parts that see a change step at their first edge after `t`. The answer says
/// whether the link made progress.
pub fn link_turn<P: Drop, N: Actor + Drop, L: Ledger, M: Ledger>(
    world: &mut World<P, N>,
    gear: &mut RowGear,
    no: u32,
    t: u64,
    steps: &mut Steps<L>,
    looks: &mut Steps<M>,
) -> bool
    requires can { CanTurn N.machine gear.old.links gear.old.parts no t
        (links_in world.old gear.old steps.old) }
    requires wires { gear.old.links.wiring ≡ world.old.rows.wires }

    ensures turned { HasTurned N.machine true gear.old.links gear.old.parts no t
        (links_in world.old gear.old steps.old) (links_in world.new gear.new steps.new) result }
    ensures parts { world.new.parts ≡ world.old.parts }
    ensures stays { GearStays gear.old gear.new }
{
    let beat = gear.links.beat.near(t, world.links[no as usize].period());
    let turn = TurnAt { no, t, beat };
    let flag = gear.links.act_link(world, &turn, &mut gear.recs, steps);
    let link = &world.links[no as usize];
    gear.links
        .note_next(link, &turn, flag, &mut gear.next, looks);
    wake_parts(
        &mut world.rows,
        no,
        &gear.parts,
        t + 1,
        &mut gear.next,
        looks,
    );
    flag
}

/// Part `no` has its turn at `t` (picoseconds). Links that see a change step at their first edge from `t` on. The answer says
/// whether the part made progress.
pub fn part_turn<P: Actor + Drop, N: Drop, L: Ledger, M: Ledger>(
    world: &mut World<P, N>,
    gear: &mut RowGear,
    no: u32,
    t: u64,
    steps: &mut Steps<L>,
    looks: &mut Steps<M>,
) -> bool
    requires can { CanTurn P.machine gear.old.parts gear.old.links no t
        (parts_in world.old gear.old steps.old) }
    requires hands { length (own_of gear.old.parts.wiring no) < length gear.old.hands.items }
    requires hand { length (hand_at gear.old no).ports ≡ length (own_of gear.old.parts.wiring no) }

    ensures turned { HasTurned P.machine false gear.old.parts gear.old.links no t
        (parts_in world.old gear.old steps.old) (parts_in world.new gear.new steps.new) result }
    ensures links { world.new.links ≡ world.old.links }
    ensures stays { GearStays gear.old gear.new }
{
    let beat = gear.parts.beat.near(t, world.parts[no as usize].period());
    let turn = TurnAt { no, t, beat };
    let ports = gear.parts.wiring.own(no).len();
    let hand = &mut gear.hands[ports];
    let flag = gear
        .parts
        .act_part(world, hand, &turn, &mut gear.recs, steps);
    let part = &world.parts[no as usize];
    gear.parts
        .note_next(part, &turn, flag, &mut gear.next, looks);
    let own = gear.parts.wiring.own(no);
    if !flag {
        // Without progress no port was changed.
        pass_over(&mut world.rows, own);
        return flag;
    }
    wake_links(&mut world.rows, own, &gear.links, t, &mut gear.next, looks);
    flag
}
