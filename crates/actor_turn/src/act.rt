//! One actor steps where it stands.
ghost use Rattle.std.specs.Prelude.{◌≡◌, ℕ, ◌<◌, length, false};
ghost use Rattle.tick_law.specs.Wires.{own_of};
ghost use Rattle.actor_turn.specs.Act.{CanAct, HasActed, links_acting, parts_acting};

use crate::side::{SideGear, TurnAt};
use port_msg::RecList;
use port_row::Ports;
use port_rows::World;
use sim_base::{ActorNo, Steps, Time};
use std::sync::ledger::Ledger;
use tick_law::Actor;

impl SideGear {
    /// A link of this side steps in its turn with its row, where it has an edge then. The answer says whether it made progress.
    pub fn act_link<P: Drop, N: Actor + Drop, L: Ledger>(
        &self,
        world: &mut World<P, N>,
        turn: &TurnAt,
        recs: &mut RecList,
        steps: &mut Steps<L>,
    ) -> bool
        requires wires { self.now.wiring ≡ world.old.rows.wires }
        requires can { CanAct N.machine self.now turn.now.no turn.now.t
            (links_acting world.old recs.old steps.old) }

        ensures acted { HasActed N.machine self.now turn.now.no turn.now.t
            (links_acting world.old recs.old steps.old)
            (links_acting world.new recs.new steps.new) result }
        ensures parts { world.new.parts ≡ world.old.parts }
    {
        let link = &mut world.links[turn.no as usize];
        let period = link.period();
        let Some(cycle) = turn.beat.cycle_at(turn.t, period) else {
            return false;
        };
        recs.begin(Time(turn.t), ActorNo(self.first + turn.no));
        world.rows.tick_link(turn.no, link, cycle, recs, steps)
    }

    /// A part of this side steps in its turn with its ports in this hand, where it has an edge then. The answer says whether it
    /// made progress.
    pub fn act_part<P: Actor + Drop, N: Drop, L: Ledger>(
        &self,
        world: &mut World<P, N>,
        hand: &mut Ports,
        turn: &TurnAt,
        recs: &mut RecList,
        steps: &mut Steps<L>,
    ) -> bool
        requires hand { length hand.old.ports ≡ length (own_of self.now.wiring turn.now.no) }
        requires can { CanAct P.machine self.now turn.now.no turn.now.t
            (parts_acting world.old recs.old steps.old) }

        ensures acted { HasActed P.machine self.now turn.now.no turn.now.t
            (parts_acting world.old recs.old steps.old)
            (parts_acting world.new recs.new steps.new) result }
        ensures still { result ≡ false → world.new.rows.ports ≡ world.old.rows.ports }
        ensures hand { hand.new ≡ hand.old }
        ensures links { world.new.links ≡ world.old.links }
    {
        let part = &mut world.parts[turn.no as usize];
        let period = part.period();
        let Some(cycle) = turn.beat.cycle_at(turn.t, period) else {
            return false;
        };
        recs.begin(Time(turn.t), ActorNo(self.first + turn.no));
        part.known();
        let own = self.wiring.own(turn.no);
        world.rows.tick_part(own, hand, part, cycle, recs, steps)
    }
}
