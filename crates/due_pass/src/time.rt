//! One time of the sleeping engine, over ports in rows.
ghost use Rattle.std.specs.Prelude.{◌≡◌, ℕ, ◌+◌, ◌*◌, ◌≤◌, ◌++◌, length};
ghost use Rattle.sim_base.specs.declared.time.TheConstants.{LATEST_TIME};
ghost use Rattle.tick_law.specs.SerialLoop.{records_at_time, stirs_at};
ghost use Rattle.tick_law.specs.Verdict.{awake_now};
ghost use Rattle.model_laws.specs.Outcome.{own_to};
ghost use Rattle.model_laws.specs.Fitted.{Fitted};
ghost use Rattle.model_laws.specs.Boundary.{IsBoundary};
ghost use Rattle.actor_turn.specs.Act.{whole};
ghost use Rattle.actor_turn.specs.Side.{times_of};
ghost use Rattle.actor_turn.specs.Ready.{IsReady};
ghost use Rattle.due_pass.specs.Time.{run_of};

use crate::link_pass::pass_due_links;
use crate::part_pass::pass_due_parts;
use actor_turn::gear::RowGear;
use actor_turn::next::either;
use port_rows::World;
use sim_base::Steps;
use std::sync::ledger::Ledger;
use tick_law::{Actor, Charter};

/// Time `t`: the parts and then the links whose next time it is step, and wake those that see a change. One step is charged for
/// each, and they are the actors that are awake at an edge at `t`. The answer says whether one made progress.
pub fn due_time<P: Actor + Drop, N: Actor + Drop, C: Charter<P, N>, L: Ledger, M: Ledger>(
    world: &mut World<P, N>,
    gear: &mut RowGear,
    t: u64,
    steps: &mut Steps<L>,
    looks: &mut Steps<M>,
) -> bool
    requires fitted { Fitted (run_of P.machine N.machine gear.old.parts gear.old.links C.start)
        P.valid N.valid gear.old.recs.room gear.old.recs.room
        gear.old.parts.periods.items gear.old.links.periods.items }
    requires boundary { IsBoundary
        (run_of P.machine N.machine gear.old.parts gear.old.links C.start) t
        (whole world.old.parts.items world.old.links.items world.old.rows.ports)
        (times_of gear.old.parts gear.old.next) (times_of gear.old.links gear.old.next) }
    requires ready { IsReady gear.old (length world.old.parts.items)
        (length world.old.links.items) world.old.rows }
    requires time { t ≤ LATEST_TIME }
    requires room { length gear.old.recs.items
        + 64 * (own_to gear.old.parts.wiring (length C.start.world.parts)
        + own_to gear.old.links.wiring (length C.start.world.links)) ≤ gear.old.recs.room }

    ensures boundary { IsBoundary (run_of P.machine N.machine gear.old.parts gear.old.links C.start)
        (t + 1) (whole world.new.parts.items world.new.links.items world.new.rows.ports)
        (times_of gear.old.parts gear.new.next) (times_of gear.old.links gear.new.next) }
    ensures ready { IsReady gear.new (length world.new.parts.items)
        (length world.new.links.items) world.new.rows }
    ensures parts { gear.new.parts ≡ gear.old.parts }
    ensures links { gear.new.links ≡ gear.old.links }
    ensures room { gear.new.recs.room ≡ gear.old.recs.room }
    ensures records { gear.new.recs.items ≡ gear.old.recs.items
        ++ records_at_time (run_of P.machine N.machine gear.old.parts gear.old.links C.start) t }
    ensures flag { result
        ≡ stirs_at (run_of P.machine N.machine gear.old.parts gear.old.links C.start) t }
    ensures steps { steps.new ≡ steps.old
        + awake_now (run_of P.machine N.machine gear.old.parts gear.old.links C.start) t }
{
    let parts = pass_due_parts(world, gear, t, steps, looks);
    let links = pass_due_links(world, gear, t, steps, looks);
    either(parts, links)
}
