//! One time of the loop that ticks everything.
ghost use Rattle.std.specs.Prelude.{◌≡◌, ◌+◌, ◌≤◌};
ghost use Rattle.sim_base.specs.declared.time.TheConstants.{LATEST_TIME};
ghost use Rattle.tick_law.specs.SerialLoop.{records_at_time, stirs_at, edges_at};
ghost use Rattle.tick_law.specs.PlanView.{system_from};
ghost use Rattle.run_gear.specs.IsGear.{IsGear};
ghost use Rattle.serial_loop.specs.IsAt.{IsAt};

use crate::pass::{pass_links, pass_parts};
use crate::table::NextTables;
use crate::wake::wake_changed;
use actor_turn::next::either;
use port_rows::{SideOf, World};
use run_gear::Gear;
use sim_base::Steps;
use std::sync::ledger::Ledger;
use tick_law::{Actor, Charter};

/// Time `t`: the parts and then the links with an edge there step, and wake those that see a change. The list of records has
/// those of this time alone. The answer says whether one made progress.
pub fn tick_time<P: Actor + Drop, N: Actor + Drop, C: Charter<P, N>, L: Ledger>(
    world: &mut World<P, N>,
    gear: &mut Gear,
    next: &mut NextTables,
    t: u64,
    steps: &mut Steps<L>,
) -> bool
    requires gear { IsGear P.machine N.machine P.valid N.valid C.plan C.start gear.old }
    requires at { IsAt P.machine N.machine C.plan C.start t world.old next.old }
    requires time { t ≤ LATEST_TIME }

    ensures gear { IsGear P.machine N.machine P.valid N.valid C.plan C.start gear.new }
    ensures at { IsAt P.machine N.machine C.plan C.start (t + 1) world.new next.new }
    ensures records { gear.new.recs.items
        ≡ records_at_time (system_from P.machine N.machine C.plan C.start) t }
    ensures flag { result ≡ stirs_at (system_from P.machine N.machine C.plan C.start) t }
    ensures steps { steps.new ≡ steps.old
        + edges_at (system_from P.machine N.machine C.plan C.start) t }
{
    gear.recs.clear();
    let parts = pass_parts(world, gear, &mut next.parts, t, steps);
    wake_changed(
        &mut world.rows,
        SideOf::Links,
        &gear.links,
        t,
        &mut next.links,
    );
    let links = pass_links(world, gear, &mut next.links, t, steps);
    wake_changed(
        &mut world.rows,
        SideOf::Parts,
        &gear.parts,
        t + 1,
        &mut next.parts,
    );
    either(parts, links)
}
