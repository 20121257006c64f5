ghost use Rattle.std.specs.Prelude.{◌≡◌, ◌+◌, ◌≤◌};
ghost use Rattle.sim_base.specs.declared.time.TheConstants.{LATEST_TIME};
ghost use Rattle.tick_law.specs.SerialLoop.{records_at_time, stirs_at};
ghost use Rattle.tick_law.specs.PlanView.{system_from};
ghost use Rattle.tick_law.specs.Verdict.{awake_now};
ghost use Rattle.phase_engine.specs.RunGear.{IsRunGear, IsDueBy, IsAt};

use actor_turn::gear::RowGear;
use due_pass::time::due_time;
use port_rows::World;
use sim_base::Steps;
use std::sync::ledger::Ledger;
use tick_law::{Actor, Charter};

/// Time `t`, at which somebody is due: those whose next time it is step. The list of records has those of this time alone.
pub fn one_time<P: Actor + Drop, N: Actor + Drop, C: Charter<P, N>, L: Ledger, M: Ledger>(
    world: &mut World<P, N>,
    gear: &mut RowGear,
    t: u64,
    steps: &mut Steps<L>,
    looks: &mut Steps<M>,
) -> bool
    requires gear { IsRunGear P.machine N.machine P.valid N.valid C.plan C.start
        world.old gear.old }
    requires at { IsAt P.machine N.machine C.plan C.start t world.old gear.old.next }
    requires due { IsDueBy gear.old.next t }
    requires time { t ≤ LATEST_TIME }

    ensures gear { IsRunGear P.machine N.machine P.valid N.valid C.plan C.start world.new gear.new }
    ensures at { IsAt P.machine N.machine C.plan C.start (t + 1) world.new gear.new.next }
    ensures records { gear.new.recs.items
        ≡ records_at_time (system_from P.machine N.machine C.plan C.start) t }
    ensures flag { result ≡ stirs_at (system_from P.machine N.machine C.plan C.start) t }
    ensures steps { steps.new ≡ steps.old
        + awake_now (system_from P.machine N.machine C.plan C.start) t }
{
    gear.begin(t);
    due_time::<P, N, C, L, M>(world, gear, t, steps, looks)
}
