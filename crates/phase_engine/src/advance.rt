ghost use Rattle.std.specs.Prelude.{◌≡◌, ◌+◌, ◌<◌, ◌≤◌};
ghost use Rattle.tick_law.specs.PlanView.{system_from};
ghost use Rattle.tick_law.specs.Verdict.{awake_below};
ghost use Rattle.phase_engine.specs.Run.{IsRun};

use crate::next_due::next_due;
use crate::one_time::one_time;
use crate::run::Run;
use run_gear::later;
use sim_base::Steps;
use std::sync::ledger::{Blank, Ledger};
use tick_law::{Actor, Charter};

/// The times from the run's boundary on and below `upto` at which somebody is due. Looks at the heap are counted by a counter that
/// is made of `blank`.
pub fn advance_due<P: Actor + Drop, N: Actor + Drop, C: Charter<P, N>, L: Ledger, M: Ledger>(
    run: &mut Run<P, N>,
    upto: u64,
    steps: &mut Steps<L>,
    blank: Blank,
)
    requires name { blank.name ≡ M.name }
    requires parts { blank.parts ≡ M.parts }
    requires some { 0 < blank.parts }
    requires run { IsRun P.machine N.machine P.valid N.valid C.plan C.start run.old }
    requires forward { run.old.at ≤ upto }
    requires within { upto ≤ C.plan.until + 1 }

    ensures run { IsRun P.machine N.machine P.valid N.valid C.plan C.start run.new }
    ensures at { run.new.at ≡ upto }
    ensures steps { steps.new
        + awake_below (system_from P.machine N.machine C.plan C.start) run.old.at
        ≡ steps.old
        + awake_below (system_from P.machine N.machine C.plan C.start) upto }
{
    let mut looks = Steps::<M>::open(blank);
    let mut t = next_due(&run.gear.next, run.at, upto, &mut looks);
    while t < upto {
        let stirred = one_time::<P, N, C, L, M>(
            &mut run.world,
            &mut run.gear,
            t,
            steps,
            &mut looks,
        );
        run.end = later(stirred, t, run.end);
        t = next_due(&run.gear.next, t + 1, upto, &mut looks);
    }
    run.at = upto;
}
