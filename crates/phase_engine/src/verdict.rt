ghost use Rattle.std.specs.Prelude.{◌≡◌, ◌+◌, ◌<◌};
ghost use Rattle.tick_law.specs.PlanView.{system_from};
ghost use Rattle.tick_law.specs.Verdict.{verdict_at};
ghost use Rattle.phase_engine.specs.Run.{IsRun};

use crate::run::Run;
use run_gear::{are_done, verdict_at_rest};
use sim_base::Steps;
use std::sync::ledger::{Blank, Ledger};
use tick_law::{Actor, Charter, Verdict};

/// The verdict of a run that has come to its end, by the next times that are left and the parts that are done.
pub fn verdict_of<P: Actor + Drop, N: Actor + Drop, C: Charter<P, N>, M: Ledger>(
    run: &Run<P, N>,
    blank: Blank,
) -> Verdict
    requires name { blank.name ≡ M.name }
    requires parts { blank.parts ≡ M.parts }
    requires some { 0 < blank.parts }
    requires run { IsRun P.machine N.machine P.valid N.valid C.plan C.start run.now }
    requires over { run.now.at ≡ C.plan.until + 1 }
    ensures { result ≡ verdict_at (system_from P.machine N.machine C.plan C.start) C.plan.until }
{
    let mut looks = Steps::<M>::open(blank);
    match run.gear.next.first(run.gear.links.first, &mut looks) {
        Some(_) => Verdict::Cut,
        None => verdict_at_rest(are_done(&run.world.parts)),
    }
}
