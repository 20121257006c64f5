ghost use Rattle.std.specs.Prelude.{◌≡◌, ◌+◌, ◌<◌, ◌≤◌, true, false, is_some};
ghost use Rattle.sim_io.specs.Sink.{Rose};
ghost use Rattle.tick_law.specs.PlanView.{system_from};
ghost use Rattle.tick_law.specs.Verdict.{awake_below};
ghost use Rattle.run_gear.specs.Counted.{counted_with};
ghost use Rattle.phase_engine.specs.Between.{records_between, GotBetween, GotSomeBetween};
ghost use Rattle.phase_engine.specs.Run.{IsRun};

use crate::next_due::next_due;
use crate::one_time::one_time;
use crate::run::Run;
use run_gear::{count, later};
use sim_base::Steps;
use sim_io::Sink;
use std::sync::ledger::{Blank, Ledger};
use task_stats::Stats;
use tick_law::{Actor, Charter};
use trace_out::write_records;

/// The times from the run's boundary on and up to its greatest time at which somebody is due, each with the lines of its records
/// and the counts of its requests. The answer says whether all were written: else the run stands behind the time whose line failed.
/// Looks at the heap are counted by a counter that is made of `blank`.
pub fn run_due<P: Actor + Drop, N: Actor + Drop, C: Charter<P, N>, K: Sink, L: Ledger, M: Ledger>(
    run: &mut Run<P, N>,
    all: bool,
    stats: &mut Option<Stats>,
    sink: &mut K,
    steps: &mut Steps<L>,
    blank: Blank,
) -> bool
    requires name { blank.name ≡ M.name }
    requires parts { blank.parts ≡ M.parts }
    requires some { 0 < blank.parts }
    requires run { IsRun P.machine N.machine P.valid N.valid C.plan C.start run.old }

    ensures run { IsRun P.machine N.machine P.valid N.valid C.plan C.start run.new }
    ensures onward { run.old.at ≤ run.new.at }
    ensures steps { steps.new
        + awake_below (system_from P.machine N.machine C.plan C.start) run.old.at
        ≡ steps.old
        + awake_below (system_from P.machine N.machine C.plan C.start) run.new.at }
    ensures counted { stats.new ≡ counted_with stats.old
        (records_between (system_from P.machine N.machine C.plan C.start) run.old.at run.new.at) }
    ensures to_end { result ≡ true → run.new.at ≡ C.plan.until + 1 }
    ensures whole { result ≡ true → GotBetween C.plan
        (system_from P.machine N.machine C.plan C.start) all run.old.at run.new.at
        (K.told sink.old) (K.told sink.new) }
    ensures fault { result ≡ false → Rose (K.faults sink.old) (K.faults sink.new) }
    ensures prefix { result ≡ false → GotSomeBetween C.plan
        (system_from P.machine N.machine C.plan C.start) all run.old.at run.new.at
        (K.told sink.old) (K.told sink.new) }
    ensures never_falls { K.faults sink.old ≤ K.faults sink.new }
    ensures telling { is_some (K.told sink.new) ≡ is_some (K.told sink.old) }
{
    let mut looks = Steps::<M>::open(blank);
    let bound = run.until + 1;
    let mut t = next_due(&run.gear.next, run.at, bound, &mut looks);
    while t < bound {
        let stirred = one_time::<P, N, C, L, M>(
            &mut run.world,
            &mut run.gear,
            t,
            steps,
            &mut looks,
        );
        run.end = later(stirred, t, run.end);
        count(stats, &run.gear.recs);
        match write_records(&run.gear.recs, &run.names, all, sink) {
            Ok(()) => {}
            Err(_) => {
                run.at = t + 1;
                return false;
            }
        }
        t = next_due(&run.gear.next, t + 1, bound, &mut looks);
    }
    run.at = bound;
    true
}
