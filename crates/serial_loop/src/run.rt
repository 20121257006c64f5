//! All times of a run, from edge to edge.
ghost use Rattle.std.specs.Prelude.{◌≡◌, ◌+◌, ◌≤◌, Err, IfErr, IfOk, OnErr, OnOk};
ghost use Rattle.sim_io.specs.Sink.{Rose};
ghost use Rattle.tick_law.specs.SerialLoop.{world_at, records_below, edges_below};
ghost use Rattle.tick_law.specs.PlanView.{opening, system_from};
ghost use Rattle.tick_law.specs.Verdict.{verdict_at, end_at};
ghost use Rattle.port_rows.specs.World.{state_of};
ghost use Rattle.run_gear.specs.Counted.{counted_with};
ghost use Rattle.run_gear.specs.IsOpened.{IsOpened};
ghost use Rattle.run_gear.specs.Written.{GotLines, GotSomeLines};
ghost use Rattle.serial_loop.specs.IsAt.{IsAt};

use crate::edges::next_edge;
use crate::table::NextTables;
use crate::time::tick_time;
use crate::verdict::verdict_of;
use run_gear::{Ending, Kept, Opened, TraceFault, count, later};
use sim_base::{Steps, Time};
use sim_io::Sink;
use std::sync::ledger::Ledger;
use tick_law::{Actor, Charter};
use trace_out::write_records;

/// All times of a run up to its greatest one, from edge to edge, each with the lines of its records.
pub fn run_opened<P: Actor + Drop, N: Actor + Drop, C: Charter<P, N>, K: Sink, L: Ledger>(
    opened: Opened<P, N>,
    mut next: NextTables,
    kept: Kept,
    sink: &mut K,
    steps: &mut Steps<L>,
) -> Result<Ending<P, N>, TraceFault>
    requires opened { IsOpened P.machine N.machine P.valid N.valid C.plan opened }
    requires start { C.start ≡ opening C.plan }
    requires at { IsAt P.machine N.machine C.plan C.start 0 opened.world next }

    ensures world { IfOk result (λ e. state_of e.world
        ≡ world_at (system_from P.machine N.machine C.plan C.start) (C.plan.until + 1)) }
    ensures verdict { IfOk result
        (λ e. e.verdict
        ≡ verdict_at (system_from P.machine N.machine C.plan C.start) C.plan.until) }
    ensures end { IfOk result (λ e. e.end.0
        ≡ end_at (system_from P.machine N.machine C.plan C.start) C.plan.until) }
    ensures steps { OnOk result (steps.new ≡ steps.old
        + edges_below (system_from P.machine N.machine C.plan C.start) (C.plan.until + 1)) }
    ensures lines { OnOk result (GotLines C.plan
        (system_from P.machine N.machine C.plan C.start) kept.all (C.plan.until + 1) (K.told sink.old)
        (K.told sink.new)) }
    ensures stats { IfOk result (λ e. e.stats ≡ counted_with kept.stats
        (records_below (system_from P.machine N.machine C.plan C.start) (C.plan.until + 1))) }
    ensures upto { IfErr result (λ f. f.upto.0 ≤ C.plan.until + 1) }
    ensures fault { OnErr result (Rose (K.faults sink.old) (K.faults sink.new)) }
    ensures prefix { IfErr result (λ f. GotSomeLines C.plan
        (system_from P.machine N.machine C.plan C.start) kept.all f.upto.0 (K.told sink.old)
        (K.told sink.new)) }
    ensures fault_steps { IfErr result
        (λ f. steps.new ≡ steps.old
        + edges_below (system_from P.machine N.machine C.plan C.start) f.upto.0) }
    ensures never_falls { K.faults sink.old ≤ K.faults sink.new }
{
    let Opened {
        mut world,
        mut gear,
        names,
        until,
    } = opened;
    let Kept { all, mut stats } = kept;
    let last = until.0;
    let mut end = 0;
    let mut t = next_edge(&gear.parts.periods, &gear.links.periods, 0, last + 1);
    while t <= last {
        let stirred = tick_time::<P, N, C, L>(&mut world, &mut gear, &mut next, t, steps);
        end = later(stirred, t, end);
        count(&mut stats, &gear.recs);
        match write_records(&gear.recs, &names, all, sink) {
            Ok(()) => {}
            Err(_) => {
                return Err(TraceFault { upto: Time(t + 1) });
            }
        }
        t = next_edge(&gear.parts.periods, &gear.links.periods, t + 1, last + 1);
    }
    let verdict = verdict_of(&world.parts, &next);
    Ok(Ending {
        world,
        verdict,
        end: Time(end),
        stats,
    })
}
