ghost use Rattle.std.specs.Prelude.{◌≡◌, ◌+◌, ◌≤◌, Err, IfOk, OnOk};
ghost use Rattle.tick_law.specs.SerialLoop.{world_at, records_below, edges_below};
ghost use Rattle.tick_law.specs.PlanView.{opening, system_from, system_of};
ghost use Rattle.tick_law.specs.Verdict.{verdict_at, end_at};
ghost use Rattle.port_rows.specs.World.{state_of};
ghost use Rattle.run_gear.specs.Counted.{counted_with};
ghost use Rattle.run_gear.specs.Written.{GotLines, IsCut};
ghost use Rattle.run_gear.specs.declared.fault.TraceFault.{TraceFault};
ghost use Rattle.run_gear.specs.declared.fault.RunFault.{RunFault};

use crate::run::run_opened;
use crate::table::{NextTable, NextTables};
use run_gear::{Ending, Kept, RunFault, open_run};
use sim_base::Steps;
use sim_io::Sink;
use std::alloc::Global;
use std::marker::Brand;
use std::sync::ledger::Ledger;
use tick_law::{Actor, Charter, Plan};

fn run_of<P: Actor + Drop, N: Actor + Drop, C: Charter<P, N>, K: Sink, L: Ledger>(
    alloc: Global,
    plan: Plan<P, N>,
    kept: Kept,
    sink: &mut K,
    steps: &mut Steps<L>,
) -> Result<Ending<P, N>, RunFault>
    requires plan { plan ≡ C.plan }
    requires start { C.start ≡ opening C.plan }

    ensures world { IfOk result (λ e. state_of e.world
        ≡ world_at (system_from P.machine N.machine C.plan C.start) (C.plan.until + 1)) }
    ensures verdict { IfOk result
        (λ e. e.verdict
        ≡ verdict_at (system_from P.machine N.machine C.plan C.start) C.plan.until) }
    ensures end { IfOk result (λ e. e.end.0
        ≡ end_at (system_from P.machine N.machine C.plan C.start) C.plan.until) }
    ensures steps { OnOk result (steps.new ≡ steps.old
        + edges_below (system_from P.machine N.machine C.plan C.start) (C.plan.until + 1)) }
    ensures lines { OnOk result (GotLines C.plan
        (system_from P.machine N.machine C.plan C.start) kept.all (C.plan.until + 1)
        (K.told sink.old) (K.told sink.new)) }
    ensures stats { IfOk result (λ e. e.stats ≡ counted_with kept.stats
        (records_below (system_from P.machine N.machine C.plan C.start) (C.plan.until + 1))) }
    ensures fault { (f : TraceFault) → result ≡ Err (RunFault.Trace f) → IsCut C.plan
        (system_from P.machine N.machine C.plan C.start) kept.all f.upto.0 (K.faults sink.old)
        (K.faults sink.new) (K.told sink.old) (K.told sink.new) }
    ensures fault_steps { (f : TraceFault) → result ≡ Err (RunFault.Trace f) → steps.new
        ≡ steps.old + edges_below (system_from P.machine N.machine C.plan C.start) f.upto.0 }
    ensures memory { result ≡ Err RunFault.OutOfMemory → (sink.new ≡ sink.old)
        × (steps.new ≡ steps.old) }
    ensures never_falls { K.faults sink.old ≤ K.faults sink.new }
{
    let opened = open_run(alloc, plan)?;
    let parts = NextTable::open(alloc, opened.world.parts.len())?;
    let links = NextTable::open(alloc, opened.world.links.len())?;
    let next = NextTables { parts, links };
    match run_opened::<P, N, C, K, L>(opened, next, kept, sink, steps) {
        Ok(ending) => Ok(ending),
        Err(fault) => Err(RunFault::Trace(fault)),
    }
}

/// Runs a plan to its end by the loop that ticks everything, and writes the lines of all its records or of the bytes that cores
/// wrote, one write a line, and counts requests where that is asked for. One step is charged for each edge of each actor up to the
/// plan's greatest time. A failed write ends the run, and is told with the boundary behind its time.
pub fn run_serial<P: Actor + Drop, N: Actor + Drop, K: Sink, L: Ledger>(
    alloc: Global,
    plan: Plan<P, N>,
    kept: Kept,
    sink: &mut K,
    steps: &mut Steps<L>,
) -> Result<Ending<P, N>, RunFault>
    ensures world { IfOk result
        (λ e. state_of e.world ≡ world_at (system_of P.machine N.machine plan) (plan.until + 1)) }
    ensures verdict { IfOk result
        (λ e. e.verdict ≡ verdict_at (system_of P.machine N.machine plan) plan.until) }
    ensures end { IfOk result
        (λ e. e.end.0 ≡ end_at (system_of P.machine N.machine plan) plan.until) }
    ensures steps { OnOk result (steps.new ≡ steps.old
        + edges_below (system_of P.machine N.machine plan) (plan.until + 1)) }
    ensures lines { OnOk result (GotLines plan (system_of P.machine N.machine plan) kept.all
        (plan.until + 1) (K.told sink.old) (K.told sink.new)) }
    ensures stats { IfOk result (λ e. e.stats ≡ counted_with kept.stats
        (records_below (system_of P.machine N.machine plan) (plan.until + 1))) }
    ensures fault { (f : TraceFault) → result ≡ Err (RunFault.Trace f) → IsCut plan
        (system_of P.machine N.machine plan) kept.all f.upto.0 (K.faults sink.old) (K.faults sink.new)
        (K.told sink.old) (K.told sink.new) }
    ensures fault_steps { (f : TraceFault) → result ≡ Err (RunFault.Trace f) → steps.new
        ≡ steps.old + edges_below (system_of P.machine N.machine plan) f.upto.0 }
    ensures memory { result ≡ Err RunFault.OutOfMemory → (sink.new ≡ sink.old)
        × (steps.new ≡ steps.old) }
    ensures never_falls { K.faults sink.old ≤ K.faults sink.new }
{
    run_of::<P, N, Brand, K, L>(alloc, plan, kept, sink, steps)
}
