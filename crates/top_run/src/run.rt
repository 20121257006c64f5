ghost use Rattle.std.specs.Prelude.{◌≡◌, ◌+◌, ◌≤◌, ◌⊎◌, IfOk, IfErr, OnOk};
ghost use Rattle.port_rows.specs.World.{state_of};
ghost use Rattle.tick_law.specs.SerialLoop.{world_at, records_below};
ghost use Rattle.tick_law.specs.Verdict.{end_at};
ghost use Rattle.sim_io.specs.Sink.{Rose, Got};
ghost use Rattle.run_gear.specs.Counted.{counted_with};
ghost use Rattle.top_run.specs.Top.{loop_of, no_counts, plan_verdict, plan_report, plan_lines, plan_steps, PlanFailed, refusal_of, IsFaultOfEngine, IsFaultOfRun};

use crate::command::Options;
use crate::refusal::Refusal;
use part_kind::{LinkKind, Part};
use phase_engine::run_plan;
use run_gear::{Ending, Kept, RunFault, plan_names};
use serial_loop::run_serial;
use sim_base::{Body, OutOfMemory, Steps};
use sim_io::Sink;
use state_view::{RunEnd, report};
use std::alloc::Global;
use std::sync::ledger::Ledger;
use task_stats::Stats;
use tick_law::{Plan, Verdict};

/// How a machine is run.
#[derive(Clone, Copy, Debug, PartialEq, Eq)]
pub enum Engine {
    /// Only who is awake is ticked.
    Sleeping,
    /// Everybody is ticked at each edge.
    Serial,
}

/// What a run shows at its end.
#[derive(Drop)]
pub struct Shown {
    pub verdict: Verdict,
    pub report: Body,
}

/// The refusal that a fault of a run is.
fn refusal_of(fault: RunFault) -> Refusal
    ensures { result ≡ refusal_of fault }
{
    match fault {
        RunFault::Trace(fault) => Refusal::WriteAt(fault.upto),
        RunFault::OutOfMemory => Refusal::OutOfMemory,
    }
}

/// What is counted of the requests of so many parts before a run, where they are counted.
fn no_counts(alloc: Global, counted: bool, parts: usize) -> Result<Option<Stats>, OutOfMemory>
    requires few { parts ≤ 256 }
    ensures { IfOk result (λ stats. stats ≡ no_counts counted parts) }
{
    if !counted {
        return Ok(None);
    }
    Ok(Some(Stats::open(alloc, parts as u32)?))
}

/// Runs a plan by one of the engines, which writes the lines of the run.
fn run_by<K: Sink, L: Ledger>(
    alloc: Global,
    engine: Engine,
    plan: Plan<Part, LinkKind>,
    kept: Kept,
    out: &mut K,
    steps: &mut Steps<L>,
) -> Result<Ending<Part, LinkKind>, RunFault>
    ensures world { IfOk result (λ e. state_of e.world ≡ world_at (loop_of plan) (plan.until + 1)) }
    ensures verdict { IfOk result (λ e. e.verdict ≡ plan_verdict plan) }
    ensures end { IfOk result (λ e. e.end.0 ≡ end_at (loop_of plan) plan.until) }
    ensures steps { OnOk result (steps.new ≡ steps.old + plan_steps engine plan (plan.until + 1)) }
    ensures lines { OnOk result
        (Got (K.told out.old) (K.told out.new) (plan_lines kept.all plan (plan.until + 1))) }

    ensures stats { IfOk result (λ e. e.stats
        ≡ counted_with kept.stats (records_below (loop_of plan) (plan.until + 1))) }

    ensures fault { IfErr result (IsFaultOfEngine
        (λ d. Rose (K.faults out.old) (K.faults out.new)
        × PlanFailed kept.all plan (K.told out.old) (K.told out.new) d)
        (out.new ≡ out.old)) }

    ensures never_falls { K.faults out.old ≤ K.faults out.new }
{
    match engine {
        Engine::Sleeping => run_plan(alloc, plan, kept, out, steps),
        Engine::Serial => run_serial(alloc, plan, kept, out, steps),
    }
}

/// Runs a plan, which writes its lines, and makes the report.
pub fn show_run<K: Sink, L: Ledger>(
    alloc: Global,
    engine: Engine,
    plan: Plan<Part, LinkKind>,
    options: Options,
    out: &mut K,
    steps: &mut Steps<L>,
) -> Result<Shown, Refusal>
    ensures verdict { IfOk result (λ shown. shown.verdict ≡ plan_verdict plan) }
    ensures report { IfOk result (λ shown. shown.report ≡ plan_report options plan) }
    ensures lines { OnOk result
        (Got (K.told out.old) (K.told out.new) (plan_lines options.trace plan (plan.until + 1))) }
    ensures steps { OnOk result (steps.new ≡ steps.old + plan_steps engine plan (plan.until + 1)) }

    ensures fault { IfErr result (IsFaultOfRun
        (λ d. Rose (K.faults out.old) (K.faults out.new)
        × PlanFailed options.trace plan (K.told out.old) (K.told out.new) d)
        ((out.new ≡ out.old)
        ⊎ Got (K.told out.old) (K.told out.new) (plan_lines options.trace plan (plan.until + 1)))) }

    ensures never_falls { K.faults out.old ≤ K.faults out.new }
{
    let names = plan_names(alloc, &plan)?;
    let stats = no_counts(alloc, options.stats, plan.parts.len())?;
    let kept = Kept {
        all: options.trace,
        stats,
    };
    let budget = plan.until;
    let ending = match run_by(alloc, engine, plan, kept, out, steps) {
        Ok(ending) => ending,
        Err(fault) => return Err(refusal_of(fault)),
    };
    let end = RunEnd {
        budget,
        verdict: ending.verdict,
        end: ending.end,
    };
    let counts = ending.stats.as_ref();
    let report = report(alloc, &names, &ending.world, end, counts, options.dump)?;
    Ok(Shown {
        verdict: ending.verdict,
        report,
    })
}
