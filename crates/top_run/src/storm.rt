ghost use Rattle.std.specs.Prelude.{◌≡◌, ◌+◌, IfOk, OnOk};
ghost use Rattle.top_run.specs.declared.run.Engine.TheVariants.{Sleeping};
ghost use Rattle.top_run.specs.Top.{plan_verdict, plan_steps, storm_summary};

use crate::nowhere::Nowhere;
use crate::summary::summary_of;
use part_kind::{LinkKind, Part};
use phase_engine::run_plan;
use run_gear::{Kept, RunFault};
use sim_base::{OutOfMemory, Steps};
use state_view::RunEnd;
use std::alloc::Global;
use std::sync::ledger::Ledger;
use tick_law::{Plan, Verdict};
use trace_out::Line;

/// What a storm shows at its end.
#[derive(Drop)]
pub struct Stormed {
    pub verdict: Verdict,
    pub summary: Line,
}

/// Runs the plan of a storm of so many agents by the sleeping engine, which writes no lines, and makes the summary.
pub fn run_storm<L: Ledger>(
    alloc: Global,
    agents: u32,
    plan: Plan<Part, LinkKind>,
    steps: &mut Steps<L>,
) -> Result<Stormed, OutOfMemory>
    ensures verdict { IfOk result (λ stormed. stormed.verdict ≡ plan_verdict plan) }
    ensures summary { IfOk result (λ stormed. stormed.summary.items ≡ storm_summary agents plan) }
    ensures steps { OnOk result (steps.new ≡ steps.old
        + plan_steps Sleeping plan (plan.until + 1)) }
{
    let kept = Kept {
        all: false,
        stats: None,
    };
    let budget = plan.until;
    let ending = match run_plan(alloc, plan, kept, &mut Nowhere::new(), steps) {
        Ok(ending) => ending,
        Err(RunFault::Trace(_)) => unreachable!(),
        Err(RunFault::OutOfMemory) => return Err(OutOfMemory),
    };
    let end = RunEnd {
        budget,
        verdict: ending.verdict,
        end: ending.end,
    };
    Ok(Stormed {
        verdict: ending.verdict,
        summary: summary_of(agents, end, &ending.world.parts, &ending.world.links),
    })
}
