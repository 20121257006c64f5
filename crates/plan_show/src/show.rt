ghost use Rattle.std.specs.Prelude.{◌≡◌, ◌+◌, ◌≤◌, IfOk, OnOk};
ghost use Rattle.tick_law.specs.SerialLoop.{world_at};
ghost use Rattle.tick_law.specs.PlanView.{opening, system_from, system_of};
ghost use Rattle.tick_law.specs.Verdict.{awake_below};
ghost use Rattle.part_kind.specs.Part.{part as kinds};
ghost use Rattle.part_kind.specs.LinkKind.{link as link_kinds};
ghost use Rattle.world_query.specs.Legend.{legend_of, IsQueryOf, IsWorldOf};
ghost use Rattle.part_view.specs.Bodies.{body_of};

use part_kind::{LinkKind, Part};
use part_view::PartViewer;
use phase_engine::Engine;
use sim_base::{Body, OutOfMemory, Steps, Time};
use std::alloc::Global;
use std::marker::Brand;
use std::sync::ledger::Ledger;
use tick_law::{Charter, Plan};
use world_query::{Query, Viewer};

/// An engine of a plan that has come to the boundary behind the plan's greatest time.
fn engine_at_end<C: Charter<Part, LinkKind>, L: Ledger>(
    alloc: Global,
    plan: Plan<Part, LinkKind>,
    steps: &mut Steps<L>,
) -> Result<Engine<Part, LinkKind, C>, OutOfMemory>
    requires plan { plan ≡ C.plan }
    requires start { C.start ≡ opening C.plan }

    ensures boundary { IfOk result (λ engine. engine.at ≡ C.plan.until + 1) }
    ensures steps { OnOk result (steps.new ≡ steps.old
        + awake_below (system_from kinds link_kinds C.plan C.start) (C.plan.until + 1)) }
{
    let until = plan.until;
    let mut engine = Engine::<Part, LinkKind, C>::open(alloc, plan)?;
    engine.advance_to(until, steps);
    Ok(engine)
}

/// Answers a query about the world of an engine of a plan behind the plan's greatest time.
fn answer_by<C: Charter<Part, LinkKind>>(
    alloc: Global,
    engine: &Engine<Part, LinkKind, C>,
    viewer: &PartViewer,
    query: &Query,
    at: Time,
) -> Result<Body, OutOfMemory>
    requires viewer { viewer.now ≡ legend_of C.plan }
    requires query { IsQueryOf viewer.now query.now }
    requires start { IsWorldOf (legend_of C.plan) C.start.world }
    requires boundary { engine.now.at ≡ C.plan.until + 1 }
    requires at { at.0 ≡ C.plan.until + 1 }

    ensures { IfOk result (λ body. body ≡ body_of viewer.now query.now
        (world_at (system_from kinds link_kinds C.plan C.start) (C.plan.until + 1)) (C.plan.until + 1)) }
{
    engine.known();
    viewer.view(alloc, query, engine.world(), at)
}

fn show_by<C: Charter<Part, LinkKind>, L: Ledger>(
    alloc: Global,
    plan: Plan<Part, LinkKind>,
    viewer: &PartViewer,
    query: &Query,
    steps: &mut Steps<L>,
) -> Result<Body, OutOfMemory>
    requires plan { plan ≡ C.plan }
    requires start { C.start ≡ opening C.plan }
    requires viewer { viewer.now ≡ legend_of C.plan }
    requires query { IsQueryOf viewer.now query.now }
    requires world { IsWorldOf (legend_of C.plan) C.start.world }

    ensures body { IfOk result (λ body. body ≡ body_of viewer.now query.now
        (world_at (system_from kinds link_kinds C.plan C.start) (C.plan.until + 1)) (C.plan.until + 1)) }
    ensures steps { OnOk result (steps.new ≡ steps.old
        + awake_below (system_from kinds link_kinds C.plan C.start) (C.plan.until + 1)) }
{
    let at = Time(plan.until.0 + 1);
    let engine = engine_at_end::<C, L>(alloc, plan, steps)?;
    answer_by(alloc, &engine, viewer, query, at)
}

/// Runs a plan to its greatest time by the sleeping engine, and answers a query about its world at the boundary behind it. One step
/// is charged for each actor that is awake at an edge up to there.
pub fn show_plan<L: Ledger>(
    alloc: Global,
    plan: Plan<Part, LinkKind>,
    query: &Query,
    steps: &mut Steps<L>,
) -> Result<Body, OutOfMemory>
    requires { IsQueryOf (legend_of plan) query.now }

    ensures body { IfOk result (λ body. body ≡ body_of (legend_of plan) query.now
        (world_at (system_of kinds link_kinds plan) (plan.until + 1)) (plan.until + 1)) }
    ensures steps { OnOk result (steps.new ≡ steps.old
        + awake_below (system_of kinds link_kinds plan) (plan.until + 1)) }
{
    let viewer = PartViewer::open(alloc, &plan)?;
    show_by::<Brand, L>(alloc, plan, &viewer, query, steps)
}
