ghost use Rattle.std.specs.Prelude.{◌≡◌, ◌+◌, ◌<◌, ◌≤◌, ◌⊎◌, [], length, IfOk, IfErr, OnOk, OnErr};
ghost use Rattle.world_query.specs.Legend.{legend_of, IsQueryOf};
ghost use Rattle.sim_io.specs.Sink.{Rose, Got, GotPrefix};
ghost use Rattle.top_run.specs.declared.run.Engine.TheVariants.{Sleeping};
ghost use Rattle.top_run.specs.Job.{IsWorkOf};
ghost use Rattle.top_run.specs.Top.{check_line, shown_line, storm_summary, status_of, plan_verdict, plan_steps, job_status, all_lines, job_written, job_steps, Broke, FailedAt, FailedBehind, IsFaultOfJob};

use crate::job::{Job, Work};
use crate::machine::Machine;
use crate::refusal::Refusal;
use crate::run::show_run;
use crate::status::Status;
use crate::storm::run_storm;
use itoa::Buffer;
use part_kind::{LinkKind, Part};
use plan_show::show_plan;
use sim_base::{OutOfMemory, Steps};
use sim_io::Sink;
use std::alloc::Global;
use std::sync::ledger::Ledger;
use tick_law::Plan;
use trace_out::{Line, add};
use world_query::Query;

/// The line of a file that describes a machine. It takes no memory.
fn check_line(machine: &Machine) -> Line
    ensures { result.items ≡ check_line machine.now }
{
    let plan = &machine.plan;
    let mut digits = Buffer::new();
    let mut line = Line::new();
    add(&mut line, b"ok parts ");
    add(&mut line, digits.format(plan.parts.len()).as_bytes());
    add(&mut line, b" links ");
    add(&mut line, digits.format(plan.links.len()).as_bytes());
    add(&mut line, b" ports ");
    add(&mut line, digits.format(plan.ports.len()).as_bytes());
    add(&mut line, b" programs ");
    add(&mut line, digits.format(machine.programs).as_bytes());
    add(&mut line, b" until ");
    add(&mut line, digits.format(plan.until.0).as_bytes());
    add(&mut line, b"\n");
    line
}

fn write_report<K: Sink>(out: &mut K, report: &[u8]) -> Result<(), Refusal>
    requires some { 0 < length report.now }
    ensures ok { OnOk result (Got (K.told out.old) (K.told out.new) report.now) }
    ensures fault { OnErr result (Rose (K.faults out.old) (K.faults out.new)
        × GotPrefix (K.told out.old) (K.told out.new) report.now) }
    ensures write { IfErr result (λ refusal. refusal ≡ Refusal.Write) }
{
    out.write(report).map_err(|_| Refusal::Write)
}

/// Writes the line of a file that describes a machine.
fn check<K: Sink>(machine: &Machine, out: &mut K) -> Result<(), Refusal>
    ensures ok { OnOk result (Got (K.told out.old) (K.told out.new) (check_line machine.now)) }
    ensures fault { OnErr result (Rose (K.faults out.old) (K.faults out.new)) }
    ensures behind { OnErr result
        (Broke [] (check_line machine.now) (K.told out.old) (K.told out.new)) }
    ensures write { IfErr result (λ refusal. refusal ≡ Refusal.Write) }
{
    let line = check_line(machine);
    write_report(out, line.as_slice())
}

/// The answer to a query about a plan's machine at the boundary behind its greatest time, and a line feed.
fn shown_line<L: Ledger>(
    alloc: Global,
    plan: Plan<Part, LinkKind>,
    query: &Query,
    steps: &mut Steps<L>,
) -> Result<Vec<u8>, OutOfMemory>
    requires { IsQueryOf (legend_of plan) query.now }

    ensures line { IfOk result (λ line. line.items ≡ shown_line query.now plan) }
    ensures steps { OnOk result (steps.new ≡ steps.old
        + plan_steps Sleeping plan (plan.until + 1)) }
{
    let mut line = show_plan(alloc, plan, query, steps)?.into_vec();
    line.push(b'\n')?;
    Ok(line)
}

/// Runs a plan, and writes the answer to a query about its machine then.
fn show<K: Sink, L: Ledger>(
    alloc: Global,
    plan: Plan<Part, LinkKind>,
    query: &Query,
    out: &mut K,
    steps: &mut Steps<L>,
) -> Result<(), Refusal>
    requires { IsQueryOf (legend_of plan) query.now }

    ensures ok { OnOk result (Got (K.told out.old) (K.told out.new) (shown_line query.now plan)) }
    ensures steps { OnOk result (steps.new ≡ steps.old
        + plan_steps Sleeping plan (plan.until + 1)) }
    ensures fault { IfErr result (IsFaultOfJob
        (Rose (K.faults out.old) (K.faults out.new)
        × Broke [] (shown_line query.now plan) (K.told out.old) (K.told out.new))
        (λ _. ⊥) (out.new ≡ out.old)) }
{
    let line = shown_line(alloc, plan, query, steps)?;
    write_report(out, &line)
}

/// Runs the plan of a storm of so many agents, and writes its summary.
fn storm<K: Sink, L: Ledger>(
    alloc: Global,
    agents: u32,
    plan: Plan<Part, LinkKind>,
    out: &mut K,
    steps: &mut Steps<L>,
) -> Result<Status, Refusal>
    ensures status { IfOk result (λ status. status.0 ≡ status_of (plan_verdict plan)) }
    ensures ok { OnOk result
        (Got (K.told out.old) (K.told out.new) (storm_summary agents plan)) }
    ensures steps { OnOk result (steps.new ≡ steps.old
        + plan_steps Sleeping plan (plan.until + 1)) }
    ensures fault { IfErr result (IsFaultOfJob
        (Rose (K.faults out.old) (K.faults out.new)
        × Broke [] (storm_summary agents plan) (K.told out.old) (K.told out.new))
        (λ _. ⊥) (out.new ≡ out.old)) }
{
    let stormed = run_storm(alloc, agents, plan, steps)?;
    write_report(out, stormed.summary.as_slice())?;
    Ok(Status::of(stormed.verdict))
}

/// Does a job: runs its machine and writes the report, the answer to a query or the summary of a storm, or else writes the line of
/// a check.
pub fn carry_out<K: Sink, L: Ledger>(
    alloc: Global,
    job: Job,
    out: &mut K,
    steps: &mut Steps<L>,
) -> Result<Status, Refusal>
    requires within { IsWorkOf job.machine job.work }

    ensures status { IfOk result (λ status. status.0 ≡ job_status job) }
    ensures written { OnOk result (Got (K.told out.old) (K.told out.new) (job_written job)) }
    ensures steps { OnOk result (steps.new ≡ steps.old + job_steps job) }

    ensures fault { IfErr result (IsFaultOfJob
        (Rose (K.faults out.old) (K.faults out.new)
        × FailedBehind job (K.told out.old) (K.told out.new))
        (λ d. Rose (K.faults out.old) (K.faults out.new)
        × FailedAt job (K.told out.old) (K.told out.new) d)
        ((out.new ≡ out.old) ⊎ Got (K.told out.old) (K.told out.new) (all_lines job))) }
{
    match job.work {
        Work::Run(engine, options) => {
            let shown = show_run(alloc, engine, job.machine.plan, options, out, steps)?;
            write_report(out, shown.report.items())?;
            Ok(Status::of(shown.verdict))
        }
        Work::Check => {
            check(&job.machine, out)?;
            Ok(Status(0))
        }
        Work::Show(query) => {
            show(alloc, job.machine.plan, &query, out, steps)?;
            Ok(Status(0))
        }
        Work::Storm(agents) => storm(alloc, agents, job.machine.plan, out, steps),
    }
}
