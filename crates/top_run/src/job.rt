ghost use Rattle.std.specs.Prelude.{◌≡◌, ◌≤◌, ◌<◌, ℕ, List, length, None, Some, Ok, Err, IfOk, IfErr, IfSome};
ghost use Rattle.sim_io.specs.Sink.{Rose};
ghost use Rattle.sim_config.specs.Meaning.{config_of};
ghost use Rattle.world_query.specs.Legend.{legend_of, IsQueryOf};
ghost use Rattle.plan_show.specs.Question.{query_in};
ghost use Rattle.top_run.specs.Words.{latest, IsFew};
ghost use Rattle.top_run.specs.Job as spec;
ghost use Rattle.top_run.specs.Top.{ReadFailed, IsFaultOfFile};

use crate::command::{Command, FileName, Options};
use crate::machine::Machine;
use crate::program_breach::{ProgramBreach, ProgramRule};
use crate::programs::read_programs;
use crate::refusal::Refusal;
use crate::run::Engine;
use elf_load::Image;
use part_kind::{LinkKind, Part};
use plan_check::{PlanFault, build};
use plan_rules::Breach;
use plan_show::{Question, query_of};
use ring_plan::ring_plan;
use sim_base::Time;
use sim_config::{ConfigFault, ConfigRule, LONGEST_CONFIG, PlanText, TableNo, read_config};
use sim_io::{FileFault, Files};
use std::alloc::Global;
use storm_gen::storm_plan;
use tick_law::Plan;
use world_query::{Directory, Query};

/// What is done with a machine.
#[derive(Clone, Copy, Debug, PartialEq, Eq)]
pub enum Work {
    /// It is run by an engine, and its report is written.
    Run(Engine, Options),
    /// A line tells of it.
    Check,
    /// It is run, and a query about its world at the boundary behind its greatest time is answered.
    Show(Query),
    /// It is run as the storm of so many agents that it is, and its summary is written.
    Storm(u32),
}

/// A machine, and what is done with it.
#[derive(Drop)]
pub struct Job {
    pub machine: Machine,
    pub work: Work,
}

/// What the bytes of a file write.
fn text_of(alloc: Global, bytes: &[u8]) -> Result<PlanText, Refusal>
    ensures text { IfOk result (λ text. config_of bytes.now ≡ Ok text) }
    ensures fault { IfErr result (spec.IsFaultOfText (λ fault. config_of bytes.now ≡ Err fault)) }
{
    match read_config(alloc, bytes) {
        Ok(text) => Ok(text),
        Err(ConfigFault::Broken { rule, table, key }) => {
            Err(Refusal::Config(ConfigFault::Broken { rule, table, key }))
        }
        Err(ConfigFault::OutOfMemory) => Err(Refusal::OutOfMemory),
    }
}

/// What a file writes. A file that is too long is refused by the rule of configurations that says so.
fn read_text<F: Files>(alloc: Global, files: &mut F, file: &FileName) -> Result<PlanText, Refusal>
    ensures text { IfOk result (λ text. spec.Gave (F.contents files.old file.now)
        (λ bytes. config_of bytes ≡ Ok text)) }

    ensures fault { IfErr result (spec.IsFaultOfReading
        (λ name. (name ≡ file.now)
        × Rose (F.faults files.old file.now) (F.faults files.new file.now))
        (λ fault. spec.Gave (F.contents files.old file.now)
        (λ bytes. config_of bytes ≡ Err fault))) }

    ensures contents { (name : List ℕ) → F.contents files.new name ≡ F.contents files.old name }
    ensures never_falls { (name : List ℕ) → F.faults files.old name ≤ F.faults files.new name }
{
    match files.read_file(alloc, file.as_str(), LONGEST_CONFIG) {
        Ok(bytes) => text_of(alloc, &bytes),
        Err(FileFault::Failed) => Err(Refusal::Read(FileName::of(alloc, file.as_str())?)),
        Err(FileFault::TooLong) => Err(Refusal::Config(ConfigFault::Broken {
            rule: ConfigRule::TooLong,
            table: TableNo::Top,
            key: None,
        })),
        Err(FileFault::OutOfMemory) => Err(Refusal::OutOfMemory),
    }
}

/// The text with this budget in place of its own.
fn with_budget(text: PlanText, until: Option<Time>) -> PlanText
    requires within { IfSome until (λ t. t.0 ≤ latest) }
    ensures { result ≡ spec.with_budget until text }
{
    match until {
        Some(until) => PlanText { until, ..text },
        None => text,
    }
}

/// The machine of a text with its programs, or the rule that it breaks.
fn machine_of_text(alloc: Global, text: &PlanText, images: &[Image]) -> Result<Machine, Refusal>
    requires count { length images.now ≡ length text.now.programs }

    ensures machine { IfOk result (λ machine.
        spec.machine_of_plan images.now text.now ≡ Ok machine) }
    ensures fault { IfErr result (spec.IsFaultOfPlan
        (λ rule. spec.machine_of_plan images.now text.now ≡ Err rule)) }
{
    match build(alloc, text, images) {
        Ok(plan) => Ok(Machine {
            plan,
            programs: images.len(),
        }),
        Err(PlanFault::Broken { rule, table }) => Err(Refusal::Plan(Breach { rule, table })),
        Err(PlanFault::Unmapped { program, at }) => Err(Refusal::Program(ProgramBreach {
            program: program as usize,
            rule: ProgramRule::SegmentUnmapped,
            at,
        })),
        Err(PlanFault::OutOfMemory) => Err(Refusal::OutOfMemory),
    }
}

/// The machine of a file, with this budget in place of its own.
fn file_machine<F: Files>(
    alloc: Global,
    files: &mut F,
    file: &FileName,
    until: Option<Time>,
) -> Result<Machine, Refusal>
    requires within { IfSome until (λ t. t.0 ≤ latest) }

    ensures machine { IfOk result (λ machine. spec.MeansFile
        (spec.AreOwn (F.contents files.old)) until file.now (Ok machine)) }
    ensures fault { IfErr result (IsFaultOfFile
        (λ name. spec.IsNameOfFile (spec.AreOwn (F.contents files.old)) file.now name
        × Rose (F.faults files.old name) (F.faults files.new name))
        (λ rule. spec.MeansFile
        (spec.AreOwn (F.contents files.old)) until file.now (Err rule))) }

    ensures contents { (name : List ℕ) → F.contents files.new name ≡ F.contents files.old name }
{
    let text = read_text(alloc, files, file)?;
    let images = read_programs(alloc, files, text.programs.items())?;
    let text = with_budget(text, until);
    machine_of_text(alloc, &text, &images)
}

/// The job of a file whose machine is told by a line.
fn check_job<F: Files>(alloc: Global, files: &mut F, file: &FileName) -> Result<Job, Refusal>
    ensures job { IfOk result (λ job. spec.MeansJob
        (spec.AreOwn (F.contents files.old)) spec.checked None file.now (Ok job)) }
    ensures within { IfOk result (λ job. spec.IsWorkOf job.machine job.work) }
    ensures fault { IfErr result (IsFaultOfFile
        (λ name. spec.IsNameOfFile (spec.AreOwn (F.contents files.old)) file.now name
        × Rose (F.faults files.old name) (F.faults files.new name))
        (λ rule. spec.MeansJob
        (spec.AreOwn (F.contents files.old)) spec.checked None file.now (Err rule))) }

    ensures contents { (name : List ℕ) → F.contents files.new name ≡ F.contents files.old name }
{
    let machine = file_machine(alloc, files, file, None)?;
    Ok(Job {
        machine,
        work: Work::Check,
    })
}

/// The job of a file whose machine is run by an engine, with the options that the words give.
fn run_job<F: Files>(
    alloc: Global,
    files: &mut F,
    file: &FileName,
    engine: Engine,
    options: Options,
) -> Result<Job, Refusal>
    requires within { IfSome options.until (λ t. t.0 ≤ latest) }

    ensures job { IfOk result (λ job. spec.MeansJob (spec.AreOwn (F.contents files.old))
        (spec.run_with engine options) options.until file.now (Ok job)) }
    ensures within { IfOk result (λ job. spec.IsWorkOf job.machine job.work) }
    ensures fault { IfErr result (IsFaultOfFile
        (λ name. spec.IsNameOfFile (spec.AreOwn (F.contents files.old)) file.now name
        × Rose (F.faults files.old name) (F.faults files.new name))
        (λ rule. spec.MeansJob (spec.AreOwn (F.contents files.old))
        (spec.run_with engine options) options.until file.now (Err rule))) }

    ensures contents { (name : List ℕ) → F.contents files.new name ≡ F.contents files.old name }
{
    let machine = file_machine(alloc, files, file, options.until)?;
    Ok(Job {
        machine,
        work: Work::Run(engine, options),
    })
}

/// The query that a question is about a plan's machine.
fn query_about(
    alloc: Global,
    plan: &Plan<Part, LinkKind>,
    question: &Question,
) -> Result<Query, Refusal>
    ensures query { IfOk result (λ query. query_in plan.now question.now ≡ Ok query) }
    ensures within { IfOk result (IsQueryOf (legend_of plan.now)) }
    ensures fault { IfErr result (spec.IsFaultOfName
        (λ unknown. query_in plan.now question.now ≡ Err unknown)) }
{
    let directory = Directory::open(alloc, plan)?;
    match query_of(&directory, question) {
        Ok(query) => Ok(query),
        Err(unknown) => Err(Refusal::Name(unknown)),
    }
}

/// The job of a file about whose machine a question is answered, once it has run up to a time.
fn show_job<F: Files>(
    alloc: Global,
    files: &mut F,
    file: &FileName,
    at: Time,
    question: &Question,
) -> Result<Job, Refusal>
    requires within { at.0 ≤ latest }

    ensures job { IfOk result (λ job. spec.MeansJob (spec.AreOwn (F.contents files.old))
        (spec.shown question.now) (Some at) file.now (Ok job)) }
    ensures within { IfOk result (λ job. spec.IsWorkOf job.machine job.work) }
    ensures fault { IfErr result (IsFaultOfFile
        (λ name. spec.IsNameOfFile (spec.AreOwn (F.contents files.old)) file.now name
        × Rose (F.faults files.old name) (F.faults files.new name))
        (λ rule. spec.MeansJob (spec.AreOwn (F.contents files.old))
        (spec.shown question.now) (Some at) file.now (Err rule))) }

    ensures contents { (name : List ℕ) → F.contents files.new name ≡ F.contents files.old name }
{
    let machine = file_machine(alloc, files, file, Some(at))?;
    let query = query_about(alloc, &machine.plan, question)?;
    Ok(Job {
        machine,
        work: Work::Show(query),
    })
}

/// The job of a storm of so many agents, whose machine is that of its plan.
fn storm_job(alloc: Global, agents: u32) -> Result<Job, Refusal>
    requires few { IsFew agents }

    ensures job { IfOk result (λ job. spec.storm_meaning agents ≡ Ok job) }
    ensures within { IfOk result (λ job. spec.IsWorkOf job.machine job.work) }
    ensures fault { IfErr result (spec.IsFaultOfPlan
        (λ rule. spec.storm_meaning agents ≡ Err rule)) }
{
    let text = storm_plan(alloc, agents)?;
    let machine = machine_of_text(alloc, &text, &[])?;
    Ok(Job {
        machine,
        work: Work::Storm(agents),
    })
}

/// The job of a command: its file is read, then the rules of configurations are tried, then the programs that the file names are
/// read, then the rules of plans are tried, then the names of a question are looked up.
pub fn read_job<F: Files>(alloc: Global, command: &Command, files: &mut F) -> Result<Job, Refusal>
    requires within { spec.IsWithin command.now }

    ensures job { IfOk result (λ job. spec.Means (F.contents files.old) command.now (Ok job)) }
    ensures within { IfOk result (λ job. spec.IsWorkOf job.machine job.work) }

    ensures fault { IfErr result (IsFaultOfFile
        (λ name. ReadFailed
        (F.contents files.old) (F.faults files.old) (F.faults files.new) command.now name)
        (λ rule. spec.Means (F.contents files.old) command.now (Err rule))) }

    ensures contents { (name : List ℕ) → F.contents files.new name ≡ F.contents files.old name }
    ensures unread { spec.IsFileless command.now → files.new ≡ files.old }
{
    match command {
        Command::Ring(ring) => {
            let machine = Machine {
                plan: ring_plan(alloc, ring.relays, ring.until)?,
                programs: 0,
            };
            Ok(Job {
                machine,
                work: Work::Run(Engine::Sleeping, Options::NONE),
            })
        }
        Command::Check(file) => check_job(alloc, files, file),
        Command::Run(file, options) => run_job(alloc, files, file, Engine::Sleeping, *options),
        Command::Slow(file, options) => run_job(alloc, files, file, Engine::Serial, *options),
        Command::Show(file, at, question) => show_job(alloc, files, file, *at, question),
        Command::Storm(agents) => storm_job(alloc, *agents),
    }
}
