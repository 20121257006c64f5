//! The tasks that a hub hands out, and what is given back.
ghost use Rattle.std.specs.Prelude.{◌≡◌, ◌+◌};
ghost use Rattle.tick_law.specs.PlanView.{system_from};
ghost use Rattle.run_hub.specs.Tasks.{PartTask, LinkTask};

use away_rows::Body;
use hub_floor::{link_steps, part_steps};
use sim_base::{ActorNo, Phase, Steps, Time};
use std::marker::{Model, PhantomData};
use std::sync::ledger::Ledger;
use tick_law::{Actor, Charter};

/// What a task is: the step of an actor in the pass of a time.
#[derive(Clone, Copy, Debug, PartialEq, Eq, Drop)]
pub struct TaskName {
    pub at: Time,
    pub phase: Phase,
    pub actor: ActorNo,
}

/// An actor that is out, with its ports.
#[derive(Drop)]
pub enum Away<P: Drop, N: Drop> {
    Part(Box<Body<P>>),
    Link(Box<Body<N>>),
}

/// A step that is to be made: an actor and its ports before it. The step's edge is one at which the actor is awake, or was asked to
/// step.
#[derive(Drop)]
pub struct Task<P: Actor + Drop, N: Actor + Drop, C: Charter<P, N>> {
    pub(crate) name: TaskName,
    /// The number of the actor among those of its side.
    pub(crate) no: u32,
    pub(crate) away: Away<P, N>,
    pub(crate) of: PhantomData<C>,
}

impl<P: Actor + Drop, N: Actor + Drop, C: Charter<P, N>> Model for Task<P, N, C> {
    ghost use Rattle.tick_law.specs.PlanView.{system_from};
    ghost use Rattle.run_hub.specs.declared.task.TaskName.{TaskName};
    ghost use Rattle.run_hub.specs.Tasks.{IsTaskOf};

    ghost Value = { TaskName };

    ghost view = { λ t. t.name };

    ghost invariant = { λ t. IsTaskOf (system_from P.machine N.machine C.plan C.start) t.name t.no t.away };
}

/// A step that was made: the actor, its ports and its records after it.
#[derive(Drop)]
pub struct Done<P: Actor + Drop, N: Actor + Drop, C: Charter<P, N>> {
    pub(crate) name: TaskName,
    pub(crate) no: u32,
    pub(crate) away: Away<P, N>,
    /// Whether the step made progress.
    pub(crate) flag: bool,
    pub(crate) of: PhantomData<C>,
}

impl<P: Actor + Drop, N: Actor + Drop, C: Charter<P, N>> Model for Done<P, N, C> {
    ghost use Rattle.tick_law.specs.PlanView.{system_from};
    ghost use Rattle.run_hub.specs.declared.task.TaskName.{TaskName};
    ghost use Rattle.run_hub.specs.Tasks.{IsDoneOf};

    ghost Value = { TaskName };

    ghost view = { λ d. d.name };

    ghost invariant = { λ d. IsDoneOf (system_from P.machine N.machine C.plan C.start) d.name d.no d.away d.flag };
}

impl<P: Actor + Drop, N: Actor + Drop, C: Charter<P, N>> Task<P, N, C> {
    /// The time, the pass and the actor of the step.
    pub fn name(&self) -> TaskName
        ensures { result ≡ self.now }
    {
        self.name
    }
}

impl<P: Actor + Drop, N: Actor + Drop, C: Charter<P, N>> Done<P, N, C> {
    /// The time, the pass and the actor of the step.
    pub fn name(&self) -> TaskName
        ensures { result ≡ self.now }
    {
        self.name
    }
}

fn work_part<P: Actor + Drop, N: Actor + Drop, C: Charter<P, N>, L: Ledger>(
    name: TaskName,
    no: u32,
    mut body: Box<Body<P>>,
    steps: &mut Steps<L>,
) -> Done<P, N, C>
    requires { PartTask (system_from P.machine N.machine C.plan C.start) name no body.value }
    ensures name { result ≡ name }
    ensures steps { steps.new ≡ steps.old + 1 }
{
    let flag = part_steps::<P, N, C, L>(&mut body, no, name.at.0, steps);
    Done {
        name,
        no,
        away: Away::Part(body),
        flag,
        of: PhantomData,
    }
}

fn work_link<P: Actor + Drop, N: Actor + Drop, C: Charter<P, N>, L: Ledger>(
    name: TaskName,
    no: u32,
    mut body: Box<Body<N>>,
    steps: &mut Steps<L>,
) -> Done<P, N, C>
    requires { LinkTask (system_from P.machine N.machine C.plan C.start) name no body.value }
    ensures name { result ≡ name }
    ensures steps { steps.new ≡ steps.old + 1 }
{
    let flag = link_steps::<P, N, C, L>(&mut body, no, name.actor, name.at.0, steps);
    Done {
        name,
        no,
        away: Away::Link(body),
        flag,
        of: PhantomData,
    }
}

/// Makes the step of a task. One step is charged.
pub fn work<P: Actor + Drop, N: Actor + Drop, C: Charter<P, N>, L: Ledger>(
    task: Task<P, N, C>,
    steps: &mut Steps<L>,
) -> Done<P, N, C>
    ensures name { result ≡ task }
    ensures steps { steps.new ≡ steps.old + 1 }
{
    let Task {
        name,
        no,
        away,
        of: _,
    } = task;
    match away {
        Away::Part(body) => work_part(name, no, body, steps),
        Away::Link(body) => work_link(name, no, body, steps),
    }
}
