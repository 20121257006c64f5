ghost use Rattle.std.specs.Prelude.{◌≡◌, ◌+◌, ◌≤◌, is_some, option_copied, IfOk, IfErr, OnOk};
ghost use Rattle.sim_io.specs.Sink.{Rose};
ghost use Rattle.port_rows.specs.World.{state_of};
ghost use Rattle.tick_law.specs.SerialLoop.{world_at, records_below, end_below};
ghost use Rattle.tick_law.specs.PlanView.{opening, system_from};
ghost use Rattle.tick_law.specs.Verdict.{verdict_at, awake_below};
ghost use Rattle.sim_base.specs.declared.time.TheConstants.{LATEST_TIME};
ghost use Rattle.model_laws.specs.Fitted.{IsSetUp};
ghost use Rattle.run_gear.specs.Counted.{counted_with};
ghost use Rattle.run_gear.specs.Written.{GotLines, GotSomeLines};
ghost use Rattle.phase_engine.specs.RunGear.{AreNextTimes};
ghost use Rattle.phase_engine.specs.Asleep.{WhoWaitsIsAsleep};

use crate::advance::advance_due;
use crate::run::Run;
use crate::run_lines::run_due;
use crate::run_open::open_due;
use crate::verdict::verdict_of;
use port_rows::World;
use run_gear::{Ending, Kept, TraceFault};
use sim_base::{OutOfMemory, Steps, Time};
use sim_io::Sink;
use std::alloc::Global;
use std::marker::{Brand, Model, PhantomData};
use std::sync::ledger::{Blank, Ledger};
use task_stats::Stats;
use tick_law::{Actor, Charter, Plan, Verdict};

/// The sleeping engine of the run that `C` has: its plan, and where it begins. It has a world, how far it has come, and what was
/// counted of requests. It ticks the actors that are awake, and no others.
#[derive(Drop)]
pub struct Engine<P: Actor + Drop, N: Actor + Drop, C: Charter<P, N>> {
    run: Run<P, N>,
    stats: Option<Stats>,
    of: PhantomData<C>,
}

impl<P: Actor + Drop, N: Actor + Drop, C: Charter<P, N>> Model for Engine<P, N, C> {
    ghost use Rattle.phase_engine.specs.Engine.{EngineView, engine_view};
    ghost use Rattle.phase_engine.specs.Run.{IsRun};

    ghost Value = { EngineView P N };

    ghost view = { λ e. engine_view e.run e.stats };

    ghost invariant = { λ e. IsRun P.machine N.machine P.valid N.valid C.plan C.start e.run };
}

impl<P: Actor + Drop, N: Actor + Drop, C: Charter<P, N>> Engine<P, N, C> {
    /// The engine at its beginning: boundary 0, and the world that the plan starts from. After this nothing takes memory. On
    /// refusal the plan is dropped.
    pub fn open(alloc: Global, plan: Plan<P, N>) -> Result<Self, OutOfMemory>
        requires plan { plan ≡ C.plan }
        requires start { C.start ≡ opening C.plan }
        ensures boundary { IfOk result (λ e. e.at ≡ 0) }
        ensures world { IfOk result
            (λ e. e.world ≡ world_at (system_from P.machine N.machine C.plan C.start) 0) }
        ensures times { IfOk result
            (λ e. AreNextTimes (system_from P.machine N.machine C.plan C.start) 0 e.next) }
    {
        let run = open_due::<P, N, C, Brand>(alloc, plan, Blank::new(1))?;
        Ok(Engine {
            run,
            stats: None,
            of: PhantomData,
        })
    }

    /// Runs from the beginning to the plan's greatest time, and writes each time's lines and counts its requests, as far as they
    /// are to be kept. A failed write ends the run at the boundary behind its time. It takes no memory, and charges a step for
    /// each actor that is awake at an edge.
    pub fn run<K: Sink, L: Ledger>(
        &mut self,
        kept: Kept,
        sink: &mut K,
        steps: &mut Steps<L>,
    ) -> Result<Verdict, TraceFault>
        requires beginning { self.old.at ≡ C.start.at }

        ensures verdict { IfOk result
            (λ v. v ≡ verdict_at (system_from P.machine N.machine C.plan C.start) C.plan.until) }
        ensures to_end { OnOk result (self.new.at ≡ C.plan.until + 1) }
        ensures lines { OnOk result (GotLines C.plan
            (system_from P.machine N.machine C.plan C.start) kept.all (C.plan.until + 1)
            (K.told sink.old) (K.told sink.new)) }

        ensures upto { IfErr result (λ f. f.upto.0 ≡ self.new.at) }
        ensures fault { IfErr result (λ f. Rose (K.faults sink.old) (K.faults sink.new)) }
        ensures prefix { IfErr result (λ f. GotSomeLines C.plan
            (system_from P.machine N.machine C.plan C.start) kept.all f.upto.0 (K.told sink.old)
            (K.told sink.new)) }

        ensures within { self.new.at ≤ C.plan.until + 1 }
        ensures world { self.new.world
            ≡ world_at (system_from P.machine N.machine C.plan C.start) self.new.at }
        ensures times { AreNextTimes
            (system_from P.machine N.machine C.plan C.start) self.new.at self.new.next }
        ensures asleep { WhoWaitsIsAsleep (system_from P.machine N.machine C.plan C.start)
            self.new.at self.new.world self.new.next }
        ensures end { self.new.end
            ≡ end_below (system_from P.machine N.machine C.plan C.start) self.new.at }
        ensures stats { self.new.stats ≡ counted_with kept.stats
            (records_below (system_from P.machine N.machine C.plan C.start) self.new.at) }
        ensures steps { steps.new ≡ steps.old
            + awake_below (system_from P.machine N.machine C.plan C.start) self.new.at }
        ensures never_falls { K.faults sink.old ≤ K.faults sink.new }
        ensures telling { is_some (K.told sink.new) ≡ is_some (K.told sink.old) }
    {
        let Kept { all, stats } = kept;
        self.stats = stats;
        let run = &mut self.run;
        let stats = &mut self.stats;
        if !run_due::<P, N, C, K, L, Brand>(run, all, stats, sink, steps, Blank::new(1)) {
            return Err(TraceFault { upto: Time(run.at) });
        }
        Ok(verdict_of::<P, N, C, Brand>(run, Blank::new(1)))
    }

    /// Goes on to the boundary behind time `t`, and writes nothing. It takes no memory, and charges a step for each actor that is
    /// awake at an edge on the way.
    pub fn advance_to<L: Ledger>(&mut self, t: Time, steps: &mut Steps<L>)
        requires forward { self.old.at ≤ t.0 + 1 }
        requires within { t.0 ≤ C.plan.until }

        ensures boundary { self.new.at ≡ t.0 + 1 }
        ensures world { self.new.world ≡ world_at (system_from P.machine N.machine C.plan C.start)
            (t.0 + 1) }
        ensures times { AreNextTimes (system_from P.machine N.machine C.plan C.start)
            (t.0 + 1) self.new.next }
        ensures asleep { WhoWaitsIsAsleep (system_from P.machine N.machine C.plan C.start)
            (t.0 + 1) self.new.world self.new.next }
        ensures end { self.new.end ≡ end_below (system_from P.machine N.machine C.plan C.start)
            (t.0 + 1) }
        ensures steps { steps.new
            + awake_below (system_from P.machine N.machine C.plan C.start) self.old.at
            ≡ steps.old
            + awake_below (system_from P.machine N.machine C.plan C.start) (t.0 + 1) }
    {
        advance_due::<P, N, C, L, Brand>(&mut self.run, t.0 + 1, steps, Blank::new(1));
    }

    /// What its run keeps: all that is asked of it, and that its boundary is at most the one behind the latest time that runs.
    pub fn known(&self)
        ensures set_up { IsSetUp (system_from P.machine N.machine C.plan C.start)
            P.valid N.valid }
        ensures within { self.now.at ≤ LATEST_TIME + 1 }
    {
        let _run = &self.run;
    }

    /// The world at the engine's boundary.
    pub fn world(&self) -> &World<P, N>
        ensures value { state_of result.now ≡ self.now.world }
        ensures serial { state_of result.now
            ≡ world_at (system_from P.machine N.machine C.plan C.start) self.now.at }
    {
        &self.run.world
    }

    /// The last time below the boundary at which an actor made progress, or 0, in picoseconds.
    pub fn end_time(&self) -> Time
        ensures value { result.0 ≡ self.now.end }
        ensures serial { result.0
            ≡ end_below (system_from P.machine N.machine C.plan C.start) self.now.at }
    {
        Time(self.run.end)
    }

    /// What the last run counted of requests, where it counted them.
    pub fn stats(&self) -> Option<&Stats>
        ensures { option_copied result ≡ self.now.stats }
    {
        self.stats.as_ref()
    }

    /// What the run leaves with this verdict, of an engine that is done with.
    pub fn into_ending(self, verdict: Verdict) -> Ending<P, N>
        ensures world { state_of result.world ≡ self.world }
        ensures verdict { result.verdict ≡ verdict }
        ensures end { result.end.0 ≡ self.end }
        ensures stats { result.stats ≡ self.stats }
    {
        let Engine { run, stats, of: _ } = self;
        let end = Time(run.end);
        Ending {
            world: run.world,
            verdict,
            end,
            stats,
        }
    }
}
