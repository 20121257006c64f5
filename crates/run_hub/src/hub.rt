ghost use Rattle.std.specs.Prelude.{◌≡◌, ◌+◌, ◌<◌, ◌≤◌, [], length, replicate, is_some, None, Some, true, false};
ghost use Rattle.sim_io.specs.Sink.{Rose};
ghost use Rattle.task_stats.specs.Tasks.{no_tasks, after_records};
ghost use Rattle.port_rows.specs.World.{state_of};
ghost use Rattle.tick_law.specs.PlanView.{system_from};
ghost use Rattle.tick_law.specs.SerialLoop.{world_at, records_below, end_below};
ghost use Rattle.tick_law.specs.Verdict.{verdict_at};
ghost use Rattle.run_gear.specs.Written.{GotLines, GotSomeLines, IsCut};
ghost use Rattle.hub_laws.specs.Events.{is_over, paused_to, wanted, left_now};
ghost use Rattle.run_hub.specs.Asks.{part_asked, edge_told};
ghost use Rattle.run_hub.specs.Claims.{Claims};
ghost use Rattle.run_hub.specs.Ending.{reached};
ghost use Rattle.run_hub.specs.Finishes.{Finishes};
ghost use Rattle.run_hub.specs.Swaps.{Swaps};

use crate::ask::ask_with;
use crate::batch::Batch;
use crate::claim::{Claim, claim_with};
use crate::ending::{Ending, ending_of};
use crate::finish::{Finish, finish_with};
use crate::home::Home;
use crate::opening::Opening;
use crate::swap::{MOST_WORKERS, Swapped, swap_with};
use crate::task::Done;
use crate::trace::Trace;
use crate::words::set_words;
use hub_floor::Floor;
use hub_laws::Stage;
use sim_base::{PartNo, Time};
use sim_io::Sink;
use std::marker::{Brand, Model, PhantomData};
use std::sync::ledger::Blank;
use tick_law::{Actor, Charter};

/// The run that `C` has, whose actors step in any order: it hands out the steps of actors that are due, and takes them back. What it
/// has written since it was opened is what the serial loop records.
#[derive(Drop)]
pub struct Hub<
    P: Actor + Drop,
    N: Actor + Drop,
    V: Drop,
    K: Sink + Drop,
    C: Charter<P, N> + Opening,
> {
    pub(crate) floor: Floor<P, N>,
    pub(crate) trace: Trace<K>,
    pub(crate) home: Home<P, N>,
    pub(crate) until: u64,
    pub(crate) viewer: V,
    pub(crate) of: PhantomData<C>,
}

impl<P: Actor + Drop, N: Actor + Drop, V: Drop, K: Sink + Drop, C: Charter<P, N> + Opening> Model
    for Hub<P, N, V, K, C> {
    ghost use Rattle.tick_law.specs.PlanView.{system_from};
    ghost use Rattle.run_hub.specs.GoesOn.{trace_view};
    ghost use Rattle.run_hub.specs.Hub.{HubView, hub_view, IsHub};

    ghost Value = { HubView };

    ghost view = { λ h. hub_view h.floor (trace_view K.told K.faults h.trace) };

    ghost invariant = { λ h. IsHub (system_from P.machine N.machine C.plan C.start) P.valid N.valid
        C.plan C.all C.told C.faults h.floor h.until h.home (trace_view K.told K.faults h.trace) };
}

impl<P: Actor + Drop, N: Actor + Drop, V: Drop, K: Sink + Drop, C: Charter<P, N> + Opening> Hub<
    P,
    N,
    V,
    K,
    C,
> {
    /// Hands out the step of the actor of least number that is due in the pass that is open. At a boundary the least time begins
    /// first, or the run is over. It takes no memory.
    #[tactic(auto, using(crate::proofs::WrittenLaws::written_on))]
    pub fn claim(&mut self) -> Claim<P, N, C>
        ensures claims { Claims (length C.start.world.parts) C.plan.until
            self.old.state self.new.state result }
        ensures trace { self.new.trace ≡ self.old.trace }
    {
        claim_with::<P, N, C, Brand>(&mut self.floor, self.until, Blank::new(1))
    }

    /// Takes back a step that was handed out. Where all actors of its pass are back the next pass opens, or the time is over and
    /// its lines are written. A step that is not out here is given back, and nothing changes. It takes no memory.
    pub fn finish(&mut self, done: Done<P, N, C>) -> Finish<P, N, C>
        ensures { Finishes (system_from P.machine N.machine C.plan C.start)
            (length C.start.world.parts) self.old.state self.new.state
            self.old.trace self.new.trace done result }
    {
        finish_with::<P, N, C, K, Brand>(&mut self.floor, &mut self.trace, done, Blank::new(1))
    }

    /// Takes back the steps of a batch, in order, and drops those that are not out here. Then the share of one of so many workers goes
    /// out into the batch: those of least number that wait, after the least time has begun where it is at a boundary. It takes no
    /// memory.
    pub fn swap(&mut self, batch: &mut Batch<P, N, C>, workers: u32) -> Swapped
        requires worked { batch.old.tasks ≡ [] }
        requires some { 1 ≤ workers }
        requires few { workers ≤ MOST_WORKERS }
        ensures { Swaps (system_from P.machine N.machine C.plan C.start)
            (length C.start.world.parts) C.plan.until workers self.old.state self.new.state
            self.old.trace self.new.trace batch.old batch.new result }
    {
        swap_with::<P, N, C, K, Brand>(
            &mut self.floor,
            &mut self.trace,
            self.until,
            batch,
            workers,
            Blank::new(1),
        )
    }

    /// The boundary in picoseconds: all times below it are done. In a pass it is the time of the pass.
    pub fn boundary(&self) -> Time
        ensures { result.0 ≡ self.now.state.at }
    {
        Time(self.floor.at)
    }

    /// Whether the run is over.
    pub fn over(&self) -> bool
        ensures { result ≡ is_over self.now.state.stage }
    {
        matches!(self.floor.stage, Stage::Over)
    }

    /// The boundary in picoseconds, exactly where it is above `t` or the run is over; else None.
    pub fn reached(&self, t: Time) -> Option<Time>
        ensures { result ≡ reached self.now.state t.0 }
    {
        if t.0 < self.floor.at || self.over() {
            Some(Time(self.floor.at))
        } else {
            None
        }
    }

    /// How many ticks were asked for.
    pub fn asks(&self) -> u64
        ensures { result ≡ self.now.state.asks }
    {
        self.floor.asks
    }

    /// How many want to look.
    pub fn wants(&self) -> u32
        ensures { result ≡ self.now.state.wants }
    {
        self.floor.wants
    }

    /// No pass opens any more until it is resumed.
    #[tactic(auto, using(crate::proofs::WrittenLaws::written_on))]
    pub fn pause(&mut self)
        ensures state { self.new.state ≡ paused_to true self.old.state }
        ensures trace { self.new.trace ≡ self.old.trace }
    {
        let (wants, left) = (self.floor.wants, self.floor.left);
        set_words::<P, N, C>(&mut self.floor, true, wants, left);
    }

    /// Passes open again.
    #[tactic(auto, using(crate::proofs::WrittenLaws::written_on))]
    pub fn resume(&mut self)
        ensures state { self.new.state ≡ paused_to false self.old.state }
        ensures trace { self.new.trace ≡ self.old.trace }
    {
        let (wants, left) = (self.floor.wants, self.floor.left);
        set_words::<P, N, C>(&mut self.floor, false, wants, left);
    }

    /// One more wants to look, before which no pass opens.
    #[tactic(auto, using(crate::proofs::WrittenLaws::written_on))]
    pub fn want(&mut self)
        requires few { self.old.state.wants < 4 }
        ensures state { self.new.state ≡ wanted self.old.state }
        ensures trace { self.new.trace ≡ self.old.trace }
    {
        let (paused, wants, left) = (self.floor.paused, self.floor.wants, self.floor.left);
        set_words::<P, N, C>(&mut self.floor, paused, wants + 1, left);
    }

    /// Nobody lingers at the end.
    #[tactic(auto, using(crate::proofs::WrittenLaws::written_on))]
    pub fn leave(&mut self)
        ensures state { self.new.state ≡ left_now self.old.state }
        ensures trace { self.new.trace ≡ self.old.trace }
    {
        let (paused, wants) = (self.floor.paused, self.floor.wants);
        set_words::<P, N, C>(&mut self.floor, paused, wants, true);
    }

    /// Asks for a tick of a part, which then steps once at its first edge from the boundary on, or after the time whose pass is open,
    /// also where it is not awake. The answer is that edge in picoseconds, or None where it is above the greatest time or the run is
    /// over. The ask is counted either way.
    #[tactic(auto, using(crate::proofs::WrittenLaws::written_on))]
    pub fn ask_tick(&mut self, part: PartNo) -> Option<Time>
        requires { part.0 < length C.start.world.parts }
        ensures state { self.new.state
            ≡ part_asked (system_from P.machine N.machine C.plan C.start)
            C.plan.until self.old.state part.0 }
        ensures edge { result ≡ edge_told (system_from P.machine N.machine C.plan C.start)
            C.plan.until self.old.state part.0 }
        ensures trace { self.new.trace ≡ self.old.trace }
    {
        ask_with::<P, N, C, Brand>(&mut self.floor, self.until, part.0, Blank::new(1))
    }

    /// Whether lingering is over.
    pub fn left(&self) -> bool
        ensures { result ≡ self.now.state.left }
    {
        self.floor.left
    }

    /// The sink of a hub that is given up, at any stage: it has the lines of all times below the boundary, or a part of them where
    /// a write failed.
    pub fn give_up(self) -> K
        ensures told { K.told result ≡ self.trace.told }
        ensures faults { K.faults result ≡ self.trace.faults }
        ensures whole { self.state.failed ≡ false → GotLines C.plan
            (system_from P.machine N.machine C.plan C.start) C.all self.state.at
            C.told (K.told result) }
        ensures part { self.state.failed ≡ true → GotSomeLines C.plan
            (system_from P.machine N.machine C.plan C.start) C.all self.state.at
            C.told (K.told result) }
        ensures fault { self.state.failed ≡ true → Rose C.faults (K.faults result) }
    {
        let Hub {
            floor: _,
            trace,
            home: _,
            until: _,
            viewer: _,
            of: _,
        } = self;
        trace.sink
    }

    /// What a hub leaves whose run is over. Where no write failed the world, the verdict, the ending time and the lines are those of
    /// the serial loop up to the greatest time; else those up to the boundary behind the time whose line failed, with no verdict.
    pub fn end(self) -> Ending<P, N, K>
        requires over { is_over self.state.stage ≡ true }

        ensures upto { result.upto.0 ≡ self.state.at }
        ensures world { state_of result.world
            ≡ world_at (system_from P.machine N.machine C.plan C.start) result.upto.0 }
        ensures end { result.end.0
            ≡ end_below (system_from P.machine N.machine C.plan C.start) result.upto.0 }
        ensures stats { result.stats ≡ after_records (replicate (length C.plan.parts) no_tasks)
            (records_below (system_from P.machine N.machine C.plan C.start) result.upto.0) }
        ensures asks { result.asks ≡ self.state.asks }
        ensures extra { result.extra ≡ self.state.extra }

        ensures to_end { self.state.failed ≡ false → result.upto.0 ≡ C.plan.until + 1 }
        ensures verdict { self.state.failed ≡ false → result.verdict
            ≡ Some (verdict_at (system_from P.machine N.machine C.plan C.start) C.plan.until) }
        ensures lines { self.state.failed ≡ false → GotLines C.plan
            (system_from P.machine N.machine C.plan C.start) C.all result.upto.0
            C.told (K.told result.sink) }

        ensures none { self.state.failed ≡ true → result.verdict ≡ None }
        ensures fault { self.state.failed ≡ true → IsCut C.plan
            (system_from P.machine N.machine C.plan C.start) C.all result.upto.0
            C.faults (K.faults result.sink) C.told (K.told result.sink) }
        ensures never_falls { C.faults ≤ K.faults result.sink }
        ensures telling { is_some (K.told result.sink) ≡ is_some C.told }
    {
        let Hub {
            floor,
            trace,
            home,
            until: _,
            viewer: _,
            of: _,
        } = self;
        ending_of::<P, N, C, K, Brand>(floor, trace, home, Blank::new(1))
    }
}
