//! Next times of actors: what a step leaves, and how it is noted.
ghost use Rattle.std.specs.Prelude.{◌≡◌, ℕ, ◌+◌, ◌/◌, ◌^◌, ◌<◌, ◌≤◌, ◌||◌, length, slice_set, true, Option};
ghost use Rattle.sim_base.specs.declared.time.TheConstants.{LATEST_TICK};
ghost use Rattle.event_queue.specs.NextTimes.{time_of};
ghost use Rattle.actor_turn.specs.Next.{left_by};
ghost use Rattle.model_laws.specs.NextTable.{next_by};
ghost use Rattle.model_laws.specs.SideTimes.{number_of, timed};

use crate::side::{SideGear, TurnAt};
use event_queue::NextTimes;
use sim_base::{ActorNo, Steps, Time};
use std::sync::ledger::Ledger;
use tick_law::Actor;

/// Whether one of two holds.
pub fn either(a: bool, b: bool) -> bool
    ensures { result ≡ (a || b) }
{
    a || b
}

/// The next time that a step of this actor at its edge `t`, which is the one of this number, leaves, in picoseconds.
fn left_at_edge<S: Actor>(actor: &S, t: u64, cycle: u64, flag: bool) -> Option<u64>
    requires time { t ≤ LATEST_TICK }
    requires cycle { cycle ≡ t / S.machine.period actor.now }
    ensures { (old : Option ℕ) → result ≡ next_by true S.machine t flag old actor.now }
{
    actor.known();
    let period = actor.period();
    if flag {
        return Some(t + period);
    }
    match actor.due(cycle) {
        Some(cycle) => Some(cycle * period),
        None => None,
    }
}

/// The next time of an actor becomes this one, in picoseconds, whatever it was before.
pub fn set_next<L: Ledger>(
    next: &mut NextTimes,
    who: ActorNo,
    time: Option<u64>,
    looks: &mut Steps<L>,
)
    requires { who.0 < length next.old }
    ensures { next.new ≡ slice_set next.old who.0 (timed time) }
{
    match time {
        Some(t) => next.set(who, Time(t), looks),
        None => next.clear(who, looks),
    }
}

impl SideGear {
    /// The next time that a step at `t` leaves this actor of this side, in picoseconds. The old one stays where it has no edge
    /// there.
    pub fn next_of<S: Actor>(&self, actor: &S, t: u64, flag: bool, old: Option<u64>) -> Option<u64>
        requires time { t ≤ LATEST_TICK }
        ensures { result ≡ left_by S.machine t flag old actor.now }
    {
        match self.beat.cycle_at(t, actor.period()) {
            Some(cycle) => left_at_edge(actor, t, cycle, flag),
            None => old,
        }
    }

    /// Notes the next time that the step of an actor of this side in its turn leaves it.
    pub fn note_next<S: Actor, L: Ledger>(
        &self,
        actor: &S,
        turn: &TurnAt,
        flag: bool,
        next: &mut NextTimes,
        looks: &mut Steps<L>,
    )
        requires there { self.now.first + turn.now.no < length next.old }
        requires few { self.now.first + turn.now.no < 2 ^ 32 }
        requires time { turn.now.t ≤ LATEST_TICK }
        ensures { next.new ≡ slice_set next.old (self.now.first + turn.now.no)
            (timed (left_by S.machine turn.now.t flag
            (number_of (time_of next.old (self.now.first + turn.now.no))) actor.now)) }
    {
        let Some(cycle) = turn.beat.cycle_at(turn.t, actor.period()) else {
            return;
        };
        let left = left_at_edge(actor, turn.t, cycle, flag);
        set_next(next, ActorNo(self.first + turn.no), left, looks);
    }
}
