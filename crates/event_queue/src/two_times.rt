ghost use Rattle.std.specs.Prelude.{◌≡◌, ℕ, ◌+◌, ◌<◌, true, false, Some, None, length, replicate, slice_set, IsTrue, IfNone, IfOk, IfSome};
ghost use Rattle.bit_set.specs.Bits.{is_in};
ghost use Rattle.event_queue.specs.Mark.{AllMarked};
ghost use Rattle.event_queue.specs.NextTimes.{time_of, NoneDue, IsLeastDue};
ghost use Rattle.event_queue.specs.Merged.{IsLeastIn};

use crate::key::Key;
use crate::lesser::lesser;
use crate::one_time::OneTime;
use bit_set::BitSet;
use sim_base::{ActorNo, OutOfMemory, Time};
use std::alloc::Global;
use std::marker::Model;

/// An optional time for each actor, where those that have one have one of two times.
#[derive(Drop)]
pub struct TwoTimes {
    one: OneTime,
    other: OneTime,
}

impl Model for TwoTimes {
    ghost use Rattle.std.specs.Prelude.{List, Option};
    ghost use Rattle.sim_base.specs.declared.time.Time.{Time};
    ghost use Rattle.event_queue.specs.Merged.{merged, IsApart};

    ghost Value = { List (Option Time) };

    ghost view = { λ n. merged n.one n.other };

    ghost invariant = { λ n. IsApart n.one n.other };
}

impl TwoTimes {
    /// No actor has a time.
    pub fn open(alloc: Global, actors: u32) -> Result<TwoTimes, OutOfMemory>
        ensures { IfOk result (λ next. next ≡ replicate actors None) }
    {
        Ok(TwoTimes {
            one: OneTime::open(alloc, actors)?,
            other: OneTime::open(alloc, actors)?,
        })
    }

    /// The time of an actor.
    pub fn next_of(&self, who: ActorNo) -> Option<Time>
        requires { who.0 < length self.now }
        ensures { result ≡ time_of self.now who.0 }
    {
        match self.one.next_of(who) {
            Some(t) => Some(t),
            None => self.other.next_of(who),
        }
    }

    /// An actor has no time.
    pub fn clear(&mut self, who: ActorNo)
        requires { who.0 < length self.old }
        ensures { self.new ≡ slice_set self.old who.0 None }
    {
        self.one.clear(who);
        self.other.clear(who);
    }

    /// Whether an actor that gets this time belongs to the second of the two: it has the time, and the first has another.
    fn joins_other(&self, t: Time) -> bool {
        self.other.has_time(t) && !self.one.has_time(t)
    }

    /// Gives an actor that has no time this one, where it is one of the two or fewer than two are there. Whether it did.
    pub fn join(&mut self, who: ActorNo, t: Time) -> bool
        requires known { who.0 < length self.old }
        requires absent { time_of self.old who.0 ≡ None }

        ensures joined { IsTrue result → self.new ≡ slice_set self.old who.0 (Some t) }
        ensures refused { result ≡ false → self.new ≡ self.old }
    {
        if self.joins_other(t) {
            return self.other.join(who, t);
        }
        if self.one.join(who, t) {
            return true;
        }
        self.other.join(who, t)
    }

    /// The least time with the least actor that has it. None where no actor has a time.
    pub fn first(&self) -> Option<Key>
        ensures { IsLeastIn self.now result }
    {
        lesser(self.one.first(), self.other.first())
    }

    /// The least actor, from `from` on and below `below`, whose time is `t`.
    pub fn due_at(&self, t: Time, from: ActorNo, below: ActorNo) -> Option<ActorNo>
        ensures none { IfNone result (NoneDue self.now t from.0 below.0) }
        ensures least { IfSome result (λ who. IsLeastDue self.now t from.0 below.0 who.0) }
    {
        match self.one.due_at(t, from, below) {
            Some(who) => match self.other.due_at(t, from, who) {
                Some(less) => Some(less),
                None => Some(who),
            },
            None => match self.other.due_at(t, from, below) {
                Some(who) => Some(who),
                None => None,
            },
        }
    }

    /// The marks become the actors whose time is `t`, from `from` on and below the end of the marks, each at its number from `from` on.
    pub fn take_due(&self, t: Time, from: ActorNo, due: &mut BitSet)
        ensures long { length due.new ≡ length due.old }
        ensures marked { AllMarked self.now t from.0 (length due.old) due.new }
        ensures only { (i : ℕ) → is_in due.new i ≡ true → time_of self.now (from.0 + i) ≡ Some t }
    {
        if !self.one.has_time(t) {
            self.other.take_due(t, from, due);
            return;
        }
        self.one.take_due(t, from, due);
        self.other.mark_due(t, from, due);
    }
}
