ghost use Rattle.std.specs.Prelude.{◌≡◌, ◌≢◌, ℕ, ◌+◌, ◌<◌, true, false, Some, None, length, replicate, slice_set, IsTrue, IfNone, IfOk, IfSome};
ghost use Rattle.bit_set.specs.Bits.{is_in};
ghost use Rattle.event_queue.specs.Mark.{AllMarked, OnlyAdds, Keeps};
ghost use Rattle.event_queue.specs.NextTimes.{time_of, NoneDue, IsLeastDue};
ghost use Rattle.event_queue.specs.Merged.{IsLeastIn, NoTimes};

use crate::key::Key;
use bit_set::BitSet;
use sim_base::{ActorNo, OutOfMemory, Time};
use std::alloc::Global;
use std::marker::Model;

/// An optional time for each actor, where all that have one have the same: this time, and the set of those that have it.
#[derive(Drop)]
pub struct OneTime {
    time: Time,
    actors: BitSet,
}

impl Model for OneTime {
    ghost use Rattle.std.specs.Prelude.{List, Option, ◌<◌, ◌^◌, length};
    ghost use Rattle.sim_base.specs.declared.time.Time.{Time};
    ghost use Rattle.event_queue.specs.Merged.{times_in};

    ghost Value = { List (Option Time) };

    ghost view = { λ n. times_in n.time n.actors };

    ghost invariant = { λ n. length n.actors < 2 ^ 32 };
}

impl OneTime {
    /// No actor has a time.
    pub fn open(alloc: Global, actors: u32) -> Result<OneTime, OutOfMemory>
        ensures { IfOk result (λ next. next ≡ replicate actors None) }
    {
        Ok(OneTime {
            time: Time(0),
            actors: BitSet::open(alloc, actors)?,
        })
    }

    /// The time of an actor.
    pub fn next_of(&self, who: ActorNo) -> Option<Time>
        requires { who.0 < length self.now }
        ensures { result ≡ time_of self.now who.0 }
    {
        if self.actors.has(who.0 as usize) {
            Some(self.time)
        } else {
            None
        }
    }

    /// An actor has no time.
    pub fn clear(&mut self, who: ActorNo)
        requires { who.0 < length self.old }
        ensures { self.new ≡ slice_set self.old who.0 None }
    {
        self.actors.remove(who.0 as usize);
    }

    /// Whether no actor has a time.
    pub fn is_empty(&self) -> bool
        ensures { IsTrue result → NoTimes self.now }
    {
        match self.actors.next(0) {
            Some(_) => false,
            None => true,
        }
    }

    /// Whether the time of those that have one is this, or was this when an actor last had one.
    pub fn has_time(&self, t: Time) -> bool
        ensures { result ≡ false → (i : ℕ) → time_of self.now i ≢ Some t }
    {
        self.time.0 == t.0
    }

    /// Gives an actor this time, where the others that have one have the same. Whether it did.
    pub fn join(&mut self, who: ActorNo, t: Time) -> bool
        requires { who.0 < length self.old }

        ensures joined { IsTrue result → self.new ≡ slice_set self.old who.0 (Some t) }
        ensures refused { result ≡ false → self.new ≡ self.old }
    {
        if self.time.0 == t.0 {
            self.actors.insert(who.0 as usize);
            return true;
        }
        if !self.is_empty() {
            return false;
        }
        self.time = t;
        self.actors.insert(who.0 as usize);
        true
    }

    /// The least time with the least actor that has it. None where no actor has a time.
    pub fn first(&self) -> Option<Key>
        ensures { IsLeastIn self.now result }
    {
        let who = self.actors.next(0)?;
        Some(Key {
            time: self.time,
            who: ActorNo(who as u32),
        })
    }

    /// The least actor, from `from` on and below `below`, whose time is `t`.
    pub fn due_at(&self, t: Time, from: ActorNo, below: ActorNo) -> Option<ActorNo>
        ensures none { IfNone result (NoneDue self.now t from.0 below.0) }
        ensures least { IfSome result (λ who. IsLeastDue self.now t from.0 below.0 who.0) }
    {
        if self.time.0 != t.0 {
            return None;
        }
        let who = self.actors.next(from.0 as usize)?;
        if who < below.0 as usize {
            Some(ActorNo(who as u32))
        } else {
            None
        }
    }

    /// The marks become the actors whose time is `t`, from `from` on and below the end of the marks, each at its number from `from` on.
    pub fn take_due(&self, t: Time, from: ActorNo, due: &mut BitSet)
        ensures long { length due.new ≡ length due.old }
        ensures marked { AllMarked self.now t from.0 (length due.old) due.new }
        ensures only { (i : ℕ) → is_in due.new i ≡ true → time_of self.now (from.0 + i) ≡ Some t }
    {
        if self.time.0 != t.0 {
            due.clear();
            return;
        }
        due.take(&self.actors, from.0);
    }

    /// Marks the actors whose time is `t`, from `from` on and below the end of the marks, each at its number from `from` on.
    pub fn mark_due(&self, t: Time, from: ActorNo, due: &mut BitSet)
        ensures long { length due.new ≡ length due.old }
        ensures kept { Keeps due.old due.new }
        ensures found { OnlyAdds due.old due.new (λ i. time_of self.now (from.0 + i) ≡ Some t) }
        ensures marked { AllMarked self.now t from.0 (length due.old) due.new }
    {
        if self.time.0 != t.0 {
            return;
        }
        due.join(&self.actors, from.0);
    }
}
