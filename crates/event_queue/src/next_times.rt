ghost use Rattle.std.specs.Prelude.{◌≡◌, ℕ, ◌+◌, ◌*◌, ◌^◌, ◌<◌, ◌≤◌, ◌↔◌, true, Some, None, List, Option, length, replicate, slice_set, All, IsNone, IfNone, IfOk, IfSome};
ghost use Rattle.bit_set.specs.Bits.{is_in};
ghost use Rattle.event_queue.specs.Mark.{AllMarked};
ghost use Rattle.event_queue.specs.NextTimes.{time_of, IsFirst, NoneDue, IsLeastDue, count_due_by, earlier_set};
ghost use Rattle.event_queue.specs.Merged.{merged, IsApart};

use crate::lesser::lesser;
use crate::time_heap::TimeHeap;
use crate::two_times::TwoTimes;
use bit_set::BitSet;
use sim_base::{ActorNo, OutOfMemory, Phase, Steps, Time};
use std::alloc::Global;
use std::marker::Model;
use std::sync::ledger::Ledger;

/// An optional time for each actor. Its memory is taken in `open`.
///
/// An actor that has a time stands in one of two sets, where many have the same time, or in a heap of the others.
#[derive(Drop)]
pub struct NextTimes {
    near: TwoTimes,
    heap: TimeHeap,
}

impl Model for NextTimes {
    ghost use Rattle.std.specs.Prelude.{List, Option};
    ghost use Rattle.sim_base.specs.declared.time.Time.{Time};
    ghost use Rattle.event_queue.specs.Merged.{merged, IsApart};

    ghost Value = { List (Option Time) };

    ghost view = { λ n. merged n.near n.heap };

    ghost invariant = { λ n. IsApart n.near n.heap };
}

/// The phase in which an actor ticks, where the actors below `parts` are parts and the others links.
fn phase_of(who: ActorNo, parts: u32) -> Phase
    ensures { (result ≡ Phase.Primary) ↔ (who.0 < parts) }
{
    if who.0 < parts {
        Phase::Primary
    } else {
        Phase::Secondary
    }
}

/// Gives a time to an actor that has none.
fn put_new<L: Ledger>(
    near: &mut TwoTimes,
    heap: &mut TimeHeap,
    who: ActorNo,
    t: Time,
    looks: &mut Steps<L>,
)
    requires known { who.0 < length near.old }
    requires apart { IsApart near.old heap.old }
    requires not_near { time_of near.old who.0 ≡ None }
    requires not_far { time_of heap.old who.0 ≡ None }

    ensures apart { IsApart near.new heap.new }
    ensures put { merged near.new heap.new ≡ slice_set (merged near.old heap.old) who.0 (Some t) }
    ensures cost { (b : ℕ) → length near.old < 2 ^ b → looks.new ≤ looks.old + 2 * b + 2 }
{
    if !near.join(who, t) {
        heap.set_earlier(who, t, looks);
    }
}

impl NextTimes {
    /// No actor has a time.
    pub fn open(alloc: Global, actors: u32) -> Result<NextTimes, OutOfMemory>
        ensures { IfOk result (λ next. next ≡ replicate actors None) }
    {
        Ok(NextTimes {
            near: TwoTimes::open(alloc, actors)?,
            heap: TimeHeap::open(alloc, actors)?,
        })
    }

    /// The time of an actor.
    pub fn next_of<L: Ledger>(&self, who: ActorNo, looks: &mut Steps<L>) -> Option<Time>
        requires { who.0 < length self.now }

        ensures value { result ≡ time_of self.now who.0 }
        ensures cost { looks.new ≤ looks.old + 1 }
    {
        match self.near.next_of(who) {
            Some(t) => Some(t),
            None => self.heap.next_of(who, looks),
        }
    }

    /// The time of an actor becomes the lesser of `t` and the one that it had.
    pub fn set_earlier<L: Ledger>(&mut self, who: ActorNo, t: Time, looks: &mut Steps<L>)
        requires { who.0 < length self.old }

        ensures set { self.new ≡ earlier_set self.old who.0 t }
        ensures cost { (b : ℕ) → length self.old < 2 ^ b → looks.new ≤ looks.old + 2 * b + 2 }
    {
        match self.near.next_of(who) {
            Some(u) => {
                if t.0 < u.0 {
                    self.near.clear(who);
                    put_new(&mut self.near, &mut self.heap, who, t, looks);
                }
            }
            None => {
                if self.heap.has(who) {
                    self.heap.set_earlier(who, t, looks);
                } else {
                    put_new(&mut self.near, &mut self.heap, who, t, looks);
                }
            }
        }
    }

    /// The time of an actor becomes this one.
    pub fn set<L: Ledger>(&mut self, who: ActorNo, t: Time, looks: &mut Steps<L>)
        requires { who.0 < length self.old }

        ensures set { self.new ≡ slice_set self.old who.0 (Some t) }
        ensures cost { (b : ℕ) → length self.old < 2 ^ b → looks.new ≤ looks.old + 3 * b + 2 }
    {
        self.near.clear(who);
        if self.near.join(who, t) {
            self.heap.clear(who, looks);
        } else {
            self.heap.set(who, t, looks);
        }
    }

    /// An actor has no time.
    pub fn clear<L: Ledger>(&mut self, who: ActorNo, looks: &mut Steps<L>)
        requires { who.0 < length self.old }

        ensures cleared { self.new ≡ slice_set self.old who.0 None }
        ensures cost { (b : ℕ) → length self.old < 2 ^ b → looks.new ≤ looks.old + 3 * b + 2 }
    {
        self.near.clear(who);
        self.heap.clear(who, looks);
    }

    /// The least time, with the primary phase where an actor below `parts` has it and the secondary one otherwise. None where no actor has a time.
    pub fn first<L: Ledger>(&self, parts: u32, looks: &mut Steps<L>) -> Option<(Time, Phase)>
        ensures none { IsNone result ↔ All (λ time. time ≡ None) self.now }
        ensures first { IfSome result (λ first. IsFirst self.now parts first) }
        ensures cost { looks.new ≤ looks.old + 1 }
    {
        let first = lesser(self.near.first(), self.heap.first(looks))?;
        Some((first.time, phase_of(first.who, parts)))
    }

    /// The least actor, from `from` on and below `below`, whose time is `t`.
    pub fn due_at<L: Ledger>(
        &self,
        t: Time,
        from: ActorNo,
        below: ActorNo,
        looks: &mut Steps<L>,
    ) -> Option<ActorNo>
        ensures none { IfNone result (NoneDue self.now t from.0 below.0) }
        ensures least { IfSome result (λ who. IsLeastDue self.now t from.0 below.0 who.0) }
        ensures cost { looks.new ≤ looks.old + 2 * count_due_by self.now t + 1 }
    {
        match self.near.due_at(t, from, below) {
            Some(who) => match self.heap.due_at(t, from, who, looks) {
                Some(less) => Some(less),
                None => Some(who),
            },
            None => match self.heap.due_at(t, from, below, looks) {
                Some(who) => Some(who),
                None => None,
            },
        }
    }
}

impl NextTimes {
    /// The set of the actors whose time is `t`, from `from` on and below `below`, each at its number from `from` on.
    pub fn mark_due<L: Ledger>(
        &self,
        t: Time,
        from: ActorNo,
        below: ActorNo,
        due: &mut BitSet,
        looks: &mut Steps<L>,
    )
        requires { from.0 + length due.old ≡ below.0 }
        ensures long { length due.new ≡ length due.old }
        ensures marked { AllMarked self.now t from.0 (length due.old) due.new }
        ensures only { (i : ℕ) → is_in due.new i ≡ true → time_of self.now (from.0 + i) ≡ Some t }
        ensures cost { looks.new ≤ looks.old + 2 * count_due_by self.now t + 1 }
    {
        self.near.take_due(t, from, due);
        self.heap.mark_due(t, from, below, due, looks);
    }
}
