ghost use Rattle.std.specs.Prelude.{◌≡◌, ℕ, ◌+◌, ◌*◌, ◌^◌, ◌<◌, ◌≤◌, false, Some, None, length, replicate, slice_set, IfNone, IfOk, IfSome};
ghost use Rattle.event_queue.specs.Mark.{AllMarked, OnlyAdds, Keeps};
ghost use Rattle.event_queue.specs.NextTimes.{time_of, NoneDue, IsLeastDue, count_due_by, earlier_set};
ghost use Rattle.event_queue.specs.Merged.{IsLeastIn};

use crate::due::least_due;
use crate::edits;
use crate::edits::place_of;
use crate::key::Key;
use crate::key_row::KeyRow;
use crate::mark::{Asked, mark_due};
use bit_set::BitSet;
use sim_base::{ActorNo, OutOfMemory, Steps, Time};
use std::alloc::Global;
use std::marker::Model;
use std::sync::ledger::Ledger;

/// An optional time for each actor: the pairs of a time and an actor are a heap, and beside it stands the place of each actor that has a time.
#[derive(Drop)]
pub struct TimeHeap {
    row: KeyRow,
    places: Vec<u32>,
}

impl Model for TimeHeap {
    ghost use Rattle.std.specs.Prelude.{List, Option};
    ghost use Rattle.sim_base.specs.declared.time.Time.{Time};
    ghost use Rattle.event_queue.specs.Places.{times_of, IsIndexed};

    ghost Value = { List (Option Time) };

    ghost view = { λ n. times_of n.row.pairs n.places.items };

    ghost invariant = { λ n. IsIndexed n.row n.places.items };
}

impl TimeHeap {
    /// No actor has a time.
    pub fn open(alloc: Global, actors: u32) -> Result<TimeHeap, OutOfMemory>
        ensures { IfOk result (λ next. next ≡ replicate actors None) }
    {
        Ok(TimeHeap {
            row: KeyRow::open(alloc, actors)?,
            places: vec![in alloc; 0; actors as usize]?,
        })
    }

    /// The time of an actor.
    pub fn next_of<L: Ledger>(&self, who: ActorNo, looks: &mut Steps<L>) -> Option<Time>
        requires { who.0 < length self.now }

        ensures value { result ≡ time_of self.now who.0 }
        ensures cost { looks.new ≤ looks.old + 1 }
    {
        let place = place_of(&self.row, &self.places, who)?;
        Some(self.row.time(place, looks))
    }

    /// The time of an actor becomes the lesser of `t` and the one that it had.
    pub fn set_earlier<L: Ledger>(&mut self, who: ActorNo, t: Time, looks: &mut Steps<L>)
        requires { who.0 < length self.old }

        ensures set { self.new ≡ earlier_set self.old who.0 t }
        ensures cost { (b : ℕ) → length self.old < 2 ^ b → looks.new ≤ looks.old + 2 * b + 2 }
    {
        edits::set_earlier(&mut self.row, &mut self.places, who, t, looks);
    }

    /// The time of an actor becomes this one.
    pub fn set<L: Ledger>(&mut self, who: ActorNo, t: Time, looks: &mut Steps<L>)
        requires { who.0 < length self.old }

        ensures set { self.new ≡ slice_set self.old who.0 (Some t) }
        ensures cost { (b : ℕ) → length self.old < 2 ^ b → looks.new ≤ looks.old + 3 * b + 2 }
    {
        edits::set(&mut self.row, &mut self.places, who, t, looks);
    }

    /// An actor has no time.
    pub fn clear<L: Ledger>(&mut self, who: ActorNo, looks: &mut Steps<L>)
        requires { who.0 < length self.old }

        ensures cleared { self.new ≡ slice_set self.old who.0 None }
        ensures cost { (b : ℕ) → length self.old < 2 ^ b → looks.new ≤ looks.old + 3 * b + 2 }
    {
        edits::clear(&mut self.row, &mut self.places, who, looks);
    }

    /// Whether an actor has a time.
    pub fn has(&self, who: ActorNo) -> bool
        requires { who.0 < length self.now }
        ensures { result ≡ false → time_of self.now who.0 ≡ None }
    {
        match place_of(&self.row, &self.places, who) {
            Some(_) => true,
            None => false,
        }
    }

    /// The least time with the least actor that has it. None where no actor has a time.
    pub fn first<L: Ledger>(&self, looks: &mut Steps<L>) -> Option<Key>
        ensures first { IsLeastIn self.now result }
        ensures cost { looks.new ≤ looks.old + 1 }
    {
        if self.row.is_empty() {
            return None;
        }
        Some(Key {
            time: self.row.time(0, looks),
            who: self.row.who(0),
        })
    }

    /// The least actor, from `from` on and below `below`, whose time is `t`.
    pub fn due_at<L: Ledger>(
        &self,
        t: Time,
        from: ActorNo,
        below: ActorNo,
        looks: &mut Steps<L>,
    ) -> Option<ActorNo>
        ensures none { IfNone result (NoneDue self.now t from.0 below.0) }
        ensures least { IfSome result (λ who. IsLeastDue self.now t from.0 below.0 who.0) }
        ensures cost { looks.new ≤ looks.old + 2 * count_due_by self.now t + 1 }
    {
        if self.row.is_empty() {
            return None;
        }
        let least = least_due(&self.row, 0, t, from.0, below.0, looks);
        if least < below.0 {
            Some(ActorNo(least))
        } else {
            None
        }
    }
}

impl TimeHeap {
    /// Marks the actors whose time is `t`, from `from` on and below `below`, each at its number from `from` on.
    pub fn mark_due<L: Ledger>(
        &self,
        t: Time,
        from: ActorNo,
        below: ActorNo,
        due: &mut BitSet,
        looks: &mut Steps<L>,
    )
        requires { from.0 + length due.old ≡ below.0 }
        ensures long { length due.new ≡ length due.old }
        ensures kept { Keeps due.old due.new }
        ensures found { OnlyAdds due.old due.new (λ i. time_of self.now (from.0 + i) ≡ Some t) }
        ensures marked { AllMarked self.now t from.0 (length due.old) due.new }
        ensures cost { looks.new ≤ looks.old + 2 * count_due_by self.now t + 1 }
    {
        if self.row.is_empty() {
            return;
        }
        let asked = Asked {
            t,
            from: from.0,
            below: below.0,
        };
        mark_due(&self.row, 0, &asked, due, looks);
    }
}
