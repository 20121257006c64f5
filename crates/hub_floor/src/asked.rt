//! Parts that were asked to step.
ghost use Rattle.std.specs.Prelude.{◌≡◌, ◌<◌, ◌&&◌, not, length, slice_set, true};
ghost use Rattle.bit_set.specs.Bits.{is_in};
ghost use Rattle.tick_law.specs.SerialLoop.{pick};
ghost use Rattle.model_laws.specs.SideTimes.{half_of};
ghost use Rattle.hub_laws.specs.Events.{those_at, either_of, without, count_to};

use bit_set::BitSet;
use event_queue::NextTimes;
use sim_base::{ActorNo, Steps, Time};
use std::sync::ledger::Ledger;

/// A part waits. The answer counts it, unless it waited before.
fn wait_one(waiting: &mut BitSet, no: u32) -> u64
    requires { no < length waiting.old }
    ensures waiting { waiting.new ≡ slice_set waiting.old no true }
    ensures count { result ≡ pick (is_in waiting.old no) 0 1 }
{
    let known = waiting.has(no as usize);
    waiting.insert(no as usize);
    if known { 0 } else { 1 }
}

/// Those whose asked edge is `t` (picoseconds) wait, and are asked no more. The answer counts those that did not wait before.
pub(crate) fn wait_asked<M: Ledger>(
    asked: &mut NextTimes,
    waiting: &mut BitSet,
    parts: u32,
    t: u64,
    looks: &mut Steps<M>,
) -> u64
    requires asked { length asked.old ≡ parts }
    requires waiting { length waiting.old ≡ parts }

    ensures asked { half_of 0 parts asked.new ≡ without (half_of 0 parts asked.old) t }
    ensures all { length asked.new ≡ length asked.old }
    ensures waiting { waiting.new
        ≡ either_of waiting.old (those_at (half_of 0 parts asked.old) t) }
    ensures count { result ≡ count_to (λ i. is_in (those_at (half_of 0 parts asked.old) t) i
        && not (is_in waiting.old i)) parts }
{
    let mut alone = 0;
    let mut at = 0;
    while let Some(no) = asked.due_at(Time(t), ActorNo(at), ActorNo(parts), looks) {
        asked.clear(no, looks);
        alone += wait_one(waiting, no.0);
        at = no.0 + 1;
    }
    alone
}
