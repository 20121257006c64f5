//! A swap: the steps of a batch come back, and a share of those who wait goes out into it.
ghost use Rattle.std.specs.Prelude.{◌≡◌, ◌+◌, ◌-◌, ◌<◌, ◌≤◌, ◌^◌, [], length, min, false};
ghost use Rattle.tick_law.specs.PlanView.{system_from};
ghost use Rattle.tick_law.specs.SerialLoop.{pick};
ghost use Rattle.hub_floor.specs.Floor.{hub_state};
ghost use Rattle.run_hub.specs.GoesOn.{trace_view};
ghost use Rattle.run_hub.specs.Stands.{IsPass, Stands, WentOn};
ghost use Rattle.run_hub.specs.Written.{IsWritten};
ghost use Rattle.run_hub.specs.Claims.{count_in};
ghost use Rattle.run_hub.specs.Finishes.{is_out};
ghost use Rattle.run_hub.specs.Swaps.{OneFinish, AllFinish, waiting, share_of, TakesMore, ShareClaims, Swaps};

use crate::batch::{BATCH_ROOM, Batch};
use crate::claim::{Claim, Why, claim_from, claim_opened};
use crate::finish::{Finish, finish_from};
use crate::opening::Opening;
use crate::task::Done;
use crate::trace::Trace;
use bit_set::BitSet;
use hub_floor::Floor;
use hub_laws::Stage;
use sim_base::Steps;
use sim_io::Sink;
use std::sync::ledger::{Blank, Ledger};
use tick_law::{Actor, Charter};

/// How many workers share the tasks of a hub at most.
pub const MOST_WORKERS: u32 = 16;

/// What goes out in a swap.
#[derive(Clone, Copy, Debug, PartialEq, Eq, Drop)]
pub enum Swap {
    /// So many tasks are in the batch now.
    Got(u32),
    Wait(Why),
    /// The run is over.
    Over,
}

/// What a swap answers.
#[derive(Clone, Copy, Debug, PartialEq, Eq, Drop)]
pub struct Swapped {
    /// How many of the steps that came back were not out here. They are dropped.
    pub strange: u32,
    pub next: Swap,
}

/// Takes a step back, where it is out here. The answer is 1 where it is not, and the step is dropped, and 0 otherwise.
fn finish_one<
    P: Actor + Drop,
    N: Actor + Drop,
    C: Charter<P, N> + Opening,
    K: Sink + Drop,
    M: Ledger,
>(floor: &mut Floor<P, N>, trace: &mut Trace<K>, done: Done<P, N, C>, looks: &mut Steps<M>) -> u32
    requires stands { Stands (system_from P.machine N.machine C.plan C.start)
        P.valid N.valid C.plan.until floor.old }
    requires written { IsWritten C.plan (system_from P.machine N.machine C.plan C.start)
        C.all C.told C.faults floor.old.at floor.old.failed
        (trace_view K.told K.faults trace.old) }

    ensures stands { Stands (system_from P.machine N.machine C.plan C.start)
        P.valid N.valid C.plan.until floor.new }
    ensures written { IsWritten C.plan (system_from P.machine N.machine C.plan C.start)
        C.all C.told C.faults floor.new.at floor.new.failed
        (trace_view K.told K.faults trace.new) }
    ensures finish { OneFinish (system_from P.machine N.machine C.plan C.start)
        (length C.start.world.parts) (hub_state floor.old) (hub_state floor.new)
        (trace_view K.told K.faults trace.old) (trace_view K.told K.faults trace.new) done }
    ensures strange { result
        ≡ pick (is_out (length C.start.world.parts) (hub_state floor.old) done) 0 1 }
{
    match finish_from::<P, N, C, K, M>(floor, trace, done, looks) {
        Finish::Taken => 0,
        Finish::NotOut { done: _, now: _ } => 1,
    }
}

/// Takes back all steps of a batch, in order. The answer counts those that are not out here, which are dropped.
fn finish_all<
    P: Actor + Drop,
    N: Actor + Drop,
    C: Charter<P, N> + Opening,
    K: Sink + Drop,
    M: Ledger,
>(
    floor: &mut Floor<P, N>,
    trace: &mut Trace<K>,
    batch: &mut Batch<P, N, C>,
    looks: &mut Steps<M>,
) -> u32
    requires stands { Stands (system_from P.machine N.machine C.plan C.start)
        P.valid N.valid C.plan.until floor.old }
    requires written { IsWritten C.plan (system_from P.machine N.machine C.plan C.start)
        C.all C.told C.faults floor.old.at floor.old.failed
        (trace_view K.told K.faults trace.old) }

    ensures stands { Stands (system_from P.machine N.machine C.plan C.start)
        P.valid N.valid C.plan.until floor.new }
    ensures written { IsWritten C.plan (system_from P.machine N.machine C.plan C.start)
        C.all C.told C.faults floor.new.at floor.new.failed
        (trace_view K.told K.faults trace.new) }
    ensures finishes { AllFinish (system_from P.machine N.machine C.plan C.start)
        (length C.start.world.parts) (hub_state floor.old) (hub_state floor.new)
        (trace_view K.told K.faults trace.old) (trace_view K.told K.faults trace.new)
        batch.old.dones result }
    ensures tasks { batch.new.tasks ≡ batch.old.tasks }
    ensures none_left { batch.new.dones ≡ [] }
    ensures few { result ≤ length batch.old.dones }
{
    let Some(done) = batch.take_done() else {
        return 0;
    };
    let strange = finish_one::<P, N, C, K, M>(floor, trace, done, looks);
    let rest = finish_all::<P, N, C, K, M>(floor, trace, batch, looks);
    strange + rest
}

/// How many are in a set, of which no more than so many are counted.
fn count_up_to(set: &BitSet, limit: u32) -> u32
    requires { length set.now < 2 ^ 32 }
    ensures { result ≡ min limit (count_in set.now) }
{
    let mut count = 0;
    let mut at = 0;
    while count < limit {
        let Some(no) = set.next(at) else {
            return count;
        };
        count += 1;
        at = no + 1;
    }
    limit
}

/// How many wait in the pass that is open, of whom no more than so many are counted.
fn count_waiting<P: Actor + Drop, N: Actor + Drop, C: Charter<P, N>>(
    floor: &Floor<P, N>,
    limit: u32,
) -> u32
    requires { IsPass (system_from P.machine N.machine C.plan C.start)
        P.valid N.valid C.plan.until floor.now }
    ensures { result ≡ min limit (waiting (hub_state floor.now)) }
{
    match floor.stage {
        Stage::Boundary => 0,
        Stage::Primary => count_up_to(&floor.part_marks.waiting, limit),
        Stage::Secondary => count_up_to(&floor.link_marks.waiting, limit),
        Stage::Over => 0,
    }
}

/// The share of one of so many workers in so many that wait, rounded up, and no more than a batch has room for.
fn share_of(waiting: u32, workers: u32) -> u32
    requires { 1 ≤ workers }
    ensures { result ≡ share_of waiting workers }
{
    waiting.div_ceil(workers).min(BATCH_ROOM as u32)
}

/// In the pass that is open, so many more go out, those of least number first, behind the tasks of the batch.
fn claim_more<P: Actor + Drop, N: Actor + Drop, C: Charter<P, N>>(
    floor: &mut Floor<P, N>,
    batch: &mut Batch<P, N, C>,
    more: u32,
)
    requires pass { IsPass (system_from P.machine N.machine C.plan C.start)
        P.valid N.valid C.plan.until floor.old }
    requires enough { more ≤ waiting (hub_state floor.old) }
    requires room { length batch.old.tasks + length batch.old.dones + more ≤ BATCH_ROOM }
    requires written { floor.old.failed ≡ false }

    ensures stands { Stands (system_from P.machine N.machine C.plan C.start)
        P.valid N.valid C.plan.until floor.new }
    ensures takes { TakesMore (length C.start.world.parts) (hub_state floor.old)
        (hub_state floor.new) batch.old batch.new more }
    ensures at { floor.new.at ≡ floor.old.at }
    ensures written { floor.new.failed ≡ false }
{
    if more == 0 {
        return;
    }
    match claim_opened::<P, N, C>(floor) {
        Claim::Got(task) => {
            batch.put(task);
            claim_more::<P, N, C>(floor, batch, more - 1);
        }
        Claim::Wait(_why) => unreachable!(),
        Claim::Over => unreachable!(),
    }
}

/// In the pass that is open, of which the first goes out already, the rest of the share goes out. The answer is the whole share.
fn claim_rest<P: Actor + Drop, N: Actor + Drop, C: Charter<P, N>>(
    floor: &mut Floor<P, N>,
    batch: &mut Batch<P, N, C>,
    workers: u32,
) -> u32
    requires pass { IsPass (system_from P.machine N.machine C.plan C.start)
        P.valid N.valid C.plan.until floor.old }
    requires written { floor.old.failed ≡ false }
    requires one { length batch.old.tasks + length batch.old.dones ≡ 1 }
    requires some { 1 ≤ workers }
    requires few { workers ≤ MOST_WORKERS }

    ensures stands { Stands (system_from P.machine N.machine C.plan C.start)
        P.valid N.valid C.plan.until floor.new }
    ensures some { 0 < result }
    ensures share { result ≡ share_of (waiting (hub_state floor.old) + 1) workers }
    ensures takes { TakesMore (length C.start.world.parts) (hub_state floor.old)
        (hub_state floor.new) batch.old batch.new (result - 1) }
    ensures at { floor.new.at ≡ floor.old.at }
    ensures written { floor.new.failed ≡ false }
{
    let most = BATCH_ROOM as u32 * workers;
    let count = count_waiting::<P, N, C>(floor, most - 1);
    let share = share_of(count + 1, workers);
    claim_more::<P, N, C>(floor, batch, share - 1);
    share
}

/// A share of those who wait goes out into an empty batch, or it is told why there is none.
fn claim_share<P: Actor + Drop, N: Actor + Drop, C: Charter<P, N>, M: Ledger>(
    floor: &mut Floor<P, N>,
    until: u64,
    batch: &mut Batch<P, N, C>,
    workers: u32,
    looks: &mut Steps<M>,
) -> Swap
    requires stands { Stands (system_from P.machine N.machine C.plan C.start)
        P.valid N.valid C.plan.until floor.old }
    requires until { until ≡ C.plan.until }
    requires no_tasks { batch.old.tasks ≡ [] }
    requires no_dones { batch.old.dones ≡ [] }
    requires some { 1 ≤ workers }
    requires few { workers ≤ MOST_WORKERS }

    ensures stands { Stands (system_from P.machine N.machine C.plan C.start)
        P.valid N.valid C.plan.until floor.new }
    ensures claims { ShareClaims (length C.start.world.parts) C.plan.until workers
        (hub_state floor.old) (hub_state floor.new) batch.new.tasks result }
    ensures none_left { batch.new.dones ≡ [] }
    ensures on { WentOn (system_from P.machine N.machine C.plan C.start) floor.old floor.new }
{
    match claim_from::<P, N, C, M>(floor, until, looks) {
        Claim::Got(task) => {
            batch.put(task);
            Swap::Got(claim_rest::<P, N, C>(floor, batch, workers))
        }
        Claim::Wait(why) => Swap::Wait(why),
        Claim::Over => Swap::Over,
    }
}

/// The steps of a batch come back, and a share of those who wait goes out into it.
pub(crate) fn swap_with<
    P: Actor + Drop,
    N: Actor + Drop,
    C: Charter<P, N> + Opening,
    K: Sink + Drop,
    M: Ledger,
>(
    floor: &mut Floor<P, N>,
    trace: &mut Trace<K>,
    until: u64,
    batch: &mut Batch<P, N, C>,
    workers: u32,
    blank: Blank,
) -> Swapped
    requires name { blank.name ≡ M.name }
    requires parts { blank.parts ≡ M.parts }
    requires one { 0 < blank.parts }
    requires stands { Stands (system_from P.machine N.machine C.plan C.start)
        P.valid N.valid C.plan.until floor.old }
    requires written { IsWritten C.plan (system_from P.machine N.machine C.plan C.start)
        C.all C.told C.faults floor.old.at floor.old.failed
        (trace_view K.told K.faults trace.old) }
    requires until { until ≡ C.plan.until }
    requires no_tasks { batch.old.tasks ≡ [] }
    requires some { 1 ≤ workers }
    requires few { workers ≤ MOST_WORKERS }

    ensures stands { Stands (system_from P.machine N.machine C.plan C.start)
        P.valid N.valid C.plan.until floor.new }
    ensures written { IsWritten C.plan (system_from P.machine N.machine C.plan C.start)
        C.all C.told C.faults floor.new.at floor.new.failed
        (trace_view K.told K.faults trace.new) }
    ensures swaps { Swaps (system_from P.machine N.machine C.plan C.start)
        (length C.start.world.parts) C.plan.until workers
        (hub_state floor.old) (hub_state floor.new)
        (trace_view K.told K.faults trace.old) (trace_view K.told K.faults trace.new)
        batch.old batch.new result }
{
    let mut looks = Steps::<M>::open(blank);
    let strange = finish_all::<P, N, C, K, M>(floor, trace, batch, &mut looks);
    let next = claim_share::<P, N, C, M>(floor, until, batch, workers, &mut looks);
    Swapped { strange, next }
}
