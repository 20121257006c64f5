//! What a floor at a boundary does next: it opens a pass, it is over, or it waits.
ghost use Rattle.std.specs.Prelude.{◌≡◌, ◌≤◌, length};
ghost use Rattle.tick_law.specs.PlanView.{system_from};
ghost use Rattle.actor_turn.specs.Side.{AreInOrder};
ghost use Rattle.hub_laws.specs.Events.{all_back, is_none, opened, IsLeastTime};
ghost use Rattle.hub_floor.specs.Floor.{hub_state, RestsOf, PassOf};
ghost use Rattle.hub_floor.specs.Begins.{IsFirstOf, lesser_of, IsLeastOf, Begins};

use crate::floor::Floor;
use crate::open::{open_links, open_parts};
use away_rows::Marks;
use bit_set::BitSet;
use event_queue::NextTimes;
use hub_laws::Stage;
use sim_base::Steps;
use std::sync::ledger::Ledger;
use tick_law::{Actor, Charter};

/// What came of a floor that is asked to begin a time.
#[derive(Clone, Copy, Debug, PartialEq, Eq)]
pub enum Begun {
    /// A pass is open.
    Opened,
    /// The run is over.
    Over,
    /// It is paused.
    Paused,
    /// So many want to look first.
    Held(u32),
}

/// The least time of all, in picoseconds, or None where there is none.
fn first_of<M: Ledger>(times: &NextTimes, looks: &mut Steps<M>) -> Option<u64>
    ensures { IsFirstOf times.now result }
{
    match times.first(0, looks) {
        Some((t, _)) => Some(t.0),
        None => None,
    }
}

/// The lesser of two times that may be there.
fn lesser(a: Option<u64>, b: Option<u64>) -> Option<u64>
    ensures { result ≡ lesser_of a b }
{
    match (a, b) {
        (Some(x), Some(y)) => Some(x.min(y)),
        (Some(x), None) => Some(x),
        (None, y) => y,
    }
}

/// The least of all next times and asked edges, in picoseconds, or None where there is none.
pub fn least_time<P: Drop, N: Drop, M: Ledger>(
    floor: &Floor<P, N>,
    looks: &mut Steps<M>,
) -> Option<u64>
    requires { AreInOrder floor.now.part_side floor.now.link_side (length floor.now.next) }
    ensures { IsLeastOf (hub_state floor.now) result }
{
    let next = first_of(&floor.next, looks);
    let asked = first_of(&floor.asked, looks);
    lesser(next, asked)
}

/// Whether a set is empty.
fn is_empty(set: &BitSet) -> bool
    ensures { result ≡ is_none set.now }
{
    match set.next(0) {
        Some(_) => false,
        None => true,
    }
}

/// Whether nobody waits and nobody is out.
pub fn are_back(marks: &Marks) -> bool
    ensures { result ≡ all_back marks.now }
{
    let none_waits = is_empty(&marks.waiting);
    let none_out = is_empty(&marks.out);
    none_waits && none_out
}

/// Time `t` begins, the least of all next times and asked edges: the parts that have it wait, or else the links.
fn open_time<P: Actor + Drop, N: Actor + Drop, C: Charter<P, N>, M: Ledger>(
    floor: &mut Floor<P, N>,
    t: u64,
    looks: &mut Steps<M>,
)
    requires floor { RestsOf (system_from P.machine N.machine C.plan C.start)
        P.valid N.valid C.plan.until floor.old }
    requires least { IsLeastTime (hub_state floor.old) t }
    requires within { t ≤ C.plan.until }

    ensures floor { PassOf (system_from P.machine N.machine C.plan C.start)
        P.valid N.valid C.plan.until floor.new }
    ensures event { hub_state floor.new ≡ opened (hub_state floor.old) t }
{
    open_parts::<P, N, C, M>(floor, t, looks);
    if !are_back(&floor.part_marks) {
        return;
    }
    open_links::<P, N, C, M>(floor, looks);
}

/// The run is over, at this boundary.
fn end_at<P: Drop, N: Drop>(floor: &mut Floor<P, N>, at: u64)
    ensures { floor.new ≡ record floor.old { stage = Stage.Over; at = at } }
{
    floor.at = at;
    floor.stage = Stage::Over;
}

/// Begins the least of all next times and asked edges, unless the run is over: a write failed, or there is no such time up to
/// `until` (picoseconds). It waits where it is paused, or somebody wants to look first.
pub fn begin_time<P: Actor + Drop, N: Actor + Drop, C: Charter<P, N>, M: Ledger>(
    floor: &mut Floor<P, N>,
    until: u64,
    looks: &mut Steps<M>,
) -> Begun
    requires floor { RestsOf (system_from P.machine N.machine C.plan C.start)
        P.valid N.valid C.plan.until floor.old }
    requires stage { floor.old.stage ≡ Stage.Boundary }
    requires until { until ≡ C.plan.until }
    ensures { Begins (system_from P.machine N.machine C.plan C.start)
        P.valid N.valid C.plan.until floor.old floor.new result }
{
    if floor.failed {
        let at = floor.at;
        end_at(floor, at);
        return Begun::Over;
    }
    let Some(t) = least_time(floor, looks) else {
        end_at(floor, until + 1);
        return Begun::Over;
    };
    if until < t {
        end_at(floor, until + 1);
        return Begun::Over;
    }
    if floor.paused {
        return Begun::Paused;
    }
    if floor.wants > 0 {
        return Begun::Held(floor.wants);
    }
    open_time::<P, N, C, M>(floor, t, looks);
    Begun::Opened
}
