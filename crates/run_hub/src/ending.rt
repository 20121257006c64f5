//! What a hub leaves when its run is over.
ghost use Rattle.std.specs.Prelude.{◌≡◌, ◌+◌, ◌<◌, length};
ghost use Rattle.port_rows.specs.World.{state_of};
ghost use Rattle.tick_law.specs.PlanView.{system_from};
ghost use Rattle.tick_law.specs.SerialLoop.{world_at, end_below};
ghost use Rattle.tick_law.specs.Verdict.{goes_on, verdict_at, verdict_by};
ghost use Rattle.hub_floor.specs.Floor.{RestsOf};
ghost use Rattle.run_hub.specs.Hub.{HasHome};
ghost use Rattle.run_hub.specs.Stands.{IsOver};
ghost use Rattle.run_hub.specs.Ending.{unless};

use crate::home::Home;
use crate::seats::leave_seats;
use crate::trace::Trace;
use hub_floor::{Floor, least_time};
use port_rows::World;
use run_gear::{are_done, verdict_at_rest};
use sim_base::{Steps, Time};
use sim_io::Sink;
use std::sync::ledger::{Blank, Ledger};
use task_stats::Stats;
use tick_law::{Actor, Charter, Verdict};

/// What a hub leaves: its world at boundary `upto`, its verdict, or None where a write failed, the last time below `upto` at which
/// an actor made progress, or 0, how many ticks were asked for, how many steps were made for that alone, what was counted of
/// requests, and the sink.
#[derive(Drop)]
pub struct Ending<P: Drop, N: Drop, K: Drop> {
    pub world: World<P, N>,
    pub verdict: Option<Verdict>,
    pub end: Time,
    pub upto: Time,
    pub asks: u64,
    pub extra: u64,
    pub stats: Stats,
    pub sink: K,
}

/// Whether an actor has a next time behind the greatest time.
fn goes_on<P: Actor + Drop, N: Actor + Drop, C: Charter<P, N>, M: Ledger>(
    floor: &Floor<P, N>,
    looks: &mut Steps<M>,
) -> bool
    requires { RestsOf (system_from P.machine N.machine C.plan C.start)
        P.valid N.valid C.plan.until floor.now }
    ensures { floor.now.at ≡ C.plan.until + 1
        → result ≡ goes_on (system_from P.machine N.machine C.plan C.start) (C.plan.until + 1) }
{
    match least_time(floor, looks) {
        Some(_) => true,
        None => false,
    }
}

/// The world of a run at a boundary, whose actors go home.
fn world_of<P: Actor + Drop, N: Actor + Drop, C: Charter<P, N>>(
    floor: Floor<P, N>,
    home: Home<P, N>,
) -> World<P, N>
    requires floor { RestsOf (system_from P.machine N.machine C.plan C.start)
        P.valid N.valid C.plan.until floor }
    requires home { HasHome (length C.start.world.parts) (length C.start.world.links) home }
    ensures { state_of result
        ≡ world_at (system_from P.machine N.machine C.plan C.start) floor.at }
{
    World {
        parts: leave_seats(floor.parts, home.parts),
        links: leave_seats(floor.links, home.links),
        rows: floor.rows,
    }
}

/// The verdict of a run that is over, or None where a write failed.
fn verdict_of(failed: bool, goes_on: bool, done: bool) -> Option<Verdict>
    ensures { result ≡ unless failed (verdict_by goes_on done) }
{
    if failed {
        return None;
    }
    if goes_on {
        return Some(Verdict::Cut);
    }
    Some(verdict_at_rest(done))
}

/// What a run leaves that is over. Looks at the next times are counted by a counter that is made of `blank`.
pub(crate) fn ending_of<
    P: Actor + Drop,
    N: Actor + Drop,
    C: Charter<P, N>,
    K: Sink + Drop,
    M: Ledger,
>(floor: Floor<P, N>, trace: Trace<K>, home: Home<P, N>, blank: Blank) -> Ending<P, N, K>
    requires name { blank.name ≡ M.name }
    requires parts { blank.parts ≡ M.parts }
    requires some { 0 < blank.parts }
    requires over { IsOver (system_from P.machine N.machine C.plan C.start)
        P.valid N.valid C.plan.until floor }
    requires home { HasHome (length C.start.world.parts) (length C.start.world.links) home }

    ensures world { state_of result.world
        ≡ world_at (system_from P.machine N.machine C.plan C.start) floor.at }
    ensures verdict { result.verdict ≡ unless floor.failed
        (verdict_at (system_from P.machine N.machine C.plan C.start) C.plan.until) }
    ensures end { result.end.0
        ≡ end_below (system_from P.machine N.machine C.plan C.start) floor.at }
    ensures upto { result.upto.0 ≡ floor.at }
    ensures asks { result.asks ≡ floor.asks }
    ensures extra { result.extra ≡ floor.extra }
    ensures stats { result.stats ≡ trace.stats }
    ensures sink { result.sink ≡ trace.sink }
{
    let mut looks = Steps::<M>::open(blank);
    let goes_on = goes_on::<P, N, C, M>(&floor, &mut looks);
    let (at, end, failed) = (floor.at, floor.end, floor.failed);
    let (asks, extra) = (floor.asks, floor.extra);
    let world = world_of::<P, N, C>(floor, home);
    let verdict = verdict_of(failed, goes_on, are_done(&world.parts));
    Ending {
        world,
        verdict,
        end: Time(end),
        upto: Time(at),
        asks,
        extra,
        stats: trace.stats,
        sink: trace.sink,
    }
}
