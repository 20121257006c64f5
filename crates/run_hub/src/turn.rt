//! What follows where an actor is back.
ghost use Rattle.std.specs.Prelude.{◌≡◌, ◌+◌, length};
ghost use Rattle.tick_law.specs.PlanView.{system_from};
ghost use Rattle.trace_out.specs.Names.{actors_of};
ghost use Rattle.hub_floor.specs.Floor.{PartsOf, LinksOf};
ghost use Rattle.run_hub.specs.GoesOn.{AfterLinks, AfterParts, trace_view};

use crate::count::count_time;
use crate::lines::write_time;
use crate::trace::Trace;
use hub_floor::{Floor, are_back, close_time, open_links};
use sim_base::Steps;
use sim_io::Sink;
use std::sync::ledger::Ledger;
use tick_law::{Actor, Charter};

/// Where all links are back the time is over: its requests are counted, and the lines of its records are written.
pub fn after_link<P: Actor + Drop, N: Actor + Drop, C: Charter<P, N>, K: Sink + Drop>(
    floor: &mut Floor<P, N>,
    trace: &mut Trace<K>,
)
    requires floor { LinksOf (system_from P.machine N.machine C.plan C.start)
        P.valid N.valid C.plan.until floor.old }
    requires named { actors_of trace.old.names
        ≡ length C.start.world.parts + length C.start.world.links }
    ensures { AfterLinks (system_from P.machine N.machine C.plan C.start)
        P.valid N.valid C.plan.until floor.old floor.new
        (trace_view K.told K.faults trace.old) (trace_view K.told K.faults trace.new) }
{
    if !are_back(&floor.link_marks) {
        return;
    }
    count_time::<P, N, C>(floor, &mut trace.stats);
    let written = write_time::<P, N, C, K>(floor, trace);
    close_time::<P, N, C>(floor, !written);
}

/// Where all parts are back the links' pass opens. Where no link waits in it the time is over, and the lines of its records are
/// written.
pub fn after_part<P: Actor + Drop, N: Actor + Drop, C: Charter<P, N>, K: Sink + Drop, M: Ledger>(
    floor: &mut Floor<P, N>,
    trace: &mut Trace<K>,
    looks: &mut Steps<M>,
)
    requires floor { PartsOf (system_from P.machine N.machine C.plan C.start)
        P.valid N.valid C.plan.until floor.old }
    requires named { actors_of trace.old.names
        ≡ length C.start.world.parts + length C.start.world.links }
    ensures { AfterParts (system_from P.machine N.machine C.plan C.start)
        P.valid N.valid C.plan.until floor.old floor.new
        (trace_view K.told K.faults trace.old) (trace_view K.told K.faults trace.new) }
{
    if !are_back(&floor.part_marks) {
        return;
    }
    open_links::<P, N, C, M>(floor, looks);
    after_link::<P, N, C, K>(floor, trace);
}
