//! The lines of a time.
ghost use Rattle.std.specs.Prelude.{◌≡◌, ℕ, ◌<◌, ◌≤◌, ◌+◌, length, is_some, true, false, All, Some};
ghost use Rattle.bit_set.specs.Bits.{is_in};
ghost use Rattle.sim_io.specs.Sink.{Rose, Got, GotPrefix};
ghost use Rattle.trace_out.specs.Names.{actors_of};
ghost use Rattle.trace_out.specs.Lines.{lines_of, line_count};
ghost use Rattle.away_rows.specs.declared.body.Body.{Body};
ghost use Rattle.away_rows.specs.Bodies.{body_at};
ghost use Rattle.tick_law.specs.SerialLoop.{records_at_time};
ghost use Rattle.tick_law.specs.PlanView.{system_from};
ghost use Rattle.away_rows.specs.Marks.{IsQuiet};
ghost use Rattle.hub_floor.specs.Floor.{LinksOf};
ghost use Rattle.run_hub.specs.Lines.{side_records};

use crate::trace::Trace;
use away_rows::Body;
use bit_set::BitSet;
use hub_floor::Floor;
use port_msg::RecList;
use sim_io::Sink;
use tick_law::{Actor, Charter};
use trace_out::{Names, write_records};

/// The records of an actor that sits in its seat.
pub(crate) fn recs_at<S: Drop>(seats: &Vec<Option<Box<Body<S>>>>, no: usize) -> &RecList
    requires { (b : Body S) × (body_at seats.now.items no ≡ Some b) }
    ensures { (b : Body S) → body_at seats.now.items no ≡ Some b → result.now ≡ b.recs }
{
    let Some(body) = &seats[no] else {
        unreachable!()
    };
    &body.recs
}

/// Writes the lines of the records of those of a side that are back, in the order of their numbers. The answer says whether all
/// were written: a line fails only where there is one.
fn write_side<S: Drop, K: Sink>(
    seats: &Vec<Option<Box<Body<S>>>>,
    back: &BitSet,
    names: &Names,
    all: bool,
    sink: &mut K,
) -> bool
    requires here { (i : ℕ) → is_in back.now i ≡ true
        → (b : Body S) × (body_at seats.now.items i ≡ Some b) }
    requires known { (i : ℕ) (b : Body S) → is_in back.now i ≡ true
        → body_at seats.now.items i ≡ Some b
        → All (λ r. r.actor.0 < actors_of names.now) b.recs.items }

    ensures whole { result ≡ true → Got (K.told sink.old) (K.told sink.new)
        (lines_of names.now all (side_records back.now seats.now.items (length back.now))) }
    ensures part { result ≡ false → GotPrefix (K.told sink.old) (K.told sink.new)
        (lines_of names.now all (side_records back.now seats.now.items (length back.now))) }
    ensures fault { result ≡ false → Rose (K.faults sink.old) (K.faults sink.new) }
    ensures some { result ≡ false → 0 < line_count all
        (side_records back.now seats.now.items (length back.now)) }
    ensures never_falls { K.faults sink.old ≤ K.faults sink.new }
    ensures telling { is_some (K.told sink.new) ≡ is_some (K.told sink.old) }
{
    let mut at = 0;
    while let Some(no) = back.next(at) {
        match write_records(recs_at(seats, no), names, all, sink) {
            Ok(()) => {}
            Err(_) => return false,
        }
        at = no + 1;
    }
    true
}

/// Writes the lines of the records of a time all of whose actors are back, the parts' first. The answer says whether all were
/// written: a line fails only where the time has one.
pub fn write_time<P: Actor + Drop, N: Actor + Drop, C: Charter<P, N>, K: Sink + Drop>(
    floor: &Floor<P, N>,
    trace: &mut Trace<K>,
) -> bool
    requires floor { LinksOf (system_from P.machine N.machine C.plan C.start)
        P.valid N.valid C.plan.until floor.now }
    requires quiet { IsQuiet floor.now.link_marks }
    requires named { actors_of trace.old.names
        ≡ length C.start.world.parts + length C.start.world.links }

    ensures whole { result ≡ true → Got (K.told trace.old.sink) (K.told trace.new.sink)
        (lines_of trace.old.names trace.old.all
        (records_at_time (system_from P.machine N.machine C.plan C.start) floor.now.at)) }
    ensures part { result ≡ false → GotPrefix (K.told trace.old.sink) (K.told trace.new.sink)
        (lines_of trace.old.names trace.old.all
        (records_at_time (system_from P.machine N.machine C.plan C.start) floor.now.at)) }
    ensures fault { result ≡ false → Rose (K.faults trace.old.sink) (K.faults trace.new.sink) }
    ensures some { result ≡ false → 0 < line_count trace.old.all
        (records_at_time (system_from P.machine N.machine C.plan C.start) floor.now.at) }
    ensures never_falls { K.faults trace.old.sink ≤ K.faults trace.new.sink }
    ensures telling { is_some (K.told trace.new.sink) ≡ is_some (K.told trace.old.sink) }
    ensures names { trace.new.names ≡ trace.old.names }
    ensures all { trace.new.all ≡ trace.old.all }
    ensures stats { trace.new.stats ≡ trace.old.stats }
{
    let all = trace.all;
    let back = &floor.part_marks.back;
    if !write_side(&floor.parts, back, &trace.names, all, &mut trace.sink) {
        return false;
    }
    let back = &floor.link_marks.back;
    write_side(&floor.links, back, &trace.names, all, &mut trace.sink)
}
