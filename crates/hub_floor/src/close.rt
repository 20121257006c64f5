//! A time is over: nobody has a mark or a record of it any more.
ghost use Rattle.std.specs.Prelude.{◌≡◌, ℕ, ◌<◌, length, Some, true};
ghost use Rattle.bit_set.specs.Bits.{is_in};
ghost use Rattle.tick_law.specs.PlanView.{system_from};
ghost use Rattle.tick_law.specs.SerialLoop.{pick};
ghost use Rattle.away_rows.specs.declared.body.Body.{Body};
ghost use Rattle.away_rows.specs.Bodies.{body_at, SeatSet};
ghost use Rattle.away_rows.specs.Marks.{IsQuiet};
ghost use Rattle.hub_laws.specs.Events.{cleared, closed};
ghost use Rattle.hub_floor.specs.Forgot.{forgotten, Forgot};
ghost use Rattle.hub_floor.specs.Floor.{hub_state, RestsOf, LinksOf};

use crate::floor::Floor;
use away_rows::{Body, Marks, rise, sit};
use bit_set::BitSet;
use hub_laws::Stage;
use tick_law::{Actor, Charter};

/// An actor without the records that it had.
fn without_records<S: Drop>(mut body: Box<Body<S>>) -> Box<Body<S>>
    ensures { result.value ≡ forgotten body.value }
{
    body.recs.clear();
    body
}

/// The actor of this number has no records any more.
fn forget_one<S: Drop>(seats: &mut Vec<Option<Box<Body<S>>>>, no: usize)
    requires here { (b : Body S) × (body_at seats.old.items no ≡ Some b) }
    requires within { no < length seats.old.items }
    ensures { (b : Body S) → body_at seats.old.items no ≡ Some b
        → SeatSet seats.old.items seats.new.items no (Some (forgotten b)) }
{
    let body = rise(seats, no);
    let body = without_records(body);
    sit(seats, no, body);
}

/// The actors of a set have no records any more.
fn forget<S: Drop>(seats: &mut Vec<Option<Box<Body<S>>>>, back: &BitSet)
    requires here { (i : ℕ) → is_in back.now i ≡ true
        → (b : Body S) × (body_at seats.old.items i ≡ Some b) }
    requires long { length back.now ≡ length seats.old.items }
    ensures { Forgot back.now (length back.now) seats.old.items seats.new.items }
{
    let mut at = 0;
    while let Some(no) = back.next(at) {
        forget_one(seats, no);
        at = no + 1;
    }
}

/// Nobody has a mark any more.
fn unmark(marks: &mut Marks)
    requires out { length marks.old.out ≡ length marks.old.waiting }
    requires back { length marks.old.back ≡ length marks.old.waiting }
    ensures { marks.new ≡ cleared marks.old }
{
    marks.waiting.clear();
    marks.out.clear();
    marks.back.clear();
}

/// The last time of progress behind a time.
fn last_of(stirred: bool, t: u64, end: u64) -> u64
    ensures { result ≡ pick stirred t end }
{
    if stirred { t } else { end }
}

/// The time is over, where all links are back: all stands at the boundary behind it. It is told whether a write of its records
/// failed.
pub fn close_time<P: Actor + Drop, N: Actor + Drop, C: Charter<P, N>>(
    floor: &mut Floor<P, N>,
    failed: bool,
)
    requires floor { LinksOf (system_from P.machine N.machine C.plan C.start)
        P.valid N.valid C.plan.until floor.old }
    requires quiet { IsQuiet floor.old.link_marks }

    ensures floor { RestsOf (system_from P.machine N.machine C.plan C.start)
        P.valid N.valid C.plan.until floor.new }
    ensures event { hub_state floor.new ≡ closed failed (hub_state floor.old) }
{
    forget(&mut floor.parts, &floor.part_marks.back);
    forget(&mut floor.links, &floor.link_marks.back);
    unmark(&mut floor.part_marks);
    unmark(&mut floor.link_marks);
    floor.end = last_of(floor.stirred, floor.at, floor.end);
    floor.stirred = false;
    floor.failed = failed;
    floor.at += 1;
    floor.stage = Stage::Boundary;
}
