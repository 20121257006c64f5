//! The requests of a time are counted.
ghost use Rattle.std.specs.Prelude.{◌≡◌, ℕ, length, true, Some};
ghost use Rattle.bit_set.specs.Bits.{is_in};
ghost use Rattle.task_stats.specs.Tasks.{after_records};
ghost use Rattle.away_rows.specs.declared.body.Body.{Body};
ghost use Rattle.away_rows.specs.Bodies.{body_at};
ghost use Rattle.tick_law.specs.SerialLoop.{records_at_time};
ghost use Rattle.tick_law.specs.PlanView.{system_from};
ghost use Rattle.away_rows.specs.Marks.{IsQuiet};
ghost use Rattle.hub_floor.specs.Floor.{LinksOf};
ghost use Rattle.run_hub.specs.Lines.{side_records};

use crate::lines::recs_at;
use away_rows::Body;
use bit_set::BitSet;
use hub_floor::Floor;
use task_stats::Stats;
use tick_law::{Actor, Charter};

/// Counts the requests of those of a side that are back, in the order of their numbers.
fn count_side<S: Drop>(seats: &Vec<Option<Box<Body<S>>>>, back: &BitSet, stats: &mut Stats)
    requires here { (i : ℕ) → is_in back.now i ≡ true
        → (b : Body S) × (body_at seats.now.items i ≡ Some b) }
    ensures { stats.new ≡ after_records stats.old
        (side_records back.now seats.now.items (length back.now)) }
{
    let mut at = 0;
    while let Some(no) = back.next(at) {
        stats.add(recs_at(seats, no));
        at = no + 1;
    }
}

/// Counts the requests of a time all of whose actors are back, the parts' first.
pub fn count_time<P: Actor + Drop, N: Actor + Drop, C: Charter<P, N>>(
    floor: &Floor<P, N>,
    stats: &mut Stats,
)
    requires floor { LinksOf (system_from P.machine N.machine C.plan C.start)
        P.valid N.valid C.plan.until floor.now }
    requires quiet { IsQuiet floor.now.link_marks }
    ensures { stats.new ≡ after_records stats.old
        (records_at_time (system_from P.machine N.machine C.plan C.start) floor.now.at) }
{
    count_side(&floor.parts, &floor.part_marks.back, stats);
    count_side(&floor.links, &floor.link_marks.back, stats);
}
