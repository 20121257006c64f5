ghost use Rattle.std.specs.Prelude.{◌≡◌, ◌||◌};
ghost use Rattle.tick_law.specs.Verdict.{all_done, verdict_by};
ghost use Rattle.serial_loop.specs.HasNext.{has_next};

use crate::table::NextTables;
use run_gear::{are_done, verdict_at_rest};
use tick_law::{Actor, Verdict};

/// The verdict, by the next times that are left and the parts that are done.
pub fn verdict_of<P: Actor>(parts: &[P], next: &NextTables) -> Verdict
    ensures { result ≡ verdict_by
        (has_next next.now.parts || has_next next.now.links)
        (all_done P.machine parts.now) }
{
    if next.parts.any() || next.links.any() {
        Verdict::Cut
    } else {
        verdict_at_rest(are_done(parts))
    }
}
