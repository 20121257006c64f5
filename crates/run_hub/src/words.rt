//! The words of a run: whether it is paused, how many want to look, and whether nobody lingers.
ghost use Rattle.std.specs.Prelude.{◌≡◌};
ghost use Rattle.tick_law.specs.PlanView.{system_from};
ghost use Rattle.run_hub.specs.Stands.{Stands, WentOn};

use hub_floor::Floor;
use tick_law::{Actor, Charter};

/// It has these words.
pub(crate) fn set_words<P: Actor + Drop, N: Actor + Drop, C: Charter<P, N>>(
    floor: &mut Floor<P, N>,
    paused: bool,
    wants: u32,
    left: bool,
)
    requires { Stands (system_from P.machine N.machine C.plan C.start)
        P.valid N.valid C.plan.until floor.old }

    ensures stands { Stands (system_from P.machine N.machine C.plan C.start)
        P.valid N.valid C.plan.until floor.new }
    ensures words { floor.new
        ≡ record floor.old { paused = paused; wants = wants; left = left } }
    ensures on { WentOn (system_from P.machine N.machine C.plan C.start) floor.old floor.new }
{
    floor.paused = paused;
    floor.wants = wants;
    floor.left = left;
}
