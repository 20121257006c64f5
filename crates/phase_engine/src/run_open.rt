ghost use Rattle.std.specs.Prelude.{◌≡◌, ◌<◌, IfOk};
ghost use Rattle.tick_law.specs.PlanView.{opening};
ghost use Rattle.phase_engine.specs.Run.{IsRun};

use crate::first_times::first_times;
use crate::run::Run;
use actor_turn::gear::RowGear;
use run_gear::{Gear, Opened, open_run};
use sim_base::{OutOfMemory, Steps};
use std::alloc::Global;
use std::sync::ledger::{Blank, Ledger};
use tick_law::{Actor, Charter, Plan};

/// A run of this plan at its beginning, with a next time of 0 for everybody. Looks at the heap are counted by a counter that is
/// made of `blank`.
pub fn open_due<P: Actor + Drop, N: Actor + Drop, C: Charter<P, N>, M: Ledger>(
    alloc: Global,
    plan: Plan<P, N>,
    blank: Blank,
) -> Result<Run<P, N>, OutOfMemory>
    requires name { blank.name ≡ M.name }
    requires parts { blank.parts ≡ M.parts }
    requires some { 0 < blank.parts }
    requires plan { plan ≡ C.plan }
    requires start { C.start ≡ opening C.plan }

    ensures run { IfOk result (IsRun P.machine N.machine P.valid N.valid C.plan C.start) }
    ensures boundary { IfOk result (λ run. run.at ≡ 0) }
{
    let mut looks = Steps::<M>::open(blank);
    let Opened {
        world,
        gear,
        names,
        until,
    } = open_run(alloc, plan)?;
    let Gear {
        parts,
        links,
        hands,
        recs,
    } = gear;
    let actors = parts.periods.len() + links.periods.len();
    let next = first_times(alloc, actors as u32, &mut looks)?;
    let gear = RowGear::open(alloc, parts, links, hands, next, recs)?;
    Ok(Run {
        world,
        gear,
        names,
        until: until.0,
        at: 0,
        end: 0,
    })
}
