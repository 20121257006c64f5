ghost use Rattle.std.specs.Prelude.{◌≡◌, Some, replicate, IfOk};

use event_queue::NextTimes;
use sim_base::{ActorNo, OutOfMemory, Steps, Time};
use std::alloc::Global;
use std::sync::ledger::Ledger;

/// A next time of 0 for each of so many actors.
pub fn first_times<M: Ledger>(
    alloc: Global,
    actors: u32,
    looks: &mut Steps<M>,
) -> Result<NextTimes, OutOfMemory>
    ensures { IfOk result (λ next. next ≡ replicate actors (Some (record { 0 = 0 }))) }
{
    let mut next = NextTimes::open(alloc, actors)?;
    for who in 0..actors {
        next.set_earlier(ActorNo(who), Time(0), looks);
    }
    Ok(next)
}
