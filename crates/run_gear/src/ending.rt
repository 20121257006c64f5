ghost use Rattle.std.specs.Prelude.{◌≡◌};
ghost use Rattle.tick_law.specs.SerialLoop.{pick};

use port_rows::World;
use sim_base::Time;
use task_stats::Stats;
use tick_law::Verdict;

/// What a run leaves: its world, its verdict, the last time at which an actor made progress, or 0, and what was counted of
/// requests, where they were counted.
#[derive(Drop)]
pub struct Ending<P: Drop, N: Drop> {
    pub world: World<P, N>,
    pub verdict: Verdict,
    pub end: Time,
    pub stats: Option<Stats>,
}

/// The ending time behind a time: that time where it stirred.
pub fn later(stirred: bool, t: u64, end: u64) -> u64
    ensures { result ≡ pick stirred t end }
{
    if stirred { t } else { end }
}
