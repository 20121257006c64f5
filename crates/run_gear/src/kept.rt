ghost use Rattle.std.specs.Prelude.{◌≡◌};
ghost use Rattle.run_gear.specs.Counted.{counted_with};

use port_msg::RecList;
use task_stats::Stats;

/// What a run keeps of its records beside the lines of the bytes that cores wrote.
#[derive(Drop)]
pub struct Kept {
    /// Whether every record has its line, or those of bytes alone.
    pub all: bool,
    /// What was counted of requests so far, where they are counted.
    pub stats: Option<Stats>,
}

/// Counts the requests of these records, where they are counted.
pub fn count(stats: &mut Option<Stats>, recs: &RecList)
    ensures { stats.new ≡ counted_with stats.old recs.now.items }
{
    if let Some(stats) = stats {
        stats.add(recs);
    }
}
