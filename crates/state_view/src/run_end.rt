use sim_base::Time;
use tick_law::Verdict;

/// How a run ended: its budget, which is the greatest time that runs, its verdict, and the last time at which an actor made
/// progress. Times are in picoseconds.
#[derive(Clone, Copy, Debug, PartialEq, Eq)]
pub struct RunEnd {
    pub budget: Time,
    pub verdict: Verdict,
    pub end: Time,
}
