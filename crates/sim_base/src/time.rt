ghost use Rattle.std.specs.Prelude.{◌≡◌, ℕ, ◌+◌, ◌<◌, ◌≤◌};
ghost use Rattle.sim_base.specs.Edge.{IsEdge, edge_after, edge_from};

/// A time: a whole number of picoseconds.
#[derive(Clone, Copy, Debug, PartialEq, Eq, PartialOrd, Ord)]
pub struct Time(pub u64);

/// The longest period of a clock, in picoseconds.
pub const LONGEST_PERIOD: u64 = 1_000_000_000;

/// The latest budget of a run, in picoseconds.
pub const LATEST_TIME: u64 = 500_000_000_000;

/// Every step is made at this time or before, in picoseconds: the first edge behind the latest budget of the longest period.
pub const LATEST_TICK: u64 = LATEST_TIME + LONGEST_PERIOD;

/// Every edge that is ever computed is below this time, so that no sum of times wraps.
pub const LATEST_EDGE: u64 = 1 << 50;

/// The first edge after `t` of a clock of this period: the least multiple of `period` above `t`, all in picoseconds.
pub fn first_edge_after(t: Time, period: u64) -> Time
    requires some { 1 ≤ period }
    requires short { period ≤ LONGEST_PERIOD }
    requires early { t.0 < LATEST_EDGE }

    ensures edge { IsEdge period result.0 }
    ensures after { t.0 < result.0 }
    ensures least { (e : ℕ) → IsEdge period e → t.0 < e → result.0 ≤ e }
    ensures value { result.0 ≡ edge_after t.0 period }
{
    Time(t.0 + (period - t.0 % period))
}

/// The first edge from `t` on of a clock of this period: the least multiple of `period` not below `t`, all in picoseconds.
pub fn first_edge_from(t: Time, period: u64) -> Time
    requires some { 1 ≤ period }
    requires short { period ≤ LONGEST_PERIOD }
    requires early { t.0 < LATEST_EDGE }

    ensures edge { IsEdge period result.0 }
    ensures from { t.0 ≤ result.0 }
    ensures least { (e : ℕ) → IsEdge period e → t.0 ≤ e → result.0 ≤ e }
    ensures value { result.0 ≡ edge_from period t.0 }
{
    if t.0 % period == 0 {
        t
    } else {
        first_edge_after(t, period)
    }
}
