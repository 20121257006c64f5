ghost use Rattle.std.specs.Prelude.{◌≡◌, ◌≢◌, ◌/◌, ◌%◌, ◌≤◌, IfNone, IfSome};
ghost use Rattle.sim_base.specs.Edge.{edge_from};
ghost use Rattle.sim_base.specs.declared.time.TheConstants.{LONGEST_PERIOD, LATEST_TICK};

use sim_base::{LATEST_TICK, LONGEST_PERIOD, Time, first_edge_from};
use std::marker::Model;

/// An edge of a clock that is known, with its number, times in picoseconds: edges of a clock of this period at that time and next
/// to it are found without a division. What a beat answers does not depend on which edge it knows.
#[derive(Drop)]
pub struct Beat {
    period: u64,
    cycle: u64,
    edge: u64,
}

impl Model for Beat {
    ghost use Rattle.std.specs.Prelude.{⊤, ◌≡◌, ◌*◌, ◌≤◌};
    ghost use Rattle.sim_base.specs.declared.time.TheConstants.{LONGEST_PERIOD, LATEST_TICK};

    ghost Value = { ⊤ };

    ghost view = { λ _. tt };

    ghost invariant = { λ b. (1 ≤ b.period) × (b.period ≤ LONGEST_PERIOD) × (b.edge ≡ b.cycle * b.period) × (b.edge ≤ LATEST_TICK) };
}

impl Beat {
    /// The edge at 0 of a clock of this period.
    pub fn of(period: u64) -> Beat
        requires some { 1 ≤ period }
        requires short { period ≤ LONGEST_PERIOD }
    {
        Beat {
            period,
            cycle: 0,
            edge: 0,
        }
    }

    /// The last edge up to `t` of the same clock is the one that is known now.
    pub fn move_to(&mut self, t: u64)
        requires { t ≤ LATEST_TICK }
        ensures { self.new ≡ self.old }
    {
        if t == self.edge + self.period {
            self.cycle += 1;
            self.edge = t;
        } else if t != self.edge {
            self.cycle = t / self.period;
            self.edge = self.cycle * self.period;
        }
    }

    /// The last edge up to `t` of a clock of this period, found without a division where it is the one that is known here.
    pub fn near(&self, t: u64, period: u64) -> Beat
        requires some { 1 ≤ period }
        requires short { period ≤ LONGEST_PERIOD }
        requires early { t ≤ LATEST_TICK }
    {
        if period == self.period && t == self.edge {
            return Beat {
                period,
                cycle: self.cycle,
                edge: t,
            };
        }
        let cycle = t / period;
        Beat {
            period,
            cycle,
            edge: cycle * period,
        }
    }

    /// The number of the edge at `t` of a clock of this period, or None where it has none there.
    pub fn cycle_at(&self, t: u64, period: u64) -> Option<u64>
        requires { 1 ≤ period }
        ensures none { IfNone result (t % period ≢ 0) }
        ensures edge { IfSome result (λ n. t % period ≡ 0) }
        ensures number { IfSome result (λ n. n ≡ t / period) }
    {
        if period == self.period && t == self.edge {
            return Some(self.cycle);
        }
        if t % period == 0 {
            Some(t / period)
        } else {
            None
        }
    }

    /// The first edge from `t` on of a clock of this period.
    pub fn first_edge_from(&self, t: u64, period: u64) -> u64
        requires some { 1 ≤ period }
        requires short { period ≤ LONGEST_PERIOD }
        requires early { t ≤ LATEST_TICK }
        ensures { result ≡ edge_from period t }
    {
        if period == self.period && self.edge < t && t <= self.edge + period {
            return self.edge + period;
        }
        if period == self.period && t == self.edge {
            return t;
        }
        first_edge_from(Time(t), period).0
    }
}
