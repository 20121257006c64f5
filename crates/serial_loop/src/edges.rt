ghost use Rattle.std.specs.Prelude.{◌≡◌, ◌+◌, ◌≤◌, ◌⊎◌};
ghost use Rattle.sim_base.specs.declared.time.TheConstants.{LATEST_TIME};
ghost use Rattle.serial_loop.specs.FirstEdge.{AreClocks, NoneEarlier, IsFirstEdge};

use sim_base::{Time, first_edge_from};

fn lesser(a: u64, b: u64) -> u64
    ensures first { result ≤ a }
    ensures second { result ≤ b }
    ensures either { (result ≡ a) ⊎ (result ≡ b) }
{
    a.min(b)
}

/// The least of the first edges from a time and a bound.
fn least_edge(periods: &[u64], at: u64, bound: u64) -> u64
    requires periods { AreClocks periods.now }
    requires time { at ≤ bound }
    requires bound { bound ≤ LATEST_TIME + 1 }

    ensures from { at ≤ result }
    ensures within { result ≤ bound }
    ensures each { NoneEarlier periods.now at result }
    ensures reached { (result ≡ bound) ⊎ IsFirstEdge periods.now at result }
{
    let mut low = bound;
    for no in 0..periods.len() {
        low = lesser(first_edge_from(Time(at), periods[no]).0, low);
    }
    low
}

/// The next edge of any actor from a time on, or the bound where that is earlier.
pub fn next_edge(part_periods: &[u64], link_periods: &[u64], at: u64, bound: u64) -> u64
    requires parts { AreClocks part_periods.now }
    requires links { AreClocks link_periods.now }
    requires time { at ≤ bound }
    requires bound { bound ≤ LATEST_TIME + 1 }

    ensures from { at ≤ result }
    ensures within { result ≤ bound }
    ensures parts { NoneEarlier part_periods.now at result }
    ensures links { NoneEarlier link_periods.now at result }
    ensures reached { (result ≡ bound)
        ⊎ (IsFirstEdge part_periods.now at result ⊎ IsFirstEdge link_periods.now at result) }
{
    lesser(
        least_edge(part_periods, at, bound),
        least_edge(link_periods, at, bound),
    )
}
