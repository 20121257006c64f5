//! Which bytes ranges hold.
ghost use Rattle.std.specs.Prelude.{◌≡◌, ◌+◌, ◌<◌, ◌≤◌, ℕ, true, false, IfSome, IfNone};
ghost use Rattle.std.specs.List.{list_any};
ghost use Rattle.plan_rules.specs.Rules as rules;

use sim_config::RangeText;

/// Whether two ranges share a byte.
pub(crate) fn overlaps(a: &RangeText, b: &RangeText) -> bool
    ensures { result ≡ rules.overlaps a.now b.now }
{
    u64::from(a.base) < u64::from(b.base) + b.size && u64::from(b.base) < u64::from(a.base) + a.size
}

/// Whether a byte is in a range.
fn holds(range: &RangeText, byte: u64) -> bool
    ensures { result ≡ rules.holds byte range.now }
{
    u64::from(range.base) <= byte && byte < u64::from(range.base) + range.size
}

/// The end of the first range that a byte is in.
fn end_at(ranges: &[RangeText], byte: u64) -> Option<u64>
    ensures behind { IfSome result (λ end. byte < end) }
    ensures held { IfSome result (λ end. (k : ℕ) → byte ≤ k → k < end → list_any (rules.holds k) ranges.now ≡ true) }
    ensures none { IfNone result (list_any (rules.holds byte) ranges.now ≡ false) }
{
    for range in ranges {
        if holds(range, byte) {
            return Some(u64::from(range.base) + range.size);
        }
    }
    None
}

/// Whether some of so many bytes from the first on is in none of the ranges.
#[tactic(auto, unfolding(crate::specs::Rules::is_uncovered))]
pub fn is_uncovered(ranges: &[RangeText], first: u32, count: u64) -> bool
    requires { count ≤ 4294967296 }
    ensures { result ≡ rules.is_uncovered ranges.now first count }
{
    let end = u64::from(first) + count;
    let mut at = u64::from(first);
    while at < end {
        match end_at(ranges, at) {
            Some(next) => at = next,
            None => return true,
        }
    }
    false
}
