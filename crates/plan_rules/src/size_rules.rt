//! The rules on ranges and sizes.
ghost use Rattle.std.specs.Prelude.{◌≡◌, ◌+◌, ◌≤◌, length, option_map, slice_get, take, sum_by};
ghost use Rattle.std.specs.List.{list_any};
ghost use Rattle.sim_config.specs.Tables.{AreKeys, PartTable};
ghost use Rattle.plan_rules.specs.Kinds as kinds;
ghost use Rattle.plan_rules.specs.Text.{passes, keys_at, ranges_at};
ghost use Rattle.plan_rules.specs.Rules as rules;

use crate::covers::{is_uncovered, overlaps};
use crate::kinds::memory_bytes;
use crate::limits::MOST_MEMORY;
use crate::named::front;
use crate::numbered::Numbered;
use sim_config::{PartKeys, PartText, PlanText, RangeText, TableNo};

fn overlaps_one(ranges: &[RangeText], range: &RangeText) -> bool
    ensures { result ≡ list_any (rules.overlaps range.now) ranges.now }
{
    ranges.iter().any(|other| overlaps(range, other))
}

fn overlaps_earlier(plan: &Numbered, map: usize, no: usize) -> bool
    ensures { result ≡ passes (slice_get (ranges_at plan.now map) no)
        (λ range. list_any (rules.overlaps range) (take no (ranges_at plan.now map))) }
{
    let ranges = plan.ranges(map);
    match ranges.get(no) {
        Some(range) => overlaps_one(&ranges[..no], range),
        None => false,
    }
}

/// Whether a range shares a byte with an earlier range of its map.
#[tactic(auto, unfolding(crate::specs::Rules::map_overlap))]
pub(crate) fn map_overlap(plan: &Numbered, table: TableNo) -> bool
    ensures { result ≡ rules.map_overlap plan.now table }
{
    match table {
        TableNo::Range(map, no) => overlaps_earlier(plan, map as usize, no as usize),
        TableNo::Top
        | TableNo::Map(_)
        | TableNo::Part(_)
        | TableNo::Link(_)
        | TableNo::Program(_) => false,
    }
}

/// Whether a range is not within the memory, or not covered by the cache's map, that it leads to.
fn is_outside(plan: &Numbered, range: &RangeText, keys: Option<&PartKeys>) -> bool
    ensures { result ≡ rules.is_outside plan.now range.now (option_map (λ k. k.now) keys.entry) }
{
    match keys {
        Some(PartKeys::Memory { base, size, .. }) => {
            let end = u64::from(range.base) + range.size;
            !(*base <= range.base && end <= u64::from(*base) + u64::from(*size))
        }
        Some(PartKeys::Cache { map, .. }) => {
            is_uncovered(plan.ranges_by(map), range.base, range.size)
        }
        Some(PartKeys::Relay { .. } | PartKeys::Agent { .. } | PartKeys::Core { .. }) | None => {
            false
        }
    }
}

fn some_outside(plan: &Numbered, range: &RangeText, targets: &[Option<usize>]) -> bool
    ensures { result ≡ list_any (λ target. rules.is_outside plan.now range.now (rules.keys_of plan.now target)) targets.now }
{
    for target in targets {
        if is_outside(plan, range, plan.keys_of(*target)) {
            return true;
        }
    }
    false
}

fn range_is_outside(plan: &Numbered, map: usize, no: usize) -> bool
    ensures { result ≡ passes (slice_get (ranges_at plan.now map) no)
        (λ range. list_any (λ target. rules.is_outside plan.now range (rules.keys_of plan.now target)) (rules.targets_at plan.now map no)) }
{
    match plan.ranges(map).get(no) {
        Some(range) => some_outside(plan, range, plan.targets(map, no)),
        None => false,
    }
}

fn asks_outside(plan: &Numbered, keys: &PartKeys) -> bool
    requires { AreKeys keys.now }
    ensures { result ≡ rules.asks_outside plan.now keys.now }
{
    match keys {
        PartKeys::Agent {
            map,
            base,
            span,
            ..
        } => is_uncovered(plan.ranges_by(map), *base, *span),
        _ => false,
    }
}

fn part_asks_outside(plan: &Numbered, no: usize) -> bool
    ensures { result ≡ passes (keys_at plan.now no) (rules.asks_outside plan.now) }
{
    match plan.keys(no) {
        Some(keys) => asks_outside(plan, keys),
        None => false,
    }
}

/// Whether a range is outside a memory or a cache that it leads to, or an agent asks for bytes outside its map.
#[tactic(auto, unfolding(crate::specs::Rules::map_outside))]
pub(crate) fn map_outside(plan: &Numbered, table: TableNo) -> bool
    ensures { result ≡ rules.map_outside plan.now table }
{
    match table {
        TableNo::Range(map, no) => range_is_outside(plan, map as usize, no as usize),
        TableNo::Part(no) => part_asks_outside(plan, no as usize),
        TableNo::Top | TableNo::Map(_) | TableNo::Link(_) | TableNo::Program(_) => false,
    }
}

/// The sizes of the memories among these parts.
fn memory_of(parts: &[PartText]) -> u64
    requires { length parts.now ≤ 4294967296 }
    ensures { result ≡ sum_by (λ (p : PartTable). kinds.memory_bytes p.kind) parts.now }
{
    let mut bytes = 0;
    for part in parts {
        bytes += u64::from(memory_bytes(&part.kind));
    }
    bytes
}

/// The sizes of the memories up to and with the part of this number.
fn memory_up_to(text: &PlanText, no: u32) -> u64
    ensures { result ≡ sum_by (λ (p : PartTable). kinds.memory_bytes p.kind) (take (no + 1) text.now.parts) }
{
    memory_of(front(text.parts.items(), no as usize + 1))
}

/// Whether the sizes of the memories up to this part pass their limit.
#[tactic(auto, unfolding(crate::specs::Rules::memory_over))]
pub(crate) fn memory_over(plan: &Numbered, table: TableNo) -> bool
    ensures { result ≡ rules.memory_over plan.now table }
{
    match table {
        TableNo::Part(no) => memory_up_to(plan.text(), no) > MOST_MEMORY,
        TableNo::Top
        | TableNo::Map(_)
        | TableNo::Range(..)
        | TableNo::Link(_)
        | TableNo::Program(_) => false,
    }
}
