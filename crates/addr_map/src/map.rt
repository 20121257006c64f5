ghost use Rattle.std.specs.Prelude.{◌≡◌, ◌↔◌, IsNone, IfNone, IfSome, IfOk, All, AllPairs, Contains, length};
ghost use Rattle.addr_map.specs.Range.{IsRange, Apart, Holds, target_of, target_at, range_of};
ghost use Rattle.addr_map.specs.Start.{AreStarts, IsSortedStarts, IsRising, AreBelow, IsMap};

use crate::range::Range;
use crate::start::Start;
use sim_base::{OutOfMemory, PortNo};
use std::alloc::Global;
use std::marker::Model;

/// A map from addresses to ports: ranges that do not overlap.
#[derive(Drop)]
pub struct AddrMap {
    /// The ranges as they were given.
    ranges: Vec<Range>,
    /// Where they start, in rising order.
    starts: Vec<Start>,
}

impl Model for AddrMap {
    ghost use Rattle.std.specs.Prelude.{List};
    ghost use Rattle.addr_map.specs.declared.range.Range.{Range};
    ghost use Rattle.addr_map.specs.Start.{IsSearchable};

    ghost Value = { List Range };

    ghost view = { λ m. m.ranges.items };

    ghost invariant = { λ m. IsSearchable m.ranges.items m.starts.items };
}

/// The same ranges in memory of their own.
fn copied(alloc: Global, ranges: &[Range]) -> Result<Vec<Range>, OutOfMemory>
    ensures { IfOk result (λ copies. copies.items ≡ ranges.now) }
{
    let mut copies = Vec::new(alloc);
    for range in ranges {
        copies.push(range.copied(alloc)?)?;
    }
    Ok(copies)
}

/// Where each range starts, in their order.
fn starts_of(alloc: Global, ranges: &[Range]) -> Result<Vec<Start>, OutOfMemory>
    ensures { IfOk result (λ starts. AreStarts ranges.now (length ranges.now) starts.items) }
{
    let mut starts = Vec::new(alloc);
    for (no, range) in ranges.iter().enumerate() {
        starts.push(Start {
            base: range.base,
            no,
        })?;
    }
    Ok(starts)
}

/// Puts the starts in rising order.
fn sort(starts: &mut Vec<Start>)
    ensures { IsSortedStarts starts.old.items starts.new.items }
{
    starts.sort_unstable_by_key(|start| start.base);
}

/// How many of the starts are at or below the address.
fn count_below(starts: &[Start], addr: u32) -> usize
    requires { IsRising starts.now }
    ensures { AreBelow starts.now addr result }
{
    starts.partition_point(|start| start.base <= addr)
}

impl AddrMap {
    /// The map of these ranges, which it copies.
    pub fn open(alloc: Global, ranges: &[Range]) -> Result<AddrMap, OutOfMemory>
        requires shape { All IsRange ranges.now }
        requires apart { AllPairs Apart ranges.now }

        ensures { IfOk result (λ map. map ≡ ranges.now) }
    {
        let mut starts = starts_of(alloc, ranges)?;
        sort(&mut starts);
        Ok(AddrMap {
            ranges: copied(alloc, ranges)?,
            starts,
        })
    }

    /// The last range that starts at or below the address, where it holds it: no other range can.
    fn range_at(&self, addr: u32) -> Option<&Range>
        ensures held { IfSome result (λ r. Holds r.now addr) }
        ensures among { IfSome result (λ r. Contains self.now r.now) }
        ensures none { IfNone result (All (λ r. ¬ Holds r addr) self.now) }
        ensures is_map { IsMap self.now }
    {
        let below = count_below(&self.starts, addr);
        if below == 0 {
            return None;
        }
        let range = &self.ranges[self.starts[below - 1].no];
        if range.holds(addr) { Some(range) } else { None }
    }

    /// The target of an address, or None where no range holds it: a binary search over the starts of the ranges.
    pub fn find(&self, addr: u32) -> Option<PortNo>
        ensures value { result ≡ target_at self.now addr }

        ensures none { IsNone result ↔ All (λ r. ¬ Holds r addr) self.now }
        ensures target { All (λ r. Holds r addr → result ≡ target_of r addr) self.now }
    {
        let range = self.range_at(addr)?;
        Some(range.target(addr))
    }
}
