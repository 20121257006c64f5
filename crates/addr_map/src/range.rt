ghost use Rattle.std.specs.Prelude.{◌≡◌, ◌↔◌, IsTrue, IfOk};
ghost use Rattle.addr_map.specs.Range.{IsRange, Holds, target_of};

use sim_base::{ItemList, OutOfMemory, PortNo};
use std::alloc::Global;

/// A list of ports.
pub type Targets = ItemList<PortNo>;

/// A list of ranges.
pub type Ranges = ItemList<Range>;

/// A range of addresses and the ports that serve it in turn, each a granule at a time.
#[derive(Drop)]
pub struct Range {
    /// The first address.
    pub base: u32,
    /// How many bytes it holds.
    pub size: u64,
    /// How many bytes go to one target before the next one's turn.
    pub granule: u32,
    /// The targets, in the order of their turns.
    pub to: Targets,
}

impl Range {
    /// Whether the address is one of the range's bytes.
    pub fn holds(&self, addr: u32) -> bool
        ensures { IsTrue result ↔ Holds self.now addr }
    {
        self.base <= addr && u64::from(addr - self.base) < self.size
    }

    #[tactic(auto, using(crate::proofs::RangeLemmas::slice_get_turn))]
    /// The target that serves an address of the range.
    pub(crate) fn target(&self, addr: u32) -> PortNo
        requires shape { IsRange self.now }
        requires held { Holds self.now addr }

        ensures { target_of self.now addr ≡ Some result }
    {
        let targets = self.to.items();
        targets[((addr - self.base) / self.granule) as usize % targets.len()]
    }

    /// The same range in memory of its own.
    pub(crate) fn copied(&self, alloc: Global) -> Result<Range, OutOfMemory>
        ensures { IfOk result (λ range. range ≡ self.now) }
    {
        let to = Vec::from_slice(alloc, self.to.items())?;
        Ok(Range {
            base: self.base,
            size: self.size,
            granule: self.granule,
            to: Targets::of(to),
        })
    }
}
