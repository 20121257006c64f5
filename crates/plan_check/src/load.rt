ghost use Rattle.std.specs.Prelude.{◌≡◌, true, Some};
ghost use Rattle.plan_check.specs.Caches.{end_of};
ghost use Rattle.plan_check.specs.Programs as spec;

use crate::caches::{CacheMap, end_from, is_at};
use addr_map::AddrMap;
use elf_load::Segment;
use sim_base::PortNo;
use std::marker::Model;

/// A segment, the file that has its bytes, and the way by which they come to memories: the map that they go by first, and the caches
/// through which they then go.
#[derive(Drop)]
pub(crate) struct Load<'a> {
    pub map: &'a AddrMap,
    pub caches: &'a [CacheMap],
    pub file: &'a [u8],
    pub segment: Segment,
}

impl<'a> Model for Load<'a> {
    ghost use Rattle.std.specs.Prelude.{length};
    ghost use Rattle.elf_load.specs.Image.{IsSound};
    ghost use Rattle.plan_check.specs.Programs.{Load};

    ghost Value = { Load };

    ghost view = { λ l. record { way = record { map = l.map.now; caches = l.caches.now }; file = l.file.now; segment = l.segment } };

    ghost invariant = { λ l. IsSound (length l.file.now) l.segment };
}

impl<'a> Load<'a> {
    /// Whether an address is one of the segment's.
    fn has_address(&self, addr: u32) -> bool
        ensures { result ≡ spec.has_address self.now.segment addr }
    {
        let segment = &self.segment;
        let end = u64::from(segment.vaddr) + u64::from(segment.mem_size);
        segment.vaddr <= addr && u64::from(addr) < end
    }

    /// The byte at an address of the segment: that of the file, and 0 behind the bytes that the file has for it.
    fn byte(&self, addr: u32) -> u8
        requires { spec.has_address self.now.segment addr ≡ true }
        ensures { result ≡ spec.segment_byte self.now.file self.now.segment addr }
    {
        let offset = addr - self.segment.vaddr;
        if offset < self.segment.file_size {
            self.file[self.segment.from as usize + offset as usize]
        } else {
            0
        }
    }

    /// The port at which an address ends up, None where the map has none for it.
    fn end(&self, addr: u32) -> Option<PortNo>
        ensures { result ≡ end_of self.now.way addr }
    {
        end_from(self.caches, addr, self.map.find(addr))
    }

    /// The byte that it puts at an address of the memory of a port, None where it puts none there.
    pub(crate) fn byte_for(&self, port: PortNo, addr: u32) -> Option<u8>
        ensures { result ≡ spec.byte_for port self.now addr }
    {
        if self.has_address(addr) && is_at(port, self.end(addr)) {
            Some(self.byte(addr))
        } else {
            None
        }
    }
}
