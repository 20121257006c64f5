ghost use Rattle.std.specs.Prelude.{◌≡◌, ◌^◌, ◌<◌, length, option_copied, slice_get, vec_len, IfOk};
ghost use Rattle.tick_law.specs.Pass.{port_at};
ghost use Rattle.port_rows.specs.Opening.{IsSide};
ghost use Rattle.port_rows.specs.World.{state_of, IsFreshWorld};

use crate::rows::PortRows;
use port_msg::Port;
use sim_base::{LinkNo, OutOfMemory, PartNo, PortNo};
use std::alloc::Global;
use tick_law::Wiring;

/// A world: its parts, its links, and all ports, which stand in the rows of the links.
#[derive(Drop)]
pub struct World<P: Drop, N: Drop> {
    pub parts: Vec<P>,
    pub links: Vec<N>,
    pub rows: PortRows,
}

impl<P: Drop, N: Drop> World<P, N> {
    /// A world of these parts, links and ports, all settled. The wiring tells the link of each port. On refusal the items are
    /// dropped.
    pub fn open(
        alloc: Global,
        parts: Vec<P>,
        links: Vec<N>,
        ports: Vec<Port>,
        wiring: Wiring,
    ) -> Result<World<P, N>, OutOfMemory>
        requires few { vec_len ports < 2 ^ 32 }
        requires side { IsSide wiring (vec_len ports) }
        ensures { IfOk result (λ w. IsFreshWorld parts.items links.items ports.items wiring w) }
    {
        let rows = PortRows::open(alloc, ports, wiring)?;
        Ok(World { parts, links, rows })
    }

    /// The part of this number, or None where there is none.
    pub fn part(&self, no: PartNo) -> Option<&P>
        ensures { option_copied result ≡ slice_get (state_of self.now).parts no.0 }
    {
        self.parts.get(no.0 as usize)
    }

    /// The link of this number, or None where there is none.
    pub fn link(&self, no: LinkNo) -> Option<&N>
        ensures { option_copied result ≡ slice_get (state_of self.now).links no.0 }
    {
        self.links.get(no.0 as usize)
    }

    /// The port of this number.
    pub fn port(&self, no: PortNo) -> &Port
        requires { no.0 < length (state_of self.now).ports }
        ensures { result.now ≡ port_at (state_of self.now).ports no.0 }
    {
        self.rows.port(no.0)
    }
}
