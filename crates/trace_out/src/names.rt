ghost use Rattle.std.specs.Prelude.{◌≡◌, IfOk, slice_get};

use sim_base::{ActorNo, LinkNo, Name, OutOfMemory, PartNo, PortNo};
use std::alloc::Global;
use std::marker::Model;

/// A port's word at its part, as `top` or `mem`.
#[derive(Clone, Copy)]
pub struct PortName {
    pub part: PartNo,
    pub word: Name,
}

/// The names of a machine's parts, links and ports, by their numbers.
#[derive(Drop)]
pub struct Names {
    parts: Vec<Name>,
    links: Vec<Name>,
    ports: Vec<PortName>,
}

impl Model for Names {
    ghost use Rattle.std.specs.Prelude.{vec_len};
    ghost use Rattle.trace_out.specs.Names.{NamesView, names_view, HavePart};

    ghost Value = { NamesView };

    ghost view = { λ n. names_view n.parts.items n.links.items n.ports.items };

    ghost invariant = { λ n. HavePart (vec_len n.parts) n.ports.items };
}

impl Names {
    ghost use Rattle.std.specs.Prelude.{length};
    ghost use Rattle.trace_out.specs.Names.{names_view, HavePart, actor_name};

    /// The names of these parts, links and ports.
    pub fn open(
        alloc: Global,
        parts: &[Name],
        links: &[Name],
        ports: &[PortName],
    ) -> Result<Names, OutOfMemory>
        requires have_part { HavePart (length parts.now) ports.now }

        ensures { IfOk result (λ names. names ≡ names_view parts.now links.now ports.now) }
    {
        Ok(Names {
            parts: Vec::from_slice(alloc, parts)?,
            links: Vec::from_slice(alloc, links)?,
            ports: Vec::from_slice(alloc, ports)?,
        })
    }

    /// The names of all parts, in order.
    pub fn part_names(&self) -> &[Name]
        ensures { result.now ≡ self.now.parts }
    {
        &self.parts
    }

    /// The names of all links, in order.
    pub fn link_names(&self) -> &[Name]
        ensures { result.now ≡ self.now.links }
    {
        &self.links
    }

    /// The name of a part, or None where there is no such number.
    pub fn part(&self, no: PartNo) -> Option<Name>
        ensures { result ≡ slice_get self.now.parts no.0 }
    {
        self.parts.get(no.0 as usize).copied()
    }

    /// The name of a link, or None where there is no such number.
    pub fn link(&self, no: LinkNo) -> Option<Name>
        ensures { result ≡ slice_get self.now.links no.0 }
    {
        self.links.get(no.0 as usize).copied()
    }

    /// The part of a port and its word there, or None where there is no such number.
    pub(crate) fn port(&self, no: PortNo) -> Option<PortName>
        ensures { result ≡ slice_get self.now.ports no.0 }
    {
        self.ports.get(no.0 as usize).copied()
    }

    /// The name of a part or link, or None where there is no such number.
    pub(crate) fn actor(&self, no: ActorNo) -> Option<Name>
        ensures { result ≡ actor_name self.now no.0 }
    {
        let parts = self.parts.len();
        let no = no.0 as usize;
        if no < parts {
            self.parts.get(no).copied()
        } else {
            self.links.get(no - parts).copied()
        }
    }
}
