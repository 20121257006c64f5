use crate::list_of::ListOf;
use sim_base::Name;
use std::marker::Model;

/// A port, which a configuration writes as `PART.PORT`.
#[derive(Clone, Copy, Debug, PartialEq, Eq)]
pub struct PortRef {
    /// The name of its part.
    pub part: Name,
    /// Its own word, as `io`.
    pub word: Name,
}

/// What a link has by its kind.
#[derive(Clone, Copy, Debug, PartialEq, Eq)]
pub enum LinkKeys {
    /// A direct link, which has nothing of its own.
    Direct,
}

/// A link of the machine.
#[derive(Clone, Debug, PartialEq, Eq, Drop)]
pub struct LinkText {
    pub name: Name,
    /// In picoseconds, 1 to 1,000,000,000.
    pub period: u64,
    /// The 1 to 1024 ports that it joins, in order.
    pub ports: ListOf<PortRef>,
    /// Its kind, with what it has by that.
    pub kind: LinkKeys,
}

impl Model for LinkText {
    ghost use Rattle.sim_config.specs.Tables.{LinkTable, IsLink};

    ghost Value = { LinkTable };

    ghost view = { λ l. record { name = l.name; period = l.period; ports = l.ports; kind = l.kind } };

    ghost inverse = { λ l. record { name = l.name; period = l.period; ports = l.ports; kind = l.kind } };

    ghost invariant = { λ l. IsLink (record { name = l.name; period = l.period; ports = l.ports; kind = l.kind }) };
}
