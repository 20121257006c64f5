use crate::list_of::ListOf;
use sim_base::Name;
use std::marker::Model;

/// A range of addresses of a map, from `base` on, and the parts that it leads to, a block of `granule` bytes to each in turn.
#[derive(Clone, Debug, PartialEq, Eq, Drop)]
pub struct RangeText {
    /// The first address: a multiple of 64.
    pub base: u32,
    /// In bytes: a multiple of 64 of at least 64. The last address is below 2^32.
    pub size: u64,
    /// The names of 1, 2, 4, 8 or 16 parts, one of which may stand there several times.
    pub to: ListOf<Name>,
    /// In bytes: a power of two, 64 to 2^31.
    pub granule: u32,
}

impl Model for RangeText {
    ghost use Rattle.sim_config.specs.Tables.{RangeTable, IsRange};

    ghost Value = { RangeTable };

    ghost view = { λ r. record { base = r.base; size = r.size; to = r.to; granule = r.granule } };

    ghost inverse = { λ r. record { base = r.base; size = r.size; to = r.to; granule = r.granule } };

    ghost invariant = { λ r. IsRange (record { base = r.base; size = r.size; to = r.to; granule = r.granule }) };
}

/// A map of addresses.
#[derive(Clone, Debug, PartialEq, Eq, Drop)]
pub struct MapText {
    pub name: Name,
    /// 1 to 64 ranges.
    pub ranges: ListOf<RangeText>,
}

impl Model for MapText {
    ghost use Rattle.sim_config.specs.Tables.{MapTable, IsMap};

    ghost Value = { MapTable };

    ghost view = { λ m. record { name = m.name; ranges = m.ranges } };

    ghost inverse = { λ m. record { name = m.name; ranges = m.ranges } };

    ghost invariant = { λ m. IsMap (record { name = m.name; ranges = m.ranges }) };
}
