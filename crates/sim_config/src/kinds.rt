ghost use Rattle.std.specs.Prelude.{◌≡◌};
ghost use Rattle.sim_config.specs.Values.{texts};

use crate::version::Version;

/// The kinds of parts.
#[derive(Clone, Copy)]
pub(crate) enum PartKind {
    Relay,
    Agent,
    Memory,
    Cache,
    Core,
}

/// The kinds of links.
#[derive(Clone, Copy)]
pub(crate) enum LinkKind {
    Direct,
}

impl PartKind {
    ghost use Rattle.sim_config.specs.Keys.{part_kind_words};

    /// The words of the keys that parts of this kind alone have in a version.
    pub(crate) fn words(self, version: Version) -> &'static [&'static str]
        ensures { texts result.now ≡ part_kind_words version self }
    {
        match self {
            PartKind::Relay => &["to", "start"],
            PartKind::Agent => &[
                "map", "base", "span", "count", "window", "gap", "start", "mode", "draw",
            ],
            PartKind::Memory => &["base", "size", "latency", "depth", "words"],
            PartKind::Cache => match version {
                Version::One => &["map", "line", "sets", "ways"],
                Version::Two => &["map", "line", "sets", "ways", "misses"],
            },
            PartKind::Core => &["inst", "data", "pc"],
        }
    }
}

impl LinkKind {
    ghost use Rattle.sim_config.specs.Keys.{link_kind_words};

    /// The words of the keys that links of this kind alone have.
    pub(crate) fn words(self) -> &'static [&'static str]
        ensures { texts result.now ≡ link_kind_words self }
    {
        match self {
            LinkKind::Direct => &["ports"],
        }
    }
}
