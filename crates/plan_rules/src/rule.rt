ghost use Rattle.std.specs.Prelude.{◌≡◌};
ghost use Rattle.plan_rules.specs.Words.{rule_words};

use std::fmt;

/// A rule of plans that a configuration may break, in the order in which the rules are tried.
#[derive(Clone, Copy, Debug, PartialEq, Eq)]
pub enum PlanRule {
    /// The numbers of maps, parts, ports, links and programs stay below their limits.
    TooMany,
    /// Parts and links have names of their own, and so have maps; no core has two programs.
    DuplicateName,
    /// Each part, map and port that is named is there.
    NoSuchName,
    /// What is sent goes to parts of kinds that answer it.
    WrongTarget,
    /// No port is named at two places of links.
    PortTwice,
    /// Each port of each part is on a link.
    PortUnplugged,
    /// What a part sends to is on the link of the port that it sends from.
    NotOnLink,
    /// The ranges of a map share no byte.
    MapOverlap,
    /// Ranges lie within what they lead to, and agents ask for bytes of their maps.
    MapOutside,
    /// The lines of a cache are no longer than those of the caches that it sends to.
    LineTooLong,
    /// All memories together are not too large.
    MemoryOver,
}

/// All rules in their order.
pub const RULES: [PlanRule; 11] = [
    PlanRule::TooMany,
    PlanRule::DuplicateName,
    PlanRule::NoSuchName,
    PlanRule::WrongTarget,
    PlanRule::PortTwice,
    PlanRule::PortUnplugged,
    PlanRule::NotOnLink,
    PlanRule::MapOverlap,
    PlanRule::MapOutside,
    PlanRule::LineTooLong,
    PlanRule::MemoryOver,
];

impl PlanRule {
    /// The word by which a message tells of the rule.
    pub fn word(self) -> &'static str
        ensures { result.now ≡ rule_words self }
    {
        match self {
            PlanRule::TooMany => "too-many",
            PlanRule::DuplicateName => "duplicate-name",
            PlanRule::NoSuchName => "no-such-name",
            PlanRule::WrongTarget => "wrong-target",
            PlanRule::PortTwice => "port-twice",
            PlanRule::PortUnplugged => "port-unplugged",
            PlanRule::NotOnLink => "not-on-link",
            PlanRule::MapOverlap => "map-overlap",
            PlanRule::MapOutside => "map-outside",
            PlanRule::LineTooLong => "line-too-long",
            PlanRule::MemoryOver => "memory-over",
        }
    }
}

impl fmt::Display for PlanRule {
    ghost use Rattle.std.specs.Prelude.{Some};

    ghost output = { λ rule. Some (rule_words rule) };

    fn fmt<W: fmt::Write>(&self, f: &mut fmt::Formatter<W>) -> fmt::Result {
        f.write_str(self.word())
    }
}
