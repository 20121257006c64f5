ghost use Rattle.std.specs.Prelude.{◌≡◌, ℕ, List, Option};
ghost use Rattle.sim_config.specs.Meaning as spec;

use crate::kinds::{LinkKind, PartKind};
use sim_base::Mode;

/// One of some words.
pub(crate) trait Word: Drop {
    ghost meaning: { List ℕ → Option Self };

    /// What a text means, None where it is none of the words.
    fn read(text: &str) -> Option<Self>
        ensures { result ≡ meaning text.now };
}

impl Word for PartKind {
    ghost meaning = { spec.part_kind };

    fn read(text: &str) -> Option<Self> {
        match text {
            "relay" => Some(PartKind::Relay),
            "agent" => Some(PartKind::Agent),
            "memory" => Some(PartKind::Memory),
            "cache" => Some(PartKind::Cache),
            "core" => Some(PartKind::Core),
            _ => None,
        }
    }
}

impl Word for LinkKind {
    ghost meaning = { spec.link_kind };

    fn read(text: &str) -> Option<Self> {
        match text {
            "direct" => Some(LinkKind::Direct),
            _ => None,
        }
    }
}

impl Word for Mode {
    ghost meaning = { spec.agent_mode };

    fn read(text: &str) -> Option<Self> {
        match text {
            "read" => Some(Mode::Read),
            "write" => Some(Mode::Write),
            "mixed" => Some(Mode::Mixed),
            _ => None,
        }
    }
}
