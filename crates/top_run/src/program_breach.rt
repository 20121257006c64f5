ghost use Rattle.std.specs.Prelude.{◌≡◌};
ghost use Rattle.top_run.specs.Refusals.{program_word};

use elf_load::ElfRule;
use std::fmt;

/// A rule of programs.
#[derive(Clone, Copy, Debug, PartialEq, Eq)]
pub enum ProgramRule {
    /// A rule of the format of a program's file.
    Format(ElfRule),
    /// Each byte of a segment has a port by the map of data of the program's core.
    SegmentUnmapped,
}

impl ProgramRule {
    /// The word by which a message tells of the rule.
    pub fn word(&self) -> &'static str
        ensures { result.now ≡ program_word self.now }
    {
        match self {
            ProgramRule::Format(rule) => rule.word(),
            ProgramRule::SegmentUnmapped => "segment-unmapped",
        }
    }
}

impl fmt::Display for ProgramRule {
    ghost use Rattle.std.specs.Prelude.{Some};

    ghost output = { λ rule. Some (program_word rule) };

    fn fmt<W: fmt::Write>(&self, f: &mut fmt::Formatter<W>) -> fmt::Result {
        f.write_str(self.word())
    }
}

/// A broken rule of programs: the number of the program among those of the configuration, from 0 on, and the byte place in its
/// file.
#[derive(Clone, Copy, Debug, PartialEq, Eq)]
pub struct ProgramBreach {
    pub program: usize,
    pub rule: ProgramRule,
    pub at: u32,
}
