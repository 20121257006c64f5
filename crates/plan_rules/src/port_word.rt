ghost use Rattle.std.specs.Prelude.{◌≡◌};
ghost use Rattle.plan_rules.specs.Kinds.{word_text};

/// The word of a port at its part.
#[derive(Clone, Copy, Debug, PartialEq, Eq)]
pub enum PortWord {
    Io,
    Top,
    Bottom,
    Inst,
    Data,
}

impl PortWord {
    pub fn text(self) -> &'static str
        ensures { result.now ≡ word_text self }
    {
        match self {
            PortWord::Io => "io",
            PortWord::Top => "top",
            PortWord::Bottom => "bottom",
            PortWord::Inst => "inst",
            PortWord::Data => "data",
        }
    }
}
