//! The keys of each table: their words, the numbers that they have, and what stands where one is left out.
ghost use Rattle.std.specs.Prelude.{◌≡◌};
ghost use Rattle.sim_config.specs.Keys.{allows};

/// Which numbers are allowed: from a least to a greatest, of a shape.
#[derive(Clone, Copy)]
pub(crate) struct Allowed {
    pub least: u64,
    pub greatest: u64,
    pub shape: Shape,
}

#[derive(Clone, Copy)]
pub(crate) enum Shape {
    Any,
    MultipleOf4,
    MultipleOf64,
    PowerOfTwo,
}

/// The word of a key that has a row here.
#[derive(Clone, Copy)]
pub(crate) enum KeyWord {
    Version,
    Until,
    Period,
    Base,
    Size,
    Granule,
    Buffer,
    Start,
    Span,
    Count,
    Window,
    Gap,
    Draw,
    Latency,
    Depth,
    Line,
    Sets,
    Ways,
    Misses,
    Pc,
    Map,
    Part,
    Link,
    Program,
    Range,
    To,
    Words,
    Ports,
}

/// A key that has a number, and the number where the key is left out.
#[derive(Clone, Copy)]
pub(crate) struct NumberKey {
    pub key: KeyWord,
    pub allowed: Allowed,
    pub default: Option<u64>,
}

/// A key that has a list, and whether it may be left out, for the empty list.
#[derive(Clone, Copy)]
pub(crate) struct ListKey {
    pub key: KeyWord,
    pub lengths: Allowed,
    pub is_optional: bool,
}

impl KeyWord {
    ghost use Rattle.sim_config.specs.Keys.{key_word};

    pub(crate) fn as_str(self) -> &'static str
        ensures { result.now ≡ key_word self }
    {
        match self {
            KeyWord::Version => "version",
            KeyWord::Until => "until",
            KeyWord::Period => "period",
            KeyWord::Base => "base",
            KeyWord::Size => "size",
            KeyWord::Granule => "granule",
            KeyWord::Buffer => "buffer",
            KeyWord::Start => "start",
            KeyWord::Span => "span",
            KeyWord::Count => "count",
            KeyWord::Window => "window",
            KeyWord::Gap => "gap",
            KeyWord::Draw => "draw",
            KeyWord::Latency => "latency",
            KeyWord::Depth => "depth",
            KeyWord::Line => "line",
            KeyWord::Sets => "sets",
            KeyWord::Ways => "ways",
            KeyWord::Misses => "misses",
            KeyWord::Pc => "pc",
            KeyWord::Map => "map",
            KeyWord::Part => "part",
            KeyWord::Link => "link",
            KeyWord::Program => "program",
            KeyWord::Range => "range",
            KeyWord::To => "to",
            KeyWord::Words => "words",
            KeyWord::Ports => "ports",
        }
    }
}

impl Shape {
    ghost use Rattle.sim_config.specs.Keys.{has_shape};

    fn has(self, number: u64) -> bool
        ensures { result ≡ has_shape self number }
    {
        match self {
            Shape::Any => true,
            Shape::MultipleOf4 => number % 4 == 0,
            Shape::MultipleOf64 => number % 64 == 0,
            Shape::PowerOfTwo => number.is_power_of_two(),
        }
    }
}

impl Allowed {
    ghost use Rattle.sim_config.specs.Keys.{up_to};

    pub(crate) fn allows(&self, number: u64) -> bool
        ensures { result ≡ allows self.now number }
    {
        self.least <= number && number <= self.greatest && self.shape.has(number)
    }

    fn up_to(self, greatest: u64) -> Self
        ensures { result ≡ up_to greatest self }
    {
        Allowed {
            greatest: self.greatest.min(greatest),
            ..self
        }
    }
}

impl NumberKey {
    ghost use Rattle.sim_config.specs.Keys.{at_most, number_row};

    pub(crate) fn word(&self) -> &'static str
        ensures { result.now ≡ (number_row self.now).word }
    {
        self.key.as_str()
    }

    /// The key, with no number above this one.
    pub(crate) fn at_most(self, greatest: u64) -> Self
        ensures { number_row result ≡ at_most greatest (number_row self) }
    {
        NumberKey {
            allowed: self.allowed.up_to(greatest),
            ..self
        }
    }
}

impl ListKey {
    ghost use Rattle.sim_config.specs.Keys.{no_longer_than, list_row};

    pub(crate) fn word(&self) -> &'static str
        ensures { result.now ≡ (list_row self.now).word }
    {
        self.key.as_str()
    }

    /// The key, with no list longer than this.
    pub(crate) fn no_longer_than(self, greatest: u64) -> Self
        ensures { list_row result ≡ no_longer_than greatest (list_row self) }
    {
        ListKey {
            lengths: self.lengths.up_to(greatest),
            ..self
        }
    }
}

/// Every address is below this.
pub(crate) const ADDRESS_LIMIT: u64 = 1 << 32;

/// No list is too long, nor too short.
const ANY_LENGTH: Allowed = Allowed {
    least: 0,
    greatest: u64::MAX,
    shape: Shape::Any,
};

/// The words of a memory.
pub(crate) const WORD_VALUES: Allowed = Allowed {
    least: 0,
    greatest: 4_294_967_295,
    shape: Shape::Any,
};

pub(crate) const VERSION: NumberKey = NumberKey {
    key: KeyWord::Version,
    allowed: Allowed {
        least: 1,
        greatest: 2,
        shape: Shape::Any,
    },
    default: None,
};

pub(crate) const UNTIL: NumberKey = NumberKey {
    key: KeyWord::Until,
    allowed: Allowed {
        least: 0,
        greatest: 500_000_000_000,
        shape: Shape::Any,
    },
    default: Some(500_000_000_000),
};

pub(crate) const PERIOD: NumberKey = NumberKey {
    key: KeyWord::Period,
    allowed: Allowed {
        least: 1,
        greatest: 1_000_000_000,
        shape: Shape::Any,
    },
    default: None,
};

pub(crate) const BASE: NumberKey = NumberKey {
    key: KeyWord::Base,
    allowed: Allowed {
        least: 0,
        greatest: 4_294_967_232,
        shape: Shape::MultipleOf64,
    },
    default: None,
};

pub(crate) const SIZE: NumberKey = NumberKey {
    key: KeyWord::Size,
    allowed: Allowed {
        least: 64,
        greatest: 4_294_967_296,
        shape: Shape::MultipleOf64,
    },
    default: None,
};

pub(crate) const GRANULE: NumberKey = NumberKey {
    key: KeyWord::Granule,
    allowed: Allowed {
        least: 64,
        greatest: 2_147_483_648,
        shape: Shape::PowerOfTwo,
    },
    default: Some(64),
};

pub(crate) const BUFFER: NumberKey = NumberKey {
    key: KeyWord::Buffer,
    allowed: Allowed {
        least: 1,
        greatest: 64,
        shape: Shape::Any,
    },
    default: Some(4),
};

pub(crate) const TOKEN: NumberKey = NumberKey {
    key: KeyWord::Start,
    allowed: Allowed {
        least: 1,
        greatest: 1_000_000,
        shape: Shape::Any,
    },
    default: None,
};

pub(crate) const AGENT_BASE: NumberKey = NumberKey {
    key: KeyWord::Base,
    allowed: Allowed {
        least: 0,
        greatest: 4_294_967_292,
        shape: Shape::MultipleOf4,
    },
    default: None,
};

pub(crate) const SPAN: NumberKey = NumberKey {
    key: KeyWord::Span,
    allowed: Allowed {
        least: 4,
        greatest: 4_294_967_296,
        shape: Shape::MultipleOf4,
    },
    default: None,
};

pub(crate) const COUNT: NumberKey = NumberKey {
    key: KeyWord::Count,
    allowed: Allowed {
        least: 0,
        greatest: 1_000_000,
        shape: Shape::Any,
    },
    default: None,
};

pub(crate) const WINDOW: NumberKey = NumberKey {
    key: KeyWord::Window,
    allowed: Allowed {
        least: 1,
        greatest: 64,
        shape: Shape::Any,
    },
    default: Some(1),
};

pub(crate) const GAP: NumberKey = NumberKey {
    key: KeyWord::Gap,
    allowed: Allowed {
        least: 1,
        greatest: 1_000_000,
        shape: Shape::Any,
    },
    default: Some(1),
};

pub(crate) const START: NumberKey = NumberKey {
    key: KeyWord::Start,
    allowed: Allowed {
        least: 0,
        greatest: 1_000_000,
        shape: Shape::Any,
    },
    default: Some(0),
};

pub(crate) const DRAW: NumberKey = NumberKey {
    key: KeyWord::Draw,
    allowed: Allowed {
        least: 0,
        greatest: 4_294_967_295,
        shape: Shape::Any,
    },
    default: Some(0),
};

pub(crate) const MEMORY_SIZE: NumberKey = NumberKey {
    key: KeyWord::Size,
    allowed: Allowed {
        least: 64,
        greatest: 268_435_456,
        shape: Shape::MultipleOf64,
    },
    default: None,
};

pub(crate) const LATENCY: NumberKey = NumberKey {
    key: KeyWord::Latency,
    allowed: Allowed {
        least: 1,
        greatest: 1_000_000,
        shape: Shape::Any,
    },
    default: Some(1),
};

pub(crate) const DEPTH: NumberKey = NumberKey {
    key: KeyWord::Depth,
    allowed: Allowed {
        least: 1,
        greatest: 64,
        shape: Shape::Any,
    },
    default: Some(4),
};

pub(crate) const LINE: NumberKey = NumberKey {
    key: KeyWord::Line,
    allowed: Allowed {
        least: 16,
        greatest: 64,
        shape: Shape::PowerOfTwo,
    },
    default: Some(64),
};

pub(crate) const SETS: NumberKey = NumberKey {
    key: KeyWord::Sets,
    allowed: Allowed {
        least: 1,
        greatest: 1024,
        shape: Shape::PowerOfTwo,
    },
    default: None,
};

pub(crate) const WAYS: NumberKey = NumberKey {
    key: KeyWord::Ways,
    allowed: Allowed {
        least: 1,
        greatest: 16,
        shape: Shape::Any,
    },
    default: None,
};

pub(crate) const MISSES: NumberKey = NumberKey {
    key: KeyWord::Misses,
    allowed: Allowed {
        least: 1,
        greatest: 8,
        shape: Shape::Any,
    },
    default: Some(1),
};

pub(crate) const PC: NumberKey = NumberKey {
    key: KeyWord::Pc,
    allowed: Allowed {
        least: 0,
        greatest: 4_294_967_295,
        shape: Shape::Any,
    },
    default: Some(0),
};

pub(crate) const MAPS: ListKey = ListKey {
    key: KeyWord::Map,
    lengths: ANY_LENGTH,
    is_optional: true,
};

pub(crate) const PARTS: ListKey = ListKey {
    key: KeyWord::Part,
    lengths: ANY_LENGTH,
    is_optional: true,
};

pub(crate) const LINKS: ListKey = ListKey {
    key: KeyWord::Link,
    lengths: ANY_LENGTH,
    is_optional: true,
};

pub(crate) const PROGRAMS: ListKey = ListKey {
    key: KeyWord::Program,
    lengths: ANY_LENGTH,
    is_optional: true,
};

pub(crate) const RANGES: ListKey = ListKey {
    key: KeyWord::Range,
    lengths: Allowed {
        least: 1,
        greatest: 64,
        shape: Shape::Any,
    },
    is_optional: false,
};

pub(crate) const TO: ListKey = ListKey {
    key: KeyWord::To,
    lengths: Allowed {
        least: 1,
        greatest: 16,
        shape: Shape::PowerOfTwo,
    },
    is_optional: false,
};

pub(crate) const WORDS: ListKey = ListKey {
    key: KeyWord::Words,
    lengths: ANY_LENGTH,
    is_optional: true,
};

pub(crate) const PORTS: ListKey = ListKey {
    key: KeyWord::Ports,
    lengths: Allowed {
        least: 1,
        greatest: 1024,
        shape: Shape::Any,
    },
    is_optional: false,
};

pub(crate) const NAME: &str = "name";

pub(crate) const KIND: &str = "kind";

pub(crate) const TOP_WORDS: [&str; 6] = ["version", "until", "map", "part", "link", "program"];

pub(crate) const MAP_WORDS: [&str; 2] = [NAME, "range"];

pub(crate) const RANGE_WORDS: [&str; 4] = ["base", "size", "to", "granule"];

pub(crate) const PART_WORDS: [&str; 4] = [NAME, KIND, "period", "buffer"];

pub(crate) const LINK_WORDS: [&str; 3] = [NAME, KIND, "period"];

pub(crate) const PROGRAM_WORDS: [&str; 2] = ["core", "file"];
