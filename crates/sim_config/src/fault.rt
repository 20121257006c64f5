ghost use Rattle.std.specs.Prelude.{◌≡◌};
ghost use Rattle.sim_config.specs.declared.fault.ConfigFault.TheVariants.{OutOfMemory};

use sim_base::Name;
use std::alloc::{AllocError, AllocFailed};

/// A rule of configurations that a file may break.
#[derive(Clone, Copy, Debug, PartialEq, Eq)]
pub enum ConfigRule {
    /// The file has more bytes than a configuration may have.
    TooLong,
    /// The file is no TOML document in UTF-8, or none that the reader takes.
    NotToml,
    /// A table has a key that tables of its sort do not have.
    UnknownKey,
    /// A key that must be there is not.
    Missing,
    /// A value, or an element of a list, is of another type than its key has.
    WrongType,
    /// A value, the length of a list, or an element of it, is none that its key has.
    OutOfRange,
    /// A text is no name, or no part and port.
    NameShape,
}

/// A table of a configuration. Each sort is counted from 0 in the order of the file, and the ranges within their map.
#[derive(Clone, Copy, Debug, PartialEq, Eq)]
pub enum TableNo {
    /// The document itself.
    Top,
    /// The map of this number.
    Map(u32),
    /// The range of the second number in the map of the first.
    Range(u32, u32),
    /// The part of this number.
    Part(u32),
    /// The link of this number.
    Link(u32),
    /// The program of this number.
    Program(u32),
}

/// The word of a key.
#[derive(Clone, Copy, PartialEq, Eq)]
pub struct Key(pub Name);

/// Why a file is no configuration.
#[derive(Clone, Copy, Debug, PartialEq, Eq)]
pub enum ConfigFault {
    /// The first rule that is broken, in which table, and at which key where the rule is about one.
    Broken {
        rule: ConfigRule,
        table: TableNo,
        key: Option<Key>,
    },
    /// No memory was found.
    OutOfMemory,
}

impl From<AllocError> for ConfigFault {
    ghost from_gives = { λ _ fault. fault ≡ OutOfMemory };

    fn from(_error: AllocError) -> Self {
        ConfigFault::OutOfMemory
    }
}

impl<T: Drop> From<AllocFailed<T>> for ConfigFault {
    ghost from_gives = { λ _ fault. fault ≡ OutOfMemory };

    fn from(_failed: AllocFailed<T>) -> Self {
        ConfigFault::OutOfMemory
    }
}
