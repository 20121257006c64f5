//! What a fault prints.
ghost use Rattle.std.specs.Prelude.{◌≡◌, Some};
ghost use Rattle.sim_config.specs.Words as words;

use crate::fault::{ConfigFault, ConfigRule, Key, TableNo};
use std::fmt;

impl ConfigRule {
    /// The word that a line about a configuration begins with.
    pub fn as_str(self) -> &'static str
        ensures { result.now ≡ words.rule_words self }
    {
        match self {
            ConfigRule::TooLong => "too-long",
            ConfigRule::NotToml => "not-toml",
            ConfigRule::UnknownKey => "unknown-key",
            ConfigRule::Missing => "missing",
            ConfigRule::WrongType => "wrong-type",
            ConfigRule::OutOfRange => "out-of-range",
            ConfigRule::NameShape => "name-shape",
        }
    }
}

impl fmt::Display for ConfigRule {
    ghost output = { λ rule. Some (words.rule_words rule) };

    fn fmt<W: fmt::Write>(&self, f: &mut fmt::Formatter<W>) -> fmt::Result {
        f.write_str(self.as_str())
    }
}

impl fmt::Display for TableNo {
    ghost output = { λ table. Some (words.table_words table) };

    fn fmt<W: fmt::Write>(&self, f: &mut fmt::Formatter<W>) -> fmt::Result {
        match *self {
            TableNo::Top => f.write_str("top"),
            TableNo::Map(map) => write!(f, "map {map}"),
            TableNo::Range(map, range) => write!(f, "range {map} {range}"),
            TableNo::Part(part) => write!(f, "part {part}"),
            TableNo::Link(link) => write!(f, "link {link}"),
            TableNo::Program(program) => write!(f, "program {program}"),
        }
    }
}

impl Key {
    /// The word of the key.
    pub fn as_str(&self) -> &str
        ensures { result.now ≡ self.now.0 }
    {
        match std::str::from_utf8(self.0.text()) {
            Ok(text) => text,
            Err(_) => unreachable!(),
        }
    }
}

impl fmt::Display for Key {
    ghost output = { λ key. Some key.0 };

    fn fmt<W: fmt::Write>(&self, f: &mut fmt::Formatter<W>) -> fmt::Result {
        f.write_str(self.as_str())
    }
}

impl fmt::Debug for Key {
    fn fmt<W: fmt::Write>(&self, f: &mut fmt::Formatter<W>) -> fmt::Result {
        f.write_str(self.as_str())
    }
}

/// The words of a fault after `akita: config: `.
impl fmt::Display for ConfigFault {
    ghost output = { λ fault. Some (words.fault_words fault) };

    fn fmt<W: fmt::Write>(&self, f: &mut fmt::Formatter<W>) -> fmt::Result {
        match self {
            ConfigFault::Broken {
                rule,
                table,
                key: Some(key),
            } => write!(f, "{rule} {table} {key}"),
            ConfigFault::Broken {
                rule,
                table,
                key: None,
            } => write!(f, "{rule} {table}"),
            ConfigFault::OutOfMemory => f.write_str("no memory"),
        }
    }
}

impl std::error::Error for ConfigFault {}
