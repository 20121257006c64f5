ghost use Rattle.std.specs.Prelude.{◌≡◌, Result};
ghost use Rattle.toml.specs.Data.{Data};
ghost use Rattle.toml.specs.View.{view};
ghost use Rattle.sim_config.specs.declared.fault.ConfigRule.{ConfigRule};
ghost use Rattle.sim_config.specs.Keys as keys;
ghost use Rattle.sim_config.specs.Values as spec;

use crate::fault::ConfigRule;
use crate::keys::WORD_VALUES;
use crate::link_text::PortRef;
use crate::values::{name_in, number_in, port_in};
use sim_base::Name;
use toml::Value;

/// What the elements of a list are.
pub(crate) trait Element {
    type Read: Drop;

    /// An element, or the rule that it breaks.
    ghost value_in: { Data → Result Self.Read ConfigRule };

    fn read(value: &Value) -> Result<Self::Read, ConfigRule>
        ensures { result ≡ value_in (view value.now) };
}

pub(crate) struct Names;

impl Element for Names {
    type Read = Name;

    ghost value_in = { spec.name_in };

    fn read(value: &Value) -> Result<Name, ConfigRule> {
        name_in(value)
    }
}

pub(crate) struct Ports;

impl Element for Ports {
    type Read = PortRef;

    ghost value_in = { spec.port_in };

    fn read(value: &Value) -> Result<PortRef, ConfigRule> {
        port_in(value)
    }
}

/// Words of a memory.
pub(crate) struct Words;

impl Element for Words {
    type Read = u32;

    ghost value_in = { spec.number_in keys.word_values };

    fn read(value: &Value) -> Result<u32, ConfigRule> {
        match number_in(value, &WORD_VALUES) {
            Ok(number) => Ok(number as u32),
            Err(rule) => Err(rule),
        }
    }
}
