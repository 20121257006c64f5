ghost use Rattle.std.specs.Prelude.{◌≡◌, ◌==◌, ◌<◌, length, position, IfOk, IfErr, IfSome, Ok, Err, IsUtf8};
ghost use Rattle.sim_config.specs.declared.fault.ConfigRule.TheVariants.{OutOfRange};
ghost use Rattle.toml.specs.View.{view};
ghost use Rattle.sim_config.specs.Keys.{IsAllowed};
ghost use Rattle.sim_config.specs.Values as spec;

use crate::fault::ConfigRule;
use crate::keys::Allowed;
use crate::link_text::PortRef;
use crate::word::Word;
use sim_base::Name;
use toml::Value;

fn name_in_bytes(text: &[u8]) -> Option<Name>
    ensures { result ≡ spec.name_of text.now }
{
    Name::read(text)
}

/// The name that a text is.
pub(crate) fn name_of(text: &str) -> Option<Name>
    ensures { result ≡ spec.name_of text.now }
{
    name_in_bytes(text.as_bytes())
}

/// Where the first full stop of a text stands.
fn full_stop_in(text: &[u8]) -> Option<usize>
    ensures place { result ≡ position (λ b. b == 46) text.now }
    ensures bound { IfSome result (λ i. i < length text.now) }
{
    text.iter().position(|b| *b == b'.')
}

fn port_from(part: Option<Name>, word: Option<Name>) -> Option<PortRef>
    ensures { result ≡ spec.port_from part word }
{
    match (part, word) {
        (Some(part), Some(word)) => Some(PortRef { part, word }),
        _ => None,
    }
}

/// The part and the port of a text that is a name, one full stop and a name.
fn port_of(text: &[u8]) -> Option<PortRef>
    ensures { result ≡ spec.port_of text.now }
{
    match full_stop_in(text) {
        Some(dot) => port_from(name_in_bytes(&text[..dot]), name_in_bytes(&text[dot + 1..])),
        None => None,
    }
}

pub(crate) fn number_in(value: &Value, allowed: &Allowed) -> Result<u64, ConfigRule>
    ensures value { result ≡ spec.number_in allowed.now (view value.now) }
    ensures allowed { IfOk result (IsAllowed allowed.now) }
{
    let Value::Integer(integer) = value else {
        return Err(ConfigRule::WrongType);
    };
    match u64::try_from(*integer) {
        Ok(number) if allowed.allows(number) => Ok(number),
        _ => Err(ConfigRule::OutOfRange),
    }
}

pub(crate) fn some_number_in(value: &Value, allowed: &Allowed) -> Result<Option<u64>, ConfigRule>
    ensures value { result ≡ spec.some_number_in allowed.now (view value.now) }
    ensures allowed { IfOk result (λ number. IfSome number (IsAllowed allowed.now)) }
{
    match number_in(value, allowed) {
        Ok(number) => Ok(Some(number)),
        Err(rule) => Err(rule),
    }
}

pub(crate) fn name_in(value: &Value) -> Result<Name, ConfigRule>
    ensures { result ≡ spec.name_in (view value.now) }
{
    let Value::String(text) = value else {
        return Err(ConfigRule::WrongType);
    };
    name_of(text.as_str()).ok_or(ConfigRule::NameShape)
}

pub(crate) fn port_in(value: &Value) -> Result<PortRef, ConfigRule>
    ensures { result ≡ spec.port_in (view value.now) }
{
    let Value::String(text) = value else {
        return Err(ConfigRule::WrongType);
    };
    port_of(text.as_bytes()).ok_or(ConfigRule::NameShape)
}

/// One of some words.
pub(crate) fn word_in<W: Word>(value: &Value) -> Result<W, ConfigRule>
    ensures { result ≡ spec.text_in W.meaning OutOfRange (view value.now) }
{
    let Value::String(text) = value else {
        return Err(ConfigRule::WrongType);
    };
    W::read(text.as_str()).ok_or(ConfigRule::OutOfRange)
}

/// A text that is not empty.
pub(crate) fn file_in(value: &Value) -> Result<&str, ConfigRule>
    ensures ok { IfOk result (λ text. spec.text_in spec.some_text OutOfRange (view value.now) ≡ Ok text.now) }
    ensures err { IfErr result (λ rule. spec.text_in spec.some_text OutOfRange (view value.now) ≡ Err rule) }
    ensures some { IfOk result (λ text. 0 < length text.now) }
    ensures text { IfOk result (λ text. IsUtf8 text.now) }
{
    let Value::String(text) = value else {
        return Err(ConfigRule::WrongType);
    };
    let text = text.as_str();
    if text.is_empty() {
        return Err(ConfigRule::OutOfRange);
    }
    Ok(text)
}
