ghost use Rattle.std.specs.Prelude.{◌≡◌, ◌||◌, ◌++◌, option_map, bytes_eq, string_bytes};
ghost use Rattle.std.specs.List.{list_any, list_all};
ghost use Rattle.std.specs.BTreeMap.{keys};
ghost use Rattle.toml.specs.Data.{get_member};
ghost use Rattle.toml.specs.View.{view, table_view};
ghost use Rattle.sim_config.specs.Values.{at_key, broken, has_only, texts, known_at, key_of};

use crate::fault::{ConfigFault, ConfigRule, Key, TableNo};
use crate::keys::NumberKey;
use crate::values::{file_in, name_in, name_of, number_in, some_number_in, word_in};
use crate::word::Word;
use sim_base::{Body, Name};
use std::alloc::Global;
use toml::{Table, Value};

/// A table of the document, and which it is.
#[derive(Clone, Copy)]
pub(crate) struct Section<'a> {
    pub place: TableNo,
    pub table: &'a Table,
}

fn key_of(word: &str) -> Option<Key>
    ensures { result ≡ key_of word.now }
{
    match name_of(word) {
        Some(name) => Some(Key(name)),
        None => None,
    }
}

fn is_word(key: &str, words: &[&str]) -> bool
    ensures { result ≡ list_any (λ w. bytes_eq key.now w.now) words.now }
{
    words.iter().any(|word| key == *word)
}

fn is_one_of(key: &str, words: &[&str], own: &[&str]) -> bool
    ensures { result ≡ (list_any (λ w. bytes_eq key.now w.now) words.now || list_any (λ w. bytes_eq key.now w.now) own.now) }
{
    is_word(key, words) || is_word(key, own)
}

fn are_words(table: &Table, words: &[&str], own: &[&str]) -> bool
    ensures { result ≡ list_all (λ k. list_any (λ w. bytes_eq (string_bytes k) w.now) words.now
        || list_any (λ w. bytes_eq (string_bytes k) w.now) own.now) (keys table.now) }
{
    table.keys().all(|key| is_one_of(key.as_str(), words, own))
}

/// Whether each key of the table is one of these words or of its own.
fn has_only(table: &Table, words: &[&str], own: &[&str]) -> bool
    ensures { result ≡ has_only (texts words.now ++ texts own.now) (table_view table.now) }
{
    are_words(table, words, own)
}

impl<'a> Section<'a> {
    ghost use Rattle.std.specs.Prelude.{◌<◌, length, IfOk, IfSome, IsUtf8};
    ghost use Rattle.sim_config.specs.Keys.{IsAllowed, number_row};
    ghost use Rattle.sim_config.specs.Values.{number_at, optional_number_at, name_at, choice_at, choice_or, file_at, Gives};

    pub(crate) fn fault(&self, rule: ConfigRule, word: &str) -> ConfigFault
        ensures { result ≡ broken rule self.now.place word.now }
    {
        ConfigFault::Broken {
            rule,
            table: self.place,
            key: key_of(word),
        }
    }

    pub(crate) fn value(&self, word: &str) -> Option<&'a Value>
        ensures { option_map (λ v. view v.now) result ≡ get_member word.now (table_view self.now.table.now) }
    {
        self.table.get(word)
    }

    /// Refuses a key that is neither one of these words nor of its own.
    pub(crate) fn known(&self, words: &[&str], own: &[&str]) -> Result<(), ConfigFault>
        ensures { result ≡ known_at self.now.place (texts words.now ++ texts own.now) (table_view self.now.table.now) }
    {
        if has_only(self.table, words, own) {
            Ok(())
        } else {
            Err(ConfigFault::Broken {
                rule: ConfigRule::UnknownKey,
                table: self.place,
                key: None,
            })
        }
    }

    /// What a key has, or the rule that is broken there.
    pub(crate) fn at_key<T>(
        &self,
        word: &str,
        read: Result<T, ConfigRule>,
    ) -> Result<T, ConfigFault>
        ensures { result ≡ at_key self.now.place word.now read }
    {
        match read {
            Ok(value) => Ok(value),
            Err(rule) => Err(self.fault(rule, word)),
        }
    }

    pub(crate) fn number(&self, key: &NumberKey) -> Result<u64, ConfigFault>
        requires { IfSome key.now.default (IsAllowed key.now.allowed) }

        ensures value { result ≡ number_at self.now.place (number_row key.now) (table_view self.now.table.now) }
        ensures allowed { IfOk result (IsAllowed key.now.allowed) }
    {
        let read = match self.value(key.word()) {
            Some(value) => number_in(value, &key.allowed),
            None => key.default.ok_or(ConfigRule::Missing),
        };
        self.at_key(key.word(), read)
    }

    /// A number, or None where the key is left out.
    pub(crate) fn optional_number(&self, key: &NumberKey) -> Result<Option<u64>, ConfigFault>
        ensures value { result ≡ optional_number_at self.now.place (number_row key.now) (table_view self.now.table.now) }
        ensures allowed { IfOk result (λ number. IfSome number (IsAllowed key.now.allowed)) }
    {
        let read = match self.value(key.word()) {
            Some(value) => some_number_in(value, &key.allowed),
            None => Ok(None),
        };
        self.at_key(key.word(), read)
    }

    pub(crate) fn name(&self, word: &str) -> Result<Name, ConfigFault>
        ensures { result ≡ name_at self.now.place word.now (table_view self.now.table.now) }
    {
        let read = match self.value(word) {
            Some(value) => name_in(value),
            None => Err(ConfigRule::Missing),
        };
        self.at_key(word, read)
    }
    /// One of some words, at a key that must be there.
    pub(crate) fn choice<W: Word>(&self, word: &str) -> Result<W, ConfigFault>
        ensures { result ≡ choice_at self.now.place word.now W.meaning (table_view self.now.table.now) }
    {
        let read = match self.value(word) {
            Some(value) => word_in::<W>(value),
            None => Err(ConfigRule::Missing),
        };
        self.at_key(word, read)
    }

    /// One of some words, and a default where the key is left out.
    pub(crate) fn choice_or<W: Word>(&self, default: W, word: &str) -> Result<W, ConfigFault>
        ensures { result ≡ choice_or default self.now.place word.now W.meaning (table_view self.now.table.now) }
    {
        let read = match self.value(word) {
            Some(value) => word_in::<W>(value),
            None => Ok(default),
        };
        self.at_key(word, read)
    }

    /// A text that is not empty.
    pub(crate) fn file(&self, alloc: Global, word: &str) -> Result<Body, ConfigFault>
        ensures meaning { Gives result (file_at self.now.place word.now (table_view self.now.table.now)) }
        ensures some { IfOk result (λ file. 0 < length file) }
        ensures text { IfOk result (λ file. IsUtf8 file) }
    {
        let text = match self.value(word) {
            Some(value) => self.at_key(word, file_in(value))?,
            None => return Err(self.fault(ConfigRule::Missing, word)),
        };
        Ok(Body::of(Vec::from_slice(alloc, text.as_bytes())?))
    }
}
