ghost use Rattle.std.specs.Prelude.{◌≡◌, ◌≤◌, ◌↔◌, IsTrue, IsSome, IfSome, length, All};
ghost use Rattle.sim_base.specs.Name.{IsName, is_name_byte, padded};

use std::fmt;
use std::marker::Model;

/// The most bytes of a name.
pub const LONGEST_NAME: usize = 32;

/// A name: 1 to 32 bytes, each of `a` to `z`, `0` to `9` or `_`.
#[derive(Clone, Copy, PartialEq, Eq)]
pub struct Name {
    bytes: [u8; LONGEST_NAME],
    len: u8,
}

impl Model for Name {
    ghost use Rattle.std.specs.Prelude.{◌≡◌, ℕ, List, take, length};
    ghost use Rattle.sim_base.specs.Name.{IsName, padded};

    ghost Value = { List ℕ };

    ghost view = { λ n. take n.len n.bytes };

    ghost invariant = { λ n. IsName (take n.len n.bytes) × (n.bytes ≡ padded (take n.len n.bytes)) × (n.len ≡ length (take n.len n.bytes)) };

    ghost inverse = { λ text. record { bytes = padded text; len = length text } };

    ghost inverse_ok = { λ a h. Prim.rw (← h.1, ← h.2) };
}

/// Whether a name may have this byte.
fn is_name_byte(byte: u8) -> bool
    ensures { IsTrue result ↔ IsTrue (is_name_byte byte) }
{
    matches!(byte, b'a'..=b'z' | b'0'..=b'9' | b'_')
}

fn has_name_bytes(text: &[u8]) -> bool
    ensures { IsTrue result ↔ All (λ b. IsTrue (is_name_byte b)) text.now }
{
    text.iter().all(|b| is_name_byte(*b))
}

/// The text with zeros behind it.
fn padded(text: &[u8]) -> [u8; LONGEST_NAME]
    requires { length text.now ≤ LONGEST_NAME }
    ensures { result ≡ padded text.now }
{
    let mut bytes = [0; LONGEST_NAME];
    bytes[..text.len()].copy_from_slice(text);
    bytes
}

impl Name {
    #[tactic(auto, using(crate::proofs::NameLemmas::take_padded))]
    /// The name that this text is, or None where it is none.
    pub fn read(text: &[u8]) -> Option<Name>
        ensures shape { IsSome result ↔ IsName text.now }
        ensures text { IfSome result (λ name. name ≡ text.now) }
    {
        if text.is_empty() || text.len() > LONGEST_NAME || !has_name_bytes(text) {
            return None;
        }
        Some(Name {
            bytes: padded(text),
            len: text.len() as u8,
        })
    }

    pub fn text(&self) -> &[u8]
        ensures value { result.now ≡ self.now }
        ensures shape { IsName result.now }
    {
        &self.bytes[..self.len as usize]
    }
}

/// Prints the name as it stands.
impl fmt::Debug for Name {
    fn fmt<W: fmt::Write>(&self, f: &mut fmt::Formatter<W>) -> fmt::Result {
        for byte in self.text().iter() {
            f.write_char(char::from(*byte))?;
        }
        Ok(())
    }
}
