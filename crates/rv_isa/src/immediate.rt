ghost use Rattle.std.specs.Prelude.{◌≡◌};
ghost use Rattle.rv_isa.specs.Format.{immediate_of};

use crate::bits::{field, joined, sign_extended};
use crate::format::Format;

/// The immediate of a word of format I.
pub fn immediate_i(word: u32) -> u32
    ensures { result ≡ immediate_of Format.I word }
{
    sign_extended(field(word, 20, 12), 11)
}

/// The immediate of a word of format S.
pub fn immediate_s(word: u32) -> u32
    ensures { result ≡ immediate_of Format.S word }
{
    sign_extended(joined(field(word, 25, 7), field(word, 7, 5), 5), 11)
}

/// The immediate of a word of format B.
pub fn immediate_b(word: u32) -> u32
    ensures { result ≡ immediate_of Format.B word }
{
    let high = joined(field(word, 31, 1), field(word, 7, 1), 1);
    let low = joined(field(word, 25, 6), field(word, 8, 4), 4);
    sign_extended(joined(high, low, 10) << 1, 12)
}

/// The immediate of a word of format U.
pub fn immediate_u(word: u32) -> u32
    ensures { result ≡ immediate_of Format.U word }
{
    field(word, 12, 20) << 12
}

/// The immediate of a word of format J.
pub fn immediate_j(word: u32) -> u32
    ensures { result ≡ immediate_of Format.J word }
{
    let high = joined(field(word, 31, 1), field(word, 12, 8), 8);
    let low = joined(field(word, 20, 1), field(word, 21, 10), 10);
    sign_extended(joined(high, low, 11) << 1, 20)
}
