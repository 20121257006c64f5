ghost use Rattle.std.specs.Prelude.{◌≡◌, ◌+◌, ◌-◌, ◌*◌, ◌^◌, ◌<◌, ◌≤◌};
ghost use Rattle.rv_isa.specs.Bits.{field, sign_extended};

/// The bits of a word from place `low` on, `width` of them.
pub fn field(word: u32, low: u32, width: u32) -> u32
    requires inside { low < 32 }
    requires narrow { width < 32 }

    ensures value { result ≡ field low width word }
    ensures fits { result < 2 ^ width }
{
    (word >> low) & ((1 << width) - 1)
}

/// A number of `sign + 1` bits, extended to 32 bits by copies of the bit at `sign`.
pub fn sign_extended(bits: u32, sign: u32) -> u32
    requires inside { sign < 31 }
    requires fits { bits < 2 ^ (sign + 1) }

    ensures { result ≡ sign_extended sign bits }
{
    if bits >> sign == 0 {
        bits
    } else {
        bits | (u32::MAX << (sign + 1))
    }
}

/// The bits of `low`, `width` of them, below the bits of `high`.
pub fn joined(high: u32, low: u32, width: u32) -> u32
    requires inside { width < 32 }
    requires fits_low { low < 2 ^ width }
    requires fits_high { high < 2 ^ (32 - width) }

    ensures { result ≡ high * 2 ^ width + low }
{
    high << width | low
}

/// The number of the register that a word names at the place `low`.
pub fn register(word: u32, low: u32) -> u8
    requires { low < 32 }
    ensures value { result ≡ field low 5 word }
    ensures fits { result < 32 }
{
    field(word, low, 5) as u8
}
