ghost use Rattle.std.specs.Prelude.{◌≡◌};
ghost use Rattle.rv_isa.specs.Effect.{IsWidth, loaded};

use crate::bits::sign_extended;

/// What a load of 1, 2 or 4 bytes writes: the low bytes of `word`, which is read at the address with its lowest byte
/// first, with copies of their sign above them where `signed` is set, else with zeros.
pub fn loaded(bytes: u8, signed: bool, word: u32) -> u32
    requires { IsWidth bytes }
    ensures { result ≡ loaded bytes signed word }
{
    match (bytes, signed) {
        (1, true) => sign_extended(word % 256, 7),
        (1, false) => word % 256,
        (2, true) => sign_extended(word % 65536, 15),
        (2, false) => word % 65536,
        _ => word,
    }
}
