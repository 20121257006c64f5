ghost use Rattle.std.specs.Prelude.{◌≡◌, IfOk};
ghost use Rattle.rv_isa.specs.declared.op.Op.TheVariants.{Fence};
ghost use Rattle.rv_isa.specs.Table.{row_of, IsOfRow};

use super::*;
use crate::decoding::{Illegal, decode};

/// An instruction that was written is read again: this rests on the contracts alone.
fn read_again(inst: Inst) -> Result<Inst, Illegal>
    ensures { result ≡ Ok inst }
{
    decode(encode(inst))
}

/// A word that was read is written again, if it is no FENCE.
fn written_again(word: u32) -> Result<u32, Illegal>
    ensures { IfOk result (λ again. ¬ IsOfRow word (row_of Fence) → again ≡ word) }
{
    Ok(encode(decode(word)?))
}

#[test]
fn words_and_instructions_go_round(rt: HostRuntime) {
    for word in [0x0062_83b3, 0xfe62_cfe3, 0x0010_0073] {
        assert_eq!(rt; written_again(word), Ok(word));
        let inst = decode(word).expect(&rt, "an instruction");
        assert_eq!(rt; read_again(inst), Ok(inst));
    }
}
