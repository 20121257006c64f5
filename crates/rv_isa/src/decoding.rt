ghost use Rattle.std.specs.Prelude.{◌≡◌, ◌↔◌, IsErr, IfOk, IfErr};
ghost use Rattle.rv_isa.specs.declared.op.Op.{Op};
ghost use Rattle.rv_isa.specs.declared.inst.Inst.{Inst};
ghost use Rattle.rv_isa.specs.Table.{row_of, IsOfRow};
ghost use Rattle.rv_isa.specs.Inst.{Spells};

use crate::inst::Inst;
use crate::op_code::op_of;
use thiserror::Error;

/// A word that is no instruction of RV32I.
#[derive(Clone, Copy, Debug, PartialEq, Eq, Error)]
#[error("{word:#010x} is no instruction of RV32I")]
pub struct Illegal {
    pub word: u32,
}

/// The instruction that a word spells. A word is refused exactly where it is of no row of the table: so are 16-bit
/// words, words of the extensions, and ECALL or EBREAK with any other field set. A FENCE may have any other fields.
pub fn decode(word: u32) -> Result<Inst, Illegal>
    ensures spelled { IfOk result (λ inst. Spells word inst) }
    ensures only { (inst : Inst) → Spells word inst → result ≡ Ok inst }

    ensures illegal { IsErr result ↔ ((op : Op) → ¬ IsOfRow word (row_of op)) }
    ensures word { IfErr result (λ error. error.word ≡ word) }
{
    let Some(op) = op_of(word) else {
        return Err(Illegal { word });
    };
    let format = op.row().format;
    Ok(Inst {
        op,
        rd: format.rd(word),
        rs1: format.rs1(word),
        rs2: format.rs2(word),
        imm: format.immediate(word),
    })
}
