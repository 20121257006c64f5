ghost use Rattle.std.specs.Prelude.{◌≡◌, ◌≢◌, ℕ, ◌^◌, ◌<◌};
ghost use Rattle.rv_isa.specs.Inst.{Spells};

use crate::fields::Fields;
use crate::format::Format;
use crate::inst::Inst;
use crate::op::Op;

/// The word that spells an instruction: `decode` reads it back as this instruction. The word of an instruction that was
/// decoded is the word that it was decoded from, but for FENCE, whose many words are all written as 0x0000000F.
#[tactic(auto, using(crate::proofs::TableLemmas::row_bounds, crate::proofs::TableLemmas::fence_row))]
pub fn encode(inst: Inst) -> u32
    ensures spelled { Spells result inst }
    // No other word spells it, but for the many words of FENCE.
    ensures only { (word : ℕ) → word < 2 ^ 32 → inst.op ≢ Op.Fence → Spells word inst → result ≡ word }
    ensures fence { inst.op ≡ Op.Fence → result ≡ 0x0000_000F }
{
    let row = inst.op.row();
    let imm = inst.imm;
    let fields = Fields {
        opcode: row.opcode,
        rd: u32::from(inst.rd),
        funct3: row.funct3,
        rs1: u32::from(inst.rs1),
        rs2: u32::from(inst.rs2),
        funct7: row.funct7,
    };
    match row.format {
        Format::R | Format::Fence => fields.word(),
        Format::I => fields.with_i(imm).word(),
        Format::Shift => Fields { rs2: imm, ..fields }.word(),
        Format::S => fields.with_s(imm).word(),
        Format::B => fields.with_b(imm).word(),
        Format::U => fields.with_u(imm).word(),
        Format::J => fields.with_j(imm).word(),
        Format::System => Fields {
            rs2: row.funct12,
            ..fields
        }
        .word(),
    }
}

#[cfg(test)]
mod tests;
