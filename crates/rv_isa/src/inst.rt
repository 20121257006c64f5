ghost use Rattle.std.specs.Prelude.{◌≡◌, ◌<◌, ◌↔◌, false, IsTrue, IsSome, IfSome};
ghost use Rattle.rv_isa.specs.Format.{has_rd, has_rs1, has_rs2, is_immediate};
ghost use Rattle.rv_isa.specs.Table.{format_of, IsInst};

use crate::op::Op;

/// An instruction. A register or an immediate that it does not have is 0.
#[derive(Clone, Copy, Debug, PartialEq, Eq)]
pub struct Inst {
    pub op: Op,
    /// The register that is written, below 32.
    pub rd: u8,
    /// The first register that is read, below 32.
    pub rs1: u8,
    /// The second register that is read, below 32.
    pub rs2: u8,
    /// The immediate after sign extension, or the shift amount of SLLI, SRLI and SRAI.
    pub imm: u32,

    pub ghost small_rd: { rd < 32 },
    pub ghost small_rs1: { rs1 < 32 },
    pub ghost small_rs2: { rs2 < 32 },
    pub ghost without_rd: { has_rd (format_of op) ≡ false → rd ≡ 0 },
    pub ghost without_rs1: { has_rs1 (format_of op) ≡ false → rs1 ≡ 0 },
    pub ghost without_rs2: { has_rs2 (format_of op) ≡ false → rs2 ≡ 0 },
    pub ghost spelled: { IsTrue (is_immediate (format_of op) imm) },
}

impl Inst {
    /// The instruction with these registers and this immediate, as they are known when the program runs; None where a
    /// register is not below 32, where one that the instruction does not have is not 0, or where no word of it has
    /// the immediate.
    pub fn of(op: Op, rd: u8, rs1: u8, rs2: u8, imm: u32) -> Option<Inst>
        ensures some { IsSome result ↔ IsInst op rd rs1 rs2 imm }
        ensures op { IfSome result (λ inst. inst.op ≡ op) }
        ensures rd { IfSome result (λ inst. inst.rd ≡ rd) }
        ensures rs1 { IfSome result (λ inst. inst.rs1 ≡ rs1) }
        ensures rs2 { IfSome result (λ inst. inst.rs2 ≡ rs2) }
        ensures imm { IfSome result (λ inst. inst.imm ≡ imm) }
    {
        let format = op.row().format;
        if rd >= 32 || rs1 >= 32 || rs2 >= 32 {
            return None;
        }
        if (!format.has_rd() && rd != 0)
            || (!format.has_rs1() && rs1 != 0)
            || (!format.has_rs2() && rs2 != 0)
        {
            return None;
        }
        if !format.has_immediate(imm) {
            return None;
        }
        Some(Inst {
            op,
            rd,
            rs1,
            rs2,
            imm,
        })
    }
}
