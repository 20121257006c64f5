ghost use Rattle.std.specs.Prelude.{◌≡◌, ◌<◌, ◌^◌};
ghost use Rattle.rv_isa.specs.Table.{row, row_of};

use crate::format::Format;
use crate::op::Op;
use crate::op_code::{AUIPC, BRANCH, JAL, JALR, LOAD, LUI, MISC_MEM, OP, OP_IMM, STORE, SYSTEM};

/// The bits that the words of an instruction share. A field that the format does not fix is 0.
#[derive(Clone, Copy, Debug, PartialEq, Eq)]
pub struct Row {
    pub format: Format,
    pub opcode: u32,
    pub funct3: u32,
    pub funct7: u32,
    pub funct12: u32,
}

impl Row {
    const fn of(format: Format, opcode: u32) -> Self
        ensures { result ≡ row format opcode 0 0 0 }
    {
        Row::with_funct3(format, opcode, 0)
    }

    const fn with_funct3(format: Format, opcode: u32, funct3: u32) -> Self
        ensures { result ≡ row format opcode funct3 0 0 }
    {
        Row {
            format,
            opcode,
            funct3,
            funct7: 0,
            funct12: 0,
        }
    }

    const fn with_funct7(format: Format, opcode: u32, funct3: u32, funct7: u32) -> Self
        ensures { result ≡ row format opcode funct3 funct7 0 }
    {
        Row {
            format,
            opcode,
            funct3,
            funct7,
            funct12: 0,
        }
    }

    const fn system(funct12: u32) -> Self
        ensures { result ≡ row Format.System SYSTEM 0 0 funct12 }
    {
        Row {
            format: Format::System,
            opcode: SYSTEM,
            funct3: 0,
            funct7: 0,
            funct12,
        }
    }
}

impl Op {
    /// The row of this instruction in the table of RV32I.
    #[tactic(auto, unfolding(crate::specs::Table::row_of))]
    pub(crate) fn row(self) -> Row
        ensures { result ≡ row_of self }
    {
        match self {
            Op::Lui => Row::of(Format::U, LUI),
            Op::Auipc => Row::of(Format::U, AUIPC),
            Op::Jal => Row::of(Format::J, JAL),
            Op::Jalr => Row::with_funct3(Format::I, JALR, 0b000),
            Op::Beq => Row::with_funct3(Format::B, BRANCH, 0b000),
            Op::Bne => Row::with_funct3(Format::B, BRANCH, 0b001),
            Op::Blt => Row::with_funct3(Format::B, BRANCH, 0b100),
            Op::Bge => Row::with_funct3(Format::B, BRANCH, 0b101),
            Op::Bltu => Row::with_funct3(Format::B, BRANCH, 0b110),
            Op::Bgeu => Row::with_funct3(Format::B, BRANCH, 0b111),
            Op::Lb => Row::with_funct3(Format::I, LOAD, 0b000),
            Op::Lh => Row::with_funct3(Format::I, LOAD, 0b001),
            Op::Lw => Row::with_funct3(Format::I, LOAD, 0b010),
            Op::Lbu => Row::with_funct3(Format::I, LOAD, 0b100),
            Op::Lhu => Row::with_funct3(Format::I, LOAD, 0b101),
            Op::Sb => Row::with_funct3(Format::S, STORE, 0b000),
            Op::Sh => Row::with_funct3(Format::S, STORE, 0b001),
            Op::Sw => Row::with_funct3(Format::S, STORE, 0b010),
            Op::Addi => Row::with_funct3(Format::I, OP_IMM, 0b000),
            Op::Slti => Row::with_funct3(Format::I, OP_IMM, 0b010),
            Op::Sltiu => Row::with_funct3(Format::I, OP_IMM, 0b011),
            Op::Xori => Row::with_funct3(Format::I, OP_IMM, 0b100),
            Op::Ori => Row::with_funct3(Format::I, OP_IMM, 0b110),
            Op::Andi => Row::with_funct3(Format::I, OP_IMM, 0b111),
            Op::Slli => Row::with_funct7(Format::Shift, OP_IMM, 0b001, 0b0000000),
            Op::Srli => Row::with_funct7(Format::Shift, OP_IMM, 0b101, 0b0000000),
            Op::Srai => Row::with_funct7(Format::Shift, OP_IMM, 0b101, 0b0100000),
            Op::Add => Row::with_funct7(Format::R, OP, 0b000, 0b0000000),
            Op::Sub => Row::with_funct7(Format::R, OP, 0b000, 0b0100000),
            Op::Sll => Row::with_funct7(Format::R, OP, 0b001, 0b0000000),
            Op::Slt => Row::with_funct7(Format::R, OP, 0b010, 0b0000000),
            Op::Sltu => Row::with_funct7(Format::R, OP, 0b011, 0b0000000),
            Op::Xor => Row::with_funct7(Format::R, OP, 0b100, 0b0000000),
            Op::Srl => Row::with_funct7(Format::R, OP, 0b101, 0b0000000),
            Op::Sra => Row::with_funct7(Format::R, OP, 0b101, 0b0100000),
            Op::Or => Row::with_funct7(Format::R, OP, 0b110, 0b0000000),
            Op::And => Row::with_funct7(Format::R, OP, 0b111, 0b0000000),
            Op::Fence => Row::with_funct3(Format::Fence, MISC_MEM, 0b000),
            Op::Ecall => Row::system(0),
            Op::Ebreak => Row::system(1),
        }
    }
}
