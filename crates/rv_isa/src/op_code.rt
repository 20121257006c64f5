ghost use Rattle.std.specs.Prelude.{◌≡◌, ◌≢◌, IfSome, IfNone};
ghost use Rattle.rv_isa.specs.Bits.{field};
ghost use Rattle.rv_isa.specs.Table.{row, row_of, IsOfRow};
ghost use Rattle.rv_isa.specs.declared.op.Op.{Op};

use crate::bits::field;
use crate::format::Format;
use crate::op::Op;

pub const LUI: u32 = 0b0110111;

pub const AUIPC: u32 = 0b0010111;

pub const JAL: u32 = 0b1101111;

pub const JALR: u32 = 0b1100111;

pub const BRANCH: u32 = 0b1100011;

pub const LOAD: u32 = 0b0000011;

pub const STORE: u32 = 0b0100011;

pub const OP_IMM: u32 = 0b0010011;

pub const OP: u32 = 0b0110011;

pub const MISC_MEM: u32 = 0b0001111;

pub const SYSTEM: u32 = 0b1110011;

/// The instruction whose row the word is of, if there is one.
pub fn op_of(word: u32) -> Option<Op>
    ensures some { IfSome result (λ op. IsOfRow word (row_of op)) }
    ensures none { IfNone result ((op : Op) → ¬ IsOfRow word (row_of op)) }
{
    let funct3 = field(word, 12, 3);
    let funct7 = field(word, 25, 7);
    match field(word, 0, 7) {
        LUI => Some(Op::Lui),
        AUIPC => Some(Op::Auipc),
        JAL => Some(Op::Jal),
        JALR if funct3 == 0 => Some(Op::Jalr),
        BRANCH => branch_op(funct3),
        LOAD => load_op(funct3),
        STORE => store_op(funct3),
        OP_IMM if funct3 == 0b001 || funct3 == 0b101 => shift_op(funct3, funct7),
        OP_IMM => immediate_op(funct3),
        OP => register_op(funct3, funct7),
        MISC_MEM if funct3 == 0 => Some(Op::Fence),
        SYSTEM => system_op(word),
        _ => None,
    }
}

/// The branch with this `funct3`.
#[tactic(auto, unfolding(crate::specs::Table::row_of))]
fn branch_op(funct3: u32) -> Option<Op>
    ensures some { IfSome result (λ op. row_of op ≡ row Format.B BRANCH funct3 0 0) }
    ensures none { IfNone result ((op : Op) → row_of op ≢ row Format.B BRANCH funct3 0 0) }
{
    match funct3 {
        0b000 => Some(Op::Beq),
        0b001 => Some(Op::Bne),
        0b100 => Some(Op::Blt),
        0b101 => Some(Op::Bge),
        0b110 => Some(Op::Bltu),
        0b111 => Some(Op::Bgeu),
        _ => None,
    }
}

/// The load with this `funct3`.
#[tactic(auto, unfolding(crate::specs::Table::row_of))]
fn load_op(funct3: u32) -> Option<Op>
    ensures some { IfSome result (λ op. row_of op ≡ row Format.I LOAD funct3 0 0) }
    ensures none { IfNone result ((op : Op) → row_of op ≢ row Format.I LOAD funct3 0 0) }
{
    match funct3 {
        0b000 => Some(Op::Lb),
        0b001 => Some(Op::Lh),
        0b010 => Some(Op::Lw),
        0b100 => Some(Op::Lbu),
        0b101 => Some(Op::Lhu),
        _ => None,
    }
}

/// The store with this `funct3`.
#[tactic(auto, unfolding(crate::specs::Table::row_of))]
fn store_op(funct3: u32) -> Option<Op>
    ensures some { IfSome result (λ op. row_of op ≡ row Format.S STORE funct3 0 0) }
    ensures none { IfNone result ((op : Op) → row_of op ≢ row Format.S STORE funct3 0 0) }
{
    match funct3 {
        0b000 => Some(Op::Sb),
        0b001 => Some(Op::Sh),
        0b010 => Some(Op::Sw),
        _ => None,
    }
}

/// The instruction of a register and an immediate of 12 bits with this `funct3`.
#[tactic(auto, unfolding(crate::specs::Table::row_of))]
fn immediate_op(funct3: u32) -> Option<Op>
    ensures some { IfSome result (λ op. row_of op ≡ row Format.I OP_IMM funct3 0 0) }
    ensures none { IfNone result ((op : Op) → row_of op ≢ row Format.I OP_IMM funct3 0 0) }
{
    match funct3 {
        0b000 => Some(Op::Addi),
        0b010 => Some(Op::Slti),
        0b011 => Some(Op::Sltiu),
        0b100 => Some(Op::Xori),
        0b110 => Some(Op::Ori),
        0b111 => Some(Op::Andi),
        _ => None,
    }
}

/// The shift by an amount with this `funct3` and this `funct7`.
#[tactic(auto, unfolding(crate::specs::Table::row_of))]
fn shift_op(funct3: u32, funct7: u32) -> Option<Op>
    ensures some { IfSome result (λ op. row_of op ≡ row Format.Shift OP_IMM funct3 funct7 0) }
    ensures none { IfNone result ((op : Op) → row_of op ≢ row Format.Shift OP_IMM funct3 funct7 0) }
{
    match (funct3, funct7) {
        (0b001, 0b0000000) => Some(Op::Slli),
        (0b101, 0b0000000) => Some(Op::Srli),
        (0b101, 0b0100000) => Some(Op::Srai),
        _ => None,
    }
}

/// The instruction of two registers with this `funct3` and this `funct7`.
#[tactic(auto, unfolding(crate::specs::Table::row_of))]
fn register_op(funct3: u32, funct7: u32) -> Option<Op>
    ensures some { IfSome result (λ op. row_of op ≡ row Format.R OP funct3 funct7 0) }
    ensures none { IfNone result ((op : Op) → row_of op ≢ row Format.R OP funct3 funct7 0) }
{
    match (funct3, funct7) {
        (0b000, 0b0000000) => Some(Op::Add),
        (0b000, 0b0100000) => Some(Op::Sub),
        (0b001, 0b0000000) => Some(Op::Sll),
        (0b010, 0b0000000) => Some(Op::Slt),
        (0b011, 0b0000000) => Some(Op::Sltu),
        (0b100, 0b0000000) => Some(Op::Xor),
        (0b101, 0b0000000) => Some(Op::Srl),
        (0b101, 0b0100000) => Some(Op::Sra),
        (0b110, 0b0000000) => Some(Op::Or),
        (0b111, 0b0000000) => Some(Op::And),
        _ => None,
    }
}

/// ECALL or EBREAK, where the word is that one.
#[tactic(auto, unfolding(crate::specs::Table::row_of))]
fn system_op(word: u32) -> Option<Op>
    requires { field 0 7 word ≡ SYSTEM }
    ensures some { IfSome result (λ op. IsOfRow word (row_of op)) }
    ensures none { IfNone result ((op : Op) → ¬ IsOfRow word (row_of op)) }
{
    match word {
        0x0000_0073 => Some(Op::Ecall),
        0x0010_0073 => Some(Op::Ebreak),
        _ => None,
    }
}
