ghost use Rattle.std.specs.Prelude.{◌≡◌, ◌%◌, IfSome};
ghost use Rattle.rv_isa.specs.Effect.{effect_of, word_effect, jump, branch, write, is_less_signed, shifted_right_signed, NamesRegister, GoesToWord, HasWidth};

use crate::decoding::decode;
use crate::effect::Effect;
use crate::inst::Inst;
use crate::op::Op;
use crate::regs::Regs;

/// What an instruction at the address `pc` does with these registers. It changes none itself.
#[tactic(auto, unfolding(crate::specs::Effect::effect))]
pub fn exec(regs: &Regs, pc: u32, inst: Inst) -> Effect
    ensures effect { result ≡ effect_of regs.now pc inst }
    ensures register { NamesRegister result }
    ensures word { pc % 4 ≡ 0 → GoesToWord result }
    ensures width { HasWidth result }
{
    let Inst { op, rd, imm, .. } = inst;
    let first = regs.get(inst.rs1);
    let second = regs.get(inst.rs2);
    let addr = first.wrapping_add(imm);
    match op {
        Op::Lui => write(pc, rd, imm),
        Op::Auipc => write(pc, rd, pc.wrapping_add(imm)),
        Op::Jal => jump(rd, pc.wrapping_add(4), pc.wrapping_add(imm)),
        Op::Jalr => jump(rd, pc.wrapping_add(4), addr & !1),
        Op::Beq => branch(pc, imm, first == second),
        Op::Bne => branch(pc, imm, first != second),
        Op::Blt => branch(pc, imm, is_less_signed(first, second)),
        Op::Bge => branch(pc, imm, !is_less_signed(first, second)),
        Op::Bltu => branch(pc, imm, first < second),
        Op::Bgeu => branch(pc, imm, first >= second),
        Op::Lb => load(rd, 1, true, addr),
        Op::Lh => load(rd, 2, true, addr),
        Op::Lw => load(rd, 4, false, addr),
        Op::Lbu => load(rd, 1, false, addr),
        Op::Lhu => load(rd, 2, false, addr),
        Op::Sb => store(1, addr, second & 0xff),
        Op::Sh => store(2, addr, second & 0xffff),
        Op::Sw => store(4, addr, second),
        Op::Addi => write(pc, rd, addr),
        Op::Slti => write(pc, rd, u32::from(is_less_signed(first, imm))),
        Op::Sltiu => write(pc, rd, u32::from(first < imm)),
        Op::Xori => write(pc, rd, first ^ imm),
        Op::Ori => write(pc, rd, first | imm),
        Op::Andi => write(pc, rd, first & imm),
        Op::Slli => write(pc, rd, first.wrapping_shl(imm)),
        Op::Srli => write(pc, rd, first.wrapping_shr(imm)),
        Op::Srai => write(pc, rd, shifted_right_signed(first, imm)),
        Op::Add => write(pc, rd, first.wrapping_add(second)),
        Op::Sub => write(pc, rd, first.wrapping_sub(second)),
        Op::Sll => write(pc, rd, first.wrapping_shl(second)),
        Op::Slt => write(pc, rd, u32::from(is_less_signed(first, second))),
        Op::Sltu => write(pc, rd, u32::from(first < second)),
        Op::Xor => write(pc, rd, first ^ second),
        Op::Srl => write(pc, rd, first.wrapping_shr(second)),
        Op::Sra => write(pc, rd, shifted_right_signed(first, second)),
        Op::Or => write(pc, rd, first | second),
        Op::And => write(pc, rd, first & second),
        Op::Fence => Effect::Fence,
        Op::Ecall => Effect::Call,
        Op::Ebreak => Effect::Break,
    }
}

/// What the instruction that a word spells does with these registers, at the address `pc`, or None where it spells none.
pub fn word_effect(regs: &Regs, pc: u32, word: u32) -> Option<Effect>
    ensures effect { result ≡ word_effect regs.now pc word }
    ensures register { IfSome result (λ effect. NamesRegister effect) }
    ensures word { pc % 4 ≡ 0 → IfSome result (λ effect. GoesToWord effect) }
    ensures width { IfSome result (λ effect. HasWidth effect) }
{
    match decode(word) {
        Ok(inst) => Some(exec(regs, pc, inst)),
        Err(_) => None,
    }
}

/// Writes a register, and goes on to the next word.
fn write(pc: u32, rd: u8, value: u32) -> Effect
    ensures { result ≡ write pc rd value }
{
    Effect::Go {
        rd,
        value,
        next: pc.wrapping_add(4),
    }
}

/// Writes a register, and goes to an address if that is a multiple of 4.
fn jump(rd: u8, value: u32, target: u32) -> Effect
    ensures { result ≡ jump rd value target }
{
    if target % 4 == 0 {
        Effect::Go {
            rd,
            value,
            next: target,
        }
    } else {
        Effect::BadTarget
    }
}

/// Writes nothing, and jumps if the branch is taken.
fn branch(pc: u32, imm: u32, taken: bool) -> Effect
    ensures { result ≡ branch pc imm taken }
{
    if taken {
        jump(0, 0, pc.wrapping_add(imm))
    } else {
        write(pc, 0, 0)
    }
}

/// Reads `bytes` bytes into a register.
fn load(rd: u8, bytes: u8, signed: bool, addr: u32) -> Effect
    ensures { result ≡ Effect.Load rd bytes signed addr }
{
    Effect::Load {
        rd,
        bytes,
        signed,
        addr,
    }
}

/// Writes the low bytes of a register.
fn store(bytes: u8, addr: u32, value: u32) -> Effect
    ensures { result ≡ Effect.Store bytes addr value }
{
    Effect::Store { bytes, addr, value }
}

/// Whether a number is below another, as two's complement numbers.
fn is_less_signed(a: u32, b: u32) -> bool
    ensures { result ≡ is_less_signed a b }
{
    a.cast_signed() < b.cast_signed()
}

/// A number without its low bits, as many as the low five bits of `n` say, and with copies of its sign above.
fn shifted_right_signed(a: u32, n: u32) -> u32
    ensures { result ≡ shifted_right_signed a n }
{
    (a.cast_signed() >> (n % 32)).cast_unsigned()
}
