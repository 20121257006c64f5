ghost use Rattle.std.specs.Prelude.{◌≡◌, ◌<◌};
ghost use Rattle.rv_isa.specs.Format.{has_rd, has_rs1, has_rs2, is_signed_by, is_immediate, rd_of, rs1_of, rs2_of, immediate_of};

use crate::bits::{field, register};
use crate::immediate::{immediate_b, immediate_i, immediate_j, immediate_s, immediate_u};

/// How the bits of an instruction's words are laid out.
#[derive(Clone, Copy, Debug, PartialEq, Eq)]
pub enum Format {
    /// Three registers.
    R,
    /// Two registers and an immediate of 12 bits.
    I,
    /// Format I with a shift amount of 5 bits, below `funct7`.
    Shift,
    /// Two registers that are read, and an immediate of 12 bits.
    S,
    /// Format S with an even immediate of 13 bits.
    B,
    /// A register that is written, and the high 20 bits of an immediate.
    U,
    /// Format U with an even immediate of 21 bits.
    J,
    /// FENCE: all fields but the opcode and `funct3` are ignored.
    Fence,
    /// ECALL and EBREAK: one word each.
    System,
}

/// Whether a number is one from -2^sign to 2^sign - 1, modulo 2^32.
fn is_signed_by(sign: u32, imm: u32) -> bool
    requires { sign < 31 }
    ensures { result ≡ is_signed_by sign imm }
{
    imm < 1 << sign || imm >= u32::MAX - (1 << sign) + 1
}

impl Format {
    /// The register that a word of this format writes, or 0 where it names none.
    pub fn rd(self, word: u32) -> u8
        ensures { result ≡ rd_of self word }
    {
        match self {
            Format::R | Format::I | Format::Shift | Format::U | Format::J => register(word, 7),
            Format::S | Format::B | Format::Fence | Format::System => 0,
        }
    }

    /// The first register that a word of this format reads, or 0 where it names none.
    pub fn rs1(self, word: u32) -> u8
        ensures { result ≡ rs1_of self word }
    {
        match self {
            Format::R | Format::I | Format::Shift | Format::S | Format::B => register(word, 15),
            Format::U | Format::J | Format::Fence | Format::System => 0,
        }
    }

    /// The second register that a word of this format reads, or 0 where it names none.
    pub fn rs2(self, word: u32) -> u8
        ensures { result ≡ rs2_of self word }
    {
        match self {
            Format::R | Format::S | Format::B => register(word, 20),
            _ => 0,
        }
    }

    /// The immediate of a word of this format after sign extension, its shift amount, or 0 where it has neither.
    pub fn immediate(self, word: u32) -> u32
        ensures { result ≡ immediate_of self word }
    {
        match self {
            Format::I => immediate_i(word),
            Format::Shift => field(word, 20, 5),
            Format::S => immediate_s(word),
            Format::B => immediate_b(word),
            Format::U => immediate_u(word),
            Format::J => immediate_j(word),
            Format::R | Format::Fence | Format::System => 0,
        }
    }

    /// Whether words of this format name a register to write.
    pub fn has_rd(self) -> bool
        ensures { result ≡ has_rd self }
    {
        matches!(
            self,
            Format::R | Format::I | Format::Shift | Format::U | Format::J
        )
    }

    /// Whether they name a first register to read.
    pub fn has_rs1(self) -> bool
        ensures { result ≡ has_rs1 self }
    {
        matches!(
            self,
            Format::R | Format::I | Format::Shift | Format::S | Format::B
        )
    }

    /// Whether they name a second register to read.
    pub fn has_rs2(self) -> bool
        ensures { result ≡ has_rs2 self }
    {
        matches!(self, Format::R | Format::S | Format::B)
    }

    /// Whether a number is an immediate that words of this format can spell.
    pub fn has_immediate(self, imm: u32) -> bool
        ensures { result ≡ is_immediate self imm }
    {
        match self {
            Format::I | Format::S => is_signed_by(11, imm),
            Format::Shift => imm < 32,
            Format::B => imm % 2 == 0 && is_signed_by(12, imm),
            Format::U => imm % 4096 == 0,
            Format::J => imm % 2 == 0 && is_signed_by(20, imm),
            Format::R | Format::Fence | Format::System => imm == 0,
        }
    }
}
