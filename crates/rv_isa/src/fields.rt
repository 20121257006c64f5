ghost use Rattle.std.specs.Prelude.{◌≡◌, ◌+◌, ◌*◌, ◌^◌, ◌<◌};
ghost use Rattle.rv_isa.specs.Bits.{field};

use crate::bits::{field, joined};

/// The six fields of format R. The other formats lay their immediates over some of them.
#[derive(Clone, Copy, Debug, PartialEq, Eq)]
pub struct Fields {
    pub opcode: u32,
    pub rd: u32,
    pub funct3: u32,
    pub rs1: u32,
    pub rs2: u32,
    pub funct7: u32,
}

impl Fields {
    /// The word with these fields.
    pub fn word(self) -> u32
        requires opcode { self.opcode < 2 ^ 7 }
        requires rd { self.rd < 2 ^ 5 }
        requires funct3 { self.funct3 < 2 ^ 3 }
        requires rs1 { self.rs1 < 2 ^ 5 }
        requires rs2 { self.rs2 < 2 ^ 5 }
        requires funct7 { self.funct7 < 2 ^ 7 }

        ensures opcode { field 0 7 result ≡ self.opcode }
        ensures rd { field 7 5 result ≡ self.rd }
        ensures funct3 { field 12 3 result ≡ self.funct3 }
        ensures rs1 { field 15 5 result ≡ self.rs1 }
        ensures rs2 { field 20 5 result ≡ self.rs2 }
        ensures funct7 { field 25 7 result ≡ self.funct7 }
    {
        let high = joined(joined(self.funct7, self.rs2, 5), self.rs1, 5);
        let low = joined(joined(self.funct3, self.rd, 5), self.opcode, 7);
        joined(high, low, 15)
    }

    /// These fields with an immediate of format I.
    pub fn with_i(self, imm: u32) -> Self
        ensures { result ≡ record self { rs2 = field 0 5 imm; funct7 = field 5 7 imm } }
    {
        Fields {
            rs2: field(imm, 0, 5),
            funct7: field(imm, 5, 7),
            ..self
        }
    }

    /// These fields with an immediate of format S.
    pub fn with_s(self, imm: u32) -> Self
        ensures { result ≡ record self { rd = field 0 5 imm; funct7 = field 5 7 imm } }
    {
        Fields {
            rd: field(imm, 0, 5),
            funct7: field(imm, 5, 7),
            ..self
        }
    }

    /// These fields with an immediate of format B.
    pub fn with_b(self, imm: u32) -> Self
        ensures { result ≡ record self {
          rd = field 1 4 imm * 2 + field 11 1 imm;
          funct7 = field 12 1 imm * 2 ^ 6 + field 5 6 imm;
        } }
    {
        Fields {
            rd: even_low(imm),
            funct7: even_high(imm, 12),
            ..self
        }
    }

    /// These fields with an immediate of format U.
    pub fn with_u(self, imm: u32) -> Self
        ensures { result ≡ record self {
          funct3 = field 12 3 imm;
          rs1 = field 15 5 imm;
          rs2 = field 20 5 imm;
          funct7 = field 25 7 imm;
        } }
    {
        Fields {
            funct3: field(imm, 12, 3),
            rs1: field(imm, 15, 5),
            rs2: field(imm, 20, 5),
            funct7: field(imm, 25, 7),
            ..self
        }
    }

    /// These fields with an immediate of format J.
    pub fn with_j(self, imm: u32) -> Self
        ensures { result ≡ record self {
          funct3 = field 12 3 imm;
          rs1 = field 15 5 imm;
          rs2 = field 1 4 imm * 2 + field 11 1 imm;
          funct7 = field 20 1 imm * 2 ^ 6 + field 5 6 imm;
        } }
    {
        Fields {
            funct3: field(imm, 12, 3),
            rs1: field(imm, 15, 5),
            rs2: even_low(imm),
            funct7: even_high(imm, 20),
            ..self
        }
    }
}

/// Bits 4 to 1 of an even immediate, and its bit 11 below them.
fn even_low(imm: u32) -> u32
    ensures { result ≡ field 1 4 imm * 2 + field 11 1 imm }
{
    joined(field(imm, 1, 4), field(imm, 11, 1), 1)
}

/// The sign bit of an even immediate, and its bits 10 to 5 below it.
fn even_high(imm: u32, sign: u32) -> u32
    requires { sign < 32 }
    ensures { result ≡ field sign 1 imm * 2 ^ 6 + field 5 6 imm }
{
    joined(field(imm, sign, 1), field(imm, 5, 6), 6)
}
