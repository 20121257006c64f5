ghost use Rattle.std.specs.Prelude.{◌≡◌, ◌<◌, replicate};
ghost use Rattle.rv_isa.specs.Regs.{register, written};

use std::marker::Model;

/// The 32 registers of 32 bits. Register 0 is always 0.
#[derive(Clone, Copy, Debug, PartialEq, Eq)]
pub struct Regs {
    values: [u32; 32],
}

impl Model for Regs {
    ghost use Rattle.std.specs.Prelude.{◌≡◌, ℕ, List, slice_index};

    ghost Value = { List ℕ };

    ghost view = { λ r. r.values };

    ghost invariant = { λ r. slice_index r.values 0 ≡ 0 };

    ghost inverse = { λ xs. record { values = xs } };
}

impl Regs {
    /// All registers are 0.
    pub fn zero() -> Self
        ensures { result ≡ replicate 32 0 }
    {
        Regs { values: [0; 32] }
    }

    /// What a register holds. Register 0 reads 0.
    pub fn get(&self, r: u8) -> u32
        requires { r < 32 }
        ensures { result ≡ register self.now r }
    {
        self.values[r as usize]
    }

    /// Writes a register. Where that is register 0, nothing changes.
    pub fn set(&mut self, r: u8, value: u32)
        requires { r < 32 }
        ensures { self.new ≡ written self.old r value }
    {
        if r != 0 {
            self.values[r as usize] = value;
        }
    }
}
