/// What an instruction does, for its machine to carry out. Addresses and values are modulo 2^32.
#[derive(Clone, Copy, Debug, PartialEq, Eq)]
pub enum Effect {
    /// Writes `value` to the register `rd`, below 32, and goes to the address `next`, a multiple of 4 where `pc` is one.
    /// A branch writes nothing: it has `rd` 0 and `value` 0.
    Go {
        rd: u8,
        value: u32,
        next: u32,
    },
    /// Reads 1, 2 or 4 bytes from `addr` on, the lowest first, into the register `rd`, below 32: `loaded` makes the value
    /// of them, with copies of their sign above where `signed` is set, and else with zeros. LW has `signed` unset.
    Load {
        rd: u8,
        bytes: u8,
        signed: bool,
        addr: u32,
    },
    /// Writes the low 1, 2 or 4 bytes of a register, which are `value`, from `addr` on, the lowest first.
    Store {
        bytes: u8,
        addr: u32,
        value: u32,
    },
    /// FENCE.
    Fence,
    /// ECALL.
    Call,
    /// EBREAK.
    Break,
    /// A jump or a taken branch to an address that is no multiple of 4. Nothing is written.
    BadTarget,
}
