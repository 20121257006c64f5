//! RV32I, the base instruction set of the RISC-V Instruction Set Manual, Volume I: words and the instructions that they spell, and what an instruction does to registers.
#![tactic(auto)]

mod bits;
mod decoding;
mod effect;
mod encoding;
mod execution;
mod fields;
mod format;
mod immediate;
mod inst;
mod load;
mod op;
mod op_code;
mod regs;
mod row;

pub use decoding::{Illegal, decode};
pub use effect::Effect;
pub use encoding::encode;
pub use execution::{exec, word_effect};
pub use inst::Inst;
pub use load::loaded;
pub use op::Op;
pub use regs::Regs;
