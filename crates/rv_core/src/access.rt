ghost use Rattle.std.specs.Prelude.{◌≡◌};
ghost use Rattle.rv_core.specs.Core.{misaligned, unmapped, is_answer};

use port_msg::{Cause, MsgKind};

/// A load or a store that is under way.
#[derive(Clone, Copy, Debug, PartialEq, Eq)]
pub struct Access {
    /// The address of its first byte.
    pub addr: u32,
    /// How many bytes it has: 1, 2 or 4.
    pub bytes: u8,
    /// What it does with them.
    pub deed: Deed,
}

/// What a load or a store does.
#[derive(Clone, Copy, Debug, PartialEq, Eq)]
pub enum Deed {
    /// It reads into the register `rd`, with the sign extended or with zeros above.
    Load { rd: u8, signed: bool },
    /// It writes the low bytes of a register, which are `value`.
    Store { value: u32 },
}

impl Deed {
    /// Why the core halts where the address is no multiple of the bytes.
    pub fn misaligned(self) -> Cause
        ensures { result ≡ misaligned self }
    {
        match self {
            Deed::Load { .. } => Cause::MisalignedLoad,
            Deed::Store { .. } => Cause::MisalignedStore,
        }
    }

    /// Why the core halts where no port has the address.
    pub fn unmapped(self) -> Cause
        ensures { result ≡ unmapped self }
    {
        match self {
            Deed::Load { .. } => Cause::UnmappedLoad,
            Deed::Store { .. } => Cause::UnmappedStore,
        }
    }

    /// Whether a message is the answer to a load or a store of so many bytes.
    pub fn is_answer(self, bytes: u8, kind: MsgKind, len: u8) -> bool
        ensures { result ≡ is_answer self bytes kind len }
    {
        match (self, kind) {
            (Deed::Load { .. }, MsgKind::ReadRsp) => len == bytes,
            (Deed::Store { .. }, MsgKind::WriteRsp) => len == 0,
            _ => false,
        }
    }
}
